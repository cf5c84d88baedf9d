// Wider formulas.
use std::rc::Rc;
use tp_kernel::Expr;

/// A wider formula. In `NextEq` stands the number of `next`. `Repeat` is the formula, and behind it a loop of the same formula under the
/// condition: it stands for both, so that a table of it is made once.
#[derive(Drop)]
#[cycle(wide_formula)]
pub enum WideFormula {
    True,
    Test(Rc<Expr>),
    Eq(Rc<Expr>, Rc<Expr>),
    NextEq(u32, Rc<Expr>, Rc<Expr>),
    Empty,
    More,
    Next(Box<WideFormula>),
    IfMore(Box<WideFormula>),
    IfEmpty(Box<WideFormula>),
    Always(Box<WideFormula>),
    And(WideFormulas),
    If(Rc<Expr>, Box<WideFormula>, Box<WideFormula>),
    Len(Rc<Expr>),
    Assign(Rc<Expr>, Rc<Expr>),
    Chop(Box<WideFormula>, Box<WideFormula>),
    While(Rc<Expr>, Box<WideFormula>),
    Or(Box<WideFormula>, Box<WideFormula>),
    Not(Box<WideFormula>),
    Sometimes(Box<WideFormula>),
    Repeat(Box<WideFormula>, Rc<Expr>),
}

/// Wider formulas in order.
#[derive(Drop)]
#[cycle(wide_formula)]
pub struct WideFormulas {
    pub items: Vec<WideFormula>,
}
