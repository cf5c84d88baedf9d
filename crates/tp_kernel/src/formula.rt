// Expressions, formulas and definitions.
use std::rc::Rc;
use tp_value::{Number, Path, Text, Texts, Value, VarId};

/// An operator on two values: `= <> < <= > >= + - * div mod` in this order.
#[derive(Clone, Copy, Debug, PartialEq, Eq)]
pub enum Op2 {
    Equal,
    Differs,
    Less,
    LessEqual,
    Greater,
    GreaterEqual,
    Plus,
    Minus,
    Times,
    Div,
    Mod,
}

/// An expression. `Bound(i)` is entry i of the environment, counted from 0; `Call` has the number of a definition.
#[derive(Drop)]
#[cycle(expr)]
pub enum Expr {
    Number(Number),
    Truth(bool),
    Known(Rc<Value>),
    Bound(u32),
    Global(VarId),
    List(Exprs),
    Size(Rc<Expr>),
    Index(Rc<Expr>, Rc<Expr>),
    Minus(Rc<Expr>),
    Not(Rc<Expr>),
    Both(Exprs),
    Either(Rc<Expr>, Rc<Expr>),
    Op(Op2, Rc<Expr>, Rc<Expr>),
    If(Rc<Expr>, Rc<Expr>, Rc<Expr>),
    Call(u32, Exprs),
}

/// Expressions in order.
#[derive(Drop)]
#[cycle(expr)]
pub struct Exprs {
    pub items: Vec<Expr>,
}

/// A formula. In `NextEq` stands the number of `next`; `For`, `Forall` and `Exists` bind one name more in their bodies.
#[cycle(formula)]
pub enum Formula {
    True,
    Test(Rc<Expr>),
    Eq(Rc<Expr>, Rc<Expr>),
    NextEq(u32, Rc<Expr>, Rc<Expr>),
    Empty,
    More,
    Next(Rc<Formula>),
    WeakNext(Rc<Formula>),
    IfMore(Rc<Formula>),
    IfEmpty(Rc<Formula>),
    Always(Rc<Formula>),
    And(Formulas),
    If(Rc<Expr>, Rc<Formula>, Rc<Formula>),
    Len(Rc<Expr>),
    Assign(Rc<Expr>, Rc<Expr>),
    Chop(Rc<Formula>, Rc<Formula>),
    While(Rc<Expr>, Rc<Formula>),
    For {
        name: Text,
        from: Number,
        to: Rc<Expr>,
        body: Rc<Formula>,
    },
    Forall {
        name: Text,
        from: Number,
        to: Rc<Expr>,
        body: Rc<Formula>,
    },
    Proj(Rc<Formula>, Rc<Formula>),
    Exists {
        name: Text,
        lasting: bool,
        body: Rc<Formula>,
    },
    Call(u32, Exprs),
    Input(Rc<Expr>, Text),
    Display(Exprs),
}

/// Formulas in order.
#[derive(Drop)]
#[cycle(formula)]
pub struct Formulas {
    pub items: Vec<Rc<Formula>>,
}

// A chain of `Exists` is let go by a loop, for each name of an `exists` makes one.
impl Drop for Formula {
    #[cycle(formula)]
    fn drop(mut self) {
        'names: loop {
            match self {
                Formula::Exists {
                    name: _,
                    lasting: _,
                    body,
                } => match Rc::try_unwrap(body) {
                    Ok(inner) => self = inner,
                    Err(_) => return,
                },
                Formula::True | Formula::Empty | Formula::More => return,
                Formula::Test(_) | Formula::Len(_) => return,
                Formula::Eq(_, _) | Formula::NextEq(_, _, _) | Formula::Assign(_, _) => return,
                Formula::Next(_) | Formula::WeakNext(_) | Formula::Always(_) => return,
                Formula::IfMore(_) | Formula::IfEmpty(_) => return,
                Formula::And(_) | Formula::If(_, _, _) | Formula::Chop(_, _) => return,
                Formula::While(_, _) | Formula::Proj(_, _) => return,
                Formula::For {
                    name: _,
                    from: _,
                    to: _,
                    body: _,
                } => return,
                Formula::Forall {
                    name: _,
                    from: _,
                    to: _,
                    body: _,
                } => return,
                Formula::Call(_, _) | Formula::Input(_, _) | Formula::Display(_) => return,
            }
        }
    }
}

/// A definition, with an expression where its body is one of a single state.
#[derive(Drop)]
pub struct Def {
    pub name: Text,
    pub parameters: Texts,
    pub formula: Rc<Formula>,
    pub expr: Option<Rc<Expr>>,
}

/// Definitions, by their numbers from 0.
#[derive(Drop)]
pub struct Defs {
    pub items: Vec<Def>,
}

/// What a bound name stands for.
#[derive(Drop)]
pub enum Binding {
    Place(Path),
    Known(Rc<Value>),
}

/// What the bound names stand for, the outermost first.
#[derive(Drop)]
pub struct Env {
    pub items: Vec<Binding>,
}
