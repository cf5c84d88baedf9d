// What conditions and counts make of a formula.
ghost use Rattle.std.specs.Prelude.{◌≡◌, IfOk};
ghost use Rattle.tp_kernel.specs.Read.{expr_tree, formula_tree};
ghost use Rattle.tp_check.specs.Building.{guarded_by, counted_by};

use std::alloc::Global;
use std::rc::Rc;
use tp_kernel::{Expr, Formula};
use tp_value::{NoMemory, Text};

/// What stands under a condition is done once, or as long as the condition holds.
#[derive(Clone, Copy)]
pub enum Guard {
    If,
    While,
}

impl Guard {
    /// The body under this condition.
    pub fn make(
        self,
        alloc: Global,
        condition: Rc<Expr>,
        body: Rc<Formula>,
    ) -> Result<Formula, NoMemory>
        ensures { IfOk result (λ w. formula_tree w
            ≡ guarded_by self (expr_tree condition.value) (formula_tree body.value)) }
    {
        match self {
            Guard::If => Ok(Formula::If(condition, body, Rc::new(alloc, Formula::True)?)),
            Guard::While => Ok(Formula::While(condition, body)),
        }
    }
}

/// What is said of each number below a bound is done in turn, or all at once.
#[derive(Clone, Copy)]
pub enum Counting {
    For,
    Forall,
}

impl Counting {
    /// The body for each number from 0 to below the bound, which the name stands for.
    pub fn make(
        self,
        alloc: Global,
        name: &Text,
        to: Rc<Expr>,
        body: Formula,
    ) -> Result<Formula, NoMemory>
        ensures { IfOk result (λ w. formula_tree w
            ≡ counted_by self name.now (expr_tree to.value) (formula_tree body)) }
    {
        let name = name.copy()?;
        let body = Rc::new(alloc, body)?;
        let from = 0;
        match self {
            Counting::For => Ok(Formula::For {
                name,
                from,
                to,
                body,
            }),
            Counting::Forall => Ok(Formula::Forall {
                name,
                from,
                to,
                body,
            }),
        }
    }
}
