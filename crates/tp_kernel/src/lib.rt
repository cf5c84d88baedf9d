//! Expressions, formulas and definitions as the program holds them, and the plain trees that contracts see them as.
#![tactic(auto)]

mod derived;
mod fault;
mod formula;
mod letters;

pub use derived::{becomes, fin, gets, halt, keep, list, next_equals, repeat, skip, stable};
pub use fault::{FaultKind, LimitKind};
pub use formula::{Binding, Def, Defs, Env, Expr, Exprs, Formula, Formulas, Op2};
pub use letters::{is_lower, is_upper};
