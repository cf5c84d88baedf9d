//! From the phrases of a source to the program that is run: its definitions, its formula, and the names of its variables.
#![tactic(auto)]

mod calls;
mod definitions;
mod equation;
mod expression;
mod formula;
mod hiding;
mod laws;
mod loops;
mod memory;
mod operation;
mod program;
mod refusal;
mod refusals;
mod state;

pub use expression::shared_expression;
pub use formula::shared_formula;
pub use laws::{checked_once, globals_are_names, programs_keep_rules, refusals_name_broken};
pub use program::{Program, check};
pub use refusal::CheckRefusal;
pub use refusals::miscounted_or;
pub use state::is_state_here;
