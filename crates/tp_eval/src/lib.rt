//! The evaluation of expressions as far as a state is known.
#![tactic(auto)]

mod calls;
mod count;
mod evaluate;
mod halt;
mod kinds;
mod laws;
mod lookup;
mod operand;
mod operate;
mod outcome;
mod places;
mod written;

pub use calls::{eval, place};
pub use evaluate::is_place;
pub use laws::{outcomes_mean, waits_are_undecided};
pub use operand::{bound_value, kept_value};
pub use outcome::{Outcome, PlaceOutcome};
