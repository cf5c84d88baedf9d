//! Which wider formulas a trace satisfies: the wider formula that a source is, and the verdict on it by what a trace tells.
#![tactic(auto)]

mod filling;
mod judge;
mod laws;
mod told;
mod wide;
mod wide_formula_of;
mod widening;

pub use judge::{MonitorRefusal, STATE_LIMIT, holds_on};
pub use laws::judged_rightly;
pub use tp_verdict::Verdict;
pub use wide::{Wide, read_wide};
