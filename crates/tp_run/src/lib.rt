//! The run of a program over its states.
#![tactic(auto)]

mod laws;
mod limits;
mod picture;
mod run;
mod tally;

pub use laws::{runs_advance, runs_mean};
pub use limits::Limits;
pub use run::Run;
