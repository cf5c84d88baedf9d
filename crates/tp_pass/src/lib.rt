//! The closure of a state by repeated passes.
#![tactic(auto)]

mod pass;
mod sweep;
mod turn;

pub use pass::close_by_passes;
