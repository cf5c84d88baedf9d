//! The trace lines of a state: how many reductions it took, and what is still to hold from the next state on, as a phrase.
#![tactic(auto)]

mod chain;
mod expr;
mod formula;
mod laws;
mod scene;
mod trace;
mod words;

pub use laws::{alike_moments_have_one_phrase, next_scenes_are_carried, residual_examples};
pub use trace::trace_text;
