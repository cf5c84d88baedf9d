//! A large source: of as many variables as are asked for, in which each waits for the next.
#![tactic(auto)]

mod laws;
mod source;

pub use laws::source_of_three;
pub use source::large_source;
