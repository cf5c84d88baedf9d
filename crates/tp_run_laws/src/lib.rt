//! Laws of whole runs: runs in any order of picks, and what can be printed so that a trace is read from it. Definitions, and their laws.
//! Each law is a clause of a function that does nothing; a proof elsewhere cites its lemma.
#![tactic(auto)]

mod order;
mod printable;

pub use order::{all_runs_are_alike, beginnings_go_on, runs_agree};
pub use printable::{residuals_are_one_line, runs_are_printable, sources_are_printable};
