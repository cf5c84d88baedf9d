//! The words of the command line: a mode and a file or a size, with options for the inputs, a second file, the limits, the order and the
//! trace.
#![tactic(auto)]

mod app;
mod beside;
mod command;
mod laws;
mod limit;
mod mode;
mod naming;
mod numeral;
mod order;
mod read;
mod size;

pub use beside::Beside;
pub use command::{Command, WordsRefusal};
pub use laws::{check_needs_other, drill_needs_size, two_words_are_enough};
pub use limit::{GREATEST_LIMIT, USUAL_REDUCTIONS, USUAL_STATES};
pub use mode::Mode;
pub use read::read_words;
