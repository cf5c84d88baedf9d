//! The whole call, over any files and any sink: from the words to what is written and the status.
#![tactic(auto)]

mod answer;
mod call;
mod checking;
mod close;
mod command;
mod converting;
mod drill;
mod end_line;
mod job;
mod laws;
mod printing;
mod refused;
mod run;
mod source;
mod status;
mod status_text;

pub use call::tempura;
pub use end_line::refusal_text;
pub use laws::status_lines_tell;
pub use status::{SourceKind, Status, Which};
