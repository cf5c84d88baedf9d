//! Phrases of a source, as they are written.
#![tactic(auto)]

mod laws;
pub mod level;
mod operator;
mod phrase;
mod printing;

pub use laws::spelling_examples;
pub use operator::{Bare, Form, Grouping, Op};
pub use phrase::{Definition, Definitions, Phrase, PhraseKind, Phrases, Source};
pub use printing::print;
