//! Sources from tokens.
#![tactic(auto)]

mod head;
mod laws;
mod mark;
mod operands;
mod parser;
mod phrase;
mod phrases;
mod primary;
mod refusal;
mod role;
mod source;
mod stop;

pub use laws::{names_are_tokens, place_is_one, printed_is_read_back};
pub use refusal::ParseRefusal;
pub use source::parse;
