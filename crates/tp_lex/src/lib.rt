//! Tokens of a source text, and its places; and the lines of a text.
#![tactic(auto)]

mod first;
mod laws;
mod line;
mod piece;
mod place;
mod reading;
mod refusal;
mod spelling;
mod token;

pub use first::{NAME_LIMIT, name_len};
pub use laws::{names_are_spelled, readings_are_unique};
pub use line::first_line;
pub use place::place_of;
pub use reading::tokens;
pub use refusal::LexRefusal;
pub use spelling::word_of;
pub use token::{Kind, Symbol, Token, Tokens, Word};
