// What a text begins with, or why with no token.
use crate::token::Kind;

/// Why a text begins with no token.
#[derive(Clone, Copy)]
pub enum Fault {
    BadByte,
    OpenComment,
    NumberTooLarge,
    NameTooLong,
}

/// What a text begins with, and how many bytes that has.
#[derive(Drop)]
pub enum Piece {
    /// A blank or a comment.
    Gap(usize),
    Lexeme(Kind, usize),
    Refused(Fault),
}
