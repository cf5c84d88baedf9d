// What a token is without its text, and what it may do in a phrase.
use tp_lex::{Symbol, Word};
use tp_tree::{Bare, Form, Op};

/// A token without its text, or the end of the tokens.
#[derive(Clone, Copy, PartialEq, Eq)]
pub enum TokenMark {
    End,
    Upper,
    Lower,
    Number,
    Word(Word),
    Symbol(Symbol),
}

/// What a token does after an operand: nothing, or it is an operator, the `[` of an index, or the `and` of a chain.
#[derive(Clone, Copy)]
pub enum TokenRole {
    Ends,
    Infix(Op),
    Opens,
    Joins,
}

/// An operator before its operand.
#[derive(Clone, Copy)]
pub enum Prefix {
    Not,
    Minus,
    Next,
}

/// Marks round one operand: `( )`, `{ }` and `| |`.
#[derive(Clone, Copy)]
pub enum Enclosure {
    Round,
    Curly,
    Size,
}

/// What a token begins where an operand is due.
#[derive(Clone, Copy)]
pub enum Start {
    Nothing,
    Number,
    /// A name that is no call.
    Name,
    /// A name, or a call where `(` follows.
    NameOrCall,
    Truth(bool),
    Bare(Bare),
    EmptyList,
    List,
    Form(Form),
    Enclosed(Enclosure),
    If,
    While,
    Repeat,
    For,
    Forall,
    Exists,
}
