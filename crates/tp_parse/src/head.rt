// What a primary begins with.
use crate::mark::Enclosure;
use tp_tree::{Bare, Form};
use tp_value::{Number, Text, Texts};

/// A primary without operands.
#[derive(Drop)]
pub enum Atom {
    Number(Number),
    Truth(bool),
    Name(Text),
    Bare(Bare),
    EmptyList,
}

/// A primary with any number of operands.
#[derive(Drop)]
pub enum Listed {
    List,
    Form(Form),
    Call(Text),
}

/// A primary with two operands and a mark between them, which begins with a word.
#[derive(Drop)]
pub enum Pair {
    While,
    Repeat,
    For(Text),
    Forall(Text),
}

/// What a primary begins with; an atom is there whole.
#[derive(Drop)]
pub enum PrimaryHead {
    Atom(Atom),
    Listed(Listed),
    Enclosed(Enclosure),
    If,
    Paired(Pair),
    Exists(Texts),
}
