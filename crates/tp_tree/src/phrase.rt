// Phrases, definitions and sources.
use crate::{Bare, Form, Op};
use tp_value::{Number, Text, Texts};

/// A phrase. `at` is the place of the first byte of its text, without parentheses round the whole.
#[derive(Drop)]
#[cycle(phrase)]
pub struct Phrase {
    pub at: u32,
    pub kind: PhraseKind,
}

/// Phrases in the order of the text.
#[derive(Drop)]
#[cycle(phrase)]
pub struct Phrases {
    pub items: Vec<Phrase>,
}

/// What a phrase is. A chain of `and` is one phrase with all its operands.
#[derive(Drop)]
#[cycle(phrase)]
pub enum PhraseKind {
    Number(Number),
    Truth(bool),
    Name(Text),
    List(Phrases),
    Size(Box<Phrase>),
    Index(Box<Phrase>, Box<Phrase>),
    Minus(Box<Phrase>),
    Next(Box<Phrase>),
    Not(Box<Phrase>),
    Binary(Op, Box<Phrase>, Box<Phrase>),
    And(Phrases),
    If(Box<Phrase>, Box<Phrase>, Option<Box<Phrase>>),
    While(Box<Phrase>, Box<Phrase>),
    Repeat(Box<Phrase>, Box<Phrase>),
    For(Text, Box<Phrase>, Box<Phrase>),
    Forall(Text, Box<Phrase>, Box<Phrase>),
    Exists(Texts, Box<Phrase>),
    Bare(Bare),
    Form(Form, Phrases),
    Call(Text, Phrases),
}

/// `define name(parameters) = body.` `at` is the place of the first byte of its word `define`.
#[derive(Drop)]
pub struct Definition {
    pub name: Text,
    pub at: u32,
    pub parameters: Texts,
    pub body: Phrase,
}

/// Definitions in the order of the text.
#[derive(Drop)]
pub struct Definitions {
    pub items: Vec<Definition>,
}

/// A whole source: its definitions, and the phrase after `run`.
#[derive(Drop)]
pub struct Source {
    pub definitions: Definitions,
    pub main: Phrase,
}
