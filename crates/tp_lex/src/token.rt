// What a source text is made of.
ghost use Rattle.std.specs.Prelude.{List};
ghost use Rattle.tp_lex.specs.declared.token.Token.{Token};

use std::marker::Model;
use tp_value::{Number, Text};

/// The words of the language, which are no names.
#[derive(Clone, Copy, PartialEq, Eq)]
pub enum Word {
    If,
    Then,
    Else,
    While,
    Do,
    Repeat,
    Until,
    For,
    Forall,
    Exists,
    Define,
    Run,
    True,
    False,
    And,
    Or,
    Not,
    Div,
    Mod,
    Empty,
    More,
    Skip,
    Next,
    Always,
    Keep,
    Fin,
    Halt,
    Stable,
    Sometimes,
    Gets,
    Len,
    List,
    Input,
    Display,
    Proj,
}

/// `( ) { } [ ] < > <= >= <> = + - * ; , . : := <- |`, in this order.
#[derive(Clone, Copy, PartialEq, Eq)]
pub enum Symbol {
    OpenRound,
    CloseRound,
    OpenCurly,
    CloseCurly,
    OpenSquare,
    CloseSquare,
    Less,
    Greater,
    LessEqual,
    GreaterEqual,
    Differs,
    Equal,
    Plus,
    Minus,
    Times,
    Semicolon,
    Comma,
    Stop,
    Colon,
    Becomes,
    Arrow,
    Bar,
}

/// What a token is. Names begin with an upper-case or a lower-case letter.
#[derive(Drop)]
pub enum Kind {
    Upper(Text),
    Lower(Text),
    Number(Number),
    Word(Word),
    Symbol(Symbol),
}

/// A token, and where it stands: its bytes are those from `from` up to before `to`, counted from 0. The line and the column,
/// both counted from 1, are those of its first byte.
#[derive(Drop)]
pub struct Token {
    pub kind: Kind,
    pub from: u32,
    pub to: u32,
    pub line: u32,
    pub column: u32,
}

/// A place in a text: the number of bytes before it, and its line and column, counted from 1.
#[derive(Clone, Copy)]
pub struct TextPlace {
    pub at: u32,
    pub line: u32,
    pub column: u32,
}

/// A list of tokens.
#[derive(Drop)]
pub struct Tokens {
    pub items: Vec<Token>,
}

impl Model for Tokens {
    ghost Value = { List Token };

    ghost view = { λ a. a.items.items };
}
