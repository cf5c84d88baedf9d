// How words and symbols are written.
ghost use Rattle.std.specs.Prelude.{◌≡◌, ◌&&◌, bytes_eq, find, nat_eq, slice_index};
ghost use Rattle.std.specs.List.{starts_with, filter};
ghost use Rattle.tp_lex.specs.Spelling.{word_spelling, symbol_spelling};
ghost use Rattle.tp_lex.specs.Spelled.{has_letters, spelled_word, longest_symbol};
ghost use Rattle.tp_lex.specs.declared.spelling.TheConstants.{WORDS};

use crate::token::{Symbol, Word};

/// The words, in the order of their type: contracts go by this list.
pub const WORDS: [Word; 35] = [
    Word::If,
    Word::Then,
    Word::Else,
    Word::While,
    Word::Do,
    Word::Repeat,
    Word::Until,
    Word::For,
    Word::Forall,
    Word::Exists,
    Word::Define,
    Word::Run,
    Word::True,
    Word::False,
    Word::And,
    Word::Or,
    Word::Not,
    Word::Div,
    Word::Mod,
    Word::Empty,
    Word::More,
    Word::Skip,
    Word::Next,
    Word::Always,
    Word::Keep,
    Word::Fin,
    Word::Halt,
    Word::Stable,
    Word::Sometimes,
    Word::Gets,
    Word::Len,
    Word::List,
    Word::Input,
    Word::Display,
    Word::Proj,
];

/// The symbols, those of two bytes first: contracts go by this list.
pub const SYMBOLS: [Symbol; 22] = [
    Symbol::LessEqual,
    Symbol::GreaterEqual,
    Symbol::Differs,
    Symbol::Becomes,
    Symbol::Arrow,
    Symbol::OpenRound,
    Symbol::CloseRound,
    Symbol::OpenCurly,
    Symbol::CloseCurly,
    Symbol::OpenSquare,
    Symbol::CloseSquare,
    Symbol::Less,
    Symbol::Greater,
    Symbol::Equal,
    Symbol::Plus,
    Symbol::Minus,
    Symbol::Times,
    Symbol::Semicolon,
    Symbol::Comma,
    Symbol::Stop,
    Symbol::Colon,
    Symbol::Bar,
];

impl Word {
    /// The bytes that spell the word.
    pub fn spelling(self) -> &'static [u8]
        ensures { result.now ≡ word_spelling self }
    {
        match self {
            Word::If => b"if".as_slice(),
            Word::Then => b"then".as_slice(),
            Word::Else => b"else".as_slice(),
            Word::While => b"while".as_slice(),
            Word::Do => b"do".as_slice(),
            Word::Repeat => b"repeat".as_slice(),
            Word::Until => b"until".as_slice(),
            Word::For => b"for".as_slice(),
            Word::Forall => b"forall".as_slice(),
            Word::Exists => b"exists".as_slice(),
            Word::Define => b"define".as_slice(),
            Word::Run => b"run".as_slice(),
            Word::True => b"true".as_slice(),
            Word::False => b"false".as_slice(),
            Word::And => b"and".as_slice(),
            Word::Or => b"or".as_slice(),
            Word::Not => b"not".as_slice(),
            Word::Div => b"div".as_slice(),
            Word::Mod => b"mod".as_slice(),
            Word::Empty => b"empty".as_slice(),
            Word::More => b"more".as_slice(),
            Word::Skip => b"skip".as_slice(),
            Word::Next => b"next".as_slice(),
            Word::Always => b"always".as_slice(),
            Word::Keep => b"keep".as_slice(),
            Word::Fin => b"fin".as_slice(),
            Word::Halt => b"halt".as_slice(),
            Word::Stable => b"stable".as_slice(),
            Word::Sometimes => b"sometimes".as_slice(),
            Word::Gets => b"gets".as_slice(),
            Word::Len => b"len".as_slice(),
            Word::List => b"list".as_slice(),
            Word::Input => b"input".as_slice(),
            Word::Display => b"display".as_slice(),
            Word::Proj => b"proj".as_slice(),
        }
    }
}

impl Symbol {
    /// The bytes that spell the symbol.
    pub fn spelling(self) -> &'static [u8]
        ensures { result.now ≡ symbol_spelling self }
    {
        match self {
            Symbol::OpenRound => b"(".as_slice(),
            Symbol::CloseRound => b")".as_slice(),
            Symbol::OpenCurly => b"{".as_slice(),
            Symbol::CloseCurly => b"}".as_slice(),
            Symbol::OpenSquare => b"[".as_slice(),
            Symbol::CloseSquare => b"]".as_slice(),
            Symbol::Less => b"<".as_slice(),
            Symbol::Greater => b">".as_slice(),
            Symbol::LessEqual => b"<=".as_slice(),
            Symbol::GreaterEqual => b">=".as_slice(),
            Symbol::Differs => b"<>".as_slice(),
            Symbol::Equal => b"=".as_slice(),
            Symbol::Plus => b"+".as_slice(),
            Symbol::Minus => b"-".as_slice(),
            Symbol::Times => b"*".as_slice(),
            Symbol::Semicolon => b";".as_slice(),
            Symbol::Comma => b",".as_slice(),
            Symbol::Stop => b".".as_slice(),
            Symbol::Colon => b":".as_slice(),
            Symbol::Becomes => b":=".as_slice(),
            Symbol::Arrow => b"<-".as_slice(),
            Symbol::Bar => b"|".as_slice(),
        }
    }
}

// The first of the words that is spelled so.
fn word_among(words: &[Word], text: &[u8]) -> Option<Word>
    ensures { result ≡ find (λ w. bytes_eq (word_spelling w) text.now) words.now }
{
    for word in words {
        if word.spelling() == text {
            return Some(*word);
        }
    }
    None
}

// The words of so many letters that begin with this one.
fn words_of(letters: usize, first: u8) -> &'static [Word]
    ensures { result.now ≡ filter (λ w. has_letters letters w
        && nat_eq (slice_index (word_spelling w) 0) first) WORDS }
{
    match (letters, first) {
        (2, b'i') => &[Word::If],
        (2, b'd') => &[Word::Do],
        (2, b'o') => &[Word::Or],
        (3, b'f') => &[Word::For, Word::Fin],
        (3, b'r') => &[Word::Run],
        (3, b'a') => &[Word::And],
        (3, b'n') => &[Word::Not],
        (3, b'd') => &[Word::Div],
        (3, b'm') => &[Word::Mod],
        (3, b'l') => &[Word::Len],
        (4, b't') => &[Word::Then, Word::True],
        (4, b'e') => &[Word::Else],
        (4, b'm') => &[Word::More],
        (4, b's') => &[Word::Skip],
        (4, b'n') => &[Word::Next],
        (4, b'k') => &[Word::Keep],
        (4, b'h') => &[Word::Halt],
        (4, b'g') => &[Word::Gets],
        (4, b'l') => &[Word::List],
        (4, b'p') => &[Word::Proj],
        (5, b'w') => &[Word::While],
        (5, b'u') => &[Word::Until],
        (5, b'f') => &[Word::False],
        (5, b'e') => &[Word::Empty],
        (5, b'i') => &[Word::Input],
        (6, b'r') => &[Word::Repeat],
        (6, b'f') => &[Word::Forall],
        (6, b'e') => &[Word::Exists],
        (6, b'd') => &[Word::Define],
        (6, b'a') => &[Word::Always],
        (6, b's') => &[Word::Stable],
        (7, b'd') => &[Word::Display],
        (9, b's') => &[Word::Sometimes],
        _ => &[],
    }
}

/// The word that the whole text spells.
pub fn word_of(text: &[u8]) -> Option<Word>
    ensures { result ≡ spelled_word text.now }
{
    match text {
        [first, ..] => word_among(words_of(text.len(), *first), text),
        [] => None,
    }
}

// The first of the symbols that the text begins with.
fn symbol_among(symbols: &[Symbol], text: &[u8]) -> Option<Symbol>
    ensures { result ≡ find (λ s. starts_with nat_eq text.now (symbol_spelling s)) symbols.now }
{
    for symbol in symbols {
        if text.starts_with(symbol.spelling()) {
            return Some(*symbol);
        }
    }
    None
}

/// The longest symbol that the text begins with.
pub fn first_symbol(text: &[u8]) -> Option<Symbol>
    ensures { result ≡ longest_symbol text.now }
{
    if text.is_empty() {
        return None;
    }
    match text[0] {
        b'<' => symbol_among(
            &[
                Symbol::LessEqual,
                Symbol::Differs,
                Symbol::Arrow,
                Symbol::Less,
            ],
            text,
        ),
        b'>' => symbol_among(&[Symbol::GreaterEqual, Symbol::Greater], text),
        b':' => symbol_among(&[Symbol::Becomes, Symbol::Colon], text),
        b'(' => Some(Symbol::OpenRound),
        b')' => Some(Symbol::CloseRound),
        b'{' => Some(Symbol::OpenCurly),
        b'}' => Some(Symbol::CloseCurly),
        b'[' => Some(Symbol::OpenSquare),
        b']' => Some(Symbol::CloseSquare),
        b'=' => Some(Symbol::Equal),
        b'+' => Some(Symbol::Plus),
        b'-' => Some(Symbol::Minus),
        b'*' => Some(Symbol::Times),
        b';' => Some(Symbol::Semicolon),
        b',' => Some(Symbol::Comma),
        b'.' => Some(Symbol::Stop),
        b'|' => Some(Symbol::Bar),
        _ => None,
    }
}
