// What each token does in a phrase. Levels of operators are those of `tp_tree::level`.
ghost use Rattle.std.specs.Prelude.{◌≡◌};
ghost use Rattle.tp_parse.specs.Marks as spec;

use crate::mark::{Enclosure, Prefix, Start, TokenMark, TokenRole};
use tp_lex::{Kind, Symbol, Word};
use tp_tree::level::{AND, INDEX, NOT, PREFIX, op_level};
use tp_tree::{Bare, Form, Op};

pub fn mark_of(kind: &Kind) -> TokenMark
    ensures { result ≡ spec.kind_mark kind.now }
{
    match kind {
        Kind::Upper(_) => TokenMark::Upper,
        Kind::Lower(_) => TokenMark::Lower,
        Kind::Number(_) => TokenMark::Number,
        Kind::Word(word) => TokenMark::Word(*word),
        Kind::Symbol(symbol) => TokenMark::Symbol(*symbol),
    }
}

#[tactic(auto, unfolding(crate::specs::Marks::same))]
pub fn same(a: TokenMark, b: TokenMark) -> bool
    ensures { result ≡ spec.same a b }
{
    a == b
}

/// Where `<` or `>` is due, `<-` and `>=` are read as two symbols; others stay whole.
fn halves(symbol: Symbol) -> (Symbol, Symbol)
    ensures { result ≡ (spec.first_half symbol, spec.second_half symbol) }
{
    match symbol {
        Symbol::Arrow => (Symbol::Less, Symbol::Minus),
        Symbol::GreaterEqual => (Symbol::Greater, Symbol::Equal),
        _ => (symbol, symbol),
    }
}

pub fn first_half(symbol: Symbol) -> Symbol
    ensures { result ≡ spec.first_half symbol }
{
    halves(symbol).0
}

pub fn second_half(symbol: Symbol) -> Symbol
    ensures { result ≡ spec.second_half symbol }
{
    halves(symbol).1
}

/// The operator before an operand that the token is, if it is one.
fn prefix_of(mark: TokenMark) -> Option<Prefix>
    ensures { result ≡ spec.prefix_of mark }
{
    match mark {
        TokenMark::Word(Word::Not) => Some(Prefix::Not),
        TokenMark::Word(Word::Next) => Some(Prefix::Next),
        TokenMark::Symbol(Symbol::Minus) => Some(Prefix::Minus),
        _ => None,
    }
}

/// The level of an operator before its operand, or 0.
pub fn before(mark: TokenMark) -> u8
    ensures { result ≡ spec.before mark }
{
    match prefix_of(mark) {
        None => 0,
        Some(Prefix::Not) => NOT,
        Some(Prefix::Minus | Prefix::Next) => PREFIX,
    }
}

/// The operator before an operand that the token is, where that is of this level.
#[tactic(auto, unfolding(crate::specs::Marks::prefix_at))]
pub fn prefix_at(level: u8, mark: TokenMark) -> Option<Prefix>
    ensures { result ≡ spec.prefix_at level mark }
{
    if before(mark) == level {
        prefix_of(mark)
    } else {
        None
    }
}

pub fn role_of(mark: TokenMark) -> TokenRole
    ensures { result ≡ spec.role_of mark }
{
    match mark {
        TokenMark::Symbol(Symbol::Semicolon) => TokenRole::Infix(Op::Chop),
        TokenMark::Word(Word::Proj) => TokenRole::Infix(Op::Proj),
        TokenMark::Word(Word::Or) => TokenRole::Infix(Op::Or),
        TokenMark::Word(Word::And) => TokenRole::Joins,
        TokenMark::Symbol(Symbol::Equal) => TokenRole::Infix(Op::Equal),
        TokenMark::Symbol(Symbol::Differs) => TokenRole::Infix(Op::Differs),
        TokenMark::Symbol(Symbol::Less) => TokenRole::Infix(Op::Less),
        TokenMark::Symbol(Symbol::LessEqual) => TokenRole::Infix(Op::LessEqual),
        TokenMark::Symbol(Symbol::Greater) => TokenRole::Infix(Op::Greater),
        TokenMark::Symbol(Symbol::GreaterEqual) => TokenRole::Infix(Op::GreaterEqual),
        TokenMark::Word(Word::Gets) => TokenRole::Infix(Op::Gets),
        TokenMark::Symbol(Symbol::Arrow) => TokenRole::Infix(Op::Arrow),
        TokenMark::Symbol(Symbol::Becomes) => TokenRole::Infix(Op::Becomes),
        TokenMark::Symbol(Symbol::Plus) => TokenRole::Infix(Op::Plus),
        TokenMark::Symbol(Symbol::Minus) => TokenRole::Infix(Op::Minus),
        TokenMark::Symbol(Symbol::Times) => TokenRole::Infix(Op::Times),
        TokenMark::Word(Word::Div) => TokenRole::Infix(Op::Div),
        TokenMark::Word(Word::Mod) => TokenRole::Infix(Op::Mod),
        TokenMark::Symbol(Symbol::OpenSquare) => TokenRole::Opens,
        _ => TokenRole::Ends,
    }
}

/// What the token does at this level.
#[tactic(auto, unfolding(crate::specs::Marks::role_at))]
pub fn role_at(level: u8, mark: TokenMark) -> TokenRole
    ensures { result ≡ spec.role_at level mark }
{
    let role = role_of(mark);
    let own = match role {
        TokenRole::Ends => 0,
        TokenRole::Infix(op) => op_level(op),
        TokenRole::Opens => INDEX,
        TokenRole::Joins => AND,
    };
    if own == level { role } else { TokenRole::Ends }
}

pub fn start_of(mark: TokenMark) -> Start
    ensures { result ≡ spec.start_of mark }
{
    match mark {
        TokenMark::End => Start::Nothing,
        TokenMark::Upper => Start::Name,
        TokenMark::Lower => Start::NameOrCall,
        TokenMark::Number => Start::Number,
        TokenMark::Word(word) => word_start(word),
        TokenMark::Symbol(symbol) => symbol_start(symbol),
    }
}

fn word_start(word: Word) -> Start
    ensures { result ≡ spec.word_start word }
{
    match word {
        Word::True => Start::Truth(true),
        Word::False => Start::Truth(false),
        Word::Empty => Start::Bare(Bare::Empty),
        Word::More => Start::Bare(Bare::More),
        Word::Skip => Start::Bare(Bare::Skip),
        Word::Always => Start::Form(Form::Always),
        Word::Keep => Start::Form(Form::Keep),
        Word::Fin => Start::Form(Form::Fin),
        Word::Halt => Start::Form(Form::Halt),
        Word::Stable => Start::Form(Form::Stable),
        Word::Sometimes => Start::Form(Form::Sometimes),
        Word::Len => Start::Form(Form::Len),
        Word::List => Start::Form(Form::List),
        Word::Input => Start::Form(Form::Input),
        Word::Display => Start::Form(Form::Display),
        Word::If => Start::If,
        Word::While => Start::While,
        Word::Repeat => Start::Repeat,
        Word::For => Start::For,
        Word::Forall => Start::Forall,
        Word::Exists => Start::Exists,
        Word::Then
        | Word::Else
        | Word::Do
        | Word::Until
        | Word::Define
        | Word::Run
        | Word::And
        | Word::Or
        | Word::Not
        | Word::Div
        | Word::Mod
        | Word::Next
        | Word::Gets
        | Word::Proj => Start::Nothing,
    }
}

fn symbol_start(symbol: Symbol) -> Start
    ensures { result ≡ spec.symbol_start symbol }
{
    match symbol {
        Symbol::OpenRound => Start::Enclosed(Enclosure::Round),
        Symbol::OpenCurly => Start::Enclosed(Enclosure::Curly),
        Symbol::Bar => Start::Enclosed(Enclosure::Size),
        Symbol::Less => Start::List,
        Symbol::Arrow => Start::List,
        Symbol::Differs => Start::EmptyList,
        Symbol::CloseRound
        | Symbol::CloseCurly
        | Symbol::OpenSquare
        | Symbol::CloseSquare
        | Symbol::Greater
        | Symbol::LessEqual
        | Symbol::GreaterEqual
        | Symbol::Equal
        | Symbol::Plus
        | Symbol::Minus
        | Symbol::Times
        | Symbol::Semicolon
        | Symbol::Comma
        | Symbol::Stop
        | Symbol::Colon
        | Symbol::Becomes => Start::Nothing,
    }
}
