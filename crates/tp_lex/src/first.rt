// What a text begins with.
ghost use Rattle.std.specs.Prelude.{◌≡◌, ◌+◌, ◌<◌, ◌≤◌, ◌≢◌, [], length, slice_index, FitsSigned, IfOk, IfSome};
ghost use Rattle.std.specs.List.{prefix_len};
ghost use Rattle.tp_value.specs.Number.{number_width};
ghost use Rattle.tp_lex.specs.First as spec;
ghost use Rattle.tp_lex.specs.Bytes as bytes;

use crate::piece::{Fault, Piece};
use crate::spelling::{first_symbol, word_of};
use crate::token::Kind;
use std::alloc::Global;
use tp_lanes::{Class, run_len};
use tp_value::{NUMBER_LIMIT, NoMemory, Number, Text};

/// How many bytes a name has at most.
pub const NAME_LIMIT: usize = 64;

// Letters, digits and `_`.
const NAME_BYTES: Class = Class {
    count: 4,
    from: [b'0', b'A', b'_', b'a'],
    to: [b'9', b'Z', b'_', b'z'],
};

// All bytes but `*`.
const NO_STARS: Class = Class {
    count: 2,
    from: [0, b'*' + 1, 0, 0],
    to: [b'*' - 1, 255, 0, 0],
};

const DIGITS: Class = Class {
    count: 1,
    from: [b'0', 0, 0, 0],
    to: [b'9', 0, 0, 0],
};

// Tab and line feed, which are neighbours, carriage return and space.
const BLANKS: Class = Class {
    count: 3,
    from: [b'\t', b'\r', b' ', 0],
    to: [b'\n', b'\r', b' ', 0],
};

fn is_blank(byte: u8) -> bool
    ensures { result ≡ bytes.is_blank byte }
{
    byte == b' ' || byte == b'\t' || byte == b'\r' || byte == b'\n'
}

/// How many blanks the text begins with.
pub fn blanks_len(text: &[u8]) -> usize
    ensures value { result ≡ prefix_len bytes.is_blank text.now }
    ensures within { result ≤ length text.now }
{
    if text.is_empty() || !is_blank(text[0]) {
        return 0;
    }
    // Between two tokens there is mostly one.
    if text.len() == 1 || !is_blank(text[1]) {
        return 1;
    }
    run_len(text, &BLANKS)
}

/// How many letters, digits and `_` the text begins with.
pub fn name_len(text: &[u8]) -> usize
    ensures value { result ≡ prefix_len bytes.is_name_byte text.now }
    ensures within { result ≤ length text.now }
{
    run_len(text, &NAME_BYTES)
}

fn digits_len(text: &[u8]) -> usize
    ensures value { result ≡ prefix_len bytes.is_digit text.now }
    ensures within { result ≤ length text.now }
{
    run_len(text, &DIGITS)
}

/// The number that the digits spell, where it is within the limit.
fn value_of(digits: &[u8]) -> Option<Number>
    ensures value { result ≡ spec.number_in_limit (bytes.spelled_value digits.now) }
    ensures low { IfSome result (λ n. FitsSigned number_width n) }
{
    let past_limit = NUMBER_LIMIT as u128 + 1;
    let mut n: u128 = 0;
    for digit in digits {
        // Ten times a number past the limit may be more than a `u128` has room for.
        let tens = n.saturating_mul(10);
        n = tens
            .saturating_add(u128::from(digit.saturating_sub(b'0')))
            .min(past_limit);
    }
    if n < past_limit {
        Some(n as Number)
    } else {
        None
    }
}

/// How many bytes stand before the first `*/`.
fn comment_len(text: &[u8]) -> Option<usize>
    ensures value { result ≡ spec.first_close text.now }
    ensures within { IfSome result (λ n. n + 2 ≤ length text.now) }
{
    let mut at = 0;
    while at < text.len() {
        let star = at + run_len(&text[at..], &NO_STARS);
        if text[star..].starts_with(b"*/".as_slice()) {
            return Some(star);
        }
        at = star + 1;
    }
    None
}

#[tactic(auto, unfolding(crate::specs::First::name_piece))]
fn name(alloc: Global, text: &[u8]) -> Result<Piece, NoMemory>
    requires { text.now ≢ [] }
    ensures { IfOk result (λ piece. piece ≡ spec.name_piece text.now) }
{
    let len = name_len(text);
    if len > NAME_LIMIT {
        return Ok(Piece::Refused(Fault::NameTooLong));
    }
    let name = &text[..len];
    // No word begins with an upper-case letter.
    if text[0].is_ascii_uppercase() {
        let copy = Text::from_slice(alloc, name)?;
        return Ok(Piece::Lexeme(Kind::Upper(copy), len));
    }
    if let Some(word) = word_of(name) {
        return Ok(Piece::Lexeme(Kind::Word(word), len));
    }
    let copy = Text::from_slice(alloc, name)?;
    Ok(Piece::Lexeme(Kind::Lower(copy), len))
}

#[tactic(auto, unfolding(crate::specs::First::number_piece))]
fn number(text: &[u8]) -> Piece
    ensures { result ≡ spec.number_piece text.now }
{
    let len = digits_len(text);
    match value_of(&text[..len]) {
        Some(value) => Piece::Lexeme(Kind::Number(value), len),
        None => Piece::Refused(Fault::NumberTooLarge),
    }
}

/// The piece that begins with `/*`.
#[tactic(auto, unfolding(crate::specs::First::comment))]
fn comment(text: &[u8]) -> Piece
    requires { 2 ≤ length text.now }
    ensures { result ≡ spec.comment text.now }
{
    match comment_len(&text[2..]) {
        Some(len) => Piece::Gap(len + 4),
        None => Piece::Refused(Fault::OpenComment),
    }
}

#[tactic(auto, unfolding(crate::specs::First::symbol))]
fn symbol(text: &[u8]) -> Piece
    ensures { result ≡ spec.symbol text.now }
{
    match first_symbol(text) {
        Some(symbol) => Piece::Lexeme(Kind::Symbol(symbol), symbol.spelling().len()),
        None => Piece::Refused(Fault::BadByte),
    }
}

/// What the text begins with.
#[tactic(auto, unfolding(crate::specs::First::first_piece))]
pub fn first_piece(alloc: Global, text: &[u8]) -> Result<Piece, NoMemory>
    requires { text.now ≢ [] }
    ensures { IfOk result (λ piece. piece ≡ spec.first_piece text.now) }
{
    let first = text[0];
    if is_blank(first) {
        Ok(Piece::Gap(1))
    } else if first.is_ascii_alphabetic() {
        name(alloc, text)
    } else if first.is_ascii_digit() {
        Ok(number(text))
    } else if text.starts_with(b"/*".as_slice()) {
        Ok(comment(text))
    } else {
        Ok(symbol(text))
    }
}
