// What each byte of a value's text does.
ghost use Rattle.std.specs.Prelude.{◌≡◌, pos, ◌+ℤ◌, ◌-ℤ◌, if◌then◌else◌};
ghost use Rattle.tp_value.specs.Number.{within_limit};
ghost use Rattle.tp_value.specs.Spelling.{spelling as word_spelling};
ghost use Rattle.tp_value.specs.Reading.{digit_of, begins_value as begins, continued, first_move, within_list, digits_go_on, letters_go_on, next_move};

use crate::Number;
use crate::limits::{DEPTH_LIMIT, ITEM_LIMIT};
use crate::number::{difference, product, sum};
use crate::phase::{Last, Move, Phase};
use crate::reading::ReadValue;

fn digit(byte: u8) -> Option<u8>
    ensures { result ≡ digit_of byte }
{
    if byte.is_ascii_digit() {
        Some(byte - b'0')
    } else {
        None
    }
}

// Whether a value's text may begin with the byte.
fn begins_value(byte: u8) -> bool
    ensures { result ≡ begins byte }
{
    byte == b'<' || byte == b'-' || byte == b't' || byte == b'f' || byte.is_ascii_digit()
}

// The number with the digit taken from it or added to it, where it is within the limit.
fn with_last(number: Number, negative: bool, digit: u8) -> Option<Number>
    ensures { result
        ≡ within_limit (if negative then number -ℤ pos digit else number +ℤ pos digit) }
{
    let digit = Number::from(digit);
    if negative {
        difference(number, digit)
    } else {
        sum(number, digit)
    }
}

// The number with one digit more, where it is within the limit.
fn with_digit(number: Number, negative: bool, digit: u8) -> Option<Number>
    ensures { result ≡ within_limit (continued negative number digit) }
{
    // Not by ten times the number: where the digit turns it back, that may be past the limit and the result within.
    let nines = product(number, 9)?;
    let rest = with_last(number, negative, digit)?;
    sum(nines, rest)
}

fn spelling(truth: bool) -> &'static [u8]
    ensures { result.now ≡ word_spelling truth }
{
    if truth {
        b"true".as_slice()
    } else {
        b"false".as_slice()
    }
}

// The first byte of a value.
fn start(at: usize, depth: usize, begun: usize, byte: u8) -> Result<Move, ReadValue>
    ensures { result ≡ first_move at depth begun byte }
{
    let phase = match byte {
        b'<' if depth < DEPTH_LIMIT => return Ok(Move::Open { begun }),
        b'<' => return Err(ReadValue::TooDeep { at }),
        b'-' => Phase::Minus { begin: at },
        b't' => Phase::Word {
            truth: true,
            read: 1,
        },
        b'f' => Phase::Word {
            truth: false,
            read: 1,
        },
        _ => match digit(byte) {
            Some(number) => Phase::Digits {
                begin: at,
                negative: false,
                number: Number::from(number),
            },
            None => return Err(ReadValue::NoValue { at }),
        },
    };
    Ok(Move::Go { phase, begun })
}

// A byte between the parts of a list.
fn between(at: usize, depth: usize, begun: usize, last: Last, byte: u8) -> Result<Move, ReadValue>
    ensures { result ≡ within_list at depth begun last byte }
{
    match (byte, last) {
        (b' ' | b'\t', _) => Ok(Move::Go {
            phase: Phase::Between(last),
            begun,
        }),
        (b',', Last::Item) => Ok(Move::Go {
            phase: Phase::Between(Last::Comma),
            begun,
        }),
        (b'>', Last::Bracket | Last::Item) => Ok(Move::Close),
        (_, Last::Item) => Err(ReadValue::NoValue { at }),
        _ if !begins_value(byte) => Err(ReadValue::NoValue { at }),
        _ if begun >= ITEM_LIMIT => Err(ReadValue::TooLong { at }),
        _ => start(at, depth, begun + 1, byte),
    }
}

// A byte of a number that is no first digit.
fn more_digits(
    at: usize,
    begun: usize,
    begin: usize,
    negative: bool,
    number: Number,
    byte: u8,
) -> Result<Move, ReadValue>
    ensures { result ≡ digits_go_on at begun begin negative number byte }
{
    let Some(digit) = digit(byte) else {
        return Err(ReadValue::NoValue { at });
    };
    match with_digit(number, negative, digit) {
        Some(number) => Ok(Move::Go {
            phase: Phase::Digits {
                begin,
                negative,
                number,
            },
            begun,
        }),
        None => Err(ReadValue::TooLarge { at: begin }),
    }
}

// A byte of a word that is not its first.
fn more_letters(
    at: usize,
    begun: usize,
    truth: bool,
    read: usize,
    byte: u8,
) -> Result<Move, ReadValue>
    ensures { result ≡ letters_go_on at begun truth read byte }
{
    let word = spelling(truth);
    if read >= word.len() || word[read] != byte {
        Err(ReadValue::NoValue { at })
    } else if read + 1 == word.len() {
        Ok(Move::Word(truth))
    } else {
        Ok(Move::Go {
            phase: Phase::Word {
                truth,
                read: read + 1,
            },
            begun,
        })
    }
}

/// What the byte at `at` does where `depth` lists are open.
pub fn decide(
    at: usize,
    depth: usize,
    begun: usize,
    phase: Phase,
    byte: u8,
) -> Result<Move, ReadValue>
    ensures { result ≡ next_move at depth begun phase byte }
{
    match phase {
        Phase::Start => start(at, depth, begun, byte),
        Phase::Between(last) => between(at, depth, begun, last, byte),
        Phase::Minus { begin } => more_digits(at, begun, begin, true, 0, byte),
        Phase::Digits {
            begin,
            negative,
            number,
        } => more_digits(at, begun, begin, negative, number, byte),
        Phase::Word { truth, read } => more_letters(at, begun, truth, read, byte),
    }
}
