// Values from their texts, in one pass over the bytes and without recursion.
ghost use Rattle.std.specs.Prelude.{◌≡◌, ◌≢◌, ◌+◌, ◌^◌, ◌<◌, ◌≤◌, ℕ, List, ◌++◌, length, drop, IfOk, IfErr};
ghost use Rattle.tp_value.specs.declared.reading.ReadValue.TheVariants.{NoMemory as refused_memory};
ghost use Rattle.tp_value.specs.Read.{tree};
ghost use Rattle.tp_value.specs.Tree.{Tree};
ghost use Rattle.tp_value.specs.Limits.{IsWithinLimits};
ghost use Rattle.tp_value.specs.Written.{text_of};
ghost use Rattle.tp_value.specs.Answers.{IsReadRefused, CannotContinue, IsReadBack};
ghost use Rattle.tp_value.specs.Spelling.{IsRead};
ghost use Rattle.tp_value.specs.Reading.{found, refused, start_state, refuses, finished, closed, opened, moved, step, number_before, number_read, at_end, reading, value_answer};
ghost use Rattle.tp_value.specs.ReaderState.{lists_of, state_of, taken};

use crate::phase::{Last, Move, Phase};
use crate::reading::ReadValue;
use crate::scan::decide;
use crate::{Items, NoMemory, Number, Value};
use std::alloc::Global;

/// The open lists, the innermost last, how many items have begun, and what was read last.
#[derive(Drop)]
pub struct Reader {
    pub unclosed: Vec<Items>,
    pub begun: usize,
    pub phase: Phase,
}

/// Reading goes on, or a value has ended in front of a place.
#[derive(Drop)]
pub enum Taken {
    More(Reader),
    Done(Value, usize),
}

// A value that ends in front of `after` is an item of the innermost open list, or the whole value.
fn finish(unclosed: Vec<Items>, begun: usize, value: Value, after: usize) -> Result<Taken, NoMemory>
    ensures { IfOk result (λ t.
        taken t ≡ finished (lists_of unclosed.items) begun (tree value) after) }
{
    let mut unclosed = unclosed;
    match unclosed.pop() {
        Some(mut list) => {
            list.items.push(value)?;
            unclosed.push(list)?;
            let phase = Phase::Between(Last::Item);
            Ok(Taken::More(Reader {
                unclosed,
                begun,
                phase,
            }))
        }
        None => Ok(Taken::Done(value, after)),
    }
}

// The byte at `at` closes the innermost list.
fn close(unclosed: Vec<Items>, begun: usize, at: usize) -> Result<Taken, ReadValue>
    requires { at + 1 < 2 ^ 64 }
    ensures ok { IfOk result (λ t. taken t ≡ closed at (lists_of unclosed.items) begun) }
    ensures err { IfErr result (λ e.
        e ≢ refused_memory → refuses e ≡ closed at (lists_of unclosed.items) begun) }
{
    let mut unclosed = unclosed;
    match unclosed.pop() {
        Some(list) => {
            let done = finish(unclosed, begun, Value::List(list), at + 1)?;
            Ok(done)
        }
        None => Err(ReadValue::NoValue { at }),
    }
}

fn open_list(alloc: Global, unclosed: Vec<Items>, begun: usize) -> Result<Reader, NoMemory>
    ensures { IfOk result (λ r. state_of r ≡ opened (lists_of unclosed.items) begun) }
{
    let mut unclosed = unclosed;
    unclosed.push(Items {
        items: Vec::new(alloc),
    })?;
    let phase = Phase::Between(Last::Bracket);
    Ok(Reader {
        unclosed,
        begun,
        phase,
    })
}

// What the byte at `at` does, which ends no number before it.
fn advance(alloc: Global, reader: Reader, at: usize, byte: u8) -> Result<Taken, ReadValue>
    requires { at + 1 < 2 ^ 64 }
    ensures ok { IfOk result (λ t. taken t ≡ moved at (state_of reader) byte) }
    ensures err { IfErr result (λ e.
        e ≢ refused_memory → refuses e ≡ moved at (state_of reader) byte) }
{
    let Reader {
        unclosed,
        begun,
        phase,
    } = reader;
    match decide(at, unclosed.len(), begun, phase, byte)? {
        Move::Go { phase, begun } => Ok(Taken::More(Reader {
            unclosed,
            begun,
            phase,
        })),
        Move::Open { begun } => {
            let reader = open_list(alloc, unclosed, begun)?;
            Ok(Taken::More(reader))
        }
        Move::Close => close(unclosed, begun, at),
        Move::Word(truth) => {
            let done = finish(unclosed, begun, Value::Truth(truth), at + 1)?;
            Ok(done)
        }
    }
}

// The number that was read last.
fn last_number(phase: Phase) -> Option<Number>
    ensures { result ≡ number_read phase }
{
    match phase {
        Phase::Digits { number, .. } => Some(number),
        Phase::Start | Phase::Between(_) | Phase::Minus { .. } | Phase::Word { .. } => None,
    }
}

// The number that ends in front of the byte.
fn ended_number(phase: Phase, byte: u8) -> Option<Number>
    ensures { result ≡ number_before phase byte }
{
    if byte.is_ascii_digit() {
        None
    } else {
        last_number(phase)
    }
}

// What the byte at `at` does.
fn take(alloc: Global, reader: Reader, at: usize, byte: u8) -> Result<Taken, ReadValue>
    requires { at + 1 < 2 ^ 64 }
    ensures ok { IfOk result (λ t. taken t ≡ step at (state_of reader) byte) }
    ensures err { IfErr result (λ e.
        e ≢ refused_memory → refuses e ≡ step at (state_of reader) byte) }
{
    match ended_number(reader.phase, byte) {
        None => advance(alloc, reader, at, byte),
        Some(n) => match finish(reader.unclosed, reader.begun, Value::Num(n), at)? {
            Taken::More(next) => advance(alloc, next, at, byte),
            Taken::Done(value, after) => Ok(Taken::Done(value, after)),
        },
    }
}

// What the end of the bytes gives.
fn end(reader: Reader, at: usize) -> Result<(Value, usize), ReadValue>
    ensures ok { IfOk result (λ p. at_end at (state_of reader) ≡ found (tree p.0) p.1) }
    ensures err { IfErr result (λ e. e ≢ refused_memory → at_end at (state_of reader) ≡ refused e) }
{
    match last_number(reader.phase) {
        Some(n) if reader.unclosed.is_empty() => Ok((Value::Num(n), at)),
        _ => Err(ReadValue::NoValue { at }),
    }
}

// The value whose text begins at `from`, and the place after it.
fn read(alloc: Global, bytes: &[u8], from: usize) -> Result<(Value, usize), ReadValue>
    requires { from ≤ length bytes.now }
    ensures ok { IfOk result (λ p.
        reading from start_state (drop from bytes.now) ≡ found (tree p.0) p.1) }
    ensures err { IfErr result (λ e.
        e ≢ refused_memory → reading from start_state (drop from bytes.now) ≡ refused e) }
{
    let mut reader = Reader {
        unclosed: Vec::new(alloc),
        begun: 0,
        phase: Phase::Start,
    };
    for at in from..bytes.len() {
        match take(alloc, reader, at, bytes[at])? {
            Taken::More(next) => reader = next,
            Taken::Done(value, after) => return Ok((value, after)),
        }
    }
    end(reader, bytes.len())
}

/// The value of the longest value text that begins at `from`, and the place after it. A value text is a number in decimal, perhaps
/// with a `-` before it and with leading zeros, `true`, `false`, or items in `<` and `>` with commas between them, where spaces
/// and tabs may stand between the parts of a list. A number and a word end as soon as the next byte does not continue them,
/// whatever it is. Nothing is kept on a refusal.
pub fn read_value(alloc: Global, bytes: &[u8], from: usize) -> Result<(Value, usize), ReadValue>
    requires { from ≤ length bytes.now }
    ensures value { IfOk result (λ p. IsRead bytes.now from (tree p.0) p.1) }
    ensures refused { IfErr result (λ e. IsReadRefused bytes.now from e) }

    // The same, byte by byte.
    ensures found { IfOk result (λ p. value_answer bytes.now from ≡ found (tree p.0) p.1) }
    ensures not_found { IfErr result (λ e.
        e ≢ refused_memory → value_answer bytes.now from ≡ refused e) }

    // The text that is written for a value is read back to it.
    ensures read_back { (t : Tree) (rest : List ℕ) → IsWithinLimits t → CannotContinue t rest
        → drop from bytes.now
        ≡ text_of t ++ rest → IsReadBack t (from + length (text_of t)) result }
{
    read(alloc, bytes, from)
}
