// What a line of inputs begins with.
ghost use Rattle.std.specs.Prelude.{◌≡◌, ◌≢◌, ◌+◌, ◌<◌, ◌≤◌, [], length, take, true, IfOk, IfSome, Some};
ghost use Rattle.tp_value.specs.declared.reading.ReadValue.TheVariants.{NoMemory as refused_memory};
ghost use Rattle.tp_value.specs.Reading.{value_answer};
ghost use Rattle.tp_inputs.specs.Table.{fault_of, is_set_apart};
ghost use Rattle.tp_inputs.specs.FirstPart as spec;
ghost use Rattle.tp_inputs.specs.Spans.{is_given};
ghost use Rattle.tp_inputs.specs.declared.span.Span.{Span};
ghost use Rattle.tp_meaning.specs.Inputs.{InputTable};
ghost use Rattle.tp_inputs.specs.Read.{part_of};

use crate::fault::LineFault;
use crate::head::is_blank;
use std::alloc::Global;
use tp_lex::{NAME_LIMIT, name_len, word_of};
use tp_value::{NoMemory, ReadValue, Text, Value, read_value};

/// What a line begins with, where it isn't asked whether the port has a value already.
#[derive(Drop)]
pub enum FoundPart {
    Blank,
    /// A port, its value, and how many bytes the pair has.
    Pair(Text, Value, usize),
    /// A port, and the fault of what stands for its value.
    Valueless(Text, LineFault),
    Fault(LineFault),
}

// Whether behind the first bytes comes a blank or the line's end.
fn is_set_apart(text: &[u8], len: usize) -> bool
    ensures { result ≡ is_set_apart text.now len }
{
    len == text.len() || (len < text.len() && is_blank(text[len]))
}

// How many bytes the port has that comes first, with `=` behind it.
#[tactic(auto, unfolding(crate::specs::FirstPart::port_len))]
fn port_len(text: &[u8]) -> Option<usize>
    requires { text.now ≢ [] }
    ensures value { result ≡ spec.port_len text.now }
    ensures within { IfSome result (λ n. n < length text.now) }
{
    let len = name_len(text);
    let is_port = text[0].is_ascii_lowercase()
        && len <= NAME_LIMIT
        && word_of(&text[..len]).is_none()
        && len < text.len()
        && text[len] == b'=';
    if is_port { Some(len) } else { None }
}

// What a value that is refused makes of its line.
fn fault_of(refusal: ReadValue) -> Result<LineFault, NoMemory>
    ensures fault { IfOk result (λ fault. fault ≡ fault_of refusal) }
    ensures told { IfOk result (λ _. refusal ≢ refused_memory) }
{
    match refusal {
        ReadValue::NoValue { .. } | ReadValue::TooLarge { .. } => Ok(LineFault::Bad),
        ReadValue::TooLong { .. } | ReadValue::TooDeep { .. } => Ok(LineFault::TooLong),
        ReadValue::NoMemory => Err(NoMemory),
    }
}

// The pair of the port, or the fault of what stands behind the first bytes as its value.
fn valued_part(alloc: Global, text: &[u8], port: Text, from: usize) -> Result<FoundPart, NoMemory>
    requires { from ≤ length text.now }
    ensures { IfOk result (λ part. (span : Span) (table : InputTable)
        → part_of span table part
        ≡ spec.asked_part text.now port (value_answer text.now from) (is_given table span port)) }
{
    match read_value(alloc, text, from) {
        Ok((value, len)) => {
            if is_set_apart(text, len) {
                Ok(FoundPart::Pair(port, value, len))
            } else {
                Ok(FoundPart::Valueless(port, LineFault::Bad))
            }
        }
        Err(refusal) => Ok(FoundPart::Valueless(port, fault_of(refusal)?)),
    }
}

// What comes first that is no blank.
#[tactic(auto, unfolding(crate::specs::FirstPart::pair_part))]
fn pair_part(alloc: Global, text: &[u8]) -> Result<FoundPart, NoMemory>
    requires { text.now ≢ [] }
    ensures { IfOk result (λ part. (span : Span) (table : InputTable)
        → part_of span table part ≡ spec.pair_part span table text.now) }
{
    match port_len(text) {
        Some(len) => {
            let port = Text::from_slice(alloc, &text[..len])?;
            valued_part(alloc, text, port, len + 1)
        }
        None => Ok(FoundPart::Fault(LineFault::Bad)),
    }
}

/// What the rest of a line begins with, whatever span it speaks for and whatever the ports have so
/// far.
#[tactic(auto, unfolding(crate::specs::FirstPart::first_part))]
pub fn first_part(alloc: Global, text: &[u8]) -> Result<FoundPart, NoMemory>
    requires { text.now ≢ [] }
    ensures { IfOk result (λ part. (span : Span) (table : InputTable)
        → part_of span table part ≡ spec.first_part span table text.now) }
{
    if is_blank(text[0]) {
        Ok(FoundPart::Blank)
    } else {
        pair_part(alloc, text)
    }
}
