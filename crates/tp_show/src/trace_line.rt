// The lines of a trace.
ghost use Rattle.std.specs.Prelude.{◌≡◌, ◌≢◌, ◌++◌, ℕ, List, codes, IfOk, MatchOption};
ghost use Rattle.tp_show.specs.Trace.{state_opening};
ghost use Rattle.tp_show.specs.Trace as spec;
ghost use Rattle.tp_show.specs.TraceReading.{IsStateFound, found_facts, IsKindOf};

use crate::named_fact::NamedFact;
use crate::trace::TraceState;
use crate::trace_facts::{all_facts, facts_clash};
use crate::trace_part::read_parts;
use itoa::Buffer;
use std::alloc::Global;
use tp_value::NoMemory;

/// What a line is where it stands.
#[derive(Drop)]
pub enum LineKind {
    State(TraceState),
    PassedOver,
    End,
    Bad,
}

// What follows the front, where the text begins with it.
fn behind<'a>(front: &[u8], text: &'a [u8]) -> Option<&'a [u8]>
    ensures { MatchOption result
        ((rest : List ℕ) → text.now ≢ front.now ++ rest)
        (λ rest. text.now ≡ front.now ++ rest.now) }
{
    if text.starts_with(front) {
        Some(&text[front.len()..])
    } else {
        None
    }
}

// What follows the digits and a colon, where the text begins with these.
fn behind_number<'a>(digits: &[u8], text: &'a [u8]) -> Option<&'a [u8]>
    ensures { MatchOption result
        ((rest : List ℕ) → text.now ≢ (digits.now ++ codes ":") ++ rest)
        (λ rest. text.now ≡ (digits.now ++ codes ":") ++ rest.now) }
{
    match behind(digits, text) {
        Some(told) => behind(b":".as_slice(), told),
        None => None,
    }
}

// What follows the number and the colon of a state's line.
fn behind_opening(number: u64, line: &[u8]) -> Option<&[u8]>
    ensures { MatchOption result
        ((rest : List ℕ) → line.now ≢ state_opening number ++ rest)
        (λ rest. line.now ≡ state_opening number ++ rest.now) }
{
    let mut buffer = Buffer::new();
    let digits = buffer.format(number).as_bytes();
    match behind(b"state ".as_slice(), line) {
        Some(numbered) => behind_number(digits, numbered),
        None => None,
    }
}

// The facts of the line of the state with that number, if it is one.
fn state_facts(alloc: Global, number: u64, line: &[u8]) -> Result<Option<Vec<NamedFact>>, NoMemory>
    ensures { IfOk result (λ found. IsStateFound number line.now (found_facts found)) }
{
    let Some(rest) = behind_opening(number, line) else {
        return Ok(None);
    };
    let Some(parts) = read_parts(alloc, rest)? else {
        return Ok(None);
    };
    if facts_clash(alloc, parts.as_slice())? {
        return Ok(None);
    }
    let facts = all_facts(alloc, parts.as_slice())?;
    Ok(Some(facts))
}

fn is_passed_over(line: &[u8]) -> bool
    ensures { result ≡ spec.is_passed_over line.now }
{
    line.starts_with(b"show".as_slice())
        || line.starts_with(b"reductions ".as_slice())
        || line.starts_with(b"residual: ".as_slice())
}

// Whether a run over the program ends with such a line.
fn ends_run(line: &[u8]) -> bool
    ensures { result ≡ spec.opens_with_one spec.run_end_openings line.now }
{
    line.starts_with(b"finished:".as_slice())
        || line.starts_with(b"contradictory:".as_slice())
        || line.starts_with(b"undetermined:".as_slice())
        || line.starts_with(b"state limit:".as_slice())
        || line.starts_with(b"reduction limit:".as_slice())
        || line.starts_with(b"number limit:".as_slice())
        || line.starts_with(b"list limit:".as_slice())
        || line.starts_with(b"call limit:".as_slice())
        || line.starts_with(b"nest limit:".as_slice())
        || line.starts_with(b"input missing:".as_slice())
}

// Whether a refusal is told by such a line.
fn ends_refused(line: &[u8]) -> bool
    ensures { result ≡ spec.opens_with_one spec.refusal_openings line.now }
{
    line.starts_with(b"source refused:".as_slice())
        || line.starts_with(b"inputs refused:".as_slice())
        || line.starts_with(b"too long:".as_slice())
        || line.starts_with(b"read fault:".as_slice())
        || line.starts_with(b"words refused".as_slice())
}

/// What the line is behind the lines of so many states.
pub fn line_kind(alloc: Global, states: u64, line: &[u8]) -> Result<LineKind, NoMemory>
    ensures { IfOk result (IsKindOf states line.now) }
{
    if let Some(facts) = state_facts(alloc, states, line)? {
        return Ok(LineKind::State(TraceState { facts }));
    }
    if states == 0 {
        return Ok(LineKind::Bad);
    }
    if is_passed_over(line) {
        return Ok(LineKind::PassedOver);
    }
    if ends_run(line) || ends_refused(line) {
        return Ok(LineKind::End);
    }
    Ok(LineKind::Bad)
}
