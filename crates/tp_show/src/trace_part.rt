// Parts of the line of a state: values and lengths at paths.
ghost use Rattle.std.specs.Prelude.{◌≡◌, ◌≢◌, ◌++◌, ℕ, List, codes, IfOk, OnOk, MatchOption};
ghost use Rattle.tp_value.specs.declared.reading.ReadValue.TheVariants.{NoMemory as refused_memory};
ghost use Rattle.tp_show.specs.TraceReading.{IsValueFound, IsValuePart, IsLengthPart, IsPartAround, IsPartFound, IsNextPart, ArePartsFound, found_parts};
ghost use Rattle.tp_show.specs.TraceReading as spec;

use crate::trace_path::{digits_within, len_before, read_path};
use std::alloc::Global;
use tp_value::{Indices, LENGTH_LIMIT, NoMemory, ReadValue, Text, Value, read_value};

/// The name of a variable, and indices into its value.
#[derive(Drop)]
pub struct NamedPath {
    pub name: Text,
    pub at: Indices,
}

/// A path with its value, or with the length of the list there.
#[derive(Drop)]
pub enum ReadPart {
    Given(NamedPath, Value),
    Measured(NamedPath, u32),
}

// Whether nothing comes, or a space.
fn is_apart(rest: &[u8]) -> bool
    ensures { result ≡ spec.is_apart rest.now }
{
    match rest {
        [] => true,
        [first, ..] => *first == b' ',
    }
}

// Whether a value is refused for a cause of its own, or for want of memory.
fn unless_memory(refusal: ReadValue) -> Result<(), NoMemory>
    ensures { OnOk result (refusal ≢ refused_memory) }
{
    match refusal {
        ReadValue::NoMemory => Err(NoMemory),
        ReadValue::NoValue { .. }
        | ReadValue::TooLarge { .. }
        | ReadValue::TooLong { .. }
        | ReadValue::TooDeep { .. } => Ok(()),
    }
}

// The value that comes first, where it is set apart from what follows, and how many bytes it has.
fn apart_value(alloc: Global, text: &[u8]) -> Result<Option<(Value, usize)>, NoMemory>
    ensures { IfOk result (IsValueFound text.now) }
{
    match read_value(alloc, text, 0) {
        Ok((value, len)) => {
            if is_apart(&text[len..]) {
                Ok(Some((value, len)))
            } else {
                Ok(None)
            }
        }
        Err(refusal) => {
            unless_memory(refusal)?;
            Ok(None)
        }
    }
}

// A part, where there is one, and how many bytes it has.
type PartFound = Option<(ReadPart, usize)>;

// The value at a path, whose text comes behind `=`.
fn value_part(alloc: Global, path: &[u8], text: &[u8]) -> Result<PartFound, NoMemory>
    ensures { IfOk result (IsValuePart path.now text.now) }
{
    let Some(path) = read_path(alloc, path)? else {
        return Ok(None);
    };
    let Some((value, len)) = apart_value(alloc, text)? else {
        return Ok(None);
    };
    Ok(Some((ReadPart::Given(path, value), len)))
}

// The length of the list at a path, whose text comes behind `=`.
fn length_part(alloc: Global, path: &[u8], text: &[u8]) -> Result<PartFound, NoMemory>
    ensures { IfOk result (IsLengthPart path.now text.now) }
{
    let Some(path) = read_path(alloc, path)? else {
        return Ok(None);
    };
    let len = len_before(b' ', text);
    let Some(length) = digits_within(LENGTH_LIMIT, &text[..len]) else {
        return Ok(None);
    };
    Ok(Some((ReadPart::Measured(path, length), len)))
}

// What stands between `|` and `|`.
fn between_bars(text: &[u8]) -> Option<&[u8]>
    ensures { MatchOption result
        ((path : List ℕ) → text.now ≢ codes "|" ++ (path ++ codes "|"))
        (λ path. text.now ≡ codes "|" ++ (path.now ++ codes "|")) }
{
    match text {
        [b'|', path @ .., b'|'] => Some(path),
        _ => None,
    }
}

// The part whose text is cut at its `=`, and how many bytes of it come behind.
fn part_around(alloc: Global, left: &[u8], text: &[u8]) -> Result<PartFound, NoMemory>
    ensures { IfOk result (IsPartAround left.now text.now) }
{
    match between_bars(left) {
        Some(path) => length_part(alloc, path, text),
        None => value_part(alloc, left, text),
    }
}

// The part that comes first, and how many bytes it has.
fn first_part(alloc: Global, text: &[u8]) -> Result<PartFound, NoMemory>
    ensures { IfOk result (IsPartFound text.now) }
{
    let cut = len_before(b'=', text);
    if cut >= text.len() {
        return Ok(None);
    }
    match part_around(alloc, &text[..cut], &text[cut + 1..])? {
        Some((part, len)) => Ok(Some((part, cut + 1 + len))),
        None => Ok(None),
    }
}

// The part that comes first behind a space, and how many bytes it has with the space.
fn next_part(alloc: Global, text: &[u8]) -> Result<PartFound, NoMemory>
    ensures { IfOk result (IsNextPart text.now) }
{
    let [b' ', more @ ..] = text else {
        return Ok(None);
    };
    match first_part(alloc, more)? {
        Some((part, len)) => Ok(Some((part, len + 1))),
        None => Ok(None),
    }
}

/// The parts that the whole text spells, each after one space.
pub fn read_parts(alloc: Global, text: &[u8]) -> Result<Option<Vec<ReadPart>>, NoMemory>
    ensures { IfOk result (λ found. ArePartsFound text.now (found_parts found)) }
{
    let mut parts = Vec::new(alloc);
    let mut rest = text;
    while !rest.is_empty() {
        let Some((part, len)) = next_part(alloc, rest)? else {
            return Ok(None);
        };
        parts.push(part)?;
        rest = &rest[len..];
    }
    Ok(Some(parts))
}
