// Paths in the line of a state: a name and indices.
ghost use Rattle.std.specs.Prelude.{◌≡◌, ◌≤◌, length, min, IfOk};
ghost use Rattle.tp_value.specs.Spelling.{decimal_value};
ghost use Rattle.tp_show.specs.TraceReading.{AreIndicesFound, IsPathFound};
ghost use Rattle.tp_show.specs.TraceReading as spec;

use crate::trace_part::NamedPath;
use std::alloc::Global;
use tp_lex::{NAME_LIMIT, name_len, word_of};
use tp_value::{INDEX_LIMIT, Indices, NoMemory, PATH_LIMIT, Text};

/// How many bytes stand before the first one that is `stop`.
pub fn len_before(stop: u8, text: &[u8]) -> usize
    ensures value { result ≡ spec.len_before stop text.now }
    ensures within { result ≤ length text.now }
{
    let mut end = 0;
    while end < text.len() && text[end] != stop {
        end += 1;
    }
    end
}

fn all_digits(text: &[u8]) -> bool
    ensures { result ≡ spec.all_digits text.now }
{
    for byte in text {
        if !byte.is_ascii_digit() {
            return false;
        }
    }
    true
}

// The number that digits spell, or the bound where it is greater.
fn bounded(digits: &[u8], bound: u32) -> u32
    requires { bound ≤ 65537 }
    ensures { result ≡ min (decimal_value digits.now) bound }
{
    let mut n: u32 = 0;
    for digit in digits {
        n = (10 * n + u32::from(digit.saturating_sub(b'0'))).min(bound);
    }
    n
}

/// The number that the whole text spells in digits, where it is within the limit.
pub fn digits_within(limit: u32, text: &[u8]) -> Option<u32>
    requires { limit ≤ 65536 }
    ensures { result ≡ spec.digits_within limit text.now }
{
    if text.is_empty() || !all_digits(text) {
        return None;
    }
    let n = bounded(text, limit + 1);
    if n <= limit { Some(n) } else { None }
}

// The index whose digits have so many bytes.
fn index_of_len(len: usize, text: &[u8]) -> Option<(u32, usize)>
    ensures { result ≡ spec.index_of_len len text.now }
{
    if len >= text.len() {
        return None;
    }
    let index = digits_within(INDEX_LIMIT, &text[..len])?;
    Some((index, len + 2))
}

// The index in brackets that comes first, and how many bytes it has with its brackets.
fn first_index(text: &[u8]) -> Option<(u32, usize)>
    ensures { result ≡ spec.first_index text.now }
{
    match text {
        [b'[', more @ ..] => index_of_len(len_before(b']', more), more),
        _ => None,
    }
}

// The indices that the whole text spells.
fn read_indices(alloc: Global, text: &[u8]) -> Result<Option<Indices>, NoMemory>
    ensures { IfOk result (AreIndicesFound text.now) }
{
    let mut items = Vec::new(alloc);
    let mut rest = text;
    while !rest.is_empty() {
        let Some((index, len)) = first_index(rest) else {
            return Ok(None);
        };
        items.push(index)?;
        rest = &rest[len..];
    }
    Ok(Some(Indices { items }))
}

// Whether a name whose bytes are letters, digits and `_` is one of a variable.
fn is_variable_name(name: &[u8]) -> bool
    ensures { result ≡ spec.is_variable_name name.now }
{
    match name {
        [first, ..] => {
            first.is_ascii_alphabetic() && name.len() <= NAME_LIMIT && word_of(name).is_none()
        }
        [] => false,
    }
}

/// The path that the whole text spells.
pub fn read_path(alloc: Global, text: &[u8]) -> Result<Option<NamedPath>, NoMemory>
    ensures { IfOk result (IsPathFound text.now) }
{
    let (name, indices) = text.split_at(name_len(text));
    if !is_variable_name(name) {
        return Ok(None);
    }
    let Some(at) = read_indices(alloc, indices)? else {
        return Ok(None);
    };
    if at.items.len() > PATH_LIMIT {
        return Ok(None);
    }
    let name = Text::from_slice(alloc, name)?;
    Ok(Some(NamedPath { name, at }))
}
