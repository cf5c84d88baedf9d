// What a line of inputs begins with.
ghost use Rattle.std.specs.Prelude.{◌≡◌, ◌≤◌, ◌==◌, length, min, IfSome};
ghost use Rattle.std.specs.Char.{is_ascii_digit};
ghost use Rattle.std.specs.List.{prefix_len, position, list_all};
ghost use Rattle.tp_value.specs.Spelling.{is_value_blank, decimal_value};
ghost use Rattle.tp_inputs.specs.Spans as spec;
ghost use Rattle.tp_inputs.specs.Bounds.{IsSpan, HeadBounds};

use crate::span::{LineHead, Span};

/// The last state that a range may name.
pub const LAST_STATE: u64 = 99_999_999;

pub fn is_blank(byte: u8) -> bool
    ensures { result ≡ is_value_blank byte }
{
    byte == b' ' || byte == b'\t'
}

fn is_range_byte(byte: u8) -> bool
    ensures { result ≡ spec.is_range_byte byte }
{
    byte.is_ascii_digit() || byte == b'-' || byte == b'*'
}

// How many blanks the text begins with.
fn blank_len(text: &[u8]) -> usize
    ensures value { result ≡ prefix_len is_value_blank text.now }
    ensures within { result ≤ length text.now }
{
    let mut end = 0;
    while end < text.len() && is_blank(text[end]) {
        end += 1;
    }
    end
}

// How many bytes of a range the text begins with.
fn range_len(text: &[u8]) -> usize
    ensures value { result ≡ prefix_len spec.is_range_byte text.now }
    ensures within { result ≤ length text.now }
{
    let mut end = 0;
    while end < text.len() && is_range_byte(text[end]) {
        end += 1;
    }
    end
}

// The number that digits spell, or the last state where it is greater.
fn bounded(digits: &[u8]) -> u64
    ensures { result ≡ min (decimal_value digits.now) spec.last_state }
{
    let mut state: u64 = 0;
    for digit in digits {
        state = (10 * state + u64::from(digit.saturating_sub(b'0'))).min(LAST_STATE);
    }
    state
}

fn all_digits(text: &[u8]) -> bool
    ensures { result ≡ list_all is_ascii_digit text.now }
{
    for byte in text {
        if !byte.is_ascii_digit() {
            return false;
        }
    }
    true
}

// Whether there are one to eight digits, and nothing else.
fn is_state(text: &[u8]) -> bool
    ensures { result ≡ spec.is_state text.now }
{
    !text.is_empty() && text.len() <= 8 && all_digits(text)
}

// Where the `-` of a range stands.
fn dash_place(text: &[u8]) -> Option<usize>
    ensures { result ≡ position (λ b. b == 45) text.now }
{
    text.iter().position(|byte| *byte == b'-')
}

// The state that one to eight digits name.
#[tactic(auto, unfolding(crate::specs::Spans::named_state))]
fn named_state(digits: &[u8]) -> Option<u64>
    ensures value { result ≡ spec.named_state digits.now }
    ensures within { IfSome result (λ state. state ≤ spec.last_state) }
{
    // Eight digits spell no number past the last state.
    if is_state(digits) {
        Some(bounded(digits))
    } else {
        None
    }
}

// From one state to another that isn't before it.
fn between(first: Option<u64>, last: Option<u64>) -> Option<Span>
    requires first { IfSome first (λ state. state ≤ spec.last_state) }
    requires last { IfSome last (λ state. state ≤ spec.last_state) }
    ensures value { result ≡ spec.between first last }
    ensures within { IfSome result IsSpan }
{
    let (first, last) = (first?, last?);
    if first <= last {
        Some(Span::States { first, last })
    } else {
        None
    }
}

// What stands behind the `-` of a range.
fn end_of(text: &[u8]) -> Option<u64>
    ensures value { result ≡ spec.end_of text.now }
    ensures within { IfSome result (λ state. state ≤ spec.last_state) }
{
    if text.is_empty() {
        Some(LAST_STATE)
    } else {
        named_state(text)
    }
}

// `k`, `k-m`, `k-`, or `*`.
#[tactic(auto, unfolding(crate::specs::Spans::range_of))]
fn range_of(text: &[u8]) -> Option<Span>
    ensures value { result ≡ spec.range_of text.now }
    ensures within { IfSome result IsSpan }
{
    if text == b"*".as_slice() {
        return Some(Span::Others);
    }
    match dash_place(text) {
        Some(cut) => between(named_state(&text[..cut]), end_of(&text[cut + 1..])),
        None => between(named_state(text), named_state(text)),
    }
}

/// What a line of the second format begins with.
#[tactic(auto, unfolding(crate::specs::Spans::ranged_head))]
pub fn ranged_head(line: &[u8]) -> LineHead
    ensures value { result ≡ spec.ranged_head line.now }
    ensures within { HeadBounds line.now result }
{
    let blanks = blank_len(line);
    if blanks == line.len() {
        return LineHead::Silent;
    }
    let rest = &line[blanks..];
    let len = range_len(rest);
    let after = &rest[len..];
    let more = blank_len(after);
    if more == after.len() || after[more] != b':' {
        return LineHead::Unheard;
    }
    match range_of(&rest[..len]) {
        Some(span) => LineHead::Speaks(span, blanks + len + more + 1),
        None => LineHead::Unheard,
    }
}
