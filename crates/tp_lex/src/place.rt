// Where a byte of a text stands.
ghost use Rattle.std.specs.Prelude.{◌≡◌, ◌+◌, ◌-◌, ◌≤◌, ◌<◌, ◌^◌, length, drop, slice_index};
ghost use Rattle.tp_lex.specs.Place.{source_limit, place_of, place_from, token_at};
ghost use Rattle.tp_lex.specs.Line.{EndsNoLine, place_along};

use crate::token::{Kind, TextPlace, Token};
use tp_lanes::count_byte;

// How many bytes stand behind the last line feed, or at all.
fn last_line_len(bytes: &[u8]) -> usize
    ensures within { result ≤ length bytes.now }
    ensures line { EndsNoLine (drop (length bytes.now - result) bytes.now) }
    ensures feed { let before = length bytes.now - result - 1 in
        result < length bytes.now → slice_index bytes.now before ≡ 10 }
{
    let mut from = bytes.len();
    while from > 0 && bytes[from - 1] != b'\n' {
        from -= 1;
    }
    bytes.len() - from
}

impl TextPlace {
    /// Where a text begins.
    pub const START: TextPlace = TextPlace {
        at: 0,
        line: 1,
        column: 1,
    };

    /// The place behind so many bytes of the same line.
    pub fn along(self, len: usize) -> TextPlace
        requires at { self.at + len < 2 ^ 32 }
        requires column { self.column + len < 2 ^ 32 }
        ensures { result ≡ place_along self len }
    {
        TextPlace {
            at: self.at + len as u32,
            line: self.line,
            column: self.column + len as u32,
        }
    }

    /// The place behind some more bytes.
    pub fn after(self, bytes: &[u8]) -> TextPlace
        requires at { self.at + length bytes.now + 1 < 2 ^ 32 }
        requires line { self.line ≤ self.at + 1 }
        requires column { self.column ≤ self.at + 1 }
        ensures place { result ≡ place_from self bytes.now }
        ensures at { result.at ≡ self.at + length bytes.now }
        ensures line { result.line ≤ result.at + 1 }
        ensures column { result.column ≤ result.at + 1 }
    {
        let lines = count_byte(bytes, b'\n');
        if lines == 0 {
            return self.along(bytes.len());
        }
        TextPlace {
            at: self.at + bytes.len() as u32,
            line: self.line + lines as u32,
            column: 1 + last_line_len(bytes) as u32,
        }
    }

    /// The token of so many bytes that begins here.
    pub fn token(self, kind: Kind, len: usize) -> Token
        requires { self.at + len < 2 ^ 32 }
        ensures { result ≡ token_at kind len self }
    {
        Token {
            kind,
            from: self.at,
            to: self.at + len as u32,
            line: self.line,
            column: self.column,
        }
    }
}

/// The line and the column of the byte `at`, or of the end, both counted from 1: lines end behind a line feed, and columns count
/// bytes.
pub fn place_of(bytes: &[u8], at: usize) -> (u32, u32)
    requires within { at ≤ length bytes.now }
    requires size { length bytes.now ≤ source_limit }
    ensures { let place = place_of bytes.now at in result ≡ (place.line, place.column) }
{
    let place = TextPlace::START.after(&bytes[..at]);
    (place.line, place.column)
}
