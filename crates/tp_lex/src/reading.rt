// Tokens from bytes, from left to right.
ghost use Rattle.std.specs.Prelude.{◌≡◌, ◌≤◌, length, IfOk, IfErr};
ghost use Rattle.tp_lex.specs.Place.{source_limit};
ghost use Rattle.tp_lex.specs.Tokens.{AreTokens, IsRefusedUnlessMemory, refusal_at};

use crate::first::{blanks_len, first_piece};
use crate::piece::{Fault, Piece};
use crate::refusal::LexRefusal;
use crate::token::{TextPlace, Tokens};
use std::alloc::Global;

fn refusal(fault: Fault, at: usize) -> LexRefusal
    ensures { result ≡ refusal_at fault at }
{
    match fault {
        Fault::BadByte => LexRefusal::BadByte { at },
        Fault::OpenComment => LexRefusal::OpenComment { at },
        Fault::NumberTooLarge => LexRefusal::NumberTooLarge { at },
        Fault::NameTooLong => LexRefusal::NameTooLong { at },
    }
}

/// The tokens of the text in order, or its first fault.
pub fn tokens(alloc: Global, bytes: &[u8]) -> Result<Tokens, LexRefusal>
    requires { length bytes.now ≤ source_limit }
    ensures tokens { IfOk result (λ tokens. AreTokens bytes.now tokens) }
    ensures refused { IfErr result (λ refusal. IsRefusedUnlessMemory bytes.now refusal) }
{
    let mut found = Vec::new(alloc);
    // Room for the tokens of most texts at once. Where there is none, each push asks for its own.
    let _ = found.reserve(bytes.len() / 4);
    let mut place = TextPlace::START;
    let mut rest = bytes;
    while !rest.is_empty() {
        // A run of blanks, as at the head of a line, is passed at once.
        let blanks = blanks_len(rest);
        if blanks > 0 {
            place = place.after(&rest[..blanks]);
            rest = &rest[blanks..];
            continue;
        }
        let (len, next) = match first_piece(alloc, rest)? {
            Piece::Gap(len) => (len, place.after(&rest[..len])),
            // No line ends within a token.
            Piece::Lexeme(kind, len) => {
                found.push(place.token(kind, len))?;
                (len, place.along(len))
            }
            Piece::Refused(fault) => return Err(refusal(fault, place.at as usize)),
        };
        place = next;
        rest = &rest[len..];
    }
    Ok(Tokens { items: found })
}
