// Where and why a source is refused.
ghost use Rattle.std.specs.Prelude.{◌≡◌, ◌≤◌, length, slice_get};
ghost use Rattle.tp_lex.specs.Place.{source_limit};
ghost use Rattle.tp_call.specs.Source.{refused_at, at_token as token_refusal, lexer_refusal, parser_refusal, checker_refusal};
ghost use Rattle.tp_call.specs.Parts.{refusal_end};

use crate::status::{Refused, SourceKind, Status};
use tp_check::CheckRefusal;
use tp_lex::{LexRefusal, Tokens, place_of};
use tp_parse::ParseRefusal;

// The line and column of a byte, or of the end.
fn at_byte(source: &[u8], at: usize, kind: SourceKind) -> Refused
    requires { length source.now ≤ source_limit }
    ensures { result ≡ refused_at source.now at kind }
{
    let (line, column) = place_of(source, at.min(source.len()));
    Refused {
        line: u64::from(line),
        column: u64::from(column),
        kind,
    }
}

fn at_token(tokens: &Tokens, number: usize, kind: SourceKind) -> Option<Refused>
    ensures { result ≡ token_refusal kind (slice_get tokens.now number) }
{
    let token = tokens.items.get(number)?;
    Some(Refused {
        line: u64::from(token.line),
        column: u64::from(token.column),
        kind,
    })
}

/// Where and why a text has no tokens; none where memory was wanted.
pub fn by_lexer(source: &[u8], refusal: LexRefusal) -> Option<Refused>
    requires { length source.now ≤ source_limit }
    ensures { result ≡ lexer_refusal source.now refusal }
{
    match refusal {
        LexRefusal::BadByte { at } => Some(at_byte(source, at, SourceKind::BadByte)),
        LexRefusal::OpenComment { at } => Some(at_byte(source, at, SourceKind::OpenComment)),
        LexRefusal::NumberTooLarge { at } => Some(at_byte(source, at, SourceKind::NumberTooLarge)),
        LexRefusal::NameTooLong { at } => Some(at_byte(source, at, SourceKind::NameTooLong)),
        LexRefusal::NoMemory => None,
    }
}

/// Where and why tokens are no source; none where memory was wanted.
pub fn by_parser(source: &[u8], tokens: &Tokens, refusal: ParseRefusal) -> Option<Refused>
    requires { length source.now ≤ source_limit }
    ensures { result ≡ parser_refusal source.now tokens.now refusal }
{
    match refusal {
        ParseRefusal::Unexpected { token } => at_token(tokens, token, SourceKind::Unexpected),
        ParseRefusal::Unfinished => Some(at_byte(source, source.len(), SourceKind::Unfinished)),
        ParseRefusal::TooDeep { token } => at_token(tokens, token, SourceKind::TooDeep),
        ParseRefusal::NoMemory => None,
    }
}

/// Where and why a source is not run; none where memory was wanted.
pub fn by_checker(source: &[u8], refusal: CheckRefusal) -> Option<Refused>
    requires { length source.now ≤ source_limit }
    ensures { result ≡ checker_refusal source.now refusal }
{
    match refusal {
        CheckRefusal::Twice { at } => Some(at_byte(source, at as usize, SourceKind::DefinedTwice)),
        CheckRefusal::Unknown { at } => Some(at_byte(source, at as usize, SourceKind::UnknownName)),
        CheckRefusal::WrongCount { at } => {
            Some(at_byte(source, at as usize, SourceKind::WrongCount))
        }
        CheckRefusal::NotExpression { at } => {
            Some(at_byte(source, at as usize, SourceKind::NotExpression))
        }
        CheckRefusal::NotPlace { at } => Some(at_byte(source, at as usize, SourceKind::NotPlace)),
        CheckRefusal::NotPort { at } => Some(at_byte(source, at as usize, SourceKind::NotPort)),
        CheckRefusal::NotExecutable { at } => {
            Some(at_byte(source, at as usize, SourceKind::NotExecutable))
        }
        CheckRefusal::NoMemory => None,
    }
}

/// The status for a refusal; none stands for want of memory.
pub fn refusal_status(refused: Option<Refused>) -> Status
    ensures { result ≡ refusal_end refused }
{
    match refused {
        Some(Refused { line, column, kind }) => Status::SourceRefused { line, column, kind },
        None => Status::NoMemory,
    }
}
