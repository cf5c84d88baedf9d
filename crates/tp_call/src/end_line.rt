// The end line of a refusal.
ghost use Rattle.std.specs.Prelude.{◌≡◌, ◌++◌, IfOk, OnOk, codes};
ghost use Rattle.std.specs.Fmt.{decimal};
ghost use Rattle.tp_call.specs.EndLine.{refusal_line, refusal_words, place_text, which_text};

use crate::status::{Status, Which};
use itoa::Buffer;
use std::alloc::Global;
use tp_value::{NoMemory, Text};

/// Appends some words and then a number.
pub fn append_counted(out: &mut Text, words: &[u8], n: u64) -> Result<(), NoMemory>
    ensures { OnOk result (out.new ≡ out.old ++ (words.now ++ decimal n)) }
{
    let mut buffer = Buffer::new();
    out.append(words)?;
    out.append(buffer.format(n).as_bytes())
}

fn append_place(out: &mut Text, line: u64, column: u64) -> Result<(), NoMemory>
    ensures { OnOk result (out.new ≡ out.old ++ place_text line column) }
{
    append_counted(out, b"source refused: line ", line)?;
    append_counted(out, b" column ", column)
}

fn append_states(out: &mut Text, states: u64) -> Result<(), NoMemory>
    ensures { OnOk result (out.new ≡ out.old
        ++ (codes "trace too long: " ++ decimal states ++ codes " states")) }
{
    append_counted(out, b"trace too long: ", states)?;
    out.append(b" states")
}

fn append_about(out: &mut Text, words: &[u8], which: Which) -> Result<(), NoMemory>
    ensures { OnOk result (out.new ≡ out.old ++ (words.now ++ which_text which)) }
{
    out.append(words)?;
    out.append(which.text().as_bytes())
}

// What the end line says before its line feed.
fn append_words(out: &mut Text, status: &Status) -> Result<(), NoMemory>
    ensures { OnOk result (out.new ≡ out.old ++ refusal_words status.now) }
{
    match status {
        Status::SourceRefused { line, column, kind } => {
            append_place(out, *line, *column)?;
            out.append(b": ")?;
            out.append(kind.text().as_bytes())
        }
        Status::InputsRefused { line } => append_counted(out, b"inputs refused: line ", *line),
        Status::OtherRefused { line } => append_counted(out, b"other refused: line ", *line),
        Status::TraceTooLong { states } => append_states(out, *states),
        Status::WordsRefused => out.append(b"words refused"),
        Status::TooLong { which } => append_about(out, b"too long: ", *which),
        Status::ReadFault { which } => append_about(out, b"read fault: ", *which),
        Status::Finished { .. } | Status::Contradictory { .. } => Ok(()),
        Status::Undetermined { .. } | Status::StateLimit { .. } => Ok(()),
        Status::ReductionLimit { .. } | Status::NumberLimit { .. } => Ok(()),
        Status::ListLimit { .. } | Status::CallLimit { .. } => Ok(()),
        Status::NestLimit { .. } | Status::InputMissing { .. } => Ok(()),
        Status::Done | Status::WriteFault | Status::NoMemory => Ok(()),
    }
}

/// The end line of a call that runs no program.
pub fn refusal_text(alloc: Global, status: &Status) -> Result<Text, NoMemory>
    ensures { IfOk result (λ text. text ≡ refusal_line status.now) }
{
    let mut out = Text::new(alloc);
    append_words(&mut out, status)?;
    out.append(b"\n")?;
    Ok(out)
}
