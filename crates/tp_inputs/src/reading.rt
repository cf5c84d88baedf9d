// The table of inputs from its text.
ghost use Rattle.std.specs.Prelude.{◌≡◌, ◌<◌, ◌^◌, Bool, true, length, IfOk, IfErr};
ghost use Rattle.std.specs.Str.Lines.{lines};
ghost use Rattle.tp_inputs.specs.Bounds.{HeadBounds};
ghost use Rattle.tp_inputs.specs.Spans as spec;
ghost use Rattle.tp_inputs.specs.Read.{inputs_of};
ghost use Rattle.tp_inputs.specs.Table.{IsInputsText};
ghost use Rattle.tp_inputs.specs.InputsRefusals.{IsInputsRefusal};

use crate::head::ranged_head;
use crate::inputs::Inputs;
use crate::line::take_line;
use crate::ports::Ports;
use crate::refusal::InputsRefusal;
use crate::span::{LineHead, Span};
use std::alloc::Global;
use tp_lex::first_line;

// Whether the first line says that the others name the states for which they speak.
fn has_ranges(bytes: &[u8]) -> bool
    ensures { result ≡ spec.has_ranges (lines bytes.now) }
{
    !bytes.is_empty() && first_line(bytes).0 == b"inputs 2".as_slice()
}

// For which states the line with that number, from 0, speaks.
fn head_of(second: bool, number: u64, line: &[u8]) -> LineHead
    requires { number < 2 ^ 63 }
    ensures value { result ≡ spec.head_of second number line.now }
    ensures within { HeadBounds line.now result }
{
    if !second {
        let states = Span::States {
            first: number,
            last: number,
        };
        LineHead::Speaks(states, 0)
    } else if number == 0 {
        LineHead::Silent
    } else {
        ranged_head(line)
    }
}

/// The table of inputs of the text. Its lines end with a line feed, or a carriage return and a line feed, which the last line may
/// lack. Where the first line is not `inputs 2`, the line with number k + 1 speaks for state k; else each later line is blank, or
/// begins with the states for which it speaks and a colon: `k`, `k-m`, `k-` for all from k on, or `*` for those for which nothing
/// else is said. A line holds any number of pairs `port=value`, with spaces and tabs between them and at both ends. A port is a
/// name that begins with a lower-case letter and is no word, and has one value in a state, and one default. The first line that is
/// refused is named, with its first fault; a port that is given twice is at fault before its second value.
pub fn read_inputs(alloc: Global, bytes: &[u8]) -> Result<Inputs, InputsRefusal>
    ensures table { IfOk result (λ inputs. IsInputsText bytes.now (inputs_of inputs)) }
    ensures refused { IfErr result (λ refusal. IsInputsRefusal bytes.now refusal) }
{
    let second = has_ranges(bytes);
    let mut ports = Ports::new(alloc);
    let mut number: u64 = 0;
    let mut rest = bytes;
    while !rest.is_empty() {
        let (line, after) = first_line(rest);
        if let Err(refusal) = take_line(alloc, line, head_of(second, number, line), &mut ports) {
            return Err(refusal.in_line(number + 1));
        }
        number += 1;
        rest = after;
    }
    Ok(Inputs { ports })
}
