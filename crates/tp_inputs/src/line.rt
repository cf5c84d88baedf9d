// The pairs of a line.
ghost use Rattle.std.specs.Prelude.{◌≡◌, ◌≢◌, ◌≤◌, [], true, length, drop, IfOk, IfErr};
ghost use Rattle.tp_inputs.specs.Bounds.{IsSpan, HeadBounds};
ghost use Rattle.tp_inputs.specs.Spans.{are_ports};
ghost use Rattle.tp_inputs.specs.Table.{PassesPart, ReadsPairs, IsLine};
ghost use Rattle.tp_inputs.specs.Model.{table_of};
ghost use Rattle.tp_inputs.specs.Read.{IsPartRefusal, IsPairsRefusal, IsLineRefusal};

use crate::fault::LineFault;
use crate::part::{FoundPart, first_part};
use crate::ports::Ports;
use crate::refusal::LineRefusal;
use crate::span::{LineHead, Span};
use std::alloc::Global;

// Takes what the rest of a line begins with, a blank or a pair, and tells how many bytes it has.
fn take_part(
    alloc: Global,
    text: &[u8],
    span: Span,
    ports: &mut Ports,
) -> Result<usize, LineRefusal>
    requires some { text.now ≢ [] }
    requires span { IsSpan span }
    requires ports { are_ports (table_of ports.old) ≡ true }
    ensures passed { IfOk result (λ len.
        PassesPart span text.now (table_of ports.old) (table_of ports.new) len) }
    ensures refused { IfErr result (λ refusal.
        IsPartRefusal span (table_of ports.old) text.now refusal) }
{
    match first_part(alloc, text)? {
        FoundPart::Blank => Ok(1),
        FoundPart::Pair(port, value, len) => {
            if ports.give(alloc, span, port, value)? {
                Ok(len)
            } else {
                Err(LineRefusal::Fault(LineFault::Twice))
            }
        }
        FoundPart::Valueless(port, fault) => {
            // The second value of a port is at fault whatever it is.
            if ports.has(span, &port) {
                Err(LineRefusal::Fault(LineFault::Twice))
            } else {
                Err(LineRefusal::Fault(fault))
            }
        }
        FoundPart::Fault(fault) => Err(LineRefusal::Fault(fault)),
    }
}

// Takes the pairs that are left of a line.
fn take_pairs(alloc: Global, text: &[u8], span: Span, ports: &mut Ports) -> Result<(), LineRefusal>
    requires span { IsSpan span }
    requires ports { are_ports (table_of ports.old) ≡ true }
    ensures pairs { IfOk result (λ _.
        ReadsPairs span text.now (table_of ports.old) [] (table_of ports.new)) }
    ensures kept { IfOk result (λ _. are_ports (table_of ports.new) ≡ true) }
    ensures refused { IfErr result (λ refusal.
        IsPairsRefusal span (table_of ports.old) text.now refusal) }
{
    let mut rest = text;
    while !rest.is_empty() {
        let len = take_part(alloc, rest, span, ports)?;
        rest = &rest[len..];
    }
    Ok(())
}

/// Takes what a line says.
pub fn take_line(
    alloc: Global,
    line: &[u8],
    head: LineHead,
    ports: &mut Ports,
) -> Result<(), LineRefusal>
    requires head { HeadBounds line.now head }
    requires ports { are_ports (table_of ports.old) ≡ true }
    ensures line { IfOk result (λ _.
        IsLine head line.now (table_of ports.old) (table_of ports.new)) }
    ensures kept { IfOk result (λ _. are_ports (table_of ports.new) ≡ true) }
    ensures refused { IfErr result (λ refusal.
        IsLineRefusal head line.now (table_of ports.old) refusal) }
{
    match head {
        LineHead::Speaks(span, len) => take_pairs(alloc, &line[len..], span, ports),
        LineHead::Silent => Ok(()),
        LineHead::Unheard => Err(LineRefusal::Fault(LineFault::Bad)),
    }
}
