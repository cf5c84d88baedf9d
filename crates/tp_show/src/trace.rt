// Traces from their texts.
ghost use Rattle.std.specs.Prelude.{◌≡◌, IfOk, IfErr};
ghost use Rattle.tp_show.specs.declared.trace.TraceRefusal.TheVariants.{NoMemory as refused_memory};
ghost use Rattle.tp_show.specs.TraceArranged.{ReadsArranged};
ghost use Rattle.tp_show.specs.TraceOfRun.{ReadsPrinted};
ghost use Rattle.tp_show.specs.Trace.{IsTraceText};
ghost use Rattle.tp_show.specs.TraceRefused.{IsTraceRefusal};

use crate::named_fact::NamedFact;
use crate::trace_line::{LineKind, line_kind};
use std::alloc::{AllocFailed, Global};
use std::marker::Model;
use tp_lex::first_line;
use tp_value::{Indices, NoMemory, Shape, Text};

/// The facts of a state, in the order of its line: a list's length before the facts of its items.
#[derive(Debug, Drop)]
pub struct TraceState {
    pub facts: Vec<NamedFact>,
}

impl Model for TraceState {
    ghost use Rattle.std.specs.Prelude.{List};
    ghost use Rattle.tp_show.specs.declared.named_fact.NamedFact.{NamedFact};

    ghost Value = { List NamedFact };

    ghost view = { λ a. a.facts.items };
}

/// The states from number 0 on.
#[derive(Debug, Drop)]
pub struct Trace {
    pub states: Vec<TraceState>,
}

impl Model for Trace {
    ghost use Rattle.std.specs.Prelude.{List};
    ghost use Rattle.tp_show.specs.declared.named_fact.NamedFact.{NamedFact};

    ghost Value = { List (List NamedFact) };

    ghost view = { λ a. a.states.items };
}

/// Why bytes are no trace: the first line, from 1, that isn't allowed where it stands; or want of memory.
#[derive(Clone, Copy, Debug, PartialEq, Eq)]
pub enum TraceRefusal {
    BadLine { line: u64 },
    NoMemory,
}

impl From<NoMemory> for TraceRefusal {
    ghost from_gives = { λ _ r. r ≡ refused_memory };

    fn from(_: NoMemory) -> TraceRefusal {
        TraceRefusal::NoMemory
    }
}

impl<T: Drop> From<AllocFailed<T>> for TraceRefusal {
    ghost from_gives = { λ _ r. r ≡ refused_memory };

    fn from(_: AllocFailed<T>) -> TraceRefusal {
        TraceRefusal::NoMemory
    }
}

// The states of a trace, from its text.
fn states_of(alloc: Global, bytes: &[u8]) -> Result<Trace, TraceRefusal>
    ensures trace { IfOk result (λ trace. IsTraceText bytes.now trace) }
    ensures refused { IfErr result (λ refusal. IsTraceRefusal bytes.now refusal) }
{
    let mut states = Vec::new(alloc);
    let mut rest = bytes;
    let mut line: u64 = 1;
    while !rest.is_empty() {
        let (text, after) = first_line(rest);
        match line_kind(alloc, states.len() as u64, text)? {
            LineKind::State(state) => states.push(state)?,
            LineKind::PassedOver => {}
            LineKind::End => {
                if after.is_empty() {
                    return Ok(Trace { states });
                }
                return Err(TraceRefusal::BadLine { line: line + 1 });
            }
            LineKind::Bad => return Err(TraceRefusal::BadLine { line }),
        }
        line += 1;
        rest = after;
    }
    if states.is_empty() {
        return Err(TraceRefusal::BadLine { line: 1 });
    }
    Ok(Trace { states })
}

/// The states of a trace, from its text. Lines end with a line feed, or with a carriage return and a line feed, which the last may
/// lack. The line of a state is `state `, its number, which counts from 0, `:`, and any number of parts `PATH=VALUE` and
/// `|PATH|=LENGTH`, each after one space, whose facts don't clash. A path is the name of a variable and indices, as `L[1]`. Behind the
/// line of a state there may be lines that begin with `show`, `reductions ` or `residual: `, which are passed over, and last there may
/// be one that begins as the line does that ends the text of a run. The first line that isn't allowed where it stands is refused.
pub fn read_trace(alloc: Global, bytes: &[u8]) -> Result<Trace, TraceRefusal>
    ensures trace { IfOk result (λ trace. IsTraceText bytes.now trace) }
    ensures refused { IfErr result (λ refusal. IsTraceRefusal bytes.now refusal) }
    ensures printed { ReadsPrinted bytes.now result }
    ensures arranged { ReadsArranged bytes.now result }
{
    states_of(alloc, bytes)
}
