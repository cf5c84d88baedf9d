// Checking a trace by a wider formula.
ghost use Rattle.std.specs.Prelude.{◌≡◌, ◌≤◌, ◌<◌, List, ℕ, Err, length, IfOk, IfErr};
ghost use Rattle.tp_lex.specs.Place.{source_limit};
ghost use Rattle.tp_io.specs.Held.{Rose, bytes_of};
ghost use Rattle.tp_meaning.specs.Interval.{kinds_of};
ghost use Rattle.tp_show.specs.Trace.{IsTraceText};
ghost use Rattle.tp_verdict.specs.Code.{verdict_of};
ghost use Rattle.tp_verdict.specs.Read.{wide_tree};
ghost use Rattle.tp_verdict.specs.Trace.{WideFits};
ghost use Rattle.tp_monitor.specs.Seen.{wide_seen};
ghost use Rattle.tp_words.specs.declared.mode.Mode.TheVariants.{Check};
ghost use Rattle.tp_call.specs.declared.status.Which.{Which};
ghost use Rattle.tp_call.specs.Answer.{trace_limit, WhereTold, HoldsWide, HoldsTrace, IsJudged};
ghost use Rattle.tp_call.specs.EndLine.{verdict_line};
ghost use Rattle.tp_call.specs.Asked.{AsksOnly};
ghost use Rattle.tp_call.specs.Parts.{IsReadRefusal, IsSourceRefusal, IsTraceEnd, IsUnreadTrace, IsUnjudged, IsVerdictBy, IsProgramRefusal, ClosesText};
ghost use Rattle.tp_call.specs.Reading.{AsksFile};
ghost use Rattle.tp_call.specs.Source.{IsWideText};
ghost use Rattle.tp_call.specs.Task.{AsksFor};

use crate::close::close;
use crate::printing::parse_source;
use crate::refused::{by_checker, refusal_status};
use crate::source::{SOURCE_LIMIT, read_limited, read_status};
use crate::status::{Status, Which};
use std::alloc::Global;
use tp_io::{Files, Sink};
use tp_monitor::{MonitorRefusal, Wide, holds_on, read_wide};
use tp_show::{Trace, TraceRefusal, read_trace};
use tp_verdict::Verdict;
use tp_words::Command;

// The greatest length of a trace, in bytes.
const TRACE_LIMIT: usize = 16_777_216;

// Reads a wider formula from its source.
fn wide_of(alloc: Global, source: &[u8]) -> Result<Wide, Status>
    requires { length source.now ≤ source_limit }
    ensures wide { IfOk result (λ w. IsWideText source.now (wide_seen w)) }
    ensures fits { IfOk result (λ w. WideFits (kinds_of w.globals) (wide_tree w.formula)) }
    ensures refused { IfErr result (IsReadRefusal Check source.now) }
{
    let tree = parse_source(alloc, source)?;
    match read_wide(alloc, &tree) {
        Ok(wide) => Ok(wide),
        Err(refusal) => Err(refusal_status(by_checker(source, refusal))),
    }
}

// Reads the source, and the wider formula that it is.
fn read_formula<F: Files>(alloc: Global, name: &str, files: &mut F) -> Result<Wide, Status>
    ensures wide { IfOk result (λ w. WhereTold (F.held files.old) (λ held.
        HoldsWide (wide_seen w) (bytes_of held name.now))) }
    ensures fits { IfOk result (λ w. WideFits (kinds_of w.globals) (wide_tree w.formula)) }
    ensures refused { IfErr result (IsSourceRefusal Check (F.held files.old) name.now) }
    ensures asked { AsksFile (F.asked files.old) Which.Source name.now result (F.asked files.new) }
    ensures held { F.held files.new ≡ F.held files.old }
    ensures later { F.faults files.old ≤ F.faults files.new }
    ensures read_fault { (which : Which) → result ≡ Err (Status.ReadFault which)
        → (which ≡ Which.Source) × Rose F.greatest (F.faults files.old) (F.faults files.new) }
{
    match read_limited(alloc, files, name, SOURCE_LIMIT) {
        Ok(source) => wide_of(alloc, source.as_slice()),
        Err(refusal) => Err(read_status(refusal, Which::Source)),
    }
}

// The trace of the text.
fn trace_of(alloc: Global, text: &[u8]) -> Result<Trace, Status>
    ensures trace { IfOk result (λ trace. IsTraceText text.now trace) }
    ensures refused { IfErr result (IsTraceEnd text.now) }
{
    match read_trace(alloc, text) {
        Ok(trace) => Ok(trace),
        Err(TraceRefusal::BadLine { line }) => Err(Status::OtherRefused { line }),
        Err(TraceRefusal::NoMemory) => Err(Status::NoMemory),
    }
}

// Reads the trace of the file.
fn read_states<F: Files>(alloc: Global, name: &str, files: &mut F) -> Result<Trace, Status>
    ensures trace { IfOk result (λ trace. WhereTold (F.held files.old) (λ held.
        HoldsTrace trace (bytes_of held name.now))) }
    ensures some_state { IfOk result (λ trace. 0 < length trace) }
    ensures refused { IfErr result (IsUnreadTrace (F.held files.old) name.now) }
    ensures asked { AsksFile (F.asked files.old) Which.Other name.now result (F.asked files.new) }
    ensures held { F.held files.new ≡ F.held files.old }
    ensures later { F.faults files.old ≤ F.faults files.new }
    ensures read_fault { (which : Which) → result ≡ Err (Status.ReadFault which)
        → (which ≡ Which.Other) × Rose F.greatest (F.faults files.old) (F.faults files.new) }
{
    match read_limited(alloc, files, name, TRACE_LIMIT) {
        Ok(text) => trace_of(alloc, text.as_slice()),
        Err(refusal) => Err(read_status(refusal, Which::Other)),
    }
}

// Reads the trace of the file, and judges it by the formula.
fn judge<F: Files>(alloc: Global, wide: &Wide, name: &str, files: &mut F) -> Result<Verdict, Status>
    ensures verdict { IfOk result (λ v.
        IsVerdictBy (wide_seen wide.now) (F.held files.old) name.now (verdict_of v)) }
    ensures refused { IfErr result (IsUnjudged (F.held files.old) name.now) }
    ensures asked { AsksFile (F.asked files.old) Which.Other name.now result (F.asked files.new) }
    ensures held { F.held files.new ≡ F.held files.old }
    ensures later { F.faults files.old ≤ F.faults files.new }
    ensures read_fault { (which : Which) → result ≡ Err (Status.ReadFault which)
        → (which ≡ Which.Other) × Rose F.greatest (F.faults files.old) (F.faults files.new) }
{
    let trace = read_states(alloc, name, files)?;
    match holds_on(alloc, wide, &trace) {
        Ok(verdict) => Ok(verdict),
        Err(MonitorRefusal::TraceTooLong) => Err(Status::TraceTooLong {
            states: trace.states.len() as u64,
        }),
        Err(MonitorRefusal::NoMemory) => Err(Status::NoMemory),
    }
}

/// Reads the source and the other file of a check, and gives the verdict.
pub fn verdict_for<F: Files>(
    alloc: Global,
    command: &Command,
    files: &mut F,
) -> Result<Verdict, Status>
    requires { command.now.mode ≡ Check }
    ensures judged { IfOk result (λ v. (words : List (List ℕ)) → AsksFor words command.now
        → IsJudged words (F.held files.old) (verdict_of v)) }
    ensures refused { IfErr result (λ status. (words : List (List ℕ)) → AsksFor words command.now
        → IsProgramRefusal words (F.held files.old) status) }
    ensures asked { (words : List (List ℕ)) → AsksFor words command.now
        → AsksOnly words (F.held files.old) (F.asked files.old) (F.asked files.new)
        (λ which. result ≡ Err (Status.ReadFault which)) }
    ensures held { F.held files.new ≡ F.held files.old }
    ensures later { F.faults files.old ≤ F.faults files.new }
    ensures read_fault { (which : Which) → result ≡ Err (Status.ReadFault which)
        → Rose F.greatest (F.faults files.old) (F.faults files.new) }
{
    // words that name no trace are no words of a check
    let Some(name) = command.other.as_deref() else {
        return Err(Status::WordsRefused);
    };
    let wide = read_formula(alloc, command.file.as_str(), files)?;
    judge(alloc, &wide, name, files)
}

// The line of a verdict.
fn line_of(verdict: Verdict) -> &'static str
    ensures { result.now ≡ verdict_line (verdict_of verdict) }
{
    match verdict {
        Verdict::Yes => "holds\n",
        Verdict::No => "does not hold\n",
        Verdict::Open => "open\n",
    }
}

/// Writes the line of a verdict, by one write.
pub fn write_verdict<K: Sink>(alloc: Global, verdict: Verdict, out: &mut K) -> Status
    ensures written { ClosesText (verdict_line (verdict_of verdict)) Status.Done
        (K.written out.old) (K.written out.new) result }
    ensures later { K.faults out.old ≤ K.faults out.new }
    ensures write_fault { result ≡ Status.WriteFault
        → Rose K.greatest (K.faults out.old) (K.faults out.new) }
{
    close(alloc, line_of(verdict).as_bytes(), Status::Done, out)
}
