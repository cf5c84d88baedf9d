// The top call, and what it promises.
ghost use Rattle.std.specs.Prelude.{◌≡◌, ◌<◌};
ghost use Rattle.tp_io.specs.Held.{Rose};
ghost use Rattle.tp_call.specs.declared.status.Which.{Which};
ghost use Rattle.tp_call.specs.Asked.{AsksOnly};
ghost use Rattle.tp_call.specs.Answer.{Answers};
ghost use Rattle.tp_call.specs.Run.{IsEndOfRun};
ghost use Rattle.tp_call.specs.Headline.{FinishedSays, FinishedTextSays, OpenTextSays, ContradictorySays, UndeterminedSays, StateLimitSays, LimitSays, InputMissingSays, ProgramRuns, WordsRefusedExactly, TooLongExactly, SourceRefusedExactly, InputsRefusedExactly, OtherRefusedExactly, TraceTooLongExactly, DoneSays, SourcePrints, InputsConvert, TraceIsChecked};
ghost use Rattle.tp_call.specs.EachRun.{ComesToEachEnd, PrintsEachRun, BeginningsComeToEnd};
ghost use Rattle.tp_call.specs.Text.{TraceSays, FinishedTracedSays, OpenTracedSays, LastLineSays};
ghost use Rattle.tp_call.specs.InOrder.{FailsInOrder, WorksThriftily};
ghost use Rattle.tp_call.specs.Drill.{AsksNoDrill, DrillSays, DrillComesToEachEnd};

use crate::answer::call;
use crate::status::{Status, Which};
use std::alloc::Global;
use std::sync::ledger::Ledger;
use tp_io::{Files, Sink};
use tp_step::Steps;
use tp_value::Text;

/// Does what the words ask for: a mode and a file or a size, and the options of the command line. `print` writes the canonical spelling of
/// the source that the file holds, by one write, and doesn't check it. `check` writes whether the trace of the file that `--with` names
/// satisfies the formula of the file, by one write. `drill` runs a large source of this size, which no file holds, with the limits that the
/// words name, and writes one line of what that took, by one write. `run` runs the program of the file, with the inputs and the limits that
/// the words name. Each settled state is written by one write, with a line for each list of values that it shows, and the end line by one
/// more; nothing is written after a write that failed, nor where memory is wanted. Each item that is tried adds one to the steps.
pub fn tempura<F: Files, K: Sink, L: Ledger>(
    alloc: Global,
    words: &[Text],
    files: &mut F,
    out: &mut K,
    steps: &mut Steps<L>,
) -> Status
    ensures answer { AsksNoDrill words.now
        → Answers words.now (F.held files.old) (K.written out.old) (K.written out.new) result }
    ensures held { F.held files.new ≡ F.held files.old }

    // The headline: what each end of a run says of every interval. The sentences stand in `specs/Headline.antt`.
    ensures finished { FinishedSays words.now (F.held files.old) (K.written out.old)
        (K.written out.new) result }
    ensures contradictory { AsksNoDrill words.now
        → ContradictorySays words.now (F.held files.old) (K.written out.old) (K.written out.new)
        result }
    ensures undetermined { AsksNoDrill words.now
        → UndeterminedSays words.now (F.held files.old) (K.written out.old) (K.written out.new)
        result }
    ensures state_limit { AsksNoDrill words.now
        → StateLimitSays words.now (F.held files.old) (K.written out.old) (K.written out.new)
        result }
    ensures reduction_limit { AsksNoDrill words.now
        → LimitSays words.now (F.held files.old) (K.written out.old) (K.written out.new) result
        Status.ReductionLimit }
    ensures number_limit { AsksNoDrill words.now
        → LimitSays words.now (F.held files.old) (K.written out.old) (K.written out.new) result
        Status.NumberLimit }
    ensures list_limit { AsksNoDrill words.now
        → LimitSays words.now (F.held files.old) (K.written out.old) (K.written out.new) result
        Status.ListLimit }
    ensures call_limit { AsksNoDrill words.now
        → LimitSays words.now (F.held files.old) (K.written out.old) (K.written out.new) result
        Status.CallLimit }
    ensures nest_limit { AsksNoDrill words.now
        → LimitSays words.now (F.held files.old) (K.written out.old) (K.written out.new) result
        Status.NestLimit }
    ensures input_missing { AsksNoDrill words.now
        → InputMissingSays words.now (F.held files.old) (K.written out.old) (K.written out.new)
        result }
    ensures program_runs { ProgramRuns words.now (F.held files.old) result }
    ensures every_order { ComesToEachEnd words.now (F.held files.old) (K.written out.old)
        (K.written out.new) result }
    ensures every_text { PrintsEachRun words.now (F.held files.old) (K.written out.old)
        (K.written out.new) result }
    ensures no_dead_end { BeginningsComeToEnd words.now (F.held files.old) result }
    ensures named_in_order { FailsInOrder words.now (F.held files.old) result }
    ensures work { AsksNoDrill words.now → IsEndOfRun result
        → WorksThriftily words.now (F.held files.old) (K.written out.old) (K.written out.new)
        result steps.old steps.new }

    // The headline for whoever has the text alone.
    ensures finished_text { FinishedTextSays words.now (F.held files.old) (K.written out.old)
        (K.written out.new) result }
    ensures open_text { AsksNoDrill words.now
        → OpenTextSays words.now (F.held files.old) (K.written out.old) (K.written out.new) result }
    ensures trace { AsksNoDrill words.now
        → TraceSays words.now (F.held files.old) (K.written out.old) (K.written out.new) result }
    ensures finished_traced { FinishedTracedSays words.now (F.held files.old)
        (K.written out.old) (K.written out.new) result }
    ensures open_traced { AsksNoDrill words.now
        → OpenTracedSays words.now (F.held files.old) (K.written out.old) (K.written out.new)
        result }
    ensures last_line { LastLineSays words.now (F.held files.old) (K.written out.old)
        (K.written out.new) }

    // A source that is printed, inputs that are converted, and a trace that is checked.
    ensures done { AsksNoDrill words.now
        → DoneSays words.now (F.held files.old) (K.written out.old) (K.written out.new) result }
    ensures prints { SourcePrints words.now (F.held files.old) result }
    ensures converts { InputsConvert words.now (F.held files.old) result }
    ensures checks { TraceIsChecked words.now (F.held files.old) result }

    // A drill: what it answers, writes and counts, and that it comes to the end of each of its runs.
    ensures drill { DrillSays words.now (K.written out.old) (K.written out.new)
        steps.old steps.new result }
    ensures drill_comes_to_end { DrillComesToEachEnd words.now result }

    // Refusals, each exactly, but for failed reads and writes and want of memory.
    ensures words_refused { WordsRefusedExactly words.now (F.held files.old) result }
    ensures too_long { TooLongExactly words.now (F.held files.old) result }
    ensures source_refused { AsksNoDrill words.now
        → SourceRefusedExactly words.now (F.held files.old) result }
    ensures inputs_refused { InputsRefusedExactly words.now (F.held files.old) result }
    ensures other_refused { OtherRefusedExactly words.now (F.held files.old) result }
    ensures trace_too_long { TraceTooLongExactly words.now (F.held files.old) result }

    // Faults.
    ensures asked { AsksOnly words.now (F.held files.old) (F.asked files.old) (F.asked files.new)
        (λ which. result ≡ Status.ReadFault which) }
    ensures read_fault { (which : Which) → result ≡ Status.ReadFault which
        → Rose F.greatest (F.faults files.old) (F.faults files.new) }
    ensures write_fault { result ≡ Status.WriteFault
        → Rose K.greatest (K.faults out.old) (K.faults out.new) }
{
    call(alloc, words, files, out, steps)
}
