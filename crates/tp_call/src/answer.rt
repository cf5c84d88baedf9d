// From the words to the answer.
ghost use Rattle.std.specs.Prelude.{◌≡◌, ◌≢◌, ◌≤◌, ◌<◌, ◌^◌, ℕ, List, [], length, Option, Some, Err, IfOk, IfErr, option_map};
ghost use Rattle.tp_lex.specs.Place.{source_limit};
ghost use Rattle.tp_io.specs.Held.{Held, Rose, bytes_of};
ghost use Rattle.tp_meaning.specs.Fits.{ProgramFits};
ghost use Rattle.tp_check.specs.Read.{program_tree};
ghost use Rattle.tp_call.specs.Source.{IsProgram};
ghost use Rattle.tp_call.specs.declared.status.Which.{Which};
ghost use Rattle.tp_inputs.specs.Read.{inputs_of};
ghost use Rattle.tp_inputs.specs.Converted.{converted};
ghost use Rattle.tp_inputs.specs.Table.{IsInputsText};
ghost use Rattle.tp_call.specs.Asked.{AsksOnly};
ghost use Rattle.tp_call.specs.Answer.{inputs_limit, WhereTold, HoldsProgram, HasInputs, IsAskedFor, Answers};
ghost use Rattle.tp_call.specs.Run.{IsEndOfRun};
ghost use Rattle.tp_call.specs.Reading.{AsksFile, AsksTable};
ghost use Rattle.tp_call.specs.Task.{plan_of, AsksFor, WritesBesideAsAsked, OrdersAsAsked, IsTaskFor, IsJobFor};
ghost use Rattle.tp_words.specs.declared.mode.Mode.TheVariants.{Run};
ghost use Rattle.tp_call.specs.Parts.{IsReadRefusal, IsSourceRefusal, IsTableRefusal, IsInputsEnd, IsProgramRefusal};
ghost use Rattle.tp_call.specs.Drill.{AsksNoDrill, DrillSays};
ghost use Rattle.tp_call.specs.InOrder.{StatusInOrder, FailsInOrder, WorksThriftily};
ghost use Rattle.tp_call.specs.Progress.{line_of_end, ClosesAnswer, ClosesRun};
ghost use Rattle.tp_show.specs.Told.{AreNames, IsLastTurn};

use crate::checking::{verdict_for, write_verdict};
use crate::close::{close, refuse};
use crate::command::command_for;
use crate::converting::write_inputs;
use crate::drill::{Drill, run_drill};
use crate::job::Job;
use crate::printing::{parse_source, print_source, read_tree};
use crate::refused::{by_checker, refusal_status};
use crate::run::{Ended, Task, run_task, status_of};
use crate::source::{SOURCE_LIMIT, read_limited, read_status};
use crate::status::{Status, Which};
use std::alloc::Global;
use std::sync::ledger::Ledger;
use tp_check::{Program, check};
use tp_inputs::{Inputs, InputsRefusal, read_inputs};
use tp_io::{Files, Sink, WriteRefusal};
use tp_run::Limits;
use tp_show::{Turn, end_text};
use tp_step::Steps;
use tp_value::{NoMemory, Text};
use tp_words::{Command, Mode};

// The greatest length of a file of inputs, in bytes.
const INPUTS_LIMIT: usize = 16_777_216;

/// Reads a program from its source.
pub fn read_program(alloc: Global, source: &[u8]) -> Result<Program, Status>
    requires { length source.now ≤ source_limit }
    ensures program { IfOk result (λ p. IsProgram source.now (program_tree p)) }
    ensures fits { IfOk result (λ p. ProgramFits (program_tree p)) }
    ensures names { IfOk result (λ p. AreNames p.globals) }
    ensures refused { IfErr result (IsReadRefusal Run source.now) }
{
    let tree = parse_source(alloc, source)?;
    match check(alloc, &tree) {
        Ok(program) => Ok(program),
        Err(refusal) => Err(refusal_status(by_checker(source, refusal))),
    }
}

// Reads the source, and the program that it is.
fn read_source<F: Files>(alloc: Global, name: &str, files: &mut F) -> Result<Program, Status>
    ensures program { IfOk result (λ p. WhereTold (F.held files.old) (λ held.
        HoldsProgram (program_tree p) (bytes_of held name.now))) }
    ensures fits { IfOk result (λ p. ProgramFits (program_tree p)) }
    ensures names { IfOk result (λ p. AreNames p.globals) }
    ensures refused { IfErr result (IsSourceRefusal Run (F.held files.old) name.now) }
    ensures asked { AsksFile (F.asked files.old) Which.Source name.now result (F.asked files.new) }
    ensures held { F.held files.new ≡ F.held files.old }
    ensures later { F.faults files.old ≤ F.faults files.new }
    ensures read_fault { (which : Which) → result ≡ Err (Status.ReadFault which)
        → (which ≡ Which.Source) × Rose F.greatest (F.faults files.old) (F.faults files.new) }
{
    match read_limited(alloc, files, name, SOURCE_LIMIT) {
        Ok(source) => read_program(alloc, source.as_slice()),
        Err(refusal) => Err(read_status(refusal, Which::Source)),
    }
}

// The table of inputs of the text.
fn table_of(alloc: Global, text: &[u8]) -> Result<Inputs, Status>
    requires { length text.now ≤ inputs_limit }
    ensures table { IfOk result (λ t. IsInputsText text.now (inputs_of t)) }
    ensures read_back { IfOk result (λ t.
        IsInputsText (converted (inputs_of t)) (inputs_of t)) }
    ensures refused { IfErr result (IsTableRefusal text.now) }
{
    match read_inputs(alloc, text) {
        Ok(inputs) => Ok(inputs),
        Err(InputsRefusal::BadLine { line }) => Err(Status::InputsRefused { line }),
        Err(InputsRefusal::TwicePort { line }) => Err(Status::InputsRefused { line }),
        Err(InputsRefusal::TooLong { line }) => Err(Status::InputsRefused { line }),
        Err(InputsRefusal::NoMemory) => Err(Status::NoMemory),
    }
}

/// The table of inputs where no file is named.
pub fn no_inputs(alloc: Global) -> Result<Inputs, Status>
    ensures table { IfOk result (λ t. inputs_of t ≡ []) }
    ensures refused { IfErr result (λ status. status ≡ Status.NoMemory) }
{
    match Inputs::none(alloc) {
        Ok(inputs) => Ok(inputs),
        Err(_) => Err(Status::NoMemory),
    }
}

// Reads the table of inputs of the file.
fn read_table<F: Files>(alloc: Global, name: &str, files: &mut F) -> Result<Inputs, Status>
    ensures table { IfOk result (λ t.
        HasInputs (Some name.now) (F.held files.old) (inputs_of t)) }
    ensures read_back { IfOk result (λ t.
        IsInputsText (converted (inputs_of t)) (inputs_of t)) }
    ensures refused { IfErr result (IsInputsEnd (F.held files.old) (Some name.now)) }
    ensures asked { AsksFile (F.asked files.old) Which.Inputs name.now result (F.asked files.new) }
    ensures held { F.held files.new ≡ F.held files.old }
    ensures later { F.faults files.old ≤ F.faults files.new }
    ensures read_fault { (which : Which) → result ≡ Err (Status.ReadFault which)
        → (which ≡ Which.Inputs) × Rose F.greatest (F.faults files.old) (F.faults files.new) }
{
    match read_limited(alloc, files, name, INPUTS_LIMIT) {
        Ok(text) => table_of(alloc, text.as_slice()),
        Err(refusal) => Err(read_status(refusal, Which::Inputs)),
    }
}

// The table of inputs of the file, where one is named.
fn inputs_for<F: Files>(alloc: Global, name: Option<&str>, files: &mut F) -> Result<Inputs, Status>
    ensures table { IfOk result (λ t.
        HasInputs (option_map (λ t. t.now) name.entry) (F.held files.old) (inputs_of t)) }
    ensures refused { IfErr result
        (IsInputsEnd (F.held files.old) (option_map (λ t. t.now) name.entry)) }
    ensures asked { AsksTable (F.asked files.old) (option_map (λ t. t.now) name.entry) result
        (F.asked files.new) }
    ensures held { F.held files.new ≡ F.held files.old }
    ensures later { F.faults files.old ≤ F.faults files.new }
    ensures read_fault { (which : Which) → result ≡ Err (Status.ReadFault which)
        → (which ≡ Which.Inputs) × Rose F.greatest (F.faults files.old) (F.faults files.new) }
{
    match name {
        Some(name) => read_table(alloc, name, files),
        None => no_inputs(alloc),
    }
}

// The limits of a run.
fn limits_of(command: &Command) -> Limits
    ensures states { result.states ≡ command.now.states }
    ensures reductions { result.reductions ≡ command.now.reductions }
{
    Limits {
        states: command.states,
        reductions: command.reductions,
    }
}

// Reads the source and the inputs of a run.
fn task_for<F: Files>(alloc: Global, command: &Command, files: &mut F) -> Result<Task, Status>
    requires { command.now.mode ≡ Run }
    ensures asked_for { IfOk result (λ task. (words : List (List ℕ)) → AsksFor words command.now
        → IsAskedFor words (F.held files.old) (plan_of task)) }
    ensures fits { IfOk result (λ task. ProgramFits (program_tree task.program)) }
    ensures names { IfOk result (λ task. AreNames task.program.globals) }
    ensures beside { IfOk result (λ task. (words : List (List ℕ)) → AsksFor words command.now
        → WritesBesideAsAsked words task.beside) }
    ensures order { IfOk result (λ task. (words : List (List ℕ)) → AsksFor words command.now
        → OrdersAsAsked words task.order) }
    ensures states { IfOk result (λ task. task.limits.states < 2 ^ 64) }
    ensures refused { IfErr result (λ status. (words : List (List ℕ)) → AsksFor words command.now
        → IsProgramRefusal words (F.held files.old) status) }
    ensures asked { (words : List (List ℕ)) → AsksFor words command.now
        → AsksOnly words (F.held files.old) (F.asked files.old) (F.asked files.new)
        (λ which. result ≡ Err (Status.ReadFault which)) }
    ensures held { F.held files.new ≡ F.held files.old }
    ensures later { F.faults files.old ≤ F.faults files.new }
    ensures read_fault { (which : Which) → result ≡ Err (Status.ReadFault which)
        → Rose F.greatest (F.faults files.old) (F.faults files.new) }
{
    let program = read_source(alloc, command.file.as_str(), files)?;
    let inputs = inputs_for(alloc, command.inputs.as_deref(), files)?;
    Ok(Task {
        program,
        inputs,
        limits: limits_of(command),
        order: command.order,
        beside: command.beside,
    })
}

// What is run in a drill of this size.
fn drill_for(command: &Command, size: u64) -> Drill
    ensures size { result.size ≡ size }
    ensures states { result.limits.states ≡ command.now.states }
    ensures reductions { result.limits.reductions ≡ command.now.reductions }
    ensures order { result.order ≡ command.now.order }
{
    let order = command.order;
    Drill {
        size,
        limits: limits_of(command),
        order,
    }
}

// Reads the words, and what they ask for.
fn job_for<F: Files>(alloc: Global, words: &[Text], files: &mut F) -> Result<Job, Status>
    ensures job { IfOk result (IsJobFor words.now (F.held files.old)) }
    ensures refused { IfErr result (IsProgramRefusal words.now (F.held files.old)) }
    ensures asked { AsksOnly words.now (F.held files.old) (F.asked files.old) (F.asked files.new)
        (λ which. result ≡ Err (Status.ReadFault which)) }
    ensures held { F.held files.new ≡ F.held files.old }
    ensures later { F.faults files.old ≤ F.faults files.new }
    ensures read_fault { (which : Which) → result ≡ Err (Status.ReadFault which)
        → Rose F.greatest (F.faults files.old) (F.faults files.new) }
{
    let command = command_for(alloc, words)?;
    match command.mode {
        Mode::Run => Ok(Job::Run(task_for(alloc, &command, files)?)),
        Mode::Print => Ok(Job::Print(read_tree(alloc, command.file.as_str(), files)?)),
        Mode::Check => Ok(Job::Check(verdict_for(alloc, &command, files)?)),
        Mode::Convert => Ok(Job::Convert(read_table(alloc, command.file.as_str(), files)?)),
        Mode::Drill { size } => Ok(Job::Drill(drill_for(&command, size))),
    }
}

// The end line of a run, where a state has at most so many reductions.
fn last_line(alloc: Global, ended: &Ended, reductions: u64) -> Result<Text, NoMemory>
    ensures { IfOk result (λ line. line ≡ line_of_end reductions ended.now) }
{
    let mut line = Text::new(alloc);
    let globals = &ended.run.program().globals;
    end_text(
        &ended.turn,
        ended.run.store(),
        globals,
        reductions,
        &mut line,
    )?;
    Ok(line)
}

// Writes the end line of a run with this last answer.
fn close_run<K: Sink>(alloc: Global, line: &[u8], turn: Turn, out: &mut K) -> Status
    requires { IsLastTurn turn }
    ensures written { ClosesAnswer line.now turn (K.written out.old) (K.written out.new) result }
    ensures later { K.faults out.old ≤ K.faults out.new }
    ensures write_fault { result ≡ Status.WriteFault
        → Rose K.greatest (K.faults out.old) (K.faults out.new) }
{
    match status_of(turn) {
        Some(status) => close(alloc, line, status, out),
        None => unreachable!(),
    }
}

/// Writes the end line of a run, where a state has at most so many reductions.
pub fn finish<K: Sink>(alloc: Global, ended: Ended, reductions: u64, out: &mut K) -> Status
    requires { IsLastTurn ended.turn }
    ensures written { ClosesRun reductions ended (K.written out.old) (K.written out.new) result }
    ensures later { K.faults out.old ≤ K.faults out.new }
    ensures write_fault { result ≡ Status.WriteFault
        → Rose K.greatest (K.faults out.old) (K.faults out.new) }
{
    match last_line(alloc, &ended, reductions) {
        Ok(line) => close_run(alloc, line.as_slice(), ended.turn, out),
        Err(_) => Status::NoMemory,
    }
}

// Runs the task, to its end line.
fn run_whole<K: Sink, L: Ledger>(
    alloc: Global,
    task: Task,
    out: &mut K,
    steps: &mut Steps<L>,
) -> Status
    requires { ProgramFits (program_tree task.program) }
    ensures answer { (words : List (List ℕ)) (held : Option Held) → IsTaskFor words held task
        → Answers words held (K.written out.old) (K.written out.new) result }
    ensures in_order { StatusInOrder (plan_of task) task.order result }
    ensures work { (words : List (List ℕ)) (held : Option Held) → IsTaskFor words held task
        → IsEndOfRun result
        → WorksThriftily words held (K.written out.old) (K.written out.new) result steps.old
        steps.new }
    ensures write_fault { result ≡ Status.WriteFault
        → Rose K.greatest (K.faults out.old) (K.faults out.new) }
    ensures read { (which : Which) → result ≢ Status.ReadFault which }
{
    let reductions = task.limits.reductions;
    match run_task(alloc, task, out, steps) {
        Err(WriteRefusal::Failed) => Status::WriteFault,
        Err(WriteRefusal::NoMemory) => Status::NoMemory,
        Ok(ended) => finish(alloc, ended, reductions, out),
    }
}

// The whole call, by the table of its answers.
pub fn call<F: Files, K: Sink, L: Ledger>(
    alloc: Global,
    words: &[Text],
    files: &mut F,
    out: &mut K,
    steps: &mut Steps<L>,
) -> Status
    ensures answer { AsksNoDrill words.now
        → Answers words.now (F.held files.old) (K.written out.old) (K.written out.new) result }
    ensures drill { DrillSays words.now (K.written out.old) (K.written out.new)
        steps.old steps.new result }
    ensures named_in_order { FailsInOrder words.now (F.held files.old) result }
    ensures work { AsksNoDrill words.now → IsEndOfRun result
        → WorksThriftily words.now (F.held files.old) (K.written out.old) (K.written out.new)
        result steps.old steps.new }
    ensures asked { AsksOnly words.now (F.held files.old) (F.asked files.old) (F.asked files.new)
        (λ which. result ≡ Status.ReadFault which) }
    ensures held { F.held files.new ≡ F.held files.old }
    ensures read_fault { (which : Which) → result ≡ Status.ReadFault which
        → Rose F.greatest (F.faults files.old) (F.faults files.new) }
    ensures write_fault { result ≡ Status.WriteFault
        → Rose K.greatest (K.faults out.old) (K.faults out.new) }
{
    match job_for(alloc, words, files) {
        Ok(Job::Run(task)) => run_whole(alloc, task, out, steps),
        Ok(Job::Print(source)) => print_source(alloc, &source, out),
        Ok(Job::Convert(inputs)) => write_inputs(alloc, &inputs, out),
        Ok(Job::Check(verdict)) => write_verdict(alloc, verdict, out),
        Ok(Job::Drill(drill)) => run_drill(alloc, drill, out, steps),
        Err(status) => refuse(alloc, status, out),
    }
}
