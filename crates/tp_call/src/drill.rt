// Running a large source, and telling what its run took.
ghost use Rattle.std.specs.Prelude.{◌≡◌, ◌≤◌, ◌+◌, ℕ, true, List, [], length, IfOk, IfErr};
ghost use Rattle.tp_lex.specs.Place.{source_limit};
ghost use Rattle.tp_io.specs.Held.{Rose};
ghost use Rattle.tp_meaning.specs.Fits.{ProgramFits};
ghost use Rattle.tp_gen.specs.Source.{source_text};
ghost use Rattle.tp_scene.specs.Pick.{Moment};
ghost use Rattle.tp_inputs.specs.Read.{inputs_of};
ghost use Rattle.tp_check.specs.Read.{program_tree};
ghost use Rattle.tp_show.specs.Told.{IsLastTurn};
ghost use Rattle.tp_run.specs.History.{Plan};
ghost use Rattle.tp_run.specs.Standing.{open_at};
ghost use Rattle.tp_run.specs.Runs.{standing_of, standing_place, order_of, IsRunOf};
ghost use Rattle.tp_run.specs.Ordered.{recorded_tries};
ghost use Rattle.tp_words.specs.declared.mode.Mode.TheVariants as modes;
ghost use Rattle.tp_call.specs.Drill.{drill_line, IsAskedToDrill, DrillAnswers};
ghost use Rattle.tp_call.specs.Drilled.{StateDrilled, RunDrilled, finished_length, ClosesDrill};
ghost use Rattle.tp_call.specs.Parts.{IsReadRefusal, ClosesText};
ghost use Rattle.tp_call.specs.Progress.{is_settled as is_settled_by};
ghost use Rattle.tp_call.specs.Source.{IsProgram};
ghost use Rattle.tp_call.specs.Task.{plan_of, IsDrillFor};

use crate::answer::{finish, no_inputs, read_program};
use crate::close::{close, refuse};
use crate::end_line::append_counted;
use crate::run::{Ended, Task, is_settled, last_answer, start};
use crate::status::Status;
use std::alloc::Global;
use std::sync::ledger::Ledger;
use tp_check::Program;
use tp_gen::large_source;
use tp_io::Sink;
use tp_run::{Limits, Run};
use tp_show::{Picture, Turn};
use tp_step::{Order, Steps, Tally};
use tp_value::{NoMemory, Text};
use tp_words::Beside;

/// What is run in a drill: a source of so many variables, how far, and in which order.
#[derive(Clone, Copy)]
pub struct Drill {
    pub size: u64,
    pub limits: Limits,
    pub order: Order,
}

/// What the settled states of a run took, all together.
#[derive(Clone, Copy)]
pub struct Totals {
    pub reductions: u64,
    pub tries: u64,
}

/// The run of a drill that has come to its end.
#[derive(Drop)]
pub struct Drilled {
    pub ended: Ended,
    pub totals: Totals,
}

// The source of this size.
#[tactic(auto, using(crate::proofs::SizedLemmas::source_short))]
fn sized_source(alloc: Global, size: u64) -> Result<Text, NoMemory>
    requires some { 1 ≤ size }
    requires few { size ≤ 5000 }
    ensures text { IfOk result (λ source. source ≡ source_text size) }
    ensures short { IfOk result (λ source. length source ≤ source_limit) }
{
    let mut source = Text::new(alloc);
    large_source(size, &mut source)?;
    Ok(source)
}

// The program of this size.
fn program_for(alloc: Global, size: u64) -> Result<Program, Status>
    requires some { 1 ≤ size }
    requires few { size ≤ 5000 }
    ensures program { IfOk result (λ p. IsProgram (source_text size) (program_tree p)) }
    ensures fits { IfOk result (λ p. ProgramFits (program_tree p)) }
    ensures refused { IfErr result (IsReadRefusal modes.Run (source_text size)) }
{
    match sized_source(alloc, size) {
        Ok(source) => read_program(alloc, source.as_slice()),
        Err(_) => Err(Status::NoMemory),
    }
}

// The task of a drill. It has no inputs.
fn drill_task(alloc: Global, drill: Drill) -> Result<Task, Status>
    requires some { 1 ≤ drill.size }
    requires few { drill.size ≤ 5000 }
    ensures program { IfOk result (λ task.
        IsProgram (source_text drill.size) (program_tree task.program)) }
    ensures fits { IfOk result (λ task. ProgramFits (program_tree task.program)) }
    ensures inputs { IfOk result (λ task. inputs_of task.inputs ≡ []) }
    ensures limits { IfOk result (λ task. task.limits ≡ drill.limits) }
    ensures order { IfOk result (λ task. task.order ≡ drill.order) }
    ensures refused { IfErr result (IsReadRefusal modes.Run (source_text drill.size)) }
{
    let program = program_for(alloc, drill.size)?;
    let inputs = no_inputs(alloc)?;
    Ok(Task {
        program,
        inputs,
        limits: drill.limits,
        order: drill.order,
        beside: Beside::Nothing,
    })
}

// The sum, for which there must be room.
fn checked_sum(a: u64, b: u64) -> Result<u64, NoMemory>
    ensures { IfOk result (λ sum. sum ≡ a + b) }
{
    match a.checked_add(b) {
        Some(sum) => Ok(sum),
        None => Err(NoMemory),
    }
}

// How many tries were recorded of the state that was begun last.
fn tries_in(tally: &Tally) -> Result<u64, NoMemory>
    ensures { IfOk result (λ tries. tries ≡ recorded_tries tally.now) }
{
    let unmoved = checked_sum(
        tally.waits.items.len() as u64,
        tally.rests.items.len() as u64,
    )?;
    checked_sum(tally.picks.items.len() as u64, unmoved)
}

// The totals with those of one state more.
fn with_state(totals: Totals, picture: &Picture, tally: &Tally) -> Result<Totals, NoMemory>
    ensures reductions { IfOk result (λ more.
        more.reductions ≡ totals.reductions + picture.now.reductions) }
    ensures tries { IfOk result (λ more. more.tries ≡ totals.tries + recorded_tries tally.now) }
{
    let tries = tries_in(tally)?;
    Ok(Totals {
        reductions: checked_sum(totals.reductions, picture.reductions)?,
        tries: checked_sum(totals.tries, tries)?,
    })
}

// The totals with those of the state that this answer is of, where it was settled.
fn counted(
    totals: Totals,
    turn: &Turn,
    picture: &Picture,
    tally: &Tally,
) -> Result<Totals, NoMemory>
    ensures reductions { IfOk result (λ more. is_settled_by turn.now ≡ true
        → more.reductions ≡ totals.reductions + picture.now.reductions) }
    ensures tries { IfOk result (λ more. is_settled_by turn.now ≡ true
        → more.tries ≡ totals.tries + recorded_tries tally.now) }
{
    if is_settled(turn) {
        with_state(totals, picture, tally)
    } else {
        Ok(totals)
    }
}

// Makes the next state, and counts it where it is settled; gives the answer where the run ends with it.
fn make_counted<L: Ledger>(
    run: &mut Run,
    picture: &mut Picture,
    totals: &mut Totals,
    steps: &mut Steps<L>,
) -> Result<Option<Turn>, NoMemory>
    requires { (plan : Plan) × IsRunOf plan run.old }
    ensures run { (plan : Plan) → IsRunOf plan run.old → IsRunOf plan run.new }
    ensures order { order_of run.new ≡ order_of run.old }
    ensures made { IfOk result (λ last.
        (plan : Plan) (m : Moment) → IsRunOf plan run.old → standing_of run.old ≡ open_at m
        → StateDrilled plan (order_of run.old) m (standing_place run.old) (standing_place run.new)
        totals.old totals.new steps.old steps.new last) }
{
    let turn = run.state(picture, steps)?;
    *totals = counted(*totals, &turn, picture, run.tally())?;
    Ok(last_answer(turn))
}

// Runs the task of a drill, and counts its states. Nothing is written.
fn run_counted<L: Ledger>(
    alloc: Global,
    task: Task,
    steps: &mut Steps<L>,
) -> Result<Drilled, NoMemory>
    requires { ProgramFits (program_tree task.program) }
    ensures { IfOk result (λ drilled.
        RunDrilled (plan_of task) task.order steps.old steps.new drilled) }
{
    let mut run = start(alloc, task)?;
    let mut picture = Picture::new(alloc);
    let mut totals = Totals {
        reductions: 0,
        tries: 0,
    };
    'states: loop {
        if let Some(turn) = make_counted(&mut run, &mut picture, &mut totals, steps)? {
            let ended = Ended { run, turn };
            return Ok(Drilled { ended, totals });
        }
    }
}

// The line of a drill of this size that is done.
fn drill_text(alloc: Global, size: u64, length: u64, totals: Totals) -> Result<Text, NoMemory>
    ensures { IfOk result (λ line.
        line ≡ drill_line size length totals.reductions totals.tries) }
{
    let mut line = Text::new(alloc);
    append_counted(&mut line, b"drill ", size)?;
    append_counted(&mut line, b": length ", length)?;
    append_counted(&mut line, b", reductions ", totals.reductions)?;
    append_counted(&mut line, b", tries ", totals.tries)?;
    line.append(b"\n")?;
    Ok(line)
}

// Writes this line.
fn write_line<K: Sink>(alloc: Global, size: u64, length: u64, totals: Totals, out: &mut K) -> Status
    ensures written { ClosesText (drill_line size length totals.reductions totals.tries) Status.Done
        (K.written out.old) (K.written out.new) result }
    ensures later { K.faults out.old ≤ K.faults out.new }
    ensures write_fault { result ≡ Status.WriteFault
        → Rose K.greatest (K.faults out.old) (K.faults out.new) }
{
    match drill_text(alloc, size, length, totals) {
        Ok(line) => close(alloc, line.as_slice(), Status::Done, out),
        Err(_) => Status::NoMemory,
    }
}

// The length of a run that finished with this answer.
fn finished_length(turn: &Turn) -> Option<u64>
    ensures { result ≡ finished_length turn.now }
{
    match turn {
        Turn::Finished { length } => Some(*length),
        Turn::Went | Turn::Contradictory { .. } | Turn::Undetermined { .. } => None,
        Turn::StateLimit { .. } | Turn::InputMissing { .. } | Turn::Over { .. } => None,
    }
}

// Writes what the run of a drill of this size came to, where a state has at most so many reductions.
fn close_drill<K: Sink>(
    alloc: Global,
    size: u64,
    drilled: Drilled,
    reductions: u64,
    out: &mut K,
) -> Status
    requires { IsLastTurn drilled.ended.turn }
    ensures written { ClosesDrill size reductions drilled (K.written out.old) (K.written out.new)
        result }
    ensures write_fault { result ≡ Status.WriteFault
        → Rose K.greatest (K.faults out.old) (K.faults out.new) }
{
    match finished_length(&drilled.ended.turn) {
        Some(length) => write_line(alloc, size, length, drilled.totals, out),
        None => finish(alloc, drilled.ended, reductions, out),
    }
}

// Runs the task of a drill of this size, to its line or its end line.
fn run_sized<K: Sink, L: Ledger>(
    alloc: Global,
    size: u64,
    task: Task,
    out: &mut K,
    steps: &mut Steps<L>,
) -> Status
    requires fits { ProgramFits (program_tree task.program) }
    ensures answer { (words : List (List ℕ)) (asked : IsAskedToDrill words size (plan_of task))
        → asked.asks.wanted.order ≡ task.order
        → DrillAnswers words size (K.written out.old) (K.written out.new) steps.old steps.new
        result }
    ensures write_fault { result ≡ Status.WriteFault
        → Rose K.greatest (K.faults out.old) (K.faults out.new) }
{
    let reductions = task.limits.reductions;
    match run_counted(alloc, task, steps) {
        Ok(drilled) => close_drill(alloc, size, drilled, reductions, out),
        Err(_) => Status::NoMemory,
    }
}

/// Runs the large source of a drill, with nothing written of its states. Where the run finishes, one line tells its length, the reductions
/// and the tries of all states; else its end line alone is written.
pub fn run_drill<K: Sink, L: Ledger>(
    alloc: Global,
    drill: Drill,
    out: &mut K,
    steps: &mut Steps<L>,
) -> Status
    requires some { 1 ≤ drill.size }
    requires few { drill.size ≤ 5000 }
    ensures answer { (words : List (List ℕ)) → IsDrillFor words drill
        → DrillAnswers words drill.size (K.written out.old) (K.written out.new)
        steps.old steps.new result }
    ensures write_fault { result ≡ Status.WriteFault
        → Rose K.greatest (K.faults out.old) (K.faults out.new) }
{
    match drill_task(alloc, drill) {
        Ok(task) => run_sized(alloc, drill.size, task, out, steps),
        Err(status) => refuse(alloc, status, out),
    }
}
