// Running a program, and writing its states.
ghost use Rattle.std.specs.Prelude.{◌≡◌, ◌≤◌, ◌++◌, true, IfOk, IsErr, IsErrOf, OnOk};
ghost use Rattle.tp_scene.specs.Pick.{Moment};
ghost use Rattle.tp_io.specs.Devices.{Writes};
ghost use Rattle.tp_io.specs.Held.{Rose};
ghost use Rattle.tp_kernel.specs.Read.{formula_tree};
ghost use Rattle.tp_meaning.specs.Fits.{ProgramFits};
ghost use Rattle.tp_check.specs.Read.{program_tree};
ghost use Rattle.tp_scene.specs.Beginning.{first_moment};
ghost use Rattle.tp_run.specs.History.{Plan};
ghost use Rattle.tp_run.specs.Standing.{open_at};
ghost use Rattle.tp_run.specs.Runs.{standing_of, standing_place, next_state_of, order_of, program_of, IsRunOf};
ghost use Rattle.tp_show.specs.Line.{plain_parts, line_parts};
ghost use Rattle.tp_show.specs.Told.{IsPictureInRange};
ghost use Rattle.tp_call.specs.Task.{plan_of};
ghost use Rattle.tp_call.specs.Run.{limit_end, status_of as end_status, written_state};
ghost use Rattle.tp_call.specs.Progress.{last_answer as last_by, TurnMade, ProgramMade, printed_lines, is_settled as is_settled_by, next_moment};
ghost use Rattle.tp_call.specs.Places.{StandsOpen, CarriesDue};
ghost use Rattle.tp_call.specs.InOrder.{NamesInOrder};
ghost use Rattle.tp_call.specs.Worked.{LastInOrder, StateWorked, WorkEnded};

use crate::status::Status;
use std::alloc::Global;
use std::sync::ledger::Ledger;
use tp_check::Program;
use tp_inputs::Inputs;
use tp_io::{Sink, WriteRefusal};
use tp_kernel::LimitKind;
use tp_residual::trace_text;
use tp_run::{Limits, Run};
use tp_show::{Picture, Turn, picture_text};
use tp_step::{Order, Steps};
use tp_value::{NoMemory, Text};
use tp_words::Beside;

// The lines of a settled state, and what is asked for beside them.
fn state_text(alloc: Global, run: &Run, picture: &Picture, beside: Beside) -> Result<Text, NoMemory>
    requires parts { plain_parts picture.now.parts ≡ line_parts picture.now.facts }
    requires carried { CarriesDue run.now }
    ensures text { IfOk result (λ text. text
        ≡ written_state beside (program_of run.now) picture.now
        (next_moment (standing_place run.now))) }
    ensures range { OnOk result (IsPictureInRange picture.now) }
{
    let program = run.program();
    let mut text = Text::new(alloc);
    picture_text(picture, &program.globals, &mut text)?;
    match beside {
        Beside::Nothing => {}
        Beside::TraceLines => trace_text(
            alloc,
            picture,
            run.scene(),
            run.store(),
            &program.defs,
            &mut text,
        )?,
    }
    Ok(text)
}

// Writes a settled state, by one write.
fn write_state<K: Sink>(
    alloc: Global,
    run: &Run,
    picture: &Picture,
    beside: Beside,
    out: &mut K,
) -> Result<(), WriteRefusal>
    requires parts { plain_parts picture.now.parts ≡ line_parts picture.now.facts }
    requires carried { CarriesDue run.now }
    ensures written { Writes (K.written out.old) (K.written out.new)
        (written_state beside (program_of run.now) picture.now
        (next_moment (standing_place run.now))) result }
    ensures range { OnOk result (IsPictureInRange picture.now) }
    ensures later { K.faults out.old ≤ K.faults out.new }
    ensures cause { IsErrOf result WriteRefusal.Failed
        → Rose K.greatest (K.faults out.old) (K.faults out.new) }
{
    let text = state_text(alloc, run, picture, beside)?;
    out.write(alloc, text.as_slice())
}

// The status of a run that passes a limit in this state.
fn limit_status(state: u64, limit: LimitKind) -> Status
    ensures { result ≡ limit_end state limit }
{
    match limit {
        LimitKind::Reductions => Status::ReductionLimit { state },
        LimitKind::Number => Status::NumberLimit { state },
        LimitKind::List => Status::ListLimit { state },
        LimitKind::Calls => Status::CallLimit { state },
        LimitKind::Nest => Status::NestLimit { state },
    }
}

/// Whether a state was settled with this answer.
pub fn is_settled(turn: &Turn) -> bool
    ensures { result ≡ is_settled_by turn.now }
{
    match turn {
        Turn::Went | Turn::Finished { .. } => true,
        Turn::Contradictory { .. } => false,
        Turn::Undetermined { .. } => false,
        Turn::StateLimit { .. } => false,
        Turn::InputMissing { .. } => false,
        Turn::Over { .. } => false,
    }
}

// Writes the state, where one was settled with this answer.
fn write_settled<K: Sink>(
    alloc: Global,
    run: &Run,
    turn: &Turn,
    picture: &Picture,
    beside: Beside,
    out: &mut K,
) -> Result<(), WriteRefusal>
    requires parts { is_settled_by turn.now ≡ true
        → plain_parts picture.now.parts ≡ line_parts picture.now.facts }
    requires carried { is_settled_by turn.now ≡ true → CarriesDue run.now }
    ensures written { Writes (K.written out.old) (K.written out.new)
        (printed_lines beside (program_of run.now) turn.now picture.now
        (next_moment (standing_place run.now))) result }
    ensures range { OnOk result (is_settled_by turn.now ≡ true → IsPictureInRange picture.now) }
    ensures only { IsErr result → is_settled_by turn.now ≡ true }
    ensures later { K.faults out.old ≤ K.faults out.new }
    ensures cause { IsErrOf result WriteRefusal.Failed
        → Rose K.greatest (K.faults out.old) (K.faults out.new) }
{
    if is_settled(turn) {
        write_state(alloc, run, picture, beside, out)
    } else {
        Ok(())
    }
}

/// The answer with which a run ends; it goes on with `Went`.
pub fn last_answer(turn: Turn) -> Option<Turn>
    ensures { result ≡ last_by turn }
{
    match turn {
        Turn::Went => None,
        Turn::Finished { .. } | Turn::Contradictory { .. } | Turn::Undetermined { .. } => Some(
            turn,
        ),
        Turn::StateLimit { .. } | Turn::InputMissing { .. } | Turn::Over { .. } => Some(turn),
    }
}

/// The status of a run that ends with this answer; there is none where it goes on.
pub fn status_of(turn: Turn) -> Option<Status>
    ensures { result ≡ end_status turn }
{
    match turn {
        Turn::Went => None,
        Turn::Finished { length } => Some(Status::Finished { length }),
        Turn::Contradictory { state, clash } => Some(Status::Contradictory { state, clash }),
        Turn::Undetermined { state, cell } => Some(Status::Undetermined { state, cell }),
        Turn::StateLimit { states } => Some(Status::StateLimit { states }),
        Turn::InputMissing { state, port } => Some(Status::InputMissing { state, port }),
        Turn::Over { state, limit } => Some(limit_status(state, limit)),
    }
}

// Makes the next state, and writes it where it is settled; gives the answer where the run ends with it.
fn make_state<K: Sink, L: Ledger>(
    alloc: Global,
    run: &mut Run,
    picture: &mut Picture,
    beside: Beside,
    out: &mut K,
    steps: &mut Steps<L>,
) -> Result<Option<Turn>, WriteRefusal>
    requires run { (plan : Plan) × IsRunOf plan run.old }
    requires open { StandsOpen (standing_of run.old) }
    ensures run { (plan : Plan) → IsRunOf plan run.old → IsRunOf plan run.new }
    ensures made { (plan : Plan) → IsRunOf plan run.old
        → TurnMade plan beside (standing_place run.old) (standing_place run.new)
        (K.written out.old) (K.written out.new) result }
    ensures order { order_of run.new ≡ order_of run.old }
    ensures in_order { IfOk result (λ last. (plan : Plan) → IsRunOf plan run.old
        → LastInOrder plan (order_of run.old) (standing_place run.old) last) }
    ensures worked { IfOk result (λ last. (plan : Plan) (m : Moment) → IsRunOf plan run.old
        → standing_of run.old ≡ open_at m
        → StateWorked plan beside (order_of run.old) m (standing_place run.old)
        (standing_place run.new) (K.written out.old) (K.written out.new) steps.old steps.new
        last) }
    ensures later { K.faults out.old ≤ K.faults out.new }
    ensures cause { IsErrOf result WriteRefusal.Failed
        → Rose K.greatest (K.faults out.old) (K.faults out.new) }
{
    let turn = run.state(picture, steps)?;
    write_settled(alloc, run, &turn, picture, beside, out)?;
    Ok(last_answer(turn))
}

/// What is run: a program with its inputs, how far, in which order, and what is written beside each state.
#[derive(Drop)]
pub struct Task {
    pub program: Program,
    pub inputs: Inputs,
    pub limits: Limits,
    pub order: Order,
    pub beside: Beside,
}

/// A run of the task, before its first state.
pub fn start(alloc: Global, task: Task) -> Result<Run, NoMemory>
    requires { ProgramFits (program_tree task.program) }
    ensures stands { IfOk result (λ run.
        standing_of run
        ≡ open_at (first_moment task.program.globals (formula_tree task.program.main.value))) }
    ensures state { IfOk result (λ run. next_state_of run ≡ 0) }
    ensures order { IfOk result (λ run. order_of run ≡ task.order) }
    ensures run { IfOk result (IsRunOf (plan_of task)) }
{
    let Task {
        program,
        inputs,
        limits,
        order,
        beside: _,
    } = task;
    Run::start(alloc, program, inputs, limits, order)
}

/// A run that has come to its end, and its last answer.
#[derive(Drop)]
pub struct Ended {
    pub run: Run,
    pub turn: Turn,
}

/// Runs the task, and writes each state as it is settled. At `Err` a write failed, or memory was wanted.
pub fn run_task<K: Sink, L: Ledger>(
    alloc: Global,
    task: Task,
    out: &mut K,
    steps: &mut Steps<L>,
) -> Result<Ended, WriteRefusal>
    requires { ProgramFits (program_tree task.program) }
    ensures made { ProgramMade (plan_of task) task.beside (K.written out.old) (K.written out.new)
        result }
    ensures in_order { IfOk result (λ ended. NamesInOrder (plan_of task) task.order ended.turn) }
    ensures work { IfOk result
        (WorkEnded (plan_of task) task.beside task.order (K.written out.old) (K.written out.new)
        steps.old steps.new) }
    ensures later { K.faults out.old ≤ K.faults out.new }
    ensures cause { IsErrOf result WriteRefusal.Failed
        → Rose K.greatest (K.faults out.old) (K.faults out.new) }
{
    let beside = task.beside;
    let mut run = start(alloc, task)?;
    let mut picture = Picture::new(alloc);
    loop {
        if let Some(turn) = make_state(alloc, &mut run, &mut picture, beside, out, steps)? {
            return Ok(Ended { run, turn });
        }
    }
}
