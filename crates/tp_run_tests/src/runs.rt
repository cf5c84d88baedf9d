// What a run answers that no line of the program shows: its end once more, and the scene in which it ended.
ghost use Rattle.std.specs.Prelude.{◌≡◌, ◌<◌, OnOk};
ghost use Rattle.tp_meaning.specs.Fits.{ProgramFits};
ghost use Rattle.tp_check.specs.Read.{program_tree};
ghost use Rattle.tp_run.specs.Runs.{IsRunOf};
ghost use Rattle.tp_run.specs.History.{Plan};

use crate::expected::same_text;
use crate::sources::program_of;
use std::alloc::Global;
use std::marker::Brand;
use std::sync::ledger::{Blank, Ledger};
use std::test::Fail;
use tp_check::Program;
use tp_inputs::Inputs;
use tp_run::{Limits, Run};
use tp_show::Picture;
use tp_step::{Order, Steps};
use tp_value::NoMemory;

const LIMITS: Limits = Limits {
    states: 9,
    reductions: 9,
};

// Makes the next state, and appends its number, its reductions and the answer.
fn tell_state<L: Ledger>(
    alloc: Global,
    run: &mut Run,
    steps: &mut Steps<L>,
    out: &mut String,
) -> Result<(), NoMemory>
    requires { (plan : Plan) × IsRunOf plan run.old }
    ensures { OnOk result ((plan : Plan) × IsRunOf plan run.new) }
{
    let mut picture = Picture::new(alloc);
    let turn = run.state(&mut picture, steps)?;
    let text = format!(in alloc; "{}/{} {turn:?}, ", picture.state, picture.reductions)?;
    out.push_str(text.as_str())?;
    Ok(())
}

// The next three answers, and whether a scene is left.
fn tell_states<L: Ledger>(
    alloc: Global,
    run: &mut Run,
    steps: &mut Steps<L>,
) -> Result<String, NoMemory>
    requires { (plan : Plan) × IsRunOf plan run.old }
{
    let mut out = String::new(alloc);
    tell_state(alloc, run, steps, &mut out)?;
    tell_state(alloc, run, steps, &mut out)?;
    tell_state(alloc, run, steps, &mut out)?;
    out.push_str(if run.last_scene().is_some() {
        "a scene"
    } else {
        "no scene"
    })?;
    Ok(out)
}

fn history<L: Ledger>(alloc: Global, blank: Blank, program: Program) -> Result<String, NoMemory>
    requires name { blank.name ≡ L.name }
    requires parts { blank.parts ≡ L.parts }
    requires some { 0 < L.parts }
    requires fits { ProgramFits (program_tree program) }
{
    let mut steps = Steps::<L>::new(blank);
    let inputs = Inputs::none(alloc)?;
    let mut run = Run::start(alloc, program, inputs, LIMITS, Order::First)?;
    tell_states(alloc, &mut run, &mut steps)
}

// The same of a source, by a run that counts its tries by itself.
fn told_history(alloc: Global, source: &str) -> Result<String, Fail> {
    let program = program_of(alloc, source)?;
    let text = history::<Brand>(alloc, Blank::new(1), program)?;
    Ok(text)
}

// Programs, and their first three answers. What ends a run is answered again.
const ROWS: [(&str, &str); 4] = [
    (
        "run len(1).",
        "0/2 Went, 1/2 Finished { length: 1 }, 0/0 Finished { length: 1 }, a scene",
    ),
    (
        "run more and always(more).",
        "0/5 Went, 1/3 Went, 2/3 Went, no scene",
    ),
    (
        "run 1 = 2.",
        "0/0 Contradictory { state: 0, clash: False }, \
        0/0 Contradictory { state: 0, clash: False }, \
        0/0 Contradictory { state: 0, clash: False }, a scene",
    ),
    (
        "run len(7) and len(7) and len(7) and len(7) and len(7).",
        "0/0 Over { state: 0, limit: Reductions }, \
        0/0 Over { state: 0, limit: Reductions }, \
        0/0 Over { state: 0, limit: Reductions }, a scene",
    ),
];

#[test]
fn an_end_is_answered_again(rt: HostRuntime) -> Result<(), Fail> {
    for (source, expected) in ROWS {
        let text = told_history(rt.alloc(), source)?;
        same_text(&rt, text.as_str(), expected, source);
    }
    Ok(())
}
