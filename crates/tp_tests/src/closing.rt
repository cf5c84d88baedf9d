// The first state of a program, closed by an agenda or by passes.
ghost use Rattle.std.specs.Prelude.{◌≡◌, ◌<◌, [], List, Bool, IfOk};
ghost use Rattle.tp_meaning.specs.Fits.{ProgramFits};
ghost use Rattle.tp_check.specs.Read.{program_tree};
ghost use Rattle.tp_scene.specs.Laws.{IsSound};
ghost use Rattle.tp_decide.specs.Decided.{setting_of};
ghost use Rattle.tp_slots.specs.Kept.{IsWellKept};
ghost use Rattle.tp_step.specs.Answers.{moment_of};
ghost use Rattle.tp_store.specs.Stock.{contents_in};

use crate::sources::program_of;
use std::alloc::Global;
use std::marker::Brand;
use std::sync::ledger::{Blank, Ledger};
use std::test::Fail;
use tp_agenda::close_by_agenda;
use tp_check::Program;
use tp_inputs::{Inputs, read_inputs};
use tp_pass::close_by_passes;
use tp_step::{
    Ending, ItemIds, Mark, Scene, Setting, Steps, Strategy, Tally, Waits, items, mark, start,
};
use tp_store::Store;
use tp_value::{Facts, NoMemory};

/// How a state is closed.
#[derive(Clone, Copy)]
pub enum Closing {
    ByPasses,
    ByAgenda,
}

/// What a closed state has come to: how the closure ended, what it did, the root's mark, the live items, and what is known of the globals.
#[derive(Drop)]
pub struct ClosedState {
    pub ending: Ending,
    pub tally: Tally,
    pub root: Option<Mark>,
    pub live: ItemIds,
    pub facts: Facts,
}

// What a run of a program begins with.
fn begin<'a>(
    alloc: Global,
    program: &'a Program,
    inputs: &'a Inputs,
) -> Result<(Scene, Store, Setting<'a>), NoMemory>
    requires { ProgramFits (program_tree program.now) }
    ensures kept { IfOk result (λ r. IsWellKept r.0) }
    ensures sound { IfOk result (λ r.
        (kinds : List Bool) × IsSound (setting_of r.2) kinds (moment_of r.0 (contents_in r.1))) }
{
    let store = Store::new(alloc, &program.globals)?;
    let scene = start(alloc, &program.main)?;
    let setting = Setting {
        alloc,
        defs: &program.defs,
        inputs,
        state: 0,
    };
    Ok((scene, store, setting))
}

// The tally of a closure that has done nothing.
fn nothing_told(alloc: Global) -> Tally
    ensures waits { result.waits.items.items ≡ [] }
    ensures rests { result.rests ≡ [] }
{
    let picks = ItemIds::new(alloc);
    let rests = ItemIds::new(alloc);
    let items = Vec::new(alloc);
    let waits = Waits { items };
    Tally {
        picks,
        waits,
        rests,
    }
}

// Closes the state by one of both.
fn close<L: Ledger>(
    scene: &mut Scene,
    store: &mut Store,
    setting: &Setting,
    closing: Closing,
    strategy: Strategy,
    steps: &mut Steps<L>,
) -> Result<(Ending, Tally), NoMemory>
    requires kept { IsWellKept scene.old }
    requires sound { (kinds : List Bool)
        × IsSound (setting_of setting.now) kinds (moment_of scene.old (contents_in store.old)) }
    ensures kept { IsWellKept scene.new }
{
    let mut tally = nothing_told(setting.alloc);
    match closing {
        Closing::ByPasses => {
            let ending = close_by_passes(scene, store, setting, strategy, &mut tally, steps)?;
            Ok((ending, tally))
        }
        Closing::ByAgenda => {
            let ending = close_by_agenda(scene, store, setting, strategy, &mut tally, steps)?;
            Ok((ending, tally))
        }
    }
}

// The live items of the scene.
fn live_items(alloc: Global, scene: &Scene) -> Result<ItemIds, NoMemory>
    requires { IsWellKept scene.now }
{
    let mut live = ItemIds::new(alloc);
    items(alloc, scene, &mut live)?;
    Ok(live)
}

// What the store knows of the program's global variables.
fn global_facts(alloc: Global, store: &Store, program: &Program) -> Result<Facts, NoMemory> {
    let mut facts = Facts {
        items: Vec::new(alloc),
    };
    store.facts(program.globals.len(), &mut facts)?;
    Ok(facts)
}

// Closes the first state of the program.
fn closed_state<L: Ledger>(
    alloc: Global,
    blank: Blank,
    program: &Program,
    inputs: &Inputs,
    closing: Closing,
    strategy: Strategy,
) -> Result<ClosedState, NoMemory>
    requires name { blank.name ≡ L.name }
    requires parts { blank.parts ≡ L.parts }
    requires some { 0 < L.parts }
    requires fits { ProgramFits (program_tree program.now) }
{
    let mut steps = Steps::<L>::new(blank);
    let (mut scene, mut store, setting) = begin(alloc, program, inputs)?;
    let (ending, tally) = close(
        &mut scene, &mut store, &setting, closing, strategy, &mut steps,
    )?;
    let live = live_items(alloc, &scene)?;
    let facts = global_facts(alloc, &store, program)?;
    Ok(ClosedState {
        ending,
        tally,
        root: mark(&scene, 0),
        live,
        facts,
    })
}

/// The same of a source and the text of a table, by steps that count their tries by themselves.
pub fn closed_source(
    alloc: Global,
    source: &str,
    table: &str,
    closing: Closing,
    strategy: Strategy,
) -> Result<ClosedState, Fail> {
    let program = program_of(alloc, source)?;
    let inputs = read_inputs(alloc, table.as_bytes())?;
    let state = closed_state::<Brand>(alloc, Blank::new(1), &program, &inputs, closing, strategy)?;
    Ok(state)
}
