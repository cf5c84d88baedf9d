// The outcome of an expression and of a place.
ghost use Rattle.std.specs.Prelude.{◌≡◌, IfOk, IsTrue};
ghost use Rattle.tp_value.specs.Read.{tree};
ghost use Rattle.tp_kernel.specs.Read.{expr_tree, bindings_of, definitions_of};
ghost use Rattle.tp_eval.specs.Reached.{reaches};
ghost use Rattle.tp_eval.specs.Evaluate.{is_place};
ghost use Rattle.tp_eval.specs.Outcome.{outcome, place_outcome, place_reached};
ghost use Rattle.tp_eval.specs.Answers.{outcome_tree, place_outcome_of, IsHalt, IsAnswer};
ghost use Rattle.tp_eval.specs.Places.{place_in};

use crate::evaluate::{evaluate, find_place};
use crate::halt::EvalHalt;
use crate::lookup::Lookup;
use crate::outcome::{Outcome, PlaceOutcome};
use crate::places::{PlaceFound, copy_element};
use crate::written::written_item;
use std::alloc::Global;
use tp_kernel::{Defs, Env, Expr};
use tp_store::Store;
use tp_value::{NoMemory, Value};

// How deep an evaluation goes: the whole expression is at depth 1, an operand one deeper than what holds it.
const LEVELS: u32 = 2000;

fn halted(halt: EvalHalt) -> Result<Outcome, NoMemory>
    ensures { IfOk result (λ o. IsHalt halt (outcome_tree o)) }
{
    match halt {
        EvalHalt::Waits(path) => Ok(Outcome::Wait(path)),
        EvalHalt::Faults(kind) => Ok(Outcome::Fault(kind)),
        EvalHalt::Passes(kind) => Ok(Outcome::Over(kind)),
        EvalHalt::NoMemory => Err(NoMemory),
    }
}

fn settled(answer: Result<Value, EvalHalt>) -> Result<Outcome, NoMemory>
    ensures { IfOk result (λ o. IsAnswer answer (outcome_tree o)) }
{
    match answer {
        Ok(value) => Ok(Outcome::Value(value)),
        Err(halt) => halted(halt),
    }
}

/// The outcome of an expression under an environment, as far as the store knows its state. It goes left to right: the first operand whose
/// outcome isn't a value is the outcome of the whole.
pub fn eval(
    alloc: Global,
    expr: &Expr,
    env: &Env,
    store: &Store,
    defs: &Defs,
) -> Result<Outcome, NoMemory>
    ensures { IfOk result (λ o.
        outcome_tree o
        ≡ outcome store.now.facts (definitions_of defs.now) (expr_tree expr.now)
        (bindings_of env.now)) }
{
    let lookup = Lookup {
        alloc,
        env,
        store,
        defs,
    };
    let mut calls = 0;
    let answer = evaluate(LEVELS, expr, &lookup, &mut calls);
    settled(answer)
}

// A path, or the element of a known value.
fn path_or_value(alloc: Global, place: PlaceFound, store: &Store) -> Result<PlaceOutcome, NoMemory>
    ensures { IfOk result (λ o.
        place_outcome_of o ≡ place_reached store.now.facts (reaches (place_in place) 0)) }
{
    match place {
        PlaceFound::At(path) => Ok(PlaceOutcome::Place(path)),
        PlaceFound::Inside(value, at) => {
            let answer = copy_element(alloc, &value, at.items.as_slice());
            let other = settled(answer)?;
            Ok(PlaceOutcome::Other(other))
        }
    }
}

/// What a name followed by indices is: a path, or another outcome, which is a value where the name is bound to a known value that has the
/// element.
pub fn place(
    alloc: Global,
    expr: &Expr,
    env: &Env,
    store: &Store,
    defs: &Defs,
) -> Result<PlaceOutcome, NoMemory>
    requires place { IsTrue (is_place (expr_tree expr.now)) }
    ensures { IfOk result (λ o.
        place_outcome_of o
        ≡ place_outcome store.now.facts (definitions_of defs.now) (expr_tree expr.now)
        (bindings_of env.now)) }
{
    let lookup = Lookup {
        alloc,
        env,
        store,
        defs,
    };
    if let Some(path) = written_item(&lookup, expr)? {
        return Ok(PlaceOutcome::Place(path));
    }
    let mut calls = 0;
    match find_place(LEVELS, expr, &lookup, &mut calls) {
        Ok(found) => path_or_value(alloc, found, store),
        Err(halt) => {
            let other = halted(halt)?;
            Ok(PlaceOutcome::Other(other))
        }
    }
}
