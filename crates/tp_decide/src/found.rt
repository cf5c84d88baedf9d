// What is found where an expression is evaluated: a value of the kind that is needed, or what its item does without one.
ghost use Rattle.std.specs.Prelude.{◌≡◌, IfOk, IfErr};
ghost use Rattle.tp_kernel.specs.Read.{expr_tree, definitions_of, bindings_of};
ghost use Rattle.tp_eval.specs.Answers.{outcome_tree};
ghost use Rattle.tp_eval.specs.Outcome.{outcome};
ghost use Rattle.tp_scene.specs.Step as row;
ghost use Rattle.tp_decide.specs.Decided.{Decides};
ghost use Rattle.tp_decide.specs.Fits.{IsPlain};
ghost use Rattle.tp_decide.specs.Found.{shared_outcome, TruthIn, NumberIn, ValueIn};

use crate::decision::Decision;
use crate::setting::Setting;
use std::alloc::Global;
use std::rc::Rc;
use tp_eval::{Outcome, eval, kept_value};
use tp_kernel::{Defs, Env, Expr, FaultKind};
use tp_scene::{Cell, Clash};
use tp_store::Store;
use tp_value::{NoMemory, Number, Value};

/// What an evaluation gave. The list of a variable that stands whole is shared, and not copied.
#[derive(Drop)]
pub enum SharedOutcome {
    Value(Rc<Value>),
    Other(Outcome),
}

/// What the evaluation of the expression gives.
pub fn eval_shared(
    alloc: Global,
    expr: &Expr,
    env: &Env,
    store: &Store,
    defs: &Defs,
) -> Result<SharedOutcome, NoMemory>
    ensures { IfOk result (λ found.
        shared_outcome found
        ≡ outcome store.now.facts (definitions_of defs.now) (expr_tree expr.now)
        (bindings_of env.now)) }
{
    if let Some(value) = kept_value(alloc, expr, env, store) {
        let value = value.clone()?;
        return Ok(SharedOutcome::Value(value));
    }
    let found = eval(alloc, expr, env, store, defs)?;
    Ok(SharedOutcome::Other(found))
}

/// The value that an evaluation gave.
pub fn value(outcome: Outcome) -> Result<Value, Decision>
    ensures found { ValueIn (outcome_tree outcome) result }
    ensures plain { IfErr result IsPlain }
{
    match outcome {
        Outcome::Value(v) => Ok(v),
        Outcome::Wait(p) => Err(Decision::Waits(Cell::Part(p), None)),
        Outcome::Fault(k) => Err(Decision::Clashes(Clash::NoValue(k))),
        Outcome::Over(k) => Err(Decision::Passes(k)),
    }
}

fn wrong_kind() -> Decision
    ensures outcome { Decides result (λ n. row.clashes (Clash.NoValue FaultKind.WrongKind)) }
    ensures plain { IsPlain result }
{
    Decision::Clashes(Clash::NoValue(FaultKind::WrongKind))
}

/// The truth value that it gave.
pub fn truth(outcome: Outcome) -> Result<bool, Decision>
    ensures found { TruthIn (outcome_tree outcome) result }
    ensures plain { IfErr result IsPlain }
{
    match value(outcome)? {
        Value::Truth(b) => Ok(b),
        Value::Num(_) | Value::List(_) => Err(wrong_kind()),
    }
}

/// The number that it gave.
pub fn number(outcome: Outcome) -> Result<Number, Decision>
    ensures found { NumberIn (outcome_tree outcome) result }
    ensures plain { IfErr result IsPlain }
{
    match value(outcome)? {
        Value::Num(n) => Ok(n),
        Value::Truth(_) | Value::List(_) => Err(wrong_kind()),
    }
}

/// The value of the expression.
pub fn find_value(
    alloc: Global,
    expr: &Expr,
    env: &Env,
    store: &Store,
    setting: &Setting,
) -> Result<Result<Value, Decision>, NoMemory>
    ensures found { IfOk result
        (ValueIn
        (outcome store.now.facts (definitions_of setting.now.defs.now) (expr_tree expr.now)
        (bindings_of env.now))) }
    ensures plain { IfOk result (λ found. IfErr found IsPlain) }
{
    let outcome = eval(alloc, expr, env, store, setting.defs)?;
    Ok(value(outcome))
}
