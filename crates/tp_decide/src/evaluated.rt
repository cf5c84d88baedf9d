// Formulas whose expression was evaluated.
ghost use Rattle.std.specs.Prelude.{◌≡◌, ◌≤◌, ◌-◌, pos, ◌≤ℤ◌, IfOk, if◌then◌else◌};
ghost use Rattle.tp_meaning.specs.Syntax.{known, equation, always, if_empty};
ghost use Rattle.tp_meaning.specs.Nexts.{nexts};
ghost use Rattle.tp_kernel.specs.Read.{expr_tree, formula_tree, bindings_of};
ghost use Rattle.tp_value.specs.Read.{tree};
ghost use Rattle.tp_eval.specs.Answers.{outcome_tree};
ghost use Rattle.tp_scene.specs.Scene as S;
ghost use Rattle.tp_scene.specs.Step as row;
ghost use Rattle.tp_decide.specs.Decided.{Decides, IfOkDecides, becomes_due, plain_place};
ghost use Rattle.tp_decide.specs.Fits.{IsPlain};
ghost use Rattle.tp_decide.specs.Found.{shared_outcome, IsShorter};

use crate::decision::{Decision, Place, becomes_one, due, nothing};
use crate::formula::decide_next;
use crate::found::{SharedOutcome, number, truth, value};
use std::alloc::Global;
use std::rc::Rc;
use tp_eval::Outcome;
use tp_kernel::{Env, Expr, Formula};
use tp_scene::Clash;
use tp_value::{NoMemory, Number, Value};

/// Nothing, where the truth value that was looked for is true.
pub fn decide_test(found: Outcome) -> Decision
    ensures outcome { Decides result (λ n.
        row.with_truth (outcome_tree found) (λ b.
        if b then row.vanishes else row.clashes Clash.False)) }
    ensures plain { IsPlain result }
{
    match truth(found) {
        Ok(true) => nothing(),
        Ok(false) => Decision::Clashes(Clash::False),
        Err(decision) => decision,
    }
}

/// The branch that the truth value chooses.
pub fn decide_branch(
    found: Outcome,
    yes: &Rc<Formula>,
    no: &Rc<Formula>,
    env: &Rc<Env>,
) -> Result<Decision, NoMemory>
    ensures outcome { IfOkDecides result (λ n.
        row.with_truth (outcome_tree found) (λ b.
        becomes_due (if b then formula_tree yes.now.value else formula_tree no.now.value)
        (bindings_of env.now.value) n)) }
    ensures plain { IfOk result IsPlain }
{
    match truth(found) {
        Ok(true) => {
            let leaf = due(yes.clone()?, env)?;
            Ok(becomes_one(leaf))
        }
        Ok(false) => {
            let leaf = due(no.clone()?, env)?;
            Ok(becomes_one(leaf))
        }
        Err(decision) => Ok(decision),
    }
}

// What a length of so many states more becomes: the end, or a state less from the next one on.
fn shorter(alloc: Global, left: Number) -> Result<Rc<Formula>, NoMemory>
    requires { pos 0 ≤ℤ left }
    ensures { IfOk result (λ w. IsShorter left (formula_tree w.value)) }
{
    if left == 0 {
        let end = Rc::new(alloc, Formula::Empty)?;
        return Ok(end);
    }
    let fewer = Rc::new(alloc, Expr::Number(left - 1))?;
    let rest = Rc::new(alloc, Formula::Len(fewer))?;
    let whole = Rc::new(alloc, Formula::Next(rest))?;
    Ok(whole)
}

// A length of so many states more.
fn decide_length(alloc: Global, left: Number, env: &Rc<Env>) -> Result<Decision, NoMemory>
    ensures outcome { IfOkDecides result (λ n. row.length_left left (bindings_of env.now.value) n) }
    ensures plain { IfOk result IsPlain }
{
    if left < 0 {
        return Ok(Decision::Clashes(Clash::False));
    }
    let what = shorter(alloc, left)?;
    let leaf = due(what, env)?;
    Ok(becomes_one(leaf))
}

/// A length of as many states as the number says.
pub fn decide_len(alloc: Global, found: Outcome, env: &Rc<Env>) -> Result<Decision, NoMemory>
    ensures outcome { IfOkDecides result (λ n.
        row.with_number (outcome_tree found) (λ k.
        row.length_left k (bindings_of env.now.value) n)) }
    ensures plain { IfOk result IsPlain }
{
    match number(found) {
        Ok(left) => decide_length(alloc, left, env),
        Err(decision) => Ok(decision),
    }
}

// The equation of a target with a value that was found.
fn equation(alloc: Global, target: &Rc<Expr>, value: Rc<Value>) -> Result<Formula, NoMemory>
    ensures { IfOk result (λ w.
        formula_tree w ≡ equation (expr_tree target.now.value) (known (tree value.value))) }
{
    let value = Rc::new(alloc, Expr::Known(value))?;
    Ok(Formula::Eq(target.clone()?, value))
}

/// The target has the value in the last state.
pub fn decide_assign(
    alloc: Global,
    target: &Rc<Expr>,
    found: Outcome,
    env: &Rc<Env>,
) -> Result<Decision, NoMemory>
    ensures outcome { IfOkDecides result (λ n.
        row.with_value (outcome_tree found) (λ v.
        becomes_due (always (if_empty (equation (expr_tree target.now.value) (known v))))
        (bindings_of env.now.value) n)) }
    ensures plain { IfOk result IsPlain }
{
    match value(found) {
        Ok(value) => {
            let value = Rc::new(alloc, value)?;
            let equal = Rc::new(alloc, equation(alloc, target, value)?)?;
            let at_end = Rc::new(alloc, Formula::IfEmpty(equal))?;
            let all = Rc::new(alloc, Formula::Always(at_end))?;
            let leaf = due(all, env)?;
            Ok(becomes_one(leaf))
        }
        Err(decision) => Ok(decision),
    }
}

// The formula under so many `next`.
fn under_nexts(alloc: Global, count: u32, formula: Formula) -> Result<Rc<Formula>, NoMemory>
    ensures { IfOk result (λ w. formula_tree w.value ≡ nexts count (formula_tree formula)) }
{
    let mut whole = Rc::new(alloc, formula)?;
    for _ in 0..count {
        whole = Rc::new(alloc, Formula::Next(whole))?;
    }
    Ok(whole)
}

// The target has this value after so many states.
fn equal_after(
    alloc: Global,
    count: u32,
    target: &Rc<Expr>,
    value: Rc<Value>,
    env: &Rc<Env>,
    place: Place,
) -> Result<Decision, NoMemory>
    requires { 1 ≤ count }
    ensures outcome { IfOkDecides result (λ n.
        row.going (plain_place place)
        (S.leaf (n.item 0)
        (S.Later
        (nexts (count - 1) (equation (expr_tree target.now.value) (known (tree value.value))))
        (bindings_of env.now.value))
        S.none)
        1) }
    ensures plain { IfOk result IsPlain }
{
    let equal = equation(alloc, target, value)?;
    let whole = under_nexts(alloc, count - 1, equal)?;
    decide_next(&whole, env, place)
}

/// The target has the value after so many states.
pub fn decide_next_equation(
    alloc: Global,
    count: u32,
    target: &Rc<Expr>,
    found: SharedOutcome,
    env: &Rc<Env>,
    place: Place,
) -> Result<Decision, NoMemory>
    requires { 1 ≤ count }
    ensures outcome { IfOkDecides result (λ n.
        row.with_value (shared_outcome found) (λ v.
        row.going (plain_place place)
        (S.leaf (n.item 0)
        (S.Later (nexts (count - 1) (equation (expr_tree target.now.value) (known v)))
        (bindings_of env.now.value))
        S.none)
        1)) }
    ensures plain { IfOk result IsPlain }
{
    match found {
        SharedOutcome::Value(value) => equal_after(alloc, count, target, value, env, place),
        SharedOutcome::Other(found) => match value(found) {
            Ok(value) => {
                let value = Rc::new(alloc, value)?;
                equal_after(alloc, count, target, value, env, place)
            }
            Err(decision) => Ok(decision),
        },
    }
}
