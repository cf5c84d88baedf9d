// Formulas that count: the turns of a loop, and a formula for each of several numbers.
ghost use Rattle.std.specs.Prelude.{◌≡◌, ◌++◌, ◌∷◌, [], ◌+ℤ◌, ◌<ℤ◌, pos, IfOk};
ghost use Rattle.tp_value.specs.Tree.{num};
ghost use Rattle.tp_meaning.specs.Syntax.{known_binding, numeral};
ghost use Rattle.tp_kernel.specs.Read.{formula_tree};
ghost use Rattle.tp_eval.specs.Answers.{outcome_tree};
ghost use Rattle.tp_scene.specs.Step as row;
ghost use Rattle.tp_decide.specs.Decided.{IfOkDecides, plain_place};
ghost use Rattle.tp_decide.specs.Fits.{IsPlain};
ghost use Rattle.tp_decide.specs.Found.{counted_from};
ghost use Rattle.tp_decide.specs.ReadBound.{formula_of, env_of};

use crate::bound_formula::BoundFormula;
use crate::decision::{Decision, Leaf, Place, becomes_one, becomes_two, due, nothing};
use crate::env::{bind_number, under};
use crate::found::number;
use crate::regions::{RegionKind, divide};
use std::alloc::Global;
use std::rc::Rc;
use tp_eval::Outcome;
use tp_kernel::{Expr, Formula};
use tp_value::{NoMemory, Number, Text};

/// The formulas that count: the loop that takes its turns one after another, or that for each of the numbers.
#[derive(Clone, Copy)]
pub enum CountKind {
    Turns,
    Instances,
}

// The body, with the number bound last.
fn counted(alloc: Global, n: Number, body: &BoundFormula) -> Result<BoundFormula, NoMemory>
    ensures formula { IfOk result (λ a. formula_of a ≡ formula_of body.now) }
    ensures bindings { IfOk result (λ a.
        env_of a ≡ env_of body.now ++ known_binding (num n) ∷ []) }
{
    let env = bind_number(alloc, &body.env, n)?;
    let what = body.what.clone()?;
    Ok(BoundFormula { what, env })
}

// The formula that counts so, from the number after k on.
fn count_on(
    alloc: Global,
    kind: CountKind,
    name: &Text,
    k: Number,
    to: Number,
    body: &Rc<Formula>,
) -> Result<Rc<Formula>, NoMemory>
    requires { k <ℤ to }
    ensures { IfOk result (λ w.
        formula_tree w.value
        ≡ counted_from kind name.now (k +ℤ pos 1) (numeral to) (formula_tree body.now.value)) }
{
    let name = name.copy()?;
    let to = Rc::new(alloc, Expr::Number(to))?;
    let body = body.clone()?;
    let from = k + 1;
    let rest = match kind {
        CountKind::Turns => Formula::For {
            name,
            from,
            to,
            body,
        },
        CountKind::Instances => Formula::Forall {
            name,
            from,
            to,
            body,
        },
    };
    let rest = Rc::new(alloc, rest)?;
    Ok(rest)
}

/// The turns of a loop from k to below the number that was found: a turn in a region of its own and the others after it, or the end.
pub fn decide_turns(
    alloc: Global,
    name: &Text,
    k: Number,
    found: Outcome,
    body: &BoundFormula,
    place: Place,
) -> Result<Decision, NoMemory>
    ensures outcome { IfOkDecides result (λ n.
        row.with_number (outcome_tree found) (λ m.
        row.turns name.now k m (formula_of body.now) (env_of body.now) (plain_place place) n)) }
    ensures plain { IfOk result IsPlain }
{
    let to = match number(found) {
        Ok(to) => to,
        Err(decision) => return Ok(decision),
    };
    if to <= k {
        let end = Rc::new(alloc, Formula::Empty)?;
        let leaf = due(end, &body.env)?;
        return Ok(becomes_one(leaf));
    }
    let turn = counted(alloc, k, body)?;
    let rest = count_on(alloc, CountKind::Turns, name, k, to, &body.what)?;
    let after = under(rest, &body.env)?;
    Ok(divide(place, RegionKind::Left, turn, after))
}

/// The formula for each number from k to below the number that was found: that for k and the others, or nothing.
pub fn decide_instances(
    alloc: Global,
    name: &Text,
    k: Number,
    found: Outcome,
    body: &BoundFormula,
) -> Result<Decision, NoMemory>
    ensures outcome { IfOkDecides result (λ n.
        row.with_number (outcome_tree found) (λ m.
        row.instances name.now k m (formula_of body.now) (env_of body.now) n)) }
    ensures plain { IfOk result IsPlain }
{
    let to = match number(found) {
        Ok(to) => to,
        Err(decision) => return Ok(decision),
    };
    if to <= k {
        return Ok(nothing());
    }
    let first = counted(alloc, k, body)?;
    let rest = count_on(alloc, CountKind::Instances, name, k, to, &body.what)?;
    let others = due(rest, &body.env)?;
    Ok(becomes_two(Leaf::Do(first), others))
}
