// What becomes of an item without a region. This only reads: what is decided is carried out above.
ghost use Rattle.std.specs.Prelude.{◌≡◌, IfOk, ◌∷◌, []};
ghost use Rattle.tp_kernel.specs.Read.{definitions_of, expr_tree, formula_tree, formula_trees, bindings_of};
ghost use Rattle.tp_scene.specs.Step as row;
ghost use Rattle.tp_decide.specs.ReadBound.{formula_of, env_of};
ghost use Rattle.tp_decide.specs.Decided.{IfOkDecides, becomes_due, decided_outcome, plain_place, setting_of};
ghost use Rattle.tp_decide.specs.Fits.{SetsVariables, FitsStore, IsPlain};
ghost use Rattle.tp_scene.specs.Scene as S;
ghost use Rattle.tp_meaning.specs.Syntax.{always, branch, chop, conjunction, empty, formulas_of, more, weak_next};

use crate::bound_formula::BoundFormula;
use crate::calls::decide_call;
use crate::counting::{decide_instances, decide_turns};
use crate::decision::{
    Decision, Place, becomes, becomes_one, becomes_two, due, end, go, later, nothing, wait_for_end,
};
use crate::display::decide_display;
use crate::env::shared_under;
use crate::equation::{decide_equation, decide_input};
use crate::evaluated::{
    decide_assign, decide_branch, decide_len, decide_next_equation, decide_test,
};
use crate::found::eval_shared;
use crate::leaves::Leaves;
use crate::regions::{RegionKind, decide_exists, decide_region};
use crate::setting::Setting;
use std::alloc::Global;
use std::rc::Rc;
use tp_eval::eval;
use tp_kernel::{Env, Expr, Formula, Formulas};
use tp_store::Store;
use tp_value::NoMemory;

/// The formula from the next state on, which there is.
pub fn decide_next(what: &Rc<Formula>, env: &Rc<Env>, place: Place) -> Result<Decision, NoMemory>
    ensures outcome { IfOkDecides result (λ n.
        row.going (plain_place place)
        (S.leaf (n.item 0) (S.Later (formula_tree what.now.value) (bindings_of env.now.value))
        S.none)
        1) }
    ensures plain { IfOk result IsPlain }
{
    Ok(go(place, Leaves::One(later(what.clone()?, env)?)))
}

/// By the region's status: the formula from the next state on, or nothing.
pub fn decide_weak_next(
    what: &Rc<Formula>,
    env: &Rc<Env>,
    place: Place,
) -> Result<Decision, NoMemory>
    ensures outcome { IfOkDecides result (λ n.
        row.by_status (plain_place place)
        (row.becomes
        (S.leaf (n.item 0) (S.Later (formula_tree what.now.value) (bindings_of env.now.value))
        S.none)
        1)
        row.vanishes) }
    ensures plain { IfOk result IsPlain }
{
    if place.goes {
        let leaf = later(what.clone()?, env)?;
        Ok(becomes_one(leaf))
    } else if place.ends {
        Ok(nothing())
    } else {
        Ok(wait_for_end(place))
    }
}

/// By the region's status: the formula now, where the region goes on.
pub fn decide_if_more(what: &Rc<Formula>, env: &Rc<Env>, place: Place) -> Result<Decision, NoMemory>
    ensures outcome { IfOkDecides result (λ n.
        row.by_status (plain_place place)
        (becomes_due (formula_tree what.now.value) (bindings_of env.now.value) n) row.vanishes) }
    ensures plain { IfOk result IsPlain }
{
    if place.goes {
        let leaf = due(what.clone()?, env)?;
        Ok(becomes_one(leaf))
    } else if place.ends {
        Ok(nothing())
    } else {
        Ok(wait_for_end(place))
    }
}

/// By the region's status: the formula now, where the region ends.
pub fn decide_if_empty(
    what: &Rc<Formula>,
    env: &Rc<Env>,
    place: Place,
) -> Result<Decision, NoMemory>
    ensures outcome { IfOkDecides result (λ n.
        row.by_status (plain_place place) row.vanishes
        (becomes_due (formula_tree what.now.value) (bindings_of env.now.value) n)) }
    ensures plain { IfOk result IsPlain }
{
    if place.goes {
        Ok(nothing())
    } else if place.ends {
        let leaf = due(what.clone()?, env)?;
        Ok(becomes_one(leaf))
    } else {
        Ok(wait_for_end(place))
    }
}

/// The formula now, and all of it again from the next state on.
pub fn decide_always(
    alloc: Global,
    all: &Rc<Formula>,
    what: &Rc<Formula>,
    env: &Rc<Env>,
) -> Result<Decision, NoMemory>
    requires { formula_tree all.now.value ≡ always (formula_tree what.now.value) }
    ensures outcome { IfOkDecides result (λ n.
        row.becomes
        (S.leaf (n.item 0) (S.Do (formula_tree what.now.value) (bindings_of env.now.value))
        (S.leaf (n.item 1)
        (S.Do (weak_next (always (formula_tree what.now.value))) (bindings_of env.now.value))
        S.none))
        2) }
    ensures plain { IfOk result IsPlain }
{
    let again = Rc::new(alloc, Formula::WeakNext(all.clone()?))?;
    let first = due(what.clone()?, env)?;
    let second = due(again, env)?;
    Ok(becomes_two(first, second))
}

/// Each operand, in order.
pub fn decide_and(alloc: Global, operands: &Formulas, env: &Rc<Env>) -> Result<Decision, NoMemory>
    ensures outcome { IfOkDecides result (λ n.
        row.becomes (row.all_do (formula_trees operands.now) (bindings_of env.now.value) n.item 0)
        (row.count_of (formula_trees operands.now))) }
    ensures plain { IfOk result IsPlain }
{
    let mut news = Leaves::None;
    for operand in &operands.items {
        let leaf = due(operand.clone()?, env)?;
        news = news.with(alloc, leaf)?;
    }
    Ok(becomes(news))
}

// A turn of the loop, which isn't its last state, and then the loop again.
fn turn(alloc: Global, whole: &Rc<Formula>, body: &Rc<Formula>) -> Result<Rc<Formula>, NoMemory>
    ensures { IfOk result (λ w.
        formula_tree w.value
        ≡ chop (conjunction (formulas_of (formula_tree body.now.value ∷ more ∷ [])))
        (formula_tree whole.now.value)) }
{
    let mut parts = Vec::new(alloc);
    parts.push(body.clone()?)?;
    parts.push(Rc::new(alloc, Formula::More)?)?;
    let first = Rc::new(alloc, Formula::And(Formulas { items: parts }))?;
    let rest = whole.clone()?;
    let turn = Rc::new(alloc, Formula::Chop(first, rest))?;
    Ok(turn)
}

/// Where the condition is true a turn and the loop again, and else the end.
pub fn decide_while(
    alloc: Global,
    whole: &Rc<Formula>,
    condition: &Rc<Expr>,
    body: &Rc<Formula>,
    env: &Rc<Env>,
) -> Result<Decision, NoMemory>
    ensures outcome { IfOkDecides result (λ n.
        becomes_due
        (branch (expr_tree condition.now.value)
        (chop (conjunction (formulas_of (formula_tree body.now.value ∷ more ∷ [])))
        (formula_tree whole.now.value))
        empty)
        (bindings_of env.now.value) n) }
    ensures plain { IfOk result IsPlain }
{
    let turn = turn(alloc, whole, body)?;
    let end = Rc::new(alloc, Formula::Empty)?;
    let choice = Rc::new(alloc, Formula::If(condition.clone()?, turn, end))?;
    let leaf = due(choice, env)?;
    Ok(becomes_one(leaf))
}

/// What picking an item with this formula gives, in a region of that place.
pub fn decide(
    alloc: Global,
    bound: &BoundFormula,
    place: Place,
    store: &Store,
    setting: &Setting,
) -> Result<Decision, NoMemory>
    requires fits { FitsStore (definitions_of setting.now.defs.now) store.now.variables
        (formula_of bound.now) (env_of bound.now) }
    ensures outcome { let w = setting_of setting.now in
        IfOk result (λ d.
        (n : row.Numbers)
        → decided_outcome store.now.facts n d
        ≡ row.formula_step w.defs w.inputs w.state store.now.facts (formula_of bound.now)
        (env_of bound.now) (plain_place place) n) }
    ensures variables { IfOk result (SetsVariables store.now.variables) }
{
    let env = &bound.env;
    match &*bound.what {
        Formula::True => Ok(nothing()),
        Formula::Test(e) => {
            let found = eval(alloc, e, env, store, setting.defs)?;
            Ok(decide_test(found))
        }
        Formula::Eq(l, r) => decide_equation(alloc, l, r, env, store, setting),
        Formula::NextEq(k, t, e) => {
            let found = eval_shared(alloc, e, env, store, setting.defs)?;
            decide_next_equation(alloc, *k, t, found, env, place)
        }
        Formula::Empty => Ok(end(place)),
        Formula::More => Ok(go(place, Leaves::None)),
        Formula::Next(w) => decide_next(w, env, place),
        Formula::WeakNext(w) => decide_weak_next(w, env, place),
        Formula::IfMore(w) => decide_if_more(w, env, place),
        Formula::IfEmpty(w) => decide_if_empty(w, env, place),
        Formula::Always(w) => decide_always(alloc, &bound.what, w, env),
        Formula::And(operands) => decide_and(alloc, operands, env),
        Formula::If(b, yes, no) => {
            let found = eval(alloc, b, env, store, setting.defs)?;
            decide_branch(found, yes, no, env)
        }
        Formula::Len(e) => {
            let found = eval(alloc, e, env, store, setting.defs)?;
            decide_len(alloc, found, env)
        }
        Formula::Assign(t, e) => {
            let found = eval(alloc, e, env, store, setting.defs)?;
            decide_assign(alloc, t, found, env)
        }
        Formula::Chop(w, v) => decide_region(RegionKind::Left, w, v, env, place),
        Formula::While(b, w) => decide_while(alloc, &bound.what, b, w, env),
        Formula::For {
            name,
            from,
            to,
            body,
        } => {
            let found = eval(alloc, to, env, store, setting.defs)?;
            let body = shared_under(body, env)?;
            decide_turns(alloc, name, *from, found, &body, place)
        }
        Formula::Forall {
            name,
            from,
            to,
            body,
        } => {
            let found = eval(alloc, to, env, store, setting.defs)?;
            let body = shared_under(body, env)?;
            decide_instances(alloc, name, *from, found, &body)
        }
        Formula::Proj(w, v) => decide_region(RegionKind::Outer, v, w, env, place),
        Formula::Exists {
            name,
            lasting,
            body,
        } => decide_exists(name, *lasting, body, env),
        Formula::Call(number, exprs) => decide_call(alloc, *number, exprs, env, store, setting),
        Formula::Input(x, port) => decide_input(alloc, x, port, env, store, setting),
        Formula::Display(es) => decide_display(alloc, es, env, store, setting),
    }
}
