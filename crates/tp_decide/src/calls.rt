// Calls of definitions.
ghost use Rattle.std.specs.Prelude.{◌≡◌, Some, slice_get, IsTrue, IfOk, IfErr};
ghost use Rattle.std.specs.Option.{option_map};
ghost use Rattle.tp_meaning.specs.Syntax.{Definition, known_binding};
ghost use Rattle.tp_meaning.specs.Value.{is_upper};
ghost use Rattle.tp_kernel.specs.Read.{expr_tree, expr_trees, definition_of, definitions_of, bindings_of};
ghost use Rattle.tp_eval.specs.Evaluate.{is_place};
ghost use Rattle.tp_eval.specs.Outcome.{Outcome, place_outcome};
ghost use Rattle.tp_scene.specs.Step as row;
ghost use Rattle.tp_decide.specs.Decided.{Decides, IfOkDecides};
ghost use Rattle.tp_decide.specs.Fits.{IsPlain, ArePlaces};
ghost use Rattle.tp_decide.specs.Found.{ValueIn, BoundIn, AllBoundIn};

use crate::bound_formula::BoundFormula;
use crate::decision::{Decision, Leaf, becomes_one};
use crate::found::{find_value, value};
use crate::setting::Setting;
use std::alloc::Global;
use std::rc::Rc;
use tp_eval::{PlaceOutcome, bound_value, kept_value, place};
use tp_kernel::{Binding, Def, Defs, Env, Expr, Exprs, FaultKind, is_upper};
use tp_scene::Clash;
use tp_store::Store;
use tp_value::{NoMemory, Text, Texts, Value};

// There is no such definition, or no argument for a parameter, or no parameter for an argument.
fn no_element() -> Decision
    ensures outcome { Decides result (λ n. row.clashes (Clash.NoValue FaultKind.NoElement)) }
    ensures plain { IsPlain result }
{
    Decision::Clashes(Clash::NoValue(FaultKind::NoElement))
}

// The value that was looked for.
fn known(
    alloc: Global,
    found: Result<Value, Decision>,
) -> Result<Result<Binding, Decision>, NoMemory>
    requires { IfErr found IsPlain }
    ensures bound { IfOk result (λ bound.
        (o : Outcome) → ValueIn o found
        → BoundIn (λ f. row.with_value o (λ v. f (known_binding v))) bound) }
    ensures plain { IfOk result (λ bound. IfErr bound IsPlain) }
{
    match found {
        Ok(value) => {
            let value = Rc::new(alloc, value)?;
            Ok(Ok(Binding::Known(value)))
        }
        Err(decision) => Ok(Err(decision)),
    }
}

// What the expression is as a place: a path, as its indices are now, or an element of a known value.
fn find_place(
    alloc: Global,
    expr: &Expr,
    env: &Env,
    store: &Store,
    setting: &Setting,
) -> Result<Result<Binding, Decision>, NoMemory>
    requires { IsTrue (is_place (expr_tree expr.now)) }
    ensures bound { IfOk result (λ bound.
        BoundIn
        (λ f. row.with_place (place_outcome store.now.facts (definitions_of setting.now.defs.now)
        (expr_tree expr.now) (bindings_of env.now)) f)
        bound) }
    ensures plain { IfOk result (λ bound. IfErr bound IsPlain) }
{
    match place(alloc, expr, env, store, setting.defs)? {
        PlaceOutcome::Place(path) => Ok(Ok(Binding::Place(path))),
        PlaceOutcome::Other(outcome) => known(alloc, value(outcome)),
    }
}

// What the parameter is bound to: a place where its name begins with an upper-case letter, and else
// a value. Where the argument is bound to a known value, or the store keeps its list, that is handed on.
fn find_binding(
    alloc: Global,
    parameter: &Text,
    expr: &Expr,
    env: &Env,
    store: &Store,
    setting: &Setting,
) -> Result<Result<Binding, Decision>, NoMemory>
    requires { IsTrue (is_upper parameter.now) → IsTrue (is_place (expr_tree expr.now)) }
    ensures bound { IfOk result
        (BoundIn (λ f.
        row.with_argument (definitions_of setting.now.defs.now) store.now.facts parameter.now
        (expr_tree expr.now) (bindings_of env.now) f)) }
    ensures plain { IfOk result (λ bound. IfErr bound IsPlain) }
{
    if let Some(value) = bound_value(expr, env) {
        let value = value.clone()?;
        return Ok(Ok(Binding::Known(value)));
    }
    if is_upper(parameter) {
        find_place(alloc, expr, env, store, setting)
    } else if let Some(value) = kept_value(alloc, expr, env, store) {
        let value = value.clone()?;
        Ok(Ok(Binding::Known(value)))
    } else {
        let found = find_value(alloc, expr, env, store, setting)?;
        known(alloc, found)
    }
}

// What the parameters are bound to, from left to right.
fn find_bindings(
    alloc: Global,
    parameters: &Texts,
    exprs: &Exprs,
    env: &Env,
    store: &Store,
    setting: &Setting,
) -> Result<Result<Env, Decision>, NoMemory>
    requires { ArePlaces (expr_trees exprs.now) parameters.now }
    ensures bound { IfOk result
        (AllBoundIn (λ f.
        row.with_arguments (definitions_of setting.now.defs.now) store.now.facts
        (expr_trees exprs.now) parameters.now (bindings_of env.now) f)) }
    ensures plain { IfOk result (λ bound. IfErr bound IsPlain) }
{
    let mut items = Vec::new(alloc);
    for (expr, parameter) in exprs.items.iter().zip(&parameters.items) {
        match find_binding(alloc, parameter, expr, env, store, setting)? {
            Ok(binding) => items.push(binding)?,
            Err(decision) => return Ok(Err(decision)),
        }
    }
    if exprs.items.len() == parameters.items.len() {
        Ok(Ok(Env { items }))
    } else {
        Ok(Err(no_element()))
    }
}

// The definition with this number.
fn definition(defs: &Defs, number: u32) -> Option<&Def>
    ensures { option_map (λ def. definition_of def.now) result
        ≡ slice_get (definitions_of defs.now) number }
{
    defs.items.get(number as usize)
}

// The definition's formula, under these bindings of its parameters alone.
fn unfold(
    alloc: Global,
    def: &Def,
    exprs: &Exprs,
    env: &Env,
    store: &Store,
    setting: &Setting,
) -> Result<Decision, NoMemory>
    requires { ArePlaces (expr_trees exprs.now) (definition_of def.now).parameters }
    ensures outcome { IfOkDecides result (λ n.
        row.called (definitions_of setting.now.defs.now) store.now.facts
        (Some (definition_of def.now)) (expr_trees exprs.now) (bindings_of env.now) n) }
    ensures plain { IfOk result IsPlain }
{
    match find_bindings(alloc, &def.parameters, exprs, env, store, setting)? {
        Ok(bound) => {
            let what = def.formula.clone()?;
            let env = Rc::new(alloc, bound)?;
            Ok(becomes_one(Leaf::Do(BoundFormula { what, env })))
        }
        Err(decision) => Ok(decision),
    }
}

/// The formula of the definition with this number, under what its parameters are bound to.
pub fn decide_call(
    alloc: Global,
    number: u32,
    exprs: &Exprs,
    env: &Env,
    store: &Store,
    setting: &Setting,
) -> Result<Decision, NoMemory>
    requires { (called : Definition)
        → slice_get (definitions_of setting.now.defs.now) number ≡ Some called
        → ArePlaces (expr_trees exprs.now) called.parameters }
    ensures outcome { IfOkDecides result (λ n.
        row.called (definitions_of setting.now.defs.now) store.now.facts
        (slice_get (definitions_of setting.now.defs.now) number) (expr_trees exprs.now)
        (bindings_of env.now) n) }
    ensures plain { IfOk result IsPlain }
{
    match definition(setting.defs, number) {
        Some(def) => unfold(alloc, def, exprs, env, store, setting),
        None => Ok(no_element()),
    }
}
