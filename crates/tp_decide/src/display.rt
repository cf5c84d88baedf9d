// Values that are shown.
ghost use Rattle.std.specs.Prelude.{IfOk, IfErr};
ghost use Rattle.tp_kernel.specs.Read.{expr_trees, definitions_of, bindings_of};
ghost use Rattle.tp_scene.specs.Scene as S;
ghost use Rattle.tp_scene.specs.Step as row;
ghost use Rattle.tp_decide.specs.Decided.{IfOkDecides};
ghost use Rattle.tp_decide.specs.Fits.{IsPlain};
ghost use Rattle.tp_decide.specs.Found.{ValuesIn};

use crate::bound_formula::Values;
use crate::decision::{Decision, Leaf, becomes_one};
use crate::found::find_value;
use crate::setting::Setting;
use std::alloc::Global;
use tp_kernel::{Env, Exprs};
use tp_store::Store;
use tp_value::NoMemory;

// The values of the expressions from left to right.
fn find_values(
    alloc: Global,
    exprs: &Exprs,
    env: &Env,
    store: &Store,
    setting: &Setting,
) -> Result<Result<Values, Decision>, NoMemory>
    ensures found { IfOk result
        (ValuesIn store.now.facts (definitions_of setting.now.defs.now) (expr_trees exprs.now)
        (bindings_of env.now)) }
    ensures plain { IfOk result (λ found. IfErr found IsPlain) }
{
    let mut items = Vec::new(alloc);
    for expr in &exprs.items {
        match find_value(alloc, expr, env, store, setting)? {
            Ok(value) => items.push(value)?,
            Err(decision) => return Ok(Err(decision)),
        }
    }
    Ok(Ok(Values { items }))
}

/// The values of the expressions, which are shown.
pub fn decide_display(
    alloc: Global,
    exprs: &Exprs,
    env: &Env,
    store: &Store,
    setting: &Setting,
) -> Result<Decision, NoMemory>
    ensures outcome { IfOkDecides result (λ n.
        row.with_values (definitions_of setting.now.defs.now) store.now.facts
        (expr_trees exprs.now) (bindings_of env.now)
        (λ vs. row.becomes (S.leaf (n.item 0) (S.Shown vs) S.none) 1)) }
    ensures plain { IfOk result IsPlain }
{
    match find_values(alloc, exprs, env, store, setting)? {
        Ok(values) => Ok(becomes_one(Leaf::Shown(values))),
        Err(decision) => Ok(decision),
    }
}
