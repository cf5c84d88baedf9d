// What a store does that no run shows: a fact that is noted into room that was made, and a list that is kept whole.
ghost use Rattle.std.specs.Prelude.{◌≡◌, ◌∷◌, [], length, IfOk, false};
ghost use Rattle.tp_store.specs.Known.{global_variable};

use crate::expected::holds;
use std::alloc::Global;
use std::test::Fail;
use tp_store::{Noted, Store};
use tp_value::{Globals, Indices, Items, NoMemory, Path, Shape, Text, Value, VarId};

// The state variable A alone.
fn one_variable(alloc: Global) -> Result<Store, NoMemory>
    ensures { IfOk result (λ store. store.variables ≡ global_variable (65 ∷ []) ∷ []) }
{
    let mut globals = Globals::new(alloc)?;
    let name = Text::from_slice(alloc, b"A".as_slice())?;
    globals.add(&name)?;
    Store::new(alloc, &globals)
}

// A place of it.
fn place(alloc: Global, at: &[u32]) -> Result<Path, NoMemory>
    ensures variable { IfOk result (λ path.
        path.var ≡ record { number = 0; lasting = false }) }
    ensures indices { IfOk result (λ path. length path.at ≡ length at.now) }
{
    let mut indices = Indices::new(alloc);
    indices.items.extend_from_slice(at)?;
    let var = VarId {
        number: 0,
        lasting: false,
    };
    Ok(Path { var, at: indices })
}

#[test]
fn a_fact_is_noted(rt: HostRuntime) -> Result<(), Fail> {
    let mut store = one_variable(rt.alloc())?;
    let here = place(rt.alloc(), &[])?;
    store.reserve(1, 0)?;
    let noted = store.note(&here, Shape::Num(7));
    holds(&rt, noted == Noted::New, "a new fact");
    Ok(())
}

#[test]
fn whole_lists_are_kept(rt: HostRuntime) -> Result<(), Fail> {
    let mut store = one_variable(rt.alloc())?;
    let here = place(rt.alloc(), &[])?;
    let items = vec![in rt.alloc(); Value::Num(6)]?;
    store.add(&here, &Value::List(Items { items }))?;
    holds(&rt, store.kept_value(&here).is_some(), "a list");
    Ok(())
}
