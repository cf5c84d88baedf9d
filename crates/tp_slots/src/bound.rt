// A new local in place of an item that is due, whose bindings are extended where they stand.
ghost use Rattle.std.specs.Prelude.{◌≡◌, ◌<◌, ◌++◌, [], ◌∷◌, None, Some, length, slice_set, IfOk, OnErr, OnOk};
ghost use Rattle.tp_kernel.specs.Read.{bindings_of};
ghost use Rattle.tp_scene.specs.Scene as S;
ghost use Rattle.tp_scene.specs.Pick.{HasAdded};
ghost use Rattle.tp_decide.specs.declared.decision.Leaf.TheVariants as leaf;
ghost use Rattle.tp_decide.specs.ReadBound.{env_of, formula_of};
ghost use Rattle.tp_slots.specs.Bound.{IsDueUnder, IsTakenOut, bound_last, slot_in, slot_with};
ghost use Rattle.tp_slots.specs.Kept.{HasRoomFor, IsReducedTo, IsUnchanged, IsWellKept, Lives};
ghost use Rattle.tp_slots.specs.News.{new_items};
ghost use Rattle.tp_slots.specs.Plain.{bare};
ghost use Rattle.tp_slots.specs.Read.{item_what, scene_of};
ghost use Rattle.tp_slots.specs.Reductions.{becomes_leaves};
ghost use Rattle.tp_slots.specs.declared.scene.What.TheVariants as what;
ghost use Rattle.tp_store.specs.Stock.{contents_in};

use crate::leaves::{make_room, numbers};
use crate::scene::{Scene, Slot, What};
use smallvec::SmallVec;
use std::alloc::Global;
use std::mem;
use std::rc::Rc;
use tp_decide::{BoundFormula, Leaf, bind_last};
use tp_kernel::{Binding, Env};
use tp_store::Store;
use tp_value::{Indices, NoMemory, Path, Text, VarId};

// Takes the formula of a due item out of its slot, for the item `next`, which is to stand in its place.
fn take_due(scene: &mut Scene, item: u64, next: u64) -> BoundFormula
    requires item { item < length scene.old.slots.items }
    requires due { (env : S.Bindings) × IsDueUnder env (item_what scene.old item) }
    ensures taken { IsTakenOut item next scene.old.slots.items result scene.new.slots.items }
    ensures regions { scene.new.regions ≡ scene.old.regions }
    ensures looks { scene.new.looks ≡ scene.old.looks }
    ensures room { HasRoomFor 1 scene.old → HasRoomFor 1 scene.new }
{
    let gone = What::Gone {
        first: next,
        count: 1,
    };
    let What::Leaf(Leaf::Do(bound)) = mem::replace(&mut scene.slots[item as usize].what, gone)
    else {
        unreachable!();
    };
    bound
}

// The formula is due again.
fn put_back(scene: &mut Scene, item: u64, bound: BoundFormula)
    requires { item < length scene.old.slots.items }
    ensures slots { scene.new.slots.items ≡ slice_set scene.old.slots.items item
        (slot_with (slot_in scene.old.slots.items item) (what.Leaf (leaf.Do bound))) }
    ensures regions { scene.new.regions ≡ scene.old.regions }
    ensures looks { scene.new.looks ≡ scene.old.looks }
{
    scene.slots[item as usize].what = What::Leaf(Leaf::Do(bound));
}

// An item more, which stands and is visited where the other one was. There is room for it.
fn push_due(scene: &mut Scene, item: u64, bound: BoundFormula)
    requires item { item < length scene.old.slots.items }
    requires room { HasRoomFor 1 scene.old }
    ensures slots { scene.new.slots.items ≡ scene.old.slots.items
        ++ slot_with (slot_in scene.old.slots.items item) (what.Leaf (leaf.Do bound)) ∷ [] }
    ensures regions { scene.new.regions ≡ scene.old.regions }
    ensures looks { scene.new.looks ≡ scene.old.looks }
{
    let home = scene.slots[item as usize].home;
    let after = scene.slots[item as usize].after;
    let slot = Slot {
        home,
        after,
        what: What::Leaf(Leaf::Do(bound)),
    };
    let Ok(()) = scene.slots.push(slot) else {
        unreachable!();
    };
}

// A new local is bound last: where the list isn't shared and has room it is extended, else copied. Or nothing changes.
fn bind_local(
    alloc: Global,
    env: &mut Rc<Env>,
    name: &Text,
    lasting: bool,
    store: &mut Store,
) -> Result<(), NoMemory>
    ensures env { OnOk result (bindings_of env.new.value
        ≡ bound_last (bindings_of env.old.value) (length store.old.variables) lasting) }
    ensures local { OnOk result
        (HasAdded (contents_in store.old) []
        (Some (record { name = name.now; lasting = lasting })) (contents_in store.new)) }
    ensures env_err { OnErr result (env.new ≡ env.old) }
    ensures store_err { OnErr result (contents_in store.new ≡ contents_in store.old) }
{
    let number = store.count();
    let path = Path {
        var: VarId { number, lasting },
        at: Indices::new(alloc),
    };
    if let Some(list) = Rc::get_mut(env) {
        if list.items.len() < list.items.capacity() {
            store.fresh(name, lasting)?;
            let Ok(()) = list.items.push(Binding::Place(path)) else {
                unreachable!();
            };
            return Ok(());
        }
    }
    let longer = bind_last(alloc, env, Binding::Place(path))?;
    store.fresh(name, lasting)?;
    *env = longer;
    Ok(())
}

/// A formula that is due stands in an item's place, with a new local of that name bound last. What became live is answered. Or nothing
/// changes.
pub fn become_bound(
    alloc: Global,
    scene: &mut Scene,
    item: u64,
    local: (Text, bool, BoundFormula),
    store: &mut Store,
) -> Result<SmallVec<u64, 3>, NoMemory>
    requires kept { IsWellKept scene.old }
    requires lives { Lives scene.old item }
    requires due { IsDueUnder (env_of local.2) (item_what scene.old item) }
    ensures kept { IsWellKept scene.new }
    ensures scene { let env = bound_last (env_of local.2) (length store.old.variables) local.1 in
        let due = bare (S.Do (formula_of local.2) env) in
        OnOk result (IsReducedTo item (becomes_leaves (scene_of scene.old) (due ∷ []) None)
        scene.old scene.new) }
    ensures news { IfOk result (λ v.
        v.items ≡ new_items (scene_of scene.old) (scene_of scene.new)) }
    ensures local { OnOk result
        (HasAdded (contents_in store.old) []
        (Some (record { name = local.0; lasting = local.1 })) (contents_in store.new)) }
    ensures scene_err { OnErr result (IsUnchanged scene.old scene.new) }
    ensures store_err { OnErr result (contents_in store.new ≡ contents_in store.old) }
{
    let (name, lasting, body) = local;
    let what = body.what;
    // the item's own bindings alone are left
    drop(body.env);
    let next = scene.slots.len() as u64;
    let fresh = numbers(alloc, next, 1)?;
    make_room(scene, 1)?;
    let mut taken = take_due(scene, item, next);
    match bind_local(alloc, &mut taken.env, &name, lasting, store) {
        Ok(()) => {
            let env = taken.env;
            push_due(scene, item, BoundFormula { what, env });
            Ok(fresh)
        }
        Err(NoMemory) => {
            put_back(scene, item, taken);
            Err(NoMemory)
        }
    }
}
