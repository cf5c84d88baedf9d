// The values that a scene shows.
ghost use Rattle.std.specs.Prelude.{◌≡◌, ◌++◌, [], false, map, IfOk, OnOk, OnErr};
ghost use Rattle.std.specs.List.{All};
ghost use Rattle.tp_scene.specs.Advance.{shown_in};
ghost use Rattle.tp_decide.specs.Read.{shows_of, values_of};
ghost use Rattle.tp_slots.specs.Settled.{what_shows};
ghost use Rattle.tp_slots.specs.Read.{scene_of, what_of, item_what};
ghost use Rattle.tp_slots.specs.Kept.{IsWellKept};

use crate::scene::{Scene, Slot, What};
use crate::walk::items;
use std::alloc::Global;
use tp_decide::{Leaf, Shows, Values};
use tp_value::NoMemory;

// Equal values.
pub fn copy_values(alloc: Global, values: &Values) -> Result<Values, NoMemory>
    ensures { IfOk result (λ vs. values_of vs ≡ values_of values.now) }
{
    let mut items = Vec::new(alloc);
    for value in &values.items {
        items.push(value.copy(alloc)?)?;
    }
    Ok(Values { items })
}

// Adds a copy of the values that stand in a slot, if they are to be shown.
fn add_shown(alloc: Global, what: &What, all: &mut Vec<Values>) -> Result<(), NoMemory>
    ensures { OnOk result (map values_of all.new.items
        ≡ map values_of all.old.items ++ what_shows (what_of what.now)) }
{
    match what {
        What::Leaf(Leaf::Shown(values)) => {
            let copy = copy_values(alloc, values)?;
            all.push(copy)?;
            Ok(())
        }
        What::Leaf(Leaf::Do(_) | Leaf::Later(_)) => Ok(()),
        What::Holder(_) | What::Gone { .. } => Ok(()),
    }
}

// The same of an item by its number.
fn add_shown_at(
    alloc: Global,
    scene: &Scene,
    item: u64,
    all: &mut Vec<Values>,
) -> Result<(), NoMemory>
    ensures { OnOk result (map values_of all.new.items
        ≡ map values_of all.old.items ++ what_shows (item_what scene.now item)) }
{
    if item >= scene.slots.len() as u64 {
        return Ok(());
    }
    let slot = &scene.slots[item as usize];
    add_shown(alloc, &slot.what, all)?;
    Ok(())
}

// Whether values stand there that are to be shown.
fn is_shown(what: &What) -> bool
    ensures { result ≡ false → what_shows (what_of what.now) ≡ [] }
{
    match what {
        What::Leaf(Leaf::Shown(_)) => true,
        What::Leaf(Leaf::Do(_) | Leaf::Later(_)) => false,
        What::Holder(_) | What::Gone { .. } => false,
    }
}

// Whether values are to be shown anywhere.
fn shows_any(slots: &[Slot]) -> bool
    ensures { result ≡ false → All (λ slot. what_shows (what_of slot.what) ≡ []) slots.now }
{
    for slot in slots {
        if is_shown(&slot.what) {
            return true;
        }
    }
    false
}

/// Appends the lists of values that are shown in walk order, or changes nothing.
pub fn shown(alloc: Global, scene: &Scene, out: &mut Shows) -> Result<(), NoMemory>
    requires { IsWellKept scene.now }
    ensures ok { OnOk result (shows_of out.new
        ≡ shows_of out.old ++ shown_in (scene_of scene.now).root.entries) }
    ensures err { OnErr result (shows_of out.new ≡ shows_of out.old) }
{
    if !shows_any(scene.slots.as_slice()) {
        return Ok(());
    }
    let ids = items(alloc, scene)?;
    let mut all = Vec::new(alloc);
    for i in 0..ids.len() {
        add_shown_at(alloc, scene, ids[i], &mut all)?;
    }
    out.items.append(&mut all)?;
    Ok(())
}
