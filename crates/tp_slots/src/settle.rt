// What a scene has come to: the first item that isn't done with this state.
ghost use Rattle.std.specs.Prelude.{◌≡◌, ◌++◌, ◌∷◌, ◌<◌, [], ℕ, List, length};
ghost use Rattle.tp_scene.specs.Scene.{root_place};
ghost use Rattle.tp_scene.specs.Rest.{unsettled_items};
ghost use Rattle.tp_slots.specs.Row.{AreBelow};
ghost use Rattle.tp_slots.specs.Settled.{first_in, first_waiting, standing, stands_by, waiting_in, what_waits};
ghost use Rattle.tp_slots.specs.Read.{afters_of, holders_of, scene_of, slots_of, what_of, item_what};
ghost use Rattle.tp_slots.specs.Kept.{IsWellKept};
ghost use Rattle.tp_slots.specs.Threads.{after_at};
ghost use Rattle.tp_slots.specs.Walk.{live_inside, live_of};

use crate::flags::sees;
use crate::scene::{Holder, Scene, What};
use tp_decide::{Leaf, Side};

// Whether what stands in a slot isn't done with this state.
fn waits(scene: &Scene, what: &What) -> bool
    requires kept { IsWellKept scene.now }
    requires below { AreBelow (length scene.now.regions.items) (what_of what.now) }
    ensures { result ≡ what_waits (slots_of scene.now) (holders_of scene.now) (what_of what.now) }
{
    match what {
        What::Leaf(Leaf::Do(_)) => true,
        What::Leaf(Leaf::Later(_) | Leaf::Shown(_)) => false,
        What::Holder(holder) => match holder {
            Holder::Split { left, .. } => !sees(scene, *left, Side::Going),
            Holder::SplitProject { left, .. } => !sees(scene, *left, Side::Going),
            Holder::Opened { outer, .. } => !sees(scene, *outer, Side::Ending),
            Holder::Closed(_) | Holder::Running { .. } => false,
        },
        What::Gone { .. } => false,
    }
}

// What is found inside of an item, or else the item itself where it waits.
fn or_itself(scene: &Scene, item: u64, what: &What, inside: Option<u64>) -> Option<u64>
    requires kept { IsWellKept scene.now }
    requires item { item < length scene.now.slots.items }
    requires slot { what_of what.now ≡ item_what scene.now item }
    ensures { (ids : List ℕ) → inside ≡ first_waiting scene.now ids
        → result ≡ first_waiting scene.now (ids ++ item ∷ []) }
{
    match inside {
        Some(found) => Some(found),
        None => { if waits(scene, what) { Some(item) } else { None } }
    }
}

// The first item that waits, of one that stands in a slot and those in its regions.
#[cycle(first)]
fn first_held(scene: &Scene, item: u64, what: &What) -> Option<u64>
    requires kept { IsWellKept scene.now }
    requires item { item < length scene.now.slots.items }
    requires slot { what_of what.now ≡ item_what scene.now item }
    ensures { result ≡ first_waiting scene.now (standing scene.now item (what_of what.now)) }
{
    match what {
        What::Leaf(_) => or_itself(scene, item, what, None),
        What::Holder(holder) => match holder {
            Holder::Split { left, .. } => {
                let inside = first_inside(scene, *left);
                or_itself(scene, item, what, inside)
            }
            Holder::SplitProject { left, .. } => {
                let inside = first_inside(scene, *left);
                or_itself(scene, item, what, inside)
            }
            Holder::Closed(closed) => {
                let inside = first_inside(scene, *closed);
                or_itself(scene, item, what, inside)
            }
            Holder::Opened { outer, .. } => {
                let inside = first_inside(scene, *outer);
                or_itself(scene, item, what, inside)
            }
            Holder::Running { inner, outer, .. } => {
                if let Some(found) = first_inside(scene, *outer) {
                    return Some(found);
                }
                let inside = first_inside(scene, *inner);
                or_itself(scene, item, what, inside)
            }
        },
        What::Gone { .. } => None,
    }
}

// The first of the items that stand in an item's place, if any do.
fn first_by(what: &What) -> Option<u64>
    ensures { result ≡ first_in (stands_by (what_of what.now)) }
{
    match what {
        What::Gone { first, count } => { if *count > 0 { Some(*first) } else { None } }
        What::Leaf(_) | What::Holder(_) => None,
    }
}

// The first item that waits, of those that an item with which a region began stands for.
#[cycle(first)]
fn first_from(scene: &Scene, root: u64) -> Option<u64>
    requires kept { IsWellKept scene.now }
    requires item { root < length scene.now.slots.items }
    requires last { after_at (afters_of scene.now) root ≡ None }
    ensures { result ≡ first_waiting scene.now (live_of (slots_of scene.now) root) }
{
    let mut at = root;
    'walk: loop {
        let slot = &scene.slots[at as usize];
        if let Some(found) = first_held(scene, at, &slot.what) {
            return Some(found);
        }
        at = match first_by(&slot.what) {
            Some(first) => first,
            None => match slot.after {
                Some(next) => next,
                None => return None,
            },
        };
    }
}

// The first item of a live region that waits, in walk order.
#[cycle(first)]
fn first_inside(scene: &Scene, region: u64) -> Option<u64>
    requires kept { IsWellKept scene.now }
    requires region { region < length scene.now.regions.items }
    ensures { result ≡ first_waiting scene.now (live_inside scene.now region) }
{
    let here = &scene.regions[region as usize];
    for i in 0..here.roots.len() {
        if let Some(found) = first_from(scene, here.roots[i]) {
            return Some(found);
        }
    }
    None
}

/// The first live item in walk order that isn't done with this state. It takes no memory: it goes from item to item, by what each knows to
/// come after it, and into regions by a recursion, which are at most 400 deep.
pub fn first_unsettled(scene: &Scene) -> Option<u64>
    requires { IsWellKept scene.now }
    ensures { result
        ≡ first_in
        (unsettled_items (scene_of scene.now).root.entries (root_place (scene_of scene.now).root)) }
{
    first_inside(scene, 0)
}
