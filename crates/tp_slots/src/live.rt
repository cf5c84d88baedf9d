// Which items are live, where they stand, and what is kept of that.
ghost use Rattle.std.specs.Prelude.{◌≡◌, ◌≤◌, ◌<◌, length, false, true};
ghost use Rattle.tp_store.specs.Known.{Contents};
ghost use Rattle.tp_scene.specs.Scene.{has};
ghost use Rattle.tp_scene.specs.Step.{region_limit};
ghost use Rattle.tp_scene.specs.Pick.{Setting, numbers_of, outcome_of};
ghost use Rattle.tp_decide.specs.Decided.{mark_of, plain_place};
ghost use Rattle.tp_slots.specs.Edit.{stands_in};
ghost use Rattle.tp_slots.specs.Picked.{IsHolding, first_held, held_step, what_step};
ghost use Rattle.tp_slots.specs.Read.{scene_of, slots_of, what_of, plain_holder, item_what, item_home, slot_of};
ghost use Rattle.tp_slots.specs.Kept.{IsWellKept, Lives, region_place_of, region_lives, PlaceFits, outcome_in, numbers_in, IsUnchanged};
ghost use Rattle.tp_slots.specs.Lives.{is_item};
ghost use Rattle.tp_slots.specs.Looks.{looked_at};

use crate::flags::{lives, sees, sinks};
use crate::looks::{depth_found, is_found_not_so, keep_depth, keep_not_so};
use crate::scene::{Holder, Scene, Slot, What};
use tp_decide::{Place, Side};

// Whether an item stands there.
fn is_kept(what: &What) -> bool
    ensures { result ≡ is_item (what_of what.now) }
{
    match what {
        What::Leaf(_) | What::Holder(_) => true,
        What::Gone { .. } => false,
    }
}

/// Whether an item with this number is live.
pub fn has_item(scene: &Scene, item: u64) -> bool
    requires { IsWellKept scene.now }
    ensures { result ≡ has item (scene_of scene.now).root.entries }
{
    if item >= scene.slots.len() as u64 {
        return false;
    }
    let slot = &scene.slots[item as usize];
    if is_kept(&slot.what) {
        lives(scene, slot.home)
    } else {
        false
    }
}

/// How deep the region is: of the root 0, and of every other region one more than of the region around it.
pub fn depth(scene: &Scene, region: u64) -> u64
    requires kept { IsWellKept scene.now }
    requires region { region < length scene.now.regions.items }
    ensures { result ≡ (region_place_of scene.now region).depth }
{
    let mut at = region;
    let mut depth = 0;
    'outward: while at != 0 {
        let known = depth_found(&scene.looks, at);
        if known > 0 {
            return depth + known;
        }
        let slot = &scene.slots[scene.regions[at as usize].holder as usize];
        at = slot.home;
        depth += 1;
    }
    depth
}

/// The place of the items of a region.
pub fn place(scene: &Scene, region: u64) -> Place
    requires kept { IsWellKept scene.now }
    requires region { region < length scene.now.regions.items }
    requires shallow { PlaceFits scene.now region }
    ensures { plain_place result ≡ region_place_of scene.now region }
{
    let depth = depth(scene, region) as u32;
    let ends = sees(scene, region, Side::Ending);
    let goes = sees(scene, region, Side::Going);
    Place {
        region,
        depth,
        ends,
        goes,
    }
}

/// The place where a live item stands.
pub fn place_of_item(scene: &Scene, item: u64) -> Place
    requires kept { IsWellKept scene.now }
    requires lives { Lives scene.now item }
    requires shallow { PlaceFits scene.now (item_home scene.now item) }
    ensures outcome { (w : Setting) (k : Contents) → outcome_in w k scene.now item
        ≡ what_step w k.facts (slots_of scene.now) (item_what scene.now item)
        (plain_place result) (numbers_in k scene.now) }
    ensures home { result.region ≡ stands_in item 0 (scene_of scene.now).root.entries }
{
    let slot = &scene.slots[item as usize];
    place(scene, slot.home)
}

// The region that an item holds, which isn't the outer one of a projection whose piece is at hand.
fn held(holder: &Holder) -> u64
    ensures { result ≡ first_held (plain_holder holder.now) }
{
    match holder {
        Holder::Split { left, .. } => *left,
        Holder::SplitProject { left, .. } => *left,
        Holder::Closed(closed) => *closed,
        Holder::Opened { outer, .. } => *outer,
        Holder::Running { inner, .. } => *inner,
    }
}

// The region at which a try of an item looks: the first one that it holds, or else that in which it stands.
fn region_tried(slot: &Slot) -> u64
    ensures { result ≡ looked_at (slot_of slot.now) }
{
    match &slot.what {
        What::Leaf(_) | What::Gone { .. } => slot.home,
        What::Holder(holder) => held(holder),
    }
}

/// The place of the items of the region that a live item holds.
pub fn place_inside(scene: &Scene, item: u64) -> Place
    requires kept { IsWellKept scene.now }
    requires lives { Lives scene.now item }
    requires holding { IsHolding (item_what scene.now item) }
    requires shallow { PlaceFits scene.now (first_held (item_what scene.now item)) }
    ensures { (w : Setting) (k : Contents) → outcome_in w k scene.now item
        ≡ held_step w k.facts (slots_of scene.now) (item_what scene.now item)
        (plain_place result) (numbers_in k scene.now) }
{
    let region = region_tried(&scene.slots[item as usize]);
    place(scene, region)
}

// Keeps how deep a live region is, and those outward, up to the first of which that is known.
fn remember_depths(scene: &mut Scene, region: u64)
    requires kept { IsWellKept scene.old }
    requires region { region < length scene.old.regions.items }
    requires lives { region_lives scene.old region ≡ true }
    ensures slots { scene.new.slots ≡ scene.old.slots }
    ensures regions { scene.new.regions ≡ scene.old.regions }
    ensures kept { IsWellKept scene.new }
{
    if depth_found(&scene.looks, region) > 0 {
        return;
    }
    let mut at = region;
    let mut depth = depth(scene, region);
    'outward: while at != 0 {
        if depth_found(&scene.looks, at) > 0 {
            return;
        }
        keep_depth(&mut scene.looks, at, depth);
        let slot = &scene.slots[scene.regions[at as usize].holder as usize];
        at = slot.home;
        depth -= 1;
    }
}

// Keeps that a region isn't so on that side, and the same of those outward, as long as each is so where the one around it is, up to the
// first of which that was found.
fn remember_not_so(scene: &mut Scene, region: u64, side: Side)
    requires kept { IsWellKept scene.old }
    requires region { region < length scene.old.regions.items }
    requires not_so { (region_place_of scene.old region).is (mark_of side) ≡ false }
    ensures slots { scene.new.slots ≡ scene.old.slots }
    ensures regions { scene.new.regions ≡ scene.old.regions }
    ensures kept { IsWellKept scene.new }
{
    let mut at = region;
    'outward: while at != 0 {
        if is_found_not_so(&scene.looks, at, side) {
            return;
        }
        keep_not_so(&mut scene.looks, at, side);
        let slot = &scene.slots[scene.regions[at as usize].holder as usize];
        if !sinks(&slot.what, at, side) {
            return;
        }
        at = slot.home;
    }
}

// Keeps what a region is on that side.
fn remember_side(scene: &mut Scene, region: u64, side: Side)
    requires kept { IsWellKept scene.old }
    requires region { region < length scene.old.regions.items }
    ensures slots { scene.new.slots ≡ scene.old.slots }
    ensures regions { scene.new.regions ≡ scene.old.regions }
    ensures kept { IsWellKept scene.new }
{
    if !is_found_not_so(&scene.looks, region, side) && !sees(scene, region, side) {
        remember_not_so(scene, region, side);
    }
}

// A way outward through so many regions is sooner walked again than it is kept.
const SHORT_WAY: u64 = 6;

// Keeps what a live region is.
fn remember_region(scene: &mut Scene, region: u64)
    requires kept { IsWellKept scene.old }
    requires region { region < length scene.old.regions.items }
    requires lives { region_lives scene.old region ≡ true }
    ensures same { IsUnchanged scene.old scene.new }
    ensures kept { IsWellKept scene.new }
{
    remember_depths(scene, region);
    if depth_found(&scene.looks, region) > SHORT_WAY {
        remember_side(scene, region, Side::Ending);
        remember_side(scene, region, Side::Going);
    }
}

/// Keeps what is found of the region at which a try of the live item looks, so that no later look has to walk outward from there. Only
/// where memory is refused it isn't kept.
pub fn remember(scene: &mut Scene, item: u64)
    requires kept { IsWellKept scene.old }
    requires lives { Lives scene.old item }
    ensures same { IsUnchanged scene.old scene.new }
    ensures kept { IsWellKept scene.new }
{
    let region = region_tried(&scene.slots[item as usize]);
    remember_region(scene, region);
}
