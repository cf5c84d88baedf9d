// Which regions end or go on.
ghost use Rattle.std.specs.Prelude.{◌≡◌, ◌<◌, length, map, slice_set, true, false};
ghost use Rattle.tp_decide.specs.Decided.{mark_of};
ghost use Rattle.tp_scene.specs.Scene.{other_side};
ghost use Rattle.tp_slots.specs.Read.{afters_of, flag_of, flags_of, holders_of, slots_of, what_of, region_slots, region_holders};
ghost use Rattle.tp_slots.specs.Kept.{IsShaped, IsQuiet, IsWellKept, region_place_of, region_lives, flags_on};
ghost use Rattle.tp_slots.specs.Lives.{leads_to};
ghost use Rattle.tp_slots.specs.Flags.{AgreeBelow, FlagsAreRight, Pending, forced_in, rises_from, sinks_in};

use crate::looks::{depth_found, is_found_not_so};
use crate::scene::{Holder, Region, Scene, What};
use tp_decide::Side;

// The region is so by a mark or from within.
fn is_so(region: &Region, side: Side) -> bool
    ensures { result ≡ flag_of (mark_of side) region.now }
{
    match side {
        Side::Ending => region.ends_now,
        Side::Going => region.goes_now,
    }
}

// A region's status on that side rises through what holds the region.
fn rises(what: &What, region: u64, side: Side) -> bool
    ensures { result ≡ rises_from (what_of what.now) region (mark_of side) }
{
    let going = matches!(side, Side::Going);
    match what {
        What::Leaf(_) | What::Gone { .. } => false,
        What::Holder(holder) => match holder {
            Holder::Split { left, .. } => *left == region && going,
            Holder::SplitProject { left, .. } => *left == region && going,
            Holder::Closed(_) => false,
            Holder::Opened { outer, .. } => *outer == region,
            Holder::Running { inner, outer, .. } => (*inner == region && going) || *outer == region,
        },
    }
}

// What holds the region makes it so on that side.
fn forces(what: &What, region: u64, side: Side) -> bool
    ensures { result ≡ forced_in (what_of what.now) region (mark_of side) }
{
    match what {
        What::Holder(Holder::Closed(closed)) => *closed == region && matches!(side, Side::Ending),
        What::Holder(Holder::Split { .. } | Holder::SplitProject { .. }) => false,
        What::Holder(Holder::Opened { .. } | Holder::Running { .. }) => false,
        What::Leaf(_) | What::Gone { .. } => false,
    }
}

// What holds the region lets through what the region around it is on that side.
pub(crate) fn sinks(what: &What, region: u64, side: Side) -> bool
    ensures { result ≡ sinks_in (what_of what.now) region (mark_of side) }
{
    let ending = matches!(side, Side::Ending);
    match what {
        What::Leaf(_) | What::Gone { .. } => true,
        What::Holder(holder) => match holder {
            Holder::Split { left, .. } => *left != region || ending,
            Holder::SplitProject { left, .. } => *left != region || ending,
            Holder::Closed(closed) => *closed != region,
            Holder::Opened { .. } => true,
            Holder::Running { inner, .. } => *inner != region || ending,
        },
    }
}

// Whether what holds the region leads to it: it is live where that item is.
fn leads(what: &What, region: u64) -> bool
    ensures { result ≡ leads_to (what_of what.now) region }
{
    match what {
        What::Leaf(_) | What::Gone { .. } => false,
        What::Holder(holder) => match holder {
            Holder::Split { left, .. } => *left == region,
            Holder::SplitProject { left, .. } => *left == region,
            Holder::Closed(closed) => *closed == region,
            Holder::Opened { outer, .. } => *outer == region,
            Holder::Running { inner, outer, .. } => *inner == region || *outer == region,
        },
    }
}

// Whether the region was found to be live.
fn was_live(scene: &Scene, region: u64) -> bool
    requires kept { IsWellKept scene.now }
    requires region { region < length scene.now.regions.items }
    ensures { result ≡ true → region_lives scene.now region ≡ true }
{
    depth_found(&scene.looks, region) > 0
}

// Whether the region was found not to be so, and it still isn't.
fn was_open(scene: &Scene, region: u64, side: Side) -> bool
    requires kept { IsWellKept scene.now }
    requires region { region < length scene.now.regions.items }
    ensures { result ≡ true → (region_place_of scene.now region).is (mark_of side) ≡ false }
{
    is_found_not_so(&scene.looks, region, side)
}

/// Whether the region is live.
pub fn lives(scene: &Scene, region: u64) -> bool
    requires kept { IsWellKept scene.now }
    requires region { region < length scene.now.regions.items }
    ensures { result ≡ region_lives scene.now region }
{
    let mut at = region;
    'outward: loop {
        if at == 0 {
            return true;
        }
        if was_live(scene, at) {
            return true;
        }
        let slot = &scene.slots[scene.regions[at as usize].holder as usize];
        if !leads(&slot.what, at) {
            return false;
        }
        at = slot.home;
    }
}

/// What an item of the region sees of it on that side.
pub fn sees(scene: &Scene, region: u64, side: Side) -> bool
    requires kept { IsWellKept scene.now }
    requires region { region < length scene.now.regions.items }
    ensures { result ≡ (region_place_of scene.now region).is (mark_of side) }
{
    let mut at = region;
    'outward: loop {
        let here = &scene.regions[at as usize];
        if is_so(here, side) {
            return true;
        }
        if at == 0 {
            return false;
        }
        if was_open(scene, at, side) {
            return false;
        }
        let slot = &scene.slots[here.holder as usize];
        if forces(&slot.what, at, side) {
            return true;
        }
        if !sinks(&slot.what, at, side) {
            return false;
        }
        at = slot.home;
    }
}

// The region is so.
fn set_so(list: &mut [Region], at: usize, side: Side)
    requires { at < length list.old }
    ensures slots { region_slots list.new ≡ region_slots list.old }
    ensures holders { region_holders list.new ≡ region_holders list.old }
    ensures set { map (flag_of (mark_of side)) list.new
        ≡ slice_set (map (flag_of (mark_of side)) list.old) at true }
    ensures other { map (flag_of (other_side (mark_of side))) list.new
        ≡ map (flag_of (other_side (mark_of side))) list.old }
{
    match side {
        Side::Ending => list[at].ends_now = true,
        Side::Going => list[at].goes_now = true,
    }
}

// The same in a scene.
fn set_at(scene: &mut Scene, at: u64, side: Side)
    requires { at < length scene.old.regions.items }
    ensures slots { slots_of scene.new ≡ slots_of scene.old }
    ensures holders { holders_of scene.new ≡ holders_of scene.old }
    ensures set { flags_of (mark_of side) scene.new
        ≡ slice_set (flags_of (mark_of side) scene.old) at true }
    ensures other { flags_of (other_side (mark_of side)) scene.new
        ≡ flags_of (other_side (mark_of side)) scene.old }
    ensures afters { afters_of scene.new ≡ afters_of scene.old }
    ensures looks { scene.new.looks ≡ scene.old.looks }
{
    set_so(scene.regions.as_mut_slice(), at as usize, side);
}

/// Sets the flag of a region that has become so, and those outward, as far as it rises. Answers the number of the outermost region whose
/// flag it set, or a number above all regions' where it set none.
pub fn raise(scene: &mut Scene, region: u64, side: Side) -> u64
    requires shape { IsShaped (slots_of scene.old) (holders_of scene.old) }
    requires region { region < length scene.old.regions.items }
    requires lives { region_lives scene.old region ≡ true }
    requires pending { Pending (slots_of scene.old) (mark_of side)
        (flags_on (mark_of side) scene.old) region }
    requires quiet { IsQuiet (slots_of scene.old) (holders_of scene.old)
        (flags_on (mark_of side) scene.old) }
    ensures slots { slots_of scene.new ≡ slots_of scene.old }
    ensures holders { holders_of scene.new ≡ holders_of scene.old }
    ensures other { flags_of (other_side (mark_of side)) scene.new
        ≡ flags_of (other_side (mark_of side)) scene.old }
    ensures afters { afters_of scene.new ≡ afters_of scene.old }
    ensures looks { scene.new.looks ≡ scene.old.looks }
    ensures right { FlagsAreRight (slots_of scene.old) (mark_of side)
        (flags_on (mark_of side) scene.new) }
    ensures quiet { IsQuiet (slots_of scene.old) (holders_of scene.old)
        (flags_on (mark_of side) scene.new) }
    ensures below { AgreeBelow result
        (flags_on (mark_of side) scene.old) (flags_on (mark_of side) scene.new) }
{
    let mut at = region;
    let mut top = scene.regions.len() as u64;
    'outward: loop {
        if is_so(&scene.regions[at as usize], side) {
            return top;
        }
        set_at(scene, at, side);
        top = at;
        if at == 0 {
            return top;
        }
        let slot = &scene.slots[scene.regions[at as usize].holder as usize];
        if !rises(&slot.what, at, side) {
            return top;
        }
        at = slot.home;
    }
}
