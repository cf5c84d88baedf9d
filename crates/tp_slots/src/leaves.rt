// Items without regions in an item's place.
ghost use Rattle.std.specs.Prelude.{◌≡◌, ◌<◌, ◌≤◌, ◌+◌, ◌-◌, ◌++◌, ◌∷◌, ◌^◌, [], length, IfOk, None, OnOk, OnErr, true, vec_len, vec_capacity};
ghost use Rattle.std.specs.Option.{option_map};
ghost use Rattle.std.specs.List.{range_with_len};
ghost use Rattle.tp_decide.specs.Decided.{mark_of};
ghost use Rattle.tp_decide.specs.NewLeaves.{leaf_list};
ghost use Rattle.tp_scene.specs.Scene as S;
ghost use Rattle.tp_slots.specs.Flags.{FlagsFollow};
ghost use Rattle.tp_slots.specs.Kept.{HasRoomFor, IsUnchanged, IsShaped, IsQuiet, IsWellKept, Lives, region_lives, IsReducedTo, flags_on};
ghost use Rattle.tp_slots.specs.Looks.{LooksFollow};
ghost use Rattle.tp_slots.specs.News.{bare_leaves, new_items};
ghost use Rattle.tp_slots.specs.Read.{afters_of, all_slots, ends_of, goes_of, holders_of, item_home, item_what, region_ends, region_goes, region_holders, region_slots, scene_of, slot_afters, slots_of, what_of};
ghost use Rattle.tp_slots.specs.Reductions.{IsBare, becomes_leaves};
ghost use Rattle.tp_slots.specs.Replace.{gone_at, home_in, marked_at};
ghost use Rattle.tp_slots.specs.Row.{slots_in, stepped};
ghost use Rattle.tp_slots.specs.Threads.{AreThreaded, afters_then, links};

use crate::flags::raise;
use crate::looks::pass_mark;
use crate::scene::{Region, Scene, Slot, What};
use smallvec::SmallVec;
use std::alloc::Global;
use tp_decide::{Leaf, Leaves, Side};
use tp_value::NoMemory;

/// So many numbers, from the first on. No step but a long list of leaves brings more than three, and these need no memory of their own.
#[tactic(auto, using(crate::proofs::Lists::range_more))]
pub fn numbers(alloc: Global, first: u64, count: usize) -> Result<SmallVec<u64, 3>, NoMemory>
    requires { first + count < 2 ^ 64 }
    ensures { IfOk result (λ v. v.items ≡ range_with_len first count) }
{
    let mut numbers = SmallVec::new(alloc);
    for i in 0..count {
        numbers.push(first + i as u64)?;
    }
    Ok(numbers)
}

/// Makes room for so many items more, or fails; the scene stays what it is.
pub fn make_room(scene: &mut Scene, count: usize) -> Result<(), NoMemory>
    ensures same { IsUnchanged scene.old scene.new }
    ensures looks { scene.new.looks ≡ scene.old.looks }
    ensures room { OnOk result (HasRoomFor count scene.new) }
{
    scene.slots.reserve(count)?;
    Ok(())
}

/// The items with the numbers from the first on stand in the place of the item at `at`. What is answered is its region.
#[tactic(auto, using(crate::proofs::Lists::gone_is, crate::proofs::Lists::home_is, crate::proofs::Lists::after_is))]
pub fn go(list: &mut [Slot], at: usize, first: u64, count: u64) -> u64
    requires { at < length list.old }
    ensures slots { all_slots list.new
        ≡ gone_at (all_slots list.old) at (range_with_len first count) }
    ensures home { result ≡ home_in (all_slots list.old) at }
    ensures afters { slot_afters list.new ≡ slot_afters list.old }
{
    let home = list[at].home;
    list[at].what = What::Gone { first, count };
    home
}

/// The region at `at` is marked.
pub fn set_mark(list: &mut [Region], at: usize, side: Option<Side>)
    requires { at < length list.old }
    ensures slots { region_slots list.new
        ≡ marked_at (region_slots list.old) at (option_map mark_of side) }
    ensures holders { region_holders list.new ≡ region_holders list.old }
    ensures ends { region_ends list.new ≡ region_ends list.old }
    ensures goes { region_goes list.new ≡ region_goes list.old }
{
    match side {
        Some(Side::Ending) => list[at].ends = true,
        Some(Side::Going) => list[at].goes = true,
        None => {}
    }
}

/// Appends a slot of a region, or fails, which it doesn't where there is room. It is the first of so many that are left, of which the last
/// one has the number before `last`. After it the next of them is visited, and `end` after the last.
pub fn push_link(
    list: &mut Vec<Slot>,
    home: u64,
    left: u64,
    last: u64,
    end: Option<u64>,
    what: What,
) -> Result<(), NoMemory>
    requires some { 0 < left }
    requires within { left ≤ last }
    ensures slots { OnOk result (all_slots list.new.items
        ≡ all_slots list.old.items ++ record { home = home; what = what_of what } ∷ []) }
    ensures afters { OnOk result
        (slot_afters list.new.items ++ links (last - (left - 1)) (left - 1) end
        ≡ slot_afters list.old.items ++ links (last - left) left end) }
    ensures len { OnOk result (vec_len list.new ≡ vec_len list.old + 1) }
    ensures capacity { vec_capacity list.old ≤ vec_capacity list.new }
    ensures full { OnErr result (vec_capacity list.old ≤ vec_len list.old) }
{
    let behind = left - 1;
    let after = if behind == 0 {
        end
    } else {
        Some(last - behind)
    };
    list.push(Slot { home, after, what })?;
    Ok(())
}

// After a step that marked the region so, the flags are set that follow from the mark.
fn raise_mark(scene: &mut Scene, region: u64, mark: Option<Side>)
    requires shape { IsShaped (slots_of scene.old) (holders_of scene.old) }
    requires region { region < length scene.old.regions.items }
    requires lives { region_lives scene.old region ≡ true }
    requires flags { (z : S.Side)
        → FlagsFollow (slots_of scene.old) (option_map mark_of mark) region z
        (flags_on z scene.old) }
    requires quiet { (z : S.Side)
        → IsQuiet (slots_of scene.old) (holders_of scene.old) (flags_on z scene.old) }
    requires threads { AreThreaded (slots_of scene.old) (afters_of scene.old) }
    requires looks { LooksFollow (slots_of scene.old) (holders_of scene.old)
        (λ z. flags_on z scene.old) scene.old.looks }
    ensures slots { slots_of scene.new ≡ slots_of scene.old }
    ensures kept { IsWellKept scene.new }
{
    match mark {
        Some(side) => {
            let top = raise(scene, region, side);
            pass_mark(&mut scene.looks, side, top);
        }
        None => {}
    }
}

// Appends a slot of one region for the first of so many leaves that are left, for which there is room, as `push_link` does.
fn push_leaf(list: &mut Vec<Slot>, home: u64, left: u64, last: u64, end: Option<u64>, leaf: Leaf)
    requires some { 0 < left }
    requires within { left ≤ last }
    requires room { vec_len list.old < vec_capacity list.old }
    ensures slots { all_slots list.new.items
        ≡ all_slots list.old.items ++ slots_in home (bare_leaves (leaf ∷ [])) }
    ensures afters { slot_afters list.new.items ++ links (last - (left - 1)) (left - 1) end
        ≡ slot_afters list.old.items ++ links (last - left) left end }
    ensures len { vec_len list.new ≡ vec_len list.old + 1 }
    ensures capacity { vec_capacity list.old ≤ vec_capacity list.new }
{
    let Ok(()) = push_link(list, home, left, last, end, What::Leaf(leaf)) else {
        unreachable!();
    };
}

// Appends slots of one region for a list of leaves, for which there is room. The first one has this number; each is visited after the one
// before it, and `end` after the last.
fn push_list(list: &mut Vec<Slot>, home: u64, first: u64, end: Option<u64>, leaves: Vec<Leaf>)
    requires few { first + length leaves.items < 2 ^ 64 }
    requires room { vec_len list.old + length leaves.items ≤ vec_capacity list.old }
    ensures slots { all_slots list.new.items
        ≡ all_slots list.old.items ++ slots_in home (bare_leaves leaves.items) }
    ensures afters { slot_afters list.new.items
        ≡ slot_afters list.old.items ++ links first (length leaves.items) end }
{
    let mut left = leaves.len() as u64;
    let last = first + left;
    for leaf in leaves {
        push_leaf(list, home, left, last, end, leaf);
        left -= 1;
    }
}

// The same for leaves as a decision has them.
fn push_leaves(list: &mut Vec<Slot>, home: u64, first: u64, end: Option<u64>, leaves: Leaves)
    requires few { first + length (leaf_list leaves) < 2 ^ 64 }
    requires room { vec_len list.old + length (leaf_list leaves) ≤ vec_capacity list.old }
    ensures slots { all_slots list.new.items
        ≡ all_slots list.old.items ++ slots_in home (bare_leaves (leaf_list leaves)) }
    ensures afters { slot_afters list.new.items
        ≡ slot_afters list.old.items ++ links first (length (leaf_list leaves)) end }
{
    match leaves {
        Leaves::None => {}
        Leaves::One(leaf) => push_leaf(list, home, 1, first + 1, end, leaf),
        Leaves::Two(one, other) => {
            push_leaf(list, home, 2, first + 2, end, one);
            push_leaf(list, home, 1, first + 2, end, other);
        }
        Leaves::Many(many) => push_list(list, home, first, end, many),
    }
}

// Leaves, for which there is room, stand in place of an item, whose region is marked. What is answered is that region. They go straight
// into the scene's slots: a list of them first would be an allocation more in each step.
fn commit_leaves(scene: &mut Scene, item: u64, side: Option<Side>, leaves: Leaves) -> u64
    requires item { item < length scene.old.slots.items }
    requires home { item_home scene.old item < length scene.old.regions.items }
    requires room { HasRoomFor (length (leaf_list leaves)) scene.old }
    ensures home { result ≡ item_home scene.old item }
    ensures slots { slots_of scene.new
        ≡ stepped (slots_of scene.old) item (option_map mark_of side) []
        (bare_leaves (leaf_list leaves)) }
    ensures holders { holders_of scene.new ≡ holders_of scene.old }
    ensures ends { ends_of scene.new ≡ ends_of scene.old }
    ensures goes { goes_of scene.new ≡ goes_of scene.old }
    ensures afters { afters_of scene.new
        ≡ afters_then (afters_of scene.old) 0 (length (leaf_list leaves)) item }
    ensures looks { scene.new.looks ≡ scene.old.looks }
{
    let first = scene.slots.len() as u64;
    let count = leaves.len() as u64;
    let end = scene.slots[item as usize].after;
    let home = go(scene.slots.as_mut_slice(), item as usize, first, count);
    set_mark(scene.regions.as_mut_slice(), home as usize, side);
    push_leaves(&mut scene.slots, home, first, end, leaves);
    home
}

/// Items that hold no region, for which there is room, stand in an item's place, and its region is marked.
pub fn place_leaves(scene: &mut Scene, item: u64, mark: Option<Side>, leaves: Leaves)
    requires kept { IsWellKept scene.old }
    requires lives { Lives scene.old item }
    requires free { IsBare (item_what scene.old item) }
    requires room { HasRoomFor (length (leaf_list leaves)) scene.old }
    ensures kept { IsWellKept scene.new }
    ensures scene { let reduction =
        becomes_leaves (scene_of scene.old) (bare_leaves (leaf_list leaves))
        (option_map mark_of mark)
        in IsReducedTo item reduction scene.old scene.new }
    ensures news { new_items (scene_of scene.old) (scene_of scene.new)
        ≡ range_with_len (length scene.old.slots.items) (length (leaf_list leaves)) }
{
    let home = commit_leaves(scene, item, mark, leaves);
    raise_mark(scene, home, mark);
}

/// Nothing stands in an item's place.
pub fn vanish(scene: &mut Scene, item: u64)
    requires kept { IsWellKept scene.old }
    requires lives { Lives scene.old item }
    requires free { IsBare (item_what scene.old item) }
    ensures kept { IsWellKept scene.new }
    ensures scene { IsReducedTo item (becomes_leaves (scene_of scene.old) [] None)
        scene.old scene.new }
    ensures news { new_items (scene_of scene.old) (scene_of scene.new) ≡ [] }
{
    place_leaves(scene, item, None, Leaves::None);
}

/// Items that hold no region stand in an item's place, and its region is marked. What became live is answered. Or nothing changes.
#[tactic(auto, using(crate::proofs::Changing::unchanged_kept))]
pub fn become_leaves(
    alloc: Global,
    scene: &mut Scene,
    item: u64,
    news: Leaves,
    mark: Option<Side>,
) -> Result<SmallVec<u64, 3>, NoMemory>
    requires kept { IsWellKept scene.old }
    requires lives { Lives scene.old item }
    requires free { IsBare (item_what scene.old item) }
    ensures kept { IsWellKept scene.new }
    ensures scene { let reduction =
        becomes_leaves (scene_of scene.old) (bare_leaves (leaf_list news)) (option_map mark_of mark)
        in OnOk result (IsReducedTo item reduction scene.old scene.new) }
    ensures news { IfOk result (λ v.
        v.items ≡ new_items (scene_of scene.old) (scene_of scene.new)) }
    ensures err { OnErr result (IsUnchanged scene.old scene.new) }
{
    let fresh = numbers(alloc, scene.slots.len() as u64, news.len())?;
    make_room(scene, news.len())?;
    place_leaves(scene, item, mark, news);
    Ok(fresh)
}
