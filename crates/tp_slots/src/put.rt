// Putting new items in place of one.
ghost use Rattle.std.specs.Prelude.{◌≡◌, ◌≤◌, ◌<◌, ◌+◌, ◌-◌, ◌++◌, ◌^◌, false, slice_set, map, length, IfOk, OnOk, OnErr, vec_len, vec_capacity};
ghost use Rattle.std.specs.Option.{option_map};
ghost use Rattle.std.specs.List.{range_with_len};
ghost use Rattle.tp_decide.specs.Decided.{mark_of};
ghost use Rattle.tp_slots.specs.Kept.{IsUnchanged, unset};
ghost use Rattle.tp_slots.specs.Prepared.{IsPrepared};
ghost use Rattle.tp_slots.specs.Read.{afters_of, ends_of, goes_of, holders_of, slots_of, what_of, region_slots, region_holders, region_ends, region_goes, all_slots, slot_afters, whats_of, slot_whats};
ghost use Rattle.tp_slots.specs.Reductions.{AreBare};
ghost use Rattle.tp_slots.specs.Replace.{home_in, replaced};
ghost use Rattle.tp_slots.specs.Row.{AreBelow, AllBelow, begun, hold, hold_all, slots_in, stepped, held_after};
ghost use Rattle.tp_slots.specs.Threads.{afters_then, links, nothing_after};

use crate::leaves::{go, push_link, set_mark};
use crate::scene::{Holder, Region, Scene, Slot, What};
use std::alloc::Global;
use tp_decide::Side;
use tp_value::NoMemory;

/// A region that begins with these items: nothing holds it yet, and it has no marks.
pub fn new_region(roots: Vec<u64>) -> Region
    ensures { result ≡ record {
      holder = 0;
      ends = false;
      goes = false;
      ends_now = false;
      goes_now = false;
      roots = roots;
    } }
{
    Region {
        holder: 0,
        ends: false,
        goes: false,
        ends_now: false,
        goes_now: false,
        roots,
    }
}

// So many numbers, from the first on.
#[tactic(auto, using(crate::proofs::Lists::range_more))]
fn roots(alloc: Global, first: u64, count: usize) -> Result<Vec<u64>, NoMemory>
    requires { first + count < 2 ^ 64 }
    ensures { IfOk result (λ v. v.items ≡ range_with_len first count) }
{
    let mut roots = Vec::with_capacity(alloc, count)?;
    for i in 0..count {
        roots.push(first + i as u64)?;
    }
    Ok(roots)
}

// A new region with so many items, where there are any.
fn begin(alloc: Global, first: u64, count: usize) -> Result<Vec<Region>, NoMemory>
    requires { first + count < 2 ^ 64 }
    ensures regions { IfOk result (λ v. region_slots v.items ≡ begun first count) }
    ensures holders { IfOk result (λ v. region_holders v.items ≡ map (λ x. 0) (begun first count)) }
    ensures ends { IfOk result (λ v. region_ends v.items ≡ map (λ x. false) (begun first count)) }
    ensures goes { IfOk result (λ v. region_goes v.items ≡ map (λ x. false) (begun first count)) }
{
    let mut regions = Vec::new(alloc);
    if count > 0 {
        let roots = roots(alloc, first, count)?;
        regions.push(new_region(roots))?;
    }
    Ok(regions)
}

// Appends slots of a new region, or fails: nothing is visited after them.
fn push_in(list: &mut Vec<Slot>, home: u64, whats: Vec<What>) -> Result<(), NoMemory>
    ensures slots { OnOk result (all_slots list.new.items
        ≡ all_slots list.old.items ++ slots_in home (whats_of whats.items)) }
    ensures afters { OnOk result (slot_afters list.new.items
        ≡ slot_afters list.old.items ++ nothing_after (length whats.items)) }
{
    for what in whats {
        list.push(Slot {
            home,
            after: None,
            what,
        })?;
    }
    Ok(())
}

// Appends slots of one region, or fails. The first one has this number; each is visited after the one before it, and `end` after the last.
fn push_linked(
    list: &mut Vec<Slot>,
    home: u64,
    first: u64,
    end: Option<u64>,
    whats: Vec<What>,
) -> Result<(), NoMemory>
    requires { first + length whats.items < 2 ^ 64 }
    ensures slots { OnOk result (all_slots list.new.items
        ≡ all_slots list.old.items ++ slots_in home (whats_of whats.items)) }
    ensures afters { OnOk result (slot_afters list.new.items
        ≡ slot_afters list.old.items ++ links first (length whats.items) end) }
{
    let mut left = whats.len() as u64;
    let last = first + left;
    for what in whats {
        push_link(list, home, left, last, end, what)?;
        left -= 1;
    }
    Ok(())
}

// Appends what is new, for which there is room.
fn push_all<T: Drop>(list: &mut Vec<T>, mut news: Vec<T>)
    requires room { vec_len list.old + vec_len news ≤ vec_capacity list.old }
    ensures { list.new.items ≡ list.old.items ++ news.items }
{
    let Ok(()) = list.append(&mut news) else {
        unreachable!();
    };
}

// The region at `at` is held by the item.
fn hold_region(list: &mut [Region], at: u64, item: u64)
    requires { at < length list.old }
    ensures holders { region_holders list.new ≡ slice_set (region_holders list.old) at item }
    ensures slots { region_slots list.new ≡ region_slots list.old }
    ensures ends { region_ends list.new ≡ region_ends list.old }
    ensures goes { region_goes list.new ≡ region_goes list.old }
{
    list[at as usize].holder = item;
}

// The regions that stand in an item are held by it.
fn hold_what(list: &mut [Region], item: u64, what: &What)
    requires { AreBelow (length list.old) (what_of what.now) }
    ensures holders { region_holders list.new
        ≡ hold item (what_of what.now) (region_holders list.old) }
    ensures slots { region_slots list.new ≡ region_slots list.old }
    ensures ends { region_ends list.new ≡ region_ends list.old }
    ensures goes { region_goes list.new ≡ region_goes list.old }
{
    match what {
        What::Leaf(_) | What::Gone { .. } => {}
        What::Holder(holder) => match holder {
            Holder::Split { left, .. } => hold_region(list, *left, item),
            Holder::SplitProject { left, outer, .. } => {
                hold_region(list, *left, item);
                hold_region(list, *outer, item);
            }
            Holder::Closed(closed) => hold_region(list, *closed, item),
            Holder::Opened { outer, .. } => hold_region(list, *outer, item),
            Holder::Running { inner, outer, .. } => {
                hold_region(list, *inner, item);
                hold_region(list, *outer, item);
            }
        },
    }
}

// The same for new items, of which the first has this number.
fn hold_news(list: &mut [Region], first: u64, news: &[Slot])
    requires below { AllBelow (length list.old) (slot_whats news.now) }
    requires few { first + length news.now < 2 ^ 64 }
    ensures holders { region_holders list.new
        ≡ hold_all first (slot_whats news.now) (region_holders list.old) }
    ensures slots { region_slots list.new ≡ region_slots list.old }
    ensures ends { region_ends list.new ≡ region_ends list.old }
    ensures goes { region_goes list.new ≡ region_goes list.old }
{
    for i in 0..news.len() {
        hold_what(list, first + i as u64, &news[i].what);
    }
}

/// What is put in an item's place: `count` items with the numbers from `from` on; new slots, these items' among them; new regions.
#[derive(Drop)]
pub struct NewParts {
    pub from: u64,
    pub count: u64,
    pub slots: Vec<Slot>,
    pub regions: Vec<Region>,
}

// Puts the news in place of an item, whose region is marked. There is room.
fn commit(scene: &mut Scene, item: u64, side: Option<Side>, news: NewParts)
    requires item { item < length scene.old.slots.items }
    requires home { home_in (all_slots scene.old.slots.items) item
        < length scene.old.regions.items }
    requires below { AllBelow (length scene.old.regions.items + length news.regions.items)
        (slot_whats news.slots.items) }
    requires slots_room { vec_len scene.old.slots + vec_len news.slots
        ≤ vec_capacity scene.old.slots }
    requires regions_room { vec_len scene.old.regions + vec_len news.regions
        ≤ vec_capacity scene.old.regions }
    ensures slots { slots_of scene.new
        ≡ replaced (slots_of scene.old) item (range_with_len news.from news.count)
        (option_map mark_of side) (all_slots news.slots.items) (region_slots news.regions.items) }
    ensures holders { holders_of scene.new
        ≡ hold_all (length scene.old.slots.items) (slot_whats news.slots.items)
        (holders_of scene.old ++ region_holders news.regions.items) }
    ensures ends { ends_of scene.new ≡ ends_of scene.old ++ region_ends news.regions.items }
    ensures goes { goes_of scene.new ≡ goes_of scene.old ++ region_goes news.regions.items }
    ensures afters { afters_of scene.new ≡ afters_of scene.old ++ slot_afters news.slots.items }
    ensures looks { scene.new.looks ≡ scene.old.looks }
{
    let first = scene.slots.len() as u64;
    let home = go(
        scene.slots.as_mut_slice(),
        item as usize,
        news.from,
        news.count,
    );
    set_mark(scene.regions.as_mut_slice(), home as usize, side);
    push_all(&mut scene.regions, news.regions);
    hold_news(scene.regions.as_mut_slice(), first, news.slots.as_slice());
    push_all(&mut scene.slots, news.slots);
}

// Makes what is to be put in an item's place: the items `outs` there, and the items `inner` in a new region, if there are any. Then there
// is room for it. The scene stays what it is.
fn prepare(
    alloc: Global,
    scene: &mut Scene,
    item: u64,
    inner: Vec<What>,
    outs: Vec<What>,
) -> Result<NewParts, NoMemory>
    requires { item < length scene.old.slots.items }
    ensures prepared { IfOk result
        (IsPrepared item (whats_of inner.items) (whats_of outs.items) scene.new) }
    ensures same { IsUnchanged scene.old scene.new }
    ensures looks { scene.new.looks ≡ scene.old.looks }
{
    let first = scene.slots.len() as u64;
    let begun = inner.len();
    let from = first + begun as u64;
    let count = outs.len() as u64;
    let home = scene.slots[item as usize].home;
    let end = scene.slots[item as usize].after;
    let regions = begin(alloc, first, begun)?;
    let mut slots = Vec::new(alloc);
    push_in(&mut slots, scene.regions.len() as u64, inner)?;
    push_linked(&mut slots, home, from, end, outs)?;
    scene.slots.reserve(slots.len())?;
    scene.regions.reserve(regions.len())?;
    Ok(NewParts {
        from,
        count,
        slots,
        regions,
    })
}

/// The items `outs` stand in place of an item, whose region is marked, and the items `inner` in a new region, if there are any. Or nothing
/// changes.
pub fn put(
    alloc: Global,
    scene: &mut Scene,
    item: u64,
    side: Option<Side>,
    inner: Vec<What>,
    outs: Vec<What>,
) -> Result<(), NoMemory>
    requires item { item < length scene.old.slots.items }
    requires home { home_in (all_slots scene.old.slots.items) item
        < length scene.old.regions.items }
    requires bare { AreBare (whats_of inner.items) }
    requires below { AllBelow
        (length scene.old.regions.items + length (begun 0 (length inner.items)))
        (whats_of outs.items) }
    ensures slots { OnOk result
        (slots_of scene.new
        ≡ stepped (slots_of scene.old) item (option_map mark_of side) (whats_of inner.items)
        (whats_of outs.items)) }
    ensures holders { OnOk result
        (holders_of scene.new
        ≡ held_after (slots_of scene.old) (whats_of inner.items) (whats_of outs.items)
        (holders_of scene.old)) }
    ensures ends { OnOk result (ends_of scene.new
        ≡ ends_of scene.old ++ unset (length inner.items)) }
    ensures goes { OnOk result (goes_of scene.new
        ≡ goes_of scene.old ++ unset (length inner.items)) }
    ensures afters { OnOk result (afters_of scene.new
        ≡ afters_then (afters_of scene.old) (length inner.items) (length outs.items) item) }
    ensures looks { scene.new.looks ≡ scene.old.looks }
    ensures err { OnErr result (IsUnchanged scene.old scene.new) }
{
    let news = prepare(alloc, scene, item, inner, outs)?;
    commit(scene, item, side, news);
    Ok(())
}
