// The scene of the next state.
ghost use Rattle.std.specs.Prelude.{◌≡◌, ◌<◌, ◌++◌, ◌∷◌, [], None, Some, length, map, slice_set, IfOk, OnOk};
ghost use Rattle.tp_scene.specs.Advance.{advanced};
ghost use Rattle.tp_decide.specs.Decided.{plain_leaf};
ghost use Rattle.tp_slots.specs.Plain as plain;
ghost use Rattle.tp_slots.specs.Plain.{IsOrdered};
ghost use Rattle.tp_slots.specs.Kept.{IsWellKept};
ghost use Rattle.tp_slots.specs.Read.{all_slots, plain_holder, scene_of, slots_of, what_of};
ghost use Rattle.tp_step.specs.Successors.{AreUnlinked, IsExtended, HasRegion, full_regions, inside_ids, item_left, next_ids, number_list, one_held, one_holder_of, refilled, region_left, successor_in, successor_of, two_held, two_holder_of, unmarked_region};

use crate::own::own_items;
use std::alloc::Global;
use tp_decide::{BoundFormula, Leaf};
use tp_slots::{Holder, Region, Scene, Slot, What, copy_values, no_looks, share};
use tp_value::NoMemory;

/// What the next state has of a region: all of it as it is, or what is due of it then.
#[derive(Clone, Copy)]
enum Extent {
    Whole,
    Due,
}

/// What an item is that holds one region.
#[derive(Drop)]
enum OneHolder {
    Split(BoundFormula),
    Closed,
    Opened(BoundFormula),
}

/// What an item is that holds two regions.
#[derive(Drop)]
enum TwoHolder {
    SplitProject(BoundFormula),
    Running(BoundFormula),
}

/// What stands in the next state for an item: nothing, an item without a region, or one that holds what is left of a region, or of two.
/// The second region may be left to another extent.
#[derive(Drop)]
enum Successor {
    Nothing,
    Bare(Leaf),
    One {
        kind: OneHolder,
        held: u64,
    },
    Two {
        kind: TwoHolder,
        held: u64,
        second: u64,
        extent: Extent,
    },
}

// An item that holds what is left of one region.
fn holds_one(kind: OneHolder, held: u64) -> Successor
    ensures { successor_of result ≡ one_held (one_holder_of kind) held }
{
    Successor::One { kind, held }
}

// An item that holds what is left of two regions.
fn holds_two(kind: TwoHolder, held: u64, second: u64, extent: Extent) -> Successor
    ensures { successor_of result ≡ two_held (two_holder_of kind) held second extent }
{
    Successor::Two {
        kind,
        held,
        second,
        extent,
    }
}

// An equal item without a region.
fn copy_leaf(alloc: Global, leaf: &Leaf) -> Result<Leaf, NoMemory>
    ensures { IfOk result (λ l. plain_leaf l ≡ plain_leaf leaf.now) }
{
    match leaf {
        Leaf::Do(bound) => Ok(Leaf::Do(share(bound)?)),
        Leaf::Later(bound) => Ok(Leaf::Later(share(bound)?)),
        Leaf::Shown(values) => Ok(Leaf::Shown(copy_values(alloc, values)?)),
    }
}

// An item that holds a region, as it is, where its region is left whole.
fn whole_holder(holder: &Holder) -> Result<Successor, NoMemory>
    ensures { IfOk result (λ x.
        successor_of x ≡ successor_in Extent.Whole (plain_holder holder.now)) }
{
    match holder {
        Holder::Split { left, after } => {
            let after = share(after)?;
            Ok(holds_one(OneHolder::Split(after), *left))
        }
        Holder::SplitProject { left, outer, piece } => {
            let piece = TwoHolder::SplitProject(share(piece)?);
            Ok(holds_two(piece, *left, *outer, Extent::Whole))
        }
        Holder::Closed(closed) => Ok(holds_one(OneHolder::Closed, *closed)),
        Holder::Opened { outer, piece } => {
            let piece = share(piece)?;
            Ok(holds_one(OneHolder::Opened(piece), *outer))
        }
        Holder::Running {
            inner,
            outer,
            piece,
        } => {
            let piece = TwoHolder::Running(share(piece)?);
            Ok(holds_two(piece, *inner, *outer, Extent::Whole))
        }
    }
}

// An item as it is, where its region is left whole.
fn whole(alloc: Global, what: &What) -> Result<Successor, NoMemory>
    ensures { IfOk result (λ x. successor_of x ≡ successor_in Extent.Whole (what_of what.now)) }
{
    match what {
        What::Leaf(leaf) => {
            let leaf = copy_leaf(alloc, leaf)?;
            Ok(Successor::Bare(leaf))
        }
        What::Holder(holder) => whole_holder(holder),
        What::Gone { .. } => Ok(Successor::Nothing),
    }
}

// What is due of an item in the next state.
fn due(what: &What) -> Result<Successor, NoMemory>
    ensures { IfOk result (λ x. successor_of x ≡ successor_in Extent.Due (what_of what.now)) }
{
    match what {
        What::Leaf(Leaf::Later(bound)) => {
            let bound = share(bound)?;
            Ok(Successor::Bare(Leaf::Do(bound)))
        }
        What::Leaf(Leaf::Do(_) | Leaf::Shown(_)) => Ok(Successor::Nothing),
        What::Holder(Holder::Split { left, after }) => {
            let after = share(after)?;
            Ok(holds_one(OneHolder::Split(after), *left))
        }
        What::Holder(Holder::SplitProject { left, outer, piece }) => {
            let piece = TwoHolder::SplitProject(share(piece)?);
            Ok(holds_two(piece, *left, *outer, Extent::Whole))
        }
        What::Holder(
            Holder::Running {
                inner,
                outer,
                piece,
            },
        ) => {
            let piece = TwoHolder::SplitProject(share(piece)?);
            Ok(holds_two(piece, *inner, *outer, Extent::Due))
        }
        What::Holder(Holder::Closed(_) | Holder::Opened { .. }) => Ok(Successor::Nothing),
        What::Gone { .. } => Ok(Successor::Nothing),
    }
}

// What stands in the next state for an item, where this is left of its region.
fn leave(alloc: Global, what: &What, extent: Extent) -> Result<Successor, NoMemory>
    ensures { IfOk result (λ x. successor_of x ≡ successor_in extent (what_of what.now)) }
{
    match extent {
        Extent::Whole => whole(alloc, what),
        Extent::Due => due(what),
    }
}

// An item that holds the region.
fn holding(kind: OneHolder, region: u64) -> Holder
    ensures { plain_holder result ≡ plain.holds (one_holder_of kind) region None }
{
    match kind {
        OneHolder::Split(after) => Holder::Split {
            left: region,
            after,
        },
        OneHolder::Closed => Holder::Closed(region),
        OneHolder::Opened(piece) => Holder::Opened {
            outer: region,
            piece,
        },
    }
}

// An item that holds the two regions.
fn holding_both(kind: TwoHolder, region: u64, outer: u64) -> Holder
    ensures { plain_holder result ≡ plain.holds (two_holder_of kind) region (Some outer) }
{
    match kind {
        TwoHolder::SplitProject(piece) => Holder::SplitProject {
            left: region,
            outer,
            piece,
        },
        TwoHolder::Running(piece) => Holder::Running {
            inner: region,
            outer,
            piece,
        },
    }
}

// Adds an item to a region, and answers its number.
fn push_item(scene: &mut Scene, home: u64, what: What) -> Result<u64, NoMemory>
    ensures number { IfOk result (λ id. id ≡ length scene.old.slots.items) }
    ensures slots { OnOk result (all_slots scene.new.slots.items
        ≡ all_slots scene.old.slots.items ++ record { home = home; what = what_of what } ∷ []) }
    ensures regions { OnOk result (scene.new.regions.items ≡ scene.old.regions.items) }
    ensures unlinked { OnOk result (AreUnlinked scene.old → AreUnlinked scene.new) }
    ensures looks { OnOk result (scene.new.looks ≡ scene.old.looks) }
{
    let id = scene.slots.len() as u64;
    scene.slots.push(Slot {
        home,
        after: None,
        what,
    })?;
    Ok(id)
}

// Adds a region, which has no items yet.
fn push_region(alloc: Global, scene: &mut Scene) -> Result<(), NoMemory>
    ensures slots { OnOk result (scene.new.slots.items ≡ scene.old.slots.items) }
    ensures regions { OnOk result (full_regions scene.new.regions.items
        ≡ full_regions scene.old.regions.items ++ unmarked_region 0 [] ∷ []) }
    ensures unlinked { OnOk result (AreUnlinked scene.old → AreUnlinked scene.new) }
    ensures looks { OnOk result (scene.new.looks ≡ scene.old.looks) }
{
    scene.regions.push(Region {
        holder: 0,
        ends: false,
        goes: false,
        ends_now: false,
        goes_now: false,
        roots: Vec::new(alloc),
    })?;
    Ok(())
}

// The region at `at`, of which nothing was known, begins with these items and is held by that one.
fn fill(list: &mut [Region], at: usize, holder: u64, roots: Vec<u64>)
    requires { at < length list.old }
    ensures { full_regions list.new ≡ slice_set (full_regions list.old) at
        (refilled (full_regions list.old) at holder roots.items) }
{
    let region = &mut list[at];
    region.holder = holder;
    region.roots = roots;
}

// The same for a region of a scene.
fn fill_region(scene: &mut Scene, at: usize, holder: u64, roots: Vec<u64>)
    requires { at < length scene.old.regions.items }
    ensures slots { scene.new.slots.items ≡ scene.old.slots.items }
    ensures regions { full_regions scene.new.regions.items
        ≡ slice_set (full_regions scene.old.regions.items) at
        (refilled (full_regions scene.old.regions.items) at holder roots.items) }
    ensures unlinked { AreUnlinked scene.old → AreUnlinked scene.new }
    ensures looks { scene.new.looks ≡ scene.old.looks }
{
    fill(scene.regions.as_mut_slice(), at, holder, roots);
}

// Appends the number, if there is one.
fn push_number(list: &mut Vec<u64>, number: Option<u64>) -> Result<(), NoMemory>
    ensures { OnOk result (list.new.items ≡ list.old.items ++ number_list number) }
{
    match number {
        Some(number) => {
            list.push(number)?;
            Ok(())
        }
        None => Ok(()),
    }
}

// Adds a region with what is left of a region of the old scene. What is answered is the numbers of its own items, which it is still to get.
#[cycle(carrying)]
fn carry(
    alloc: Global,
    old: &Scene,
    region: u64,
    extent: Extent,
    new: &mut Scene,
) -> Result<Vec<u64>, NoMemory>
    requires sound { IsOrdered (slots_of old.now) }
    requires region { region < length old.now.regions.items }
    ensures added { OnOk result
        (HasRegion 0 [] (region_left old.now extent region) new.old new.new) }
    ensures roots { IfOk result (λ v. v.items
        ≡ inside_ids new.old (region_left old.now extent region)) }
    ensures unlinked { OnOk result (AreUnlinked new.old → AreUnlinked new.new) }
    ensures looks { OnOk result (new.new.looks ≡ new.old.looks) }
{
    let home = new.regions.len() as u64;
    push_region(alloc, new)?;
    let ids = own_items(alloc, old, region)?;
    let mut roots = Vec::new(alloc);
    for i in 0..ids.len() {
        let number = carry_item(alloc, old, ids[i], extent, home, new)?;
        push_number(&mut roots, number)?;
    }
    Ok(roots)
}

// The same for the first region of the item that is added next. What is answered is the region's number.
#[cycle(carrying)]
fn carry_held(
    alloc: Global,
    old: &Scene,
    region: u64,
    extent: Extent,
    new: &mut Scene,
) -> Result<u64, NoMemory>
    requires sound { IsOrdered (slots_of old.now) }
    requires region { region < length old.now.regions.items }
    ensures added { let fs = region_left old.now extent region in OnOk result
        (HasRegion (length new.new.slots.items) (inside_ids new.old fs) fs new.old new.new) }
    ensures number { IfOk result (λ r. r ≡ length new.old.regions.items) }
    ensures unlinked { OnOk result (AreUnlinked new.old → AreUnlinked new.new) }
    ensures looks { OnOk result (new.new.looks ≡ new.old.looks) }
{
    let number = new.regions.len();
    let roots = carry(alloc, old, region, extent, new)?;
    let holder = new.slots.len() as u64;
    fill_region(new, number, holder, roots);
    Ok(number as u64)
}

// The same for the second region of an item that was added.
#[cycle(carrying)]
fn carry_second(
    alloc: Global,
    old: &Scene,
    region: u64,
    extent: Extent,
    holder: u64,
    new: &mut Scene,
) -> Result<(), NoMemory>
    requires sound { IsOrdered (slots_of old.now) }
    requires region { region < length old.now.regions.items }
    ensures added { let fs = region_left old.now extent region in OnOk result
        (HasRegion holder (inside_ids new.old fs) fs new.old new.new) }
    ensures unlinked { OnOk result (AreUnlinked new.old → AreUnlinked new.new) }
    ensures looks { OnOk result (new.new.looks ≡ new.old.looks) }
{
    let number = new.regions.len();
    let roots = carry(alloc, old, region, extent, new)?;
    fill_region(new, number, holder, roots);
    Ok(())
}

// Adds to a region what stands in the next state for an item of the old scene, and answers its number.
#[cycle(carrying)]
fn carry_item(
    alloc: Global,
    old: &Scene,
    item: u64,
    extent: Extent,
    home: u64,
    new: &mut Scene,
) -> Result<Option<u64>, NoMemory>
    requires sound { IsOrdered (slots_of old.now) }
    requires item { item < length old.now.slots.items }
    ensures added { OnOk result
        (IsExtended home (item_left old.now extent item) new.old new.new) }
    ensures number { IfOk result (λ o. number_list o
        ≡ next_ids new.old (item_left old.now extent item)) }
    ensures unlinked { OnOk result (AreUnlinked new.old → AreUnlinked new.new) }
    ensures looks { OnOk result (new.new.looks ≡ new.old.looks) }
{
    let next = leave(alloc, &old.slots[item as usize].what, extent)?;
    match next {
        Successor::Nothing => Ok(None),
        Successor::Bare(leaf) => {
            let id = push_item(new, home, What::Leaf(leaf))?;
            Ok(Some(id))
        }
        Successor::One { kind, held } => {
            let region = carry_held(alloc, old, held, extent, new)?;
            let id = push_item(new, home, What::Holder(holding(kind, region)))?;
            Ok(Some(id))
        }
        Successor::Two {
            kind,
            held,
            second,
            extent: rest,
        } => {
            let region = carry_held(alloc, old, held, extent, new)?;
            let outer = new.regions.len() as u64;
            let id = push_item(new, home, What::Holder(holding_both(kind, region, outer)))?;
            carry_second(alloc, old, second, rest, id, new)?;
            Ok(Some(id))
        }
    }
}

/// The scene of the next state: what was due from then on is due, what was shown and what has ended is gone, and the piece at hand and the
/// projection round it are split. Items and regions are numbered again. It is given up where memory is refused.
pub fn next_scene(alloc: Global, scene: Scene) -> Result<Scene, NoMemory>
    requires { IsWellKept scene }
    ensures scene { IfOk result (λ next. scene_of next ≡ advanced (scene_of scene)) }
    ensures kept { IfOk result IsWellKept }
{
    let looks = no_looks(alloc)?;
    let mut next = Scene {
        slots: Vec::new(alloc),
        regions: Vec::new(alloc),
        looks,
    };
    carry_second(alloc, &scene, 0, Extent::Due, 0, &mut next)?;
    Ok(next)
}
