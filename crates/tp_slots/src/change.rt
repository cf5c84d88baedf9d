// What an item becomes.
ghost use Rattle.std.specs.Prelude.{◌≡◌, ◌<◌, length, [], ◌∷◌, IfOk, OnOk, OnErr};
ghost use Rattle.tp_meaning.specs.Syntax.{more};
ghost use Rattle.tp_scene.specs.Scene.{has};
ghost use Rattle.tp_decide.specs.ReadBound.{env_of, formula_of};
ghost use Rattle.tp_slots.specs.News.{moved_news, new_items};
ghost use Rattle.tp_slots.specs.Reductions.{CanMove, HoldsOne, IsAfter, IsBare, IsReduced, becomes_holder, becomes_opened, becomes_split, moved_inner, moved_outs};
ghost use Rattle.tp_slots.specs.Read.{plain_holder, scene_of, slots_of, what_of, whats_of, item_what};
ghost use Rattle.tp_slots.specs.Kept.{IsWellKept, IsUnchanged, Lives, IsReducedTo};

use crate::leaves::numbers;
use crate::put::put;
use crate::scene::{Holder, Scene, What};
use crate::walk::items_inside;
use smallvec::SmallVec;
use std::alloc::Global;
use std::rc::Rc;
use tp_decide::{BoundFormula, Leaf};
use tp_kernel::Formula;
use tp_value::NoMemory;

// One item, in a list.
fn one(alloc: Global, what: What) -> Result<Vec<What>, NoMemory>
    ensures { IfOk result (λ v. v.items ≡ what ∷ []) }
{
    let mut list = Vec::new(alloc);
    list.push(what)?;
    Ok(list)
}

// A region begins with one item, and what holds it stands in an item's place. What became live is answered. Or nothing changes.
#[tactic(auto, using(crate::proofs::Changing::unchanged_kept))]
fn become_holder(
    alloc: Global,
    scene: &mut Scene,
    item: u64,
    first: BoundFormula,
    holder: Holder,
) -> Result<SmallVec<u64, 3>, NoMemory>
    requires kept { IsWellKept scene.old }
    requires lives { Lives scene.old item }
    requires free { IsBare (item_what scene.old item) }
    requires one { HoldsOne (length scene.old.regions.items) (plain_holder holder) }
    ensures kept { IsWellKept scene.new }
    ensures scene { let reduction =
        becomes_holder (scene_of scene.old) (formula_of first) (env_of first) (plain_holder holder)
        in OnOk result (IsReducedTo item reduction scene.old scene.new) }
    ensures news { IfOk result (λ v.
        v.items ≡ new_items (scene_of scene.old) (scene_of scene.new)) }
    ensures err { OnErr result (IsUnchanged scene.old scene.new) }
{
    let fresh = numbers(alloc, scene.slots.len() as u64, 2)?;
    let inner = one(alloc, What::Leaf(Leaf::Do(first)))?;
    let outs = one(alloc, What::Holder(holder))?;
    put(alloc, scene, item, None, inner, outs)?;
    Ok(fresh)
}

/// A split stands in an item's place: its left region has the first formula, and the other one follows it. What became live
/// is answered. Or nothing changes.
pub fn become_split(
    alloc: Global,
    scene: &mut Scene,
    item: u64,
    first: BoundFormula,
    after: BoundFormula,
) -> Result<SmallVec<u64, 3>, NoMemory>
    requires kept { IsWellKept scene.old }
    requires lives { Lives scene.old item }
    requires free { IsBare (item_what scene.old item) }
    ensures kept { IsWellKept scene.new }
    ensures scene { let reduction =
        becomes_split (scene_of scene.old) (formula_of first) (env_of first)
        (formula_of after) (env_of after)
        in OnOk result (IsReducedTo item reduction scene.old scene.new) }
    ensures news { IfOk result (λ v.
        v.items ≡ new_items (scene_of scene.old) (scene_of scene.new)) }
    ensures err { OnErr result (IsUnchanged scene.old scene.new) }
{
    let left = scene.regions.len() as u64;
    become_holder(alloc, scene, item, first, Holder::Split { left, after })
}

/// The outer region of a projection stands in an item's place, with the piece that is to run in it. What
/// became live is answered. Or nothing changes.
pub fn become_opened(
    alloc: Global,
    scene: &mut Scene,
    item: u64,
    first: BoundFormula,
    piece: BoundFormula,
) -> Result<SmallVec<u64, 3>, NoMemory>
    requires kept { IsWellKept scene.old }
    requires lives { Lives scene.old item }
    requires free { IsBare (item_what scene.old item) }
    ensures kept { IsWellKept scene.new }
    ensures scene { let reduction =
        becomes_opened (scene_of scene.old) (formula_of first) (env_of first)
        (formula_of piece) (env_of piece)
        in OnOk result (IsReducedTo item reduction scene.old scene.new) }
    ensures news { IfOk result (λ v.
        v.items ≡ new_items (scene_of scene.old) (scene_of scene.new)) }
    ensures err { OnErr result (IsUnchanged scene.old scene.new) }
{
    let outer = scene.regions.len() as u64;
    become_holder(alloc, scene, item, first, Holder::Opened { outer, piece })
}

/// The same formula and bindings, shared.
pub fn share(bound: &BoundFormula) -> Result<BoundFormula, NoMemory>
    ensures formula { IfOk result (λ a. formula_of a ≡ formula_of bound.now) }
    ensures env { IfOk result (λ a. env_of a ≡ env_of bound.now) }
{
    let what = bound.what.clone()?;
    let env = bound.env.clone()?;
    Ok(BoundFormula { what, env })
}

// `More`, under the bindings of this formula.
fn more_under(alloc: Global, bound: &BoundFormula) -> Result<BoundFormula, NoMemory>
    ensures formula { IfOk result (λ a. formula_of a ≡ more) }
    ensures env { IfOk result (λ a. env_of a ≡ env_of bound.now) }
{
    let what = Rc::new(alloc, Formula::More)?;
    let env = bound.env.clone()?;
    Ok(BoundFormula { what, env })
}

// Two items, in a list.
fn two(alloc: Global, first: What, then: What) -> Result<Vec<What>, NoMemory>
    ensures { IfOk result (λ v. v.items ≡ first ∷ then ∷ []) }
{
    let mut list = Vec::new(alloc);
    list.push(first)?;
    list.push(then)?;
    Ok(list)
}

// The items of the new region that an item begins when it is reduced.
fn begun_items(alloc: Global, what: &What) -> Result<Vec<What>, NoMemory>
    ensures { IfOk result (λ v. whats_of v.items ≡ moved_inner (what_of what.now)) }
{
    match what {
        What::Holder(Holder::Opened { piece, .. }) => {
            let first = What::Leaf(Leaf::Do(share(piece)?));
            let more = What::Leaf(Leaf::Do(more_under(alloc, piece)?));
            two(alloc, first, more)
        }
        What::Holder(Holder::Split { .. } | Holder::SplitProject { .. }) => Ok(Vec::new(alloc)),
        What::Holder(Holder::Closed(_) | Holder::Running { .. }) => Ok(Vec::new(alloc)),
        What::Leaf(_) | What::Gone { .. } => Ok(Vec::new(alloc)),
    }
}

// The items that stand in an item's place when it is reduced, where a new region has this number.
fn next_items(alloc: Global, what: &What, region: u64) -> Result<Vec<What>, NoMemory>
    ensures { IfOk result (λ v. whats_of v.items ≡ moved_outs (what_of what.now) region) }
{
    match what {
        What::Holder(Holder::Split { left, after }) => {
            let closed = What::Holder(Holder::Closed(*left));
            let after = What::Leaf(Leaf::Do(share(after)?));
            two(alloc, closed, after)
        }
        What::Holder(Holder::SplitProject { left, outer, piece }) => {
            let closed = What::Holder(Holder::Closed(*left));
            let opened = What::Holder(Holder::Opened {
                outer: *outer,
                piece: share(piece)?,
            });
            two(alloc, closed, opened)
        }
        What::Holder(Holder::Opened { outer, piece }) => {
            let running = What::Holder(Holder::Running {
                inner: region,
                outer: *outer,
                piece: share(piece)?,
            });
            one(alloc, running)
        }
        What::Holder(Holder::Closed(_) | Holder::Running { .. }) => Ok(Vec::new(alloc)),
        What::Leaf(_) | What::Gone { .. } => Ok(Vec::new(alloc)),
    }
}

// The items that become live when an item with a region is reduced.
fn moved_items(alloc: Global, scene: &Scene, item: u64) -> Result<SmallVec<u64, 3>, NoMemory>
    requires kept { IsWellKept scene.now }
    requires item { item < length scene.now.slots.items }
    ensures { IfOk result (λ v. v.items
        ≡ moved_news (slots_of scene.now) (item_what scene.now item)) }
{
    let first = scene.slots.len() as u64;
    match &scene.slots[item as usize].what {
        What::Holder(holder) => match holder {
            Holder::Split { .. } => numbers(alloc, first, 2),
            Holder::SplitProject { outer, .. } => {
                let mut fresh = numbers(alloc, first, 1)?;
                let woken = items_inside(alloc, scene, *outer)?;
                fresh.extend_from_slice(woken.as_slice())?;
                fresh.push(first + 1)?;
                Ok(fresh)
            }
            Holder::Opened { .. } => numbers(alloc, first, 3),
            Holder::Closed(_) | Holder::Running { .. } => Ok(SmallVec::new(alloc)),
        },
        What::Leaf(_) | What::Gone { .. } => Ok(SmallVec::new(alloc)),
    }
}

/// An item with a region is reduced: a split closes, and what follows it is due; the outer region of a projection begins its next piece.
/// What became live is answered. Or nothing changes.
#[tactic(auto, using(crate::proofs::Changing::unchanged_kept))]
pub fn move_on(alloc: Global, scene: &mut Scene, item: u64) -> Result<SmallVec<u64, 3>, NoMemory>
    requires kept { IsWellKept scene.old }
    requires lives { Lives scene.old item }
    requires holder { CanMove (item_what scene.old item) }
    requires reduced { IsReduced (scene_of scene.old) item }
    ensures kept { IsWellKept scene.new }
    ensures scene { OnOk result (IsAfter item (scene_of scene.old) (scene_of scene.new)) }
    ensures news { IfOk result (λ v.
        v.items ≡ new_items (scene_of scene.old) (scene_of scene.new)) }
    ensures err { OnErr result (IsUnchanged scene.old scene.new) }
{
    let fresh = moved_items(alloc, scene, item)?;
    let what = &scene.slots[item as usize].what;
    let inner = begun_items(alloc, what)?;
    let outs = next_items(alloc, what, scene.regions.len() as u64)?;
    put(alloc, scene, item, None, inner, outs)?;
    Ok(fresh)
}
