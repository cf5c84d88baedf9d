// Ends of regions that are known by a mark.
ghost use Rattle.std.specs.Prelude.{◌≡◌, ◌≤◌, ◌<◌, ◌^◌, ◌++◌, [], true, ℕ, length, slice_set, OnOk};
ghost use Rattle.std.specs.List.{All};
ghost use Rattle.tp_lanes.specs.Planes.{flag};
ghost use Rattle.tp_slots.specs.Kept.{IsWellKept};
ghost use Rattle.tp_slots.specs.Own.{own_inside};
ghost use Rattle.tp_slots.specs.Read.{scene_of, what_of};
ghost use Rattle.tp_agenda.specs.Board.{FitsBoard};
ghost use Rattle.tp_agenda.specs.Decides.{ends_decide, is_end_of};
ghost use Rattle.tp_agenda.specs.Index.{IsFiled};
ghost use Rattle.tp_agenda.specs.Marks.{has_known_end};
ghost use Rattle.tp_agenda.specs.Outward.{LeadsThrough, WaitsAreNear, held_by_items, held_by_what, is_due, region_around};
ghost use Rattle.tp_agenda.specs.Taking.{TakesKnown, TakesRegions};
ghost use Rattle.tp_agenda.specs.Wakes.{AreOver, WakesOnly};

use crate::board::Board;
use crate::wake::{Cause, wake_by};
use std::alloc::Global;
use tp_slots::{Holder, What};
use tp_step::{Mark, Scene, Wait, mark, own_items};
use tp_value::NoMemory;

// Whether the region's end is known.
fn has_known_end(scene: &Scene, region: u64) -> bool
    requires { IsWellKept scene.now }
    ensures { result ≡ has_known_end (scene_of scene.now) region }
{
    match mark(scene, region) {
        Some(Mark::Ends) | Some(Mark::Goes) => true,
        Some(Mark::Open) | None => false,
    }
}

// Whether the region was taken.
fn is_taken(taken: &[bool], region: u64) -> bool
    ensures { result ≡ flag taken.now region }
{
    match taken.get(region as usize) {
        Some(is_so) => *is_so,
        None => false,
    }
}

// Whether the region's end is known, and what waits for it wasn't woken yet.
fn is_due(scene: &Scene, taken: &[bool], region: u64) -> bool
    requires { IsWellKept scene.now }
    ensures { result ≡ is_due scene.now taken.now region }
{
    !is_taken(taken, region) && has_known_end(scene, region)
}

// The region around a region: that in which the item stands that holds it.
fn region_around(scene: &Scene, region: u64) -> u64
    requires kept { IsWellKept scene.now }
    requires within { region < length scene.now.regions.items }
    requires inner { 0 < region }
    ensures value { result ≡ region_around scene.now region }
    ensures less { result < region }
{
    let holder = scene.regions[region as usize].holder;
    scene.slots[holder as usize].home
}

// The outermost region to which a due one leads, through due ones.
fn outermost_due(scene: &Scene, taken: &[bool], region: u64) -> u64
    requires kept { IsWellKept scene.now }
    requires due { is_due scene.now taken.now region ≡ true }
    ensures due { is_due scene.now taken.now result ≡ true }
    ensures leads { (top : ℕ) → LeadsThrough scene.now taken.now region top
        → LeadsThrough scene.now taken.now top result }
{
    let mut at = region;
    'outward: while at > 0 {
        let outer = region_around(scene, at);
        if !is_due(scene, taken, outer) {
            return at;
        }
        at = outer;
    }
    at
}

// Adds the regions that what stands in a slot holds. One that sleeps is among them, whose end isn't known.
fn add_held(left: &mut Vec<u64>, what: &What) -> Result<(), NoMemory>
    ensures { OnOk result
        (left.new.items ≡ left.old.items ++ held_by_what (what_of what.now)) }
{
    match what {
        What::Leaf(_) | What::Gone { .. } => {}
        What::Holder(holder) => match holder {
            Holder::Split { left: held, .. } => left.push(*held)?,
            Holder::SplitProject {
                left: held,
                outer,
                ..
            } => {
                left.push(*held)?;
                left.push(*outer)?;
            }
            Holder::Closed(closed) => left.push(*closed)?,
            Holder::Opened { outer, .. } => left.push(*outer)?,
            Holder::Running { inner, outer, .. } => {
                left.push(*inner)?;
                left.push(*outer)?;
            }
        },
    }
    Ok(())
}

// Adds the regions that the items of a region hold.
fn add_inner(scene: &Scene, alloc: Global, region: u64, left: &mut Vec<u64>) -> Result<(), NoMemory>
    requires kept { IsWellKept scene.now }
    requires within { region < length scene.now.regions.items }
    ensures { OnOk result (left.new.items
        ≡ left.old.items ++ held_by_items scene.now (own_inside scene.now region)) }
{
    let items = own_items(alloc, scene, region)?;
    for item in items.as_slice() {
        add_held(left, &scene.slots[*item as usize].what)?;
    }
    Ok(())
}

impl Board {
    // Makes room for a flag of each region.
    fn make_flags(&mut self, scene: &Scene) -> Result<(), NoMemory>
        ensures room { OnOk result
            (length scene.now.regions.items ≤ length self.new.taken.items) }
        ensures flags { OnOk result ((r : ℕ) → flag self.new.taken.items r
            ≡ flag self.old.taken.items r) }
        ensures rest { self.new ≡ record self.old { taken = self.new.taken } }
    {
        while self.taken.len() < scene.regions.len() {
            self.taken.push(false)?;
        }
        Ok(())
    }

    // Takes a region: each wait for its end is over.
    fn take(&mut self, waits: &[Wait], region: u64)
        requires filed { IsFiled self.old.index waits.now self.old.over.items }
        requires sizes { length self.old.over.items ≡ length waits.now }
        requires below { All (λ w. w.item < length self.old.ready) waits.now }
        requires within { region < length self.old.taken.items }
        ensures only { WakesOnly waits.now (is_end_of region) self.old.ready
            self.old.over.items self.new.ready self.new.over.items }
        ensures all { AreOver waits.now (is_end_of region) self.new.over.items }
        ensures taken { self.new.taken.items ≡ slice_set self.old.taken.items region true }
        ensures index { self.new.index ≡ self.old.index }
        ensures bound { self.new.bound ≡ self.old.bound }
    {
        self.taken[region as usize] = true;
        wake_by(
            waits,
            &self.index,
            &Cause::Marked(region),
            &mut self.ready,
            &mut self.over,
        );
    }

    // Takes a due region and the due ones inside it, as far as due ones lead: what waits for their ends is woken. Each is looked at once.
    fn wake_inside(&mut self, scene: &Scene, waits: &[Wait], region: u64) -> Result<(), NoMemory>
        requires kept { IsWellKept scene.now }
        requires fits { FitsBoard waits.now self.old }
        requires below { All (λ w. w.item < length self.old.ready) waits.now }
        requires room { length scene.now.regions.items ≤ length self.old.taken.items }
        requires due { is_due scene.now self.old.taken.items region ≡ true }
        ensures takes { OnOk result (TakesRegions scene.now waits.now [] self.old self.new) }
        ensures region { OnOk result (flag self.new.taken.items region ≡ true) }
    {
        let alloc = self.alloc;
        let mut left = Vec::new(alloc);
        left.push(region)?;
        'regions: while let Some(at) = left.pop() {
            if is_due(scene, self.taken.as_slice(), at) {
                self.take(waits, at);
                add_inner(scene, alloc, at, &mut left)?;
            }
        }
        Ok(())
    }

    /// Each wait is over for a region's end that is known, and the items of those that were open are ready, where each such end is near
    /// the marked region; nothing else is over or ready than was before. Only what stands in the outermost region is looked at whose end
    /// is known by the mark. It refuses where memory is wanted: then the board isn't to be used any more.
    pub(crate) fn wake_near(
        &mut self,
        scene: &Scene,
        waits: &[Wait],
        marked: u64,
    ) -> Result<(), NoMemory>
        requires kept { IsWellKept scene.now }
        requires fits { FitsBoard waits.now self.old }
        requires below { All (λ w. w.item < length self.old.ready) waits.now }
        requires near { WaitsAreNear scene.now self.old.taken.items marked waits.now
            self.old.over.items }
        ensures fits { OnOk result (FitsBoard waits.now self.new) }
        ensures only { OnOk result
            (WakesOnly waits.now (ends_decide (has_known_end (scene_of scene.now)))
            self.old.ready self.old.over.items self.new.ready self.new.over.items) }
        ensures all { OnOk result
            (AreOver waits.now (ends_decide (has_known_end (scene_of scene.now)))
            self.new.over.items) }
        ensures taken { OnOk result
            (TakesKnown (has_known_end (scene_of scene.now)) self.old.taken.items
            self.new.taken.items) }
    {
        if !is_due(scene, self.taken.as_slice(), marked) {
            return Ok(());
        }
        let outermost = outermost_due(scene, self.taken.as_slice(), marked);
        self.make_flags(scene)?;
        self.wake_inside(scene, waits, outermost)?;
        Ok(())
    }
}
