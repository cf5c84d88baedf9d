// Walking the live items.
ghost use Rattle.std.specs.Prelude.{suc, ◌+◌, ◌≡◌, ◌<◌, ◌^◌, ◌++◌, ◌∷◌, length, IfOk, OnOk};
ghost use Rattle.std.specs.List.{range_with_len};
ghost use Rattle.tp_scene.specs.LiveItems.{live_items};
ghost use Rattle.tp_slots.specs.Read.{scene_of, slots_of, what_of, item_what};
ghost use Rattle.tp_slots.specs.Kept.{IsWellKept};
ghost use Rattle.tp_slots.specs.Cost.{cost_of, cost_at, task_cost, left_cost};
ghost use Rattle.tp_slots.specs.Walk.{live_of, told_by, visits, IsTask, AreTasks, left_todo, live_inside};
ghost use Rattle.tp_slots.specs.Plain.{IsOrdered};

use crate::scene::{Holder, Scene, What};
use std::alloc::Global;
use tp_value::NoMemory;

/// A task of a walk: to visit an item, or to tell its number.
#[derive(Drop)]
enum WalkTask {
    Visit(u64),
    Tell(u64),
}

// Adds tasks to visit the items, the first of them last.
fn push_visits(stack: &mut Vec<WalkTask>, items: &[u64]) -> Result<(), NoMemory>
    ensures { OnOk result (stack.new.items ≡ stack.old.items ++ visits items.now) }
{
    let mut left = items.len();
    while left > 0 {
        left -= 1;
        stack.push(WalkTask::Visit(items[left]))?;
    }
    Ok(())
}

// The same for so many items from the first on.
fn push_range(stack: &mut Vec<WalkTask>, first: u64, count: u64) -> Result<(), NoMemory>
    requires { first + count < 2 ^ 64 }
    ensures { OnOk result (stack.new.items
        ≡ stack.old.items ++ visits (range_with_len first count)) }
{
    let mut left = count;
    while left > 0 {
        left -= 1;
        stack.push(WalkTask::Visit(first + left))?;
    }
    Ok(())
}

// Adds tasks to visit the items of a region that an item holds, and then to tell the item.
fn enter(scene: &Scene, stack: &mut Vec<WalkTask>, item: u64, region: u64) -> Result<(), NoMemory>
    requires sound { IsOrdered (slots_of scene.now) }
    requires within { region < length scene.now.regions.items }
    requires tasks { AreTasks (slots_of scene.now) stack.old.items }
    ensures cost { OnOk result (left_cost scene.now stack.new.items
        ≡ suc (cost_at (slots_of scene.now) region + left_cost scene.now stack.old.items)) }
    ensures told { OnOk result (left_todo scene.now stack.new.items
        ≡ live_inside scene.now region ++ item ∷ left_todo scene.now stack.old.items) }
    ensures tasks { OnOk result (AreTasks (slots_of scene.now) stack.new.items) }
{
    stack.push(WalkTask::Tell(item))?;
    push_visits(stack, scene.regions[region as usize].roots.as_slice())?;
    Ok(())
}

// The same for a holder with a second region that is live: its items come first.
fn enter_both(
    scene: &Scene,
    stack: &mut Vec<WalkTask>,
    item: u64,
    inner: u64,
    outer: u64,
) -> Result<(), NoMemory>
    requires sound { IsOrdered (slots_of scene.now) }
    requires inner { inner < length scene.now.regions.items }
    requires outer { outer < length scene.now.regions.items }
    requires tasks { AreTasks (slots_of scene.now) stack.old.items }
    ensures cost { OnOk result
        (left_cost scene.now stack.new.items
        ≡ suc
        (cost_at (slots_of scene.now) inner + cost_at (slots_of scene.now) outer
        + left_cost scene.now stack.old.items)) }
    ensures told { OnOk result
        (left_todo scene.now stack.new.items
        ≡ (live_inside scene.now outer ++ live_inside scene.now inner)
        ++ item ∷ left_todo scene.now stack.old.items) }
    ensures tasks { OnOk result (AreTasks (slots_of scene.now) stack.new.items) }
{
    enter(scene, stack, item, inner)?;
    push_visits(stack, scene.regions[outer as usize].roots.as_slice())?;
    Ok(())
}

// Visits what stands in an item's slot.
fn visit_what(
    scene: &Scene,
    stack: &mut Vec<WalkTask>,
    out: &mut Vec<u64>,
    item: u64,
    what: &What,
) -> Result<(), NoMemory>
    requires sound { IsOrdered (slots_of scene.now) }
    requires within { item < length scene.now.slots.items }
    requires slot { what_of what.now ≡ (item_what scene.now item) }
    requires tasks { AreTasks (slots_of scene.now) stack.old.items }
    ensures cost { OnOk result (left_cost scene.now stack.new.items
        < cost_of (slots_of scene.now) item + left_cost scene.now stack.old.items) }
    ensures told { OnOk result
        (out.new.items ++ left_todo scene.now stack.new.items
        ≡ out.old.items
        ++ (live_of (slots_of scene.now) item ++ left_todo scene.now stack.old.items)) }
    ensures tasks { OnOk result (AreTasks (slots_of scene.now) stack.new.items) }
{
    match what {
        What::Leaf(_) => {
            out.push(item)?;
            Ok(())
        }
        What::Holder(holder) => match holder {
            Holder::Split { left, .. } => enter(scene, stack, item, *left),
            Holder::SplitProject { left, .. } => enter(scene, stack, item, *left),
            Holder::Closed(closed) => enter(scene, stack, item, *closed),
            Holder::Opened { outer, .. } => enter(scene, stack, item, *outer),
            Holder::Running { inner, outer, .. } => {
                enter_both(scene, stack, item, *inner, *outer)
            }
        },
        What::Gone { first, count } => {
            push_range(stack, *first, *count)?;
            Ok(())
        }
    }
}

// Does one task.
fn perform(
    scene: &Scene,
    stack: &mut Vec<WalkTask>,
    out: &mut Vec<u64>,
    task: WalkTask,
) -> Result<(), NoMemory>
    requires sound { IsOrdered (slots_of scene.now) }
    requires task { IsTask (slots_of scene.now) task }
    requires tasks { AreTasks (slots_of scene.now) stack.old.items }
    ensures cost { OnOk result (left_cost scene.now stack.new.items
        < task_cost (slots_of scene.now) task + left_cost scene.now stack.old.items) }
    ensures told { OnOk result
        (out.new.items ++ left_todo scene.now stack.new.items
        ≡ out.old.items
        ++ (told_by (slots_of scene.now) task ++ left_todo scene.now stack.old.items)) }
    ensures tasks { OnOk result (AreTasks (slots_of scene.now) stack.new.items) }
{
    match task {
        WalkTask::Visit(item) => {
            visit_what(scene, stack, out, item, &scene.slots[item as usize].what)?;
            Ok(())
        }
        WalkTask::Tell(item) => {
            out.push(item)?;
            Ok(())
        }
    }
}

/// The live items of a live region in walk order, those that they hold among them.
pub fn items_inside(alloc: Global, scene: &Scene, region: u64) -> Result<Vec<u64>, NoMemory>
    requires kept { IsWellKept scene.now }
    requires region { region < length scene.now.regions.items }
    ensures { IfOk result (λ v. v.items ≡ live_inside scene.now region) }
{
    let mut out = Vec::new(alloc);
    let mut stack = Vec::new(alloc);
    push_visits(&mut stack, scene.regions[region as usize].roots.as_slice())?;
    'walk: loop {
        match stack.pop() {
            Some(task) => perform(scene, &mut stack, &mut out, task)?,
            None => return Ok(out),
        }
    }
}

/// The live items in walk order.
pub fn items(alloc: Global, scene: &Scene) -> Result<Vec<u64>, NoMemory>
    requires { IsWellKept scene.now }
    ensures { IfOk result (λ v. v.items ≡ live_items (scene_of scene.now).root.entries) }
{
    items_inside(alloc, scene, 0)
}
