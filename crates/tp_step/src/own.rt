// The items that stand in a region itself.
ghost use Rattle.std.specs.Prelude.{◌≡◌, ◌<◌, ◌+◌, ◌^◌, ◌++◌, length, IfOk, OnOk};
ghost use Rattle.std.specs.List.{range_with_len};
ghost use Rattle.tp_slots.specs.Read.{slots_of, what_of, item_home, item_what};
ghost use Rattle.tp_slots.specs.Plain.{IsOrdered};
ghost use Rattle.tp_slots.specs.Cost.{cost_of};
ghost use Rattle.tp_slots.specs.Own.{own_inside, own_for};
ghost use Rattle.tp_step.specs.Listing.{AreItemsOf, backward, listing_cost, own_to_list};

use std::alloc::Global;
use tp_slots::{Scene, What};
use tp_value::NoMemory;

// Puts the items on the stack, the first of them last.
fn push_backward(stack: &mut Vec<u64>, items: &[u64]) -> Result<(), NoMemory>
    ensures { OnOk result (stack.new.items ≡ stack.old.items ++ backward items.now) }
{
    let mut left = items.len();
    while left > 0 {
        left -= 1;
        stack.push(items[left])?;
    }
    Ok(())
}

// The same for so many items from the first on.
fn push_numbers(stack: &mut Vec<u64>, first: u64, count: u64) -> Result<(), NoMemory>
    requires { first + count < 2 ^ 64 }
    ensures { OnOk result (stack.new.items
        ≡ stack.old.items ++ backward (range_with_len first count)) }
{
    let mut left = count;
    while left > 0 {
        left -= 1;
        stack.push(first + left)?;
    }
    Ok(())
}

// Lists an item, or puts on the stack those that stand in its place.
fn list_what(
    scene: &Scene,
    stack: &mut Vec<u64>,
    out: &mut Vec<u64>,
    item: u64,
    what: &What,
) -> Result<(), NoMemory>
    requires sound { IsOrdered (slots_of scene.now) }
    requires within { item < length scene.now.slots.items }
    requires slot { what_of what.now ≡ item_what scene.now item }
    requires items { AreItemsOf scene.now (item_home scene.now item) stack.old.items }
    ensures cost { OnOk result (listing_cost scene.now stack.new.items
        < cost_of (slots_of scene.now) item + listing_cost scene.now stack.old.items) }
    ensures listed { OnOk result
        (out.new.items ++ own_to_list scene.now stack.new.items
        ≡ out.old.items
        ++ (own_for (slots_of scene.now) item ++ own_to_list scene.now stack.old.items)) }
    ensures items { OnOk result
        (AreItemsOf scene.now (item_home scene.now item) stack.new.items) }
{
    match what {
        What::Gone { first, count } => {
            push_numbers(stack, *first, *count)?;
            Ok(())
        }
        What::Leaf(_) | What::Holder(_) => {
            out.push(item)?;
            Ok(())
        }
    }
}

/// The items of a region in order, without those inside of them. It refuses where memory is wanted.
pub fn own_items(alloc: Global, scene: &Scene, region: u64) -> Result<Vec<u64>, NoMemory>
    requires sound { IsOrdered (slots_of scene.now) }
    requires region { region < length scene.now.regions.items }
    ensures { IfOk result (λ v. v.items ≡ own_inside scene.now region) }
{
    let mut out = Vec::new(alloc);
    let mut stack = Vec::new(alloc);
    push_backward(&mut stack, scene.regions[region as usize].roots.as_slice())?;
    'list: loop {
        match stack.pop() {
            Some(item) => {
                let what = &scene.slots[item as usize].what;
                list_what(scene, &mut stack, &mut out, item, what)?;
            }
            None => return Ok(out),
        }
    }
}
