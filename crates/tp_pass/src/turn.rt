// Whose turn it is in a pass.
ghost use Rattle.std.specs.Prelude.{◌≡◌, ◌<◌, ◌^◌, IfOk, OnSome};
ghost use Rattle.tp_slots.specs.Kept.{IsWellKept};
ghost use Rattle.tp_slots.specs.Read.{scene_of};
ghost use Rattle.tp_pass.specs.Sweeps.{BeginsSweep, IsLiveByNumber, TakesTurn, turns_left};

use crate::sweep::Sweep;
use std::alloc::Global;
use std::collections::VecDeque;
use tp_step::{Order, Scene, choose_place, has_item};
use tp_value::NoMemory;

/// The number that the next new item takes.
pub(crate) fn next_number(scene: &Scene) -> u64
    ensures number { result ≡ (scene_of scene.now).next_item }
    ensures fits { result < 2 ^ 64 }
{
    scene.slots.len() as u64
}

// The live items by increasing number.
fn live_by_number(alloc: Global, scene: &Scene) -> Result<VecDeque<u64>, NoMemory>
    requires kept { IsWellKept scene.now }
    ensures live { IfOk result (λ live.
        IsLiveByNumber (scene_of scene.now).root.entries live.items) }
{
    let mut live = VecDeque::new(alloc);
    for item in 0..next_number(scene) {
        if has_item(scene, item) {
            live.push_back(item)?;
        }
    }
    Ok(live)
}

impl Sweep {
    /// The sweep of a pass that begins here. A seed makes a choice for it where an item is live.
    pub(crate) fn begin(alloc: Global, scene: &Scene, order: &mut Order) -> Result<Sweep, NoMemory>
        requires kept { IsWellKept scene.now }
        ensures begins { IfOk result
            (BeginsSweep (scene_of scene.now).root.entries order.old order.new) }
    {
        match order {
            Order::First => Ok(Sweep::From(0)),
            Order::Last => {
                let live = live_by_number(alloc, scene)?;
                Ok(Sweep::Backward(live))
            }
            Order::Seed(word) => {
                let mut live = live_by_number(alloc, scene)?;
                if !live.is_empty() {
                    let place = choose_place(word, live.len() as u64);
                    live.rotate_left(place as usize);
                }
                Ok(Sweep::Forward(live))
            }
        }
    }

    /// The number whose turn it is, which is then taken out.
    pub(crate) fn next(&mut self, scene: &Scene) -> Option<u64>
        ensures turn { TakesTurn (scene_of scene.now).next_item self.old self.new result }
        ensures ends { OnSome result (turns_left self.new < turns_left self.old) }
    {
        match self {
            Sweep::From(next) => {
                let item = *next;
                if item < next_number(scene) {
                    *next = item + 1;
                    Some(item)
                } else {
                    None
                }
            }
            Sweep::Forward(items) => items.pop_front(),
            Sweep::Backward(items) => items.pop_back(),
        }
    }
}
