// The live items of a scene, and what it has come to.
ghost use Rattle.std.specs.Prelude.{◌≡◌, ◌++◌, [], OnOk, OnErr};
ghost use Rattle.tp_scene.specs.Scene.{root_place};
ghost use Rattle.tp_scene.specs.LiveItems.{live_items};
ghost use Rattle.tp_scene.specs.Rest as rest;
ghost use Rattle.tp_slots.specs.Kept.{IsWellKept};
ghost use Rattle.tp_slots.specs.Read.{scene_of};
ghost use Rattle.tp_step.specs.Answers.{settled_of};
ghost use Rattle.tp_step.specs.Meaning.{EndMeans};

use crate::answer::{ItemIds, Settled};
use std::alloc::Global;
use tp_slots::{Mark, Scene, first_unsettled, root_mark};
use tp_value::NoMemory;

/// Appends the live items in walk order, or changes nothing.
pub fn items(alloc: Global, scene: &Scene, out: &mut ItemIds) -> Result<(), NoMemory>
    requires { IsWellKept scene.now }
    ensures ok { OnOk result (out.new ≡ out.old ++ live_items (scene_of scene.now).root.entries) }
    ensures err { OnErr result (out.new ≡ out.old) }
{
    let mut ids = tp_slots::items(alloc, scene)?;
    out.items.append(&mut ids)?;
    Ok(())
}

// By the root's status.
fn by_root(scene: &Scene) -> Settled
    requires { IsWellKept scene.now }
    ensures { settled_of result ≡ rest.settled_by [] (root_place (scene_of scene.now).root) }
{
    match root_mark(scene) {
        Mark::Ends => Settled::Ends,
        Mark::Goes => Settled::Goes,
        Mark::Open => Settled::EndOpen,
    }
}

/// What the scene has come to: its first item in walk order that isn't done with this state, or else the root's status.
pub fn settled(scene: &Scene) -> Settled
    requires { IsWellKept scene.now }
    ensures settled { settled_of result ≡ rest.settled (scene_of scene.now) }
    ensures ends { EndMeans scene.now }
{
    match first_unsettled(scene) {
        Some(item) => Settled::Waiting(item),
        None => by_root(scene),
    }
}
