// The scene of the next state.
ghost use Rattle.std.specs.Prelude.{◌≡◌, IfOk};
ghost use Rattle.tp_scene.specs.Rest as rest;
ghost use Rattle.tp_scene.specs.Advance.{advanced};
ghost use Rattle.tp_slots.specs.Kept.{IsWellKept};
ghost use Rattle.tp_slots.specs.Read.{scene_of};
ghost use Rattle.tp_step.specs.Meaning.{AdvanceMeans, AdvanceIsSound};

use crate::next_scene::next_scene;
use std::alloc::Global;
use tp_slots::Scene;
use tp_value::NoMemory;

/// The scene of the next state: what was due from then on is due, numbered from 0, and what was shown and what has ended is gone. The scene
/// goes on. It is given up where memory is refused.
pub fn advance(alloc: Global, scene: Scene) -> Result<Scene, NoMemory>
    requires goes { rest.settled (scene_of scene) ≡ rest.goes }
    requires kept { IsWellKept scene }
    ensures scene { IfOk result (λ next. scene_of next ≡ advanced (scene_of scene)) }
    ensures kept { IfOk result IsWellKept }
    ensures means { IfOk result (AdvanceMeans scene) }
    ensures sound { IfOk result (AdvanceIsSound scene) }
{
    next_scene(alloc, scene)
}
