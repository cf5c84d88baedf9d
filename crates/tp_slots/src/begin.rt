// The scene with which a run begins.
ghost use Rattle.std.specs.Prelude.{◌≡◌, IfOk};
ghost use Rattle.tp_scene.specs.Scene as S;
ghost use Rattle.tp_decide.specs.ReadBound.{env_of, formula_of};
ghost use Rattle.tp_slots.specs.Reductions.{begins_with};
ghost use Rattle.tp_slots.specs.Read.{scene_of};
ghost use Rattle.tp_slots.specs.Kept.{IsWellKept};

use crate::looks::no_looks;
use crate::put::new_region;
use crate::scene::{Scene, Slot, What};
use std::alloc::Global;
use tp_decide::{BoundFormula, Leaf};
use tp_value::NoMemory;

/// A scene with one item, whose formula is to hold from this state on.
pub fn start(alloc: Global, bound: BoundFormula) -> Result<Scene, NoMemory>
    ensures scene { IfOk result (λ s. scene_of s
        ≡ begins_with (formula_of bound) (env_of bound)) }
    ensures kept { IfOk result IsWellKept }
{
    let mut slots = Vec::new(alloc);
    slots.push(Slot {
        home: 0,
        after: None,
        what: What::Leaf(Leaf::Do(bound)),
    })?;
    let mut roots = Vec::new(alloc);
    roots.push(0)?;
    let mut regions = Vec::new(alloc);
    regions.push(new_region(roots))?;
    let looks = no_looks(alloc)?;
    Ok(Scene {
        slots,
        regions,
        looks,
    })
}
