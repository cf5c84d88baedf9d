// The first scene of a run.
ghost use Rattle.std.specs.Prelude.{◌≡◌, IfOk};
ghost use Rattle.tp_kernel.specs.Read.{formula_tree};
ghost use Rattle.tp_scene.specs.Beginning.{started};
ghost use Rattle.tp_slots.specs.Kept.{IsWellKept};
ghost use Rattle.tp_slots.specs.Read.{scene_of};
ghost use Rattle.tp_step.specs.Meaning.{StandsForAllOf, StartIsSound};

use std::alloc::Global;
use std::rc::Rc;
use tp_decide::BoundFormula;
use tp_kernel::{Env, Formula};
use tp_slots::Scene;
use tp_value::NoMemory;

/// A scene whose one item is the formula, with no name bound.
pub fn start(alloc: Global, main: &Rc<Formula>) -> Result<Scene, NoMemory>
    ensures scene { IfOk result (λ scene. scene_of scene ≡ started (formula_tree main.now.value)) }
    ensures kept { IfOk result IsWellKept }
    ensures means { IfOk result (StandsForAllOf (formula_tree main.now.value)) }
    ensures sound { IfOk result (StartIsSound (formula_tree main.now.value)) }
{
    let what = main.clone()?;
    let env = Env {
        items: Vec::new(alloc),
    };
    let env = Rc::new(alloc, env)?;
    tp_slots::start(alloc, BoundFormula { what, env })
}
