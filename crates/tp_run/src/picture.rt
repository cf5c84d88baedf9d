// The picture of a settled state.
ghost use Rattle.std.specs.Prelude.{◌≡◌, IfOk};
ghost use Rattle.std.specs.Ordering.{is_lt, is_gt};
ghost use Rattle.tp_store.specs.Known.{NoClash};
ghost use Rattle.tp_scene.specs.Advance.{shown_in};
ghost use Rattle.tp_decide.specs.Read.{shows_of};
ghost use Rattle.tp_slots.specs.Kept.{IsWellKept};
ghost use Rattle.tp_slots.specs.Read.{scene_of};
ghost use Rattle.tp_show.specs.Line.{is_before, line_parts, plain_parts};
ghost use Rattle.tp_run.specs.History.{AreGlobals};

use std::alloc::Global;
use std::cmp::Ordering;
use tp_show::{Picture, known_parts};
use tp_step::{Scene, Setting, Shows, shown};
use tp_store::Store;
use tp_value::{Fact, Facts, NoMemory};

// The order of two facts: by their variables, and of one variable by their indices, a list before its items.
fn compare(f: &Fact, g: &Fact) -> Ordering
    ensures before { is_lt result ≡ is_before f.now g.now }
    ensures after { is_gt result ≡ is_before g.now f.now }
{
    f.path
        .var
        .number
        .cmp(&g.path.var.number)
        .then_with(|| f.path.at.items.cmp(&g.path.at.items))
}

// The facts of so many globals, in order.
fn global_facts(alloc: Global, store: &Store, globals: u64) -> Result<Facts, NoMemory>
    ensures facts { IfOk result (λ facts. AreGlobals globals store.now.facts facts) }
    ensures sound { IfOk result (λ facts. NoClash store.now.facts) }
{
    let mut facts = Facts {
        items: Vec::new(alloc),
    };
    store.facts(globals, &mut facts)?;
    facts.items.sort_by(compare)?;
    Ok(facts)
}

/// The picture of the settled state that was read with this setting.
pub fn settled_picture(
    scene: &Scene,
    store: &Store,
    globals: u64,
    setting: &Setting,
    reductions: u64,
) -> Result<Picture, NoMemory>
    requires { IsWellKept scene.now }
    ensures facts { IfOk result (λ picture. AreGlobals globals store.now.facts picture.facts) }
    ensures parts { IfOk result (λ picture.
        plain_parts picture.parts ≡ line_parts picture.facts) }
    ensures shows { IfOk result (λ picture.
        shows_of picture.shows ≡ shown_in (scene_of scene.now).root.entries) }
    ensures state { IfOk result (λ picture. picture.state ≡ setting.now.state) }
    ensures reductions { IfOk result (λ picture. picture.reductions ≡ reductions) }
{
    let alloc = setting.alloc;
    let facts = global_facts(alloc, store, globals)?;
    let parts = known_parts(alloc, store, facts.items.as_slice())?;
    let mut shows = Shows {
        items: Vec::new(alloc),
    };
    shown(alloc, scene, &mut shows)?;
    Ok(Picture {
        state: setting.state,
        facts,
        parts,
        shows,
        reductions,
    })
}
