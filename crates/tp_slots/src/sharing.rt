// New items in an item's place, together with a length that is set.
ghost use Rattle.std.specs.Prelude.{◌≡◌, [], ◌∷◌, None, IfOk, IfErr, OnOk, OnErr};
ghost use Rattle.tp_value.specs.declared.value.Shape.TheVariants.{Items};
ghost use Rattle.tp_store.specs.Answers.{IsRefusal};
ghost use Rattle.tp_store.specs.Facts.{fact};
ghost use Rattle.tp_store.specs.Known.{IsVariableOf, addition, adds};
ghost use Rattle.tp_store.specs.Stock.{contents_in};
ghost use Rattle.tp_scene.specs.Pick.{HasAdded};
ghost use Rattle.tp_slots.specs.Kept.{IsReducedTo, IsUnchanged, IsWellKept, Lives};
ghost use Rattle.tp_slots.specs.News.{bare_leaves, new_items};
ghost use Rattle.tp_slots.specs.Read.{item_what, scene_of};
ghost use Rattle.tp_slots.specs.Reductions.{IsBare, becomes_leaves};

use crate::leaves::{make_room, numbers, place_leaves};
use crate::scene::Scene;
use smallvec::SmallVec;
use std::alloc::Global;
use tp_decide::{Leaf, Leaves};
use tp_store::{AddRefusal, Store};
use tp_value::{Facts, Path};

/// A list gets this length, and items that hold no region stand in an item's place. What became live is answered, and the facts that are
/// new. Or nothing changes, in the scene or in the store.
#[tactic(auto, using(crate::proofs::Changing::unchanged_kept))]
pub fn become_sharing(
    alloc: Global,
    scene: &mut Scene,
    item: u64,
    news: Vec<Leaf>,
    target: (Path, u32),
    store: &mut Store,
) -> Result<(SmallVec<u64, 3>, Facts), AddRefusal>
    requires kept { IsWellKept scene.old }
    requires lives { Lives scene.old item }
    requires free { IsBare (item_what scene.old item) }
    requires variable { IsVariableOf store.old.variables target.0.var }
    ensures kept { IsWellKept scene.new }
    ensures scene { let reduction =
        becomes_leaves (scene_of scene.old) (bare_leaves news.items) None
        in OnOk result (IsReducedTo item reduction scene.old scene.new) }
    ensures news { IfOk result (λ made.
        made.0.items ≡ new_items (scene_of scene.old) (scene_of scene.new)) }
    ensures facts { IfOk result (λ made.
        addition store.old.facts (fact target.0 (Items target.1) ∷ []) ≡ adds made.1) }
    ensures added { IfOk result (λ made.
        HasAdded (contents_in store.old) made.1 None (contents_in store.new)) }
    ensures refused { IfErr result
        (IsRefusal (addition store.old.facts (fact target.0 (Items target.1) ∷ []))) }
    ensures scene_err { OnErr result (IsUnchanged scene.old scene.new) }
    ensures store_err { OnErr result (contents_in store.new ≡ contents_in store.old) }
{
    let (path, length) = target;
    let fresh = numbers(alloc, scene.slots.len() as u64, news.len())?;
    make_room(scene, news.len())?;
    let facts = store.add_length(&path, length)?;
    place_leaves(scene, item, None, Leaves::Many(news));
    Ok((fresh, facts))
}
