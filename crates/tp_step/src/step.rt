// One step of an item.
ghost use Rattle.std.specs.Prelude.{◌≡◌, ◌+◌, Bool, List, IfOk, OnErr};
ghost use Rattle.std.specs.Option.{option_map};
ghost use Rattle.tp_scene.specs.Laws.{IsSound};
ghost use Rattle.tp_decide.specs.Decided.{setting_of};
ghost use Rattle.tp_slots.specs.Read.{scene_of, item_what, what_of};
ghost use Rattle.tp_slots.specs.Kept.{IsWellKept, IsUnchanged, Lives};
ghost use Rattle.tp_step.specs.Answers.{Tries, moment_of};
ghost use Rattle.tp_step.specs.Chosen.{IsChoice, IsDueIn, kind_in};
ghost use Rattle.tp_step.specs.Meaning.{TryMeans};
ghost use Rattle.tp_step.specs.OtherItems.{TryCommutes};
ghost use Rattle.tp_step.specs.Room.{TryKeepsRoom};
ghost use Rattle.tp_store.specs.Stock.{contents_in};

use crate::answer::Tried;
use crate::carry::{carry_decision, carry_holder};
use crate::steps::Steps;
use std::sync::ledger::Ledger;
use tp_decide::{
    BoundFormula, Decision, HolderDecision, HolderKind, Leaf, Setting, decide, decide_holder,
};
use tp_slots::{Holder, Scene, What, place_inside, place_of_item, remember};
use tp_store::Store;
use tp_value::NoMemory;

/// What is to be done with an item that has no region, or with one that holds a region.
#[derive(Drop)]
enum Choice {
    Leaf(Decision),
    Holder(HolderDecision),
}

// The kind of an item that holds a region.
fn holder_kind(what: &What) -> Option<HolderKind>
    ensures { result ≡ kind_in (what_of what.now) }
{
    match what {
        What::Leaf(_) | What::Gone { .. } => None,
        What::Holder(holder) => match holder {
            Holder::Split { .. } => Some(HolderKind::Split),
            Holder::SplitProject { .. } => Some(HolderKind::SplitProject),
            Holder::Closed(_) => Some(HolderKind::Closed),
            Holder::Opened { .. } => Some(HolderKind::Opened),
            Holder::Running { .. } => Some(HolderKind::Running),
        },
    }
}

// The formula that is due, if any.
fn due(what: &What) -> Option<&BoundFormula>
    ensures { IsDueIn (what_of what.now) (option_map (λ bound. bound.now) result) }
{
    match what {
        What::Leaf(Leaf::Do(bound)) => Some(bound),
        What::Leaf(Leaf::Later(_) | Leaf::Shown(_)) => None,
        What::Holder(_) | What::Gone { .. } => None,
    }
}

// What is to be done with an item that has no region.
fn choose_for_leaf(
    scene: &Scene,
    item: u64,
    store: &Store,
    setting: &Setting,
) -> Result<Decision, NoMemory>
    requires kept { IsWellKept scene.now }
    requires lives { Lives scene.now item }
    requires sound { (kinds : List Bool)
        × IsSound (setting_of setting.now) kinds (moment_of scene.now (contents_in store.now)) }
    requires leaf { kind_in (item_what scene.now item) ≡ None }
    ensures { IfOk result (λ d.
        IsChoice (setting_of setting.now) (contents_in store.now) scene.now item (Choice.Leaf d)) }
{
    let slot = &scene.slots[item as usize];
    match due(&slot.what) {
        Some(bound) => {
            let place = place_of_item(scene, item);
            let decision = decide(setting.alloc, bound, place, store, setting)?;
            Ok(decision)
        }
        // An item without a region rests where nothing is due.
        None => Ok(Decision::Rests),
    }
}

// What is to be done with a live item.
fn choose(scene: &Scene, item: u64, store: &Store, setting: &Setting) -> Result<Choice, NoMemory>
    requires kept { IsWellKept scene.now }
    requires lives { Lives scene.now item }
    requires sound { (kinds : List Bool)
        × IsSound (setting_of setting.now) kinds (moment_of scene.now (contents_in store.now)) }
    ensures { IfOk result
        (IsChoice (setting_of setting.now) (contents_in store.now) scene.now item) }
{
    let slot = &scene.slots[item as usize];
    match holder_kind(&slot.what) {
        Some(kind) => {
            let inside = place_inside(scene, item);
            Ok(Choice::Holder(decide_holder(kind, inside)))
        }
        None => {
            let decision = choose_for_leaf(scene, item, store, setting)?;
            Ok(Choice::Leaf(decision))
        }
    }
}

// Tries the item, and counts nothing.
fn attempt(
    scene: &mut Scene,
    item: u64,
    store: &mut Store,
    setting: &Setting,
    room: u64,
) -> Result<Tried, NoMemory>
    requires kept { IsWellKept scene.old }
    requires lives { Lives scene.old item }
    requires sound { (kinds : List Bool)
        × IsSound (setting_of setting.now) kinds (moment_of scene.old (contents_in store.old)) }
    ensures answer { IfOk result
        (Tries (setting_of setting.now) room (moment_of scene.old (contents_in store.old)) item
        (moment_of scene.new (contents_in store.new))) }
    ensures kept { IsWellKept scene.new }
    ensures scene_err { OnErr result (IsUnchanged scene.old scene.new) }
    ensures store_err { OnErr result (contents_in store.new ≡ contents_in store.old) }
{
    remember(scene, item);
    match choose(scene, item, store, setting)? {
        Choice::Leaf(decision) => {
            carry_decision(setting.alloc, scene, item, decision, store, room)
        }
        Choice::Holder(decision) => carry_holder(setting.alloc, scene, item, decision, room),
    }
}

/// Tries a live item, in a state that is read with this setting, where so many reductions are left. The scene and the store change only
/// where it is reduced.
pub fn try_item<L: Ledger>(
    scene: &mut Scene,
    item: u64,
    store: &mut Store,
    setting: &Setting,
    room: u64,
    steps: &mut Steps<L>,
) -> Result<Tried, NoMemory>
    requires kept { IsWellKept scene.old }
    requires lives { Lives scene.old item }
    requires sound { (kinds : List Bool)
        × IsSound (setting_of setting.now) kinds (moment_of scene.old (contents_in store.old)) }
    ensures answer { IfOk result
        (Tries (setting_of setting.now) room (moment_of scene.old (contents_in store.old)) item
        (moment_of scene.new (contents_in store.new))) }
    ensures means { IfOk result
        (TryMeans (setting_of setting.now) (moment_of scene.old (contents_in store.old))
        (moment_of scene.new (contents_in store.new))) }
    ensures sound { IfOk result (λ tried.
        (kinds : List Bool)
        → IsSound (setting_of setting.now) kinds (moment_of scene.old (contents_in store.old))
        → IsSound (setting_of setting.now) kinds (moment_of scene.new (contents_in store.new))) }
    ensures commutes { IfOk result
        (TryCommutes (setting_of setting.now) (moment_of scene.old (contents_in store.old)) item
        (moment_of scene.new (contents_in store.new))) }
    ensures room { IfOk result
        (TryKeepsRoom (setting_of setting.now) room (moment_of scene.old (contents_in store.old))
        item) }
    ensures kept { IsWellKept scene.new }
    ensures scene_err { OnErr result (scene_of scene.new ≡ scene_of scene.old) }
    ensures store_err { OnErr result (contents_in store.new ≡ contents_in store.old) }
    ensures steps { steps.new ≡ steps.old + 1 }
{
    steps.tick();
    attempt(scene, item, store, setting, room)
}
