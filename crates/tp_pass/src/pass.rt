// The closure by passes, until one reduces nothing.
ghost use Rattle.std.specs.Prelude.{◌≡◌, ◌<◌, ◌++◌, ◌∷◌, [], true, ℕ, Bool, List, IfOk, OnErr};
ghost use Rattle.tp_scene.specs.Laws.{IsSound};
ghost use Rattle.tp_decide.specs.Decided.{setting_of};
ghost use Rattle.tp_slots.specs.Kept.{IsWellKept};
ghost use Rattle.tp_step.specs.Answers.{moment_of};
ghost use Rattle.tp_step.specs.Closes.{ClosureAnswers, Counts, LedByPicks, ending_of, is_pick};
ghost use Rattle.tp_step.specs.EveryRest.{ClosureCommutes};
ghost use Rattle.tp_step.specs.Room.{ClosureKeepsRoom};
ghost use Rattle.tp_pass.specs.Follows.{FollowsOrder};
ghost use Rattle.tp_pass.specs.Passes.{MakesPass};
ghost use Rattle.tp_store.specs.Stock.{contents_in};

use crate::sweep::Sweep;
use std::sync::ledger::Ledger;
use tp_step::{Ending, Scene, Setting, Steps, Strategy, Tally, Tried, has_item, try_item};
use tp_store::Store;
use tp_value::NoMemory;

// Whether the item was reduced.
fn is_pick(tried: &Tried) -> bool
    ensures { result ≡ is_pick (Some tried.now) }
{
    matches!(tried, Tried::Reduced(_))
}

// The end of the closure, where what came of the item ends it.
fn ending_of(tried: Tried) -> Option<Ending>
    ensures { result ≡ ending_of (Some tried) }
{
    match tried {
        Tried::Reduced(_) | Tried::Waits(_, _) | Tried::Rests => None,
        Tried::Clash(clash) => Some(Ending::Clash(clash)),
        Tried::Missing(port) => Some(Ending::Missing(port)),
        Tried::Over(limit) => Some(Ending::Over(limit)),
    }
}

// Records what came of an item, whose number was put last among the picks before it was tried: where it was reduced the number stays, else
// it goes.
fn record(tried: &Tried, left: &mut u64, tally: &mut Tally)
    requires left { is_pick (Some tried.now) ≡ true → 0 < left.old }
    ensures counts { (before : List ℕ) (item : ℕ) → tally.old.picks ≡ before ++ item ∷ []
        → Counts (is_pick (Some tried.now)) item left.old left.new before tally.new.picks }
    ensures waits { tally.new.waits ≡ tally.old.waits }
    ensures rests { tally.new.rests ≡ tally.old.rests }
{
    if is_pick(tried) {
        *left -= 1;
    } else {
        tally.picks.items.pop();
    }
}

// Tries each item once whose turn comes, where it is live.
fn pass<L: Ledger>(
    scene: &mut Scene,
    store: &mut Store,
    setting: &Setting,
    strategy: &mut Strategy,
    tally: &mut Tally,
    steps: &mut Steps<L>,
) -> Result<Option<Ending>, NoMemory>
    requires sound { (kinds : List Bool)
        × IsSound (setting_of setting.now) kinds (moment_of scene.old (contents_in store.old)) }
    requires kept { IsWellKept scene.old }
    ensures kept { IsWellKept scene.new }
    ensures made { IfOk result
        (MakesPass (setting_of setting.now) (moment_of scene.old (contents_in store.old))
        (moment_of scene.new (contents_in store.new)) strategy.old.order strategy.new.order
        strategy.old.room strategy.new.room tally.old.picks tally.new.picks) }
    ensures err { OnErr result
        (LedByPicks (setting_of setting.now) (moment_of scene.old (contents_in store.old))
        (moment_of scene.new (contents_in store.new)) strategy.old.room strategy.new.room
        tally.old.picks tally.new.picks) }
    ensures waits { tally.new.waits ≡ tally.old.waits }
    ensures rests { tally.new.rests ≡ tally.old.rests }
{
    let mut sweep = Sweep::begin(setting.alloc, scene, &mut strategy.order)?;
    'items: while let Some(item) = sweep.next(scene) {
        if !has_item(scene, item) {
            continue;
        }
        // its place is taken before it is tried, so that nothing that was done goes unrecorded
        tally.picks.items.push(item)?;
        let Ok(tried) = try_item(scene, item, store, setting, strategy.room, steps) else {
            tally.picks.items.pop();
            return Err(NoMemory);
        };
        record(&tried, &mut strategy.room, tally);
        match ending_of(tried) {
            Some(ending) => return Ok(Some(ending)),
            None => {}
        }
    }
    Ok(None)
}

/// Closes a state by passes, which are repeated until one reduces nothing. In order `First` a pass tries the live items by increasing
/// number, new ones too; in order `Last` the items that were live as it began, by decreasing number; in that of a seed those same
/// items by increasing number, from a place that the seed chooses, and round. An item that isn't live at its turn is passed over. At
/// most `strategy.room` items are reduced. Their numbers are appended to the tally's picks, in order; scene and store stand where these
/// picks lead, also where memory ends. The tally's waits and rests stay as they are.
pub fn close_by_passes<L: Ledger>(
    scene: &mut Scene,
    store: &mut Store,
    setting: &Setting,
    mut strategy: Strategy,
    tally: &mut Tally,
    steps: &mut Steps<L>,
) -> Result<Ending, NoMemory>
    requires sound { (kinds : List Bool)
        × IsSound (setting_of setting.now) kinds (moment_of scene.old (contents_in store.old)) }
    requires kept { IsWellKept scene.old }
    ensures sound { IfOk result (λ ending.
        (kinds : List Bool)
        → IsSound (setting_of setting.now) kinds (moment_of scene.old (contents_in store.old))
        → IsSound (setting_of setting.now) kinds (moment_of scene.new (contents_in store.new))) }
    ensures kept { IsWellKept scene.new }
    ensures closes { IfOk result
        (ClosureAnswers (setting_of setting.now) strategy.room
        (moment_of scene.old (contents_in store.old)) (moment_of scene.new (contents_in store.new))
        tally.old.picks tally.new.picks) }
    ensures err { OnErr result
        ((left : ℕ)
        × LedByPicks (setting_of setting.now) (moment_of scene.old (contents_in store.old))
        (moment_of scene.new (contents_in store.new)) strategy.room left tally.old.picks
        tally.new.picks) }
    ensures order { IfOk result
        (FollowsOrder (setting_of setting.now) strategy.order strategy.room
        (moment_of scene.old (contents_in store.old)) (moment_of scene.new (contents_in store.new))
        tally.old.picks tally.new.picks) }
    ensures commutes { IfOk result
        (ClosureCommutes (setting_of setting.now) strategy.room
        (moment_of scene.old (contents_in store.old)) (moment_of scene.new (contents_in store.new))
        tally.old.picks tally.new.picks) }
    ensures room { IfOk result
        (ClosureKeepsRoom (setting_of setting.now) strategy.room
        (moment_of scene.new (contents_in store.new)) tally.old.picks tally.new.picks) }
    ensures waits { tally.new.waits ≡ tally.old.waits }
    ensures rests { tally.new.rests ≡ tally.old.rests }
{
    'passes: loop {
        let before = strategy.room;
        match pass(scene, store, setting, &mut strategy, tally, steps)? {
            Some(ending) => return Ok(ending),
            None => {}
        }
        if strategy.room == before {
            return Ok(Ending::Rest);
        }
    }
}
