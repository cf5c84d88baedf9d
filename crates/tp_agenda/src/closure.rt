// The closure by an agenda.
ghost use Rattle.std.specs.Prelude.{◌≡◌, ◌<◌, ◌++◌, ◌∷◌, [], true, ℕ, Bool, List, Some, IfOk, OnErr};
ghost use Rattle.tp_scene.specs.Laws.{IsSound};
ghost use Rattle.tp_decide.specs.Decided.{setting_of};
ghost use Rattle.tp_slots.specs.Kept.{IsWellKept};
ghost use Rattle.tp_slots.specs.Read.{scene_of};
ghost use Rattle.tp_step.specs.Answers.{moment_of};
ghost use Rattle.tp_step.specs.Closes.{ClosureAnswers, Counts, LedByPicks, is_pick};
ghost use Rattle.tp_step.specs.EveryRest.{ClosureCommutes};
ghost use Rattle.tp_step.specs.Room.{ClosureKeepsRoom};
ghost use Rattle.tp_agenda.specs.Agenda.{FollowsAgenda, IsThrifty};
ghost use Rattle.tp_agenda.specs.Counted.{ClosesWith, CountsTries, WaitedForUndecided};
ghost use Rattle.tp_agenda.specs.Board.{FitsBoard, HasFlags, TakenAreKnown};
ghost use Rattle.tp_agenda.specs.Held.{IsHeld, nothing_due};
ghost use Rattle.tp_store.specs.Stock.{contents_in};

use crate::board::Board;
use std::sync::ledger::Ledger;
use tp_step::{Ending, Scene, Setting, Steps, Strategy, Tally, Tried, try_item};
use tp_store::Store;
use tp_value::NoMemory;

// Counts an item that was tried, whose number was put last among the picks before: where it was reduced the number stays, else it goes.
fn count_pick(tried: &Tried, left: &mut u64, tally: &mut Tally)
    requires left { is_pick (Some tried.now) ≡ true → 0 < left.old }
    ensures counts { (before : List ℕ) (item : ℕ) → tally.old.picks ≡ before ++ item ∷ []
        → Counts (is_pick (Some tried.now)) item left.old left.new before tally.new.picks }
    ensures waits { tally.new.waits ≡ tally.old.waits }
    ensures rests { tally.new.rests ≡ tally.old.rests }
{
    if matches!(tried, Tried::Reduced(_)) {
        *left -= 1;
    } else {
        tally.picks.items.pop();
    }
}

/// The strategy of a closure, and its board.
#[derive(Drop)]
struct Agenda {
    strategy: Strategy,
    board: Board,
}

// Tries the ready items, until none is left or one ends the closure.
fn try_ready<L: Ledger>(
    scene: &mut Scene,
    store: &mut Store,
    setting: &Setting,
    agenda: &mut Agenda,
    tally: &mut Tally,
    steps: &mut Steps<L>,
) -> Result<Ending, NoMemory>
    requires sound { (kinds : List Bool)
        × IsSound (setting_of setting.now) kinds (moment_of scene.old (contents_in store.old)) }
    requires kept { IsWellKept scene.old }
    requires no_waits { tally.old.waits.items.items ≡ [] }
    requires no_rests { tally.old.rests ≡ [] }
    requires fits { FitsBoard [] agenda.old.board }
    requires flags { HasFlags (scene_of scene.old) agenda.old.board }
    requires taken { TakenAreKnown (scene_of scene.old) agenda.old.board }
    requires held { IsHeld (setting_of setting.now) (moment_of scene.old (contents_in store.old))
        [] [] agenda.old.board.over.items agenda.old.board.ready nothing_due }
    ensures kept { IsWellKept scene.new }
    ensures closes { IfOk result
        (ClosesWith (setting_of setting.now) (moment_of scene.old (contents_in store.old))
        (moment_of scene.new (contents_in store.new)) agenda.old.strategy.order
        agenda.old.strategy.room tally.old.picks tally.new.picks tally.new.waits.items.items
        tally.new.rests steps.old steps.new) }
    ensures err { OnErr result
        ((left : ℕ)
        × LedByPicks (setting_of setting.now) (moment_of scene.old (contents_in store.old))
        (moment_of scene.new (contents_in store.new)) agenda.old.strategy.room left tally.old.picks
        tally.new.picks) }
{
    'tries: while let Some(item) = agenda.board.next(&mut agenda.strategy.order) {
        // its place is taken before it is tried, so that nothing that was done goes unrecorded
        tally.picks.items.push(item)?;
        let Ok(tried) = try_item(scene, item, store, setting, agenda.strategy.room, steps) else {
            tally.picks.items.pop();
            return Err(NoMemory);
        };
        count_pick(&tried, &mut agenda.strategy.room, tally);
        match agenda.board.take_in(scene, item, tried, tally)? {
            Some(ending) => return Ok(ending),
            None => {}
        }
    }
    Ok(Ending::Rest)
}

/// Closes a state by an agenda of the items that are ready: an item is tried when it is new, and again when a cell is decided that it
/// waits for; one that rests isn't tried again. So no try is repeated in vain. Of the ready items order `First` tries the one with the
/// least number, order `Last` the one with the greatest, and a seed the one at the place that it chooses among them by number. At most
/// `strategy.room` items are reduced. Their numbers are appended to the tally's picks, in order, and each wait and each rest is recorded
/// in the tally, which has none of these before; scene and store stand where these picks lead, also where memory ends.
pub fn close_by_agenda<L: Ledger>(
    scene: &mut Scene,
    store: &mut Store,
    setting: &Setting,
    strategy: Strategy,
    tally: &mut Tally,
    steps: &mut Steps<L>,
) -> Result<Ending, NoMemory>
    requires sound { (kinds : List Bool)
        × IsSound (setting_of setting.now) kinds (moment_of scene.old (contents_in store.old)) }
    requires kept { IsWellKept scene.old }
    requires no_waits { tally.old.waits.items.items ≡ [] }
    requires no_rests { tally.old.rests ≡ [] }
    ensures sound { IfOk result (λ ending.
        (kinds : List Bool)
        → IsSound (setting_of setting.now) kinds (moment_of scene.old (contents_in store.old))
        → IsSound (setting_of setting.now) kinds (moment_of scene.new (contents_in store.new))) }
    ensures kept { IsWellKept scene.new }
    ensures closes { IfOk result
        (ClosureAnswers (setting_of setting.now) strategy.room
        (moment_of scene.old (contents_in store.old)) (moment_of scene.new (contents_in store.new))
        tally.old.picks tally.new.picks) }
    ensures err { OnErr result
        ((left : ℕ)
        × LedByPicks (setting_of setting.now) (moment_of scene.old (contents_in store.old))
        (moment_of scene.new (contents_in store.new)) strategy.room left tally.old.picks
        tally.new.picks) }
    ensures order { IfOk result
        (FollowsAgenda (setting_of setting.now) strategy.order strategy.room
        (moment_of scene.old (contents_in store.old)) (moment_of scene.new (contents_in store.new))
        tally.old.picks tally.new.picks tally.new.waits.items.items tally.new.rests) }
    ensures commutes { IfOk result
        (ClosureCommutes (setting_of setting.now) strategy.room
        (moment_of scene.old (contents_in store.old)) (moment_of scene.new (contents_in store.new))
        tally.old.picks tally.new.picks) }
    ensures room { IfOk result
        (ClosureKeepsRoom (setting_of setting.now) strategy.room
        (moment_of scene.new (contents_in store.new)) tally.old.picks tally.new.picks) }
    ensures thrifty { IfOk result (λ ending.
        IsThrifty tally.new.waits.items.items tally.new.rests) }
    ensures undecided { IfOk result (λ ending.
        WaitedForUndecided (setting_of setting.now) (moment_of scene.old (contents_in store.old))
        tally.old.picks tally.new.picks tally.new.waits.items.items) }
    ensures steps { IfOk result
        (CountsTries steps.old steps.new tally.old.picks tally.new.picks
        tally.new.waits.items.items tally.new.rests) }
{
    let board = Board::begin(setting.alloc, scene)?;
    let mut agenda = Agenda { strategy, board };
    try_ready(scene, store, setting, &mut agenda, tally, steps)
}
