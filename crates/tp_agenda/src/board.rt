// What a closure by an agenda keeps beside its tally.
ghost use Rattle.std.specs.Prelude.{◌≡◌, ◌↔◌, ◌≤◌, ◌<◌, ◌^◌, ◌++◌, ◌∷◌, [], ℕ, true, false, None, Some, length, slice_set, IfOk, OnOk};
ghost use Rattle.std.specs.List.{All};
ghost use Rattle.tp_lanes.specs.Planes.{flag};
ghost use Rattle.tp_slots.specs.Kept.{IsUnchanged, IsWellKept};
ghost use Rattle.tp_slots.specs.Read.{scene_of, what_of};
ghost use Rattle.tp_step.specs.declared.answer.Tried.TheVariants.{Reduced};
ghost use Rattle.tp_agenda.specs.Agenda.{TriesNext};
ghost use Rattle.tp_agenda.specs.Board.{FitsBoard, HasFlags, NewsAreNear, TakesIn, TakesNews, facts_decide, moving_among};
ghost use Rattle.tp_agenda.specs.Held.{AddsReady};
ghost use Rattle.tp_agenda.specs.Index.{IsFiled};
ghost use Rattle.tp_agenda.specs.Ready.{may_move, what_moves};
ghost use Rattle.tp_agenda.specs.Wakes.{AreOver, WakesOnly};

use crate::index::{Index, file, no_waits};
use crate::wake::{Cause, wake_by};
use std::alloc::Global;
use tp_decide::Leaf;
use tp_lanes::Plane;
use tp_slots::{Holder, What, remember};
use tp_step::{Ending, News, Order, Scene, Tally, Tried, Wait, Waits, choose_place, has_item};
use tp_store::{Learned, LearnedKind};
use tp_value::{Facts, NoMemory};

/// What a closure keeps beside its tally: the numbers of the ready items, which are below a bound; of each wait of the tally whether it
/// is over; the index of these waits; and of each region whether it was taken, that is, what waits for its end was woken.
#[derive(Drop)]
pub(crate) struct Board {
    pub alloc: Global,
    pub bound: u64,
    pub ready: Plane,
    pub over: Vec<bool>,
    pub index: Index,
    pub taken: Vec<bool>,
}

// So many numbers a plane has in one row. Fewer take as much memory, and would have to grow more often.
const LEAST_BOUND: u64 = 512;

// Whether what stands there may move, where it is live.
fn what_moves(what: &What) -> bool
    ensures { result ≡ what_moves (what_of what.now) }
{
    match what {
        What::Leaf(Leaf::Do(_)) => true,
        What::Leaf(Leaf::Later(_) | Leaf::Shown(_)) => false,
        What::Holder(Holder::Split { .. } | Holder::SplitProject { .. }) => true,
        What::Holder(Holder::Opened { .. }) => true,
        What::Holder(Holder::Closed(_) | Holder::Running { .. }) => false,
        What::Gone { .. } => false,
    }
}

// Whether an item with this number is live and may move.
fn may_move(scene: &Scene, item: u64) -> bool
    requires kept { IsWellKept scene.now }
    ensures { result ≡ may_move item (scene_of scene.now).root.entries }
{
    if has_item(scene, item) {
        let slot = &scene.slots[item as usize];
        what_moves(&slot.what)
    } else {
        false
    }
}

// The ready item whose turn it is.
fn whose_turn(ready: &Plane, order: &mut Order) -> Option<u64>
    ensures some { (item : ℕ) → result ≡ Some item
        → TriesNext (λ t. flag ready.now t ≡ true) order.old order.new item }
    ensures none { result ≡ None → (t : ℕ) → flag ready.now t ≡ false }
{
    match order {
        Order::First => ready.first(),
        Order::Last => ready.last(),
        Order::Seed(word) => {
            let count = ready.count();
            if count == 0 {
                None
            } else {
                ready.nth(choose_place(word, count))
            }
        }
    }
}

// The items that are live and may move, as a set of numbers below the bound. What is found of their regions is remembered: where they stand
// in each other, each look would else walk from its item out to the root.
fn moving_items(alloc: Global, scene: &mut Scene, bound: u64) -> Result<Plane, NoMemory>
    requires kept { IsWellKept scene.old }
    requires bound { bound ≡ (scene_of scene.old).next_item }
    ensures size { IfOk result (λ ready. length ready ≡ bound) }
    ensures moving { IfOk result (λ ready. (t : ℕ)
        → (flag ready t ≡ true) ↔ (may_move t (scene_of scene.old).root.entries ≡ true)) }
    ensures same { IsUnchanged scene.old scene.new }
    ensures kept { IsWellKept scene.new }
{
    let mut ready = Plane::new(alloc, bound)?;
    for item in 0..bound {
        if may_move(scene, item) {
            remember(scene, item);
            ready.set(item);
        }
    }
    Ok(ready)
}

// Adds those of the items that may move.
fn add_moving(ready: &mut Plane, scene: &Scene, items: &[u64])
    requires kept { IsWellKept scene.now }
    requires room { (scene_of scene.now).next_item ≤ length ready.old }
    ensures adds { AddsReady (moving_among (scene_of scene.now).root.entries items.now)
        ready.old ready.new }
    ensures size { length ready.new ≡ length ready.old }
{
    for item in items {
        if may_move(scene, *item) {
            ready.set(*item);
        }
    }
}

// Each wait is over for what one of the facts decides.
fn wake_by_each(
    waits: &[Wait],
    index: &Index,
    facts: Facts,
    ready: &mut Plane,
    over: &mut Vec<bool>,
)
    requires filed { IsFiled index.now waits.now over.old.items }
    requires sizes { length over.old.items ≡ length waits.now }
    requires below { All (λ w. w.item < length ready.old) waits.now }
    ensures only { WakesOnly waits.now (facts_decide facts) ready.old over.old.items
        ready.new over.new.items }
    ensures all { AreOver waits.now (facts_decide facts) over.new.items }
    ensures filed { IsFiled index.now waits.now over.new.items }
{
    for fact in facts.items {
        wake_by(waits, index, &Cause::Known(fact), ready, over);
    }
}

// The same, where the facts may be those of a whole value, which aren't made: they decide each place in it.
fn wake_by_facts(
    waits: &[Wait],
    index: &Index,
    facts: Learned,
    ready: &mut Plane,
    over: &mut Vec<bool>,
)
    requires filed { IsFiled index.now waits.now over.old.items }
    requires sizes { length over.old.items ≡ length waits.now }
    requires below { All (λ w. w.item < length ready.old) waits.now }
    ensures only { WakesOnly waits.now (facts_decide facts) ready.old over.old.items
        ready.new over.new.items }
    ensures all { AreOver waits.now (facts_decide facts) over.new.items }
    ensures filed { IsFiled index.now waits.now over.new.items }
{
    match facts.kind {
        LearnedKind::Listed(facts) => wake_by_each(waits, index, facts, ready, over),
        LearnedKind::Whole(var, _) => wake_by(waits, index, &Cause::Given(var), ready, over),
    }
}

impl Board {
    /// The board of a closure that begins here: exactly the items that may move are ready, and nothing waits. Of the scene only what it
    /// remembers changes.
    pub(crate) fn begin(alloc: Global, scene: &mut Scene) -> Result<Board, NoMemory>
        requires kept { IsWellKept scene.old }
        ensures same { scene_of scene.new ≡ scene_of scene.old }
        ensures kept { IsWellKept scene.new }
        ensures fits { IfOk result (FitsBoard []) }
        ensures flags { IfOk result (HasFlags (scene_of scene.new)) }
        ensures moving { IfOk result (λ board. (t : ℕ)
            → (flag board.ready t ≡ true)
            ↔ (may_move t (scene_of scene.new).root.entries ≡ true)) }
        ensures over { IfOk result (λ board. board.over.items ≡ []) }
        ensures taken { IfOk result (λ board. board.taken.items ≡ []) }
    {
        let bound = scene.slots.len() as u64;
        let ready = moving_items(alloc, scene, bound)?;
        Ok(Board {
            alloc,
            bound,
            ready,
            over: Vec::new(alloc),
            index: no_waits(alloc),
            taken: Vec::new(alloc),
        })
    }

    /// The ready item whose turn it is, which is then taken out; none exactly where none is ready.
    pub(crate) fn next(&mut self, order: &mut Order) -> Option<u64>
        ensures some { (item : ℕ) → result ≡ Some item
            → TriesNext (λ t. flag self.old.ready t ≡ true) order.old order.new item }
        ensures taken { (item : ℕ) → result ≡ Some item
            → self.new ≡ record self.old { ready = slice_set self.old.ready item false } }
        ensures none { result ≡ None → (t : ℕ) → flag self.old.ready t ≡ false }
    {
        let item = whose_turn(&self.ready, order)?;
        self.ready.clear(item);
        Some(item)
    }

    // Makes room for so many numbers.
    fn grow(&mut self, least: u64) -> Result<(), NoMemory>
        requires bound { self.old.bound ≡ length self.old.ready }
        requires small { length self.old.ready < 2 ^ 64 }
        ensures bound { OnOk result (self.new.bound ≡ length self.new.ready) }
        ensures small { OnOk result (length self.new.ready < 2 ^ 64) }
        ensures room { OnOk result (least ≤ length self.new.ready) }
        ensures larger { OnOk result (length self.old.ready ≤ length self.new.ready) }
        ensures kept { OnOk result ((t : ℕ) → flag self.new.ready t ≡ flag self.old.ready t) }
        ensures over { self.new.over ≡ self.old.over }
        ensures index { self.new.index ≡ self.old.index }
        ensures taken { self.new.taken ≡ self.old.taken }
    {
        if least <= self.bound {
            return Ok(());
        }
        let bound = least.saturating_mul(2).max(LEAST_BOUND);
        let mut ready = Plane::new(self.alloc, bound)?;
        ready.join(&self.ready);
        self.ready = ready;
        self.bound = bound;
        Ok(())
    }

    // Takes in what a step brought: the new items are ready that may move, and so are those whose waits are over by it.
    fn take_news(&mut self, scene: &Scene, news: News, waits: &[Wait]) -> Result<(), NoMemory>
        requires kept { IsWellKept scene.now }
        requires fits { FitsBoard waits.now self.old }
        requires below { All (λ w. w.item < length self.old.ready) waits.now }
        requires near { NewsAreNear scene.now (Reduced news) self.old waits.now }
        ensures { OnOk result
            (TakesNews (scene_of scene.now) news waits.now self.old self.new) }
    {
        let News {
            items,
            facts,
            marked,
        } = news;
        self.grow(scene.slots.len() as u64)?;
        add_moving(&mut self.ready, scene, items.items.as_slice());
        wake_by_facts(waits, &self.index, facts, &mut self.ready, &mut self.over);
        match marked {
            Some(region) => {
                self.wake_near(scene, waits, region)?;
                Ok(())
            }
            None => Ok(()),
        }
    }

    // Records an item's wait, which isn't over.
    fn take_wait(&mut self, wait: Wait, waits: &mut Waits) -> Result<(), NoMemory>
        requires fits { FitsBoard waits.old.items.items self.old }
        ensures waits { OnOk result (waits.new.items.items ≡ waits.old.items.items ++ wait ∷ []) }
        ensures over { OnOk result (self.new.over.items ≡ self.old.over.items ++ false ∷ []) }
        ensures fits { OnOk result (FitsBoard waits.new.items.items self.new) }
        ensures ready { self.new.ready ≡ self.old.ready }
        ensures taken { self.new.taken ≡ self.old.taken }
    {
        file(&mut self.index, &wait, waits.items.len() as u64)?;
        self.over.push(false)?;
        waits.items.push(wait)?;
        Ok(())
    }
    /// Takes in what came of an item that was ready: what a step brought, or a wait or a rest, which is recorded. It answers the end of the
    /// closure, where the item ends it.
    pub(crate) fn take_in(
        &mut self,
        scene: &Scene,
        item: u64,
        tried: Tried,
        tally: &mut Tally,
    ) -> Result<Option<Ending>, NoMemory>
        requires kept { IsWellKept scene.now }
        requires fits { FitsBoard tally.old.waits.items.items self.old }
        requires below { All (λ w. w.item < length self.old.ready) tally.old.waits.items.items }
        requires near { NewsAreNear scene.now tried self.old tally.old.waits.items.items }
        ensures takes { IfOk result
            (TakesIn (scene_of scene.now) item tried self.old self.new tally.old.waits.items.items
            tally.new.waits.items.items tally.old.rests tally.new.rests) }
        ensures picks { tally.new.picks ≡ tally.old.picks }
    {
        match tried {
            Tried::Reduced(news) => self.take_news(scene, news, tally.waits.items.as_slice())?,
            Tried::Waits(first, other) => {
                self.take_wait(Wait { item, first, other }, &mut tally.waits)?;
            }
            Tried::Rests => tally.rests.items.push(item)?,
            Tried::Clash(clash) => return Ok(Some(Ending::Clash(clash))),
            Tried::Missing(port) => return Ok(Some(Ending::Missing(port))),
            Tried::Over(limit) => return Ok(Some(Ending::Over(limit))),
        }
        Ok(None)
    }
}
