// Carrying out what was decided on an item.
ghost use Rattle.std.specs.Prelude.{◌≡◌, ℕ, [], IfOk, OnErr};
ghost use Rattle.std.specs.Option.{option_map};
ghost use Rattle.tp_store.specs.Known.{Addition, NoClash, IsVariableOf};
ghost use Rattle.tp_store.specs.Stock.{contents_in};
ghost use Rattle.tp_scene.specs.Pick.{Moment};
ghost use Rattle.tp_scene.specs.Scene.{Entries};
ghost use Rattle.tp_decide.specs.Decided.{adding_items, decided_outcome};
ghost use Rattle.tp_decide.specs.Fits.{SetsVariables};
ghost use Rattle.tp_decide.specs.ReadBound.{env_of};
ghost use Rattle.tp_slots.specs.Bound.{IsDueUnder};
ghost use Rattle.tp_slots.specs.Edit.{stands_in};
ghost use Rattle.tp_slots.specs.Reductions.{CanMove, IsBare, IsReduced};
ghost use Rattle.tp_slots.specs.Read.{item_what, scene_of};
ghost use Rattle.tp_slots.specs.Kept.{IsWellKept, IsUnchanged, Lives, numbers_in};
ghost use Rattle.tp_step.specs.Answers.{moment_of, IsClash};
ghost use Rattle.tp_step.specs.Chosen.{AllowsAddition, BindsThere, Carries, CarriesDecision, CarriesFacts, CarriesHolder, CarriesMove, FitsHolder, IsHolderOutcome};

use crate::answer::{NewIds, News, Tried};
use smallvec::SmallVec;
use std::alloc::Global;
use tp_decide::{BoundFormula, Decision, HolderDecision, Leaf, Leaves, Side};
use tp_kernel::LimitKind;
use tp_scene::Clash;
use tp_slots::{
    Scene, become_bound, become_leaves, become_opened, become_sharing, become_split, move_on,
    vanish,
};
use tp_store::{AddRefusal, Learned, Operand, Store, seen};
use tp_value::{Facts, NoMemory, Path, Text};

// These items became live, no fact is new, and perhaps a region was marked.
fn reduced(alloc: Global, items: SmallVec<u64, 3>, marked: Option<u64>) -> Tried
    ensures { result ≡ Tried.Reduced (record { items = items.items; facts = []; marked = marked }) }
{
    Tried::Reduced(News {
        items: NewIds { items },
        facts: Learned::listed(Facts {
            items: Vec::new(alloc),
        }),
        marked,
    })
}

// The region in which a live item stands.
fn home_of(scene: &Scene, item: u64) -> u64
    requires kept { IsWellKept scene.now }
    requires lives { Lives scene.now item }
    ensures { result ≡ stands_in item 0 (scene_of scene.now).root.entries }
{
    let slot = &scene.slots[item as usize];
    slot.home
}

// The region, where there is a mark.
fn if_marked(region: u64, mark: Option<Side>) -> Option<u64>
    ensures { result ≡ option_map (λ z. region) mark }
{
    match mark {
        Some(_) => Some(region),
        None => None,
    }
}

// The items stand in the item's place, and its region may be marked, where a reduction is left.
fn become_news(
    alloc: Global,
    scene: &mut Scene,
    item: u64,
    news: Leaves,
    mark: Option<Side>,
    room: u64,
) -> Result<Tried, NoMemory>
    requires kept { IsWellKept scene.old }
    requires lives { Lives scene.old item }
    requires free { IsBare (item_what scene.old item) }
    ensures ok { IfOk result
        (CarriesDecision (Decision.Becomes news mark) room scene.old scene.new item) }
    ensures kept { IsWellKept scene.new }
    ensures err { OnErr result (IsUnchanged scene.old scene.new) }
{
    if room == 0 {
        return Ok(Tried::Over(LimitKind::Reductions));
    }
    let home = home_of(scene, item);
    let items = become_leaves(alloc, scene, item, news, mark)?;
    Ok(reduced(alloc, items, if_marked(home, mark)))
}

// A left region and what follows it stand in the item's place, where a reduction is left.
fn split(
    alloc: Global,
    scene: &mut Scene,
    item: u64,
    first: BoundFormula,
    after: BoundFormula,
    room: u64,
) -> Result<Tried, NoMemory>
    requires kept { IsWellKept scene.old }
    requires lives { Lives scene.old item }
    requires free { IsBare (item_what scene.old item) }
    ensures ok { IfOk result
        (CarriesDecision (Decision.Splits first after) room scene.old scene.new item) }
    ensures kept { IsWellKept scene.new }
    ensures err { OnErr result (IsUnchanged scene.old scene.new) }
{
    if room == 0 {
        return Ok(Tried::Over(LimitKind::Reductions));
    }
    let items = become_split(alloc, scene, item, first, after)?;
    Ok(reduced(alloc, items, None))
}

// The outer region of a projection stands in the item's place, where a reduction is left.
fn open(
    alloc: Global,
    scene: &mut Scene,
    item: u64,
    outer: BoundFormula,
    piece: BoundFormula,
    room: u64,
) -> Result<Tried, NoMemory>
    requires kept { IsWellKept scene.old }
    requires lives { Lives scene.old item }
    requires free { IsBare (item_what scene.old item) }
    ensures ok { IfOk result
        (CarriesDecision (Decision.Opens outer piece) room scene.old scene.new item) }
    ensures kept { IsWellKept scene.new }
    ensures err { OnErr result (IsUnchanged scene.old scene.new) }
{
    if room == 0 {
        return Ok(Tried::Over(LimitKind::Reductions));
    }
    let items = become_opened(alloc, scene, item, outer, piece)?;
    Ok(reduced(alloc, items, None))
}

// The body stands in the item's place, with a new local of that name bound last, where a reduction is left.
fn bind(
    alloc: Global,
    scene: &mut Scene,
    item: u64,
    local: (Text, bool, BoundFormula),
    store: &mut Store,
    room: u64,
) -> Result<Tried, NoMemory>
    requires kept { IsWellKept scene.old }
    requires lives { Lives scene.old item }
    requires due { IsDueUnder (env_of local.2) (item_what scene.old item) }
    ensures ok { IfOk result
        (Carries
        (decided_outcome store.old.facts (numbers_in (contents_in store.old) scene.old)
        (Decision.Binds local.0 local.1 local.2))
        room (moment_of scene.old (contents_in store.old)) item
        (moment_of scene.new (contents_in store.new))) }
    ensures kept { IsWellKept scene.new }
    ensures scene_err { OnErr result (IsUnchanged scene.old scene.new) }
    ensures store_err { OnErr result (contents_in store.new ≡ contents_in store.old) }
{
    if room == 0 {
        return Ok(Tried::Over(LimitKind::Reductions));
    }
    let items = become_bound(alloc, scene, item, local, store)?;
    Ok(reduced(alloc, items, None))
}

// A refusal of the store, which changed nothing.
fn refused(refusal: AddRefusal) -> Result<Tried, NoMemory>
    ensures { IfOk result (IsClash refusal) }
{
    match refusal {
        AddRefusal::Clash { kept, new } => Ok(Tried::Clash(Clash::Facts { kept, new })),
        AddRefusal::NoMemory => Err(NoMemory),
    }
}

// No reduction is left for what the store would add or refuse, whatever items come with it.
fn full_or_refused(checked: Result<(), AddRefusal>) -> Result<Tried, NoMemory>
    ensures { (news : Entries) (items : ℕ) (o : Addition) (m : Moment) (t : ℕ)
        → AllowsAddition o checked → IfOk result (Carries (adding_items news items o) 0 m t m) }
{
    match checked {
        Ok(()) => Ok(Tried::Over(LimitKind::Reductions)),
        Err(refusal) => refused(refusal),
    }
}

// These facts are new, and nothing stands in the item's place.
fn learn(alloc: Global, scene: &mut Scene, item: u64, facts: Learned) -> Tried
    requires kept { IsWellKept scene.old }
    requires lives { Lives scene.old item }
    requires free { IsBare (item_what scene.old item) }
    ensures answer { CarriesFacts facts scene.old scene.new item result }
    ensures kept { IsWellKept scene.new }
{
    vanish(scene, item);
    Tried::Reduced(News {
        items: NewIds::new(alloc),
        facts,
        marked: None,
    })
}

// The value is set at the path, where a reduction is left.
fn set(
    alloc: Global,
    scene: &mut Scene,
    item: u64,
    target: (Path, Operand),
    store: &mut Store,
    room: u64,
) -> Result<Tried, NoMemory>
    requires kept { IsWellKept scene.old }
    requires lives { Lives scene.old item }
    requires free { IsBare (item_what scene.old item) }
    requires variable { IsVariableOf store.old.variables target.0.var }
    ensures ok { IfOk result
        (Carries
        (decided_outcome store.old.facts (numbers_in (contents_in store.old) scene.old)
        (Decision.Sets target.0 target.1))
        room (moment_of scene.old (contents_in store.old)) item
        (moment_of scene.new (contents_in store.new))) }
    ensures kept { IsWellKept scene.new }
    ensures scene_err { OnErr result (IsUnchanged scene.old scene.new) }
    ensures store_err { OnErr result (contents_in store.new ≡ contents_in store.old) }
{
    let (path, value) = target;
    if room == 0 {
        return full_or_refused(store.check(&path, seen(&value)));
    }
    match store.set(path, value) {
        Ok(facts) => Ok(learn(alloc, scene, item, facts)),
        Err(refusal) => refused(refusal),
    }
}

// The list at the path gets this length, where a reduction is left.
fn set_length(
    alloc: Global,
    scene: &mut Scene,
    item: u64,
    target: (Path, u32),
    store: &mut Store,
    room: u64,
) -> Result<Tried, NoMemory>
    requires kept { IsWellKept scene.old }
    requires lives { Lives scene.old item }
    requires free { IsBare (item_what scene.old item) }
    requires variable { IsVariableOf store.old.variables target.0.var }
    ensures ok { IfOk result
        (Carries
        (decided_outcome store.old.facts (numbers_in (contents_in store.old) scene.old)
        (Decision.Measures target.0 target.1))
        room (moment_of scene.old (contents_in store.old)) item
        (moment_of scene.new (contents_in store.new))) }
    ensures kept { IsWellKept scene.new }
    ensures scene_err { OnErr result (IsUnchanged scene.old scene.new) }
    ensures store_err { OnErr result (contents_in store.new ≡ contents_in store.old) }
{
    let (path, length) = target;
    if room == 0 {
        return full_or_refused(store.check_length(&path, length));
    }
    match store.add_length(&path, length) {
        Ok(facts) => Ok(learn(alloc, scene, item, Learned::listed(facts))),
        Err(refusal) => refused(refusal),
    }
}

// The list at the path gets this length, and the items stand in the item's place, where a reduction is left.
fn share_length(
    alloc: Global,
    scene: &mut Scene,
    item: u64,
    shared: (Path, u32, Vec<Leaf>),
    store: &mut Store,
    room: u64,
) -> Result<Tried, NoMemory>
    requires kept { IsWellKept scene.old }
    requires lives { Lives scene.old item }
    requires free { IsBare (item_what scene.old item) }
    requires variable { IsVariableOf store.old.variables shared.0.var }
    ensures ok { IfOk result
        (Carries
        (decided_outcome store.old.facts (numbers_in (contents_in store.old) scene.old)
        (Decision.Shares shared.0 shared.1 shared.2))
        room (moment_of scene.old (contents_in store.old)) item
        (moment_of scene.new (contents_in store.new))) }
    ensures kept { IsWellKept scene.new }
    ensures scene_err { OnErr result (IsUnchanged scene.old scene.new) }
    ensures store_err { OnErr result (contents_in store.new ≡ contents_in store.old) }
{
    let (path, length, news) = shared;
    if room == 0 {
        return full_or_refused(store.check_length(&path, length));
    }
    match become_sharing(alloc, scene, item, news, (path, length), store) {
        Ok((items, new)) => Ok(Tried::Reduced(News {
            items: NewIds { items },
            facts: Learned::listed(new),
            marked: None,
        })),
        Err(refusal) => refused(refusal),
    }
}

/// Carries out what was decided on an item without a region.
pub fn carry_decision(
    alloc: Global,
    scene: &mut Scene,
    item: u64,
    decision: Decision,
    store: &mut Store,
    room: u64,
) -> Result<Tried, NoMemory>
    requires kept { IsWellKept scene.old }
    requires lives { Lives scene.old item }
    requires free { IsBare (item_what scene.old item) }
    requires variables { SetsVariables store.old.variables decision }
    requires binds { BindsThere (item_what scene.old item) decision }
    requires apart { NoClash store.old.facts }
    ensures ok { IfOk result
        (Carries
        (decided_outcome store.old.facts (numbers_in (contents_in store.old) scene.old) decision)
        room (moment_of scene.old (contents_in store.old)) item
        (moment_of scene.new (contents_in store.new))) }
    ensures kept { IsWellKept scene.new }
    ensures scene_err { OnErr result (IsUnchanged scene.old scene.new) }
    ensures store_err { OnErr result (contents_in store.new ≡ contents_in store.old) }
{
    match decision {
        Decision::Becomes { news, mark } => become_news(alloc, scene, item, news, mark, room),
        Decision::Splits { first, after } => split(alloc, scene, item, first, after, room),
        Decision::Opens { outer, piece } => open(alloc, scene, item, outer, piece, room),
        Decision::Binds {
            name,
            lasting,
            body,
        } => bind(alloc, scene, item, (name, lasting, body), store, room),
        Decision::Sets(path, value) => set(alloc, scene, item, (path, value), store, room),
        Decision::Measures(path, length) => {
            set_length(alloc, scene, item, (path, length), store, room)
        }
        Decision::Shares { to, length, news } => {
            share_length(alloc, scene, item, (to, length, news), store, room)
        }
        Decision::Waits(first, other) => Ok(Tried::Waits(first, other)),
        Decision::Rests => Ok(Tried::Rests),
        Decision::Clashes(clash) => Ok(Tried::Clash(clash)),
        Decision::Misses(port) => Ok(Tried::Missing(port)),
        Decision::Passes(limit) => Ok(Tried::Over(limit)),
    }
}

// An item with a region is reduced, where a reduction is left.
fn go_on(alloc: Global, scene: &mut Scene, item: u64, room: u64) -> Result<Tried, NoMemory>
    requires kept { IsWellKept scene.old }
    requires lives { Lives scene.old item }
    requires holder { CanMove (item_what scene.old item) }
    requires reduced { IsReduced (scene_of scene.old) item }
    ensures ok { IfOk result (CarriesMove room scene.old scene.new item) }
    ensures kept { IsWellKept scene.new }
    ensures err { OnErr result (IsUnchanged scene.old scene.new) }
{
    if room == 0 {
        return Ok(Tried::Over(LimitKind::Reductions));
    }
    let items = move_on(alloc, scene, item)?;
    Ok(reduced(alloc, items, None))
}

/// Carries out what was decided on an item that holds a region.
pub fn carry_holder(
    alloc: Global,
    scene: &mut Scene,
    item: u64,
    decision: HolderDecision,
    room: u64,
) -> Result<Tried, NoMemory>
    requires kept { IsWellKept scene.old }
    requires lives { Lives scene.old item }
    requires fits { FitsHolder (item_what scene.old item) decision }
    requires outcome { IsHolderOutcome scene.old item decision }
    ensures ok { IfOk result (CarriesHolder decision room scene.old scene.new item) }
    ensures kept { IsWellKept scene.new }
    ensures err { OnErr result (IsUnchanged scene.old scene.new) }
{
    match decision {
        HolderDecision::Rests => Ok(Tried::Rests),
        HolderDecision::Waits(cell) => Ok(Tried::Waits(cell, None)),
        HolderDecision::Closes => go_on(alloc, scene, item, room),
        HolderDecision::Begins => go_on(alloc, scene, item, room),
    }
}
