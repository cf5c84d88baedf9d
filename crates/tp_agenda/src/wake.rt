// Waits that are over.
ghost use Rattle.std.specs.Prelude.{◌≡◌, ◌<◌, ◌≤◌, ◌-◌, ℕ, [], ◌∷◌, length, get_or};
ghost use Rattle.std.specs.List.{All};
ghost use Rattle.tp_store.specs.Facts.{excludes, has_item, leaves_out};
ghost use Rattle.tp_scene.specs.Decided.{decides_path};
ghost use Rattle.tp_agenda.specs.Decides.{has_passing};
ghost use Rattle.tp_agenda.specs.Index.{IsChained, IsFiled, no_link, places_named};
ghost use Rattle.tp_agenda.specs.Wakes.{AreOver, AreOverAt, WakesOnly, is_decided_by, newest_by};

use crate::index::{Index, Link, newest_at, newest_for, newest_of};
use tp_lanes::Plane;
use tp_step::{Cell, Wait};
use tp_value::{Fact, Path, Shape, VarId};

/// What decides cells: a fact that is new; a whole value that a variable got, which decides each place in it; or a mark on a region whose
/// end is known by it.
#[derive(Drop)]
pub enum Cause {
    Known(Fact),
    Given(VarId),
    Marked(u64),
}

// Whether the shape has an item with this index.
fn has_item(shape: Shape, index: u32) -> bool
    ensures { result ≡ has_item shape index }
{
    match shape {
        Shape::Items(n) => index < n,
        Shape::Num(_) | Shape::Truth(_) => false,
    }
}

// A shape at these indices leaves no element at those beyond.
fn leaves_out(at: &[u32], shape: Shape, beyond: &[u32]) -> bool
    ensures { result ≡ leaves_out at.now shape beyond.now }
{
    if beyond.len() <= at.len() {
        return false;
    }
    for i in 0..at.len() {
        if at[i] != beyond[i] {
            return false;
        }
    }
    !has_item(shape, beyond[at.len()])
}

// The fact excludes the path.
fn excludes(fact: &Fact, path: &Path) -> bool
    ensures { result ≡ excludes fact.now path.now }
{
    fact.path.var == path.var
        && leaves_out(
            fact.path.at.items.as_slice(),
            fact.shape,
            path.at.items.as_slice(),
        )
}

// The fact gives the path a shape, or excludes it.
fn decides_path(fact: &Fact, path: &Path) -> bool
    ensures { result ≡ decides_path fact.now path.now }
{
    fact.path == *path || excludes(fact, path)
}

// Whether the cell is decided by it.
fn decides(cause: &Cause, cell: &Cell) -> bool
    ensures { result ≡ is_decided_by cause.now cell.now }
{
    match cause {
        Cause::Known(fact) => match cell {
            Cell::Part(path) => decides_path(fact, path),
            Cell::End { .. } => false,
        },
        Cause::Given(var) => match cell {
            Cell::Part(path) => *var == path.var,
            Cell::End { .. } => false,
        },
        Cause::Marked(region) => match cell {
            Cell::Part(_) => false,
            Cell::End { region: ended, .. } => *ended == *region,
        },
    }
}

// Whether a cell of the wait is decided by it.
fn ends(cause: &Cause, wait: &Wait) -> bool
    ensures { result ≡ has_passing (is_decided_by cause.now) wait.now }
{
    if decides(cause, &wait.first) {
        return true;
    }
    match &wait.other {
        Some(cell) => decides(cause, cell),
        None => false,
    }
}

// The wait at this place is over where a cell of it is decided, and its item is ready.
fn wake_place(waits: &[Wait], place: u32, cause: &Cause, ready: &mut Plane, over: &mut Vec<bool>)
    requires place { place < length waits.now }
    requires sizes { length over.old.items ≡ length waits.now }
    requires below { All (λ w. w.item < length ready.old) waits.now }
    ensures only { WakesOnly waits.now (is_decided_by cause.now) ready.old over.old.items
        ready.new over.new.items }
    ensures all { AreOverAt (place ∷ []) waits.now (is_decided_by cause.now) over.new.items }
{
    let at = place as usize;
    if over[at] {
        return;
    }
    let wait = &waits[at];
    if ends(cause, wait) {
        over[at] = true;
        ready.set(wait.item);
    }
}

// The newest link of the waits that it may end. Where there is none, no path is looked up.
fn newest_by(index: &Index, cause: &Cause) -> u32
    requires { IsChained index.now }
    ensures { result ≡ newest_by index.now cause.now }
{
    if index.links.as_slice().is_empty() {
        return 0;
    }
    match cause {
        Cause::Known(fact) => newest_at(index, &fact.path),
        Cause::Given(var) => newest_of(index, *var),
        Cause::Marked(region) => newest_for(index, *region),
    }
}

// The link with this number, from 1.
fn link_at(links: &[Link], number: u32) -> Link
    requires some { 0 < number }
    requires fits { number ≤ length links.now }
    ensures { result ≡ get_or links.now (number - 1) no_link }
{
    links[number as usize - 1]
}

// The waits are over that the links name, from this one on, where a cell of them is decided, and their items are ready.
fn wake_from(
    waits: &[Wait],
    links: &[Link],
    newest: u32,
    cause: &Cause,
    ready: &mut Plane,
    over: &mut Vec<bool>,
)
    requires newest { newest ≤ length links.now }
    requires back { (k : ℕ) → k < length links.now → (get_or links.now k no_link).next ≤ k }
    requires within { (k : ℕ) → k < length links.now
        → (get_or links.now k no_link).place < length waits.now }
    requires sizes { length over.old.items ≡ length waits.now }
    requires below { All (λ w. w.item < length ready.old) waits.now }
    ensures only { WakesOnly waits.now (is_decided_by cause.now) ready.old over.old.items
        ready.new over.new.items }
    ensures all { AreOverAt (places_named newest links.now newest) waits.now
        (is_decided_by cause.now) over.new.items }
{
    let mut at = newest;
    'links: while at > 0 {
        let here = link_at(links, at);
        wake_place(waits, here.place, cause, ready, over);
        at = here.next;
    }
}

/// Each wait is over of which a cell is decided by it, and the items of those that were open are ready; nothing else is over or ready
/// than was before. It can't fail. It asks for the index of these waits, a flag for each of them, and room for their items.
pub fn wake_by(
    waits: &[Wait],
    index: &Index,
    cause: &Cause,
    ready: &mut Plane,
    over: &mut Vec<bool>,
)
    requires filed { IsFiled index.now waits.now over.old.items }
    requires sizes { length over.old.items ≡ length waits.now }
    requires below { All (λ w. w.item < length ready.old) waits.now }
    ensures only { WakesOnly waits.now (is_decided_by cause.now) ready.old over.old.items
        ready.new over.new.items }
    ensures all { AreOver waits.now (is_decided_by cause.now) over.new.items }
    ensures filed { IsFiled index.now waits.now over.new.items }
{
    let newest = newest_by(index, cause);
    wake_from(waits, index.links.as_slice(), newest, cause, ready, over);
}
