// Scenes as slots by item number.
use crate::looks::Looks;
use tp_decide::{BoundFormula, Leaf};

/// What a run has between the steps of a state: the items by number, the regions by number, and what was found of these. The root is region
/// 0.
#[derive(Drop)]
pub struct Scene {
    pub slots: Vec<Slot>,
    pub regions: Vec<Region>,
    pub looks: Looks,
}

/// An item's slot: the region in which it stands; the item to visit after it and what stands in its place, if that came in place of the
/// same one with which the region began; and what stands there.
#[derive(Drop)]
pub struct Slot {
    pub home: u64,
    pub after: Option<u64>,
    pub what: What,
}

/// A region: the item that holds it, which the root doesn't have; its marks; whether it ends, or goes, by a mark or from within; and the
/// items that it began with, in order.
#[derive(Drop)]
pub struct Region {
    pub holder: u64,
    pub ends: bool,
    pub goes: bool,
    pub ends_now: bool,
    pub goes_now: bool,
    pub roots: Vec<u64>,
}

/// A region's status: open, or it ends with this state, or it goes on.
#[derive(Clone, Copy, Debug, PartialEq, Eq)]
pub enum Mark {
    Open,
    Ends,
    Goes,
}

/// An item that holds a region, or two, which are named by number.
#[derive(Drop)]
pub enum Holder {
    Split {
        left: u64,
        after: BoundFormula,
    },
    SplitProject {
        left: u64,
        outer: u64,
        piece: BoundFormula,
    },
    Closed(u64),
    Opened {
        outer: u64,
        piece: BoundFormula,
    },
    Running {
        inner: u64,
        outer: u64,
        piece: BoundFormula,
    },
}

/// What stands in a slot: an item without a region, one that holds a region, or the items that stand in its place, which have the numbers
/// from the first one on.
#[derive(Drop)]
pub enum What {
    Leaf(Leaf),
    Holder(Holder),
    Gone { first: u64, count: u64 },
}
