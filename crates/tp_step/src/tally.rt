// What a closure has found and done.
use crate::answer::ItemIds;
use tp_scene::Cell;

/// An item that waits, with its cells.
#[derive(Drop)]
pub struct Wait {
    pub item: u64,
    pub first: Cell,
    pub other: Option<Cell>,
}

/// Waits, in order.
#[derive(Drop)]
pub struct Waits {
    pub items: Vec<Wait>,
}

/// What a closure has done: the items that it reduced, those that it found waiting, and those that it found at rest.
#[derive(Drop)]
pub struct Tally {
    pub picks: ItemIds,
    pub waits: Waits,
    pub rests: ItemIds,
}
