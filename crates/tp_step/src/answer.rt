// What the calls on a scene answer.
ghost use Rattle.std.specs.Prelude.{◌≡◌, []};

use crate::order::Order;
use smallvec::SmallVec;
use std::alloc::Global;
use std::marker::Model;
use tp_kernel::LimitKind;
use tp_scene::{Cell, Clash};
use tp_store::Learned;
use tp_value::Text;

/// Numbers of items, in order.
#[derive(Debug, Drop)]
pub struct ItemIds {
    pub items: Vec<u64>,
}

impl Model for ItemIds {
    ghost use Rattle.std.specs.Prelude.{List, ℕ};

    ghost Value = { List ℕ };

    ghost view = { λ a. a.items.items };
}

impl ItemIds {
    /// No item.
    pub fn new(alloc: Global) -> ItemIds
        ensures { result ≡ [] }
    {
        ItemIds {
            items: Vec::new(alloc),
        }
    }
}

/// Numbers of items that a reduction made live, in order. Few need no memory of their own.
#[derive(Debug, Drop)]
pub struct NewIds {
    pub items: SmallVec<u64, 3>,
}

impl Model for NewIds {
    ghost use Rattle.std.specs.Prelude.{List, ℕ};

    ghost Value = { List ℕ };

    ghost view = { λ a. a.items.items };
}

impl NewIds {
    /// No item.
    pub fn new(alloc: Global) -> NewIds
        ensures { result ≡ [] }
    {
        NewIds {
            items: SmallVec::new(alloc),
        }
    }
}

/// What a reduction brought: the items that became live, the new facts, and the region that was marked.
#[derive(Drop)]
pub struct News {
    pub items: NewIds,
    pub facts: Learned,
    pub marked: Option<u64>,
}

/// What became of an item that was tried: it was reduced; it waits for a cell, and perhaps a second one; it rests; it meets a clash;
/// the inputs have no value for the port; or it would pass a limit.
#[derive(Drop)]
pub enum Tried {
    Reduced(News),
    Waits(Cell, Option<Cell>),
    Rests,
    Clash(Clash),
    Missing(Text),
    Over(LimitKind),
}

/// What a scene has come to: the first item that isn't done with this state, or else the root's status.
#[derive(Clone, Copy, Debug, PartialEq, Eq)]
pub enum Settled {
    Waiting(u64),
    EndOpen,
    Ends,
    Goes,
}

/// How a closure goes on, its strategy: which item it tries next, and how many it may still reduce. Of a seed its word is kept that
/// makes the next choice.
#[derive(Clone, Copy, Debug, PartialEq, Eq)]
pub struct Strategy {
    pub order: Order,
    pub room: u64,
}
