// What is to be done with an item, and the plainest of it.
ghost use Rattle.std.specs.Prelude.{◌≡◌, IfOk, length, None};
ghost use Rattle.tp_kernel.specs.Read.{formula_tree, bindings_of};
ghost use Rattle.tp_scene.specs.Scene as S;
ghost use Rattle.tp_scene.specs.Step as row;
ghost use Rattle.tp_decide.specs.Decided.{Decides, plain_leaf, news_entries, plain_place};
ghost use Rattle.tp_decide.specs.NewLeaves.{leaf_list};
ghost use Rattle.tp_decide.specs.Fits.{IsPlain};

use crate::bound_formula::{BoundFormula, Values};
use crate::env::under;
use crate::leaves::Leaves;
use std::rc::Rc;
use tp_kernel::{Env, Formula, LimitKind};
use tp_scene::{Cell, Clash};
use tp_store::Operand;
use tp_value::{NoMemory, Path, Text};

/// A mark on a region.
#[derive(Clone, Copy, Debug)]
pub enum Side {
    Ending,
    Going,
}

/// What a step can see of the region where an item stands.
#[derive(Clone, Copy)]
pub struct Place {
    pub region: u64,
    pub depth: u32,
    pub ends: bool,
    pub goes: bool,
}

/// An item without a region: a formula that is to hold from this state on, or from the next one; values that are shown.
#[derive(Drop)]
pub enum Leaf {
    Do(BoundFormula),
    Later(BoundFormula),
    Shown(Values),
}

/// What is to be done with an item without a region.
///
/// `Becomes`: these items stand in its place, and its region may be marked. `Splits`: in its place stand a new left region with `first` alone,
/// and what follows it. `Opens`: in its place stands a new outer region with `outer` alone, and the piece of its projection. `Binds`: the
/// body stands in its place, with a new local of that name bound last; the local takes the store's next number. `Sets` and `Measures`: a
/// value is set at a path, or a length, and nothing stands in its place. `Shares`: a length is set at a path, and these items stand in its
/// place. Nothing changes in the other cases: it waits for a cell, and
/// perhaps a second one; it rests; it meets a clash; the inputs have no value for the port; or it passes a limit.
#[derive(Drop)]
pub enum Decision {
    Becomes {
        news: Leaves,
        mark: Option<Side>,
    },
    Splits {
        first: BoundFormula,
        after: BoundFormula,
    },
    Opens {
        outer: BoundFormula,
        piece: BoundFormula,
    },
    Binds {
        name: Text,
        lasting: bool,
        body: BoundFormula,
    },
    Sets(Path, Operand),
    Measures(Path, u32),
    Shares {
        to: Path,
        length: u32,
        news: Vec<Leaf>,
    },
    Waits(Cell, Option<Cell>),
    Rests,
    Clashes(Clash),
    Misses(Text),
    Passes(LimitKind),
}

/// Nothing stands in the item's place.
pub fn nothing() -> Decision
    ensures outcome { Decides result (λ n. row.vanishes) }
    ensures plain { IsPlain result }
{
    becomes(Leaves::None)
}

/// The items stand in its place.
pub fn becomes(news: Leaves) -> Decision
    ensures outcome { Decides result (λ n.
        row.becomes (news_entries (leaf_list news) n.item 0) (length (leaf_list news))) }
    ensures plain { IsPlain result }
{
    Decision::Becomes { news, mark: None }
}

/// The formula from this state on.
pub fn due(what: Rc<Formula>, env: &Rc<Env>) -> Result<Leaf, NoMemory>
    ensures { IfOk result (λ l.
        plain_leaf l ≡ S.Do (formula_tree what.value) (bindings_of env.now.value)) }
{
    let bound = under(what, env)?;
    Ok(Leaf::Do(bound))
}

/// The formula from the next state on.
pub fn later(what: Rc<Formula>, env: &Rc<Env>) -> Result<Leaf, NoMemory>
    ensures { IfOk result (λ l.
        plain_leaf l ≡ S.Later (formula_tree what.value) (bindings_of env.now.value)) }
{
    let bound = under(what, env)?;
    Ok(Leaf::Later(bound))
}

/// One item stands in its place.
pub fn becomes_one(leaf: Leaf) -> Decision
    ensures outcome { Decides result (λ n.
        row.becomes (S.leaf (n.item 0) (plain_leaf leaf) S.none) 1) }
    ensures plain { IsPlain result }
{
    becomes(Leaves::One(leaf))
}

/// Two items stand in its place.
pub fn becomes_two(first: Leaf, second: Leaf) -> Decision
    ensures outcome { Decides result (λ n.
        row.becomes
        (S.leaf (n.item 0) (plain_leaf first) (S.leaf (n.item 1) (plain_leaf second) S.none)) 2) }
    ensures plain { IsPlain result }
{
    becomes(Leaves::Two(first, second))
}

/// The items stand in its place, and its region is marked to go on.
pub fn go(place: Place, news: Leaves) -> Decision
    ensures outcome { Decides result (λ n.
        row.going (plain_place place) (news_entries (leaf_list news) n.item 0)
        (length (leaf_list news))) }
    ensures plain { IsPlain result }
{
    if place.ends {
        Decision::Clashes(Clash::Marks { depth: place.depth })
    } else {
        Decision::Becomes {
            news,
            mark: Some(Side::Going),
        }
    }
}

/// Nothing stands in its place, and its region is marked to end.
pub fn end(place: Place) -> Decision
    ensures outcome { Decides result (λ n. row.ending (plain_place place)) }
    ensures plain { IsPlain result }
{
    if place.goes {
        Decision::Clashes(Clash::Marks { depth: place.depth })
    } else {
        Decision::Becomes {
            news: Leaves::None,
            mark: Some(Side::Ending),
        }
    }
}

/// It waits for the end of its region.
pub fn wait_for_end(place: Place) -> Decision
    ensures outcome { Decides result (λ n. row.waits (Cell.End place.region place.depth) None) }
    ensures plain { IsPlain result }
{
    Decision::Waits(
        Cell::End {
            region: place.region,
            depth: place.depth,
        },
        None,
    )
}
