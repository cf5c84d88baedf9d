// The items that stand in an item's place.
ghost use Rattle.std.specs.Prelude.{◌≡◌, ◌++◌, ◌∷◌, [], length, IfOk};
ghost use Rattle.tp_decide.specs.NewLeaves.{leaf_list};

use crate::decision::Leaf;
use std::alloc::Global;
use tp_value::NoMemory;

/// Items without a region, in order. Nearly all steps bring none, one or two, and these need no memory of their own.
#[derive(Drop)]
pub enum Leaves {
    None,
    One(Leaf),
    Two(Leaf, Leaf),
    Many(Vec<Leaf>),
}

impl Leaves {
    /// How many they are.
    pub fn len(&self) -> usize
        ensures { result ≡ length (leaf_list self.now) }
    {
        match self {
            Leaves::None => 0,
            Leaves::One(_) => 1,
            Leaves::Two(_, _) => 2,
            Leaves::Many(list) => list.len(),
        }
    }

    /// The same with one more, behind them.
    pub fn with(self, alloc: Global, leaf: Leaf) -> Result<Leaves, NoMemory>
        ensures { IfOk result (λ all. leaf_list all ≡ leaf_list self ++ leaf ∷ []) }
    {
        match self {
            Leaves::None => Ok(Leaves::One(leaf)),
            Leaves::One(first) => Ok(Leaves::Two(first, leaf)),
            Leaves::Two(first, second) => {
                let mut list = Vec::new(alloc);
                list.push(first)?;
                list.push(second)?;
                list.push(leaf)?;
                Ok(Leaves::Many(list))
            }
            Leaves::Many(mut list) => {
                list.push(leaf)?;
                Ok(Leaves::Many(list))
            }
        }
    }
}
