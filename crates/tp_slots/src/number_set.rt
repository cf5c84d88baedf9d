// Sets of numbers without a bound.
ghost use Rattle.std.specs.Prelude.{◌≡◌, ◌<◌, ℕ, [], length, true, IfOk, OnOk};
ghost use Rattle.tp_lanes.specs.Planes.{flag};
ghost use Rattle.tp_slots.specs.Looks.{IsJoined, IsLeftBelow};

use std::alloc::Global;
use std::marker::Model;
use tp_lanes::Plane;
use tp_value::NoMemory;

/// A set of numbers, seen as a flag for each of those below a bound; the others aren't in it. The bound grows as they are added.
#[derive(Drop)]
pub struct NumberSet {
    alloc: Global,
    bound: u64,
    members: Plane,
}

impl Model for NumberSet {
    ghost use Rattle.std.specs.Prelude.{◌≡◌, List, Bool, length};

    ghost Value = { List Bool };

    ghost view = { λ set. set.members };

    ghost invariant = { λ set. set.bound ≡ length set.members };
}

impl NumberSet {
    /// The empty set.
    pub(crate) fn new(alloc: Global) -> Result<NumberSet, NoMemory>
        ensures { IfOk result (λ set. set ≡ []) }
    {
        let members = Plane::new(alloc, 0)?;
        Ok(NumberSet {
            alloc,
            bound: 0,
            members,
        })
    }

    /// Whether the number is in the set. Costs the same for each set.
    pub(crate) fn has(&self, number: u64) -> bool
        ensures { result ≡ flag self.now number }
    {
        number < self.bound && self.members.has(number)
    }

    // Makes room for the number.
    fn reach(&mut self, number: u64) -> Result<(), NoMemory>
        ensures same { (n : ℕ) → flag self.new n ≡ flag self.old n }
        ensures room { OnOk result (number < length self.new) }
    {
        if number < self.bound {
            return Ok(());
        }
        let least = number.checked_add(1).ok_or(NoMemory)?;
        let bound = least.saturating_mul(2);
        let mut members = Plane::new(self.alloc, bound)?;
        members.join(&self.members);
        self.members = members;
        self.bound = bound;
        Ok(())
    }

    /// Adds the number. Where memory is refused, it isn't added.
    pub(crate) fn add(&mut self, number: u64)
        ensures { IsJoined number self.old self.new }
    {
        let Ok(()) = self.reach(number) else {
            return;
        };
        self.members.set(number);
    }

    /// Takes the numbers from the least one on out of the set. Each was added before, so that costs no more than that did.
    pub(crate) fn leave_below(&mut self, least: u64)
        ensures { IsLeftBelow least self.old self.new }
    {
        'from: while let Some(last) = self.members.last() {
            if last < least {
                return;
            }
            self.members.clear(last);
        }
    }
}
