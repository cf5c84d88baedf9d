// Sets of numbers below a bound.
ghost use Rattle.std.specs.Prelude.{◌≡◌, ◌↔◌, ℕ, ◌≤◌, ◌<◌, ◌||◌, true, false, None, length, take, count_by, replicate, slice_set, IfOk, IfSome, IsSome};
ghost use Rattle.tp_lanes.specs.Planes.{flag, IsFirstMember, IsLastMember, IsNthMember};

use crate::members::{bit, count_rows, first_member, last_member, member_of_place};
use crate::rows::{first_filled, join_words, last_filled, row_of_place};
use std::alloc::Global;
use std::marker::Model;
use tp_value::NoMemory;

/// A set of numbers below a bound, seen as one flag for each of them. It keeps a bit for each number, in rows of 512,
/// and how many members each row has; only `new` takes memory.
#[derive(Drop)]
pub struct Plane {
    bound: u64,
    words: Vec<u64>,
    rows: Vec<u64>,
    size: u64,
}

impl Model for Plane {
    ghost use Rattle.std.specs.Prelude.{List, Bool};

    ghost Value = { List Bool };

    ghost use Rattle.tp_lanes.specs.Planes.{flags_below, IsPlane};

    ghost view = { λ p. flags_below p.bound p.words.items };

    ghost invariant = { λ p. IsPlane p.bound p.words.items p.rows.items p.size };
}

// So many zeros.
fn zeros(alloc: Global, count: usize) -> Result<Vec<u64>, NoMemory>
    ensures { IfOk result (λ items. items.items ≡ replicate count 0) }
{
    let items = vec![in alloc; 0u64; count]?;
    Ok(items)
}

impl Plane {
    /// The empty set of numbers below the bound. Costs its memory: 72 bytes for each 512 numbers.
    pub fn new(alloc: Global, bound: u64) -> Result<Plane, NoMemory>
        ensures { IfOk result (λ plane. plane ≡ replicate bound false) }
    {
        let count = bound.div_ceil(512) as usize;
        let words = zeros(alloc, 8 * count)?;
        let rows = zeros(alloc, count)?;
        Ok(Plane {
            bound,
            words,
            rows,
            size: 0,
        })
    }

    /// Whether the number is a member. Costs the same for each plane.
    pub fn has(&self, n: u64) -> bool
        requires { n < length self.now }
        ensures { result ≡ flag self.now n }
    {
        bit(self.words[(n / 64) as usize], n % 64) == 1
    }

    /// Makes the number a member. Costs the same for each plane.
    pub fn set(&mut self, n: u64)
        requires { n < length self.old }
        ensures { self.new ≡ slice_set self.old n true }
    {
        if !self.has(n) {
            self.words[(n / 64) as usize] |= 1 << (n % 64);
            self.rows[(n / 512) as usize] += 1;
            self.size += 1;
        }
    }

    /// Takes the number out, if it is a member. Costs the same for each plane.
    pub fn clear(&mut self, n: u64)
        requires { n < length self.old }
        ensures { self.new ≡ slice_set self.old n false }
    {
        if self.has(n) {
            self.words[(n / 64) as usize] &= !(1 << (n % 64));
            self.rows[(n / 512) as usize] -= 1;
            self.size -= 1;
        }
    }

    /// The least member; none exactly where the set is empty. Costs a step for each 4,096 numbers before it, and a few.
    pub fn first(&self) -> Option<u64>
        ensures some { IfSome result (IsFirstMember self.now) }
        ensures none { result ≡ None ↔ ((n : ℕ) → flag self.now n ≡ false) }
    {
        let row = first_filled(&self.rows);
        if row == self.rows.len() {
            return None;
        }
        Some(first_member(&self.words, row))
    }

    /// The greatest member; none exactly where the set is empty. Costs a step for each 4,096 numbers behind it, and a few.
    pub fn last(&self) -> Option<u64>
        ensures some { IfSome result (IsLastMember self.now) }
        ensures none { result ≡ None ↔ ((n : ℕ) → flag self.now n ≡ false) }
    {
        let end = last_filled(&self.rows);
        if end == 0 {
            return None;
        }
        Some(last_member(&self.words, end - 1))
    }

    /// How many members there are. Costs the same for each plane.
    pub fn count(&self) -> u64
        ensures { result ≡ count_by (λ b. b) self.now }
    {
        self.size
    }

    /// Makes each member of the other plane a member. Costs a step for each 64 numbers of this plane's bound.
    pub fn join(&mut self, other: &Plane)
        requires { length other.now ≤ length self.old }
        ensures room { length self.new ≡ length self.old }
        ensures both { (n : ℕ) → flag self.new n ≡ (flag self.old n || flag other.now n) }
    {
        join_words(&mut self.words, &other.words);
        self.size = count_rows(&self.words, &mut self.rows);
    }

    /// The member with so many members before it; there is always one. Costs a step for each 512 numbers before it, and
    /// at most 72 more.
    pub fn nth(&self, place: u64) -> Option<u64>
        requires { place < count_by (λ b. b) self.now }
        ensures member { IfSome result (IsNthMember self.now place) }
        ensures some { IsSome result }
    {
        let found = row_of_place(&self.rows, place);
        Some(member_of_place(&self.words, found.0, found.1))
    }
}
