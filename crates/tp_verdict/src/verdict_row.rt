// Verdicts in a row.
ghost use Rattle.std.specs.Prelude.{◌≡◌, ◌≤◌, ◌<◌, ◌*◌, ℕ, IfOk, length, true};
ghost use Rattle.tp_verdict.specs.Rows.{has_bit};

use crate::bit_row::BitRow;
use crate::verdict::Verdict;
use std::alloc::Global;
use tp_value::NoMemory;

/// Verdicts by their numbers: which are yes, and which may be.
#[derive(Drop)]
pub struct VerdictRow {
    sure: BitRow,
    may: BitRow,
    ghost same_width: { length may.words.items ≡ length sure.words.items },
    ghost yes_may_be: { (j : ℕ) → has_bit sure.words.items j ≡ true
        → has_bit may.words.items j ≡ true },
}

impl VerdictRow {
    ghost use Rattle.tp_verdict.specs.Verdict.{no, both_of, one_of};
    ghost use Rattle.tp_verdict.specs.Code.{verdict_of};
    ghost use Rattle.tp_verdict.specs.Stored.{verdict_at, width_of};

    /// No at each number, with so many words of 64.
    pub fn new(alloc: Global, words: usize) -> Result<VerdictRow, NoMemory>
        ensures width { IfOk result (λ row. width_of row ≡ words) }
        ensures verdicts { IfOk result (λ row. (j : ℕ) → verdict_at row j ≡ no) }
    {
        let sure = BitRow::new(alloc, words)?;
        let may = BitRow::new(alloc, words)?;
        Ok(VerdictRow { sure, may })
    }

    /// The verdict with this number.
    pub fn at(&self, k: usize) -> Verdict
        requires { k < 64 * width_of self.now }
        ensures { verdict_of result ≡ verdict_at self.now k }
    {
        if self.sure.has(k) {
            Verdict::Yes
        } else if self.may.has(k) {
            Verdict::Open
        } else {
            Verdict::No
        }
    }

    /// One of the verdict that is there, and this one.
    pub fn add(&mut self, k: usize, verdict: Verdict)
        requires { k < 64 * width_of self.old }
        ensures width { width_of self.new ≡ width_of self.old }
        ensures here { verdict_at self.new k ≡ one_of (verdict_of verdict) (verdict_at self.old k) }
        ensures others { (j : ℕ) → (j ≡ k → ⊥) → verdict_at self.new j ≡ verdict_at self.old j }
    {
        match verdict {
            Verdict::Yes => {
                self.may.add(k);
                self.sure.add(k);
            }
            Verdict::Open => self.may.add(k),
            Verdict::No => {}
        }
    }

    /// At each number one of the verdict that is there, and of both this one and the other row's.
    pub fn join(&mut self, verdict: Verdict, other: &VerdictRow)
        requires { width_of other.now ≡ width_of self.old }
        ensures width { width_of self.new ≡ width_of self.old }
        ensures verdicts { (j : ℕ) → verdict_at self.new j
            ≡ one_of (both_of (verdict_of verdict) (verdict_at other.now j))
            (verdict_at self.old j) }
    {
        match verdict {
            Verdict::Yes => {
                self.may.join(&other.may);
                self.sure.join(&other.sure);
            }
            Verdict::Open => self.may.join(&other.may),
            Verdict::No => {}
        }
    }
}
