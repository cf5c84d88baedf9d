// Rows of bits.
ghost use Rattle.std.specs.Prelude.{◌≡◌, ◌<◌, ◌+◌, ◌*◌, ℕ, length, IfOk, ◌||◌, eqb, false};
ghost use Rattle.tp_verdict.specs.Rows.{has_bit};

use std::alloc::Global;
use tp_value::NoMemory;

/// Bits by their numbers.
#[derive(Drop)]
pub struct BitRow {
    words: Vec<u64>,
}

impl BitRow {
    /// Bits of so many words, all 0.
    pub fn new(alloc: Global, words: usize) -> Result<BitRow, NoMemory>
        ensures length { IfOk result (λ row. length row.words.items ≡ words) }
        ensures bits { IfOk result (λ row. (j : ℕ) → has_bit row.words.items j ≡ false) }
    {
        let words = vec![in alloc; 0; words]?;
        Ok(BitRow { words })
    }

    /// Whether the bit is 1.
    pub fn has(&self, k: usize) -> bool
        requires { k < 64 * length self.now.words.items }
        ensures { result ≡ has_bit self.now.words.items k }
    {
        (self.words[k / 64] >> (k % 64)) & 1 == 1
    }

    /// Makes the bit 1.
    pub fn add(&mut self, k: usize)
        requires { k < 64 * length self.old.words.items }
        ensures length { length self.new.words.items ≡ length self.old.words.items }
        ensures bits { (j : ℕ) → has_bit self.new.words.items j
            ≡ (eqb j k || has_bit self.old.words.items j) }
    {
        self.words[k / 64] |= 1 << (k % 64);
    }

    /// Makes each bit 1 that is 1 in the other.
    pub fn join(&mut self, other: &BitRow)
        requires { length other.now.words.items ≡ length self.old.words.items }
        ensures length { length self.new.words.items ≡ length self.old.words.items }
        ensures bits { (j : ℕ) → has_bit self.new.words.items j
            ≡ (has_bit self.old.words.items j || has_bit other.now.words.items j) }
    {
        'words: for i in 0..self.words.len() {
            self.words[i] |= other.words[i];
        }
    }
}
