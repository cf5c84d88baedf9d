// Counts of rows, and rows of eight words.
ghost use Rattle.std.specs.Prelude.{◌≡◌, ℕ, ◌+◌, ◌%◌, ◌<◌, ◌≤◌, true, length, take, sum, slice_index, bit_or};

use std::simd::prelude::*;

// Whether the eight numbers from `at` on are all 0.
#[inline(always)]
fn are_empty(counts: &[u64], at: usize) -> bool
    requires { at + 8 ≤ length counts.now }
    ensures { result ≡ true → (k : ℕ) → at ≤ k → k < at + 8 → slice_index counts.now k ≡ 0 }
{
    let row = u64x8::from_slice(&counts[at..]);
    row.simd_ne(u64x8::splat(0)).to_bitmask() == 0
}

// The place of the first count that isn't 0, or the length.
pub fn first_filled(counts: &[u64]) -> usize
    ensures within { result ≤ length counts.now }
    ensures before { (k : ℕ) → k < result → slice_index counts.now k ≡ 0 }
    ensures here { result < length counts.now → 0 < slice_index counts.now result }
{
    let mut at = 0;
    'by_eight: while counts.len() - at >= 8 && are_empty(counts, at) {
        at += 8;
    }
    'rest: while at < counts.len() && counts[at] == 0 {
        at += 1;
    }
    at
}

// The place behind the last count that isn't 0, or 0.
pub fn last_filled(counts: &[u64]) -> usize
    ensures within { result ≤ length counts.now }
    ensures behind { (k : ℕ) → result ≤ k → k < length counts.now → slice_index counts.now k ≡ 0 }
    ensures here { 0 < result → (k : ℕ) → k + 1 ≡ result → 0 < slice_index counts.now k }
{
    let mut end = counts.len();
    'by_eight: while end >= 8 && are_empty(counts, end - 8) {
        end -= 8;
    }
    'rest: while end > 0 && counts[end - 1] == 0 {
        end -= 1;
    }
    end
}

// The place with so many before it: its row, and how many stand before it in the row.
pub fn row_of_place(counts: &[u64], place: u64) -> (usize, u64)
    requires { place < sum counts.now }
    ensures within { result.0 < length counts.now }
    ensures here { result.1 < slice_index counts.now result.0 }
    ensures before { sum (take result.0 counts.now) + result.1 ≡ place }
{
    let mut row = 0;
    let mut left = place;
    while counts[row] <= left {
        left -= counts[row];
        row += 1;
    }
    (row, left)
}

// Joins a row of words with another.
#[inline(always)]
fn join_row(words: &mut [u64], other: &[u64], at: usize)
    requires room { at + 8 ≤ length words.old }
    requires other_room { at + 8 ≤ length other.now }
    ensures len { length words.new ≡ length words.old }
    ensures inside { (k : ℕ) → at ≤ k → k < at + 8
        → slice_index words.new k ≡ bit_or (slice_index words.old k) (slice_index other.now k) }
    ensures below { (k : ℕ) → k < at → slice_index words.new k ≡ slice_index words.old k }
    ensures above { (k : ℕ) → at + 8 ≤ k → slice_index words.new k ≡ slice_index words.old k }
{
    let joined = u64x8::from_slice(&words[at..]) | u64x8::from_slice(&other[at..]);
    joined.copy_to_slice(&mut words[at..]);
}

// Joins words with others, which are whole rows.
pub fn join_words(words: &mut Vec<u64>, other: &[u64])
    requires room { length other.now ≤ length words.old.items }
    requires rows { length other.now % 8 ≡ 0 }
    ensures len { length words.new.items ≡ length words.old.items }
    ensures each { (k : ℕ) → slice_index words.new.items k
        ≡ bit_or (slice_index words.old.items k) (slice_index other.now k) }
{
    let mut at = 0;
    while at < other.len() {
        join_row(words.as_mut_slice(), other, at);
        at += 8;
    }
}
