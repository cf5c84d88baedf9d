// Members within a row of eight words.
ghost use Rattle.std.specs.Prelude.{◌≡◌, ℕ, ◌+◌, ◌*◌, ◌<◌, ◌≤◌, ◌^◌, true, false, length, slice_index, count_ones};
ghost use Rattle.std.specs.Int.{bit_at};
ghost use Rattle.tp_lanes.specs.Planes.{AreEmpty, bit_of, bit_in, passing_below, HasBetween};

use std::simd::prelude::*;

// The first of the eight words from `at` on that isn't empty.
#[inline(always)]
fn first_word(words: &[u64], at: usize) -> usize
    requires room { at + 8 ≤ length words.now }
    requires some { AreEmpty words.now at (at + 8) → ⊥ }
    ensures from { at ≤ result }
    ensures within { result < at + 8 }
    ensures before { AreEmpty words.now at result }
    ensures here { 0 < slice_index words.now result }
{
    let row = u64x8::from_slice(&words[at..]);
    at + row.simd_ne(u64x8::splat(0)).to_bitmask().trailing_zeros() as usize
}

// The last of them.
fn last_word(words: &[u64], at: usize) -> usize
    requires room { at + 8 ≤ length words.now }
    requires some { AreEmpty words.now at (at + 8) → ⊥ }
    ensures from { at ≤ result }
    ensures within { result < at + 8 }
    ensures behind { AreEmpty words.now (result + 1) (at + 8) }
    ensures here { 0 < slice_index words.now result }
{
    let mut word = at + 7;
    while words[word] == 0 {
        word -= 1;
    }
    word
}

// The least member in a row that has one.
pub fn first_member(words: &[u64], row: usize) -> u64
    requires room { 8 * row + 8 ≤ length words.now }
    requires fits { 512 * row + 512 ≤ 2 ^ 64 }
    requires some { AreEmpty words.now (8 * row) (8 * row + 8) → ⊥ }
    ensures member { bit_in words.now result ≡ true }
    ensures least { (k : ℕ) → 512 * row ≤ k → k < result → bit_in words.now k ≡ false }
{
    let word = first_word(words, 8 * row);
    64 * word as u64 + words[word].trailing_zeros() as u64
}

// The greatest member in a row that has one.
pub fn last_member(words: &[u64], row: usize) -> u64
    requires room { 8 * row + 8 ≤ length words.now }
    requires fits { 512 * row + 512 ≤ 2 ^ 64 }
    requires some { AreEmpty words.now (8 * row) (8 * row + 8) → ⊥ }
    ensures member { bit_in words.now result ≡ true }
    ensures greatest { (k : ℕ) → result < k → k < 512 * row + 512 → bit_in words.now k ≡ false }
{
    let word = last_word(words, 8 * row);
    64 * word as u64 + (63 - words[word].leading_zeros() as u64)
}

// How many members a word has.
#[inline(always)]
fn ones(words: &[u64], word: usize) -> u64
    requires { word < length words.now }
    ensures { result ≡ count_ones (slice_index words.now word) }
{
    words[word].count_ones() as u64
}

// How many members a row has.
pub fn row_count(words: &[u64], row: usize) -> u64
    requires { 8 * row + 8 ≤ length words.now }
    ensures { HasBetween (bit_in words.now) (512 * row) (512 * row + 512) result }
{
    let mut total = 0;
    for word in 8 * row..8 * row + 8 {
        total += ones(words, word);
    }
    total
}

// Whether a word has the bit, as 1 or 0.
#[inline(always)]
pub fn bit(word: u64, place: u64) -> u64
    requires { place < 64 }
    ensures { result ≡ bit_at word place }
{
    word >> place & 1
}

// The bit of a word with so many before it.
fn bit_of_place(word: u64, place: u64) -> u64
    requires { place < count_ones word }
    ensures within { result < 64 }
    ensures member { bit_of word result ≡ true }
    ensures before { passing_below (bit_of word) result ≡ place }
{
    let mut at = 0;
    let mut left = place;
    while bit(word, at) <= left {
        left -= bit(word, at);
        at += 1;
    }
    at
}

// The word of a row that has its member of this place, and how many come before that in the word.
fn word_of_place(words: &[u64], row: usize, place: u64) -> (usize, u64)
    requires room { 8 * row + 8 ≤ length words.now }
    requires some { passing_below (bit_in words.now) (512 * row) + place
        < passing_below (bit_in words.now) (512 * row + 512) }
    ensures within { result.0 < 8 * row + 8 }
    ensures here { result.1 < count_ones (slice_index words.now result.0) }
    ensures before { passing_below (bit_in words.now) (64 * result.0) + result.1
        ≡ passing_below (bit_in words.now) (512 * row) + place }
{
    let mut word = 8 * row;
    let mut left = place;
    while ones(words, word) <= left {
        left -= ones(words, word);
        word += 1;
    }
    (word, left)
}

// The member of a row with so many of the row before it.
pub fn member_of_place(words: &[u64], row: usize, place: u64) -> u64
    requires room { 8 * row + 8 ≤ length words.now }
    requires fits { 512 * row + 512 ≤ 2 ^ 64 }
    requires some { passing_below (bit_in words.now) (512 * row) + place
        < passing_below (bit_in words.now) (512 * row + 512) }
    ensures member { bit_in words.now result ≡ true }
    ensures before { passing_below (bit_in words.now) result
        ≡ passing_below (bit_in words.now) (512 * row) + place }
{
    let found = word_of_place(words, row, place);
    let bit = bit_of_place(words[found.0], found.1);
    64 * found.0 as u64 + bit
}

// Counts each row anew, and says how many members there are.
pub fn count_rows(words: &[u64], rows: &mut Vec<u64>) -> u64
    requires room { length words.now ≡ 8 * length rows.old.items }
    requires few { passing_below (bit_in words.now) (512 * length rows.old.items) < 2 ^ 64 }
    ensures len { length rows.new.items ≡ length rows.old.items }
    ensures counts { (r : ℕ) → r < length rows.new.items
        → HasBetween (bit_in words.now) (512 * r) (512 * r + 512) (slice_index rows.new.items r) }
    ensures total { result ≡ passing_below (bit_in words.now) (512 * length rows.new.items) }
{
    let mut total = 0;
    for row in 0..rows.len() {
        let count = row_count(words, row);
        rows[row] = count;
        total += count;
    }
    total
}
