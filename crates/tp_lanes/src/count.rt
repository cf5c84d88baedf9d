// How often a byte stands in a text.
ghost use Rattle.std.specs.Prelude.{◌≡◌, ◌+◌, ◌≤◌, ◌==◌, length, count_by, take, drop};

use std::simd::prelude::*;

const LANES: usize = 16;

// How many of the sixteen bytes from `at` on are this one.
#[inline(always)]
fn count_in(bytes: &[u8], at: usize, byte: u8) -> usize
    requires { at + LANES ≤ length bytes.now }
    ensures { result ≡ count_by (λ b. b == byte) (take 16 (drop at bytes.now)) }
{
    let v = u8x16::from_slice(&bytes[at..]);
    v.simd_eq(u8x16::splat(byte)).to_bitmask().count_ones() as usize
}

/// How many of the bytes are this one.
pub fn count_byte(bytes: &[u8], byte: u8) -> usize
    ensures { result ≡ count_by (λ b. b == byte) bytes.now }
{
    let mut at = 0;
    let mut total = 0;
    'by_block: while bytes.len() - at >= LANES {
        total += count_in(bytes, at, byte);
        at += LANES;
    }
    while at < bytes.len() {
        if bytes[at] == byte {
            total += 1;
        }
        at += 1;
    }
    total
}
