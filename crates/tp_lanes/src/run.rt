// How many bytes of a class a text begins with.
ghost use Rattle.std.specs.Prelude.{◌≡◌, ◌+◌, ◌≤◌, length, take, drop};
ghost use Rattle.std.specs.List.{prefix_len};
ghost use Rattle.tp_lanes.specs.Classes.{in_class, first_set};

use crate::class::Class;
use std::simd::prelude::*;

const LANES: usize = 16;

// Which of the sixteen lowest bits is the first that is set.
#[inline(always)]
fn first_set(mask: u64) -> usize
    ensures { result ≡ first_set mask }
{
    if mask == 0 {
        LANES
    } else {
        mask.trailing_zeros() as usize
    }
}

// How many of the sixteen bytes from `at` on come before the first that isn't of the class.
#[inline(always)]
fn run_in(bytes: &[u8], at: usize, class: &Class) -> usize
    requires { at + LANES ≤ length bytes.now }
    ensures { result ≡ prefix_len (in_class class.now) (take 16 (drop at bytes.now)) }
{
    let v = u8x16::from_slice(&bytes[at..]);
    let (from0, to0) = class.ends(0);
    let (from1, to1) = class.ends(1);
    let (from2, to2) = class.ends(2);
    let (from3, to3) = class.ends(3);
    let outside0 = v.simd_lt(u8x16::splat(from0)) | v.simd_gt(u8x16::splat(to0));
    let outside1 = v.simd_lt(u8x16::splat(from1)) | v.simd_gt(u8x16::splat(to1));
    let outside2 = v.simd_lt(u8x16::splat(from2)) | v.simd_gt(u8x16::splat(to2));
    let outside3 = v.simd_lt(u8x16::splat(from3)) | v.simd_gt(u8x16::splat(to3));
    first_set((outside0 & outside1 & outside2 & outside3).to_bitmask())
}

/// How many bytes of the class the text begins with.
#[inline(always)]
pub fn run_len(bytes: &[u8], class: &Class) -> usize
    ensures { result ≡ prefix_len (in_class class.now) bytes.now }
{
    let mut end = 0;
    'by_block: while bytes.len() - end >= LANES {
        let run = run_in(bytes, end, class);
        end += run;
        if run < LANES {
            return end;
        }
    }
    while end < bytes.len() && class.has(bytes[end]) {
        end += 1;
    }
    end
}
