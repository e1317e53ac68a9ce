// 32 bytes at a time.
ghost use Rattle.std.specs.Prelude.{◌≡◌, ◌≤◌, length, take};
ghost use Rattle.std.specs.List.{prefix_len};
ghost use Rattle.pp_bytes.specs.Ranges.{in_pair, in_ranges};
ghost use Rattle.pp_scan.specs.steps.Lanes.{bits_of};

use pp_bytes::Ranges;
use std::simd::prelude::*;

pub(crate) const LANES: usize = 32;

// How many of the first 32 bytes come before the first that is in no range.
#[inline(always)]
pub(crate) fn block_run(ranges: &Ranges, bytes: &[u8]) -> usize
    requires { LANES ≤ length bytes.now }
    ensures { result ≡ prefix_len (in_ranges ranges.now) (take LANES bytes.now) }
{
    bits_in_ranges(ranges, u8x32::from_slice(bytes)).trailing_ones() as usize
}

// Which lanes have a byte that is in one of the ranges.
#[inline(always)]
fn bits_in_ranges(ranges: &Ranges, block: u8x32) -> u64
    requires { length block ≡ 32 }
    ensures { result ≡ bits_of (in_ranges ranges.now) block }
{
    let mut inside = 0;
    for i in 0..ranges.len() {
        let (lo, hi) = ranges.get(i);
        inside |= bits_in_pair(block, lo, hi);
    }
    inside
}

// Which lanes have a byte from lo to hi.
#[inline(always)]
fn bits_in_pair(block: u8x32, lo: u8, hi: u8) -> u64
    requires { length block ≡ 32 }
    ensures { result ≡ bits_of (λ b. in_pair b (lo, hi)) block }
{
    let inside = block.simd_ge(u8x32::splat(lo)) & block.simd_le(u8x32::splat(hi));
    inside.to_bitmask()
}
