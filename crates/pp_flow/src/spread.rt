// How pairs spread along a move, a word at a time.

ghost use Rattle.std.specs.Prelude.{◌≡◌, ◌≢◌, ℕ, ◌+◌, ◌*◌, ◌<◌, ◌≤◌, ◌⊎◌, ◌↔◌, IsTrue, length};
ghost use Rattle.pp_flow.specs.steps.Bits.{Has};
ghost use Rattle.pp_flow.specs.steps.Spread.{Grows, Spreads};

use crate::moves::Move;
use crate::words::{chosen, merge};

/// Adds every pair of a point, and tells whether one was missing.
pub fn fill(words: &mut [u64], to: u32) -> bool
    requires { to * 4 + 4 ≤ length words.old }
    ensures grows { Grows to words.old words.new result }
    ensures all { (b : ℕ) → b < 256 → Has words.new to b }
{
    let mut changed = false;
    for quarter in 0..4u8 {
        changed |= merge(words, to, quarter, u64::MAX);
    }
    changed
}

/// Adds those pairs of a point that another has at the bytes from lo to hi, and tells whether one was missing.
fn pass(words: &mut [u64], from: u32, to: u32, lo: u8, hi: u8) -> bool
    requires from { from * 4 + 4 ≤ length words.old }
    requires to { to * 4 + 4 ≤ length words.old }
    ensures grows { Grows to words.old words.new result }
    ensures source { (b : ℕ) → b < 256 → Has words.new to b → Has words.old to b ⊎ ((lo ≤ b) × (b ≤ hi) × Has words.old from b) }
    ensures from { (b : ℕ) → b < 256 → Has words.new from b → Has words.old from b }
    ensures all { (b : ℕ) → lo ≤ b → b ≤ hi → Has words.old from b → Has words.new to b }
{
    let mut changed = false;
    for quarter in 0..4u8 {
        let bits = chosen(words, from, lo, hi, quarter);
        changed |= merge(words, to, quarter, bits);
    }
    changed
}

/// Whether a point has a pair at one of the bytes from lo to hi.
fn any_of(words: &[u64], from: u32, lo: u8, hi: u8) -> bool
    requires { from * 4 + 4 ≤ length words.now }
    ensures { IsTrue result ↔ ((a : ℕ) × (a < 256) × (lo ≤ a) × (a ≤ hi) × Has words.now from a) }
{
    for quarter in 0..4u8 {
        if chosen(words, from, lo, hi, quarter) != 0 {
            return true;
        }
    }
    false
}

/// Adds what a move leads to, and tells whether anything was missing.
pub fn spread(words: &mut [u64], m: Move) -> bool
    requires from { m.from * 4 + 4 ≤ length words.old }
    requires to { m.to * 4 + 4 ≤ length words.old }
    ensures grows { Grows m.to words.old words.new result }
    ensures spreads { Spreads m words.old words.new }
{
    let mut changed = false;
    if m.free {
        changed = pass(words, m.from, m.to, m.lo, m.hi);
    }
    if m.onward && any_of(words, m.from, m.lo, m.hi) {
        changed |= fill(words, m.to);
    }
    changed
}
