// Ranges of bytes, at most 8 of them.
ghost use Rattle.std.specs.Prelude.{◌≡◌, ◌<◌, ◌↔◌, ◌++◌, ◌∷◌, [], IsTrue, Some, length, slice_get};
ghost use Rattle.pp_bytes.specs.Ranges.{in_ranges, IsRanges, CanFollow};

use std::marker::Model;

const MOST: usize = 8;

/// Pairs (lo, hi) of bytes, each of which stands for the bytes from lo to hi, both included.
///
/// At most 8, ascending, disjoint and not adjacent. Takes no memory.
#[derive(Clone, Copy, Debug, PartialEq, Eq)]
pub struct Ranges {
    pairs: [(u8, u8); MOST],
    count: u32,
}

impl Model for Ranges {
    ghost use Rattle.std.specs.Prelude.{List, ℕ};

    ghost Value = { List (ℕ × ℕ) };

    ghost use Rattle.pp_bytes.specs.steps.Pairs.{pairs_in_use, HoldsRanges, padded, padded-in_use};

    ghost view = { pairs_in_use };

    ghost invariant = { HoldsRanges };

    ghost inverse = { padded };

    ghost inverse_ok = { padded-in_use };
}

impl Ranges {
    /// No pair at all.
    pub fn new() -> Ranges
        ensures { result ≡ [] }
    {
        Ranges {
            pairs: [(0, 0); MOST],
            count: 0,
        }
    }

    /// How many pairs there are.
    pub fn len(&self) -> u32
        ensures count { result ≡ length self.now }
        ensures form { IsRanges self.now }
    {
        self.count
    }

    /// The pair at place `i`, from 0.
    pub fn get(&self, i: u32) -> (u8, u8)
        requires { i < length self.now }
        ensures { slice_get self.now i ≡ Some result }
    {
        self.pairs[i as usize]
    }

    /// Whether `b` is in one of the pairs.
    pub fn has(&self, b: u8) -> bool
        ensures { result ≡ in_ranges self.now b }
    {
        self.pairs[..self.count as usize]
            .iter()
            .any(|(lo, hi)| *lo <= b && b <= *hi)
    }

    /// Whether the pair (lo, hi) may be pushed.
    pub fn can_push(&self, lo: u8, hi: u8) -> bool
        ensures { IsTrue result ↔ CanFollow self.now lo hi }
    {
        (self.count as usize) < MOST
            && lo <= hi
            && self.pairs[..self.count as usize]
                .iter()
                .all(|(_, before)| *before < lo && *before + 1 < lo)
    }

    /// Adds the pair (lo, hi) after all others.
    pub fn push(&mut self, lo: u8, hi: u8)
        requires { CanFollow self.old lo hi }
        ensures { self.new ≡ self.old ++ (lo, hi) ∷ [] }
    {
        self.pairs[self.count as usize] = (lo, hi);
        self.count += 1;
    }
}
