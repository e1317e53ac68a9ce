// Sets of bytes.
ghost use Rattle.std.specs.Prelude.{◌≡◌, ℕ, ◌+◌, ◌<◌, ◌≤◌, ◌↔◌, [], length, true, IfSome, IfNone, IsSome, IsNone, IsTrue};
ghost use Rattle.std.specs.FinSet as set;
ghost use Rattle.pp_bytes.specs.Bytes.{bytes_of, set_of_table};
ghost use Rattle.pp_bytes.specs.steps.Found.{EndsRun, HasRunsBelow};
ghost use Rattle.pp_bytes.specs.Ranges.{in_ranges};
ghost use Rattle.pp_bytes.specs.Runs.{begins_run, runs_of};

use crate::ranges::Ranges;
use std::marker::Model;

/// A set of bytes.
#[derive(Debug, Drop)]
pub struct ByteSet {
    words: [u64; 4],
}

impl Model for ByteSet {
    ghost use Rattle.std.specs.FinSet as set;
    ghost use Rattle.std.specs.Coded.{coded_ℕ};
    ghost use Rattle.std.specs.Ordering.{nat_cmp};
    ghost use Rattle.pp_bytes.specs.Bytes.{set_of_table};

    ghost Value = { set.FinSet nat_cmp };

    ghost coded = { set.code coded_ℕ };

    ghost view = { λ a. set_of_table a.words };
}

impl ByteSet {
    /// The set without a byte.
    pub fn new() -> ByteSet
        ensures { result ≡ set.empty }
    {
        ByteSet { words: [0; 4] }
    }

    /// Adds a byte, if it is not there yet.
    pub fn add(&mut self, b: u8)
        ensures { self.new ≡ set.insert self.old b }
    {
        self.words[(b / 64) as usize] |= 1 << (b % 64);
    }

    /// Whether a byte is in the set.
    pub fn has(&self, b: u8) -> bool
        ensures { result ≡ set.contains self.now b }
    {
        self.words[(b / 64) as usize] >> (b % 64) & 1 == 1
    }

    /// Whether no byte is in the set.
    pub fn is_empty(&self) -> bool
        ensures { IsTrue result ↔ (bytes_of self.now ≡ []) }
    {
        no_bits(&self.words)
    }

    /// How many bytes are in the set.
    pub fn len(&self) -> u32
        ensures { result ≡ length (bytes_of self.now) }
    {
        set_bits(&self.words)
    }

    /// The bytes of the set as ranges, one for each run of neighbouring bytes.
    ///
    /// `None` exactly where the set has more than 8 runs. Takes no memory.
    pub fn ranges(&self) -> Option<Ranges>
        ensures same { IfSome result (λ ranges. (b : ℕ) → b < 256 → in_ranges ranges b ≡ set.contains self.now b) }
        ensures some { IsSome result ↔ (runs_of self.now ≤ 8) }
        ensures none { IsNone result ↔ (8 < runs_of self.now) }
    {
        let mut ranges = Ranges::new();
        for b in 0..=u8::MAX {
            ranges = self.with_run(ranges, b)?;
        }
        Some(ranges)
    }

    // The ranges with the run that begins at a byte, if one does. None where it is one too many.
    fn with_run(&self, mut ranges: Ranges, b: u8) -> Option<Ranges>
        requires { HasRunsBelow self.now ranges b }
        ensures found { IfSome result (λ more. HasRunsBelow self.now more (b + 1)) }
        ensures full { IfNone result (8 < runs_of self.now) }
    {
        if self.begins_run(b) {
            if ranges.len() == 8 {
                return None;
            }
            ranges.push(b, self.run_end(b));
        }
        Some(ranges)
    }

    // Whether a run begins at a byte.
    fn begins_run(&self, b: u8) -> bool
        ensures { result ≡ begins_run self.now b }
    {
        self.has(b) && (b == 0 || !self.has(b - 1))
    }

    // The last byte of the run that a byte of the set stands in.
    fn run_end(&self, b: u8) -> u8
        requires { set.contains self.now b ≡ true }
        ensures { EndsRun self.now b result }
    {
        let mut end = b;
        while end < u8::MAX && self.has(end + 1) {
            end += 1;
        }
        end
    }
}

// Whether a table has no bit set.
fn no_bits(words: &[u64; 4]) -> bool
    ensures { IsTrue result ↔ (bytes_of (set_of_table words.now) ≡ []) }
{
    *words == [0; 4]
}

// How many bits of a table are set.
fn set_bits(words: &[u64]) -> u32
    requires { length words.now ≡ 4 }
    ensures { result ≡ length (bytes_of (set_of_table words.now)) }
{
    let low = words[0].count_ones() + words[1].count_ones();
    let high = words[2].count_ones() + words[3].count_ones();
    low + high
}
