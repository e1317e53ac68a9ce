// Loops of free moves, and the greatest number of them in a row.

ghost use Rattle.std.specs.Prelude.{◌≡◌, ℕ, ◌*◌, ◌^◌, ◌<◌, ◌≤◌, ◌⊎◌, length, slice_index, IfOk};
ghost use Rattle.pp_flow.specs.Loops.{IsJudged, IsLeastOnCycles};
ghost use Rattle.pp_flow.specs.steps.Bits.{Has};
ghost use Rattle.pp_flow.specs.steps.Judging.{IsLeastAt, lesser};
ghost use Rattle.pp_flow.specs.steps.Reach.{IsReachTable};
ghost use Rattle.pp_flow.specs.steps.Table.{IsTable};

use crate::bits::has;
use crate::moves::Move;
use crate::rank::{Ranked, first_of, rank_at};
use crate::reach::reachable;
use crate::round::least_round;
use std::alloc::{AllocError, Global};

/// The least loop of a flow, or its gap.
#[derive(Debug, Drop)]
pub enum Judged {
    /// Free moves lead from each point of `cycle` to the next and from its last to its first, where
    /// `byte` comes next. There is no loop at a lesser byte, and no lesser point is on one at this byte.
    Loop { byte: u8, cycle: Vec<u32> },
    /// There is no loop, and this is the greatest number of free moves in a row.
    Gap(u32),
}

// The greater of a gap and the ranks of the points that have a pair at b.
fn greatest(gap: u32, ranks: &[u32], words: &[u64], b: u8) -> u32
    requires points { length ranks.now < 2 ^ 32 }
    requires words { length words.now ≡ length ranks.now * 4 }
    ensures least { gap ≤ result }
    ensures most { (x : ℕ) → x < length ranks.now → Has words.now x b → slice_index ranks.now x ≤ result }
    ensures met { (result ≡ gap) ⊎ ((x : ℕ) × (x < length ranks.now) × Has words.now x b × (slice_index ranks.now x ≡ result)) }
{
    let mut most = gap;
    for x in 0..ranks.len() as u32 {
        if has(words, x, b) && most < ranks[x as usize] {
            most = ranks[x as usize];
        }
    }
    most
}

/// The least loop, or the gap.
pub fn judge(
    alloc: Global,
    moves: &[Move],
    starts: &[usize],
    count: u32,
    entry: u32,
) -> Result<Judged, AllocError>
    requires table { IsTable moves.now starts.now count }
    requires entry { entry < count }
    ensures { IfOk result (IsJudged moves.now entry count) }
{
    let words = reachable(alloc, moves, starts, count, entry)?;
    let mut gap = 0;
    for number in 0..256u16 {
        let b = number as u8;
        match rank_at(alloc, moves, starts, count, &words, b)? {
            Ranked::Ranks(ranks) => {
                gap = greatest(gap, &ranks, &words, b);
            }
            Ranked::Round(_) => {
                let cycle = least_round(alloc, moves, starts, count, &words, b)?;
                return Ok(Judged::Loop { byte: b, cycle });
            }
        }
    }
    Ok(Judged::Gap(gap))
}

// The least point on a cycle at one byte.
fn least_at(
    alloc: Global,
    moves: &[Move],
    starts: &[usize],
    count: u32,
    entry: u32,
    words: &[u64],
    b: u8,
) -> Result<Option<u32>, AllocError>
    requires table { IsTable moves.now starts.now count }
    requires entry { entry < count }
    requires reach { IsReachTable moves.now entry count words.now }
    ensures { IfOk result (IsLeastAt moves.now entry b) }
{
    match rank_at(alloc, moves, starts, count, words, b)? {
        Ranked::Ranks(_) => Ok(None),
        Ranked::Round(_) => {
            let cycle = least_round(alloc, moves, starts, count, words, b)?;
            Ok(Some(first_of(&cycle)))
        }
    }
}

// The lesser of two points, or the one that there is.
#[tactic(auto, unfolding(crate::specs::steps::Judging::lesser))]
fn lesser(a: Option<u32>, b: Option<u32>) -> Option<u32>
    ensures { result ≡ lesser a b }
{
    match (a, b) {
        (None, other) => other,
        (Some(x), None) => Some(x),
        (Some(x), Some(y)) => Some(x.min(y)),
    }
}

/// The least point that is on a cycle at any byte.
pub fn least_on_cycle(
    alloc: Global,
    moves: &[Move],
    starts: &[usize],
    count: u32,
    entry: u32,
) -> Result<Option<u32>, AllocError>
    requires table { IsTable moves.now starts.now count }
    requires entry { entry < count }
    ensures { IfOk result (IsLeastOnCycles moves.now entry) }
{
    let words = reachable(alloc, moves, starts, count, entry)?;
    let mut least = None;
    for number in 0..256u16 {
        let found = least_at(alloc, moves, starts, count, entry, &words, number as u8)?;
        least = lesser(least, found);
    }
    Ok(least)
}
