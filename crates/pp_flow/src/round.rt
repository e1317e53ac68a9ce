// A cycle of free moves at one byte.

ghost use Rattle.std.specs.Prelude.{◌≡◌, ◌≢◌, ℕ, ◌*◌, ◌^◌, ◌<◌, ◌≤◌, length, slice_index, IfOk, IfSome, IfNone};
ghost use Rattle.pp_flow.specs.Loops.{IsCycle};
ghost use Rattle.pp_flow.specs.steps.Round.{IsOnNoCycle, HasRound, IsLeastRound};
ghost use Rattle.pp_flow.specs.steps.Table.{IsTable};

use crate::bits::has;
use crate::moves::Move;
use crate::parts::candidates;
use crate::rank::{drop_last, has_any, is_free, last_of};
use crate::reach::push;
use crate::tables::{copy_of, small_zeros};
use std::alloc::{AllocError, Global};

// A cycle through a point, if it is on one. The tables are those of a search that has not begun.
fn round(
    alloc: Global,
    moves: &[Move],
    starts: &[usize],
    b: u8,
    color: &mut [u8],
    next: &mut [usize],
    root: u32,
) -> Result<Option<Vec<u32>>, AllocError>
    requires table { IsTable moves.now starts.now (length color.old) }
    requires points { length color.old < 2 ^ 32 }
    requires new { (x : ℕ) → slice_index color.old x ≡ 0 }
    requires start { next.old ≡ starts.now }
    requires root { root < length color.old }
    ensures cycle { IfOk result (λ found. IfSome found (λ cycle. IsCycle moves.now b cycle.items)) }
    ensures first { IfOk result (λ found. IfSome found (λ cycle. slice_index cycle.items 0 ≡ root)) }
    ensures none { IfOk result (λ found. IfNone found (IsOnNoCycle moves.now b root)) }
{
    let mut path: Vec<u32> = Vec::new(alloc);
    push(&mut path, root)?;
    color[root as usize] = 1;
    'walk: while has_any(&path) {
        let node = last_of(&path);
        let k = next[node as usize];
        if k == starts[node as usize + 1] {
            drop_last(&mut path);
        } else {
            let m = moves[k];
            if !is_free(&m, b) {
                next[node as usize] = k + 1;
            } else if m.to == root {
                return Ok(Some(path));
            } else if color[m.to as usize] == 0 {
                color[m.to as usize] = 1;
                push(&mut path, m.to)?;
            } else {
                next[node as usize] = k + 1;
            }
        }
    }
    Ok(None)
}

// The same, with tables of its own.
fn round_at(
    alloc: Global,
    moves: &[Move],
    starts: &[usize],
    count: u32,
    b: u8,
    root: u32,
) -> Result<Option<Vec<u32>>, AllocError>
    requires table { IsTable moves.now starts.now count }
    requires root { root < count }
    ensures cycle { IfOk result (λ found. IfSome found (λ cycle. IsCycle moves.now b cycle.items)) }
    ensures first { IfOk result (λ found. IfSome found (λ cycle. slice_index cycle.items 0 ≡ root)) }
    ensures none { IfOk result (λ found. IfNone found (IsOnNoCycle moves.now b root)) }
{
    let mut color = small_zeros(alloc, count as usize)?;
    let mut next = copy_of(alloc, starts)?;
    round(alloc, moves, starts, b, &mut color, &mut next, root)
}

/// A cycle through the least point that has a pair at b and is on a cycle.
pub fn least_round(
    alloc: Global,
    moves: &[Move],
    starts: &[usize],
    count: u32,
    words: &[u64],
    b: u8,
) -> Result<Vec<u32>, AllocError>
    requires table { IsTable moves.now starts.now count }
    requires words { length words.now ≡ count * 4 }
    requires some { HasRound moves.now count words.now b }
    ensures { IfOk result (λ cycle. IsLeastRound moves.now words.now b cycle.items) }
{
    let candidates = candidates(alloc, moves, starts, count, b)?;
    for x in 0..count {
        if !has(words, x, b) || !candidates[x as usize] {
            continue;
        }
        if let Some(cycle) = round_at(alloc, moves, starts, count, b, x)? {
            return Ok(cycle);
        }
    }
    unreachable!()
}
