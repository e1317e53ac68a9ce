// Which pairs of a point and the next byte can be come to.

ghost use Rattle.std.specs.Prelude.{◌≡◌, ◌<◌, ◌≤◌, ◌*◌, ◌+◌, ◌++◌, ◌∷◌, [], ℕ, false, length, IfOk, OnOk, slice_index_or};
ghost use Rattle.pp_flow.specs.steps.Bits.{has_pair};
ghost use Rattle.pp_flow.specs.steps.Reach.{IsReachTable};
ghost use Rattle.pp_flow.specs.steps.Spread.{Steps};
ghost use Rattle.pp_flow.specs.steps.Table.{IsTable};

use crate::moves::Move;
use crate::spread::{fill, spread};
use crate::tables::{flags, zeros};
use std::alloc::{AllocError, Global};

/// The table of the pairs that can be come to from the entry.
pub fn reachable(
    alloc: Global,
    moves: &[Move],
    starts: &[usize],
    count: u32,
    entry: u32,
) -> Result<Vec<u64>, AllocError>
    requires table { IsTable moves.now starts.now count }
    requires entry { entry < count }
    ensures { IfOk result (λ words. IsReachTable moves.now entry count words.items) }
{
    let mut words = zeros(alloc, count as usize * 4)?;
    let mut waiting = flags(alloc, count as usize)?;
    settle(alloc, moves, starts, entry, &mut words, &mut waiting)?;
    Ok(words)
}

/// One more point on a stack.
pub fn push(stack: &mut Vec<u32>, node: u32) -> Result<(), AllocError>
    ensures { OnOk result (stack.new.items ≡ stack.old.items ++ node ∷ []) }
{
    stack.push(node)?;
    Ok(())
}

// Spreads pairs along a move, whose end then waits if it has new pairs.
fn step(
    words: &mut [u64],
    waiting: &mut [bool],
    stack: &mut Vec<u32>,
    m: Move,
) -> Result<(), AllocError>
    requires from { m.from * 4 + 4 ≤ length words.old }
    requires to { m.to * 4 + 4 ≤ length words.old }
    requires flag { m.to < length waiting.old }
    ensures { OnOk result (Steps m words.old words.new waiting.old waiting.new stack.old.items stack.new.items) }
{
    if spread(words, m) {
        if !waiting[m.to as usize] {
            waiting[m.to as usize] = true;
            push(stack, m.to)?;
        }
    }
    Ok(())
}

// Fills a table of no pairs. A point whose pairs grew waits on a stack until they have spread along its moves.
fn settle(
    alloc: Global,
    moves: &[Move],
    starts: &[usize],
    entry: u32,
    words: &mut [u64],
    waiting: &mut [bool],
) -> Result<(), AllocError>
    requires table { IsTable moves.now starts.now (length waiting.old) }
    requires entry { entry < length waiting.old }
    requires long { length words.old ≡ length waiting.old * 4 }
    requires none { (x b : ℕ) → has_pair words.old x b ≡ false }
    requires down { (x : ℕ) → slice_index_or waiting.old x false ≡ false }
    ensures { OnOk result (IsReachTable moves.now entry (length waiting.old) words.new) }
{
    fill(words, entry);
    waiting[entry as usize] = true;
    let mut stack: Vec<u32> = Vec::new(alloc);
    push(&mut stack, entry)?;
    while let Some(node) = stack.pop() {
        waiting[node as usize] = false;
        for k in starts[node as usize]..starts[node as usize + 1] {
            step(words, waiting, &mut stack, moves[k])?;
        }
    }
    Ok(())
}
