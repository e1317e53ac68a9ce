// The longest rows of free moves at one byte, or a cycle.

ghost use Rattle.std.specs.Prelude.{◌≡◌, ℕ, ◌+◌, ◌-◌, ◌*◌, ◌^◌, ◌<◌, ◌≤◌, ◌++◌, ◌∷◌, [], length, slice_index, IfOk, IfSome, IfNone, IsTrue, ◌↔◌};
ghost use Rattle.pp_flow.specs.steps.Search.{IsFreeAt, IsSearched, ComesRound};
ghost use Rattle.pp_flow.specs.steps.Table.{IsTable};
ghost use Rattle.pp_flow.specs.steps.Ranked.{RanksAt, RoundAt, IsRankedAt};
ghost use Rattle.pp_flow.specs.steps.Bits.{Has};

use crate::bits::has;
use crate::moves::Move;
use crate::reach::push;
use crate::tables::{copy_of, no_ranks, small_zeros};
use std::alloc::{AllocError, Global};

/// Whether a move is free where b comes next.
pub fn is_free(m: &Move, b: u8) -> bool
    ensures { IsTrue result ↔ IsFreeAt m.now b }
{
    m.free && m.lo <= b && b <= m.hi
}

/// Whether a path has a point.
pub fn has_any(path: &Vec<u32>) -> bool
    ensures { IsTrue result ↔ (0 < length path.now.items) }
{
    path.len() > 0
}

/// The first point of a path.
pub fn first_of(path: &Vec<u32>) -> u32
    requires { 0 < length path.now.items }
    ensures { result ≡ slice_index path.now.items 0 }
{
    path[0]
}

/// The last point of a path.
pub fn last_of(path: &Vec<u32>) -> u32
    requires { 0 < length path.now.items }
    ensures { result ≡ slice_index path.now.items (length path.now.items - 1) }
{
    path[path.len() - 1]
}

/// A path without its last point.
pub fn drop_last(path: &mut Vec<u32>)
    requires { 0 < length path.old.items }
    ensures { path.old.items ≡ path.new.items ++ slice_index path.old.items (length path.old.items - 1) ∷ [] }
{
    let _ = path.pop();
}

/// Ranks every point that free moves at b reach from the root, or gives a point on a cycle.
fn visit(
    alloc: Global,
    moves: &[Move],
    starts: &[usize],
    b: u8,
    color: &mut [u8],
    next: &mut [usize],
    rank: &mut [u32],
    root: u32,
) -> Result<Option<u32>, AllocError>
    requires table { IsTable moves.now starts.now (length color.old) }
    requires points { length color.old < 2 ^ 32 }
    requires searched { IsSearched moves.now starts.now (length color.old) b color.old next.old rank.old }
    requires root { root < length color.old }
    requires new { slice_index color.old root ≡ 0 }
    ensures none { IfOk result (λ found. IfNone found (IsSearched moves.now starts.now (length color.old) b color.new next.new rank.new)) }
    ensures ranked { IfOk result (λ found. IfNone found (slice_index color.new root ≡ 2)) }
    ensures kept { IfOk result (λ found. IfNone found ((x : ℕ) → slice_index color.old x ≡ 2 → slice_index color.new x ≡ 2)) }
    ensures some { IfOk result (λ found. IfSome found (ComesRound moves.now b root)) }
{
    let mut path: Vec<u32> = Vec::new(alloc);
    push(&mut path, root)?;
    color[root as usize] = 1;
    'walk: while has_any(&path) {
        let node = last_of(&path);
        let k = next[node as usize];
        if k == starts[node as usize + 1] {
            color[node as usize] = 2;
            drop_last(&mut path);
        } else {
            let m = moves[k];
            if !is_free(&m, b) {
                next[node as usize] = k + 1;
            } else if color[m.to as usize] == 0 {
                color[m.to as usize] = 1;
                push(&mut path, m.to)?;
            } else if color[m.to as usize] == 1 {
                return Ok(Some(m.to));
            } else {
                next[node as usize] = k + 1;
                rank[node as usize] = rank[node as usize].max(rank[m.to as usize] + 1);
            }
        }
    }
    Ok(None)
}

// Ranks every point that has a pair at b, or gives a point on a cycle.
fn visit_all(
    alloc: Global,
    moves: &[Move],
    starts: &[usize],
    words: &[u64],
    b: u8,
    color: &mut [u8],
    next: &mut [usize],
    rank: &mut [u32],
) -> Result<Option<u32>, AllocError>
    requires table { IsTable moves.now starts.now (length color.old) }
    requires points { length color.old < 2 ^ 32 }
    requires words { length words.now ≡ length color.old * 4 }
    requires searched { IsSearched moves.now starts.now (length color.old) b color.old next.old rank.old }
    ensures none { IfOk result (λ found. IfNone found (RanksAt moves.now (length color.old) words.now b rank.new)) }
    ensures some { IfOk result (λ found. IfSome found (RoundAt moves.now words.now b)) }
{
    for x in 0..color.len() as u32 {
        if !has(words, x, b) {
            continue;
        }
        if color[x as usize] != 0 {
            continue;
        }
        if let Some(node) = visit(alloc, moves, starts, b, color, next, rank, x)? {
            return Ok(Some(node));
        }
    }
    Ok(None)
}

/// The ranks of the points at one byte, or a point on a cycle.
#[derive(Drop)]
pub enum Ranked {
    Ranks(Vec<u32>),
    Round(u32),
}

/// Ranks the points that have a pair at b.
pub fn rank_at(
    alloc: Global,
    moves: &[Move],
    starts: &[usize],
    count: u32,
    words: &[u64],
    b: u8,
) -> Result<Ranked, AllocError>
    requires table { IsTable moves.now starts.now count }
    requires words { length words.now ≡ count * 4 }
    ensures { IfOk result (IsRankedAt moves.now count words.now b) }
{
    let mut color = small_zeros(alloc, count as usize)?;
    let mut next = copy_of(alloc, starts)?;
    let mut rank = no_ranks(alloc, count as usize)?;
    match visit_all(
        alloc, moves, starts, words, b, &mut color, &mut next, &mut rank,
    )? {
        Some(node) => Ok(Ranked::Round(node)),
        None => Ok(Ranked::Ranks(rank)),
    }
}
