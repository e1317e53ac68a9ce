// Which spans may be open or shut at a point.

ghost use Rattle.std.specs.Prelude.{◌≡◌, ◌<◌, ◌≤◌, ◌*◌, ◌+◌, ℕ, false, length, IfOk, OnOk, slice_index_or};
ghost use Rattle.pp_flow.specs.steps.Bits.{Has, has_pair, has_low};
ghost use Rattle.pp_flow.specs.Spans.{leads, HaveSpans};
ghost use Rattle.pp_flow.specs.steps.Spans.{IsSpanTable, PassesOn, SpanSteps};
ghost use Rattle.pp_flow.specs.steps.Spread.{Grows};
ghost use Rattle.pp_flow.specs.steps.Table.{IsTable};

use crate::bits::{add, has};
use crate::moves::{Act, Move};
use crate::reach::push;
use crate::tables::{flags, zeros};
use std::alloc::{AllocError, Global};

// What a point makes of the standing of a span.
fn led(act: Act, b: u8) -> u8
    requires { leads act b < 256 }
    ensures { result ≡ leads act b }
{
    match act {
        Act::Opens(s) if u32::from(b / 2) == s => b / 2 * 2 + 1,
        Act::Closes(s) if u32::from(b / 2) == s => b / 2 * 2,
        _ => b,
    }
}

// The first 64 bits of a point.
fn low_bits(words: &[u64], node: u32) -> u64
    requires { node * 4 + 4 ≤ length words.now }
    ensures { (b : ℕ) → b < 64 → has_low result b ≡ has_pair words.now node b }
{
    words[node as usize * 4]
}

// Whether one of them is set.
fn is_set(bits: u64, b: u8) -> bool
    requires { b < 64 }
    ensures { result ≡ has_low bits b }
{
    bits >> b & 1 == 1
}

// Passes the standings of one point on to the end of an edge, and tells whether one was missing.
fn pass_on(words: &mut [u64], act: Act, from: u32, to: u32) -> bool
    requires from { from * 4 + 4 ≤ length words.old }
    requires to { to * 4 + 4 ≤ length words.old }
    requires small { (b : ℕ) → b < 64 → leads act b < 64 }
    ensures grows { Grows to words.old words.new result }
    ensures passes { PassesOn act from to words.old words.new }
{
    let bits = low_bits(words, from);
    let mut changed = false;
    for b in 0..64u8 {
        if is_set(bits, b) {
            let c = led(act, b);
            if !has(words, to, c) {
                add(words, to, c);
                changed = true;
            }
        }
    }
    changed
}

// The same. The end then waits if it has new standings.
fn step_on(
    words: &mut [u64],
    waiting: &mut [bool],
    stack: &mut Vec<u32>,
    act: Act,
    m: Move,
) -> Result<(), AllocError>
    requires from { m.from * 4 + 4 ≤ length words.old }
    requires to { m.to * 4 + 4 ≤ length words.old }
    requires flag { m.to < length waiting.old }
    requires small { (b : ℕ) → b < 64 → leads act b < 64 }
    ensures { OnOk result (SpanSteps act m.from m.to words.old words.new waiting.old waiting.new stack.old.items stack.new.items) }
{
    if pass_on(words, act, m.from, m.to) {
        if !waiting[m.to as usize] {
            waiting[m.to as usize] = true;
            push(stack, m.to)?;
        }
    }
    Ok(())
}

// Every span is shut at the entry.
fn shut_all(words: &mut [u64], entry: u32)
    requires room { entry * 4 + 4 ≤ length words.old }
    requires none { (x b : ℕ) → has_pair words.old x b ≡ false }
    ensures long { length words.new ≡ length words.old }
    ensures only { (x b : ℕ) → b < 256 → Has words.new x b → (x ≡ entry) × ((s : ℕ) × (s < 32) × (b ≡ s * 2)) }
    ensures all { (s : ℕ) → s < 32 → Has words.new entry (s * 2) }
{
    for s in 0..32u8 {
        add(words, entry, s * 2);
    }
}

// Fills a table of no standings. A point whose standings grew waits on a stack until they are passed on.
fn stand_all(
    alloc: Global,
    moves: &[Move],
    starts: &[usize],
    acts: &[Act],
    entry: u32,
    words: &mut [u64],
    waiting: &mut [bool],
) -> Result<(), AllocError>
    requires table { IsTable moves.now starts.now (length waiting.old) }
    requires acts { length acts.now ≡ length waiting.old }
    requires spans { HaveSpans acts.now }
    requires entry { entry < length waiting.old }
    requires long { length words.old ≡ length waiting.old * 4 }
    requires none { (x b : ℕ) → has_pair words.old x b ≡ false }
    requires down { (x : ℕ) → slice_index_or waiting.old x false ≡ false }
    ensures { OnOk result (IsSpanTable moves.now acts.now entry (length waiting.old) words.new) }
{
    shut_all(words, entry);
    waiting[entry as usize] = true;
    let mut stack: Vec<u32> = Vec::new(alloc);
    push(&mut stack, entry)?;
    while let Some(node) = stack.pop() {
        waiting[node as usize] = false;
        for k in starts[node as usize]..starts[node as usize + 1] {
            step_on(words, waiting, &mut stack, acts[node as usize], moves[k])?;
        }
    }
    Ok(())
}

/// The table of the standings of spans at each point.
pub fn standings(
    alloc: Global,
    moves: &[Move],
    starts: &[usize],
    acts: &[Act],
    count: u32,
    entry: u32,
) -> Result<Vec<u64>, AllocError>
    requires table { IsTable moves.now starts.now count }
    requires acts { length acts.now ≡ count }
    requires spans { HaveSpans acts.now }
    requires entry { entry < count }
    ensures { IfOk result (λ words. IsSpanTable moves.now acts.now entry count words.items) }
{
    let mut words = zeros(alloc, count as usize * 4)?;
    let mut waiting = flags(alloc, count as usize)?;
    stand_all(alloc, moves, starts, acts, entry, &mut words, &mut waiting)?;
    Ok(words)
}
