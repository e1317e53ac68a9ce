// Faults of spans.

ghost use Rattle.std.specs.Prelude.{◌≡◌, ℕ, ◌<◌, ◌≤◌, ◌*◌, ◌+◌, ◌^◌, length, IfOk, IfSome, IfNone};
ghost use Rattle.pp_flow.specs.steps.Bits.{Has, has_low, has_pair};
ghost use Rattle.pp_flow.specs.Faults.{HasNoFault, IsFirstFault, IsFitting};
ghost use Rattle.pp_flow.specs.steps.Faults.{IsMixedFault, IsToldAt};
ghost use Rattle.pp_flow.specs.Spans.{HaveSpans};
ghost use Rattle.pp_flow.specs.steps.Spans.{TellsMasks};
ghost use Rattle.pp_flow.specs.steps.Table.{IsTable};

use crate::bits::has;
use crate::moves::{Act, Move};
use crate::reach::push;
use crate::spans::standings;
use std::alloc::{AllocError, Global};

/// A fault of a span at a point. At one point they come in this order, and of each the least span first.
#[derive(Clone, Copy, Debug, PartialEq, Eq)]
pub enum SpanFault {
    /// The point opens a span that may be open already.
    Reopened { node: u32, span: u32 },
    /// The point closes a span that may be shut.
    NotOpen { node: u32, span: u32 },
    /// The span may be open there and may be shut, and the point is not one that fails.
    Mixed { node: u32, span: u32 },
}

/// The spans that may be open at each point, or the first fault of the least point that has one.
#[derive(Debug, Drop)]
pub enum Fitting {
    /// No point has a fault. A mask for each point: bit s says that span s may be open there.
    Fit(Vec<u32>),
    /// The first fault.
    Fault(SpanFault),
}

// The least span that may be open and may be shut at a point.
fn mixed_at(words: &[u64], node: u32) -> Option<u32>
    requires { node * 4 + 4 ≤ length words.now }
    ensures some { IfSome result (λ s. (s < 32) × Has words.now node (s * 2 + 1) × Has words.now node (s * 2) × ((t : ℕ) → t < s → Has words.now node (t * 2 + 1) → Has words.now node (t * 2) → ⊥)) }
    ensures none { IfNone result ((t : ℕ) → t < 32 → Has words.now node (t * 2 + 1) → Has words.now node (t * 2) → ⊥) }
{
    for s in 0..32u8 {
        if has(words, node, s * 2 + 1) && has(words, node, s * 2) {
            return Some(u32::from(s));
        }
    }
    None
}

// The same as a fault.
fn mixed_fault(words: &[u64], node: u32) -> Option<SpanFault>
    requires { node * 4 + 4 ≤ length words.now }
    ensures { IsMixedFault (λ b n. Has words.now n b) node result }
{
    match mixed_at(words, node) {
        Some(span) => Some(SpanFault::Mixed { node, span }),
        None => None,
    }
}

// The first fault of a point.
fn fault_at(words: &[u64], acts: &[Act], node: u32) -> Option<SpanFault>
    requires words { node * 4 + 4 ≤ length words.now }
    requires acts { node < length acts.now }
    requires spans { HaveSpans acts.now }
    ensures { IsToldAt (λ b n. Has words.now n b) acts.now node result }
{
    let act = acts[node as usize];
    match act {
        Act::Fails => None,
        Act::Opens(span) => {
            if has(words, node, span as u8 * 2 + 1) {
                Some(SpanFault::Reopened { node, span })
            } else {
                mixed_fault(words, node)
            }
        }
        Act::Closes(span) => {
            if has(words, node, span as u8 * 2) {
                Some(SpanFault::NotOpen { node, span })
            } else {
                mixed_fault(words, node)
            }
        }
        Act::Goes => mixed_fault(words, node),
    }
}

// The first fault of the least point that has one.
fn first_fault(words: &[u64], acts: &[Act]) -> Option<SpanFault>
    requires points { length acts.now < 2 ^ 32 }
    requires words { length words.now ≡ length acts.now * 4 }
    requires spans { HaveSpans acts.now }
    ensures some { IfSome result (IsFirstFault (λ b n. Has words.now n b) acts.now) }
    ensures none { IfNone result ((m : ℕ) → m < length acts.now → HasNoFault (λ b n. Has words.now n b) acts.now m) }
{
    for node in 0..acts.len() as u32 {
        if let Some(fault) = fault_at(words, acts, node) {
            return Some(fault);
        }
    }
    None
}

// The spans that may be open at a point, one bit for each.
fn opened_at(words: &[u64], node: u32) -> u32
    requires { node * 4 + 4 ≤ length words.now }
    ensures { (s : ℕ) → s < 32 → has_low result s ≡ has_pair words.now node (s * 2 + 1) }
{
    let mut bits = 0;
    for s in 0..32u32 {
        if has(words, node, s as u8 * 2 + 1) {
            bits |= 1 << s;
        }
    }
    bits
}

// The same for each point.
fn masks(alloc: Global, words: &[u64], count: u32) -> Result<Vec<u32>, AllocError>
    requires { length words.now ≡ count * 4 }
    ensures { IfOk result (λ masks. TellsMasks words.now count masks.items) }
{
    let mut masks: Vec<u32> = Vec::new(alloc);
    for node in 0..count {
        push(&mut masks, opened_at(words, node))?;
    }
    Ok(masks)
}

/// The spans that may be open at each point, or the first fault.
pub fn check_spans(
    alloc: Global,
    moves: &[Move],
    starts: &[usize],
    acts: &[Act],
    count: u32,
    entry: u32,
) -> Result<Fitting, AllocError>
    requires table { IsTable moves.now starts.now count }
    requires acts { length acts.now ≡ count }
    requires spans { HaveSpans acts.now }
    requires entry { entry < count }
    ensures { IfOk result (IsFitting moves.now acts.now entry count) }
{
    let words = standings(alloc, moves, starts, acts, count, entry)?;
    match first_fault(&words, acts) {
        Some(fault) => Ok(Fitting::Fault(fault)),
        None => Ok(Fitting::Fit(masks(alloc, &words, count)?)),
    }
}
