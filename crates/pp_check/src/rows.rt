// The moves of one node, as rows of a flow.
ghost use Rattle.std.specs.Prelude.{◌≡◌, [], ◌++◌, ◌∷◌, IfOk, OnOk, IsTrue, ◌↔◌, ℕ, ◌<◌, ◌≤◌, true, false};
ghost use Rattle.std.specs.FinSet as set;
ghost use Rattle.pp_bytes.specs.Fold.{folded};
ghost use Rattle.pp_check.specs.steps.Ends.{EndsOf, SetEnds, KeyEnds, PeekEnds, IsOtherByte, OtherEnds, AnswerEnds, StopsBehind};
ghost use Rattle.pp_flow.specs.Rows.{Adds};

use crate::keys::{begun_by, first_byte, first_bytes, is_live, peek_bytes, stop_bytes};
use pp_bytes::{ByteSet, Fold};
use pp_flow::Move;
use pp_graph::{Answer, Key, Kind, Other, Peek};
use std::alloc::{AllocError, Global};

// The last byte up to which all bytes from this one on are in the set.
fn run_end(bytes: &ByteSet, b: u8) -> u8
    requires { set.contains bytes.now b ≡ true }
    ensures above { b ≤ result }
    ensures within { (x : ℕ) → b ≤ x → x ≤ result → set.contains bytes.now x ≡ true }
{
    let mut end = b;
    while end < u8::MAX && bytes.has(end + 1) {
        end += 1;
    }
    end
}

// Rows that lead from a node to another on the bytes of a set, and one on no byte, which is an edge all the same.
fn set_rows(
    rows: &mut Vec<Move>,
    from: u32,
    to: u32,
    bytes: &ByteSet,
    free: bool,
    onward: bool,
) -> Result<(), AllocError>
    ensures { OnOk result (Adds from rows.old.items rows.new.items (SetEnds bytes.now to free onward)) }
{
    let row = Move {
        from,
        to,
        lo: 1,
        hi: 0,
        free,
        onward,
    };
    rows.push(row)?;
    let mut b: u16 = 0;
    while b < 256 {
        if bytes.has(b as u8) {
            let hi = run_end(bytes, b as u8);
            rows.push(Move {
                lo: b as u8,
                hi,
                ..row
            })?;
            b = u16::from(hi) + 1;
        } else {
            b += 1;
        }
    }
    Ok(())
}

// A row on all bytes.
fn row_on_all(
    rows: &mut Vec<Move>,
    from: u32,
    to: u32,
    free: bool,
    onward: bool,
) -> Result<(), AllocError>
    ensures { OnOk result (rows.new.items ≡ rows.old.items ++ record { from = from; to = to; lo = 0; hi = 255; free = free; onward = onward } ∷ []) }
{
    rows.push(Move {
        from,
        to,
        lo: 0,
        hi: 255,
        free,
        onward,
    })?;
    Ok(())
}

// The rows of the keys.
fn key_rows(rows: &mut Vec<Move>, from: u32, fold: Fold, keys: &[Key]) -> Result<(), AllocError>
    ensures { OnOk result (Adds from rows.old.items rows.new.items (KeyEnds fold keys.now keys.now)) }
{
    for place in 0..keys.len() {
        let key = &keys[place];
        let begun = begun_by(fold, first_byte(key.bytes.items()));
        let live = is_live(fold, keys, key.bytes.items());
        set_rows(rows, from, key.target, &begun, false, live)?;
    }
    Ok(())
}

// The rows of the peeks.
fn peek_rows(rows: &mut Vec<Move>, from: u32, fold: Fold, peeks: &[Peek]) -> Result<(), AllocError>
    ensures { OnOk result (Adds from rows.old.items rows.new.items (PeekEnds fold peeks.now)) }
{
    for place in 0..peeks.len() {
        let peek = peeks[place];
        let begun = begun_by(fold, peek.byte);
        set_rows(rows, from, peek.target, &begun, true, false)?;
    }
    Ok(())
}

// Whether a byte is in neither of two sets.
fn in_neither(one: &ByteSet, two: &ByteSet, byte: u8) -> bool
    ensures { IsTrue result ↔ ((set.contains one.now byte ≡ false) × (set.contains two.now byte ≡ false)) }
{
    !one.has(byte) && !two.has(byte)
}

// The bytes that are compared as one with which no key begins, and which is no peek byte.
fn other_bytes(fold: Fold, keys: &[Key], peeks: &[Peek]) -> ByteSet
    ensures { (b : ℕ) → b < 256 → (set.contains result b ≡ true) ↔ IsOtherByte keys.now peeks.now (folded fold b) }
{
    let begun = first_bytes(keys);
    let peeked = peek_bytes(peeks);
    let mut bytes = ByteSet::new();
    for b in 0..=u8::MAX {
        if in_neither(&begun, &peeked, fold.of(b)) {
            bytes.add(b);
        }
    }
    bytes
}

// The bytes that begin a key in which a string may stop fitting behind a front that is no key.
fn taken_bytes(fold: Fold, keys: &[Key]) -> ByteSet
    ensures { (b : ℕ) → b < 256 → (set.contains result b ≡ true) ↔ StopsBehind fold keys.now (folded fold b) }
{
    let behind = stop_bytes(fold, keys);
    let mut bytes = ByteSet::new();
    for b in 0..=u8::MAX {
        if behind.has(fold.of(b)) {
            bytes.add(b);
        }
    }
    bytes
}

// The rows of the otherwise.
fn other_rows(
    rows: &mut Vec<Move>,
    from: u32,
    fold: Fold,
    keys: &[Key],
    peeks: &[Peek],
    other: Other,
) -> Result<(), AllocError>
    ensures { OnOk result (Adds from rows.old.items rows.new.items (OtherEnds fold keys.now peeks.now other)) }
{
    let others = other_bytes(fold, keys, peeks);
    set_rows(rows, from, other.target, &others, !other.skip, other.skip)?;
    let taken = taken_bytes(fold, keys);
    set_rows(rows, from, other.target, &taken, false, true)
}

// The rows of an invoke.
fn answer_rows(
    rows: &mut Vec<Move>,
    from: u32,
    answers: &[Answer],
    other: u32,
) -> Result<(), AllocError>
    ensures { OnOk result (Adds from rows.old.items rows.new.items (AnswerEnds answers.now other)) }
{
    row_on_all(rows, from, other, true, false)?;
    for place in 0..answers.len() {
        row_on_all(rows, from, answers[place].target, true, false)?;
    }
    Ok(())
}

/// The rows of a node of this kind.
pub fn rows_of(alloc: Global, from: u32, kind: &Kind) -> Result<Vec<Move>, AllocError>
    ensures { IfOk result (λ rows. Adds from [] rows.items (EndsOf kind.now)) }
{
    let mut rows = Vec::new(alloc);
    match kind {
        Kind::Match {
            fold,
            keys,
            peeks,
            other,
        } => {
            key_rows(&mut rows, from, *fold, keys.items())?;
            peek_rows(&mut rows, from, *fold, peeks.items())?;
            other_rows(&mut rows, from, *fold, keys.items(), peeks.items(), *other)?;
        }
        Kind::Invoke { answers, other, .. } => {
            answer_rows(&mut rows, from, answers.items(), *other)?;
        }
        Kind::Consume { next, .. } | Kind::Pause { next, .. } => {
            row_on_all(&mut rows, from, *next, true, true)?;
        }
        Kind::SpanOpen { next, .. } | Kind::SpanClose { next, .. } => {
            row_on_all(&mut rows, from, *next, true, false)?;
        }
        Kind::Fail { .. } => {}
    }
    Ok(rows)
}
