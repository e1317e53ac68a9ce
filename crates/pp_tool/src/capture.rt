// The capture of one connection behind a graph text.
ghost use Rattle.std.specs.Prelude.{◌≡◌, ◌≢◌, ◌<◌, ◌↔◌, List, ℕ, [], length, drop, IfOk, IfSome, IfNone, IsSome, IsTrue, MatchOption, MatchResult};
ghost use Rattle.pp_capture.specs.Spelling.{Record, Begins, Carries, Halts, IsCapture as AreRecords};
ghost use Rattle.pp_capture.specs.Reading.{BeginWith};
ghost use Rattle.pp_capture.specs.View.{view};
ghost use Rattle.pp_tool.specs.declared.capture.CaptureFault.TheVariants.{NoMemory as no_memory};
ghost use Rattle.pp_tool.specs.Capture.{IsCapture, parts_records, joined};

use pp_capture::{Rec, read_rec};
use std::alloc::{AllocError, Global};

/// Why no capture was read.
#[derive(Clone, Copy, Debug, PartialEq, Eq)]
pub(crate) enum CaptureFault {
    /// The bytes are no capture.
    Refused,
    /// Memory ran out.
    NoMemory,
}

impl From<AllocError> for CaptureFault {
    ghost from_gives = { λ _ e. e ≡ no_memory };

    fn from(_: AllocError) -> Self {
        CaptureFault::NoMemory
    }
}

/// The joined parts of the capture that the bytes are.
pub(crate) fn read_capture(alloc: Global, bytes: &[u8]) -> Result<Vec<u8>, CaptureFault>
    ensures found { IfOk result (λ v. (parts : List (List ℕ)) × IsCapture bytes.now parts × (v.items ≡ joined parts)) }
    ensures only { (parts : List (List ℕ)) → IsCapture bytes.now parts →
        MatchResult result (λ v. v.items ≡ joined parts) (λ e. e ≡ no_memory) }
{
    match behind_begin(bytes) {
        Some(records) => read_parts(alloc, records),
        None => Err(CaptureFault::Refused),
    }
}

// The joined parts of the records behind the beginning.
fn read_parts(alloc: Global, records: &[u8]) -> Result<Vec<u8>, CaptureFault>
    ensures found { IfOk result (λ v. (parts : List (List ℕ)) × AreRecords records.now (parts_records parts) × (v.items ≡ joined parts)) }
    ensures only { (parts : List (List ℕ)) → AreRecords records.now (parts_records parts) →
        MatchResult result (λ v. v.items ≡ joined parts) (λ e. e ≡ no_memory) }
{
    let mut all = Vec::new(alloc);
    let mut rest = records;
    while let Some((part, after)) = part_in(rest) {
        all.extend_from_slice(part)?;
        rest = after;
    }
    if is_at_halt(rest) {
        Ok(all)
    } else {
        Err(CaptureFault::Refused)
    }
}

// What follows the record with which connection 0 begins without sets and script.
fn behind_begin(bytes: &[u8]) -> Option<&[u8]>
    ensures some { IfSome result (λ rest. (len : ℕ) × BeginWith bytes.now (Begins 0 [] []) len × (rest.now ≡ drop len bytes.now)) }
    ensures only { (len : ℕ) → BeginWith bytes.now (Begins 0 [] []) len → MatchOption result ⊥ (λ rest. rest.now ≡ drop len bytes.now) }
{
    let Ok((rec, len)) = read_rec(bytes) else {
        return None;
    };
    if is_begin(&rec) {
        Some(&bytes[len..])
    } else {
        None
    }
}

// The part of the record of connection 0 that begins the bytes, and what follows the record.
fn part_in(bytes: &[u8]) -> Option<(&[u8], &[u8])>
    ensures some { IfSome result (λ p. (len : ℕ) × BeginWith bytes.now (Carries 0 p.0.now) len × (p.1.now ≡ drop len bytes.now)) }
    ensures shorter { IfSome result (λ p. length p.1.now < length bytes.now) }
    ensures only { (value : Record) (len : ℕ) → BeginWith bytes.now value len → IfSome result (λ p. (value ≡ Carries 0 p.0.now) × (p.1.now ≡ drop len bytes.now)) }
    ensures none { (part : List ℕ) (len : ℕ) → BeginWith bytes.now (Carries 0 part) len → IsSome result }
{
    let Ok((rec, len)) = read_rec(bytes) else {
        return None;
    };
    let part = part_of(rec)?;
    Some((part, &bytes[len..]))
}

// Whether the bytes are the halt alone.
fn is_at_halt(bytes: &[u8]) -> bool
    ensures { IsTrue result ↔ AreRecords bytes.now [] }
{
    match read_rec(bytes) {
        Ok((rec, len)) => is_halt(&rec) && len == bytes.len(),
        Err(_) => false,
    }
}

// Whether connection 0 begins without sets and script.
fn is_begin(rec: &Rec<'_>) -> bool
    ensures { IsTrue result ↔ (view rec.now ≡ Begins 0 [] []) }
{
    match rec {
        Rec::Begin { conn, sets, script } => *conn == 0 && sets.len() == 0 && script.len() == 0,
        Rec::Bytes { .. } | Rec::Resume { .. } | Rec::Finish { .. } | Rec::Halt => false,
    }
}

// The part of a record of connection 0.
fn part_of<'b>(rec: Rec<'b>) -> Option<&'b [u8]>
    ensures some { IfSome result (λ part. view rec.entry ≡ Carries 0 part.now) }
    ensures none { IfNone result ((part : List ℕ) → view rec.entry ≢ Carries 0 part) }
{
    match rec {
        Rec::Bytes { conn: 0, part } => Some(part),
        Rec::Bytes { .. }
        | Rec::Begin { .. }
        | Rec::Resume { .. }
        | Rec::Finish { .. }
        | Rec::Halt => None,
    }
}

// Whether the record is the halt.
fn is_halt(rec: &Rec<'_>) -> bool
    ensures { IsTrue result ↔ (view rec.now ≡ Halts) }
{
    match rec {
        Rec::Halt => true,
        Rec::Begin { .. } | Rec::Bytes { .. } | Rec::Resume { .. } | Rec::Finish { .. } => false,
    }
}
