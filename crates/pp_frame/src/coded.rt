// Chunked bodies.
ghost use Rattle.std.specs.Prelude.{◌≡◌, ◌≤◌, ℕ, List, length, take, IfOk, OnOk, IsErrOf, IsTrue, IsFalse, MatchResult, ◌⊎◌};
ghost use Rattle.pp_frame.specs.declared.coded.ChunkFault.TheVariants.{NoMemory as no_memory};
ghost use Rattle.pp_frame.specs.Chunked.{IsChunked, IsChunkedFront, IsFirstWrong};
ghost use Rattle.pp_frame.specs.steps.Places.{kept};

use crate::places::Place;
use std::alloc::{AllocError, AllocFailed, Global};
use thiserror::Error;

/// What stands in a chunked body.
#[derive(Debug, Drop)]
pub struct Chunks {
    /// The data, joined, as far as it is there.
    pub body: Vec<u8>,
    /// The length of the whole chunked body, or of all the bytes where they end before it does.
    pub used: usize,
    /// Whether the chunked body is there to its end.
    pub whole: bool,
}

/// Why bytes are no chunked body, and none that is cut off.
#[derive(Clone, Copy, Debug, PartialEq, Eq, Error)]
pub enum ChunkFault {
    /// No chunked body begins with the bytes up to and with the one at `offset`, from 0.
    #[error("wrong byte at {offset}")]
    Form { offset: usize },
    #[error("out of memory")]
    NoMemory,
}

impl From<AllocError> for ChunkFault {
    ghost from_gives = { λ _ e. e ≡ no_memory };

    fn from(_: AllocError) -> Self {
        ChunkFault::NoMemory
    }
}

impl<T: Drop> From<AllocFailed<T>> for ChunkFault {
    ghost from_gives = { λ _ e. e ≡ no_memory };

    fn from(_: AllocFailed<T>) -> Self {
        ChunkFault::NoMemory
    }
}

/// The data of the chunked body that the bytes begin with, or of as much of one as they are.
///
/// RFC 9112, section 7.1. Sizes stop at 2^64. Bytes may follow the body.
///
/// `Form` where the bytes neither begin with a chunked body nor are one that is cut off, at the first wrong byte.
pub fn chunk_data(alloc: Global, bytes: &[u8]) -> Result<Chunks, ChunkFault>
    ensures within { IfOk result (λ found. found.used ≤ length bytes.now) }
    ensures whole { IfOk result (λ found. IsTrue found.whole → IsChunked (take found.used bytes.now) found.body.items) }
    ensures cut_off { IfOk result (λ found. IsFalse found.whole → (found.used ≡ length bytes.now) × IsChunkedFront bytes.now found.body.items) }
    ensures form { (offset : ℕ) → IsErrOf result (ChunkFault.Form offset) → IsFirstWrong bytes.now offset }
    ensures whole_only { (used : ℕ) (body : List ℕ) → used ≤ length bytes.now → IsChunked (take used bytes.now) body → MatchResult result (λ found. (found.used ≡ used) × (found.body.items ≡ body) × IsTrue found.whole) (λ e. e ≡ no_memory) }
    ensures cut_off_only { (body : List ℕ) → IsChunkedFront bytes.now body → MatchResult result (λ found. (found.used ≡ length bytes.now) × (found.body.items ≡ body) × IsFalse found.whole) (λ e. e ≡ no_memory) }
    ensures form_only { (offset : ℕ) → IsFirstWrong bytes.now offset → MatchResult result (λ _. ⊥) (λ e. (e ≡ ChunkFault.Form offset) ⊎ (e ≡ no_memory)) }
{
    let mut body = Vec::new(alloc);
    let mut place = Place::FirstDigit;
    for i in 0..bytes.len() {
        if place.is_whole() {
            return Ok(Chunks {
                body,
                used: i,
                whole: true,
            });
        }
        let Some(next) = place.next(bytes[i]) else {
            return Err(ChunkFault::Form { offset: i });
        };
        keep(&mut body, place.holds_data(), bytes[i])?;
        place = next;
    }
    Ok(Chunks {
        body,
        used: bytes.len(),
        whole: place.is_whole(),
    })
}

// Adds a byte to a body, if it is data.
fn keep(body: &mut Vec<u8>, is_data: bool, b: u8) -> Result<(), AllocFailed<u8>>
    ensures { OnOk result (body.new.items ≡ kept is_data b body.old.items) }
{
    if is_data {
        body.push(b)?;
    }
    Ok(())
}
