// What a host is asked, and answers.
use crate::props::Props;

/// A question with its answer.
#[derive(Debug, Drop)]
pub enum Event<'a> {
    /// A host code was asked with a value at a place, the properties having these values.
    Call {
        code: u32,
        value: u64,
        at: u64,
        props: Props,
        answer: u32,
    },
    /// A span was given a part of its bytes, which begins at a place; the last one where the span was closed there.
    Piece {
        span: u32,
        at: u64,
        part: &'a [u8],
        last: bool,
        answer: u32,
    },
}
