// What a run tells.
use crate::props::Props;

/// One thing that a run tells. Places count bytes of the whole string, from 0.
#[derive(Debug, Drop)]
pub enum Item {
    /// A host code was asked with a value, the properties having these values, and answered.
    Call {
        code: u32,
        value: u64,
        at: u64,
        props: Props,
        answer: u32,
    },
    /// A span was closed: its bytes stand from one place up to another.
    Span {
        span: u32,
        from: u64,
        to: u64,
    },
    /// The run came to a pause.
    Pause {
        code: u32,
        at: u64,
    },
}
