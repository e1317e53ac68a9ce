// The nodes of a graph.
use pp_bytes::{Fold, Listed};
use pp_rules::{Name, Reason};

/// What an invoke node runs. Hosts and properties are named by their places, from 0.
#[derive(Clone, Copy, Debug, PartialEq, Eq)]
pub enum Code {
    /// Asks a host code; its answer is the code's answer.
    Call { host: u32 },
    /// The property becomes the carried number; answers 0.
    Store { prop: u32 },
    /// Answers the value of the property.
    Load { prop: u32 },
    /// The property becomes the value; answers 0.
    Update { prop: u32, value: u64 },
    /// Answers 1 where the property is the value, else 0.
    Equal { prop: u32, value: u64 },
    /// Keeps the bits of the property that the value has; answers 0.
    And { prop: u32, value: u64 },
    /// Sets the bits of the property that the value has; answers 0.
    Or { prop: u32, value: u64 },
    /// Answers 1 exactly where the property has all bits of the value, else 0.
    Test { prop: u32, value: u64 },
    /// The property becomes itself times the base plus the carried number, and the answer is 0; where that passes
    /// the most, the property stays and the answer is 1.
    MulAdd { prop: u32, base: u32, max: u64 },
}

/// A key of a match node: its bytes, the number that its edge carries, and the node that it leads to.
#[derive(Debug, Drop)]
pub struct Key {
    pub bytes: Listed<u8>,
    pub number: Option<u32>,
    pub target: u32,
}

/// A byte that a match node looks at without taking it, and the node that it leads to.
#[derive(Clone, Copy, Debug, PartialEq, Eq)]
pub struct Peek {
    pub byte: u8,
    pub target: u32,
}

/// An answer of a code, and the node that it leads to.
#[derive(Clone, Copy, Debug, PartialEq, Eq)]
pub struct Answer {
    pub number: u32,
    pub target: u32,
}

/// The otherwise of a match node: it takes one byte where it is a skip, and leads to a node.
#[derive(Clone, Copy, Debug, PartialEq, Eq)]
pub struct Other {
    pub skip: bool,
    pub target: u32,
}

/// What a node does.
#[derive(Debug, Drop)]
pub enum Kind {
    /// Looks for the longest key that fits the bytes that come, each folded, then for a peek byte.
    Match {
        fold: Fold,
        keys: Listed<Key>,
        peeks: Listed<Peek>,
        other: Other,
    },
    /// Runs a code; the answer chooses an edge by its number, else the otherwise.
    Invoke {
        code: Code,
        answers: Listed<Answer>,
        other: u32,
    },
    /// Takes as many bytes as a property says, then goes on.
    Consume {
        prop: u32,
        next: u32,
    },
    /// Begins a span, then goes on.
    SpanOpen {
        span: u32,
        next: u32,
    },
    /// Ends a span, then goes on.
    SpanClose {
        span: u32,
        next: u32,
    },
    /// Stops with a code and a reason, and goes on once resumed.
    Pause {
        code: u32,
        reason: Reason,
        next: u32,
    },
    /// Ends the run with a code and a reason.
    Fail {
        code: u32,
        reason: Reason,
    },
}

/// A node: its name and what it does.
#[derive(Debug, Drop)]
pub struct Node {
    pub name: Name,
    pub kind: Kind,
}
