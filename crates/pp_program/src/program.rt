// The types of a program.
use pp_bytes::{Fold, Listed, Ranges};
use pp_graph::{Answer, Code};
use pp_rules::{HostDecl, Name, PropDecl, Reason, SpanDecl};

/// An edge of a branch, for the bytes from `lo` to `hi`, both included. It takes the byte or looks at it, and leads to a
/// state, which it may carry a number to.
#[derive(Clone, Copy, Debug, PartialEq, Eq)]
pub struct Edge {
    pub lo: u8,
    pub hi: u8,
    pub take: bool,
    pub number: Option<u32>,
    pub target: u32,
}

/// Where a branch leads on a byte that no edge has. A skip takes the byte.
#[derive(Clone, Copy, Debug, PartialEq, Eq)]
pub struct Rest {
    pub skip: bool,
    pub number: Option<u32>,
    pub target: u32,
}

/// What a state does.
#[derive(Debug, Drop)]
pub enum Instr {
    /// Takes a byte of `stay` and stays. On another one it follows the first edge that has the byte, folded, else the rest.
    Branch {
        fold: Fold,
        stay: Ranges,
        edges: Listed<Edge>,
        rest: Rest,
    },
    /// Runs a code; the answer chooses a state by its number, else the other one.
    Invoke {
        code: Code,
        answers: Listed<Answer>,
        other: u32,
    },
    /// Takes as many bytes as a property says, then goes on.
    Consume {
        prop: u32,
        next: u32,
    },
    /// Begins a span, then goes on.
    SpanOpen {
        span: u32,
        next: u32,
    },
    /// Ends a span, then goes on.
    SpanClose {
        span: u32,
        next: u32,
    },
    /// Stops with a code and a reason, and goes on once resumed.
    Pause {
        code: u32,
        reason: Reason,
        next: u32,
    },
    /// Ends the run with a code and a reason.
    Fail {
        code: u32,
        reason: Reason,
    },
}

/// A state: the place, among the names, of the node that it comes from, and what it does.
#[derive(Debug, Drop)]
pub struct State {
    pub origin: u32,
    pub instr: Instr,
}

/// A program: its declarations, the names of the nodes that its states come from, its states, the place of the state
/// where a run begins, and the property and the host code of the finish rule. Declarations and states are named by their
/// places, from 0.
#[derive(Debug, Drop)]
pub struct Program {
    pub props: Listed<PropDecl>,
    pub hosts: Listed<HostDecl>,
    pub spans: Listed<SpanDecl>,
    pub names: Listed<Name>,
    pub states: Listed<State>,
    pub entry: u32,
    pub finish: Option<(u32, u32)>,
}
