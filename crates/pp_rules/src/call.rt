// The calls of a builder, as it keeps them.
ghost use Rattle.std.specs.Prelude.{◌≡◌};
ghost use Rattle.pp_rules.specs.Calls.{own_calls as own_calls_of, is_node as is_node_of};

use crate::declaration::Width;
use crate::name::{Name, Reason};
use pp_bytes::{Fold, Listed};

/// What a code does with a property and a constant.
#[derive(Clone, Copy, Debug, PartialEq, Eq)]
pub enum Constant {
    Update,
    Equal,
    And,
    Or,
    Test,
}

/// What an invoke node runs, as a builder keeps it.
#[derive(Drop)]
pub enum NamedCode {
    Call {
        host: Name,
    },
    Store {
        prop: Name,
    },
    Load {
        prop: Name,
    },
    Constant {
        what: Constant,
        prop: Name,
        value: u64,
    },
    MulAdd {
        prop: Name,
        base: u32,
        max: Option<u64>,
    },
}

/// What a node does, as a builder keeps it.
#[derive(Drop)]
pub enum NamedKind {
    Match { fold: Fold },
    Invoke { code: NamedCode },
    Consume { prop: Name },
    SpanOpen { span: Name },
    SpanClose { span: Name },
    Pause { code: u32, reason: Reason },
    Fail { code: u32, reason: Reason },
}

/// When an edge of a node is taken.
#[derive(Drop)]
pub enum NamedEdge {
    Key {
        bytes: Listed<u8>,
        number: Option<u32>,
    },
    Peek {
        byte: u8,
    },
    Answer {
        number: u32,
    },
    Otherwise {
        skip: bool,
    },
}

/// One call that added something to a builder, as a builder keeps it. Contracts see a builder as the list of these.
#[derive(Drop)]
pub enum BuilderCall {
    Prop { name: Name, width: Width },
    Host { name: Name, value: bool },
    Span { name: Name },
    Entry { node: Name },
    Finish { prop: Name, host: Name },
    Node { name: Name, kind: NamedKind },
    Edge { edge: NamedEdge, target: Name },
}

/// What a name is of. A graph has one entry and one finish rule at most, as if each had the same name.
#[derive(Clone, Copy, Debug, PartialEq, Eq)]
pub enum Sort {
    Prop,
    Host,
    Span,
    Node,
    Entry,
    Finish,
}

/// The calls up to the next node.
pub fn own_calls(after: &[BuilderCall]) -> &[BuilderCall]
    ensures { result.now ≡ own_calls_of after.now }
{
    for (i, call) in after.iter().enumerate() {
        if is_node(call) {
            return &after[..i];
        }
    }
    after
}

/// Whether a call adds a node.
pub(crate) fn is_node(call: &BuilderCall) -> bool
    ensures { result ≡ is_node_of call.now }
{
    matches!(call, BuilderCall::Node { .. })
}
