// What the calls of a builder are given: the kind of a node, with the names that it names.
use pp_bytes::Fold;

/// What an invoke node runs, with the names that the call gives.
#[derive(Clone, Copy)]
pub enum CodeText<'t> {
    Call {
        host: &'t str,
    },
    Store {
        prop: &'t str,
    },
    Load {
        prop: &'t str,
    },
    Update {
        prop: &'t str,
        value: u64,
    },
    Equal {
        prop: &'t str,
        value: u64,
    },
    And {
        prop: &'t str,
        value: u64,
    },
    Or {
        prop: &'t str,
        value: u64,
    },
    Test {
        prop: &'t str,
        value: u64,
    },
    /// Without a `max` it is the property's greatest value.
    MulAdd {
        prop: &'t str,
        base: u32,
        max: Option<u64>,
    },
}

/// What a node does, with the names that the call gives.
#[derive(Clone, Copy)]
pub enum KindText<'t> {
    Match { fold: Fold },
    Invoke { code: CodeText<'t> },
    Consume { prop: &'t str },
    SpanOpen { span: &'t str },
    SpanClose { span: &'t str },
    Pause { code: u32, reason: &'t str },
    Fail { code: u32, reason: &'t str },
}
