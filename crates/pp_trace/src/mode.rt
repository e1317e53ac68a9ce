// How the bytes of spans are told.

/// How a report tells the bytes of spans.
#[derive(Clone, Copy, Debug, PartialEq, Eq)]
pub enum Mode {
    /// A span in one line, once it is closed.
    Joined,
    /// Each piece in a line of its own, as it comes.
    Raw,
}
