// Why bytes are no graph text.
ghost use Rattle.std.specs.Prelude.{◌≡◌};
ghost use Rattle.pp_text.specs.declared.fault.TextFault.TheVariants.{NoMemory as no_memory};

use pp_graph::GraphRule;
use std::alloc::{AllocError, AllocFailed};
use thiserror::Error;

/// Why bytes are no graph text. Lines are counted by LF, from 1.
#[derive(Clone, Copy, Debug, PartialEq, Eq, Error)]
pub enum TextFault {
    /// A line with a statement of no form, or one that may not stand there; without `end` the last line.
    #[error("line {line}: syntax")]
    Syntax { line: u32 },
    /// A line that isn't whole within the first 4,194,304 bytes.
    #[error("too long")]
    TooLong,
    /// The first rule of graphs that fails, and the line of the first statement at which it does; for a graph
    /// without entry the line of `end`.
    #[error("line {line}: {rule}")]
    Graph { line: u32, rule: GraphRule },
    /// Memory ran out.
    #[error("out of memory")]
    NoMemory,
}

impl From<AllocError> for TextFault {
    ghost from_gives = { λ _ e. e ≡ no_memory };

    fn from(_: AllocError) -> Self {
        TextFault::NoMemory
    }
}

impl<T: Drop> From<AllocFailed<T>> for TextFault {
    ghost from_gives = { λ _ e. e ≡ no_memory };

    fn from(_: AllocFailed<T>) -> Self {
        TextFault::NoMemory
    }
}
