// Why a builder gives no graph.
ghost use Rattle.std.specs.Prelude.{◌≡◌};
ghost use Rattle.pp_graph.specs.declared.fault.GraphFault.TheVariants.{NoMemory as no_memory};

use pp_rules::GraphRule;
use std::alloc::{AllocError, AllocFailed};
use thiserror::Error;

/// Want of memory, where nothing else can fail.
pub type NoMemory = AllocError;

/// Why a builder gives no graph.
#[derive(Clone, Copy, Debug, PartialEq, Eq, Error)]
pub enum GraphFault {
    /// The first rule that fails, and the number of the first call at which it does, from 0; for `NoEntry` the
    /// count of calls.
    #[error("call {call}: {rule}")]
    Broken { rule: GraphRule, call: u32 },
    /// Memory ran out.
    #[error("out of memory")]
    NoMemory,
}

impl From<AllocError> for GraphFault {
    ghost from_gives = { λ _ e. e ≡ no_memory };

    fn from(_: AllocError) -> Self {
        GraphFault::NoMemory
    }
}

impl<T: Drop> From<AllocFailed<T>> for GraphFault {
    ghost from_gives = { λ _ e. e ≡ no_memory };

    fn from(_: AllocFailed<T>) -> Self {
        GraphFault::NoMemory
    }
}
