//! Where the parts of a head stand, and why bytes are none.

use std::alloc::{AllocError, AllocFailed};
use thiserror::Error;

/// The bytes of a head from `from` up to `to`, counted from 0.
#[derive(Clone, Copy, Debug, PartialEq, Eq)]
pub struct Part {
    pub from: usize,
    pub to: usize,
}

/// A field line: its name, and its value without the blanks around it.
#[derive(Clone, Copy, Debug, PartialEq, Eq)]
pub struct Field {
    pub name: Part,
    pub value: Part,
}

/// Why a head gave no fields.
#[derive(Clone, Copy, Debug, PartialEq, Eq, Error)]
pub enum HeadFault {
    /// A line before the empty line has no colon. `line` is the first such line, from 1.
    #[error("line {line} has no colon")]
    NoColon { line: u32 },
    /// No empty line ends the head.
    #[error("no empty line")]
    NoEnd,
    #[error("out of memory")]
    NoMemory,
}

ghost use Rattle.pp_frame.specs.declared.parts.HeadFault.TheVariants.{NoMemory};
ghost use Rattle.std.specs.Prelude.{◌≡◌};

impl From<AllocError> for HeadFault {
    ghost from_gives = { λ _ e. e ≡ NoMemory };

    fn from(_: AllocError) -> Self {
        HeadFault::NoMemory
    }
}

impl<T: Drop> From<AllocFailed<T>> for HeadFault {
    ghost from_gives = { λ _ e. e ≡ NoMemory };

    fn from(_: AllocFailed<T>) -> Self {
        HeadFault::NoMemory
    }
}
