// Why bytes do not begin with the file of a program.
ghost use Rattle.std.specs.Prelude.{◌≡◌};
ghost use Rattle.pp_file.specs.declared.fault.FileFault.TheVariants.{NoMemory as no_memory};

use pp_program::VerifyRule;
use std::alloc::{AllocError, AllocFailed};
use thiserror::Error;

/// Why bytes do not begin with the file of a valid program: the first that holds, in this order.
#[derive(Clone, Copy, Debug, PartialEq, Eq, Error)]
pub enum FileFault {
    /// The first four bytes differ from the mark, as far as there are bytes.
    #[error("magic")]
    Magic,
    /// The version is another one.
    #[error("version {found}")]
    Version { found: u8 },
    /// The bytes end before the length, or before as many bytes as it says.
    #[error("short")]
    Short,
    /// The field at `offset` is wrong: the length itself, at 5, which goes before `Short`; else the first in the file.
    #[error("form at {offset}")]
    Form { offset: u32 },
    /// The program of the file fails a rule.
    #[error("verify {rule:?} at {at}")]
    Verify { rule: VerifyRule, at: u32 },
    /// Memory ran out.
    #[error("out of memory")]
    NoMemory,
}

impl From<AllocError> for FileFault {
    ghost from_gives = { λ _ e. e ≡ no_memory };

    fn from(_: AllocError) -> Self {
        FileFault::NoMemory
    }
}

impl<T: Drop> From<AllocFailed<T>> for FileFault {
    ghost from_gives = { λ _ e. e ≡ no_memory };

    fn from(_: AllocFailed<T>) -> Self {
        FileFault::NoMemory
    }
}
