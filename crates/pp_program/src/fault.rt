// Why a program is refused.
use std::alloc::AllocError;
use thiserror::Error;

/// A rule of programs, in the order in which they are tried.
#[derive(Clone, Copy, Debug, PartialEq, Eq)]
pub enum VerifyRule {
    /// Places are in range, edges lead where their numbers are used, lists have their form and counts their limit.
    Target,
    /// Constants and numbers fit their properties.
    Width,
    /// Moves that take no byte form no cycle.
    Loop,
    /// Spans are opened where they are shut, closed where they are open, and nowhere mixed.
    Spans,
    /// Names and reasons have their form, and names differ.
    Names,
}

/// Why a program is refused.
#[derive(Clone, Copy, Debug, PartialEq, Eq, Error)]
pub enum VerifyFault {
    /// The first rule that fails, and the least place at which it does.
    #[error("{rule:?} at {at}")]
    Broken { rule: VerifyRule, at: u32 },
    /// Memory ran out.
    #[error("out of memory")]
    NoMemory,
}

impl From<AllocError> for VerifyFault {
    ghost use Rattle.std.specs.Prelude.{◌≡◌};
    ghost use Rattle.pp_program.specs.declared.fault.VerifyFault.TheVariants.{NoMemory};

    ghost from_gives = { λ _ e. e ≡ NoMemory };

    fn from(_: AllocError) -> VerifyFault {
        VerifyFault::NoMemory
    }
}
