// What can go wrong outside.
ghost use Rattle.std.specs.Prelude.{◌≡◌, Some, codes};
ghost use Rattle.pp_outside.specs.Faults.{one_more};

use std::alloc::AllocError;
use std::error::Error;
use std::fmt;

/// A read or a write that failed. The source or the sink has counted it among its faults.
#[derive(Clone, Copy, Debug, PartialEq, Eq)]
pub struct Failed;

impl Failed {
    // A failure, which is counted. The count stays at its last value.
    pub(crate) fn counted(faults: &mut u64) -> Failed
        ensures { faults.new ≡ one_more faults.old }
    {
        *faults = faults.saturating_add(1);
        Failed
    }
}

impl fmt::Display for Failed {
    ghost output = { λ _. Some (codes "the outside failed") };

    fn fmt<W: fmt::Write>(&self, f: &mut fmt::Formatter<W>) -> fmt::Result {
        f.write("the outside failed")
    }
}

impl Error for Failed {}

/// There is no memory left.
pub type NoMemory = AllocError;
