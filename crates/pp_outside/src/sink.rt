// Where bytes go.
ghost use Rattle.std.specs.Prelude.{◌≡◌, ◌<◌, ◌≤◌, ◌^◌, ℕ, List, Option, length, take, IfOk, OnErr};
ghost use Rattle.pp_outside.specs.Faults.{Rose};
ghost use Rattle.pp_outside.specs.Sink.{Adds};

use crate::failed::Failed;

/// A place where bytes go. It counts its faults.
pub trait Sink {
    /// The bytes that were written, where the sink tells them.
    ghost written: { Self → Option (List ℕ) };

    /// How many writes have failed. It stays at the greatest u64, its last value.
    ghost faults: { Self → ℕ };

    /// Writes some bytes at the front of `part`, at least one of a part that is not empty, and answers how many.
    ///
    /// `Failed` comes only where the count of faults rose, and then what was written is as before.
    fn write(&mut self, part: &[u8]) -> Result<usize, Failed>
        ensures bound { IfOk result (λ n. n ≤ length part.now) }
        ensures some { IfOk result (λ n. 0 < length part.now → 0 < n) }
        ensures added { IfOk result (λ n. Adds (written self.old) (written self.new) (take n part.now)) }

        ensures failed { OnErr result (Rose (faults self.old) (faults self.new)) }
        ensures kept { OnErr result (written self.new ≡ written self.old) }

        ensures never_falls { faults self.old ≤ faults self.new }
        ensures fits { faults self.new < 2 ^ 64 };
}
