// Where bytes come from.
ghost use Rattle.std.specs.Prelude.{◌≡◌, ◌<◌, ◌≤◌, ◌^◌, ℕ, List, Option, length, IfOk, OnErr};
ghost use Rattle.pp_outside.specs.Faults.{Rose};
ghost use Rattle.pp_outside.specs.Source.{Moves, IsAtEnd};

use crate::failed::Failed;

/// A place where bytes come from. It counts its faults.
pub trait Source {
    /// The bytes that reads will give from here on, where the source tells them.
    ghost left: { Self → Option (List ℕ) };

    /// How many reads have failed. It stays at the greatest u64, its last value.
    ghost faults: { Self → ℕ };

    /// Moves some of what is left into the front of `into`, and answers how many bytes that were.
    ///
    /// `Ok(0)` for a buffer that is not empty is the end of the input. `Failed` comes only where the count of
    /// faults rose, and then what is left is as before; nothing is said of the buffer.
    fn read(&mut self, into: &mut [u8]) -> Result<usize, Failed>
        ensures bound { IfOk result (λ n. n ≤ length into.new) }
        ensures moved { IfOk result (λ n. Moves (left self.old) (left self.new) n into.new) }
        ensures end { IfOk result (λ n. n ≡ 0 → 0 < length into.new → IsAtEnd (left self.new)) }

        ensures failed { OnErr result (Rose (faults self.old) (faults self.new)) }
        ensures kept { OnErr result (left self.new ≡ left self.old) }

        ensures never_falls { faults self.old ≤ faults self.new }
        ensures fits { faults self.new < 2 ^ 64 };
}
