// Reads that go on until the buffer is full or the input ends.
ghost use Rattle.std.specs.Prelude.{◌<◌, ◌≤◌, ◌^◌, length, IfOk, OnErr};
ghost use Rattle.pp_outside.specs.Faults.{Rose};
ghost use Rattle.pp_outside.specs.Source.{Moves, MovesSome, IsMost};

use crate::failed::Failed;
use crate::source::Source;

/// Fills `into`, or stops at the end of the input, and answers how many bytes were moved into its front.
///
/// `Failed` comes only where the source's count of faults rose in this call. Then some front of what was left
/// was moved into the front of `into`.
pub fn read_some<S: Source>(source: &mut S, into: &mut [u8]) -> Result<usize, Failed>
    ensures bound { IfOk result (λ n. n ≤ length into.new) }
    ensures moved { IfOk result (λ n. Moves (S.left source.old) (S.left source.new) n into.new) }
    ensures most { IfOk result (λ n. IsMost (S.left source.old) (length into.new) n) }

    ensures failed { OnErr result (Rose (S.faults source.old) (S.faults source.new)) }
    ensures front { OnErr result (MovesSome (S.left source.old) (S.left source.new) into.new) }

    ensures never_falls { S.faults source.old ≤ S.faults source.new }
    ensures fits { S.faults source.old < 2 ^ 64 → S.faults source.new < 2 ^ 64 }
{
    let mut done = 0;
    while done < into.len() {
        let count = source.read(&mut into[done..])?;
        if count == 0 {
            break;
        }
        done += count;
    }
    Ok(done)
}
