// Writes that go on until the whole part is written.
ghost use Rattle.std.specs.Prelude.{◌<◌, ◌≤◌, ◌^◌, OnOk, OnErr};
ghost use Rattle.pp_outside.specs.Faults.{Rose};
ghost use Rattle.pp_outside.specs.Sink.{Adds, AddsSome};

use crate::failed::Failed;
use crate::sink::Sink;

/// Writes all of `part`.
///
/// `Failed` comes only where the sink's count of faults rose in this call. Then some front of the part was written.
pub fn write_whole<K: Sink>(sink: &mut K, part: &[u8]) -> Result<(), Failed>
    ensures whole { OnOk result (Adds (K.written sink.old) (K.written sink.new) part.now) }

    ensures failed { OnErr result (Rose (K.faults sink.old) (K.faults sink.new)) }
    ensures front { OnErr result (AddsSome (K.written sink.old) (K.written sink.new) part.now) }

    ensures never_falls { K.faults sink.old ≤ K.faults sink.new }
    ensures fits { K.faults sink.old < 2 ^ 64 → K.faults sink.new < 2 ^ 64 }
{
    let mut done = 0;
    while done < part.len() {
        done += sink.write(&part[done..])?;
    }
    Ok(())
}
