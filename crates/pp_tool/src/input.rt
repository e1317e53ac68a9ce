// The input: the front of it, in which a graph text stands, and the rest behind that text.
ghost use Rattle.std.specs.Prelude.{◌≡◌, ◌≤◌, ◌++◌, List, ℕ, Some, [], take, drop, IfOk, OnOk, IfErr};
ghost use Rattle.pp_graph.specs.Plan.{Plan};
ghost use Rattle.pp_tool.specs.declared.refusal.Refusal.TheVariants as refusal;
ghost use Rattle.pp_tool.specs.Verdict.{Answers, Test};
ghost use Rattle.pp_tool.specs.Trace.{HasShortRest};
ghost use Rattle.pp_tool.specs.steps.Reading.{IsFront};
ghost use Rattle.pp_tool.specs.steps.Stops.{StopsReading, FailsReading};

use crate::refusal::Refusal;
use crate::stop::Stop;
use pp_outside::{Source, read_some};
use std::alloc::Global;

/// One byte more than a graph text may have.
const FRONT: usize = 4_194_305;

/// The most bytes behind the graph text.
const CAPTURE_LIMIT: usize = 262_144;

/// The front of the input, in which its graph text stands: the byte behind the longest text is in it too.
pub(crate) fn take_front<S: Source>(alloc: Global, input: &mut S) -> Result<Vec<u8>, Stop>
    ensures front { (bytes : List ℕ) → S.left input.old ≡ Some bytes → IfOk result (λ v. IsFront bytes v.items (S.left input.new)) }
    ensures stops { IfErr result (FailsReading (S.faults input.old) (S.faults input.new)) }
    ensures never_falls { S.faults input.old ≤ S.faults input.new }
{
    take_some(alloc, input, FRONT)
}

/// The rest of the input, whose beginning was read before.
pub(crate) fn take_rest<S: Source>(
    alloc: Global,
    input: &mut S,
    begun: &[u8],
) -> Result<Vec<u8>, Stop>
    ensures answer { (g : Plan) (more : List ℕ) → S.left input.old ≡ Some more →
        Answers (Test HasShortRest refusal.TooLong (g, begun.now ++ more)) (λ v. (g, v.items)) result }
    ensures at_end { (more : List ℕ) → S.left input.old ≡ Some more → OnOk result (S.left input.new ≡ Some []) }
    ensures stops { IfErr result (StopsReading (λ why. why ≡ refusal.TooLong) (S.faults input.old) (S.faults input.new)) }
{
    if CAPTURE_LIMIT < begun.len() {
        return Err(Stop::Refused(Refusal::TooLong));
    }
    // One byte more than may come tells that there are too many.
    let more = take_some(alloc, input, CAPTURE_LIMIT + 1 - begun.len())?;
    let mut rest = Vec::from_slice(alloc, begun)?;
    rest.extend_from_slice(&more)?;
    if CAPTURE_LIMIT < rest.len() {
        return Err(Stop::Refused(Refusal::TooLong));
    }
    Ok(rest)
}

// So many bytes of the input, or up to its end.
fn take_some<S: Source>(alloc: Global, input: &mut S, room: usize) -> Result<Vec<u8>, Stop>
    ensures taken { (bytes : List ℕ) → S.left input.old ≡ Some bytes → IfOk result (λ v. v.items ≡ take room bytes) }
    ensures left { (bytes : List ℕ) → S.left input.old ≡ Some bytes → OnOk result (S.left input.new ≡ Some (drop room bytes)) }
    ensures stops { IfErr result (FailsReading (S.faults input.old) (S.faults input.new)) }
    ensures never_falls { S.faults input.old ≤ S.faults input.new }
{
    let mut buffer = vec![in alloc; 0u8; room]?;
    match read_some(input, &mut buffer) {
        Ok(count) => {
            buffer.truncate(count);
            Ok(buffer)
        }
        Err(_) => Err(Stop::ReadFault),
    }
}
