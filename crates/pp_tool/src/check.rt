// The command `check`.
ghost use Rattle.std.specs.Prelude.{◌≡◌, ◌++◌, ◌⊎◌, ◌≤◌, List, ℕ, Some, [], decimal, length, OnOk, IfOk, IfErr};
ghost use Rattle.pp_tool.specs.Verdict.{Answers};
ghost use Rattle.pp_tool.specs.GraphText.{IsOfGraph};
ghost use Rattle.pp_tool.specs.Checks.{IsOfCheck};
ghost use Rattle.pp_tool.specs.Check.{IsCheckedAs, accepted_line, bits_below, most_bits};
ghost use Rattle.pp_tool.specs.steps.Stops.{StopsReading};

use crate::checks::check_graph;
use crate::report::push_number;
use crate::stop::Stop;
use crate::text::graph_alone;
use pp_outside::Source;
use std::alloc::{AllocError, Global};

/// How many nodes the graph has whose text the input is, the most moves in a row that take no byte, and the most spans
/// that may be open at one node.
pub(crate) fn check<S: Source>(alloc: Global, input: &mut S) -> Result<Vec<u8>, Stop>
    ensures verdict { (bytes : List ℕ) → S.left input.old ≡ Some bytes → Answers (IsCheckedAs bytes) (λ v. v.items) result }
    ensures read_to_end { (bytes : List ℕ) → S.left input.old ≡ Some bytes → OnOk result (S.left input.new ≡ Some []) }
    ensures stops { IfErr result (StopsReading (λ why. IsOfGraph why ⊎ IsOfCheck why) (S.faults input.old) (S.faults input.new)) }
{
    let graph = graph_alone(alloc, input)?;
    let shape = check_graph(alloc, &graph)?;
    let nodes = graph.nodes().len() as u64;
    Ok(shape_line(alloc, nodes, shape.gap(), most_open(shape.opened()))?)
}

// The line for an accepted graph.
fn shape_line(alloc: Global, nodes: u64, gap: u32, spans: u32) -> Result<Vec<u8>, AllocError>
    ensures { IfOk result (λ v. v.items ≡ accepted_line nodes gap spans) }
{
    let mut out = Vec::new(alloc);
    out.extend_from_slice(b"ok nodes ")?;
    push_number(&mut out, nodes)?;
    out.extend_from_slice(b" gap ")?;
    push_number(&mut out, u64::from(gap))?;
    out.extend_from_slice(b" open ")?;
    push_number(&mut out, u64::from(spans))?;
    out.push(b'\n')?;
    Ok(out)
}

// The most bits of one of the masks.
fn most_open(masks: &[u32]) -> u32
    ensures { result ≡ most_bits masks.now }
{
    let mut most = 0;
    for mask in masks {
        let bits = bits_of(*mask);
        if most < bits {
            most = bits;
        }
    }
    most
}

// How many bits of a mask are 1.
fn bits_of(mask: u32) -> u32
    ensures { result ≡ bits_below 32 mask }
{
    let mut count = 0;
    for place in 0..32u32 {
        count += (mask >> place) % 2;
    }
    count
}
