// The command `print`.
ghost use Rattle.std.specs.Prelude.{◌≡◌, List, ℕ, Some, [], OnOk, IfErr};
ghost use Rattle.pp_tool.specs.Verdict.{Answers};
ghost use Rattle.pp_tool.specs.GraphText.{IsOfGraph};
ghost use Rattle.pp_tool.specs.Print.{Prints};
ghost use Rattle.pp_tool.specs.steps.Stops.{StopsReading};

use crate::stop::Stop;
use crate::text::graph_alone;
use pp_outside::Source;
use pp_text::print_graph;
use std::alloc::Global;

/// The printed text of the graph whose text the input is.
pub(crate) fn print<S: Source>(alloc: Global, input: &mut S) -> Result<Vec<u8>, Stop>
    ensures verdict { (bytes : List ℕ) → S.left input.old ≡ Some bytes → Answers (Prints bytes) (λ v. v.items) result }
    ensures read_to_end { (bytes : List ℕ) → S.left input.old ≡ Some bytes → OnOk result (S.left input.new ≡ Some []) }
    ensures stops { IfErr result (StopsReading IsOfGraph (S.faults input.old) (S.faults input.new)) }
{
    let graph = graph_alone(alloc, input)?;
    Ok(print_graph(alloc, &graph)?)
}
