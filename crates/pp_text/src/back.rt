// The law that a printed graph is read again as the same graph.
ghost use Rattle.std.specs.Prelude.{◌≡◌, length, IfOk, MatchResult};
ghost use Rattle.pp_text.specs.declared.fault.TextFault.TheVariants.{NoMemory as no_memory};
ghost use Rattle.pp_text.specs.Printed.{printed};

use crate::fault::TextFault;
use crate::printing::print_graph;
use crate::reading::read_graph;
use crate::telling::told_again;
use pp_graph::Graph;
use std::alloc::Global;

/// Prints a graph and reads the text: the same graph again.
pub fn read_back(alloc: Global, graph: &Graph) -> Result<(Graph, usize), TextFault>
    ensures same { MatchResult result (λ r. r.0 ≡ graph.now) (λ e. e ≡ no_memory) }
    ensures whole { IfOk result (λ r. r.1 ≡ length (printed graph.now)) }
{
    told_again(graph);
    let text = print_graph(alloc, graph)?;
    read_graph(alloc, &text)
}
