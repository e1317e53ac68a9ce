// The printed text of a graph.
ghost use Rattle.std.specs.Prelude.{◌≡◌, IfOk};
ghost use Rattle.pp_text.specs.Printed.{printed};

mod declarations;
mod edges;
mod keys;
mod names;
mod nodes;
mod tokens;

use crate::printing::declarations::{
    print_entry, print_finish, print_hosts, print_props, print_spans,
};
use crate::printing::nodes::print_nodes;
use pp_graph::{Graph, NoMemory};
use std::alloc::Global;

/// The text of a graph: one statement a line, one blank between tokens, one key a statement.
pub fn print_graph(alloc: Global, graph: &Graph) -> Result<Vec<u8>, NoMemory>
    ensures text { IfOk result (λ text. text.items ≡ printed graph.now) }
{
    let mut out = Vec::new(alloc);
    out.extend_from_slice(b"graph 1\n")?;
    print_props(&mut out, graph)?;
    print_hosts(&mut out, graph)?;
    print_spans(&mut out, graph)?;
    print_entry(&mut out, graph)?;
    print_finish(&mut out, graph)?;
    print_nodes(&mut out, graph)?;
    out.extend_from_slice(b"end\n")?;
    Ok(out)
}
