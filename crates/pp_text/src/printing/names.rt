// The names of what a graph declares, by place.
ghost use Rattle.std.specs.Prelude.{◌≡◌};
ghost use Rattle.pp_text.specs.Telling.{prop_name as prop_name_of, host_name as host_name_of, span_name as span_name_of, node_name as node_name_of};

use pp_graph::Graph;

/// The name of the property at a place, or nothing.
pub(crate) fn prop_name(graph: &Graph, place: u32) -> &[u8]
    ensures { result.now ≡ prop_name_of graph.now place }
{
    match graph.props().get(place as usize) {
        Some(decl) => decl.name.bytes(),
        None => &[],
    }
}

/// The name of the host at a place, or nothing.
pub(crate) fn host_name(graph: &Graph, place: u32) -> &[u8]
    ensures { result.now ≡ host_name_of graph.now place }
{
    match graph.hosts().get(place as usize) {
        Some(decl) => decl.name.bytes(),
        None => &[],
    }
}

/// The name of the span at a place, or nothing.
pub(crate) fn span_name(graph: &Graph, place: u32) -> &[u8]
    ensures { result.now ≡ span_name_of graph.now place }
{
    match graph.spans().get(place as usize) {
        Some(decl) => decl.name.bytes(),
        None => &[],
    }
}

/// The name of the node at a place, or nothing.
pub(crate) fn node_name(graph: &Graph, place: u32) -> &[u8]
    ensures { result.now ≡ node_name_of graph.now place }
{
    match graph.nodes().get(place as usize) {
        Some(node) => node.name.bytes(),
        None => &[],
    }
}
