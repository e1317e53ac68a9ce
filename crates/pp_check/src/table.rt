// The flow of a graph.
ghost use Rattle.std.specs.Prelude.{◌≡◌, ◌^◌, ◌<◌, suc, length, map, IfOk, OnOk};
ghost use Rattle.pp_graph.specs.declared.node.Node.{Node};
ghost use Rattle.pp_graph.specs.Plan.{IsWellFormed};
ghost use Rattle.pp_flow.specs.Chart.{IsWhole};
ghost use Rattle.pp_check.specs.Spans.{act_of};
ghost use Rattle.pp_check.specs.steps.Rows.{AreRowsOf, with_rows, IsFlowOf};

use crate::rows::rows_of;
use pp_flow::{Act, Flow, Move};
use pp_graph::{Graph, Kind, Node};
use std::alloc::{AllocError, Global};

// What a node does to spans.
fn act_of_kind(kind: &Kind) -> Act
    ensures { result ≡ act_of kind.now }
{
    match kind {
        Kind::SpanOpen { span, .. } => Act::Opens(*span),
        Kind::SpanClose { span, .. } => Act::Closes(*span),
        Kind::Fail { .. } => Act::Fails,
        Kind::Match { .. } | Kind::Invoke { .. } | Kind::Consume { .. } | Kind::Pause { .. } => {
            Act::Goes
        }
    }
}

// The same for each node.
fn acts_of(alloc: Global, nodes: &[Node]) -> Result<Vec<Act>, AllocError>
    ensures { IfOk result (λ acts. acts.items ≡ map (λ (n : Node). act_of n.kind) nodes.now) }
{
    let mut acts = Vec::new(alloc);
    for node in nodes {
        acts.push(act_of_kind(&node.kind))?;
    }
    Ok(acts)
}

// The rows of one point, in their order.
fn push_rows(flow: &mut Flow, rows: &[Move]) -> Result<(), AllocError>
    requires open { flow.old.told < length flow.old.acts }
    requires rows { AreRowsOf flow.old.told (length flow.old.acts) rows.now }
    ensures { OnOk result (flow.new ≡ with_rows flow.old rows.now) }
{
    for place in 0..rows.len() {
        flow.push(rows[place])?;
    }
    Ok(())
}

// The moves of the first node whose moves are not all told.
fn tell_node(alloc: Global, flow: &mut Flow, graph: &Graph, place: u32) -> Result<(), AllocError>
    requires place { place < length graph.now.nodes }
    requires told { flow.old.told ≡ place }
    requires flow { IsFlowOf graph.now flow.old }
    ensures flow { OnOk result (IsFlowOf graph.now flow.new) }
    ensures told { OnOk result (flow.new.told ≡ suc place) }
{
    let rows = rows_of(alloc, place, &graph.nodes()[place as usize].kind)?;
    push_rows(flow, &rows)?;
    flow.end_point()
}

/// The flow with the moves of the graph, node by node.
pub fn flow_of(alloc: Global, graph: &Graph) -> Result<Flow, AllocError>
    ensures flow { IfOk result (IsFlowOf graph.now) }
    ensures whole { IfOk result IsWhole }
    ensures well_formed { IsWellFormed graph.now }
{
    let acts = acts_of(alloc, graph.nodes())?;
    let mut flow = Flow::new(alloc, acts, graph.entry())?;
    for place in 0..graph.nodes().len() {
        tell_node(alloc, &mut flow, graph, place as u32)?;
    }
    Ok(flow)
}
