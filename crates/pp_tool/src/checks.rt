// The stage that checks a graph.
ghost use Rattle.std.specs.Prelude.{◌≡◌, slice_get, slice_index, IfOk, IfErr};
ghost use Rattle.pp_check.specs.Checked.{IsChecked, IsFault, told};
ghost use Rattle.pp_tool.specs.Checks.{FailsFor, name_of_span};
ghost use Rattle.pp_tool.specs.Report.{name_of_node};
ghost use Rattle.pp_tool.specs.steps.Checking.{IsCheckStop};

use crate::refusal::{CheckReason, Refusal};
use crate::report::node_name;
use crate::stop::Stop;
use pp_check::{CheckFault, Shape, shape_of};
use pp_graph::{Graph, Name};
use std::alloc::{AllocError, Global};

/// What the checks find of an accepted graph.
pub(crate) fn check_graph(alloc: Global, graph: &Graph) -> Result<Shape, Stop>
    ensures exact { IfOk result (λ found. IsChecked (told graph.now found)) }
    ensures refused { IfErr result (IsCheckStop graph.now) }
{
    match shape_of(alloc, graph) {
        Ok(shape) => Ok(shape),
        Err(fault) => Err(stop_for(alloc, graph, &fault)),
    }
}

// What a fault of a graph stops with.
fn stop_for(alloc: Global, graph: &Graph, fault: &CheckFault) -> Stop
    requires { IsFault graph.now fault.now }
    ensures { IsCheckStop graph.now result }
{
    match reason_for(alloc, graph, fault) {
        Ok(reason) => Stop::Refused(Refusal::Check(reason)),
        Err(_) => Stop::NoMemory,
    }
}

// A fault of a graph, by names.
fn reason_for(alloc: Global, graph: &Graph, fault: &CheckFault) -> Result<CheckReason, AllocError>
    requires { IsFault graph.now fault.now }
    ensures { IfOk result (FailsFor graph.now) }
{
    Ok(match fault {
        CheckFault::Loop { byte, cycle } => CheckReason::Loop {
            node: name_of(alloc, graph, first_of(cycle.items()))?,
            byte: *byte,
        },
        CheckFault::SpanReopened { node, span } => CheckReason::Reopened {
            span: span_name(alloc, graph, *span)?,
            node: name_of(alloc, graph, *node)?,
        },
        CheckFault::SpanNotOpen { node, span } => CheckReason::NotOpen {
            span: span_name(alloc, graph, *span)?,
            node: name_of(alloc, graph, *node)?,
        },
        CheckFault::SpanMixed { node, span } => CheckReason::Mixed {
            span: span_name(alloc, graph, *span)?,
            node: name_of(alloc, graph, *node)?,
        },
        CheckFault::NoMemory => return Err(AllocError),
    })
}

// The first node of a cycle.
fn first_of(cycle: &[u32]) -> u32
    ensures { result ≡ slice_index cycle.now 0 }
{
    cycle.first().copied().unwrap_or(0)
}

// The name of the node at a place, or an empty one.
fn name_of(alloc: Global, graph: &Graph, node: u32) -> Result<Name, AllocError>
    ensures { IfOk result (λ name. name ≡ name_of_node (slice_get graph.now.nodes node)) }
{
    Name::new(alloc, node_name(graph, node))
}

// The name of the span at a place, or an empty one.
fn span_name(alloc: Global, graph: &Graph, span: u32) -> Result<Name, AllocError>
    ensures { IfOk result (λ name. name ≡ name_of_span (slice_get graph.now.spans span)) }
{
    match graph.spans().get(span as usize) {
        Some(decl) => Name::new(alloc, decl.name.bytes()),
        None => Name::new(alloc, &[]),
    }
}
