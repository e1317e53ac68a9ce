// What is told of a graph.
ghost use Rattle.std.specs.Prelude.{◌≡◌, ◌≢◌, ◌⊎◌, ℕ, ◌<◌, ◌↔◌, length, IfOk, IfErr};
ghost use Rattle.std.specs.Int.{bit_at};
ghost use Rattle.pp_mean.specs.Loops.{IsLoopFree};
ghost use Rattle.pp_check.specs.Checked.{IsChecked, IsFault, IsAlike, told};
ghost use Rattle.pp_check.specs.Spans.{MayBeOpen, SpansFit};
ghost use Rattle.pp_check.specs.declared.checked.CheckFault.{CheckFault};
ghost use Rattle.pp_check.specs.declared.checked.CheckFault.TheVariants.{NoMemory};
ghost use Rattle.pp_check.specs.steps.Rows.{fault_of as fault_of_lem};

use crate::table::flow_of;
use pp_bytes::Listed;
use pp_flow::{Fitting, Judged, SpanFault};
use pp_graph::Graph;
use std::alloc::{AllocError, Global};
use std::marker::Model;
use thiserror::Error;

/// Why a graph is refused.
#[derive(Debug, Drop, Error)]
pub enum CheckFault {
    /// Moves that take no byte lead from each node of the cycle to the next, and from the last to the first, where `byte`
    /// comes next. No lesser byte has such a loop, and no node before the first is on one at this byte.
    #[error("loop on byte {byte}")]
    Loop { byte: u8, cycle: Listed<u32> },
    /// The node opens a span that may be open already.
    #[error("node {node} opens span {span} again")]
    SpanReopened { node: u32, span: u32 },
    /// The node closes a span that may be shut.
    #[error("node {node} closes span {span}, which may be shut")]
    SpanNotOpen { node: u32, span: u32 },
    /// The span may be open and may be shut at the node, which is no error.
    #[error("span {span} may be open and may be shut at node {node}")]
    SpanMixed { node: u32, span: u32 },
    /// Memory ran out.
    #[error("out of memory")]
    NoMemory,
}

impl From<AllocError> for CheckFault {
    ghost use Rattle.std.specs.Prelude.{◌≡◌};
    ghost use Rattle.pp_check.specs.declared.checked.CheckFault.TheVariants.{NoMemory};

    ghost from_gives = { λ _ e. e ≡ NoMemory };

    fn from(_: AllocError) -> CheckFault {
        CheckFault::NoMemory
    }
}

/// What is found of a graph that has no loop and whose spans fit: its gap, and a mask for each node.
#[derive(Debug, Drop)]
pub struct Shape {
    gap: u32,
    opened: Vec<u32>,
}

impl Model for Shape {
    ghost use Rattle.pp_check.specs.Checked.{Found};

    ghost Value = { Found };

    ghost view = { λ s. record { gap = s.gap; opened = s.opened.items } };
}

impl Shape {
    /// The greatest number of moves in a row that take no byte.
    pub fn gap(&self) -> u32
        ensures { result ≡ self.now.gap }
    {
        self.gap
    }

    /// For each node a bit for each span that some way to it leaves open, before the node acts.
    pub fn opened(&self) -> &[u32]
        ensures { result.now ≡ self.now.opened }
    {
        &self.opened
    }
}

/// A graph without a loop, whose spans fit. Contracts see it as the graph, its gap, and a mask for each node.
#[derive(Debug, Drop)]
pub struct Checked {
    graph: Graph,
    shape: Shape,
}

impl Model for Checked {
    ghost use Rattle.pp_check.specs.Checked.{Told, IsChecked, told};

    ghost Value = { Told };

    ghost view = { λ c. told c.graph c.shape };

    ghost invariant = { λ c. IsChecked (told c.graph c.shape) };
}

impl Checked {
    /// The graph.
    pub fn graph(&self) -> &Graph
        ensures value { result.now ≡ self.now.graph }
        ensures checked { IsChecked self.now }
    {
        &self.graph
    }

    /// The greatest number of moves in a row that take no byte.
    pub fn gap(&self) -> u32
        ensures value { result ≡ self.now.gap }
        ensures checked { IsChecked self.now }
    {
        self.shape.gap()
    }

    /// A mask of spans: bit s is 1 where some way to the node leaves span s open, before the node acts.
    pub fn opened_at(&self, node: u32) -> u32
        requires { node < length self.now.graph.nodes }
        ensures { (s : ℕ) → s < 32 → (bit_at result s ≡ 1) ↔ MayBeOpen self.now.graph s node }
    {
        self.shape.opened()[node as usize]
    }
}

// A fault of a flow as one of a graph.
fn fault_of(fault: SpanFault) -> CheckFault
    ensures { result ≡ fault_of_lem fault }
{
    match fault {
        SpanFault::Reopened { node, span } => CheckFault::SpanReopened { node, span },
        SpanFault::NotOpen { node, span } => CheckFault::SpanNotOpen { node, span },
        SpanFault::Mixed { node, span } => CheckFault::SpanMixed { node, span },
    }
}

/// What is found of a graph that is lent, where it has no loop and its spans fit.
///
/// Spans are judged along all edges, also those that no string takes. Nodes that cannot be come to have no fault.
pub fn shape_of(alloc: Global, graph: &Graph) -> Result<Shape, CheckFault>
    ensures found { IfOk result (λ shape. IsChecked (told graph.now shape)) }
    ensures fault { IfErr result (IsFault graph.now) }
    // A graph in order is refused for want of memory alone.
    ensures accepted { IsLoopFree graph.now → SpansFit graph.now → IfErr result (λ fault. fault ≡ NoMemory) }
    // A graph with a fault is refused, and no other fault is told.
    ensures refused { (fault : CheckFault) → fault ≢ NoMemory → IsFault graph.now fault → IfOk result (λ _. ⊥) }
    ensures alike { (fault : CheckFault) → fault ≢ NoMemory → IsFault graph.now fault → IfErr result (λ other. (other ≡ NoMemory) ⊎ IsAlike fault other) }
{
    let flow = flow_of(alloc, graph)?;
    let gap = match flow.judge(alloc)? {
        Judged::Loop { byte, cycle } => {
            return Err(CheckFault::Loop {
                byte,
                cycle: Listed::of(cycle),
            });
        }
        Judged::Gap(gap) => gap,
    };
    match flow.spans(alloc)? {
        Fitting::Fault(fault) => Err(fault_of(fault)),
        Fitting::Fit(opened) => Ok(Shape { gap, opened }),
    }
}

/// The graph with its gap and its open spans, where it has no loop and its spans fit. It is given up on a refusal.
pub fn check(alloc: Global, graph: Graph) -> Result<Checked, CheckFault>
    ensures same_graph { IfOk result (λ checked. checked.graph ≡ graph) }
    ensures checked { IfOk result IsChecked }
    ensures fault { IfErr result (IsFault graph) }
    // A graph in order is refused for want of memory alone.
    ensures accepted { IsLoopFree graph → SpansFit graph → IfErr result (λ fault. fault ≡ NoMemory) }
    // A graph with a fault is refused, and no other fault is told.
    ensures refused { (fault : CheckFault) → fault ≢ NoMemory → IsFault graph fault → IfOk result (λ _. ⊥) }
    ensures alike { (fault : CheckFault) → fault ≢ NoMemory → IsFault graph fault → IfErr result (λ other. (other ≡ NoMemory) ⊎ IsAlike fault other) }
{
    let shape = shape_of(alloc, &graph)?;
    Ok(Checked { graph, shape })
}
