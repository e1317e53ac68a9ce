// The program of a graph.
ghost use Rattle.std.specs.Prelude.{◌≡◌, ◌<◌, ◌^◌, IfOk, length};
ghost use Rattle.pp_lower.specs.Kept.{KeepsMeaning};
ghost use Rattle.pp_lower.specs.Lowered.{size, root_of, states_by, lowered};
ghost use Rattle.pp_lower.specs.LoweredGraph.{IsLowered};
ghost use Rattle.pp_lower.specs.steps.Parts.{Gives, CanBePlaced, total};

use crate::copies::{copy_of_hosts, copy_of_names, copy_of_props, copy_of_spans};
use crate::states::push_node;
use crate::texts::prefixes_of;
use pp_bytes::Listed;
use pp_check::Checked;
use pp_graph::{Graph, Kind, Node};
use pp_outside::NoMemory;
use pp_program::{Program, State};
use std::alloc::{AllocError, Global};
use std::marker::Model;

/// The program of a graph that is accepted. Contracts see it as the program.
#[derive(Debug, Drop)]
pub struct Lowered {
    program: Program,
}

impl Model for Lowered {
    ghost use Rattle.pp_program.specs.declared.program.Program.{Program};
    ghost use Rattle.pp_lower.specs.LoweredGraph.{IsLowered};

    ghost Value = { Program };

    ghost view = { λ l. l.program };

    ghost invariant = { λ l. IsLowered l.program };
}

impl Lowered {
    /// The program.
    pub fn program(&self) -> &Program
        ensures value { result.now ≡ self.now }
        ensures lowered { IsLowered self.now }
    {
        &self.program
    }
}

/// Lowers a graph: nodes in order, a match node as a state for its root and one for each inner prefix of its keys.
pub fn lower(alloc: Global, checked: &Checked) -> Result<Lowered, NoMemory>
    ensures program { IfOk result (λ program. program ≡ lowered checked.now.graph) }
    ensures keeps { IfOk result (KeepsMeaning checked.now.graph) }
{
    let program = lower_graph(alloc, checked.graph())?;
    Ok(Lowered { program })
}

// How many states a node gives.
fn size_for(alloc: Global, kind: &Kind) -> Result<usize, AllocError>
    ensures { IfOk result (λ n. n ≡ size kind.now) }
{
    match kind {
        Kind::Match { keys, .. } => {
            let inner = prefixes_of(alloc, keys.items(), 1)?;
            Ok(inner.len() + 1)
        }
        Kind::Invoke { .. } => Ok(1),
        Kind::Consume { .. } => Ok(1),
        Kind::SpanOpen { .. } => Ok(1),
        Kind::SpanClose { .. } => Ok(1),
        Kind::Pause { .. } => Ok(1),
        Kind::Fail { .. } => Ok(1),
    }
}

// The places of the nodes' first states.
fn roots_for(alloc: Global, nodes: &[Node]) -> Result<Vec<u32>, AllocError>
    requires { total nodes.now < 2 ^ 32 }
    ensures long { IfOk result (λ v. length v.items ≡ length nodes.now) }
    ensures roots { IfOk result (λ v. Gives v.items (root_of nodes.now)) }
{
    let mut roots: Vec<u32> = Vec::new(alloc);
    let mut next: usize = 0;
    for node in nodes {
        roots.push(next as u32)?;
        let size = size_for(alloc, &node.kind)?;
        next += size;
    }
    Ok(roots)
}

// The states of nodes, whose first states stand at these places.
fn states_for(alloc: Global, roots: &[u32], nodes: &[Node]) -> Result<Listed<State>, AllocError>
    requires placed { CanBePlaced nodes.now }
    requires long { length roots.now ≡ length nodes.now }
    requires roots { Gives roots.now (root_of nodes.now) }
    ensures { IfOk result (λ l. l ≡ states_by nodes.now) }
{
    let mut states: Vec<State> = Vec::new(alloc);
    for i in 0..nodes.len() {
        push_node(
            alloc,
            &mut states,
            roots,
            i as u32,
            roots[i],
            &nodes[i].kind,
        )?;
    }
    let states = Listed::of(states);
    Ok(states)
}

/// The program of a graph.
pub(crate) fn lower_graph(alloc: Global, graph: &Graph) -> Result<Program, AllocError>
    ensures { IfOk result (λ p. p ≡ lowered graph.now) }
{
    let nodes = graph.nodes();
    let roots = roots_for(alloc, nodes)?;
    let props = copy_of_props(alloc, graph.props())?;
    let hosts = copy_of_hosts(alloc, graph.hosts())?;
    let spans = copy_of_spans(alloc, graph.spans())?;
    let names = copy_of_names(alloc, nodes)?;
    let states = states_for(alloc, &roots, nodes)?;
    let entry = roots[graph.entry() as usize];
    let finish = graph.finish_rule();
    Ok(Program {
        props,
        hosts,
        spans,
        names,
        states,
        entry,
        finish,
    })
}
