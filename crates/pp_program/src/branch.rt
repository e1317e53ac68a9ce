// What a branch does on each byte.
ghost use Rattle.std.specs.Prelude.{◌≡◌, List, ◌∷◌};
ghost use Rattle.pp_program.specs.steps.Ends.{IsEdgeTable, edge_step as edge_step_of, step_on as step_on_of};

use crate::program::{Edge, Rest};
use pp_bytes::{Fold, Ranges};

/// Where a branch leads on a byte, and whether it takes it.
#[derive(Clone, Copy, Debug, PartialEq, Eq)]
pub(crate) struct Step {
    pub target: u32,
    pub takes: bool,
}

// Gives the bytes of an edge to it.
fn give_edge(by_byte: &mut [Option<Edge>; 256], edge: Edge)
    ensures { (edges : List Edge) → IsEdgeTable edges by_byte.old → IsEdgeTable (edge ∷ edges) by_byte.new }
{
    for b in usize::from(edge.lo)..usize::from(edge.hi) + 1 {
        by_byte[b] = Some(edge);
    }
}

/// The first edge that has a byte, for each byte.
pub(crate) fn edges_by_byte(edges: &[Edge]) -> [Option<Edge>; 256]
    ensures { IsEdgeTable edges.now result }
{
    let mut by_byte = [None; 256];
    for i in 0..edges.len() {
        let edge = edges[edges.len() - 1 - i];
        give_edge(&mut by_byte, edge);
    }
    by_byte
}

// The step of an edge, or of the rest.
fn edge_step(rest: Rest, edge: Option<Edge>) -> Step
    ensures { result ≡ edge_step_of rest edge }
{
    match edge {
        Some(edge) => Step {
            target: edge.target,
            takes: edge.take,
        },
        None => Step {
            target: rest.target,
            takes: rest.skip,
        },
    }
}

/// The step of a branch on a byte, by the table of its edges.
pub(crate) fn step_on(
    state: u32,
    fold: Fold,
    stay: &Ranges,
    by_byte: &[Option<Edge>; 256],
    rest: Rest,
    b: u8,
) -> Step
    ensures { (edges : List Edge) → IsEdgeTable edges by_byte.now → result ≡ step_on_of state fold stay.now edges rest b }
{
    if stay.has(b) {
        return Step {
            target: state,
            takes: true,
        };
    }
    edge_step(rest, by_byte[usize::from(fold.of(b))])
}
