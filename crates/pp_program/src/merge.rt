// Edges that go on with one another are merged.
ghost use Rattle.std.specs.Prelude.{◌≡◌, ◌++◌, ◌∷◌, List, IfOk, OnOk};
ghost use Rattle.pp_program.specs.Merge.{joins as joins_of, joined as joined_of, merged_from, merged};
ghost use Rattle.pp_program.specs.declared.program.Edge.{Edge};

use crate::program::Edge;
use crate::targets::is_alike;
use pp_bytes::Listed;
use std::alloc::{AllocError, Global};

// The second edge goes on with the first.
fn joins(a: &Edge, b: &Edge) -> bool
    ensures { result ≡ joins_of a.now b.now }
{
    u32::from(a.hi) + 1 == u32::from(b.lo) && is_alike(a, b)
}

// Both edges as one.
fn joined(a: Edge, b: Edge) -> Edge
    ensures { result ≡ joined_of a b }
{
    Edge { hi: b.hi, ..a }
}

// Adds the last edge where the next one doesn't go on with it, and gives the edge that is last now.
fn pass(edges: &mut Vec<Edge>, last: Edge, next: Edge) -> Result<Edge, AllocError>
    ensures { IfOk result (λ e. (l : List Edge) → edges.new.items ++ merged_from e l ≡ edges.old.items ++ merged_from last (next ∷ l)) }
{
    if joins(&last, &next) {
        return Ok(joined(last, next));
    }
    edges.push(last)?;
    Ok(next)
}

// An edge and those behind it, merged.
fn merge_onto(alloc: Global, first: Edge, edges: &[Edge]) -> Result<Listed<Edge>, AllocError>
    ensures { IfOk result (λ l. l ≡ merged_from first edges.now) }
{
    let mut merged: Vec<Edge> = Vec::new(alloc);
    let mut last = first;
    for next in edges {
        last = pass(&mut merged, last, *next)?;
    }
    merged.push(last)?;
    let list = Listed::of(merged);
    Ok(list)
}

/// The edges, each with those right behind it that do the same on the bytes right above, as one.
pub fn merge_edges(alloc: Global, edges: &[Edge]) -> Result<Listed<Edge>, AllocError>
    ensures { IfOk result (λ l. l ≡ merged edges.now) }
{
    match edges.split_first() {
        Some((first, behind)) => merge_onto(alloc, *first, behind),
        None => {
            let none: Vec<Edge> = Vec::new(alloc);
            let list = Listed::of(none);
            Ok(list)
        }
    }
}
