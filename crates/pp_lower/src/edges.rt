// The edges and the rest of a state of a match node.
ghost use Rattle.std.specs.Prelude.{◌≡◌, ℕ, ◌<◌, ◌+◌, ◌^◌, ◌++◌, [], Some, suc, IfOk, OnOk, length, option_map, find, ◌==◌, nat_eq, if◌then◌else◌};
ghost use Rattle.pp_graph.specs.declared.node.Peek.{Peek};
ghost use Rattle.pp_program.specs.declared.program.Instr.TheVariants.{Branch};
ghost use Rattle.pp_program.specs.Merge.{merged};
ghost use Rattle.pp_lower.specs.Tree.{each_below, listed};
ghost use Rattle.pp_lower.specs.Lowered.{edge_by, rest_by};
ghost use Rattle.pp_lower.specs.steps.Links.{link_by};
ghost use Rattle.pp_lower.specs.steps.Parts.{Gives, key_by, peek_by, edge_from, KeysBelow, PeeksBelow};

use crate::links::{Link, link_at};
use pp_bytes::{Fold, Listed, Ranges};
use pp_graph::{Key, Other, Peek};
use pp_program::{Edge, Instr, Rest, merge_edges};
use std::alloc::{AllocError, Global};

// Where the peek of a byte leads.
fn target_of(peeks: &[Peek], byte: u8) -> Option<u32>
    ensures { result ≡ option_map (λ (p : Peek). p.target) (peek_by peeks.now byte) }
{
    for peek in peeks {
        if peek.byte == byte {
            return Some(peek.target);
        }
    }
    None
}

// The edge on a byte: to the inner state at a place, else by the key at a place, else by a peek.
fn edge_on(
    roots: &[u32],
    root: u32,
    keys: &[Key],
    peeks: &[Peek],
    inner: Option<u32>,
    end: Option<u32>,
    byte: u8,
) -> Option<Edge>
    requires inner { (i : ℕ) → inner ≡ Some i → root + suc i < 2 ^ 32 }
    requires end { (i : ℕ) → end ≡ Some i → i < length keys.now }
    requires keys { KeysBelow (length roots.now) keys.now }
    requires peeks { PeeksBelow (length roots.now) peeks.now }
    ensures { (f : ℕ → ℕ) → Gives roots.now f → result ≡ edge_by f root byte inner (key_by keys.now end) (peek_by peeks.now byte) }
{
    match inner {
        Some(place) => Some(Edge {
            lo: byte,
            hi: byte,
            take: true,
            number: None,
            target: root + (place + 1),
        }),
        None => outer_edge(roots, keys, peeks, end, byte),
    }
}

// The same where no inner state is there.
fn outer_edge(
    roots: &[u32],
    keys: &[Key],
    peeks: &[Peek],
    end: Option<u32>,
    byte: u8,
) -> Option<Edge>
    requires end { (i : ℕ) → end ≡ Some i → i < length keys.now }
    requires keys { KeysBelow (length roots.now) keys.now }
    requires peeks { PeeksBelow (length roots.now) peeks.now }
    ensures { (f : ℕ → ℕ) (root : ℕ) → Gives roots.now f → result ≡ edge_by f root byte None (key_by keys.now end) (peek_by peeks.now byte) }
{
    match end {
        Some(place) => {
            let number = keys[place as usize].number;
            let target = keys[place as usize].target;
            Some(Edge {
                lo: byte,
                hi: byte,
                take: true,
                number,
                target: roots[target as usize],
            })
        }
        None => peek_edge(roots, peeks, byte),
    }
}

// The same where no key is there either.
fn peek_edge(roots: &[u32], peeks: &[Peek], byte: u8) -> Option<Edge>
    requires { PeeksBelow (length roots.now) peeks.now }
    ensures { (f : ℕ → ℕ) (root : ℕ) → Gives roots.now f → result ≡ edge_by f root byte None None (peek_by peeks.now byte) }
{
    match target_of(peeks, byte) {
        Some(target) => Some(Edge {
            lo: byte,
            hi: byte,
            take: false,
            number: None,
            target: roots[target as usize],
        }),
        None => None,
    }
}

fn push_edge(edges: &mut Vec<Edge>, edge: Option<Edge>) -> Result<(), AllocError>
    ensures { OnOk result (edges.new.items ≡ edges.old.items ++ listed edge) }
{
    if let Some(edge) = edge {
        edges.push(edge)?;
    }
    Ok(())
}

// The edges of a state, with the links to inner states and to keys.
fn edges_for(
    alloc: Global,
    roots: &[u32],
    root: u32,
    keys: &[Key],
    peeks: &[Peek],
    inner: &[Link],
    ends: &[Link],
) -> Result<Listed<Edge>, AllocError>
    requires inner { (b i : ℕ) → link_by inner.now b ≡ Some i → root + suc i < 2 ^ 32 }
    requires ends { (b i : ℕ) → link_by ends.now b ≡ Some i → i < length keys.now }
    requires keys { KeysBelow (length roots.now) keys.now }
    requires peeks { PeeksBelow (length roots.now) peeks.now }
    ensures { IfOk result (λ l. (f : ℕ → ℕ) → Gives roots.now f → l ≡ merged (each_below (edge_from f root keys.now peeks.now inner.now ends.now) 256)) }
{
    let mut edges: Vec<Edge> = Vec::new(alloc);
    for byte in 0..256usize {
        let next = link_at(inner, byte as u8);
        let end = link_at(ends, byte as u8);
        let edge = edge_on(roots, root, keys, peeks, next, end, byte as u8);
        push_edge(&mut edges, edge)?;
    }
    let list = merge_edges(alloc, &edges)?;
    Ok(list)
}

// What a state does on other bytes, by the key at a place.
fn rest_for(roots: &[u32], keys: &[Key], other: Other, own: Option<u32>) -> Rest
    requires own { (i : ℕ) → own ≡ Some i → i < length keys.now }
    requires keys { KeysBelow (length roots.now) keys.now }
    requires other { other.target < length roots.now }
    ensures { (f : ℕ → ℕ) → Gives roots.now f → result ≡ rest_by f other (key_by keys.now own) }
{
    match own {
        Some(place) => {
            let number = keys[place as usize].number;
            let target = keys[place as usize].target;
            Rest {
                skip: false,
                number,
                target: roots[target as usize],
            }
        }
        None => Rest {
            skip: other.skip,
            number: None,
            target: roots[other.target as usize],
        },
    }
}

/// The branch of a state.
pub(crate) fn branch_for(
    alloc: Global,
    roots: &[u32],
    root: u32,
    fold: Fold,
    keys: &[Key],
    peeks: &[Peek],
    other: Other,
    inner: &[Link],
    ends: &[Link],
    own: Option<u32>,
) -> Result<Instr, AllocError>
    requires inner { (b i : ℕ) → link_by inner.now b ≡ Some i → root + suc i < 2 ^ 32 }
    requires ends { (b i : ℕ) → link_by ends.now b ≡ Some i → i < length keys.now }
    requires own { (i : ℕ) → own ≡ Some i → i < length keys.now }
    requires keys { KeysBelow (length roots.now) keys.now }
    requires peeks { PeeksBelow (length roots.now) peeks.now }
    requires other { other.target < length roots.now }
    ensures { IfOk result (λ i. (f : ℕ → ℕ) → Gives roots.now f → i ≡ Branch fold [] (merged (each_below (edge_from f root keys.now peeks.now inner.now ends.now) 256)) (rest_by f other (key_by keys.now own))) }
{
    let edges = edges_for(alloc, roots, root, keys, peeks, inner, ends)?;
    let rest = rest_for(roots, keys, other, own);
    let stay = Ranges::new();
    Ok(Instr::Branch {
        fold,
        stay,
        edges,
        rest,
    })
}
