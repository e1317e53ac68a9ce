// Key trees, and the programs of graphs.
use crate::mean::graph_of;
use pp_check::check;
use pp_graph::{Graph, Kind};
use pp_lower::{
    Tree, key_tree, lower, lowered_is_valid, lowered_states, lowering_adds_none, lowering_keeps,
    nodes_have_trees, prefixes_in_order,
};
use pp_program::{Edge, Instr, Rest};
use std::alloc::Global;
use std::test::Fail;

#[test]
fn laws_are_called() {
    lowering_adds_none();
    lowered_is_valid();
    lowered_states();
    lowering_keeps();
    nodes_have_trees();
    prefixes_in_order();
}

// Two keys, one of which begins the other.
const TWO_KEYS: &str =
    "entry s;node s match;on \"ab\" -> x;on \"abc\" -> s;else -> bad;node x error 1 \"x\";node bad error 2 \"bad\"";

// The tree of the first node.
fn first_tree(alloc: Global, graph: &Graph) -> Result<Tree, Fail> {
    nodes_have_trees();
    let nodes = graph.nodes();
    if nodes.is_empty() {
        return Err(Fail::from("no node"));
    }
    let node = &nodes[0];
    match &node.kind {
        Kind::Match { .. } => Ok(key_tree(alloc, node)?),
        _ => Err(Fail::from("no match node")),
    }
}

// For the prefixes of the keys, in order: the bytes that lead on and where, and the key that ends there.
const TREE: [(&[(u8, u32)], Option<u32>); 4] = [
    (&[(b'a', 1)], None),
    (&[(b'b', 2)], None),
    (&[(b'c', 3)], Some(0)),
    (&[], Some(1)),
];

#[test]
fn prefixes_stand_in_order(rt: HostRuntime) -> Result<(), Fail> {
    let alloc = rt.alloc();
    let graph = graph_of(alloc, TWO_KEYS)?;
    let tree = first_tree(alloc, &graph)?;
    let nodes = tree.nodes.items();
    assert_eq!(rt; nodes.len(), TREE.len());
    for (node, (next, key)) in nodes.iter().zip(TREE) {
        assert_eq!(rt; node.next.items(), next);
        assert_eq!(rt; node.key, key);
    }
    Ok(())
}

// The edge that takes one byte.
fn taking(byte: u8, target: u32) -> Edge {
    Edge {
        lo: byte,
        hi: byte,
        take: true,
        number: None,
        target,
    }
}

// The rest that takes no byte.
fn staying(target: u32) -> Rest {
    Rest {
        skip: false,
        number: None,
        target,
    }
}

#[test]
fn a_state_stands_for_each_inner_prefix(rt: HostRuntime) -> Result<(), Fail> {
    let alloc = rt.alloc();
    let checked = check(alloc, graph_of(alloc, TWO_KEYS)?)?;
    let lowered = lower(alloc, &checked)?;
    let states = lowered.program().states.items();
    assert_eq!(rt; states.len(), 5);
    for (state, (edge, other)) in states.iter().zip([
        (taking(b'a', 1), staying(4)),
        (taking(b'b', 2), staying(4)),
        (taking(b'c', 0), staying(3)),
    ]) {
        match &state.instr {
            Instr::Branch { edges, rest, .. } => {
                assert_eq!(rt; edges.items(), [edge].as_slice());
                assert_eq!(rt; *rest, other);
            }
            _ => return Err(Fail::from("no branch")),
        }
    }
    Ok(())
}
