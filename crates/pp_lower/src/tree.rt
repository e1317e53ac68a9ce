// The tree of the prefixes of a node's keys.
ghost use Rattle.std.specs.Prelude.{◌≡◌, ◌<◌, ◌+◌, ◌^◌, ℕ, ◌++◌, ◌∷◌, [], Some, suc, length, map, option_map, sum_by, IfOk, OnOk};
ghost use Rattle.pp_graph.specs.Plan.{AreDistinct, key_bytes};
ghost use Rattle.pp_lower.specs.Tree.{IsMatch, keys_of, each_below, listed, node_among, tree_of};
ghost use Rattle.pp_lower.specs.steps.Order.{IsOrdered};
ghost use Rattle.pp_lower.specs.steps.Links.{link_by, next_on};

use crate::links::{Link, ends_of, link_at, links_of};
use crate::texts::{prefixes_of, texts_of};
use pp_bytes::Listed;
use pp_graph::{Key, Kind, Node};
use pp_outside::NoMemory;
use std::alloc::Global;

/// The prefixes of keys as a tree: a node for each, in lexicographic order, the empty one first.
#[derive(Debug, Drop)]
pub struct Tree {
    pub nodes: Listed<TreeNode>,
}

/// What follows a prefix of keys: by each byte, ascending, the place of the prefix that is longer by it; and the place of
/// the key that ends here.
#[derive(Debug, Drop)]
pub struct TreeNode {
    pub next: Listed<(u8, u32)>,
    pub key: Option<u32>,
}

/// The tree of the keys of a match node. Places of prefixes count the nodes of the tree, those of keys the keys of the
/// node, both from 0.
pub fn key_tree(alloc: Global, node: &Node) -> Result<Tree, NoMemory>
    requires is_match { IsMatch node.now.kind }
    requires distinct { AreDistinct (key_bytes (keys_of node.now.kind)) }
    requires fits { sum_by length (key_bytes (keys_of node.now.kind)) + 1 < 2 ^ 32 }
    ensures { IfOk result (λ tree. tree.nodes ≡ tree_of (key_bytes (keys_of node.now.kind))) }
{
    let keys = keys_in(node);
    let texts = texts_of(alloc, keys)?;
    let list = prefixes_of(alloc, keys, 0)?;
    let nodes = nodes_of(alloc, &list, &texts)?;
    Ok(Tree {
        nodes: Listed::of(nodes),
    })
}

fn keys_in(node: &Node) -> &[Key]
    ensures { result.now ≡ keys_of node.now.kind }
{
    match &node.kind {
        Kind::Match { keys, .. } => keys.items(),
        _ => &[],
    }
}

// The nodes of the empty text and of those of a list, with the places of the texts that end there.
fn nodes_of(
    alloc: Global,
    list: &[Listed<u8>],
    texts: &[Listed<u8>],
) -> Result<Vec<TreeNode>, NoMemory>
    requires ordered { IsOrdered ([] ∷ list.now) }
    requires few { length list.now + 1 < 2 ^ 32 }
    requires few_texts { length texts.now < 2 ^ 32 }
    ensures { IfOk result (λ nodes. nodes.items ≡ map (node_among ([] ∷ list.now) texts.now) ([] ∷ list.now)) }
{
    let rows = links_of(alloc, list, list)?;
    let ends = ends_of(alloc, list, texts)?;
    let count = list.len() + 1;
    let mut nodes: Vec<TreeNode> = Vec::new(alloc);
    for i in 0..count {
        let node = node_of(alloc, &rows[i], ends[i])?;
        nodes.push(node)?;
    }
    Ok(nodes)
}

// A node with these links and this end.
fn node_of(alloc: Global, links: &[Link], key: Option<u32>) -> Result<TreeNode, NoMemory>
    requires { (b i : ℕ) → link_by links.now b ≡ Some i → suc i < 2 ^ 32 }
    ensures { IfOk result (λ node. node ≡ record { next = each_below (next_on links.now) 256; key = key }) }
{
    let next = next_of(alloc, links)?;
    Ok(TreeNode { next, key })
}

// Where each byte leads, in order. The empty text stands before the others.
fn next_of(alloc: Global, links: &[Link]) -> Result<Listed<(u8, u32)>, NoMemory>
    requires { (b i : ℕ) → link_by links.now b ≡ Some i → suc i < 2 ^ 32 }
    ensures { IfOk result (λ next. next ≡ each_below (next_on links.now) 256) }
{
    let mut next: Vec<(u8, u32)> = Vec::new(alloc);
    for byte in 0..256usize {
        let place = link_at(links, byte as u8);
        push_next(&mut next, byte as u8, place)?;
    }
    let list = Listed::of(next);
    Ok(list)
}

fn push_next(next: &mut Vec<(u8, u32)>, byte: u8, place: Option<u32>) -> Result<(), NoMemory>
    requires { (i : ℕ) → place ≡ Some i → suc i < 2 ^ 32 }
    ensures { OnOk result (next.new.items ≡ next.old.items ++ listed (option_map (λ i. (byte, suc i)) place)) }
{
    if let Some(place) = place {
        next.push((byte, place + 1))?;
    }
    Ok(())
}
