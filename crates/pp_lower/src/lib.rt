//! Lowering: from a graph to a program of states.
#![tactic(auto)]

mod answers;
mod copies;
mod edges;
mod laws;
mod links;
mod lowered;
mod states;
mod texts;
mod tree;

pub use copies::{copy_of_hosts, copy_of_name, copy_of_props, copy_of_reason, copy_of_spans};
pub use laws::{
    lowered_is_valid, lowered_states, lowering_adds_none, lowering_keeps, nodes_have_trees,
    prefixes_in_order,
};
pub use lowered::{Lowered, lower};
pub use tree::{Tree, TreeNode, key_tree};
