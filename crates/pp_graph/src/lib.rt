//! Graphs: their types, and the builder that makes one from named calls which keep the rules.
#![tactic(auto)]

mod build;
mod builder;
mod call;
mod fault;
mod graph;
mod node;
mod places;
mod ranges;

pub use builder::{GraphBuilder, LastNode};
pub use call::{CodeText, KindText};
pub use fault::{GraphFault, NoMemory};
pub use graph::Graph;
pub use node::{Answer, Code, Key, Kind, Node, Other, Peek};
pub use pp_rules::{
    BuilderCall, ByteUse, Constant, GraphRule, HostDecl, Name, NamedCode, NamedEdge, NamedKind,
    PropDecl, Reason, Sort, SpanDecl, Width, is_name, is_reason,
};
