// The graph.
ghost use Rattle.std.specs.Prelude.{◌≡◌};
ghost use Rattle.pp_graph.specs.Plan.{IsWellFormed};

use crate::node::Node;
use pp_bytes::Listed;
use pp_rules::{HostDecl, PropDecl, SpanDecl};
use std::marker::Model;

/// The parts of a graph, which a builder gives.
#[derive(Debug, Drop)]
pub(crate) struct Parts {
    pub props: Vec<PropDecl>,
    pub hosts: Vec<HostDecl>,
    pub spans: Vec<SpanDecl>,
    pub nodes: Vec<Node>,
    pub entry: u32,
    pub finish: Option<(u32, u32)>,
}

/// A graph that keeps the rules. Contracts see it as its lists, its entry and its finish rule.
#[derive(Debug, Drop)]
pub struct Graph {
    props: Listed<PropDecl>,
    hosts: Listed<HostDecl>,
    spans: Listed<SpanDecl>,
    nodes: Listed<Node>,
    entry: u32,
    finish: Option<(u32, u32)>,
}

impl Model for Graph {
    ghost use Rattle.pp_graph.specs.Plan.{Plan, IsWellFormed};

    ghost Value = { Plan };

    ghost view = { λ g. record { props = g.props; hosts = g.hosts; spans = g.spans; nodes = g.nodes; entry = g.entry; finish = g.finish } };

    ghost invariant = { λ g. IsWellFormed (record { props = g.props; hosts = g.hosts; spans = g.spans; nodes = g.nodes; entry = g.entry; finish = g.finish }) };
}

impl Graph {
    ghost use Rattle.pp_graph.specs.steps.Parts.{plan_of};

    /// A graph of these parts, which keep the rules.
    pub(crate) fn of(parts: Parts) -> Graph
        requires { IsWellFormed (plan_of parts) }
        ensures { result ≡ plan_of parts }
    {
        Graph {
            props: Listed::of(parts.props),
            hosts: Listed::of(parts.hosts),
            spans: Listed::of(parts.spans),
            nodes: Listed::of(parts.nodes),
            entry: parts.entry,
            finish: parts.finish,
        }
    }

    /// The properties, in the order of their declarations.
    pub fn props(&self) -> &[PropDecl]
        ensures value { result.now ≡ self.now.props }
        ensures well_formed { IsWellFormed self.now }
    {
        self.props.items()
    }

    /// The host codes, in the order of their declarations.
    pub fn hosts(&self) -> &[HostDecl]
        ensures value { result.now ≡ self.now.hosts }
        ensures well_formed { IsWellFormed self.now }
    {
        self.hosts.items()
    }

    /// The spans, in the order of their declarations.
    pub fn spans(&self) -> &[SpanDecl]
        ensures value { result.now ≡ self.now.spans }
        ensures well_formed { IsWellFormed self.now }
    {
        self.spans.items()
    }

    /// The nodes, in the order of their declarations.
    pub fn nodes(&self) -> &[Node]
        ensures value { result.now ≡ self.now.nodes }
        ensures well_formed { IsWellFormed self.now }
    {
        self.nodes.items()
    }

    /// The place of the node where a run begins.
    pub fn entry(&self) -> u32
        ensures value { result ≡ self.now.entry }
        ensures well_formed { IsWellFormed self.now }
    {
        self.entry
    }

    /// The property and the host code of the finish rule, if there is one, by their places.
    pub fn finish_rule(&self) -> Option<(u32, u32)>
        ensures value { result ≡ self.now.finish }
        ensures well_formed { IsWellFormed self.now }
    {
        self.finish
    }
}
