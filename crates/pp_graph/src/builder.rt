// The builder: calls in order, and the graph that they give.
ghost use Rattle.std.specs.Prelude.{◌≡◌, ◌+◌, ◌<◌, ◌^◌, map, ◌++◌, ◌∷◌, [], true, false, length, IfOk, IfErr, OnOk, OnErr, if◌then◌else◌};
ghost use Rattle.pp_rules.specs.declared.call.BuilderCall.TheVariants as call;
ghost use Rattle.pp_rules.specs.declared.call.NamedEdge.TheVariants as edge;
ghost use Rattle.pp_rules.specs.declared.call.NamedCode.TheVariants as code;
ghost use Rattle.pp_graph.specs.declared.builder.LastNode.TheVariants as last;
ghost use Rattle.pp_rules.specs.Names.{IsName};
ghost use Rattle.pp_graph.specs.Calls.{last_node as last_node_of, has_otherwise as has_otherwise_of, last_of as last_node_kind, named_kind, named_code, KindHasForm, CodeHasForm, MayFollow, HaveForm};
ghost use Rattle.pp_rules.specs.Calls.{is_otherwise_edge};
ghost use Rattle.pp_bytes.specs.Bytes.{bytes_of};
ghost use Rattle.pp_rules.specs.Sets.{key_calls, peek_calls, byte_call};
ghost use Rattle.pp_graph.specs.Built.{built};
ghost use Rattle.pp_rules.specs.Rules.{KeepsRules};
ghost use Rattle.pp_graph.specs.Faults.{IsFault};

use crate::build::build;
use crate::call::{CodeText, KindText};
use crate::fault::{GraphFault, NoMemory};
use crate::graph::Graph;
use pp_bytes::{ByteSet, Listed};
use pp_rules::{
    BuilderCall, ByteUse, Calls, Constant, Declared, Name, NamedCode, NamedEdge, NamedKind, Reason,
    Values, Width, first_fault,
};
use std::alloc::Global;
use std::marker::Model;

/// What the node that was added last is to the edges behind it.
#[derive(Clone, Copy, Debug, PartialEq, Eq)]
pub enum LastNode {
    /// No node was added.
    None,
    /// A match node: it takes keys and peeks, and an otherwise that may be a skip.
    Match,
    /// An invoke node: it takes answers, and a plain otherwise.
    Invoke,
    /// Any other node with a plain otherwise.
    Other,
    /// An error node, which has no edges.
    Fail,
}

/// Builds a graph from calls that name properties, host codes, spans and nodes. Contracts see it as the list of its calls.
#[derive(Drop)]
pub struct GraphBuilder {
    alloc: Global,
    calls: Calls,
    last: LastNode,
    closed: bool,
}

impl Model for GraphBuilder {
    ghost use Rattle.std.specs.Prelude.{List};
    ghost use Rattle.pp_rules.specs.declared.call.BuilderCall.{BuilderCall};
    ghost use Rattle.pp_graph.specs.Calls.{IsRecord};

    ghost Value = { List BuilderCall };

    ghost view = { λ b. b.calls };

    ghost invariant = { λ b. IsRecord b.calls b.last b.closed };
}

impl GraphBuilder {
    /// A builder without calls. Takes no memory.
    pub fn new(alloc: Global) -> GraphBuilder
        ensures { result ≡ [] }
    {
        GraphBuilder {
            alloc,
            calls: Calls::new(alloc),
            last: LastNode::None,
            closed: false,
        }
    }

    /// Declares a property of this width; its values begin at 0. A refused call changes nothing.
    pub fn prop(&mut self, name: &str, width: Width) -> Result<(), NoMemory>
        requires form { IsName name.now }
        requires room { length self.old < 4294967295 }
        ensures added { OnOk result (self.new ≡ self.old ++ call.Prop name.now width ∷ []) }
        ensures unchanged { OnErr result (self.new ≡ self.old) }
    {
        let name = Name::new(self.alloc, name.as_bytes())?;
        self.calls.push(BuilderCall::Prop { name, width })?;
        Ok(())
    }

    /// Declares a host code, which is asked with the carried number or without. A refused call changes nothing.
    pub fn host(&mut self, name: &str, value: bool) -> Result<(), NoMemory>
        requires form { IsName name.now }
        requires room { length self.old < 4294967295 }
        ensures added { OnOk result (self.new ≡ self.old ++ call.Host name.now value ∷ []) }
        ensures unchanged { OnErr result (self.new ≡ self.old) }
    {
        let name = Name::new(self.alloc, name.as_bytes())?;
        self.calls.push(BuilderCall::Host { name, value })?;
        Ok(())
    }

    /// Declares a span. A refused call changes nothing.
    pub fn span(&mut self, name: &str) -> Result<(), NoMemory>
        requires form { IsName name.now }
        requires room { length self.old < 4294967295 }
        ensures added { OnOk result (self.new ≡ self.old ++ call.Span name.now ∷ []) }
        ensures unchanged { OnErr result (self.new ≡ self.old) }
    {
        let name = Name::new(self.alloc, name.as_bytes())?;
        self.calls.push(BuilderCall::Span { name })?;
        Ok(())
    }

    /// Names the node where a run begins. A refused call changes nothing.
    pub fn entry(&mut self, node: &str) -> Result<(), NoMemory>
        requires form { IsName node.now }
        requires room { length self.old < 4294967295 }
        ensures added { OnOk result (self.new ≡ self.old ++ call.Entry node.now ∷ []) }
        ensures unchanged { OnErr result (self.new ≡ self.old) }
    {
        let node = Name::new(self.alloc, node.as_bytes())?;
        self.calls.push(BuilderCall::Entry { node })?;
        Ok(())
    }

    /// Gives the finish rule: a property, and the host code that is asked where it is 1. A refused call changes nothing.
    pub fn finish(&mut self, prop: &str, host: &str) -> Result<(), NoMemory>
        requires prop_form { IsName prop.now }
        requires host_form { IsName host.now }
        requires room { length self.old < 4294967295 }
        ensures added { OnOk result (self.new ≡ self.old ++ call.Finish prop.now host.now ∷ []) }
        ensures unchanged { OnErr result (self.new ≡ self.old) }
    {
        let prop = Name::new(self.alloc, prop.as_bytes())?;
        let host = Name::new(self.alloc, host.as_bytes())?;
        self.calls.push(BuilderCall::Finish { prop, host })?;
        Ok(())
    }

    /// Adds a node. The edges that follow are its own. A refused call changes nothing.
    pub fn node(&mut self, name: &str, kind: KindText<'_>) -> Result<(), NoMemory>
        requires form { IsName name.now }
        requires kind_form { KindHasForm (named_kind kind) }
        requires room { length self.old < 4294967295 }
        ensures added { OnOk result (self.new ≡ self.old ++ call.Node name.now (named_kind kind.entry) ∷ []) }
        ensures unchanged { OnErr result (self.new ≡ self.old) }
    {
        let name = Name::new(self.alloc, name.as_bytes())?;
        let last = last_of(kind);
        let kind = named_kind(self.alloc, kind)?;
        self.calls.push(BuilderCall::Node { name, kind })?;
        self.last = last;
        self.closed = false;
        Ok(())
    }

    /// Adds a key edge to the node that was added last, a match: its bytes, the number that the edge carries,
    /// and the node that it leads to. A refused call changes nothing.
    pub fn key(&mut self, bytes: &[u8], number: Option<u32>, target: &str) -> Result<(), NoMemory>
        requires form { IsName target.now }
        requires follows { MayFollow self.old (call.Edge (edge.Key bytes.now number) target.now) }
        requires room { length self.old < 4294967295 }
        ensures added { OnOk result (self.new ≡ self.old ++ call.Edge (edge.Key bytes.now number) target.now ∷ []) }
        ensures unchanged { OnErr result (self.new ≡ self.old) }
    {
        let bytes = Listed::of(Vec::from_slice(self.alloc, bytes)?);
        self.edge(NamedEdge::Key { bytes, number }, target)
    }

    /// Adds a peek edge to the node that was added last, a match. A refused call changes nothing.
    pub fn peek(&mut self, byte: u8, target: &str) -> Result<(), NoMemory>
        requires form { IsName target.now }
        requires follows { MayFollow self.old (call.Edge (edge.Peek byte) target.now) }
        requires room { length self.old < 4294967295 }
        ensures added { OnOk result (self.new ≡ self.old ++ call.Edge (edge.Peek byte) target.now ∷ []) }
        ensures unchanged { OnErr result (self.new ≡ self.old) }
    {
        self.edge(NamedEdge::Peek { byte }, target)
    }

    /// Adds a key edge of one byte for each byte of a set, ascending, to the node that was added last, a match: the
    /// number that the edges carry, and the node that they lead to. This is one `key` for each byte, and takes the
    /// memory of one. A refused call changes nothing.
    pub fn keys(
        &mut self,
        bytes: ByteSet,
        number: Option<u32>,
        target: &str,
    ) -> Result<(), NoMemory>
        requires form { IsName target.now }
        requires follows { last_node_of self.old ≡ last.Match }
        requires room { length self.old + length (bytes_of bytes) < 4294967296 }
        ensures added { OnOk result (self.new ≡ self.old ++ key_calls bytes number target.now) }
        ensures unchanged { OnErr result (self.new ≡ self.old) }
    {
        self.set(ByteUse::Key { number }, bytes, target)
    }

    /// Adds a peek edge for each byte of a set, ascending, to the node that was added last, a match. This is one `peek`
    /// for each byte, and takes the memory of one. A refused call changes nothing.
    pub fn peeks(&mut self, bytes: ByteSet, target: &str) -> Result<(), NoMemory>
        requires form { IsName target.now }
        requires follows { last_node_of self.old ≡ last.Match }
        requires room { length self.old + length (bytes_of bytes) < 4294967296 }
        ensures added { OnOk result (self.new ≡ self.old ++ peek_calls bytes target.now) }
        ensures unchanged { OnErr result (self.new ≡ self.old) }
    {
        self.set(ByteUse::Peek, bytes, target)
    }

    // Adds the edge of each byte of a set to the node that was added last.
    fn set(&mut self, how: ByteUse, bytes: ByteSet, target: &str) -> Result<(), NoMemory>
        requires form { IsName target.now }
        requires room { length self.old + length (bytes_of bytes) < 4294967296 }
        ensures added { OnOk result (self.new ≡ self.old ++ map (byte_call how target.now) (bytes_of bytes)) }
        ensures unchanged { OnErr result (self.new ≡ self.old) }
    {
        let target = Name::new(self.alloc, target.as_bytes())?;
        self.calls.push_set(self.alloc, how, bytes, target)?;
        Ok(())
    }

    /// Adds an answer edge to the node that was added last, an invoke. A refused call changes nothing.
    pub fn answer(&mut self, number: u32, target: &str) -> Result<(), NoMemory>
        requires form { IsName target.now }
        requires follows { MayFollow self.old (call.Edge (edge.Answer number) target.now) }
        requires room { length self.old < 4294967295 }
        ensures added { OnOk result (self.new ≡ self.old ++ call.Edge (edge.Answer number) target.now ∷ []) }
        ensures unchanged { OnErr result (self.new ≡ self.old) }
    {
        self.edge(NamedEdge::Answer { number }, target)
    }

    /// Gives the node that was added last its otherwise, which takes no byte. A refused call changes nothing.
    pub fn otherwise(&mut self, target: &str) -> Result<(), NoMemory>
        requires form { IsName target.now }
        requires follows { MayFollow self.old (call.Edge (edge.Otherwise false) target.now) }
        requires room { length self.old < 4294967295 }
        ensures added { OnOk result (self.new ≡ self.old ++ call.Edge (edge.Otherwise false) target.now ∷ []) }
        ensures unchanged { OnErr result (self.new ≡ self.old) }
    {
        self.edge(NamedEdge::Otherwise { skip: false }, target)
    }

    /// Gives the node that was added last, a match, an otherwise that takes one byte. A refused call changes nothing.
    pub fn skip(&mut self, target: &str) -> Result<(), NoMemory>
        requires form { IsName target.now }
        requires follows { MayFollow self.old (call.Edge (edge.Otherwise true) target.now) }
        requires room { length self.old < 4294967295 }
        ensures added { OnOk result (self.new ≡ self.old ++ call.Edge (edge.Otherwise true) target.now ∷ []) }
        ensures unchanged { OnErr result (self.new ≡ self.old) }
    {
        self.edge(NamedEdge::Otherwise { skip: true }, target)
    }

    // Adds an edge to the node that was added last.
    fn edge(&mut self, edge: NamedEdge, target: &str) -> Result<(), NoMemory>
        requires form { IsName target.now }
        requires room { length self.old < 4294967295 }
        ensures added { OnOk result (self.new ≡ self.old ++ call.Edge edge target.now ∷ []) }
        ensures unchanged { OnErr result (self.new ≡ self.old) }
    {
        let target = Name::new(self.alloc, target.as_bytes())?;
        let closed = is_closed_by(&edge, self.closed);
        self.calls.push(BuilderCall::Edge { edge, target })?;
        self.closed = closed;
        Ok(())
    }

    /// What the node that was added last is to the edges behind it.
    pub fn last_node(&self) -> LastNode
        ensures { result ≡ last_node_of self.now }
    {
        self.last
    }

    /// Whether the node that was added last has an otherwise.
    pub fn has_otherwise(&self) -> bool
        ensures { result ≡ has_otherwise_of self.now }
    {
        self.closed
    }

    /// The graph of the calls, where every rule holds; else the first rule that fails, with the number of the
    /// first call at which it does. The builder is given up.
    pub fn close(self) -> Result<Graph, GraphFault>
        ensures ok { IfOk result (λ graph. KeepsRules self × (graph ≡ built self)) }
        // `Broken` exactly where a rule fails: beside this clause, `ok` says that every rule holds of a graph.
        ensures broken { IfErr result (IsFault self) }
    {
        let GraphBuilder {
            alloc,
            calls,
            last: _,
            closed: _,
        } = self;
        graph_of(alloc, calls)
    }
}

// The graph of these calls, where every rule holds; else the first fault.
fn graph_of(alloc: Global, calls: Calls) -> Result<Graph, GraphFault>
    requires forms { HaveForm calls }
    requires small { length calls < 2 ^ 32 }
    ensures ok { IfOk result (λ graph. KeepsRules calls × (graph ≡ built calls)) }
    ensures broken { IfErr result (IsFault calls) }
{
    check_rules(alloc, &calls)?;
    let all = calls.into_all(alloc)?;
    let declared = Declared::of(alloc, &all)?;
    Ok(build(alloc, &declared)?)
}

// Whether every rule holds; else the first fault.
fn check_rules(alloc: Global, calls: &Calls) -> Result<(), GraphFault>
    requires { length calls.now < 2 ^ 32 }
    ensures ok { OnOk result (KeepsRules calls.now) }
    ensures broken { IfErr result (IsFault calls.now) }
{
    let (kept, sets) = calls.parts();
    let values = Values::of(alloc, kept)?;
    match first_fault(alloc, &values, sets)? {
        None => Ok(()),
        Some((rule, call)) => Err(GraphFault::Broken {
            rule,
            call: call as u32,
        }),
    }
}

// Whether a node has an otherwise with this edge, if it had one before or had none.
fn is_closed_by(edge: &NamedEdge, closed: bool) -> bool
    ensures { result ≡ (if is_otherwise_edge edge.now then true else closed) }
{
    match edge {
        NamedEdge::Otherwise { .. } => true,
        _ => closed,
    }
}

// What a node of this kind is to the edges behind it.
fn last_of(kind: KindText<'_>) -> LastNode
    ensures { result ≡ last_node_kind (named_kind kind.entry) }
{
    match kind {
        KindText::Match { .. } => LastNode::Match,
        KindText::Invoke { .. } => LastNode::Invoke,
        KindText::Consume { .. }
        | KindText::SpanOpen { .. }
        | KindText::SpanClose { .. }
        | KindText::Pause { .. } => LastNode::Other,
        KindText::Fail { .. } => LastNode::Fail,
    }
}

// The kind with its names copied.
fn named_kind(alloc: Global, kind: KindText<'_>) -> Result<NamedKind, NoMemory>
    requires { KindHasForm (named_kind kind) }
    ensures { IfOk result (λ named. named ≡ named_kind kind.entry) }
{
    match kind {
        KindText::Match { fold } => Ok(NamedKind::Match { fold }),
        KindText::Invoke { code } => Ok(NamedKind::Invoke {
            code: named_code(alloc, code)?,
        }),
        KindText::Consume { prop } => Ok(NamedKind::Consume {
            prop: Name::new(alloc, prop.as_bytes())?,
        }),
        KindText::SpanOpen { span } => Ok(NamedKind::SpanOpen {
            span: Name::new(alloc, span.as_bytes())?,
        }),
        KindText::SpanClose { span } => Ok(NamedKind::SpanClose {
            span: Name::new(alloc, span.as_bytes())?,
        }),
        KindText::Pause { code, reason } => Ok(NamedKind::Pause {
            code,
            reason: Reason::new(alloc, reason.as_bytes())?,
        }),
        KindText::Fail { code, reason } => Ok(NamedKind::Fail {
            code,
            reason: Reason::new(alloc, reason.as_bytes())?,
        }),
    }
}

// The code with its names copied.
fn named_code(alloc: Global, code: CodeText<'_>) -> Result<NamedCode, NoMemory>
    requires { CodeHasForm (named_code code) }
    ensures { IfOk result (λ named. named ≡ named_code code.entry) }
{
    match code {
        CodeText::Call { host } => Ok(NamedCode::Call {
            host: Name::new(alloc, host.as_bytes())?,
        }),
        CodeText::Store { prop } => Ok(NamedCode::Store {
            prop: Name::new(alloc, prop.as_bytes())?,
        }),
        CodeText::Load { prop } => Ok(NamedCode::Load {
            prop: Name::new(alloc, prop.as_bytes())?,
        }),
        CodeText::Update { prop, value } => constant(alloc, Constant::Update, prop, value),
        CodeText::Equal { prop, value } => constant(alloc, Constant::Equal, prop, value),
        CodeText::And { prop, value } => constant(alloc, Constant::And, prop, value),
        CodeText::Or { prop, value } => constant(alloc, Constant::Or, prop, value),
        CodeText::Test { prop, value } => constant(alloc, Constant::Test, prop, value),
        CodeText::MulAdd { prop, base, max } => Ok(NamedCode::MulAdd {
            prop: Name::new(alloc, prop.as_bytes())?,
            base,
            max,
        }),
    }
}

// What a code does with a property and a constant.
fn constant(alloc: Global, what: Constant, prop: &str, value: u64) -> Result<NamedCode, NoMemory>
    requires { IsName prop.now }
    ensures { IfOk result (λ named. named ≡ code.Constant what prop.now value) }
{
    Ok(NamedCode::Constant {
        what,
        prop: Name::new(alloc, prop.as_bytes())?,
        value,
    })
}
