// Whether a graph is plain.
ghost use Rattle.std.specs.Prelude.{◌≡◌, ◌↔◌, IsTrue, []};
ghost use Rattle.pp_bytes.specs.declared.fold.Fold.TheVariants.{Same};
ghost use Rattle.pp_mean.specs.Plain.{IsPlain, HasNodesAlone, ArePlainNodes, IsPlainKind, IsPlainMatch, ArePlainEdges, IsPlainInvoke, IsPlainCode, ArePlainKeys, IsPlainKey};

use pp_bytes::Fold;
use pp_graph::{Answer, Code, Graph, Key, Kind, Node, Peek};

/// Whether a graph has no property, span or finish rule, its match nodes compare bytes as they are, without peeks
/// and by keys of one byte without a number, and its other nodes are calls without answers and errors.
pub fn is_plain(graph: &Graph) -> bool
    ensures { IsTrue result ↔ IsPlain graph.now }
{
    has_nodes_alone(graph) && are_plain_nodes(graph.nodes())
}

// Whether a graph has no property, no span and no finish rule.
fn has_nodes_alone(graph: &Graph) -> bool
    ensures { IsTrue result ↔ HasNodesAlone graph.now }
{
    graph.props().is_empty() && graph.spans().is_empty() && graph.finish_rule().is_none()
}

fn are_plain_nodes(nodes: &[Node]) -> bool
    ensures { IsTrue result ↔ ArePlainNodes nodes.now }
{
    for node in nodes {
        if !is_plain_kind(&node.kind) {
            return false;
        }
    }
    true
}

fn is_plain_kind(kind: &Kind) -> bool
    ensures { IsTrue result ↔ IsPlainKind kind.now }
{
    match kind {
        Kind::Match {
            fold,
            keys,
            peeks,
            ..
        } => is_plain_match(*fold, keys.items(), peeks.items()),
        Kind::Invoke { code, answers, .. } => is_plain_invoke(code, answers.items()),
        Kind::Fail { .. } => true,
        _ => false,
    }
}

fn is_plain_match(fold: Fold, keys: &[Key], peeks: &[Peek]) -> bool
    ensures { IsTrue result ↔ IsPlainMatch fold keys.now peeks.now }
{
    is_same(fold) && are_plain_edges(keys, peeks)
}

fn are_plain_edges(keys: &[Key], peeks: &[Peek]) -> bool
    ensures { IsTrue result ↔ ArePlainEdges keys.now peeks.now }
{
    has_no_peek(peeks) && are_plain_keys(keys)
}

fn is_same(fold: Fold) -> bool
    ensures { IsTrue result ↔ (fold ≡ Same) }
{
    matches!(fold, Fold::Same)
}

fn has_no_peek(peeks: &[Peek]) -> bool
    ensures { IsTrue result ↔ (peeks.now ≡ []) }
{
    peeks.is_empty()
}

fn is_plain_invoke(code: &Code, answers: &[Answer]) -> bool
    ensures { IsTrue result ↔ IsPlainInvoke code.now answers.now }
{
    is_call(code) && has_no_answer(answers)
}

fn is_call(code: &Code) -> bool
    ensures { IsTrue result ↔ IsPlainCode code.now }
{
    matches!(code, Code::Call { .. })
}

fn has_no_answer(answers: &[Answer]) -> bool
    ensures { IsTrue result ↔ (answers.now ≡ []) }
{
    answers.is_empty()
}

fn are_plain_keys(keys: &[Key]) -> bool
    ensures { IsTrue result ↔ ArePlainKeys keys.now }
{
    for key in keys {
        if !is_plain_key(key) {
            return false;
        }
    }
    true
}

fn is_plain_key(key: &Key) -> bool
    ensures { IsTrue result ↔ IsPlainKey key.now }
{
    key.bytes.items().len() == 1 && key.number.is_none()
}
