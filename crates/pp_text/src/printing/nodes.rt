// The lines of nodes.
ghost use Rattle.std.specs.Prelude.{◌≡◌, ◌++◌, ◌∷◌, [], Some, decimal, flat_map, OnOk};
ghost use Rattle.pp_rules.specs.declared.call.NamedKind.TheVariants as kind;
ghost use Rattle.pp_rules.specs.declared.call.NamedCode.TheVariants as code;
ghost use Rattle.pp_text.specs.Tokens.{Word, Quoted, token_text};
ghost use Rattle.pp_text.specs.Statements.{constant_word, kind_tokens, code_tokens};
ghost use Rattle.pp_text.specs.Telling.{prop_name as prop_name_of, node_calls, named_code, named_kind};
ghost use Rattle.pp_text.specs.Printed.{printed_line, node_line, behind_blank};

use crate::printing::edges::print_edges;
use crate::printing::names::{host_name, prop_name, span_name};
use crate::printing::tokens::{end_line, push_number, push_quoted, push_two, push_word};
use pp_bytes::Fold;
use pp_graph::{Code, Constant, Graph, Kind, Node};
use std::alloc::AllocError;

/// The lines of each node.
pub(crate) fn print_nodes(out: &mut Vec<u8>, graph: &Graph) -> Result<(), AllocError>
    ensures { OnOk result (out.new.items ≡ out.old.items ++ flat_map printed_line (flat_map (node_calls graph.now) graph.now.nodes)) }
{
    for node in graph.nodes() {
        print_node(out, graph, node)?;
        print_edges(out, graph, &node.kind)?;
    }
    Ok(())
}

// The line of a node, without its edges.
fn print_node(out: &mut Vec<u8>, graph: &Graph, node: &Node) -> Result<(), AllocError>
    ensures { OnOk result (out.new.items ≡ out.old.items ++ node_line node.now.name (named_kind graph.now node.now.kind)) }
{
    out.extend_from_slice(b"node")?;
    push_word(out, node.name.bytes())?;
    push_kind(out, graph, &node.kind)?;
    end_line(out)
}

// What a node does.
fn push_kind(out: &mut Vec<u8>, graph: &Graph, kind: &Kind) -> Result<(), AllocError>
    ensures { OnOk result (out.new.items ≡ out.old.items ++ flat_map behind_blank (kind_tokens (named_kind graph.now kind.now))) }
{
    match kind {
        Kind::Match { fold, .. } => push_match(out, *fold),
        Kind::Invoke { code, .. } => push_code(out, graph, *code),
        Kind::Consume { prop, .. } => push_two(out, b"consume", prop_name(graph, *prop)),
        Kind::SpanOpen { span, .. } => push_two(out, b"open", span_name(graph, *span)),
        Kind::SpanClose { span, .. } => push_two(out, b"close", span_name(graph, *span)),
        Kind::Pause { code, reason, .. } => push_stop(out, b"pause", *code, reason.bytes()),
        Kind::Fail { code, reason } => push_stop(out, b"error", *code, reason.bytes()),
    }
}

fn push_match(out: &mut Vec<u8>, fold: Fold) -> Result<(), AllocError>
    ensures { OnOk result (out.new.items ≡ out.old.items ++ flat_map behind_blank (kind_tokens (kind.Match fold))) }
{
    match fold {
        Fold::Same => push_word(out, b"match"),
        Fold::Lower => push_two(out, b"match", b"lower"),
    }
}

// A word, a number and a reason in quotes.
fn push_stop(out: &mut Vec<u8>, verb: &[u8], code: u32, reason: &[u8]) -> Result<(), AllocError>
    ensures { OnOk result (out.new.items ≡ out.old.items ++ flat_map behind_blank (Word verb.now ∷ Word (decimal code) ∷ Quoted reason.now ∷ [])) }
{
    push_word(out, verb)?;
    push_number(out, u64::from(code))?;
    push_quoted(out, reason)
}

// What an invoke node runs.
fn push_code(out: &mut Vec<u8>, graph: &Graph, code: Code) -> Result<(), AllocError>
    ensures { OnOk result (out.new.items ≡ out.old.items ++ flat_map behind_blank (code_tokens (named_code graph.now code))) }
{
    match code {
        Code::Call { host } => push_two(out, b"call", host_name(graph, host)),
        Code::Store { prop } => push_two(out, b"store", prop_name(graph, prop)),
        Code::Load { prop } => push_two(out, b"load", prop_name(graph, prop)),
        Code::Update { prop, value } => { push_constant(out, graph, Constant::Update, prop, value) }
        Code::Equal { prop, value } => push_constant(out, graph, Constant::Equal, prop, value),
        Code::And { prop, value } => push_constant(out, graph, Constant::And, prop, value),
        Code::Or { prop, value } => push_constant(out, graph, Constant::Or, prop, value),
        Code::Test { prop, value } => push_constant(out, graph, Constant::Test, prop, value),
        Code::MulAdd { prop, base, max } => { push_muladd(out, prop_name(graph, prop), base, max) }
    }
}

// A code with a constant.
fn push_constant(
    out: &mut Vec<u8>,
    graph: &Graph,
    what: Constant,
    prop: u32,
    value: u64,
) -> Result<(), AllocError>
    ensures { OnOk result (out.new.items ≡ out.old.items ++ flat_map behind_blank (code_tokens (code.Constant what (prop_name_of graph.now prop) value))) }
{
    push_word(out, constant_text(what))?;
    push_word(out, prop_name(graph, prop))?;
    push_number(out, value)
}

fn constant_text(what: Constant) -> &'static [u8]
    ensures { result.now ≡ token_text (constant_word what) }
{
    match what {
        Constant::Update => b"update",
        Constant::Equal => b"equal",
        Constant::And => b"and",
        Constant::Or => b"or",
        Constant::Test => b"test",
    }
}

// A muladd, which always gives its most.
fn push_muladd(out: &mut Vec<u8>, prop: &[u8], base: u32, max: u64) -> Result<(), AllocError>
    ensures { OnOk result (out.new.items ≡ out.old.items ++ flat_map behind_blank (code_tokens (code.MulAdd prop.now base (Some max)))) }
{
    push_two(out, b"muladd", prop)?;
    push_number(out, u64::from(base))?;
    push_word(out, b"max")?;
    push_number(out, max)
}
