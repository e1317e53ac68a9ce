// The lines of the edges of a node.
ghost use Rattle.std.specs.Prelude.{◌≡◌, ◌++◌, ◌∷◌, [], codes, flat_map, map, if◌then◌else◌, OnOk};
ghost use Rattle.pp_rules.specs.declared.call.NamedKind.TheVariants as kind;
ghost use Rattle.pp_text.specs.Statements.{carried_tokens};
ghost use Rattle.pp_text.specs.Telling.{key_call, peek_call, answer_call, other_call, else_call, edge_calls};
ghost use Rattle.pp_text.specs.Printed.{printed_line, behind_blank};

use crate::printing::keys::push_key;
use crate::printing::names::node_name;
use crate::printing::tokens::{end_line, push_arrow, push_number, push_word};
use pp_graph::{Answer, Graph, Key, Kind, Other, Peek};
use std::alloc::AllocError;

/// The lines of the edges of a node.
pub(crate) fn print_edges(out: &mut Vec<u8>, graph: &Graph, kind: &Kind) -> Result<(), AllocError>
    ensures { OnOk result (out.new.items ≡ out.old.items ++ flat_map printed_line (edge_calls graph.now kind.now)) }
{
    match kind {
        Kind::Match {
            keys,
            peeks,
            other,
            ..
        } => print_match_edges(out, graph, keys.items(), peeks.items(), *other),
        Kind::Invoke { answers, other, .. } => {
            print_answers(out, graph, answers.items())?;
            print_else(out, graph, *other)
        }
        Kind::Consume { next, .. }
        | Kind::SpanOpen { next, .. }
        | Kind::SpanClose { next, .. }
        | Kind::Pause { next, .. } => print_else(out, graph, *next),
        Kind::Fail { .. } => Ok(()),
    }
}

fn print_match_edges(
    out: &mut Vec<u8>,
    graph: &Graph,
    keys: &[Key],
    peeks: &[Peek],
    other: Other,
) -> Result<(), AllocError>
    ensures { OnOk result (out.new.items ≡ out.old.items ++ flat_map printed_line (map (key_call graph.now) keys.now ++ map (peek_call graph.now) peeks.now ++ other_call graph.now other ∷ [])) }
{
    print_keys(out, graph, keys)?;
    print_peeks(out, graph, peeks)?;
    print_other(out, graph, other)
}

// A line for each key.
fn print_keys(out: &mut Vec<u8>, graph: &Graph, keys: &[Key]) -> Result<(), AllocError>
    ensures { OnOk result (out.new.items ≡ out.old.items ++ flat_map printed_line (map (key_call graph.now) keys.now)) }
{
    for key in keys {
        print_key(out, graph, key)?;
    }
    Ok(())
}

fn print_key(out: &mut Vec<u8>, graph: &Graph, key: &Key) -> Result<(), AllocError>
    ensures { OnOk result (out.new.items ≡ out.old.items ++ printed_line (key_call graph.now key.now)) }
{
    out.extend_from_slice(b"on")?;
    push_key(out, key.bytes.items())?;
    push_carried(out, key.number)?;
    push_arrow(out, node_name(graph, key.target))?;
    end_line(out)
}

// The number that an edge carries, if it does.
fn push_carried(out: &mut Vec<u8>, number: Option<u32>) -> Result<(), AllocError>
    ensures { OnOk result (out.new.items ≡ out.old.items ++ flat_map behind_blank (carried_tokens number)) }
{
    match number {
        Some(number) => {
            push_word(out, b"=")?;
            push_number(out, u64::from(number))
        }
        None => Ok(()),
    }
}

// A line for each peek byte.
fn print_peeks(out: &mut Vec<u8>, graph: &Graph, peeks: &[Peek]) -> Result<(), AllocError>
    ensures { OnOk result (out.new.items ≡ out.old.items ++ flat_map printed_line (map (peek_call graph.now) peeks.now)) }
{
    for peek in peeks {
        print_peek(out, graph, *peek)?;
    }
    Ok(())
}

fn print_peek(out: &mut Vec<u8>, graph: &Graph, peek: Peek) -> Result<(), AllocError>
    ensures { OnOk result (out.new.items ≡ out.old.items ++ printed_line (peek_call graph.now peek)) }
{
    out.extend_from_slice(b"peek")?;
    push_key(out, &[peek.byte])?;
    push_arrow(out, node_name(graph, peek.target))?;
    end_line(out)
}

// A line for each answer.
fn print_answers(out: &mut Vec<u8>, graph: &Graph, answers: &[Answer]) -> Result<(), AllocError>
    ensures { OnOk result (out.new.items ≡ out.old.items ++ flat_map printed_line (map (answer_call graph.now) answers.now)) }
{
    for answer in answers {
        print_answer(out, graph, *answer)?;
    }
    Ok(())
}

fn print_answer(out: &mut Vec<u8>, graph: &Graph, answer: Answer) -> Result<(), AllocError>
    ensures { OnOk result (out.new.items ≡ out.old.items ++ printed_line (answer_call graph.now answer)) }
{
    out.extend_from_slice(b"is")?;
    push_number(out, u64::from(answer.number))?;
    push_arrow(out, node_name(graph, answer.target))?;
    end_line(out)
}

// The line of an otherwise.
fn print_other(out: &mut Vec<u8>, graph: &Graph, other: Other) -> Result<(), AllocError>
    ensures { OnOk result (out.new.items ≡ out.old.items ++ printed_line (other_call graph.now other)) }
{
    out.extend_from_slice(other_text(other.skip))?;
    push_arrow(out, node_name(graph, other.target))?;
    end_line(out)
}

fn other_text(skip: bool) -> &'static [u8]
    ensures { result.now ≡ (if skip then codes "skip" else codes "else") }
{
    if skip { b"skip" } else { b"else" }
}

// The line of an otherwise that takes no byte.
fn print_else(out: &mut Vec<u8>, graph: &Graph, next: u32) -> Result<(), AllocError>
    ensures { OnOk result (out.new.items ≡ out.old.items ++ printed_line (else_call graph.now next)) }
{
    let other = Other {
        skip: false,
        target: next,
    };
    print_other(out, graph, other)
}
