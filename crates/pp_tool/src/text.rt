// The graph text that begins an input.
ghost use Rattle.std.specs.Prelude.{◌≡◌, ◌≤◌, suc, List, ℕ, Some, [], length, count_by, IfOk, IfErr, OnOk};
ghost use Rattle.pp_rules.specs.Rules.{KeepsRules};
ghost use Rattle.pp_text.specs.Text.{Told, BeginWithText};
ghost use Rattle.pp_text.specs.Outcome.{Reads};
ghost use Rattle.pp_tool.specs.declared.refusal.GraphReason.{GraphReason};
ghost use Rattle.pp_tool.specs.Verdict.{Answers};
ghost use Rattle.pp_tool.specs.GraphText.{HasNoGraph, ReadsTextAlone, IsOfGraph};
ghost use Rattle.pp_tool.specs.steps.Reading.{IsGraphAt, IsTextStop, IsTaken, IsTakenStop, is_lf};
ghost use Rattle.pp_tool.specs.steps.Stops.{StopsReading};

use crate::input::take_front;
use crate::refusal::{GraphReason, Refusal};
use crate::stop::Stop;
use pp_graph::Graph;
use pp_outside::Source;
use pp_text::read_graph;
use std::alloc::Global;

/// The front of the input, the graph whose text begins it, and the length of the text.
pub(crate) fn take_text<S: Source>(
    alloc: Global,
    input: &mut S,
) -> Result<(Vec<u8>, Graph, usize), Stop>
    ensures taken { (bytes : List ℕ) → S.left input.old ≡ Some bytes → IfOk result (λ r. IsTaken bytes r.0.items r.1 r.2 (S.left input.new)) }
    ensures refused { (bytes : List ℕ) → S.left input.old ≡ Some bytes → IfErr result (IsTakenStop bytes) }
    ensures within { IfOk result (λ r. r.2 ≤ length r.0.items) }
    ensures stops { IfErr result (StopsReading IsOfGraph (S.faults input.old) (S.faults input.new)) }
    ensures never_falls { S.faults input.old ≤ S.faults input.new }
{
    let front = take_front(alloc, input)?;
    let (graph, used) = graph_at(alloc, &front)?;
    Ok((front, graph, used))
}

/// The graph whose text the input is. Since the front of the input has a byte more than a graph text can have, it tells
/// whether something stands behind the text.
pub(crate) fn graph_alone<S: Source>(alloc: Global, input: &mut S) -> Result<Graph, Stop>
    ensures answer { (bytes : List ℕ) → S.left input.old ≡ Some bytes → Answers (ReadsTextAlone bytes) (λ g. g) result }
    ensures read_to_end { (bytes : List ℕ) → S.left input.old ≡ Some bytes → OnOk result (S.left input.new ≡ Some []) }
    ensures stops { IfErr result (StopsReading IsOfGraph (S.faults input.old) (S.faults input.new)) }
{
    let (front, graph, used) = take_text(alloc, input)?;
    if used < front.len() {
        return Err(Stop::Refused(Refusal::Graph(GraphReason::WrongLine {
            line: line_behind(&front[..used]),
        })));
    }
    Ok(graph)
}

// The graph whose text begins the bytes, and the length of the text.
fn graph_at(alloc: Global, bytes: &[u8]) -> Result<(Graph, usize), Stop>
    ensures found { IfOk result (λ r. IsGraphAt bytes.now r.0 r.1) }
    ensures graph_only { (told : Told) (last : ℕ) (rest : List ℕ) → BeginWithText bytes.now told last rest → KeepsRules told.calls →
        IfOk result (λ r. Reads bytes.now told last rest r.0 r.1) }
    ensures no_fault { (reason : GraphReason) → HasNoGraph bytes.now reason → OnOk result ⊥ }
    ensures refused { IfErr result (IsTextStop bytes.now) }
{
    Ok(read_graph(alloc, bytes)?)
}

// The number of the line behind whole lines.
fn line_behind(lines: &[u8]) -> u64
    ensures { result ≡ suc (count_by is_lf lines.now) }
{
    let ends = lines.iter().filter(|byte| **byte == b'\n').count();
    ends as u64 + 1
}
