// Which states are reached.
ghost use Rattle.std.specs.Prelude.{◌≡◌, ◌<◌, IfOk, All, length, map, slice_index};
ghost use Rattle.pp_clean.specs.Search.{Search, visited, visited_all, TargetsBelow, lands, IsFound};
ghost use Rattle.pp_clean.specs.Map.{targets};
ghost use Rattle.pp_graph.specs.declared.node.Answer.{Answer};
ghost use Rattle.pp_program.specs.declared.program.Edge.{Edge};

use pp_graph::Answer;
use pp_program::{Edge, Instr, State};
use std::alloc::{AllocError, Global};

// Marks a place and puts it on the worklist, unless it is marked already.
fn visit(place: u32, marks: &mut Vec<bool>, work: &mut Vec<u32>) -> Result<(), AllocError>
    requires { place < length marks.old.items }
    ensures { IfOk result (λ u. record { marks = marks.new.items; work = work.new.items } ≡ visited (record { marks = marks.old.items; work = work.old.items }) place) }
{
    let i = place as usize;
    if !marks[i] {
        marks[i] = true;
        work.push(place)?;
    }
    Ok(())
}

// Visits where edges land.
fn visit_edges(
    edges: &[Edge],
    landing: &[u32],
    marks: &mut Vec<bool>,
    work: &mut Vec<u32>,
) -> Result<(), AllocError>
    requires within { All (λ (e : Edge). e.target < length landing.now) edges.now }
    requires places { All (λ n. n < length marks.old.items) landing.now }
    ensures { IfOk result (λ u. record { marks = marks.new.items; work = work.new.items } ≡ visited_all (record { marks = marks.old.items; work = work.old.items }) (map (λ t. slice_index landing.now t) (map (λ (e : Edge). e.target) edges.now))) }
{
    for edge in edges {
        visit(landing[edge.target as usize], marks, work)?;
    }
    Ok(())
}

// Visits where answers land.
fn visit_answers(
    answers: &[Answer],
    landing: &[u32],
    marks: &mut Vec<bool>,
    work: &mut Vec<u32>,
) -> Result<(), AllocError>
    requires within { All (λ (a : Answer). a.target < length landing.now) answers.now }
    requires places { All (λ n. n < length marks.old.items) landing.now }
    ensures { IfOk result (λ u. record { marks = marks.new.items; work = work.new.items } ≡ visited_all (record { marks = marks.old.items; work = work.old.items }) (map (λ t. slice_index landing.now t) (map (λ (a : Answer). a.target) answers.now))) }
{
    for answer in answers {
        visit(landing[answer.target as usize], marks, work)?;
    }
    Ok(())
}

// Visits where the edges of an instruction land.
fn visit_targets(
    instr: &Instr,
    landing: &[u32],
    marks: &mut Vec<bool>,
    work: &mut Vec<u32>,
) -> Result<(), AllocError>
    requires within { TargetsBelow (length landing.now) instr.now }
    requires places { All (λ n. n < length marks.old.items) landing.now }
    ensures { IfOk result (λ u. record { marks = marks.new.items; work = work.new.items } ≡ visited_all (record { marks = marks.old.items; work = work.old.items }) (map (λ t. slice_index landing.now t) (targets instr.now))) }
{
    match instr {
        Instr::Branch { edges, rest, .. } => {
            visit(landing[rest.target as usize], marks, work)?;
            visit_edges(edges.items(), landing, marks, work)
        }
        Instr::Invoke { answers, other, .. } => {
            visit(landing[*other as usize], marks, work)?;
            visit_answers(answers.items(), landing, marks, work)
        }
        Instr::Consume { next, .. } => visit(landing[*next as usize], marks, work),
        Instr::SpanOpen { next, .. } => visit(landing[*next as usize], marks, work),
        Instr::SpanClose { next, .. } => visit(landing[*next as usize], marks, work),
        Instr::Pause { next, .. } => visit(landing[*next as usize], marks, work),
        Instr::Fail { .. } => Ok(()),
    }
}

/// For each state, whether the entry reaches it, where a move to a place goes on to where it lands.
pub(crate) fn reach(
    alloc: Global,
    states: &[State],
    landing: &[u32],
    entry: u32,
) -> Result<Vec<bool>, AllocError>
    requires within { All (λ s. TargetsBelow (length landing.now) s.instr) states.now }
    requires places { All (λ n. n < length states.now) landing.now }
    requires entry { entry < length states.now }
    ensures { IfOk result (λ v. IsFound (lands states.now landing.now) (length states.now) entry v.items) }
{
    let mut marks: Vec<bool> = vec![in alloc; false; states.len()]?;
    let mut work: Vec<u32> = Vec::new(alloc);
    visit(entry, &mut marks, &mut work)?;
    while let Some(place) = work.pop() {
        visit_targets(
            &states[place as usize].instr,
            landing,
            &mut marks,
            &mut work,
        )?;
    }
    Ok(marks)
}
