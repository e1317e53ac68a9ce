// The flow of a program: its moves as rows.
ghost use Rattle.std.specs.Prelude.{◌≡◌, ◌<◌, ◌≤◌, not, ℕ, length, OnOk, IfOk, map, slice_get, Some};
ghost use Rattle.pp_flow.specs.Rows.{OrEnds, DeadEnds, FreeEnds, BothEnds, Rowed, RowEnds};
ghost use Rattle.pp_program.specs.declared.program.State.{State};
ghost use Rattle.pp_graph.specs.declared.node.Answer.{Answer};
ghost use Rattle.pp_program.specs.Spans.{act_of as act_of_instr};
ghost use Rattle.pp_program.specs.declared.program.Edge.{Edge};
ghost use Rattle.pp_program.specs.steps.Ends.{step_on as step_on_of, StepsBelow, EdgeEnds, AnswerEnds, EndsOf};
ghost use Rattle.pp_program.specs.steps.Rows.{LeadsWithin, IsSound, IsFlowOf};

use crate::branch::{Step, edges_by_byte, step_on};
use crate::program::{Edge, Instr, Program, Rest, State};
use pp_bytes::{Fold, Ranges};
use pp_flow::{Act, Flow, Move};
use pp_graph::Answer;
use std::alloc::{AllocError, Global};

// Adds a row.
fn push(flow: &mut Flow, row: Move) -> Result<(), AllocError>
    requires from { row.from ≡ flow.old.told }
    requires told { flow.old.told < length flow.old.acts }
    requires to { row.to < length flow.old.acts }
    ensures { OnOk result (Rowed flow.old flow.new (RowEnds row)) }
{
    flow.push(row)
}

// A row for an edge that perhaps no byte takes, along which spans go.
fn push_dead(flow: &mut Flow, state: u32, target: u32) -> Result<(), AllocError>
    requires from { state ≡ flow.old.told }
    requires told { flow.old.told < length flow.old.acts }
    requires to { target < length flow.old.acts }
    ensures { OnOk result (Rowed flow.old flow.new (DeadEnds target)) }
{
    push(
        flow,
        Move {
            from: state,
            to: target,
            lo: 1,
            hi: 0,
            free: false,
            onward: false,
        },
    )
}

// A row for a move on every byte that takes none.
fn push_free(flow: &mut Flow, state: u32, target: u32) -> Result<(), AllocError>
    requires from { state ≡ flow.old.told }
    requires told { flow.old.told < length flow.old.acts }
    requires to { target < length flow.old.acts }
    ensures { OnOk result (Rowed flow.old flow.new (FreeEnds target)) }
{
    push(
        flow,
        Move {
            from: state,
            to: target,
            lo: 0,
            hi: 255,
            free: true,
            onward: false,
        },
    )
}

// A row for a move on every byte that takes bytes or none.
fn push_both(flow: &mut Flow, state: u32, target: u32) -> Result<(), AllocError>
    requires from { state ≡ flow.old.told }
    requires told { flow.old.told < length flow.old.acts }
    requires to { target < length flow.old.acts }
    ensures { OnOk result (Rowed flow.old flow.new (BothEnds target)) }
{
    push(
        flow,
        Move {
            from: state,
            to: target,
            lo: 0,
            hi: 255,
            free: true,
            onward: true,
        },
    )
}

// The row of a step on the bytes from `lo` to `hi`.
fn row_of(state: u32, lo: u8, hi: u8, step: Step) -> Move
    ensures { result ≡ record { from = state; to = step.target; lo = lo; hi = hi; free = not step.takes; onward = step.takes } }
{
    Move {
        from: state,
        to: step.target,
        lo,
        hi,
        free: !step.takes,
        onward: step.takes,
    }
}

// Rows for what a branch does on each byte: one for all bytes in a row on which it does the same.
fn push_steps(
    flow: &mut Flow,
    state: u32,
    fold: Fold,
    stay: &Ranges,
    edges: &[Edge],
    rest: Rest,
) -> Result<(), AllocError>
    requires from { state ≡ flow.old.told }
    requires told { flow.old.told < length flow.old.acts }
    requires to { (b : ℕ) → (step_on_of state fold stay.now edges.now rest b).target < length flow.old.acts }
    ensures { OnOk result (Rowed flow.old flow.new (StepsBelow (step_on_of state fold stay.now edges.now rest) 256)) }
{
    let by_byte = edges_by_byte(edges);
    let mut lo = 0;
    let mut last = step_on(state, fold, stay, &by_byte, rest, 0);
    for b in 1..256u32 {
        let step = step_on(state, fold, stay, &by_byte, rest, b as u8);
        if step != last {
            push(flow, row_of(state, lo, (b - 1) as u8, last))?;
            lo = b as u8;
            last = step;
        }
    }
    push(flow, row_of(state, lo, 255, last))
}

// Rows for edges, also those that no byte takes.
fn push_edges(flow: &mut Flow, state: u32, edges: &[Edge]) -> Result<(), AllocError>
    requires from { state ≡ flow.old.told }
    requires told { flow.old.told < length flow.old.acts }
    requires to { (i : ℕ) (e : Edge) → slice_get edges.now i ≡ Some e → e.target < length flow.old.acts }
    ensures { OnOk result (Rowed flow.old flow.new (EdgeEnds edges.now)) }
{
    for edge in edges {
        push_dead(flow, state, edge.target)?;
    }
    Ok(())
}

// Rows for answers.
fn push_answers(flow: &mut Flow, state: u32, answers: &[Answer]) -> Result<(), AllocError>
    requires from { state ≡ flow.old.told }
    requires told { flow.old.told < length flow.old.acts }
    requires to { (i : ℕ) (a : Answer) → slice_get answers.now i ≡ Some a → a.target < length flow.old.acts }
    ensures { OnOk result (Rowed flow.old flow.new (AnswerEnds answers.now)) }
{
    for answer in answers {
        push_free(flow, state, answer.target)?;
    }
    Ok(())
}

// Rows for what a state does.
fn push_instr(flow: &mut Flow, state: u32, instr: &Instr) -> Result<(), AllocError>
    requires from { state ≡ flow.old.told }
    requires told { flow.old.told < length flow.old.acts }
    requires to { LeadsWithin (length flow.old.acts) instr.now }
    ensures { OnOk result (Rowed flow.old flow.new (EndsOf state instr.now)) }
{
    match instr {
        Instr::Branch {
            fold,
            stay,
            edges,
            rest,
        } => push_branch(flow, state, *fold, stay, edges.items(), *rest),
        Instr::Invoke { answers, other, .. } => push_invoke(flow, state, answers.items(), *other),
        Instr::Consume { next, .. } | Instr::Pause { next, .. } => push_both(flow, state, *next),
        Instr::SpanOpen { next, .. } | Instr::SpanClose { next, .. } => {
            push_free(flow, state, *next)
        }
        Instr::Fail { .. } => Ok(()),
    }
}

// Rows for a branch.
fn push_branch(
    flow: &mut Flow,
    state: u32,
    fold: Fold,
    stay: &Ranges,
    edges: &[Edge],
    rest: Rest,
) -> Result<(), AllocError>
    requires from { state ≡ flow.old.told }
    requires told { flow.old.told < length flow.old.acts }
    requires edges { (i : ℕ) (e : Edge) → slice_get edges.now i ≡ Some e → e.target < length flow.old.acts }
    requires rest { rest.target < length flow.old.acts }
    ensures { OnOk result (Rowed flow.old flow.new (OrEnds (StepsBelow (step_on_of state fold stay.now edges.now rest) 256) (OrEnds (EdgeEnds edges.now) (DeadEnds rest.target)))) }
{
    push_steps(flow, state, fold, stay, edges, rest)?;
    push_edges(flow, state, edges)?;
    push_dead(flow, state, rest.target)
}

// Rows for an invoke.
fn push_invoke(
    flow: &mut Flow,
    state: u32,
    answers: &[Answer],
    other: u32,
) -> Result<(), AllocError>
    requires from { state ≡ flow.old.told }
    requires told { flow.old.told < length flow.old.acts }
    requires answers { (i : ℕ) (a : Answer) → slice_get answers.now i ≡ Some a → a.target < length flow.old.acts }
    requires other { other < length flow.old.acts }
    ensures { OnOk result (Rowed flow.old flow.new (OrEnds (FreeEnds other) (AnswerEnds answers.now))) }
{
    push_free(flow, state, other)?;
    push_answers(flow, state, answers)
}

// What a state does to spans.
fn act_of(instr: &Instr) -> Act
    ensures { result ≡ act_of_instr instr.now }
{
    match instr {
        Instr::SpanOpen { span, .. } => Act::Opens(*span),
        Instr::SpanClose { span, .. } => Act::Closes(*span),
        Instr::Fail { .. } => Act::Fails,
        _ => Act::Goes,
    }
}

// The same of each state.
fn acts_of(alloc: Global, states: &[State]) -> Result<Vec<Act>, AllocError>
    ensures { IfOk result (λ acts. acts.items ≡ map (λ (s : State). act_of_instr s.instr) states.now) }
{
    let mut acts = Vec::new(alloc);
    for state in states {
        acts.push(act_of(&state.instr))?;
    }
    Ok(acts)
}

/// The flow of a program whose places are in range.
pub(crate) fn flow_of(alloc: Global, program: &Program) -> Result<Flow, AllocError>
    requires { IsSound program.now }
    ensures flow { IfOk result (IsFlowOf program.now) }
    ensures whole { IfOk result (λ flow. (flow.told ≡ length program.now.states) × (length flow.acts ≡ length program.now.states)) }
{
    let states = program.states.items();
    let mut flow = Flow::new(alloc, acts_of(alloc, states)?, program.entry)?;
    for state in 0..states.len() as u32 {
        push_instr(&mut flow, state, &states[state as usize].instr)?;
        flow.end_point()?;
    }
    Ok(flow)
}
