// The states and names of a finished program.
ghost use Rattle.std.specs.Prelude.{◌≡◌, ◌<◌, ◌≤◌, IfOk, OnOk, All, length, map, slice_index, slice_set, true, if◌then◌else◌};
ghost use Rattle.pp_graph.specs.declared.node.Answer.{Answer};
ghost use Rattle.pp_program.specs.declared.program.Edge.{Edge};
ghost use Rattle.pp_program.specs.declared.program.State.{State};
ghost use Rattle.pp_clean.specs.Map.{mapped, mapped_edge, mapped_answer};
ghost use Rattle.pp_clean.specs.Merge.{merged_instr};
ghost use Rattle.pp_clean.specs.Reach.{picked};
ghost use Rattle.pp_clean.specs.Search.{TargetsBelow};
ghost use Rattle.pp_clean.specs.Layout.{made_state, added, IsUsed};

use pp_bytes::Listed;
use pp_graph::Answer;
use pp_lower::{copy_of_name, copy_of_reason};
use pp_program::{Edge, Instr, Rest, State, merge_edges};
use pp_rules::Name;
use std::alloc::{AllocError, Global};

// The edges with other targets.
fn move_edges(alloc: Global, edges: &[Edge], places: &[u32]) -> Result<Vec<Edge>, AllocError>
    requires { All (λ (e : Edge). e.target < length places.now) edges.now }
    ensures { IfOk result (λ v. v.items ≡ map (mapped_edge (λ t. slice_index places.now t)) edges.now) }
{
    let mut out: Vec<Edge> = Vec::new(alloc);
    for edge in edges {
        out.push(Edge {
            lo: edge.lo,
            hi: edge.hi,
            take: edge.take,
            number: edge.number,
            target: places[edge.target as usize],
        })?;
    }
    Ok(out)
}

// The answers with other targets.
fn move_answers(
    alloc: Global,
    answers: &[Answer],
    places: &[u32],
) -> Result<Vec<Answer>, AllocError>
    requires { All (λ (a : Answer). a.target < length places.now) answers.now }
    ensures { IfOk result (λ v. v.items ≡ map (mapped_answer (λ t. slice_index places.now t)) answers.now) }
{
    let mut out: Vec<Answer> = Vec::new(alloc);
    for answer in answers {
        out.push(Answer {
            number: answer.number,
            target: places[answer.target as usize],
        })?;
    }
    Ok(out)
}

// The instruction with other targets, and with its edges joined.
fn make_instr(alloc: Global, instr: &Instr, places: &[u32]) -> Result<Instr, AllocError>
    requires { TargetsBelow (length places.now) instr.now }
    ensures { IfOk result (λ i. i ≡ merged_instr (mapped (λ t. slice_index places.now t) instr.now)) }
{
    match instr {
        Instr::Branch {
            fold,
            stay,
            edges,
            rest,
        } => {
            let moved = move_edges(alloc, edges.items(), places)?;
            let edges = merge_edges(alloc, &moved)?;
            Ok(Instr::Branch {
                fold: *fold,
                stay: *stay,
                edges,
                rest: Rest {
                    skip: rest.skip,
                    number: rest.number,
                    target: places[rest.target as usize],
                },
            })
        }
        Instr::Invoke {
            code,
            answers,
            other,
        } => {
            let moved = move_answers(alloc, answers.items(), places)?;
            Ok(Instr::Invoke {
                code: *code,
                answers: Listed::of(moved),
                other: places[*other as usize],
            })
        }
        Instr::Consume { prop, next } => Ok(Instr::Consume {
            prop: *prop,
            next: places[*next as usize],
        }),
        Instr::SpanOpen { span, next } => Ok(Instr::SpanOpen {
            span: *span,
            next: places[*next as usize],
        }),
        Instr::SpanClose { span, next } => Ok(Instr::SpanClose {
            span: *span,
            next: places[*next as usize],
        }),
        Instr::Pause { code, reason, next } => {
            let reason = copy_of_reason(alloc, reason)?;
            Ok(Instr::Pause {
                code: *code,
                reason,
                next: places[*next as usize],
            })
        }
        Instr::Fail { code, reason } => {
            let reason = copy_of_reason(alloc, reason)?;
            Ok(Instr::Fail {
                code: *code,
                reason,
            })
        }
    }
}

// The state with other targets and another origin, and with its edges merged.
fn make_state(
    alloc: Global,
    state: &State,
    places: &[u32],
    origins: &[u32],
) -> Result<State, AllocError>
    requires within { TargetsBelow (length places.now) state.now.instr }
    requires named { state.now.origin < length origins.now }
    ensures { IfOk result (λ s. s ≡ made_state places.now origins.now state.now) }
{
    let origin = origins[state.origin as usize];
    let instr = make_instr(alloc, &state.instr, places)?;
    Ok(State { origin, instr })
}

// Adds such a state if it is marked.
fn add_state(
    alloc: Global,
    out: &mut Vec<State>,
    marked: bool,
    state: &State,
    places: &[u32],
    origins: &[u32],
) -> Result<(), AllocError>
    requires within { TargetsBelow (length places.now) state.now.instr }
    requires named { state.now.origin < length origins.now }
    ensures { OnOk result (out.new.items ≡ added marked out.old.items (made_state places.now origins.now state.now)) }
{
    if marked {
        let made = make_state(alloc, state, places, origins)?;
        out.push(made)?;
    }
    Ok(())
}

/// The marked states with other targets and origins, and with their edges merged.
pub(crate) fn make_states(
    alloc: Global,
    states: &[State],
    marks: &[bool],
    places: &[u32],
    origins: &[u32],
) -> Result<Vec<State>, AllocError>
    requires long { length states.now ≡ length marks.now }
    requires within { All (λ (s : State). TargetsBelow (length places.now) s.instr) states.now }
    requires named { All (λ (s : State). s.origin < length origins.now) states.now }
    ensures { IfOk result (λ v. v.items ≡ map (made_state places.now origins.now) (picked marks.now states.now)) }
{
    let mut out: Vec<State> = Vec::new(alloc);
    for i in 0..states.len() {
        add_state(alloc, &mut out, marks[i], &states[i], places, origins)?;
    }
    Ok(out)
}

// Adds a name if it is marked.
fn add_name(alloc: Global, out: &mut Vec<Name>, marked: bool, name: &Name) -> Result<(), AllocError>
    ensures { OnOk result (out.new.items ≡ added marked out.old.items name.now) }
{
    if marked {
        let copy = copy_of_name(alloc, name)?;
        out.push(copy)?;
    }
    Ok(())
}

/// The marked names.
pub(crate) fn keep_names(
    alloc: Global,
    names: &[Name],
    marks: &[bool],
) -> Result<Vec<Name>, AllocError>
    requires { length names.now ≡ length marks.now }
    ensures { IfOk result (λ v. v.items ≡ picked marks.now names.now) }
{
    let mut out: Vec<Name> = Vec::new(alloc);
    for i in 0..names.len() {
        add_name(alloc, &mut out, marks[i], &names[i])?;
    }
    Ok(out)
}

// Marks a place, if the state is marked.
fn use_name(used: &mut Vec<bool>, marked: bool, place: u32)
    requires { place < length used.old.items }
    ensures { used.new.items ≡ (if marked then slice_set used.old.items place true else used.old.items) }
{
    if marked {
        used[place as usize] = true;
    }
}

/// For each of so many names, whether it is the origin of one of the marked states.
pub(crate) fn used_names(
    alloc: Global,
    states: &[State],
    marks: &[bool],
    count: usize,
) -> Result<Vec<bool>, AllocError>
    requires long { length states.now ≡ length marks.now }
    requires named { All (λ (s : State). s.origin < count) states.now }
    ensures { IfOk result (λ v. IsUsed (picked marks.now states.now) count v.items) }
{
    let mut used: Vec<bool> = vec![in alloc; false; count]?;
    for i in 0..states.len() {
        use_name(&mut used, marks[i], states[i].origin);
    }
    Ok(used)
}
