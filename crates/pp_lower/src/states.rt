// The states of a node.
ghost use Rattle.std.specs.Prelude.{◌≡◌, ℕ, List, ◌<◌, ◌≤◌, ◌+◌, ◌^◌, ◌++◌, ◌∷◌, [], Some, IfOk, OnOk, length, slice_get};
ghost use Rattle.pp_graph.specs.declared.node.Kind.TheVariants.{Match};
ghost use Rattle.pp_program.specs.declared.program.Instr.TheVariants.{Invoke};
ghost use Rattle.pp_lower.specs.Lowered.{inner_of, size, answers_of, branch_of, states_of};
ghost use Rattle.pp_lower.specs.steps.Parts.{Gives, KeysBelow, PeeksBelow, AnswersBelow, KindBelow};
ghost use Rattle.pp_lower.specs.steps.Rows.{AreRows};

use crate::answers::answers_for;
use crate::copies::copy_of_reason;
use crate::edges::branch_for;
use crate::links::{Link, ends_of, links_of};
use crate::texts::{prefixes_of, texts_of};
use pp_bytes::Fold;
use pp_graph::{Answer, Code, Key, Kind, Other, Peek};
use pp_program::{Instr, State};
use std::alloc::{AllocError, Global};

/// For the empty prefix of a match node's keys and each inner one, in order: by each byte the inner prefix that is longer
/// by it, by each byte the key that is longer by it, and the key that is the same.
#[derive(Drop)]
pub(crate) struct Rows {
    pub inner: Vec<Vec<Link>>,
    pub keys: Vec<Vec<Link>>,
    pub ends: Vec<Option<u32>>,
}

// The rows of keys.
fn rows_of(alloc: Global, keys: &[Key]) -> Result<Rows, AllocError>
    requires keys { length keys.now < 2 ^ 32 }
    requires inner { length (inner_of keys.now) < 2 ^ 32 }
    ensures { IfOk result (λ rows. AreRows keys.now rows) }
{
    let list = prefixes_of(alloc, keys, 1)?;
    let texts = texts_of(alloc, keys)?;
    let inner = links_of(alloc, &list, &list)?;
    let ends_here = ends_of(alloc, &list, &texts)?;
    let keys_by = links_of(alloc, &list, &texts)?;
    Ok(Rows {
        inner,
        keys: keys_by,
        ends: ends_here,
    })
}

// The peeks of the row at a place: the first alone has them.
fn peeks_at(peeks: &[Peek], i: usize) -> &[Peek]
    ensures first { i ≡ 0 → result.now ≡ peeks.now }
    ensures later { 0 < i → result.now ≡ [] }
{
    if i == 0 { peeks } else { &peeks[..0] }
}

// The branch of the row at a place.
fn branch_at(
    alloc: Global,
    roots: &[u32],
    root: u32,
    fold: Fold,
    keys: &[Key],
    peeks: &[Peek],
    other: Other,
    rows: &Rows,
    i: usize,
) -> Result<Instr, AllocError>
    requires rows { AreRows keys.now rows.now }
    requires within { i ≤ length (inner_of keys.now) }
    requires fits { root + length (inner_of keys.now) < 2 ^ 32 }
    requires keys { KeysBelow (length roots.now) keys.now }
    requires peeks { PeeksBelow (length roots.now) peeks.now }
    requires other { other.target < length roots.now }
    ensures { IfOk result (λ instr. (f : ℕ → ℕ) (p : List ℕ) → Gives roots.now f → slice_get ([] ∷ inner_of keys.now) i ≡ Some p → instr ≡ branch_of f root fold keys.now peeks.now other p) }
{
    let own = peeks_at(peeks, i);
    let inner = &rows.inner[i];
    let longer = &rows.keys[i];
    let end = rows.ends[i];
    let instr = branch_for(
        alloc, roots, root, fold, keys, own, other, inner, longer, end,
    )?;
    Ok(instr)
}

// Adds a state.
fn push_state(states: &mut Vec<State>, origin: u32, instr: Instr) -> Result<(), AllocError>
    ensures { OnOk result (states.new.items ≡ states.old.items ++ record { origin = origin; instr = instr } ∷ []) }
{
    states.push(State { origin, instr })?;
    Ok(())
}

// Adds the states of a match node: of its root and of each inner prefix, in order.
fn push_match(
    alloc: Global,
    states: &mut Vec<State>,
    roots: &[u32],
    origin: u32,
    root: u32,
    fold: Fold,
    keys: &[Key],
    peeks: &[Peek],
    other: Other,
) -> Result<(), AllocError>
    requires few { length keys.now < 2 ^ 32 }
    requires fits { root + length (inner_of keys.now) < 2 ^ 32 }
    requires keys { KeysBelow (length roots.now) keys.now }
    requires peeks { PeeksBelow (length roots.now) peeks.now }
    requires other { other.target < length roots.now }
    ensures { OnOk result ((f : ℕ → ℕ) → Gives roots.now f → states.new.items ≡ states.old.items ++ states_of f origin root (Match fold keys.now peeks.now other)) }
{
    let rows = rows_of(alloc, keys)?;
    for i in 0..rows.ends.len() {
        let instr = branch_at(alloc, roots, root, fold, keys, peeks, other, &rows, i)?;
        push_state(states, origin, instr)?;
    }
    Ok(())
}

// Adds the state of an invoke node.
fn push_invoke(
    alloc: Global,
    states: &mut Vec<State>,
    roots: &[u32],
    origin: u32,
    code: Code,
    answers: &[Answer],
    other: u32,
) -> Result<(), AllocError>
    requires answers { AnswersBelow (length roots.now) answers.now }
    requires other { other < length roots.now }
    ensures { OnOk result ((f : ℕ → ℕ) → Gives roots.now f → states.new.items ≡ states.old.items ++ record { origin = origin; instr = Invoke code (answers_of f answers.now) (f other) } ∷ []) }
{
    let answers = answers_for(alloc, roots, answers)?;
    let other = roots[other as usize];
    push_state(
        states,
        origin,
        Instr::Invoke {
            code,
            answers,
            other,
        },
    )?;
    Ok(())
}

/// Adds the states of a node.
pub(crate) fn push_node(
    alloc: Global,
    states: &mut Vec<State>,
    roots: &[u32],
    origin: u32,
    root: u32,
    kind: &Kind,
) -> Result<(), AllocError>
    requires below { KindBelow (length roots.now) kind.now }
    requires fits { root + size kind.now ≤ 2 ^ 32 }
    ensures { OnOk result ((f : ℕ → ℕ) → Gives roots.now f → states.new.items ≡ states.old.items ++ states_of f origin root kind.now) }
{
    match kind {
        Kind::Match {
            fold,
            keys,
            peeks,
            other,
        } => push_match(
            alloc,
            states,
            roots,
            origin,
            root,
            *fold,
            keys.items(),
            peeks.items(),
            *other,
        ),
        Kind::Invoke {
            code,
            answers,
            other,
        } => push_invoke(alloc, states, roots, origin, *code, answers.items(), *other),
        Kind::Consume { prop, next } => push_state(
            states,
            origin,
            Instr::Consume {
                prop: *prop,
                next: roots[*next as usize],
            },
        ),
        Kind::SpanOpen { span, next } => push_state(
            states,
            origin,
            Instr::SpanOpen {
                span: *span,
                next: roots[*next as usize],
            },
        ),
        Kind::SpanClose { span, next } => push_state(
            states,
            origin,
            Instr::SpanClose {
                span: *span,
                next: roots[*next as usize],
            },
        ),
        Kind::Pause { code, reason, next } => {
            let reason = copy_of_reason(alloc, reason)?;
            push_state(
                states,
                origin,
                Instr::Pause {
                    code: *code,
                    reason,
                    next: roots[*next as usize],
                },
            )
        }
        Kind::Fail { code, reason } => {
            let reason = copy_of_reason(alloc, reason)?;
            push_state(
                states,
                origin,
                Instr::Fail {
                    code: *code,
                    reason,
                },
            )
        }
    }
}
