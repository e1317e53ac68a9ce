// Where a move to a state goes on to.
ghost use Rattle.std.specs.Prelude.{◌≡◌, ◌<◌, ◌≤◌, ◌^◌, IfOk, All, length, map, slice_index};
ghost use Rattle.pp_clean.specs.Search.{TargetsBelow};
ghost use Rattle.pp_clean.specs.Skip.{instr_past, landing};
ghost use Rattle.pp_clean.specs.Reach.{rank};
ghost use Rattle.pp_clean.specs.Tables.{Tells, far, settled};

use pp_program::{Instr, State};
use std::alloc::{AllocError, Global};

// Where an empty instruction leads.
fn target_if_empty(instr: &Instr) -> Option<u32>
    ensures { result ≡ instr_past instr.now }
{
    match instr {
        Instr::Branch {
            stay,
            edges,
            rest,
            ..
        } => {
            if stay.len() != 0 || edges.items().len() != 0 || rest.skip {
                None
            } else {
                Some(rest.target)
            }
        }
        Instr::Invoke { .. } => None,
        Instr::Consume { .. } => None,
        Instr::SpanOpen { .. } => None,
        Instr::SpanClose { .. } => None,
        Instr::Pause { .. } => None,
        Instr::Fail { .. } => None,
    }
}

// Each place read through the table twice.
fn twice(alloc: Global, table: &[u32]) -> Result<Vec<u32>, AllocError>
    requires { All (λ n. n < length table.now) table.now }
    ensures { IfOk result (λ v. v.items ≡ map (λ n. slice_index table.now n) table.now) }
{
    let mut out: Vec<u32> = Vec::new(alloc);
    for place in table {
        out.push(table[*place as usize])?;
    }
    Ok(out)
}

// One empty state on from each place.
fn one_on(alloc: Global, states: &[State]) -> Result<Vec<u32>, AllocError>
    requires { length states.now < 2 ^ 32 }
    ensures { IfOk result (λ v. Tells (far states.now 1) (length states.now) v.items) }
{
    let mut out: Vec<u32> = Vec::new(alloc);
    for i in 0..states.len() {
        let next = match target_if_empty(&states[i].instr) {
            Some(target) => target,
            None => i as u32,
        };
        out.push(next)?;
    }
    Ok(out)
}

/// How many are marked before each place.
pub(crate) fn ranks(alloc: Global, marks: &[bool]) -> Result<Vec<u32>, AllocError>
    requires { length marks.now < 2 ^ 32 }
    ensures { IfOk result (λ v. Tells (rank marks.now) (length marks.now) v.items) }
{
    let mut out: Vec<u32> = Vec::new(alloc);
    let mut count: u32 = 0;
    for mark in marks {
        out.push(count)?;
        if *mark {
            count += 1;
        }
    }
    Ok(out)
}

// The places of the table, where no empty states stand there; else each place itself.
fn settle(alloc: Global, states: &[State], table: &[u32]) -> Result<Vec<u32>, AllocError>
    requires few { length states.now < 2 ^ 32 }
    requires long { length table.now ≡ length states.now }
    requires within { All (λ n. n < length states.now) table.now }
    ensures { IfOk result (λ v. Tells (λ n. settled states.now n (slice_index table.now n)) (length states.now) v.items) }
{
    let mut out: Vec<u32> = Vec::new(alloc);
    for i in 0..states.len() {
        let place = table[i];
        let lands = match target_if_empty(&states[place as usize].instr) {
            Some(_) => i as u32,
            None => place,
        };
        out.push(lands)?;
    }
    Ok(out)
}

/// For each place where a move to it goes on to.
pub(crate) fn landings(alloc: Global, states: &[State]) -> Result<Vec<u32>, AllocError>
    requires few { length states.now < 2 ^ 32 }
    requires within { All (λ s. TargetsBelow (length states.now) s.instr) states.now }
    ensures { IfOk result (λ v. Tells (landing states.now) (length states.now) v.items) }
{
    let mut table = one_on(alloc, states)?;
    let mut steps: usize = 1;
    while steps < states.len() {
        table = twice(alloc, table.as_slice())?;
        steps *= 2;
    }
    settle(alloc, states, table.as_slice())
}
