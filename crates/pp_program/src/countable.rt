// Programs so short that 32 bits count their entries.
ghost use Rattle.std.specs.Prelude.{◌≡◌, ◌↔◌, ◌<◌, ◌^◌, ℕ, true, Some, slice_get};
ghost use Rattle.pp_program.specs.declared.program.State.{State};
ghost use Rattle.pp_program.specs.Countable.{HasFew, IsCountable};

use crate::program::{Instr, Program, State};

// A count of 32 bits.
fn is_few(count: usize) -> bool
    ensures { (result ≡ true) ↔ (count < 2 ^ 32) }
{
    count <= u32::MAX as usize
}

// The edges of a branch, or the answers of an invoke, are few.
fn has_few(instr: &Instr) -> bool
    ensures { (result ≡ true) ↔ HasFew instr.now }
{
    match instr {
        Instr::Branch { edges, .. } => is_few(edges.items().len()),
        Instr::Invoke { answers, .. } => is_few(answers.items().len()),
        _ => true,
    }
}

// So are those of each state.
fn all_have_few(states: &[State]) -> bool
    ensures { (result ≡ true) ↔ ((i : ℕ) (s : State) → slice_get states.now i ≡ Some s → HasFew s.instr) }
{
    for i in 0..states.len() {
        if !has_few(&states[i].instr) {
            return false;
        }
    }
    true
}

/// Whether a program is so short that it can be verified: each of its lists has fewer than 2^32 entries.
pub fn is_countable(program: &Program) -> bool
    ensures { (result ≡ true) ↔ IsCountable program.now }
{
    is_few(program.props.items().len())
        && is_few(program.hosts.items().len())
        && is_few(program.spans.items().len())
        && is_few(program.names.items().len())
        && is_few(program.states.items().len())
        && all_have_few(program.states.items())
}
