// The rule on widths: constants and numbers fit their properties.
ghost use Rattle.std.specs.Prelude.{◌≡◌, ◌<◌, ℕ, true, slice_get};
ghost use Rattle.std.specs.List.{list_any};
ghost use Rattle.pp_rules.specs.Widths.{greatest as greatest_of};
ghost use Rattle.pp_program.specs.Widths.{is_narrow as is_narrow_of, is_wide_code as is_wide_code_of, is_narrow_code as is_narrow_code_of, is_narrow_instr as is_narrow_instr_of, is_wide_number as is_wide_number_of, is_wide_edge as is_wide_edge_of, is_wide_instr as is_wide_instr_of};
ghost use Rattle.pp_program.specs.steps.Least.{IsFirstState};

use crate::program::{Edge, Instr, Program};
use pp_graph::Code;
use pp_rules::Width;

/// The greatest value of a property of this width.
pub fn greatest(width: Width) -> u64
    ensures { result ≡ greatest_of width }
{
    match width {
        Width::W8 => 0xff,
        Width::W16 => 0xffff,
        Width::W32 => 0xffff_ffff,
        Width::W64 => 0xffff_ffff_ffff_ffff,
    }
}

// The property is there, and can't hold the value.
fn is_narrow(program: &Program, prop: u32, value: u64) -> bool
    ensures { result ≡ is_narrow_of (slice_get program.now.props prop) value }
{
    match program.props.items().get(prop as usize) {
        Some(decl) => greatest(decl.width) < value,
        None => false,
    }
}

// The constant of a code, or its most, is wider than its property.
fn is_wide_code(program: &Program, code: &Code) -> bool
    ensures { result ≡ is_wide_code_of program.now code.now }
{
    match code {
        Code::Update { prop, value }
        | Code::Equal { prop, value }
        | Code::And { prop, value }
        | Code::Or { prop, value }
        | Code::Test { prop, value } => is_narrow(program, *prop, *value),
        Code::MulAdd { prop, max, .. } => is_narrow(program, *prop, *max),
        Code::Call { .. } | Code::Store { .. } | Code::Load { .. } => false,
    }
}

// An instruction stores the number into a property that can't hold it.
fn is_narrow_instr(program: &Program, number: u32, instr: &Instr) -> bool
    ensures { result ≡ is_narrow_instr_of program.now number instr.now }
{
    match instr {
        Instr::Invoke { code, .. } => is_narrow_code(program, number, code),
        _ => false,
    }
}

// A code stores the number so.
fn is_narrow_code(program: &Program, number: u32, code: &Code) -> bool
    ensures { result ≡ is_narrow_code_of program.now number code.now }
{
    match code {
        Code::Store { prop } => is_narrow(program, *prop, u64::from(number)),
        _ => false,
    }
}

// The number of an edge is wider than the property that its target stores.
fn is_wide_number(program: &Program, number: Option<u32>, target: u32) -> bool
    ensures { result ≡ is_wide_number_of program.now number target }
{
    match number {
        Some(number) => match program.states.items().get(target as usize) {
            Some(state) => is_narrow_instr(program, number, &state.instr),
            None => false,
        },
        None => false,
    }
}

// So is one of these edges.
fn has_wide_edge(program: &Program, edges: &[Edge]) -> bool
    ensures { result ≡ list_any (is_wide_edge_of program.now) edges.now }
{
    edges
        .iter()
        .any(|e| is_wide_number(program, e.number, e.target))
}

// A state has a constant, a most or an edge that is too wide.
fn is_wide_instr(program: &Program, instr: &Instr) -> bool
    ensures { result ≡ is_wide_instr_of program.now instr.now }
{
    match instr {
        Instr::Branch { edges, rest, .. } => {
            has_wide_edge(program, edges.items())
                || is_wide_number(program, rest.number, rest.target)
        }
        Instr::Invoke { code, .. } => is_wide_code(program, code),
        _ => false,
    }
}

/// The least state with a value that is too wide.
pub(crate) fn first_wide_state(program: &Program) -> Option<usize>
    ensures { IsFirstState (λ s. is_wide_instr_of program.now s.instr ≡ true) program.now.states result }
{
    let states = program.states.items();
    for i in 0..states.len() {
        if is_wide_instr(program, &states[i].instr) {
            return Some(i);
        }
    }
    None
}
