// How many bytes the file of a program has.
ghost use Rattle.std.specs.Prelude.{◌≡◌, ◌≤◌, ◌<◌, ◌+◌, ◌*◌, ◌^◌, ℕ, length, sum_by, Some, slice_get};
ghost use Rattle.pp_rules.specs.declared.declaration.PropDecl.{PropDecl};
ghost use Rattle.pp_rules.specs.declared.declaration.HostDecl.{HostDecl};
ghost use Rattle.pp_rules.specs.declared.declaration.SpanDecl.{SpanDecl};
ghost use Rattle.pp_program.specs.Countable.{IsCountable, HasFew};
ghost use Rattle.pp_program.specs.declared.program.State.{State};
ghost use Rattle.pp_program.specs.FileLength.{text_length as text_length_of, number_length as number_length_of, edge_length as edge_length_of, rest_length as rest_length_of, code_length as code_length_of, instr_length as instr_length_of, state_length as state_length_of, finish_length as finish_length_of, file_length as file_length_of};

use crate::program::{Edge, Instr, Program, State};
use pp_graph::Code;
use pp_rules::{HostDecl, Name, PropDecl, SpanDecl};

// Four bytes where there is a number.
fn number_length(number: Option<u32>) -> u128
    ensures { result ≡ number_length_of number }
{
    match number {
        Some(_) => 4,
        None => 0,
    }
}

fn edges_length(edges: &[Edge]) -> u128
    requires { length edges.now < 2 ^ 32 }
    ensures value { result ≡ sum_by edge_length_of edges.now }
    ensures most { result ≤ 9 * length edges.now }
{
    let mut sum = 0;
    for edge in edges {
        sum += 5 + number_length(edge.number);
    }
    sum
}

fn code_length(code: &Code) -> u128
    ensures { result ≡ code_length_of code.now }
{
    match code {
        Code::Call { .. } | Code::Store { .. } | Code::Load { .. } => 1,
        Code::Update { .. }
        | Code::Equal { .. }
        | Code::And { .. }
        | Code::Or { .. }
        | Code::Test { .. } => 9,
        Code::MulAdd { .. } => 13,
    }
}

// Of what a state does.
fn instr_length(instr: &Instr) -> u128
    requires { HasFew instr.now }
    ensures value { result ≡ instr_length_of instr.now }
    ensures most { result < 2 ^ 40 }
{
    match instr {
        Instr::Branch {
            stay,
            edges,
            rest,
            ..
        } => {
            7 + 2 * u128::from(stay.len())
                + edges_length(edges.items())
                + number_length(rest.number)
        }
        Instr::Invoke { code, answers, .. } => {
            code_length(code) + 4 + 6 * answers.items().len() as u128
        }
        Instr::Consume { .. } | Instr::SpanOpen { .. } | Instr::SpanClose { .. } => 3,
        Instr::Pause { reason, .. } => 7 + reason.bytes().len() as u128,
        Instr::Fail { reason, .. } => 5 + reason.bytes().len() as u128,
    }
}

fn states_length(states: &[State]) -> u128
    requires few { length states.now < 2 ^ 32 }
    requires lists { (i : ℕ) (s : State) → slice_get states.now i ≡ Some s → HasFew s.instr }
    ensures value { result ≡ sum_by state_length_of states.now }
    ensures most { result ≤ 2 ^ 41 * length states.now }
{
    let mut sum = 0;
    for state in states {
        sum += 3 + instr_length(&state.instr);
    }
    sum
}

fn props_length(props: &[PropDecl]) -> u128
    requires { length props.now < 2 ^ 32 }
    ensures value { result ≡ sum_by (λ (d : PropDecl). text_length_of d.name + 1) props.now }
    ensures most { result ≤ 257 * length props.now }
{
    let mut sum = 0;
    for decl in props {
        sum += 2 + decl.name.bytes().len() as u128;
    }
    sum
}

fn hosts_length(hosts: &[HostDecl]) -> u128
    requires { length hosts.now < 2 ^ 32 }
    ensures value { result ≡ sum_by (λ (d : HostDecl). text_length_of d.name + 1) hosts.now }
    ensures most { result ≤ 257 * length hosts.now }
{
    let mut sum = 0;
    for decl in hosts {
        sum += 2 + decl.name.bytes().len() as u128;
    }
    sum
}

fn spans_length(spans: &[SpanDecl]) -> u128
    requires { length spans.now < 2 ^ 32 }
    ensures value { result ≡ sum_by (λ (d : SpanDecl). text_length_of d.name) spans.now }
    ensures most { result ≤ 257 * length spans.now }
{
    let mut sum = 0;
    for decl in spans {
        sum += 1 + decl.name.bytes().len() as u128;
    }
    sum
}

fn names_length(names: &[Name]) -> u128
    requires { length names.now < 2 ^ 32 }
    ensures value { result ≡ sum_by text_length_of names.now }
    ensures most { result ≤ 257 * length names.now }
{
    let mut sum = 0;
    for name in names {
        sum += 1 + name.bytes().len() as u128;
    }
    sum
}

// Of the finish rule.
fn finish_length(finish: Option<(u32, u32)>) -> u128
    ensures value { result ≡ finish_length_of finish }
    ensures most { result ≤ 3 }
{
    match finish {
        Some(_) => 3,
        None => 1,
    }
}

/// How many bytes the file of a program has.
pub(crate) fn file_length(program: &Program) -> u128
    requires { IsCountable program.now }
    ensures { result ≡ file_length_of program.now }
{
    18 + finish_length(program.finish)
        + props_length(program.props.items())
        + hosts_length(program.hosts.items())
        + spans_length(program.spans.items())
        + names_length(program.names.items())
        + states_length(program.states.items())
}
