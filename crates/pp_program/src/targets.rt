// The rule on targets: places, the edges that lead to them, forms and counts.
ghost use Rattle.std.specs.Prelude.{◌≡◌, ◌≤◌, ◌<◌, ◌^◌, ℕ, length, not, nat_le, false, true, Some, IfSome, IfNone, slice_get};
ghost use Rattle.std.specs.List.{list_all};
ghost use Rattle.pp_program.specs.Targets.{is_value_code as is_value_code_of, is_value_instr as is_value_instr_of, is_value_state as is_value_state_of, is_plain_state, leads as leads_of, is_edge as is_edge_of, is_rest as is_rest_of, same_number as same_number_of, is_alike as is_alike_of, may_follow as may_follow_of, in_row, is_answer as is_answer_of, answer_follows as answer_follows_of, is_code as is_code_of, are_edges as are_edges_of, are_answers as are_answers_of, is_instr as is_instr_of, is_state as is_state_of, is_match_host as is_match_host_of, is_finish as is_finish_of, are_counts as are_counts_of, is_frame as is_frame_of};
ghost use Rattle.pp_program.specs.steps.Least.{IsFirstState};
ghost use Rattle.pp_program.specs.Countable.{IsCountable};

use crate::length::file_length;
use crate::program::{Edge, Instr, Program, Rest, State};
use pp_graph::{Answer, Code};

// A code of signature value.
fn is_value_code(program: &Program, code: &Code) -> bool
    ensures { result ≡ is_value_code_of program.now code.now }
{
    match code {
        Code::Call { host } => match program.hosts.items().get(*host as usize) {
            Some(host) => host.value,
            None => false,
        },
        Code::Store { .. } | Code::MulAdd { .. } => true,
        _ => false,
    }
}

// An invoke of signature value.
fn is_value_instr(program: &Program, instr: &Instr) -> bool
    ensures { result ≡ is_value_instr_of program.now instr.now }
{
    match instr {
        Instr::Invoke { code, .. } => is_value_code(program, code),
        _ => false,
    }
}

// An edge leads to a state: with a number to an invoke of signature value, without one to no such state.
fn leads(program: &Program, number: Option<u32>, target: u32) -> bool
    ensures { result ≡ leads_of program.now number target }
{
    match program.states.items().get(target as usize) {
        Some(state) => is_value_instr(program, &state.instr) == number.is_some(),
        None => false,
    }
}

// An edge of a branch.
fn is_edge(program: &Program, edge: &Edge) -> bool
    ensures { result ≡ is_edge_of program.now edge.now }
{
    edge.lo <= edge.hi
        && (edge.take || edge.number.is_none())
        && leads(program, edge.number, edge.target)
}

// The rest of a branch.
fn is_rest(program: &Program, rest: &Rest) -> bool
    ensures { result ≡ is_rest_of program.now rest.now }
{
    (!rest.skip || rest.number.is_none()) && leads(program, rest.number, rest.target)
}

// The numbers are the same, or there is none.
fn same_number(a: Option<u32>, b: Option<u32>) -> bool
    ensures { result ≡ same_number_of a b }
{
    match (a, b) {
        (None, None) => true,
        (Some(a), Some(b)) => a == b,
        _ => false,
    }
}

/// The edges do the same on their bytes.
pub(crate) fn is_alike(a: &Edge, b: &Edge) -> bool
    ensures { result ≡ is_alike_of a.now b.now }
{
    a.take == b.take && same_number(a.number, b.number) && a.target == b.target
}

// An edge may stand right behind another.
fn may_follow(a: &Edge, b: &Edge) -> bool
    ensures { result ≡ may_follow_of a.now b.now }
{
    a.hi < b.lo && !(u32::from(a.hi) + 1 == u32::from(b.lo) && is_alike(a, b))
}

// Each edge may stand right behind the one before it.
fn edges_in_row(edges: &[Edge]) -> bool
    ensures { result ≡ in_row may_follow_of edges.now }
{
    for i in 1..edges.len() {
        if !may_follow(&edges[i - 1], &edges[i]) {
            return false;
        }
    }
    true
}

// Answers stand by their numbers.
fn answers_in_row(answers: &[Answer]) -> bool
    ensures { result ≡ in_row answer_follows_of answers.now }
{
    for i in 1..answers.len() {
        if !answer_follows(&answers[i - 1], &answers[i]) {
            return false;
        }
    }
    true
}

// An answer may stand right behind another.
fn answer_follows(a: &Answer, b: &Answer) -> bool
    ensures { result ≡ answer_follows_of a.now b.now }
{
    a.number < b.number
}

// Each is an edge of a branch.
fn all_edges(program: &Program, edges: &[Edge]) -> bool
    ensures { result ≡ list_all (is_edge_of program.now) edges.now }
{
    edges.iter().all(|e| is_edge(program, e))
}

// Each answer leads to a state.
fn all_answers(program: &Program, answers: &[Answer]) -> bool
    ensures { result ≡ list_all (is_answer_of program.now) answers.now }
{
    answers.iter().all(|a| leads(program, None, a.target))
}

// The edges of a branch.
fn are_edges(program: &Program, edges: &[Edge]) -> bool
    ensures { result ≡ are_edges_of program.now edges.now }
{
    edges.len() <= 256 && all_edges(program, edges) && edges_in_row(edges)
}

// The answers of an invoke.
fn are_answers(program: &Program, answers: &[Answer]) -> bool
    ensures { result ≡ are_answers_of program.now answers.now }
{
    answers.len() <= 65535 && all_answers(program, answers) && answers_in_row(answers)
}

// A code's host or property is there.
fn is_code(program: &Program, code: &Code) -> bool
    ensures { result ≡ is_code_of program.now code.now }
{
    match code {
        Code::Call { host } => (*host as usize) < program.hosts.items().len(),
        Code::Store { prop }
        | Code::Load { prop }
        | Code::Update { prop, .. }
        | Code::Equal { prop, .. }
        | Code::And { prop, .. }
        | Code::Or { prop, .. }
        | Code::Test { prop, .. }
        | Code::MulAdd { prop, .. } => (*prop as usize) < program.props.items().len(),
    }
}

// What a state does names what is there.
fn is_instr(program: &Program, instr: &Instr) -> bool
    ensures { result ≡ is_instr_of program.now instr.now }
{
    match instr {
        Instr::Branch { edges, rest, .. } => {
            are_edges(program, edges.items()) && is_rest(program, rest)
        }
        Instr::Invoke {
            code,
            answers,
            other,
        } => {
            is_code(program, code)
                && are_answers(program, answers.items())
                && leads(program, None, *other)
        }
        Instr::Consume { prop, next } => {
            (*prop as usize) < program.props.items().len() && leads(program, None, *next)
        }
        Instr::SpanOpen { span, next } | Instr::SpanClose { span, next } => {
            (*span as usize) < program.spans.items().len() && leads(program, None, *next)
        }
        Instr::Pause { next, .. } => leads(program, None, *next),
        Instr::Fail { .. } => true,
    }
}

// So does its origin.
fn is_state(program: &Program, state: &State) -> bool
    ensures { result ≡ is_state_of program.now state.now }
{
    (state.origin as usize) < program.names.items().len() && is_instr(program, &state.instr)
}

/// The least state that fails the rule on targets.
pub(crate) fn first_wrong_state(program: &Program) -> Option<usize>
    ensures { IsFirstState (λ s. is_state_of program.now s ≡ false) program.now.states result }
{
    let states = program.states.items();
    for i in 0..states.len() {
        if !is_state(program, &states[i]) {
            return Some(i);
        }
    }
    None
}

// The finish rule names a property and a host code that is asked without a value.
fn is_finish(program: &Program, finish: Option<(u32, u32)>) -> bool
    ensures { result ≡ is_finish_of program.now finish }
{
    match finish {
        Some((prop, host)) => {
            (prop as usize) < program.props.items().len() && is_match_host(program, host)
        }
        None => true,
    }
}

// A host code is there, and is asked without a value.
fn is_match_host(program: &Program, host: u32) -> bool
    ensures { result ≡ is_match_host_of (slice_get program.now.hosts host) }
{
    match program.hosts.items().get(host as usize) {
        Some(host) => !host.value,
        None => false,
    }
}

// No count passes its limit.
fn are_counts(program: &Program) -> bool
    requires { IsCountable program.now }
    ensures { result ≡ are_counts_of program.now }
{
    let names = program.names.items().len();
    let states = program.states.items().len();
    program.props.items().len() <= 64
        && program.hosts.items().len() <= 64
        && program.spans.items().len() <= 32
        && 1 <= names
        && names <= 4096
        && 1 <= states
        && states <= 65535
        && file_length(program) <= 16_777_216
}

/// The entry, the finish rule and the counts.
pub(crate) fn is_frame(program: &Program) -> bool
    requires { IsCountable program.now }
    ensures { result ≡ is_frame_of program.now }
{
    leads(program, None, program.entry) && is_finish(program, program.finish) && are_counts(program)
}
