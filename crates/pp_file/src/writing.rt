// Writing a program file.
ghost use Rattle.std.specs.Prelude.{◌≡◌, ◌≤◌, ◌<◌, ◌+◌, ◌^◌, ◌++◌, ◌∷◌, length, take, drop, IfOk, OnOk};
ghost use Rattle.std.specs.List.{flat_map};
ghost use Rattle.std.specs.Int.{w16, w32, w64, to_be_bytes};
ghost use Rattle.pp_file.specs.Spelling.{text, width_byte as byte_of_width, signature_byte as byte_of_signature, fold_byte as byte_of_fold, spelled_prop, spelled_host, spelled_span, spelled_move, spelled_range, spelled_edge, spelled_answer, spelled_answers, spelled_code, spelled_instr, spelled_state, spelled_finish, spelled_counts, spelled};
ghost use Rattle.pp_file.specs.steps.Places.{EdgeFits, EdgesFit, RestFits, CodeFits, AnswersFit, InstrFits, FinishFits, ProgramFits};
ghost use Rattle.pp_graph.specs.declared.node.Code.TheVariants as codes;
ghost use Rattle.pp_program.specs.declared.program.Instr.TheVariants as instrs;

use crate::kinds::{
    AND, BRANCH, CALL, CARRIES, CONSUME, EQUAL, FAIL, FINISH, LOAD, LOOKS, LOWER, MARK, MATCH,
    MUL_ADD, NO_FINISH, OR, PAUSE, SAME, SPAN_CLOSE, SPAN_OPEN, STORE, TAKES, TEST, UPDATE, VALUE,
    VERSION,
};
use pp_bytes::{Fold, Ranges};
use pp_graph::{Answer, Code};
use pp_outside::{NoMemory, Steps};
use pp_program::{Edge, Instr, Rest, Verified};
use pp_rules::{HostDecl, PropDecl, Width};
use std::alloc::Global;
use std::sync::ledger::Ledger;

/// The file of a program. At most one step for each state.
pub fn write_program<L: Ledger>(
    alloc: Global,
    program: &Verified,
    steps: &mut Steps<L>,
) -> Result<Vec<u8>, NoMemory>
    ensures spelled { IfOk result (λ bytes. bytes.items ≡ spelled program.now.program) }
    ensures ticked { OnOk result (steps.new ≡ steps.old + length program.now.program.states) }
    ensures most { steps.new ≤ steps.old + length program.now.program.states }
{
    let _gap = program.gap();
    let mut out = Vec::from_slice(alloc, &MARK)?;
    out.extend_from_slice(&[VERSION, 0, 0, 0, 0])?;
    put_counts(&mut out, program)?;
    put_finish(&mut out, program.finish_rule())?;
    put_props(&mut out, program)?;
    put_hosts(&mut out, program)?;
    put_spans(&mut out, program)?;
    put_names(&mut out, program)?;
    put_states(&mut out, program, steps)?;
    put_length(&mut out);
    Ok(out)
}

// How long the file is, in place of four bytes behind the version.
fn put_length(out: &mut Vec<u8>)
    requires long { 9 ≤ length out.old.items }
    requires short { length out.old.items < 2 ^ 32 }
    ensures { out.new.items ≡ take 5 out.old.items ++ (to_be_bytes w32 (length out.old.items) ++ drop 9 out.old.items) }
{
    let count = (out.len() as u32).to_be_bytes();
    out[5..9].copy_from_slice(&count);
}

// How many properties, host codes, spans, names and states there are, and the entry.
#[tactic(auto, unfolding(crate::specs::Spelling::spelled_counts))]
fn put_counts(out: &mut Vec<u8>, program: &Verified) -> Result<(), NoMemory>
    requires { ProgramFits program.now.program }
    ensures { OnOk result (out.new.items ≡ out.old.items ++ spelled_counts program.now.program) }
{
    out.extend_from_slice(&[
        program.props() as u8,
        program.hosts() as u8,
        program.spans() as u8,
    ])?;
    put_place(out, program.names())?;
    put_place(out, program.states())?;
    put_place(out, program.entry())
}

fn put_finish(out: &mut Vec<u8>, rule: Option<(u32, u32)>) -> Result<(), NoMemory>
    requires { FinishFits rule }
    ensures { OnOk result (out.new.items ≡ out.old.items ++ spelled_finish rule) }
{
    match rule {
        None => Ok(out.push(NO_FINISH)?),
        Some((prop, host)) => out.extend_from_slice(&[FINISH, prop as u8, host as u8]),
    }
}

fn put_props(out: &mut Vec<u8>, program: &Verified) -> Result<(), NoMemory>
    ensures { OnOk result (out.new.items ≡ out.old.items ++ flat_map spelled_prop program.now.program.props) }
{
    for i in 0..program.props() {
        put_prop(out, program.prop(i))?;
    }
    Ok(())
}

fn put_prop(out: &mut Vec<u8>, decl: &PropDecl) -> Result<(), NoMemory>
    ensures { OnOk result (out.new.items ≡ out.old.items ++ spelled_prop decl.now) }
{
    put_text(out, decl.name.bytes())?;
    Ok(out.push(width_byte(decl.width))?)
}

fn put_hosts(out: &mut Vec<u8>, program: &Verified) -> Result<(), NoMemory>
    ensures { OnOk result (out.new.items ≡ out.old.items ++ flat_map spelled_host program.now.program.hosts) }
{
    for i in 0..program.hosts() {
        put_host(out, program.host(i))?;
    }
    Ok(())
}

fn put_host(out: &mut Vec<u8>, decl: &HostDecl) -> Result<(), NoMemory>
    ensures { OnOk result (out.new.items ≡ out.old.items ++ spelled_host decl.now) }
{
    put_text(out, decl.name.bytes())?;
    Ok(out.push(signature_byte(decl.value))?)
}

fn put_spans(out: &mut Vec<u8>, program: &Verified) -> Result<(), NoMemory>
    ensures { OnOk result (out.new.items ≡ out.old.items ++ flat_map spelled_span program.now.program.spans) }
{
    for i in 0..program.spans() {
        put_text(out, program.span(i).name.bytes())?;
    }
    Ok(())
}

fn put_names(out: &mut Vec<u8>, program: &Verified) -> Result<(), NoMemory>
    ensures { OnOk result (out.new.items ≡ out.old.items ++ flat_map text program.now.program.names) }
{
    for i in 0..program.names() {
        put_text(out, program.name(i).bytes())?;
    }
    Ok(())
}

// One fetch a state.
fn put_states<L: Ledger>(
    out: &mut Vec<u8>,
    program: &Verified,
    steps: &mut Steps<L>,
) -> Result<(), NoMemory>
    requires { ProgramFits program.now.program }
    ensures states { OnOk result (out.new.items ≡ out.old.items ++ flat_map spelled_state program.now.program.states) }
    ensures ticked { OnOk result (steps.new ≡ steps.old + length program.now.program.states) }
    ensures most { steps.new ≤ steps.old + length program.now.program.states }
{
    for state in 0..program.states() {
        let instr = program.fetch(state, steps);
        put_state(out, program.origin(state), instr)?;
    }
    Ok(())
}

// The origin, and what the state does.
fn put_state(out: &mut Vec<u8>, origin: u32, instr: &Instr) -> Result<(), NoMemory>
    requires origin { origin < 2 ^ 16 }
    requires instr { InstrFits instr.now }
    ensures { OnOk result (out.new.items ≡ out.old.items ++ (to_be_bytes w16 origin ++ spelled_instr instr.now)) }
{
    put_place(out, origin)?;
    put_instr(out, instr)
}

fn put_instr(out: &mut Vec<u8>, instr: &Instr) -> Result<(), NoMemory>
    requires { InstrFits instr.now }
    ensures { OnOk result (out.new.items ≡ out.old.items ++ spelled_instr instr.now) }
{
    match instr {
        Instr::Branch {
            fold,
            stay,
            edges,
            rest,
        } => put_branch(out, *fold, stay, edges.items(), rest),
        Instr::Invoke {
            code,
            answers,
            other,
        } => {
            put_code(out, code)?;
            put_answers(out, answers.items(), *other)
        }
        Instr::Consume { prop, next } => put_next(out, CONSUME, *prop, *next),
        Instr::SpanOpen { span, next } => put_next(out, SPAN_OPEN, *span, *next),
        Instr::SpanClose { span, next } => put_next(out, SPAN_CLOSE, *span, *next),
        Instr::Pause { code, reason, next } => {
            put_reason(out, PAUSE, *code, reason.bytes())?;
            put_place(out, *next)
        }
        Instr::Fail { code, reason } => put_reason(out, FAIL, *code, reason.bytes()),
    }
}

fn put_branch(
    out: &mut Vec<u8>,
    fold: Fold,
    stay: &Ranges,
    edges: &[Edge],
    rest: &Rest,
) -> Result<(), NoMemory>
    requires edges { EdgesFit edges.now }
    requires rest { RestFits rest.now }
    ensures { OnOk result (out.new.items ≡ out.old.items ++ spelled_instr (instrs.Branch fold stay.now edges.now rest.now)) }
{
    out.push(BRANCH)?;
    out.push(fold_byte(fold))?;
    put_stay(out, stay)?;
    put_edges(out, edges)?;
    put_move(out, rest.skip, rest.number, rest.target)
}

// How many ranges there are, and the first and the last byte of each.
fn put_stay(out: &mut Vec<u8>, stay: &Ranges) -> Result<(), NoMemory>
    ensures { OnOk result (out.new.items ≡ out.old.items ++ length stay.now ∷ flat_map spelled_range stay.now) }
{
    out.push(stay.len() as u8)?;
    put_ranges(out, stay)
}

fn put_ranges(out: &mut Vec<u8>, stay: &Ranges) -> Result<(), NoMemory>
    ensures { OnOk result (out.new.items ≡ out.old.items ++ flat_map spelled_range stay.now) }
{
    for i in 0..stay.len() {
        let (lo, hi) = stay.get(i);
        out.extend_from_slice(&[lo, hi])?;
    }
    Ok(())
}

// How many edges there are, and the edges.
fn put_edges(out: &mut Vec<u8>, edges: &[Edge]) -> Result<(), NoMemory>
    requires { EdgesFit edges.now }
    ensures { OnOk result (out.new.items ≡ out.old.items ++ (to_be_bytes w16 (length edges.now) ++ flat_map spelled_edge edges.now)) }
{
    put_place(out, edges.len() as u32)?;
    put_each_edge(out, edges)
}

fn put_each_edge(out: &mut Vec<u8>, edges: &[Edge]) -> Result<(), NoMemory>
    requires { EdgesFit edges.now }
    ensures { OnOk result (out.new.items ≡ out.old.items ++ flat_map spelled_edge edges.now) }
{
    for edge in edges {
        put_edge(out, edge)?;
    }
    Ok(())
}

fn put_edge(out: &mut Vec<u8>, edge: &Edge) -> Result<(), NoMemory>
    requires { EdgeFits edge.now }
    ensures { OnOk result (out.new.items ≡ out.old.items ++ spelled_edge edge.now) }
{
    out.push(edge.lo)?;
    out.push(edge.hi)?;
    put_move(out, edge.take, edge.number, edge.target)
}

// A flag, the state, and the number that the move carries.
fn put_move(
    out: &mut Vec<u8>,
    takes: bool,
    number: Option<u32>,
    target: u32,
) -> Result<(), NoMemory>
    requires { target < 2 ^ 16 }
    ensures { OnOk result (out.new.items ≡ out.old.items ++ spelled_move takes number target) }
{
    match number {
        None => {
            out.push(if takes { TAKES } else { LOOKS })?;
            put_place(out, target)
        }
        Some(carried) => {
            out.push(CARRIES)?;
            put_place(out, target)?;
            out.extend_from_slice(&carried.to_be_bytes())
        }
    }
}

// The kind of the code, and its place and constants.
fn put_code(out: &mut Vec<u8>, code: &Code) -> Result<(), NoMemory>
    requires { CodeFits code.now }
    ensures { OnOk result (out.new.items ≡ out.old.items ++ spelled_code code.now) }
{
    match code {
        Code::Call { host } => out.extend_from_slice(&[CALL, *host as u8]),
        Code::Store { prop } => out.extend_from_slice(&[STORE, *prop as u8]),
        Code::Load { prop } => out.extend_from_slice(&[LOAD, *prop as u8]),
        Code::Update { prop, value } => put_value(out, UPDATE, *prop, *value),
        Code::Equal { prop, value } => put_value(out, EQUAL, *prop, *value),
        Code::And { prop, value } => put_value(out, AND, *prop, *value),
        Code::Or { prop, value } => put_value(out, OR, *prop, *value),
        Code::Test { prop, value } => put_value(out, TEST, *prop, *value),
        Code::MulAdd { prop, base, max } => put_mul_add(out, *prop, *base, *max),
    }
}

fn put_mul_add(out: &mut Vec<u8>, prop: u32, base: u32, most: u64) -> Result<(), NoMemory>
    requires { prop < 2 ^ 8 }
    ensures { OnOk result (out.new.items ≡ out.old.items ++ spelled_code (codes.MulAdd prop base most)) }
{
    out.extend_from_slice(&[MUL_ADD, prop as u8])?;
    out.extend_from_slice(&base.to_be_bytes())?;
    Ok(out.extend_from_slice(&most.to_be_bytes())?)
}

// A kind, a property and a constant.
fn put_value(out: &mut Vec<u8>, kind: u8, prop: u32, value: u64) -> Result<(), NoMemory>
    requires { prop < 2 ^ 8 }
    ensures { OnOk result (out.new.items ≡ out.old.items ++ kind ∷ prop ∷ to_be_bytes w64 value) }
{
    out.extend_from_slice(&[kind, prop as u8])?;
    out.extend_from_slice(&value.to_be_bytes())
}

// How many answers there are, the answers, and where every other answer leads.
fn put_answers(out: &mut Vec<u8>, answers: &[Answer], other: u32) -> Result<(), NoMemory>
    requires answers { AnswersFit answers.now }
    requires other { other < 2 ^ 16 }
    ensures { OnOk result (out.new.items ≡ out.old.items ++ spelled_answers answers.now other) }
{
    put_place(out, answers.len() as u32)?;
    put_each_answer(out, answers)?;
    put_place(out, other)
}

fn put_each_answer(out: &mut Vec<u8>, answers: &[Answer]) -> Result<(), NoMemory>
    requires { AnswersFit answers.now }
    ensures { OnOk result (out.new.items ≡ out.old.items ++ flat_map spelled_answer answers.now) }
{
    for answer in answers {
        put_answer(out, answer)?;
    }
    Ok(())
}

fn put_answer(out: &mut Vec<u8>, answer: &Answer) -> Result<(), NoMemory>
    requires { answer.now.target < 2 ^ 16 }
    ensures { OnOk result (out.new.items ≡ out.old.items ++ spelled_answer answer.now) }
{
    out.extend_from_slice(&answer.number.to_be_bytes())?;
    put_place(out, answer.target)
}

// A kind, the place of a declaration, and the next state.
fn put_next(out: &mut Vec<u8>, kind: u8, place: u32, next: u32) -> Result<(), NoMemory>
    requires place { place < 2 ^ 8 }
    requires next { next < 2 ^ 16 }
    ensures { OnOk result (out.new.items ≡ out.old.items ++ kind ∷ place ∷ to_be_bytes w16 next) }
{
    out.extend_from_slice(&[kind, place as u8])?;
    put_place(out, next)
}

// A kind, a number and a reason.
fn put_reason(out: &mut Vec<u8>, kind: u8, number: u32, reason: &[u8]) -> Result<(), NoMemory>
    requires { length reason.now ≤ 255 }
    ensures { OnOk result (out.new.items ≡ out.old.items ++ kind ∷ (to_be_bytes w32 number ++ text reason.now)) }
{
    out.push(kind)?;
    out.extend_from_slice(&number.to_be_bytes())?;
    put_text(out, reason)
}

// The length of a text, and its bytes.
fn put_text(out: &mut Vec<u8>, bytes: &[u8]) -> Result<(), NoMemory>
    requires { length bytes.now ≤ 255 }
    ensures { OnOk result (out.new.items ≡ out.old.items ++ text bytes.now) }
{
    out.push(bytes.len() as u8)?;
    out.extend_from_slice(bytes)
}

// A place or a count, as two bytes.
fn put_place(out: &mut Vec<u8>, place: u32) -> Result<(), NoMemory>
    requires { place < 2 ^ 16 }
    ensures { OnOk result (out.new.items ≡ out.old.items ++ to_be_bytes w16 place) }
{
    out.extend_from_slice(&(place as u16).to_be_bytes())
}

fn width_byte(width: Width) -> u8
    ensures { result ≡ byte_of_width width }
{
    match width {
        Width::W8 => 8,
        Width::W16 => 16,
        Width::W32 => 32,
        Width::W64 => 64,
    }
}

fn signature_byte(value: bool) -> u8
    ensures { result ≡ byte_of_signature value }
{
    if value { VALUE } else { MATCH }
}

fn fold_byte(fold: Fold) -> u8
    ensures { result ≡ byte_of_fold fold }
{
    match fold {
        Fold::Same => SAME,
        Fold::Lower => LOWER,
    }
}
