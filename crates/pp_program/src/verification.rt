// The rules of a program, tried in their order.
ghost use Rattle.std.specs.Prelude.{◌≡◌, ◌<◌, ◌≤◌, length, IfOk, IfErr, OnOk};
ghost use Rattle.pp_event.specs.Loops.{IsGap};
ghost use Rattle.pp_program.specs.declared.fault.VerifyRule.TheVariants as rules;
ghost use Rattle.pp_flow.specs.Standing.{node_of as node_of_fault};
ghost use Rattle.pp_flow.specs.Flow.{IsLoopFree};
ghost use Rattle.pp_program.specs.Countable.{IsCountable};
ghost use Rattle.pp_program.specs.Moves.{program_moves};
ghost use Rattle.pp_program.specs.Spans.{TellsOpen};
ghost use Rattle.pp_program.specs.Names.{TextFails};
ghost use Rattle.pp_program.specs.steps.Least.{IsFirst};
ghost use Rattle.pp_program.specs.Valid.{Holds, HoldBefore, IsFault, IsVerified, HasRanks};
ghost use Rattle.pp_program.specs.steps.Rows.{IsFlowOf, IsSound, Counts};

use crate::fault::{VerifyFault, VerifyRule};
use crate::moves::flow_of;
use crate::names::{
    first_wrong_host, first_wrong_name, first_wrong_prop, first_wrong_reason, first_wrong_span,
};
use crate::program::Program;
use crate::targets::{first_wrong_state, is_frame};
use crate::verified::Verified;
use crate::widths::first_wide_state;
use pp_flow::{Fitting, Flow, Judged, SpanFault, a_cycle_is_a_loop};
use std::alloc::{AllocError, Global};

fn try_targets(program: &Program) -> Result<(), VerifyFault>
    requires { IsCountable program.now }
    ensures ok { OnOk result (Holds program.now rules.Target) }
    ensures broken { IfErr result (IsFault program.now) }
{
    if let Some(at) = first_wrong_state(program) {
        return Err(VerifyFault::Broken {
            rule: VerifyRule::Target,
            at: at as u32,
        });
    }
    if !is_frame(program) {
        return Err(VerifyFault::Broken {
            rule: VerifyRule::Target,
            at: program.states.items().len() as u32,
        });
    }
    Ok(())
}

fn try_widths(program: &Program) -> Result<(), VerifyFault>
    requires countable { IsCountable program.now }
    requires targets { Holds program.now rules.Target }
    ensures ok { OnOk result (Holds program.now rules.Width) }
    ensures broken { IfErr result (IsFault program.now) }
{
    match first_wide_state(program) {
        Some(at) => Err(VerifyFault::Broken {
            rule: VerifyRule::Width,
            at: at as u32,
        }),
        None => Ok(()),
    }
}

// The least state on a cycle, where there is one.
fn refuse_loop(alloc: Global, program: &Program, flow: &Flow) -> Result<u32, VerifyFault>
    requires targets { Holds program.now rules.Target }
    requires widths { Holds program.now rules.Width }
    requires flow { IsFlowOf program.now flow.now }
    requires told { flow.now.told ≡ length program.now.states }
    requires acts { length flow.now.acts ≡ length program.now.states }
    requires looping { IsLoopFree flow.now.moves flow.now.entry → ⊥ }
    ensures ok { IfOk result (λ gap. ⊥) }
    ensures broken { IfErr result (IsFault program.now) }
{
    match flow.least_on_cycle(alloc)? {
        Some(at) => Err(VerifyFault::Broken {
            rule: VerifyRule::Loop,
            at,
        }),
        None => unreachable!(),
    }
}

// The gap.
fn try_loops(alloc: Global, program: &Program, flow: &Flow) -> Result<u32, VerifyFault>
    requires targets { Holds program.now rules.Target }
    requires widths { Holds program.now rules.Width }
    requires flow { IsFlowOf program.now flow.now }
    requires told { flow.now.told ≡ length program.now.states }
    requires acts { length flow.now.acts ≡ length program.now.states }
    ensures ok { IfOk result (λ gap. Holds program.now rules.Loop × IsGap (program_moves program.now) gap × HasRanks program.now gap) }
    ensures broken { IfErr result (IsFault program.now) }
{
    a_cycle_is_a_loop();
    match flow.judge(alloc)? {
        Judged::Gap(gap) => Ok(gap),
        Judged::Loop { .. } => {
            let _refused = refuse_loop(alloc, program, flow)?;
            unreachable!()
        }
    }
}

// The point of a fault of spans.
fn node_of(fault: SpanFault) -> u32
    ensures { result ≡ node_of_fault fault }
{
    match fault {
        SpanFault::Reopened { node, .. }
        | SpanFault::NotOpen { node, .. }
        | SpanFault::Mixed { node, .. } => node,
    }
}

// A mask for each state of the spans that may be open there.
fn try_spans(alloc: Global, program: &Program, flow: &Flow) -> Result<Vec<u32>, VerifyFault>
    requires targets { Holds program.now rules.Target }
    requires widths { Holds program.now rules.Width }
    requires loops { Holds program.now rules.Loop }
    requires flow { IsFlowOf program.now flow.now }
    requires told { flow.now.told ≡ length program.now.states }
    requires acts { length flow.now.acts ≡ length program.now.states }
    ensures ok { IfOk result (λ opened. Holds program.now rules.Spans × TellsOpen program.now opened.items) }
    ensures broken { IfErr result (IsFault program.now) }
{
    match flow.spans(alloc)? {
        Fitting::Fit(opened) => Ok(opened),
        Fitting::Fault(fault) => Err(VerifyFault::Broken {
            rule: VerifyRule::Spans,
            at: node_of(fault),
        }),
    }
}

// The first wrong name or reason, by its place among all of them.
fn first_wrong_text(alloc: Global, program: &Program) -> Result<Option<u32>, AllocError>
    requires { Counts program.now }
    ensures { IfOk result (IsFirst (TextFails program.now)) }
{
    let props = program.props.items();
    let hosts = program.hosts.items();
    let spans = program.spans.items();
    let names = program.names.items();
    if let Some(i) = first_wrong_prop(alloc, props)? {
        return Ok(Some(i as u32));
    }
    if let Some(i) = first_wrong_host(alloc, hosts)? {
        return Ok(Some((props.len() + i) as u32));
    }
    if let Some(i) = first_wrong_span(alloc, spans)? {
        return Ok(Some((props.len() + hosts.len() + i) as u32));
    }
    if let Some(i) = first_wrong_name(alloc, names)? {
        return Ok(Some((props.len() + hosts.len() + spans.len() + i) as u32));
    }
    if let Some(i) = first_wrong_reason(program.states.items()) {
        return Ok(Some((props.len() + hosts.len() + spans.len() + names.len() + i) as u32));
    }
    Ok(None)
}

fn try_names(alloc: Global, program: &Program) -> Result<(), VerifyFault>
    requires counts { Counts program.now }
    requires first { HoldBefore program.now rules.Names }
    ensures ok { OnOk result (Holds program.now rules.Names) }
    ensures broken { IfErr result (IsFault program.now) }
{
    match first_wrong_text(alloc, program)? {
        Some(at) => Err(VerifyFault::Broken {
            rule: VerifyRule::Names,
            at,
        }),
        None => Ok(()),
    }
}

/// A program that keeps the rules, with its gap; or the first rule that fails, and the least place at which it does. The
/// program is given up on a refusal.
///
/// Target: a state; the count of states where the entry, the finish rule or a count is wrong. Width, Loop and Spans: a
/// state. Names: a place in the list of properties, hosts, spans, names, and the reasons in the order of their states.
pub fn verify(alloc: Global, program: Program) -> Result<Verified, VerifyFault>
    requires { IsCountable program }
    ensures ok { IfOk result (λ verified. (verified.program ≡ program) × IsVerified verified) }
    ensures broken { IfErr result (IsFault program) }
{
    try_targets(&program)?;
    try_widths(&program)?;
    let flow = flow_of(alloc, &program)?;
    let gap = try_loops(alloc, &program, &flow)?;
    let opened = try_spans(alloc, &program, &flow)?;
    try_names(alloc, &program)?;
    Ok(Verified::of(program, gap, opened))
}
