// The rule on names: names and reasons have their form, and names differ from those before them.
ghost use Rattle.std.specs.Prelude.{◌≡◌, ◌||◌, ◌<◌, ◌≤◌, ℕ, List, not, false, map, bytes_eq, length, IfOk};
ghost use Rattle.pp_rules.specs.declared.declaration.PropDecl.{PropDecl};
ghost use Rattle.pp_rules.specs.declared.declaration.HostDecl.{HostDecl};
ghost use Rattle.pp_rules.specs.declared.declaration.SpanDecl.{SpanDecl};
ghost use Rattle.pp_rules.specs.Names.{is_name as is_name_of, is_reason as is_reason_of};
ghost use Rattle.std.specs.List.{list_any};
ghost use Rattle.pp_rules.specs.NameTables.{is_at};
ghost use Rattle.pp_program.specs.Names.{NameFails, ReasonFails, reason_of, reasons_of};
ghost use Rattle.pp_program.specs.steps.Least.{IsFirst};

use crate::program::{Instr, State};
use pp_rules::{HostDecl, Name, NameTable, PropDecl, SpanDecl, is_name, is_reason};
use std::alloc::{AllocError, Global};

// Whether a name lacks its form or is one of the table's. Else it is added.
fn is_wrong<'c>(table: &mut NameTable<'c, ()>, name: &'c Name) -> Result<bool, AllocError>
    ensures wrong { IfOk result (λ wrong. wrong ≡ (not (is_name_of name.now) || is_at table.old name.now)) }
    ensures added { IfOk result (λ wrong. wrong ≡ false → (other : List ℕ) → is_at table.new other ≡ (is_at table.old other || bytes_eq name.now other)) }
{
    if !is_name(name.bytes()) {
        return Ok(true);
    }
    let there = table.add_first(name, ())?;
    Ok(there)
}

pub(crate) fn first_wrong_name(alloc: Global, names: &[Name]) -> Result<Option<usize>, AllocError>
    ensures { IfOk result (IsFirst (NameFails names.now)) }
{
    let mut table = NameTable::new(alloc);
    for i in 0..names.len() {
        if is_wrong(&mut table, &names[i])? {
            return Ok(Some(i));
        }
    }
    Ok(None)
}

pub(crate) fn first_wrong_prop(
    alloc: Global,
    props: &[PropDecl],
) -> Result<Option<usize>, AllocError>
    ensures { IfOk result (IsFirst (NameFails (map (λ (d : PropDecl). d.name) props.now))) }
{
    let mut table = NameTable::new(alloc);
    for i in 0..props.len() {
        if is_wrong(&mut table, &props[i].name)? {
            return Ok(Some(i));
        }
    }
    Ok(None)
}

pub(crate) fn first_wrong_host(
    alloc: Global,
    hosts: &[HostDecl],
) -> Result<Option<usize>, AllocError>
    ensures { IfOk result (IsFirst (NameFails (map (λ (d : HostDecl). d.name) hosts.now))) }
{
    let mut table = NameTable::new(alloc);
    for i in 0..hosts.len() {
        if is_wrong(&mut table, &hosts[i].name)? {
            return Ok(Some(i));
        }
    }
    Ok(None)
}

pub(crate) fn first_wrong_span(
    alloc: Global,
    spans: &[SpanDecl],
) -> Result<Option<usize>, AllocError>
    ensures { IfOk result (IsFirst (NameFails (map (λ (d : SpanDecl). d.name) spans.now))) }
{
    let mut table = NameTable::new(alloc);
    for i in 0..spans.len() {
        if is_wrong(&mut table, &spans[i].name)? {
            return Ok(Some(i));
        }
    }
    Ok(None)
}

// The reasons of a state: one of a pause or an error, else none.
fn count_reasons(instr: &Instr) -> usize
    ensures value { result ≡ length (reason_of instr.now) }
    ensures most { result ≤ 1 }
{
    match instr {
        Instr::Pause { .. } | Instr::Fail { .. } => 1,
        _ => 0,
    }
}

// One of them lacks its form.
fn is_wrong_reason(instr: &Instr) -> bool
    ensures { result ≡ list_any (λ reason. not (is_reason_of reason)) (reason_of instr.now) }
{
    match instr {
        Instr::Pause { reason, .. } | Instr::Fail { reason, .. } => !is_reason(reason.bytes()),
        _ => false,
    }
}

pub(crate) fn first_wrong_reason(states: &[State]) -> Option<usize>
    ensures { IsFirst (ReasonFails (reasons_of states.now)) result }
{
    let mut count = 0;
    for i in 0..states.len() {
        let state = &states[i];
        if is_wrong_reason(&state.instr) {
            return Some(count);
        }
        count += count_reasons(&state.instr);
    }
    None
}
