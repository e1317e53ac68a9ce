// A program in its final form.
ghost use Rattle.std.specs.Prelude.{◌≡◌, ◌<◌, ◌≤◌, ◌^◌, IfOk, length};
ghost use Rattle.pp_graph.specs.Plan.{Plan};
ghost use Rattle.pp_lower.specs.Kept.{KeepsMeaning};
ghost use Rattle.pp_clean.specs.Finished.{IsFinishable, IsFinished, finished};
ghost use Rattle.pp_clean.specs.Keeps.{Keeps};
ghost use Rattle.pp_clean.specs.Layout.{IsLayout};

use crate::build::{keep_names, make_states, used_names};
use crate::landing::ranks;
use crate::layout::{Layout, layout_of};
use pp_bytes::Listed;
use pp_lower::{Lowered, copy_of_hosts, copy_of_props, copy_of_spans};
use pp_outside::NoMemory;
use pp_program::{Program, State, Verified, VerifyFault, verify};
use pp_rules::Name;
use std::alloc::{AllocError, Global};

// The states and the names of a final form.
#[derive(Drop)]
struct Parts {
    states: Vec<State>,
    names: Vec<Name>,
}

// Those of the final form of a program, by its layout.
fn parts_of(alloc: Global, program: &Program, layout: &Layout) -> Result<Parts, AllocError>
    requires finishable { IsFinishable program.now }
    requires names { length program.now.names < 2 ^ 32 }
    requires layout { IsLayout program.now layout.now.marks.items layout.now.places.items layout.now.entry }
    ensures states { IfOk result (λ parts. parts.states.items ≡ (finished program.now).states) }
    ensures names { IfOk result (λ parts. parts.names.items ≡ (finished program.now).names) }
{
    let old = program.states.items();
    let old_names = program.names.items();
    let used = used_names(alloc, old, &layout.marks, old_names.len())?;
    let origins = ranks(alloc, &used)?;
    let states = make_states(alloc, old, &layout.marks, &layout.places, &origins)?;
    let names = keep_names(alloc, old_names, &used)?;
    Ok(Parts { states, names })
}

// The program in its final form.
fn final_form(alloc: Global, program: &Program) -> Result<Program, AllocError>
    requires finishable { IsFinishable program.now }
    requires states { length program.now.states < 2 ^ 32 }
    requires names { length program.now.names < 2 ^ 32 }
    ensures { IfOk result (λ p. p ≡ finished program.now) }
{
    let layout = layout_of(alloc, program)?;
    let parts = parts_of(alloc, program, &layout)?;
    let props = copy_of_props(alloc, program.props.items())?;
    let hosts = copy_of_hosts(alloc, program.hosts.items())?;
    let spans = copy_of_spans(alloc, program.spans.items())?;
    Ok(Program {
        props,
        hosts,
        spans,
        names: Listed::of(parts.names),
        states: Listed::of(parts.states),
        entry: layout.entry,
        finish: program.finish,
    })
}

/// A program in its final form.
pub(crate) fn finish_program_of(alloc: Global, program: &Program) -> Result<Program, AllocError>
    requires finishable { IsFinishable program.now }
    requires states { length program.now.states < 2 ^ 32 }
    requires names { length program.now.names < 2 ^ 32 }
    ensures is { IfOk result (λ p. p ≡ finished program.now) }
    ensures keeps { IfOk result (λ p. Keeps program.now p) }
    ensures form { IfOk result IsFinished }
{
    final_form(alloc, program)
}

/// The final form of a lowered program, verified. It means what the graph means that the program comes from: its entry leads
/// to each of its states, none of them is empty but where there are only empty ones behind it, its edges are merged, and its
/// names are those of its states. An error only says that memory ran out.
pub fn finish_program(alloc: Global, lowered: Lowered) -> Result<Verified, NoMemory>
    ensures program { IfOk result (λ v. v.program ≡ finished lowered) }
    ensures keeps { IfOk result (λ v. (g : Plan) → KeepsMeaning g lowered → KeepsMeaning g v.program) }
    ensures kept { IfOk result (λ v. Keeps lowered v.program) }
    ensures form { IfOk result (λ v. IsFinished v.program) }
    ensures few { IfOk result (λ v. length v.program.states ≤ 24096) }
{
    let program = finish_program_of(alloc, lowered.program())?;
    match verify(alloc, program) {
        Ok(verified) => Ok(verified),
        Err(VerifyFault::NoMemory) => Err(AllocError),
        Err(VerifyFault::Broken { .. }) => unreachable!(),
    }
}
