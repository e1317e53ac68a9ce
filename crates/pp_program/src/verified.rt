// Programs that keep the rules.
ghost use Rattle.std.specs.Prelude.{◌≡◌, ◌+◌, ◌<◌, Some, length, slice_get};
ghost use Rattle.pp_program.specs.Runnable.{IsRunnable};
ghost use Rattle.pp_program.specs.Valid.{IsVerified, IsInstrAt, IsOriginAt};
ghost use Rattle.pp_program.specs.declared.program.State.{State};

use crate::program::{Instr, Program};
use pp_bytes::Listed;
use pp_outside::Steps;
use pp_rules::{HostDecl, Name, PropDecl, SpanDecl};
use std::marker::Model;
use std::sync::ledger::Ledger;

/// A program that keeps all rules. Contracts see it as the program, its gap, and a mask for each state of the spans that
/// may be open there. No method takes memory.
#[derive(Debug, Drop)]
pub struct Verified {
    program: Program,
    gap: u32,
    opened: Listed<u32>,
}

impl Model for Verified {
    ghost use Rattle.pp_program.specs.Valid.{Sound, IsVerified};

    ghost Value = { Sound };

    ghost view = { λ v. record { program = v.program; gap = v.gap; opened = v.opened } };

    ghost invariant = { λ v. IsVerified (record { program = v.program; gap = v.gap; opened = v.opened }) };
}

impl Verified {
    /// A program with its gap and masks.
    pub(crate) fn of(program: Program, gap: u32, opened: Vec<u32>) -> Verified
        requires { IsVerified (record { program = program; gap = gap; opened = opened.items }) }
        ensures { result ≡ record { program = program; gap = gap; opened = opened.items } }
    {
        Verified {
            program,
            gap,
            opened: Listed::of(opened),
        }
    }

    /// The greatest number of moves in a row that take no byte. The clause `runnable` is what a run of the program rests on.
    pub fn gap(&self) -> u32
        ensures value { result ≡ self.now.gap }
        ensures verified { IsVerified self.now }
        ensures runnable { IsRunnable self.now }
    {
        self.gap
    }

    /// The state where a run begins.
    pub fn entry(&self) -> u32
        ensures { result ≡ self.now.program.entry }
    {
        self.program.entry
    }

    /// What a state does. One step.
    pub fn fetch<L: Ledger>(&self, state: u32, steps: &mut Steps<L>) -> &Instr
        requires { state < length self.now.program.states }
        ensures read { IsInstrAt self.now.program.states state result.now }
        ensures ticked { steps.new ≡ steps.old + 1 }
    {
        steps.tick();
        &self.program.states.items()[state as usize].instr
    }

    /// How many states there are.
    pub fn states(&self) -> u32
        ensures { result ≡ length self.now.program.states }
    {
        self.program.states.items().len() as u32
    }

    /// How many names of nodes there are.
    pub fn names(&self) -> u32
        ensures { result ≡ length self.now.program.names }
    {
        self.program.names.items().len() as u32
    }

    /// How many properties there are.
    pub fn props(&self) -> u32
        ensures { result ≡ length self.now.program.props }
    {
        self.program.props.items().len() as u32
    }

    /// How many host codes there are.
    pub fn hosts(&self) -> u32
        ensures { result ≡ length self.now.program.hosts }
    {
        self.program.hosts.items().len() as u32
    }

    /// How many spans there are.
    pub fn spans(&self) -> u32
        ensures { result ≡ length self.now.program.spans }
    {
        self.program.spans.items().len() as u32
    }

    /// The node that a state comes from, by its place among the names.
    pub fn origin(&self, state: u32) -> u32
        requires { state < length self.now.program.states }
        ensures { IsOriginAt self.now.program.states state result }
    {
        self.program.states.items()[state as usize].origin
    }

    /// The name of a node.
    pub fn name(&self, origin: u32) -> &Name
        requires { origin < length self.now.program.names }
        ensures { slice_get self.now.program.names origin ≡ Some result.now }
    {
        &self.program.names.items()[origin as usize]
    }

    /// A property.
    pub fn prop(&self, i: u32) -> &PropDecl
        requires { i < length self.now.program.props }
        ensures { slice_get self.now.program.props i ≡ Some result.now }
    {
        &self.program.props.items()[i as usize]
    }

    /// A host code.
    pub fn host(&self, i: u32) -> &HostDecl
        requires { i < length self.now.program.hosts }
        ensures { slice_get self.now.program.hosts i ≡ Some result.now }
    {
        &self.program.hosts.items()[i as usize]
    }

    /// A span.
    pub fn span(&self, i: u32) -> &SpanDecl
        requires { i < length self.now.program.spans }
        ensures { slice_get self.now.program.spans i ≡ Some result.now }
    {
        &self.program.spans.items()[i as usize]
    }

    /// The property and the host code of the finish rule, if there is one, by their places.
    pub fn finish_rule(&self) -> Option<(u32, u32)>
        ensures { result ≡ self.now.program.finish }
    {
        self.program.finish
    }
}
