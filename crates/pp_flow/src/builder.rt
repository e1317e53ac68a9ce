// A flow, told point by point, and what is judged of it.
ghost use Rattle.std.specs.Prelude.{◌≡◌, ◌^◌, ◌<◌, [], length, IfOk, OnOk, OnErr};
ghost use Rattle.pp_flow.specs.Chart.{with_move, with_point, IsWhole};
ghost use Rattle.pp_flow.specs.Faults.{IsFitting};
ghost use Rattle.pp_flow.specs.Loops.{IsJudged, IsLeastOnCycles};
ghost use Rattle.pp_flow.specs.Spans.{HaveSpans};

use crate::faults::{Fitting, check_spans};
use crate::loops::{Judged, judge, least_on_cycle};
use crate::moves::{Act, Move};
use std::alloc::{AllocError, Global};
use std::marker::Model;

/// Points, and the moves between them. Contracts see it as a `Chart`.
///
/// Its moves are told point by point, in order: those of point 0, `end_point`, those of point 1, and so on.
/// It takes linear memory in its points and moves, and so does each question.
#[derive(Drop)]
pub struct Flow {
    acts: Vec<Act>,
    entry: u32,
    moves: Vec<Move>,
    starts: Vec<usize>,
}

impl Model for Flow {
    ghost use Rattle.std.specs.Prelude.{◌-◌, length};
    ghost use Rattle.pp_flow.specs.Chart.{Chart};
    ghost use Rattle.pp_flow.specs.steps.Table.{IsBuilt};

    ghost Value = { Chart };

    ghost view = { λ f. record { acts = f.acts.items; entry = f.entry; moves = f.moves.items; told = length f.starts.items - 1 } };

    ghost invariant = { λ f. IsBuilt f.acts.items f.entry f.moves.items f.starts.items };
}

impl Flow {
    /// A flow without moves: what each point does to spans, and the point where ways begin.
    pub fn new(alloc: Global, acts: Vec<Act>, entry: u32) -> Result<Flow, AllocError>
        requires few { length acts.items < 2 ^ 32 }
        requires entry { entry < length acts.items }
        requires spans { HaveSpans acts.items }
        ensures { IfOk result (λ flow. flow ≡ record { acts = acts.items; entry = entry; moves = []; told = 0 }) }
    {
        let mut starts = Vec::new(alloc);
        starts.push(0)?;
        Ok(Flow {
            acts,
            entry,
            moves: Vec::new(alloc),
            starts,
        })
    }

    /// Adds a move of the first point whose moves are not all told. A refused call changes nothing.
    pub fn push(&mut self, m: Move) -> Result<(), AllocError>
        requires from { m.from ≡ self.old.told }
        requires open { self.old.told < length self.old.acts }
        requires to { m.to < length self.old.acts }
        ensures added { OnOk result (self.new ≡ with_move self.old m) }
        ensures unchanged { OnErr result (self.new ≡ self.old) }
    {
        self.moves.push(m)?;
        Ok(())
    }

    /// Says that the moves of this point are all told. A refused call changes nothing.
    pub fn end_point(&mut self) -> Result<(), AllocError>
        requires { self.old.told < length self.old.acts }
        ensures added { OnOk result (self.new ≡ with_point self.old) }
        ensures unchanged { OnErr result (self.new ≡ self.old) }
    {
        self.starts.push(self.moves.len())?;
        Ok(())
    }

    /// The loop of the least byte that has one, from the least point on any loop at that byte; or the
    /// gap where there is none, which then has a ranking at each byte.
    pub fn judge(&self, alloc: Global) -> Result<Judged, AllocError>
        requires { IsWhole self.now }
        ensures { IfOk result (IsJudged self.now.moves self.now.entry (length self.now.acts)) }
    {
        judge(
            alloc,
            &self.moves,
            &self.starts,
            self.acts.len() as u32,
            self.entry,
        )
    }

    /// The least point that is on a loop at any byte, and none where there is no loop.
    pub fn least_on_cycle(&self, alloc: Global) -> Result<Option<u32>, AllocError>
        requires { IsWhole self.now }
        ensures { IfOk result (IsLeastOnCycles self.now.moves self.now.entry) }
    {
        least_on_cycle(
            alloc,
            &self.moves,
            &self.starts,
            self.acts.len() as u32,
            self.entry,
        )
    }

    /// A mask for each point, of the spans that may be open there, where spans fit; or else the first
    /// fault of the least point that has one.
    ///
    /// Spans go along all moves, also those that no byte takes.
    pub fn spans(&self, alloc: Global) -> Result<Fitting, AllocError>
        requires { IsWhole self.now }
        ensures { IfOk result (IsFitting self.now.moves self.now.acts self.now.entry (length self.now.acts)) }
    {
        check_spans(
            alloc,
            &self.moves,
            &self.starts,
            &self.acts,
            self.acts.len() as u32,
            self.entry,
        )
    }
}
