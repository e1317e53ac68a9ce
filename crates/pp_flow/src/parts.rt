// Numbers for points that are the same along each cycle. They are a guess, tested before it is used, so that
// the search for the least point on a cycle passes points that only lead to one, or are only led to from one.
ghost use Rattle.std.specs.Prelude.{◌≡◌, length, slice_index, IfOk, IsTrue};
ghost use Rattle.pp_flow.specs.steps.Parts.{HoldsAll, Marks};
ghost use Rattle.pp_flow.specs.steps.Table.{IsTable};

use crate::moves::Move;
use crate::rank::is_free;
use crate::tables::{flags, no_ranks};
use std::alloc::{AllocError, Global};

// What is known of a point: the move that comes next, its place among the points whose part is open, the
// least such place that it leads to, and its part once that is closed.
#[derive(Clone, Copy)]
struct Visit {
    next: usize,
    place: usize,
    low: usize,
    met: bool,
    part: u32,
}

// A search in depth that numbers parts: the path to where it stands, the points whose part is open, in the
// order in which they were met, and the number of the part that is closed next, from 1.
#[derive(Drop)]
struct Numbering {
    visits: Vec<Visit>,
    path: Vec<u32>,
    open: Vec<u32>,
    number: u32,
}

impl Numbering {
    fn new(alloc: Global, count: u32) -> Result<Numbering, AllocError> {
        let new = Visit {
            next: 0,
            place: 0,
            low: 0,
            met: false,
            part: 0,
        };
        Ok(Numbering {
            visits: vec![in alloc; new; count as usize]?,
            path: Vec::new(alloc),
            open: Vec::new(alloc),
            number: 1,
        })
    }

    fn visit(&self, point: u32) -> Option<Visit> {
        self.visits.get(point as usize).copied()
    }

    fn set(&mut self, point: u32, visit: Visit) {
        if let Some(slot) = self.visits.get_mut(point as usize) {
            *slot = visit;
        }
    }

    // Comes to a point that was not met yet.
    fn meet(&mut self, starts: &[usize], point: u32) -> Result<(), AllocError> {
        let place = self.open.len();
        let next = starts.get(point as usize).copied().unwrap_or(0);
        let visit = Visit {
            next,
            place,
            low: place,
            met: true,
            part: 0,
        };
        self.set(point, visit);
        self.path.push(point)?;
        self.open.push(point)?;
        Ok(())
    }

    // Leaves a point all of whose moves are seen, and closes the part that it was met first of.
    fn leave(&mut self, point: u32, visit: Visit) {
        let _ = self.path.pop();
        if visit.low == visit.place {
            self.close(visit.place);
            self.number = self.number.saturating_add(1);
        }
    }

    // Closes the part of the open points from a place on.
    fn close(&mut self, place: usize) {
        for _ in 0..self.open.len().saturating_sub(place) {
            if let Some(point) = self.open.pop() {
                self.close_point(point);
            }
        }
    }

    fn close_point(&mut self, point: u32) {
        let part = self.number;
        if let Some(visit) = self.visit(point) {
            self.set(point, Visit { part, ..visit });
        }
    }

    // Looks at the next move of the last point of the path. A move to a new point is looked at again later.
    fn step(
        &mut self,
        moves: &[Move],
        starts: &[usize],
        b: u8,
        point: u32,
        visit: Visit,
    ) -> Result<(), AllocError> {
        let Some(m) = moves.get(visit.next).copied() else {
            self.leave(point, visit);
            return Ok(());
        };
        if m.from != point {
            self.leave(point, visit);
            return Ok(());
        }
        let next = visit.next.saturating_add(1);
        if !is_free(&m, b) {
            self.set(point, Visit { next, ..visit });
            return Ok(());
        }
        match self.visit(m.to) {
            Some(to) if !to.met => self.meet(starts, m.to)?,
            Some(to) if to.part == 0 => {
                let low = visit.low.min(to.low);
                self.set(point, Visit { next, low, ..visit });
            }
            _ => self.set(point, Visit { next, ..visit }),
        }
        Ok(())
    }

    // Numbers the parts of all points that a root leads to, if so many steps are enough.
    fn run(
        &mut self,
        moves: &[Move],
        starts: &[usize],
        b: u8,
        steps: usize,
    ) -> Result<(), AllocError> {
        for _ in 0..steps {
            let Some(point) = self.path.last().copied() else {
                return Ok(());
            };
            let Some(visit) = self.visit(point) else {
                return Ok(());
            };
            self.step(moves, starts, b, point, visit)?;
        }
        Ok(())
    }
}

// A guess of a number for each point: the same for two points that lead to each other, and never less than that
// of a point that it leads to.
fn guess(
    alloc: Global,
    moves: &[Move],
    starts: &[usize],
    count: u32,
    b: u8,
) -> Result<Numbering, AllocError> {
    let mut numbering = Numbering::new(alloc, count)?;
    let steps = moves.len().saturating_add(count as usize).saturating_mul(2);
    for root in 0..count {
        if let Some(Visit { met: false, .. }) = numbering.visit(root) {
            numbering.meet(starts, root)?;
            numbering.run(moves, starts, b, steps)?;
        }
    }
    Ok(numbering)
}

// The numbers alone.
fn numbers(alloc: Global, numbering: &Numbering) -> Result<Vec<u32>, AllocError> {
    let mut numbers = Vec::new(alloc);
    for visit in numbering.visits.iter() {
        numbers.push(visit.part)?;
    }
    Ok(numbers)
}

fn number_of(numbers: &[u32], point: u32) -> u32
    ensures { result ≡ slice_index numbers.now point }
{
    numbers.get(point as usize).copied().unwrap_or(0)
}

// Marks the points from which a free move leads to their own number, and tells whether no free move leads to a greater one.
fn mark(moves: &[Move], starts: &[usize], numbers: &[u32], b: u8, inside: &mut [bool]) -> bool
    requires { IsTable moves.now starts.now (length inside.old) }
    ensures long { length inside.new ≡ length inside.old }
    ensures marks { IsTrue result → Marks moves.now b numbers.now (length moves.now) inside.new }
{
    for k in 0..moves.len() {
        let m = moves[k];
        if !is_free(&m, b) {
            continue;
        }
        let number = number_of(numbers, m.from);
        let other = number_of(numbers, m.to);
        if number < other {
            return false;
        }
        if number == other {
            inside[m.from as usize] = true;
        }
    }
    true
}

/// The points that may be on a cycle at one byte: all that are, and, where the guess is right, no others.
pub fn candidates(
    alloc: Global,
    moves: &[Move],
    starts: &[usize],
    count: u32,
    b: u8,
) -> Result<Vec<bool>, AllocError>
    requires { IsTable moves.now starts.now count }
    ensures { IfOk result (λ inside. HoldsAll moves.now b count inside.items) }
{
    let numbers = numbers(alloc, &guess(alloc, moves, starts, count, b)?)?;
    let mut inside = flags(alloc, count as usize)?;
    if mark(moves, starts, &numbers, b, &mut inside) {
        return Ok(inside);
    }
    Ok(vec![in alloc; true; count as usize]?)
}
