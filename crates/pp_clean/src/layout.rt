// Where the states of a program go.
ghost use Rattle.std.specs.Prelude.{◌≡◌, ◌<◌, ◌^◌, IfOk, All, length, map, slice_index};
ghost use Rattle.pp_clean.specs.Reach.{IsInRange};
ghost use Rattle.pp_clean.specs.Layout.{IsLayout};

use crate::landing::{landings, ranks};
use crate::search::reach;
use pp_program::Program;
use std::alloc::{AllocError, Global};

/// The states that stay, the new place that each place's moves go to, and the new place of the entry.
#[derive(Drop)]
pub(crate) struct Layout {
    pub marks: Vec<bool>,
    pub places: Vec<u32>,
    pub entry: u32,
}

// The second table, read at the places of the first.
fn through(alloc: Global, first: &[u32], next: &[u32]) -> Result<Vec<u32>, AllocError>
    requires { All (λ n. n < length next.now) first.now }
    ensures { IfOk result (λ v. v.items ≡ map (λ n. slice_index next.now n) first.now) }
{
    let mut out: Vec<u32> = Vec::new(alloc);
    for place in first {
        out.push(next[*place as usize])?;
    }
    Ok(out)
}

/// The layout of a program.
pub(crate) fn layout_of(alloc: Global, program: &Program) -> Result<Layout, AllocError>
    requires range { IsInRange program.now }
    requires few { length program.now.states < 2 ^ 32 }
    ensures { IfOk result (λ l. IsLayout program.now l.marks.items l.places.items l.entry) }
{
    let states = program.states.items();
    let landing = landings(alloc, states)?;
    let entry = landing[program.entry as usize];
    let marks = reach(alloc, states, &landing, entry)?;
    let ranked = ranks(alloc, &marks)?;
    let places = through(alloc, &landing, &ranked)?;
    Ok(Layout {
        marks,
        places,
        entry: ranked[entry as usize],
    })
}
