// Reading branches.
ghost use Rattle.std.specs.Prelude.{◌≡◌, ◌≤◌, None, IfOk};
ghost use Rattle.pp_program.specs.Targets.{is_alike as alike};
ghost use Rattle.pp_file.specs.Fields.{items_at};
ghost use Rattle.pp_file.specs.Parts.{range_at, least_stay, least_edge, may_stand, plain_edge_at, numbered_edge_at, edge_at, plain_rest_at, numbered_rest_at, rest_at, fold_of, branch_at};
ghost use Rattle.pp_file.specs.steps.Readers.{Gives};

use crate::cursor::Cursor;
use crate::fault::FileFault;
use crate::kinds::{CARRIES, TAKES};
use pp_bytes::{Fold, Listed, Ranges};
use pp_program::{Edge, Instr, Rest};
use std::alloc::Global;

/// How many ranges a stay may have.
const MOST_RANGES: u32 = 8;

/// How many edges a branch may have.
const MOST_EDGES: u32 = 256;

// Where a range behind this one may begin.
fn least_behind(before: Option<(u8, u8)>) -> u32
    ensures { result ≡ least_stay before }
{
    match before {
        None => 0,
        Some((_, hi)) => hi as u32 + 2,
    }
}

// A range, behind the one before it.
#[tactic(auto, unfolding(crate::specs::Parts::range_at))]
fn read_range(cursor: &mut Cursor<'_>, before: Option<(u8, u8)>) -> Result<(u8, u8), FileFault>
    ensures read { Gives result cursor.new (range_at before cursor.old) }
    ensures above { IfOk result (λ range. least_stay before ≤ range.0) }
    ensures ordered { IfOk result (λ range. range.0 ≤ range.1) }
{
    let lo = cursor.u8_within(least_behind(before), 255)?;
    let hi = cursor.u8_within(lo as u32, 255)?;
    Ok((lo, hi))
}

// So many ranges.
fn read_stay(cursor: &mut Cursor<'_>, count: u8) -> Result<Ranges, FileFault>
    requires { count ≤ 8 }
    ensures { Gives result cursor.new (items_at range_at count None cursor.old) }
{
    let mut stay = Ranges::new();
    let mut before = None;
    for _ in 0..count {
        let (lo, hi) = read_range(cursor, before)?;
        stay.push(lo, hi);
        before = Some((lo, hi));
    }
    Ok(stay)
}

// Where an edge behind this one may begin.
fn least_above(before: Option<Edge>) -> u32
    ensures { result ≡ least_edge before }
{
    match before {
        None => 0,
        Some(edge) => edge.hi as u32 + 1,
    }
}

// Whether the edges do the same on their bytes.
fn is_alike(before: Edge, edge: Edge) -> bool
    ensures { result ≡ alike before edge }
{
    before.take == edge.take && before.number == edge.number && before.target == edge.target
}

// Whether the edge isn't the one before it, gone on with.
fn stands_behind(before: Option<Edge>, edge: Edge) -> bool
    ensures { result ≡ may_stand before edge }
{
    match before {
        None => true,
        Some(before) => {
            before.hi < edge.lo
                && !(before.hi as u32 + 1 == edge.lo as u32 && is_alike(before, edge))
        }
    }
}

// The target of an edge without a number.
#[tactic(auto, unfolding(crate::specs::Parts::plain_edge_at))]
fn read_plain_edge(
    cursor: &mut Cursor<'_>,
    before: Option<Edge>,
    lo: u8,
    hi: u8,
    take: bool,
) -> Result<Edge, FileFault>
    ensures { Gives result cursor.new (plain_edge_at before lo hi take cursor.old) }
{
    let offset = cursor.place();
    let target = cursor.read_u16()?;
    let edge = Edge {
        lo,
        hi,
        take,
        number: None,
        target: target as u32,
    };
    if !stands_behind(before, edge) {
        return Err(FileFault::Form { offset });
    }
    Ok(edge)
}

// The target and the number of an edge with one.
#[tactic(auto, unfolding(crate::specs::Parts::numbered_edge_at))]
fn read_numbered_edge(
    cursor: &mut Cursor<'_>,
    before: Option<Edge>,
    lo: u8,
    hi: u8,
) -> Result<Edge, FileFault>
    ensures { Gives result cursor.new (numbered_edge_at before lo hi cursor.old) }
{
    let target = cursor.read_u16()?;
    let offset = cursor.place();
    let number = cursor.read_u32()?;
    let edge = Edge {
        lo,
        hi,
        take: true,
        number: Some(number),
        target: target as u32,
    };
    if !stands_behind(before, edge) {
        return Err(FileFault::Form { offset });
    }
    Ok(edge)
}

// An edge, behind the one before it.
#[tactic(auto, unfolding(crate::specs::Parts::edge_at))]
fn read_edge(cursor: &mut Cursor<'_>, before: Option<Edge>) -> Result<Edge, FileFault>
    ensures { Gives result cursor.new (edge_at before cursor.old) }
{
    let lo = cursor.u8_within(least_above(before), 255)?;
    let hi = cursor.u8_within(lo as u32, 255)?;
    let flag = cursor.u8_within(0, CARRIES as u32)?;
    if flag == CARRIES {
        return read_numbered_edge(cursor, before, lo, hi);
    }
    read_plain_edge(cursor, before, lo, hi, flag == TAKES)
}

// So many edges.
fn read_edges(alloc: Global, cursor: &mut Cursor<'_>, count: u16) -> Result<Listed<Edge>, FileFault>
    ensures { Gives result cursor.new (items_at edge_at count None cursor.old) }
{
    let mut edges = Vec::new(alloc);
    let mut before = None;
    for _ in 0..count {
        let edge = read_edge(cursor, before)?;
        edges.push(edge)?;
        before = Some(edge);
    }
    Ok(Listed::of(edges))
}

// The target of a rest without a number.
#[tactic(auto, unfolding(crate::specs::Parts::plain_rest_at))]
fn read_plain_rest(cursor: &mut Cursor<'_>, skip: bool) -> Result<Rest, FileFault>
    ensures { Gives result cursor.new (plain_rest_at skip cursor.old) }
{
    let target = cursor.read_u16()?;
    Ok(Rest {
        skip,
        number: None,
        target: target as u32,
    })
}

// The target and the number of a rest with one.
#[tactic(auto, unfolding(crate::specs::Parts::numbered_rest_at))]
fn read_numbered_rest(cursor: &mut Cursor<'_>) -> Result<Rest, FileFault>
    ensures { Gives result cursor.new (numbered_rest_at cursor.old) }
{
    let target = cursor.read_u16()?;
    let number = cursor.read_u32()?;
    Ok(Rest {
        skip: false,
        number: Some(number),
        target: target as u32,
    })
}

// A rest.
#[tactic(auto, unfolding(crate::specs::Parts::rest_at))]
fn read_rest(cursor: &mut Cursor<'_>) -> Result<Rest, FileFault>
    ensures { Gives result cursor.new (rest_at cursor.old) }
{
    let flag = cursor.u8_within(0, CARRIES as u32)?;
    if flag == CARRIES {
        return read_numbered_rest(cursor);
    }
    read_plain_rest(cursor, flag == TAKES)
}

// What a fold's number stands for.
fn fold_from(number: u8) -> Fold
    ensures { result ≡ fold_of number }
{
    if number == 0 { Fold::Same } else { Fold::Lower }
}

/// A branch: its fold, its stay, its edges and its rest.
#[tactic(auto, unfolding(crate::specs::Parts::branch_at))]
pub(crate) fn read_branch(alloc: Global, cursor: &mut Cursor<'_>) -> Result<Instr, FileFault>
    ensures { Gives result cursor.new (branch_at cursor.old) }
{
    let fold = cursor.u8_within(0, 1)?;
    let ranges = cursor.u8_within(0, MOST_RANGES)?;
    let stay = read_stay(cursor, ranges)?;
    let count = cursor.u16_within(0, MOST_EDGES)?;
    let edges = read_edges(alloc, cursor, count)?;
    let rest = read_rest(cursor)?;
    Ok(Instr::Branch {
        fold: fold_from(fold),
        stay,
        edges,
        rest,
    })
}
