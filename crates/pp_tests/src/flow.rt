// Flows of three points: their loops, gaps and spans.
ghost use Rattle.std.specs.Prelude.{◌≡◌, ◌<◌, IfOk, IfSome};
ghost use Rattle.pp_flow.specs.Chart.{IsWhole};

use pp_flow::{
    Act, Fitting, Flow, Judged, Move, SpanFault, a_cycle_is_a_loop, gap_is_below, have_spans,
    ranking_gives_gap, ways_fall,
};
use std::alloc::{AllocError, Global};
use std::test::Fail;

// A free move at the bytes from lo to hi.
fn free(from: u32, to: u32, lo: u8, hi: u8) -> Move
    ensures { (result.from ≡ from) × (result.to ≡ to) }
{
    Move {
        from,
        to,
        lo,
        hi,
        free: true,
        onward: false,
    }
}

// Points 0 and 1 with a peek each to the other, and point 2, to which all other bytes lead.
fn two_peeks(alloc: Global, second: u8) -> Result<Option<Flow>, AllocError>
    requires low { 0 < second }
    requires high { second < 255 }
    ensures { IfOk result (λ made. IfSome made IsWhole) }
{
    let acts = Vec::from_array(alloc, [Act::Goes; 3])?;
    if acts.len() != 3 || !have_spans(&acts) {
        return Ok(None);
    }
    let mut flow = Flow::new(alloc, acts, 0)?;
    flow.push(free(0, 1, b'a', b'a'))?;
    flow.push(free(0, 2, 0, b'a' - 1))?;
    flow.push(free(0, 2, b'a' + 1, u8::MAX))?;
    flow.end_point()?;
    flow.push(free(1, 0, second, second))?;
    flow.push(free(1, 2, 0, second - 1))?;
    flow.push(free(1, 2, second + 1, u8::MAX))?;
    flow.end_point()?;
    flow.end_point()?;
    Ok(Some(flow))
}

// Three points with a move each, on the same bytes.
fn three(
    alloc: Global,
    acts: [Act; 3],
    to: [u32; 3],
    lo: u8,
    hi: u8,
) -> Result<Option<Flow>, AllocError>
    ensures { IfOk result (λ made. IfSome made IsWhole) }
{
    let acts = Vec::from_array(alloc, acts)?;
    if to[0] >= 3 || to[1] >= 3 || to[2] >= 3 {
        return Ok(None);
    }
    if acts.len() != 3 || !have_spans(&acts) {
        return Ok(None);
    }
    let mut flow = Flow::new(alloc, acts, 0)?;
    flow.push(free(0, to[0], lo, hi))?;
    flow.end_point()?;
    flow.push(free(1, to[1], lo, hi))?;
    flow.end_point()?;
    flow.push(free(2, to[2], lo, hi))?;
    flow.end_point()?;
    Ok(Some(flow))
}

#[test]
fn peeks_of_one_byte_are_a_loop(rt: HostRuntime) -> Result<(), Fail> {
    let Some(flow) = two_peeks(rt.alloc(), b'a')? else {
        return Err(Fail::from("no flow"));
    };
    match flow.judge(rt.alloc())? {
        Judged::Loop { byte, cycle } => {
            assert_eq!(rt; byte, b'a');
            assert_eq!(rt; cycle.len(), 2);
            assert_eq!(rt; cycle[0], 0);
            assert_eq!(rt; cycle[1], 1);
        }
        Judged::Gap(_) => return Err(Fail::from("a loop")),
    }
    assert_eq!(rt; flow.least_on_cycle(rt.alloc())?, Some(0));
    Ok(())
}

#[test]
fn peeks_of_two_bytes_are_none(rt: HostRuntime) -> Result<(), Fail> {
    let Some(flow) = two_peeks(rt.alloc(), b'b')? else {
        return Err(Fail::from("no flow"));
    };
    match flow.judge(rt.alloc())? {
        Judged::Loop { .. } => return Err(Fail::from("no loop")),
        Judged::Gap(gap) => assert_eq!(rt; gap, 2),
    }
    assert_eq!(rt; flow.least_on_cycle(rt.alloc())?, None);
    Ok(())
}

#[test]
fn a_point_that_only_leads_to_a_cycle_is_not_on_it(rt: HostRuntime) -> Result<(), Fail> {
    let Some(flow) = three(rt.alloc(), [Act::Goes; 3], [1, 1, 2], 7, 9)? else {
        return Err(Fail::from("no flow"));
    };
    match flow.judge(rt.alloc())? {
        Judged::Loop { byte, cycle } => {
            assert_eq!(rt; byte, 7);
            assert_eq!(rt; cycle.len(), 1);
            assert_eq!(rt; cycle[0], 1);
        }
        Judged::Gap(_) => return Err(Fail::from("a loop")),
    }
    assert_eq!(rt; flow.least_on_cycle(rt.alloc())?, Some(1));
    Ok(())
}

#[test]
fn spans_go_along_a_move_on_no_byte(rt: HostRuntime) -> Result<(), Fail> {
    let acts = [Act::Opens(3), Act::Goes, Act::Fails];
    let Some(flow) = three(rt.alloc(), acts, [1, 1, 2], 1, 0)? else {
        return Err(Fail::from("no flow"));
    };
    match flow.judge(rt.alloc())? {
        Judged::Loop { .. } => return Err(Fail::from("no loop")),
        Judged::Gap(gap) => assert_eq!(rt; gap, 0),
    }
    match flow.spans(rt.alloc())? {
        Fitting::Fit(opened) => {
            assert_eq!(rt; opened.len(), 3);
            assert_eq!(rt; opened[0], 0);
            assert_eq!(rt; opened[1], 8);
            assert_eq!(rt; opened[2], 0);
        }
        Fitting::Fault(_) => return Err(Fail::from("they fit")),
    }
    Ok(())
}

// What point 0 and point 1 do, and the first fault where each leads to the other.
const FAULTS: [(Act, Act, SpanFault); 4] = [
    (
        Act::Closes(2),
        Act::Goes,
        SpanFault::NotOpen { node: 0, span: 2 },
    ),
    (
        Act::Goes,
        Act::Opens(2),
        SpanFault::Mixed { node: 0, span: 2 },
    ),
    (
        Act::Fails,
        Act::Opens(2),
        SpanFault::Reopened { node: 1, span: 2 },
    ),
    (
        Act::Opens(1),
        Act::Goes,
        SpanFault::Reopened { node: 0, span: 1 },
    ),
];

#[test]
fn the_first_fault_is_told(rt: HostRuntime) -> Result<(), Fail> {
    for (zero, one, first) in FAULTS {
        let Some(flow) = three(rt.alloc(), [zero, one, Act::Goes], [1, 0, 2], 0, 0)? else {
            return Err(Fail::from("no flow"));
        };
        match flow.spans(rt.alloc())? {
            Fitting::Fit(_) => return Err(Fail::from("a fault")),
            Fitting::Fault(fault) => assert_eq!(rt; fault, first),
        }
    }
    Ok(())
}

#[test]
fn the_laws_are_there() {
    ranking_gives_gap();
    ways_fall();
    a_cycle_is_a_loop();
    gap_is_below();
}
