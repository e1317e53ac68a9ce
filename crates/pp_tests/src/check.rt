// Loops and faults of spans of graphs.
use crate::mean::graph_of;
use pp_check::{CheckFault, check, one_answer, rank_table, shape_of, some_answer};
use std::test::Fail;

#[test]
fn laws_are_called() {
    one_answer();
    rank_table();
    some_answer();
}

// Opens a span, takes bytes up to a line feed, and closes it.
const LINES: &str =
    "span w;entry o;node o open w;else -> r;node r match;peek \"\\n\" -> c;skip -> r;node c close w;else -> z;node z match;skip -> o";

#[test]
fn a_checked_graph_has_its_gap_and_its_open_spans(rt: HostRuntime) -> Result<(), Fail> {
    let alloc = rt.alloc();
    let graph = graph_of(alloc, LINES)?;
    let shape = shape_of(alloc, &graph)?;
    assert_eq!(rt; shape.gap(), 3);
    assert_eq!(rt; shape.opened(), [0, 1, 1, 0].as_slice());
    let checked = check(alloc, graph)?;
    assert_eq!(rt; checked.gap(), 3);
    assert_eq!(rt; checked.graph().nodes().len(), 4);
    for (node, mask) in [(0u32, 0), (1u32, 1), (2u32, 1), (3u32, 0)] {
        assert!(rt; (node as usize) < checked.graph().nodes().len());
        assert_eq!(rt; checked.opened_at(node), mask);
    }
    Ok(())
}

#[test]
fn a_loop_has_its_cycle(rt: HostRuntime) -> Result<(), Fail> {
    let statements =
        "entry z;node z match;skip -> y;node x match;else -> y;node y match;peek [b-d] -> x;else -> z";
    let graph = graph_of(rt.alloc(), statements)?;
    match check(rt.alloc(), graph) {
        Err(CheckFault::Loop { byte, cycle }) => {
            assert_eq!(rt; byte, b'b');
            assert_eq!(rt; cycle.items(), [1, 2].as_slice());
        }
        _ => return Err(Fail::from("no loop")),
    }
    Ok(())
}

#[test]
fn faults_have_a_text(rt: HostRuntime) -> Result<(), Fail> {
    for (fault, want) in [
        (
            CheckFault::SpanReopened { node: 1, span: 2 },
            "node 1 opens span 2 again",
        ),
        (CheckFault::NoMemory, "out of memory"),
    ] {
        assert_eq!(rt; format!(in rt.alloc(); "{fault}")?.as_str(), want);
    }
    Ok(())
}
