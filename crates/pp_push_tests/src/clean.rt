// The final form of programs.
ghost use Rattle.std.specs.Prelude.{◌≡◌, ◌<◌};

use crate::graphs::graph_of;
use pp_check::check;
use pp_clean::{
    finish_program, finishing_keeps, finishing_keeps_rules, finishing_keeps_spans,
    finishing_makes_no_loop, lowered_can_be_finished, skipping_keeps,
};
use pp_graph::Graph;
use pp_http::http_graph;
use pp_lower::lower;
use pp_outside::Steps;
use pp_program::{Edge, Instr, Rest, Verified};
use std::alloc::Global;
use std::marker::Brand;
use std::process::Abort;
use std::sync::ledger::{Blank, Ledger};
use std::test::Fail;

#[test]
fn laws_are_called() {
    finishing_keeps();
    finishing_keeps_rules();
    finishing_keeps_spans();
    finishing_makes_no_loop();
    lowered_can_be_finished();
    skipping_keeps();
}

// The finished program of a graph.
pub(crate) fn finished(alloc: Global, graph: Graph) -> Result<Verified, Fail> {
    let checked = check(alloc, graph)?;
    let lowered = lower(alloc, &checked)?;
    Ok(finish_program(alloc, lowered)?)
}

// The names of a program.
fn assert_names(rt: &impl Abort, program: &Verified, names: &[&str]) -> Result<(), Fail> {
    assert_eq!(rt; program.names() as usize, names.len());
    for (i, name) in names.iter().enumerate() {
        if i as u32 >= program.names() {
            return Err(Fail::from("a name is missing"));
        }
        assert_eq!(rt; program.name(i as u32).bytes(), name.as_bytes());
    }
    Ok(())
}

// The first state is a branch with these edges and this rest.
fn assert_branch<L: Ledger>(
    rt: &impl Abort,
    program: &Verified,
    blank: Blank,
    own: &[Edge],
    other: Rest,
) -> Result<(), Fail>
    requires name { blank.name ≡ L.name }
    requires parts { blank.parts ≡ L.parts }
    requires some { 0 < blank.parts }
{
    let mut steps = Steps::<L>::new(blank);
    if program.states() == 0 {
        return Err(Fail::from("no state"));
    }
    match program.fetch(0, &mut steps) {
        Instr::Branch { edges, rest, .. } => {
            assert_eq!(rt; edges.items(), own);
            assert_eq!(rt; *rest, other);
            Ok(())
        }
        _ => Err(Fail::from("no branch")),
    }
}

#[test]
fn an_empty_entry_is_left_out(rt: HostRuntime) -> Result<(), Fail> {
    let graph = graph_of(
        rt.alloc(),
        "entry a;node a match;else -> b;node b match;skip -> b",
    )?;
    let program = finished(rt.alloc(), graph)?;
    assert_eq!(rt; (program.states(), program.entry()), (1, 0));
    assert_names(&rt, &program, &["b"])?;
    if program.states() == 1 {
        assert_eq!(rt; program.origin(0), 0);
    }
    let rest = Rest {
        skip: true,
        number: None,
        target: 0,
    };
    assert_branch::<Brand>(&rt, &program, Blank::new(1), &[], rest)
}

// A node that is empty, and one that nothing leads to. Behind the empty one two edges lead to one state, and are one.
const TWO_LEFT_OUT: &str =
    "entry s;node s match;on \"a\" -> p;on \"b\" -> x;else -> bad;node p match;else -> x;node x error 1 \"x\";node u error 3 \"u\";node bad error 2 \"bad\"";

#[test]
fn edges_are_merged_and_states_numbered_anew(rt: HostRuntime) -> Result<(), Fail> {
    let program = finished(rt.alloc(), graph_of(rt.alloc(), TWO_LEFT_OUT)?)?;
    assert_eq!(rt; (program.states(), program.entry()), (3, 0));
    assert_names(&rt, &program, &["s", "x", "bad"])?;
    let edge = Edge {
        lo: b'a',
        hi: b'b',
        take: true,
        number: None,
        target: 1,
    };
    let rest = Rest {
        skip: false,
        number: None,
        target: 2,
    };
    assert_branch::<Brand>(&rt, &program, Blank::new(1), &[edge], rest)
}

#[test]
fn the_http_graph_is_finished(rt: HostRuntime) -> Result<(), Fail> {
    let program = finished(rt.alloc(), http_graph(rt.alloc())?)?;
    assert!(rt; program.names() <= 205);
    assert!(rt; program.gap() <= 35);
    Ok(())
}
