// Runs of graphs on whole strings.
ghost use Rattle.std.specs.Prelude.{◌<◌};

use pp_event::{Script, ScriptEntry, ScriptTo};
use pp_graph::{Graph, Width};
use pp_mean::{
    End, Item, MeanFault, WholeRun, at_most_one_run, is_plain, longer_strings, more_moves, one_run,
    run_or_loop, run_whole,
};
use pp_text::read_graph;
use std::alloc::Global;
use std::test::Fail;

// Calls `hit` after each `a`.
const HITS: &str =
    "host hit match;entry s;node s match;on \"a\" -> c;skip -> s;node c call hit;else -> s";

// An `a` leads to node 1, an error, and any other byte to node 2.
const ELSE: &str =
    "entry s;node s match;on \"a\" -> one;else -> two;node one error 1 \"x\";node two error 2 \"x\"";

// The same, and the other byte is taken.
const SKIP: &str =
    "entry s;node s match;on \"a\" -> one;skip -> two;node one error 1 \"x\";node two error 2 \"x\"";

// Takes bytes one after the other.
const SKIPS_ONLY: &str = "entry s;node s match;skip -> s";

// Takes no byte.
const ELSE_ONLY: &str = "entry s;node s match;else -> bad;node bad error 4294967295 \"x\"";

// Takes bytes `b`, then two nodes lead to each other without a byte.
const LOOPS: &str =
    "entry s;node s match;on \"b\" -> s;else -> one;node one match;else -> two;node two match;else -> one";

// Two nodes that lead to each other without a byte from the start.
const LOOPS_AT_ONCE: &str = "entry one;node two match;else -> one;node one match;else -> two";

// A name, a graph, the bytes, the places of its calls, and how and where the run ends. Of the rules for a match node at a
// place the first is that it waits, the second that the longest key is taken, and the fourth is the otherwise; the third
// is about peeks, which no plain graph has.
const RUNS: [(&str, &str, &[u8], &[u64], End, u64); 15] = [
    (
        "waits: keys and an else, no byte",
        ELSE,
        b"",
        &[],
        End::Waits { node: 0 },
        0,
    ),
    (
        "waits: keys and a skip, no byte",
        SKIP,
        b"",
        &[],
        End::Waits { node: 0 },
        0,
    ),
    (
        "waits: a skip alone, no byte",
        SKIPS_ONLY,
        b"",
        &[],
        End::Waits { node: 0 },
        0,
    ),
    (
        "waits: a skip alone, at the end",
        SKIPS_ONLY,
        b"xy",
        &[],
        End::Waits { node: 0 },
        2,
    ),
    (
        "waits: after a key",
        HITS,
        b"ba",
        &[2],
        End::Waits { node: 0 },
        2,
    ),
    (
        "key: is taken",
        ELSE,
        b"a",
        &[],
        End::Failed { node: 1, code: 1 },
        1,
    ),
    (
        "key: is taken before a skip",
        SKIP,
        b"ab",
        &[],
        End::Failed { node: 1, code: 1 },
        1,
    ),
    (
        "key: a call after each",
        HITS,
        b"aba",
        &[1, 3],
        End::Waits { node: 0 },
        3,
    ),
    (
        "otherwise: an else takes nothing",
        ELSE,
        b"b",
        &[],
        End::Failed { node: 2, code: 2 },
        0,
    ),
    (
        "otherwise: a skip takes a byte",
        SKIP,
        b"b",
        &[],
        End::Failed { node: 2, code: 2 },
        1,
    ),
    (
        "otherwise: a capital is another byte",
        ELSE,
        b"A",
        &[],
        End::Failed { node: 2, code: 2 },
        0,
    ),
    (
        "otherwise: an else alone needs no byte",
        ELSE_ONLY,
        b"",
        &[],
        End::Failed {
            node: 1,
            code: 4294967295,
        },
        0,
    ),
    (
        "otherwise: an else alone leaves the byte",
        ELSE_ONLY,
        b"a",
        &[],
        End::Failed {
            node: 1,
            code: 4294967295,
        },
        0,
    ),
    (
        "a call between bytes",
        HITS,
        b"bab",
        &[2],
        End::Waits { node: 0 },
        3,
    ),
    (
        "no loop while bytes come",
        LOOPS,
        b"bb",
        &[],
        End::Waits { node: 0 },
        2,
    ),
];

// The run of the graph whose text has these statements in its only line.
fn run_of(
    alloc: Global,
    statements: &str,
    bytes: &[u8],
) -> Result<Result<WholeRun, MeanFault>, Fail> {
    let graph = graph_of(alloc, statements)?;
    if !is_plain(&graph) {
        return Err(Fail::from("not plain"));
    }
    answered(alloc, &graph, &[], 0, bytes)
}

// The graph whose text has these statements in its only line.
pub(crate) fn graph_of(alloc: Global, statements: &str) -> Result<Graph, Fail> {
    let text = format!(in alloc; "graph 1;{statements};end")?;
    let (graph, _) = read_graph(alloc, text.as_bytes())?;
    Ok(graph)
}

// A run without sets, which passes so many pauses, each entry being an answer of a host code.
fn answered(
    alloc: Global,
    graph: &Graph,
    entries: &[ScriptEntry],
    resumes: u64,
    bytes: &[u8],
) -> Result<Result<WholeRun, MeanFault>, Fail> {
    let script = Script::new(alloc, entries)?;
    Ok(run_whole(alloc, graph, &[], &script, resumes, bytes))
}

#[test]
fn a_run_takes_each_step_by_its_rule(rt: HostRuntime) -> Result<(), Fail> {
    for (name, statements, bytes, calls, end, at) in RUNS {
        let run = run_of(rt.alloc(), statements, bytes)??;
        assert_eq!(rt; run.end, end, "{name}");
        assert_eq!(rt; run.at, at, "{name}");
        assert_eq!(rt; run.items.items().len(), calls.len(), "{name}");
        for (item, place) in run.items.items().iter().zip(calls) {
            let Item::Call {
                code,
                value,
                at,
                props,
                answer,
            } = item
            else {
                return Err(Fail::from("no call"));
            };
            assert_eq!(rt; (*code, *value, *at, *answer), (0, 0, *place, 0), "{name}");
            assert!(rt; props.is_empty() && props.len() == 0, "{name}");
        }
    }
    Ok(())
}

// A graph and bytes on which its run goes on for ever, with the node that it comes to twice and the byte there.
const ENDLESS: [(&str, &[u8], u32, Option<u8>); 3] = [
    (LOOPS, b"bbx", 1, Some(b'x')),
    (LOOPS_AT_ONCE, b"", 1, None),
    (LOOPS_AT_ONCE, b"b", 1, Some(b'b')),
];

#[test]
fn a_loop_is_told_with_its_node_and_byte(rt: HostRuntime) -> Result<(), Fail> {
    for (statements, bytes, node, byte) in ENDLESS {
        let fault = run_of(rt.alloc(), statements, bytes)?
            .err()
            .ok_or("it ends")?;
        assert_eq!(rt; fault, MeanFault::Loop { node, byte });
    }
    Ok(())
}

// Opens a span over `a`, `b` and `c`, which a `d` closes, and pauses at a `!` inside it.
const SPANS: &str =
    "span w;entry o;node o open w;else -> r;node r match;on [abc] -> r;on \"!\" -> p;peek \"d\" -> c;else -> bad;node c close w;else -> z;node z match;skip -> z;node bad error 1 \"bad\";node p pause 21 \"held\";else -> r";

#[test]
fn a_run_ends_at_the_pause_that_it_may_not_pass(rt: HostRuntime) -> Result<(), Fail> {
    let graph = graph_of(rt.alloc(), SPANS)?;
    let run = answered(rt.alloc(), &graph, &[], 0, b"a!bcd")??;
    assert_eq!(rt; run.end, End::PausedAt { node: 5, code: 21 });
    assert_eq!(rt; run.at, 2);
    assert_eq!(rt; run.spans.items(), [(0, 0)].as_slice());
    assert_eq!(rt; run.items.items().len(), 1);
    assert!(rt; is_pause(run.items.items().first(), 21, 2));
    Ok(())
}

#[test]
fn a_run_that_passes_it_tells_the_span(rt: HostRuntime) -> Result<(), Fail> {
    let graph = graph_of(rt.alloc(), SPANS)?;
    let run = answered(rt.alloc(), &graph, &[], 1, b"a!bcd")??;
    assert_eq!(rt; run.end, End::Waits { node: 3 });
    assert_eq!(rt; run.at, 5);
    assert!(rt; run.spans.items().is_empty());
    assert_eq!(rt; run.items.items().len(), 2);
    assert!(rt; is_pause(run.items.items().first(), 21, 2));
    assert!(rt; is_span(run.items.items().last(), 0, 0, 4));
    Ok(())
}

// Whether an item is this pause.
fn is_pause(item: Option<&Item>, number: u32, place: u64) -> bool {
    match item {
        Some(Item::Pause { code, at }) => *code == number && *at == place,
        _ => false,
    }
}

// Whether an item is this span, from a place up to another.
fn is_span(item: Option<&Item>, number: u32, start: u64, end: u64) -> bool {
    match item {
        Some(Item::Span { span, from, to }) => *span == number && *from == start && *to == end,
        _ => false,
    }
}

// Calls `hit` after each `a`, and fails where that is answered 1.
const ANSWERED: &str =
    "host hit match;entry s;node s match;on \"a\" -> c;skip -> s;node c call hit;is 1 -> bad;else -> s;node bad error 9 \"x\"";

#[test]
fn the_script_answers_each_call_in_turn(rt: HostRuntime) -> Result<(), Fail> {
    let graph = graph_of(rt.alloc(), ANSWERED)?;
    let entries = [
        ScriptEntry {
            to: ScriptTo::Code(0),
            answer: 0,
        },
        ScriptEntry {
            to: ScriptTo::Code(0),
            answer: 1,
        },
    ];
    let run = answered(rt.alloc(), &graph, &entries, 0, b"aaa")??;
    assert_eq!(rt; run.end, End::Failed { node: 2, code: 9 });
    assert_eq!(rt; run.at, 2);
    assert_eq!(rt; run.items.items().len(), 2);
    Ok(())
}

// Adds each digit to a property of 8 bits, and calls where that passes 255.
const DIGITS: &str =
    "prop n u8;host over match;entry d;node d match;on \"2\" = 2 -> add;on \"5\" = 5 -> add;on \"6\" = 6 -> add;else -> bad;node add muladd n 10;is 1 -> big;else -> d;node big call over;else -> d;node bad error 1 \"bad\"";

#[test]
fn the_values_of_properties_are_those_at_the_end(rt: HostRuntime) -> Result<(), Fail> {
    let graph = graph_of(rt.alloc(), DIGITS)?;
    for (bytes, calls, value) in [(b"256", 1, 25), (b"255", 0, 255)] {
        let run = answered(rt.alloc(), &graph, &[], 0, bytes)??;
        assert_eq!(rt; run.end, End::Waits { node: 0 });
        assert_eq!(rt; run.items.items().len(), calls);
        assert_eq!(rt; run.props.len(), 1);
        assert!(rt; has_value(&run, value));
    }
    Ok(())
}

// Whether the first property has this value at the end.
fn has_value(run: &WholeRun, value: u64) -> bool {
    !run.props.is_empty() && run.props.get(0) == value
}

// Takes as many bytes as its property says.
const CONSUMES: &str = "prop n u64;entry c;node c consume n;else -> z;node z match;skip -> z";

#[test]
fn a_set_gives_a_property_its_first_value(rt: HostRuntime) -> Result<(), Fail> {
    let graph = graph_of(rt.alloc(), CONSUMES)?;
    let run = consumed(rt.alloc(), &graph, b"aaa")??;
    assert_eq!(rt; run.end, End::Waits { node: 0 });
    assert_eq!(rt; run.at, 3);
    assert!(rt; has_value(&run, 18_446_744_073_709_551_612));
    Ok(())
}

// The run of a graph whose first property has 64 bits and begins at the greatest value.
fn consumed(
    alloc: Global,
    graph: &Graph,
    bytes: &[u8],
) -> Result<Result<WholeRun, MeanFault>, Fail> {
    let script = Script::new(alloc, &[])?;
    match graph.props().get(0) {
        Some(decl) => match decl.width {
            Width::W64 => Ok(run_whole(alloc, graph, &[(0, u64::MAX)], &script, 0, bytes)),
            _ => Err(Fail::from("another width")),
        },
        None => Err(Fail::from("no property")),
    }
}

#[test]
fn faults_of_runs_have_a_text(rt: HostRuntime) -> Result<(), Fail> {
    let twice = MeanFault::Loop {
        node: 3,
        byte: None,
    };
    for (fault, want) in [
        (twice, "comes to node 3 twice at one place"),
        (MeanFault::NoMemory, "out of memory"),
    ] {
        assert_eq!(rt; format!(in rt.alloc(); "{fault}")?.as_str(), want);
    }
    Ok(())
}

#[test]
fn laws_are_called() {
    at_most_one_run();
    longer_strings();
    more_moves();
    one_run();
    run_or_loop();
}
