// The command `trace`.
use super::{BEGIN, GRAPH, Outside, SOUND, joined, outcome_of};
use pp_tool::Status;
use std::test::Fail;

// The records after the first, and the report. The first row is examples/first, the second examples/cut: its parts are cut
// otherwise, and its report is the same.
const REPORTS: [(&[u8], &str); 4] = [
    (
        &[2, 0, 0, 3, b'b', b'a', b'b', 5],
        "0 call hit 0 @2 = 0\n0 wait start @3\n",
    ),
    (
        &[2, 0, 0, 1, b'b', 2, 0, 0, 1, b'a', 2, 0, 0, 1, b'b', 5],
        "0 call hit 0 @2 = 0\n0 wait start @3\n",
    ),
    (
        &[2, 0, 0, 0, 2, 0, 0, 3, b'b', b'a', b'b', 2, 0, 0, 0, 5],
        "0 call hit 0 @2 = 0\n0 wait start @3\n",
    ),
    (&[5], "0 wait start @0\n"),
];

#[test]
fn a_report_is_the_same_however_the_bytes_are_cut(rt: HostRuntime) -> Result<(), Fail> {
    let alloc = rt.alloc();
    for (records, want) in REPORTS {
        for most in [1, 3, 100_000] {
            let mut bytes = joined(alloc, GRAPH, &BEGIN)?;
            bytes.extend_from_slice(records)?;
            let outside = Outside { most, ..SOUND };
            let got = outcome_of(alloc, &["trace"], bytes.as_slice(), outside)?;
            assert_eq!(rt; got.status, Status::Ok);
            assert_eq!(rt; got.output.written(), want.as_bytes());
            assert_eq!(rt; got.errors.written(), b"".as_slice());
        }
    }
    Ok(())
}

#[test]
fn an_error_node_ends_the_run(rt: HostRuntime) -> Result<(), Fail> {
    let alloc = rt.alloc();
    let text =
        "graph 1\nentry s\nnode s match\non \" \" -> s\nelse -> bad\nnode bad error 4294967295 \"no; # way\"\nend\n";
    let mut bytes = joined(alloc, text, &BEGIN)?;
    bytes.extend_from_slice(&[2, 0, 0, 3, b' ', b' ', b'x', 5])?;
    let got = outcome_of(alloc, &["trace"], bytes.as_slice(), SOUND)?;
    assert_eq!(rt; got.status, Status::Ok);
    assert_eq!(rt;
        got.output.written(),
        b"0 error 4294967295 @2 no; # way\n".as_slice()
    );
    Ok(())
}

#[test]
fn what_stands_after_the_graph_has_a_limit(rt: HostRuntime) -> Result<(), Fail> {
    let alloc = rt.alloc();
    // At the limit it is judged, and is no capture; one byte more is too long.
    for (length, status, line) in [
        (262_144usize, Status::Capture, "capture: refused\n"),
        (262_145usize, Status::TooLong, "input too long\n"),
    ] {
        let rest = vec![in alloc; b'x'; length]?;
        let bytes = joined(alloc, GRAPH, rest.as_slice())?;
        let got = outcome_of(alloc, &["trace"], bytes.as_slice(), SOUND)?;
        assert_eq!(rt; got.status, status);
        assert_eq!(rt; got.output.written(), b"".as_slice());
        assert_eq!(rt; got.errors.written(), line.as_bytes());
    }
    Ok(())
}

// Texts that are no graph, and the line that tells why. A capture follows each. More wrong lines stand in `text`, and more
// ways to break a rule in `rules`.
const REFUSED_TEXTS: [(&str, &str); 21] = [
    ("", "graph: line 1: syntax\n"),
    ("\x7f", "graph: line 1: syntax\n"),
    (
        "graph 2\nentry s\nnode s match\nelse -> s\nend\n",
        "graph: line 1: syntax\n",
    ),
    (
        "entry s\nnode s match\nskip -> s\nend\n",
        "graph: line 1: syntax\n",
    ),
    (
        "graph 1\nentry s\nnode s match\nskip -> s\n",
        "graph: line 5: syntax\n",
    ),
    (
        "graph 1\nentry s\nnode s match\nskip -> s\nend",
        "graph: line 5: syntax\n",
    ),
    (
        "graph 1\nentry s\nnode s match\non \"\\\" -> s\nskip -> s\nend\n",
        "graph: line 4: syntax\n",
    ),
    (
        "graph 1\nentry 1s\nnode 1s match\nskip -> 1s\nend\n",
        "graph: line 2: syntax\n",
    ),
    (
        "graph 1\nhost h match\nentry s\nnode s call h\nskip -> s\nend\n",
        "graph: line 5: syntax\n",
    ),
    (
        "graph 1\nentry s\nnode s error 4294967296 \"x\"\nend\n",
        "graph: line 3: syntax\n",
    ),
    (
        "graph 1\nhost h match\nhost h value\nend\n",
        "graph: line 3: duplicate name\n",
    ),
    (
        "graph 1\nentry s\nnode s match\nskip -> t\nend\n",
        "graph: line 4: unknown name\n",
    ),
    (
        "graph 1\nnode s match\nskip -> s\nend\n",
        "graph: line 4: no entry\n",
    ),
    (
        "graph 1\nentry s\nnode s match\nend\n",
        "graph: line 3: no otherwise\n",
    ),
    (
        "graph 1\nentry s\nnode s match\nskip -> s\non \"a\" -> s\non \"a\" -> s\nend\n",
        "graph: line 6: key clash\n",
    ),
    (
        "graph 1\nentry s\nnode s match\nskip -> s\non \"a\" -> s\non \"abc\" -> s\nend\n",
        "graph: line 6: prefix gap\n",
    ),
    (
        "graph 1\nentry s\nnode s match\nskip -> s\non \"a\" = 1 -> s\nend\n",
        "graph: line 5: value target\n",
    ),
    (
        "graph 1\nprop p u8\nentry s\nnode s update p 256\nelse -> s\nend\n",
        "graph: line 4: value too wide\n",
    ),
    (
        "graph 1\nentry s\nnode s match\non \"\" -> s\nskip -> s\nend\n",
        "graph: line 4: empty key\n",
    ),
    (
        "graph 1\nentry s\nnode s match lower\non \"A\" -> s\nskip -> s\nend\n",
        "graph: line 4: key not folded\n",
    ),
    (
        "graph 1\nentry s\nnode s match\nskip -> s\non \"aaaaaaaaaabbbbbbbbbbccccccccccddddddddddeeeeeeeeeeffffffffffggggg\" -> s\nend\n",
        "graph: line 5: too many\n",
    ),
];

// Texts of graphs that `trace` does not run, and the line that tells why. Accepted ones: a span, a key of two bytes, a fold,
// a peek, an answer, a number, a finish rule, a property, a pause. Then those that have a loop, or a fault of spans.
const REFUSED_GRAPHS: [(&str, &str); 12] = [
    ("span s;entry a;node a match;skip -> a", "check: not yet\n"),
    (
        "entry s;node s match;on \"ab\" -> s;skip -> s",
        "check: not yet\n",
    ),
    ("entry s;node s match lower;skip -> s", "check: not yet\n"),
    (
        "entry s;node s match;peek \"a\" -> t;skip -> s;node t match;skip -> s",
        "check: not yet\n",
    ),
    (
        "host h match;entry s;node s match;skip -> c;node c call h;is 1 -> s;else -> s",
        "check: not yet\n",
    ),
    (
        "host h value;entry s;node s match;on \"a\" = 1 -> c;skip -> s;node c call h;else -> s",
        "check: not yet\n",
    ),
    (
        "prop p u8;host h match;entry s;node s match;skip -> s;finish p h",
        "check: not yet\n",
    ),
    (
        "prop p u8;entry s;node s match;skip -> s",
        "check: not yet\n",
    ),
    (
        "entry s;node s match;skip -> p;node p pause 1 \"x\";else -> s",
        "check: not yet\n",
    ),
    (
        "entry x;node x match;else -> y;node y match;else -> x",
        "check: loop at x on byte 00\n",
    ),
    (
        "entry s;node s match;peek \"a\" -> s;skip -> s",
        "check: loop at s on byte 61\n",
    ),
    (
        "span w;entry k;node k close w;else -> z;node z match;skip -> z",
        "check: span w not open at k\n",
    ),
];

// Captures that are none of one connection without sets and script.
const REFUSED_CAPTURES: [&[u8]; 10] = [
    &[],
    &[1, 0, 0, 0, 0],
    &[2, 0, 0, 0, 5],
    &[1, 0, 0, 0, 0, 5, 5],
    &[1, 1, 0, 0, 0, 5],
    &[1, 0, 1, 0, 0, 0, 0, 0, 0, 0, 0, 0, 0, 0, 5],
    &[1, 0, 0, 0, 0, 2, 1, 0, 0, 5],
    &[1, 0, 0, 0, 0, 2, 0, 0, 3, b'b', b'a', 5],
    &[1, 0, 0, 0, 0, 3, 0, 5],
    &[1, 0, 0, 0, 0, 4, 0, 5],
];

#[test]
fn a_text_of_no_graph_is_refused(rt: HostRuntime) -> Result<(), Fail> {
    let alloc = rt.alloc();
    for (text, line) in REFUSED_TEXTS {
        let bytes = joined(alloc, text, &[1, 0, 0, 0, 0, 5])?;
        let got = outcome_of(alloc, &["trace"], bytes.as_slice(), SOUND)?;
        assert_eq!(rt; got.status, Status::Graph, "at {text}");
        assert_eq!(rt; got.output.written(), b"".as_slice(), "at {text}");
        assert_eq!(rt; got.errors.written(), line.as_bytes(), "at {text}");
    }
    Ok(())
}

#[test]
fn a_graph_that_is_not_run_is_refused(rt: HostRuntime) -> Result<(), Fail> {
    let alloc = rt.alloc();
    for (statements, line) in REFUSED_GRAPHS {
        let text = format!(in alloc; "graph 1;{statements};end\n")?;
        let bytes = joined(alloc, &text, &[1, 0, 0, 0, 0, 5])?;
        let got = outcome_of(alloc, &["trace"], bytes.as_slice(), SOUND)?;
        assert_eq!(rt; got.status, Status::Check, "at {text}");
        assert_eq!(rt; got.output.written(), b"".as_slice(), "at {text}");
        assert_eq!(rt; got.errors.written(), line.as_bytes(), "at {text}");
    }
    Ok(())
}

#[test]
fn what_is_no_capture_is_refused(rt: HostRuntime) -> Result<(), Fail> {
    let alloc = rt.alloc();
    // The graph is checked before the capture is judged.
    let looping = "graph 1\nentry x\nnode x match\nelse -> y\nnode y match\nelse -> x\nend\n";
    for (text, status, line) in [
        (GRAPH, Status::Capture, "capture: refused\n"),
        (looping, Status::Check, "check: loop at x on byte 00\n"),
    ] {
        for capture in REFUSED_CAPTURES {
            let bytes = joined(alloc, text, capture)?;
            let got = outcome_of(alloc, &["trace"], bytes.as_slice(), SOUND)?;
            assert_eq!(rt; got.status, status);
            assert_eq!(rt; got.output.written(), b"".as_slice());
            assert_eq!(rt; got.errors.written(), line.as_bytes());
        }
    }
    Ok(())
}
