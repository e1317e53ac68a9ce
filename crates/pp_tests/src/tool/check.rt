// The command `check`.
use super::print::NETSTRINGS;
use super::{GRAPH, Outside, SOUND, outcome_of};
use pp_tool::Status;
use std::test::Fail;

// Graphs that are accepted, and the line that is written.
const ACCEPTED: [(&str, &str); 10] = [
    // No byte is both `a` and `b`.
    (
        "entry x;node x match;peek \"a\" -> y;else -> bad;node y match;peek \"b\" -> x;else -> bad;node bad error 1 \"bad\"",
        "ok nodes 3 gap 2 open 0\n",
    ),
    // Behind keys for all bytes the otherwise leads nowhere.
    (
        "entry s;node s match;on [\\x00-\\xff] -> s;else -> q;node q match;else -> q",
        "ok nodes 2 gap 0 open 0\n",
    ),
    // In a node that compares in lower case the other 230 bytes are all.
    (
        "entry s;node s match lower;on [\\x00-\\x40\\x5b-\\xff] -> s;else -> q;node q match;else -> q",
        "ok nodes 2 gap 0 open 0\n",
    ),
    // Nodes that no way leads to have no fault, and are counted.
    (
        "entry s;node s match;skip -> s;node u match;else -> u",
        "ok nodes 2 gap 0 open 0\n",
    ),
    (
        "span w;entry s;node s match;skip -> s;node u close w;else -> s",
        "ok nodes 2 gap 0 open 0\n",
    ),
    // A node's own span is not open yet where it acts.
    (
        "span w;entry o;node o open w;else -> z;node z match;skip -> c;node c close w;else -> o",
        "ok nodes 3 gap 2 open 1\n",
    ),
    // At an error a span may be open and may be shut, and is counted.
    (
        "span w;entry a;node a match;on \"x\" -> o;else -> e;node o open w;else -> e;node e error 1 \"bad\"",
        "ok nodes 3 gap 1 open 1\n",
    ),
    // Two spans at once.
    (
        "span v;span w;entry o;node o open v;else -> p;node p open w;else -> e;node e error 1 \"bad\"",
        "ok nodes 3 gap 2 open 2\n",
    ),
    (
        "entry s;node s match;on \"a\" -> x;on \"ab\" -> s;else -> x;node x error 1 \"x\"",
        "ok nodes 2 gap 1 open 0\n",
    ),
    (
        "prop n u8;entry c;node c consume n;else -> z;node z match;skip -> z",
        "ok nodes 2 gap 1 open 0\n",
    ),
];

// Graphs with a loop, and the line that tells it.
const LOOPS: [(&str, &str); 9] = [
    (
        "entry x;node x match;peek \"a\" -> y;else -> bad;node y match;peek \"a\" -> x;else -> bad;node bad error 1 \"bad\"",
        "check: loop at x on byte 61\n",
    ),
    // The least byte of all loops is told, and of the nodes on one there the least, though the entry comes to it later.
    (
        "entry y;node x match;peek \"a\" \"c\" -> y;else -> bad;node y match;peek \"c\" \"a\" -> x;else -> bad;node bad error 1 \"bad\"",
        "check: loop at x on byte 61\n",
    ),
    // A property may be 0.
    (
        "prop n u8;entry c;node c consume n;else -> c",
        "check: loop at c on byte 00\n",
    ),
    // A code may answer anything.
    (
        "prop n u8;entry l;node l load n;is 300 -> l;else -> z;node z match;skip -> z",
        "check: loop at l on byte 00\n",
    ),
    (
        "host h match;entry z;node z match;skip -> h;node h call h;is 1 -> z;else -> h",
        "check: loop at h on byte 00\n",
    ),
    // A run may go on behind a pause without a byte.
    (
        "entry s;node s match;else -> p;node p pause 1 \"held\";else -> s",
        "check: loop at s on byte 00\n",
    ),
    // A key that begins a longer one leads to its node with every next byte.
    (
        "entry s;node s match;on \"a\" -> x;on \"ab\" -> s;else -> bad;node x match;peek \"b\" -> x;else -> bad;node bad error 1 \"bad\"",
        "check: loop at x on byte 62\n",
    ),
    // Where one byte is no key, the otherwise is a move.
    (
        "entry s;node s match;on [\\x01-\\xff] -> s;else -> q;node q match;else -> q",
        "check: loop at q on byte 00\n",
    ),
    // Loops are told before spans.
    (
        "span w;entry k;node k close w;else -> q;node q match;else -> q",
        "check: loop at q on byte 00\n",
    ),
];

// Graphs without a loop whose spans don't fit, and the line that tells it.
const SPANS: [(&str, &str); 8] = [
    (
        "span w;entry o;node o open w;else -> o2;node o2 open w;else -> z;node z match;skip -> z",
        "check: span w reopened at o2\n",
    ),
    (
        "span w;entry a;node a match;on \"x\" -> o;else -> z;node o open w;else -> z;node z match;skip -> z",
        "check: span w mixed at z\n",
    ),
    (
        "span w;entry k;node k close w;else -> z;node z match;skip -> z",
        "check: span w not open at k\n",
    ),
    // Of one node reopened and not open come before mixed.
    (
        "span w;entry a;node a match;on \"x\" -> o;else -> o2;node o open w;else -> o2;node o2 open w;else -> z;node z match;skip -> z",
        "check: span w reopened at o2\n",
    ),
    (
        "span w;entry a;node a match;on \"x\" -> o;else -> k;node o open w;else -> k;node k close w;else -> z;node z match;skip -> z",
        "check: span w not open at k\n",
    ),
    // The least node comes first, whatever its fault.
    (
        "span w;entry a;node a match;on \"x\" -> o;else -> m;node m match;skip -> o2;node o open w;else -> m;node o2 open w;else -> z;node z match;skip -> z",
        "check: span w mixed at m\n",
    ),
    // And of one fault the least span.
    (
        "span v;span w;entry a;node a match;on \"x\" -> o;else -> z;node o open w;else -> p;node p open v;else -> z;node z match;skip -> z",
        "check: span v mixed at z\n",
    ),
    // Each edge counts, also one that no answer takes.
    (
        "prop n u8;span w;entry l;node l load n;is 300 -> o;else -> z;node o open w;else -> z;node z match;skip -> z",
        "check: span w mixed at z\n",
    ),
];

// Texts, the status of `check`, what it writes, and the line that tells it.
const TEXTS: [(&str, Status, &str, &str); 5] = [
    (GRAPH, Status::Ok, "ok nodes 2 gap 1 open 0\n", ""),
    (NETSTRINGS, Status::Ok, "ok nodes 11 gap 6 open 1\n", ""),
    // Nothing may stand behind the text, which is told before a loop, and after what the text itself has.
    (
        "graph 1\nentry s\nnode s match\nelse -> s\nend\nx",
        Status::Graph,
        "",
        "graph: line 6: syntax\n",
    ),
    (
        "graph 1\nentry s\nnode s match\nelse -> t\nend\nx",
        Status::Graph,
        "",
        "graph: line 4: unknown name\n",
    ),
    (
        "graph 1\nentry s\nnode s match\nelse -> s\nend\n",
        Status::Check,
        "",
        "check: loop at s on byte 00\n",
    ),
];

#[test]
fn a_text_is_checked_however_it_is_cut(rt: HostRuntime) -> Result<(), Fail> {
    let alloc = rt.alloc();
    for (text, status, written, line) in TEXTS {
        for most in [1, 100_000] {
            let outside = Outside { most, ..SOUND };
            let got = outcome_of(alloc, &["check"], text.as_bytes(), outside)?;
            assert_eq!(rt; got.status, status, "at {text}");
            assert_eq!(rt; got.output.written(), written.as_bytes(), "at {text}");
            assert_eq!(rt; got.errors.written(), line.as_bytes(), "at {text}");
        }
    }
    Ok(())
}

#[test]
fn a_graph_that_is_accepted_is_told_by_its_counts(rt: HostRuntime) -> Result<(), Fail> {
    let alloc = rt.alloc();
    for (statements, line) in ACCEPTED {
        let text = format!(in alloc; "graph 1;{statements};end\n")?;
        let got = outcome_of(alloc, &["check"], text.as_bytes(), SOUND)?;
        assert_eq!(rt; got.status, Status::Ok, "at {text}");
        assert_eq!(rt; got.output.written(), line.as_bytes(), "at {text}");
        assert_eq!(rt; got.errors.written(), b"".as_slice(), "at {text}");
    }
    Ok(())
}

#[test]
fn a_loop_or_a_fault_of_spans_is_told(rt: HostRuntime) -> Result<(), Fail> {
    let alloc = rt.alloc();
    for (statements, line) in LOOPS.iter().chain(SPANS.iter()) {
        let text = format!(in alloc; "graph 1;{statements};end\n")?;
        let got = outcome_of(alloc, &["check"], text.as_bytes(), SOUND)?;
        assert_eq!(rt; got.status, Status::Check, "at {text}");
        assert_eq!(rt; got.output.written(), b"".as_slice(), "at {text}");
        assert_eq!(rt; got.errors.written(), line.as_bytes(), "at {text}");
    }
    Ok(())
}
