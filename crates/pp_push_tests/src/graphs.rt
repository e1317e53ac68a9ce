// Graphs that several tests use, and graphs of texts.
use pp_graph::Graph;
use pp_text::read_graph;
use std::alloc::Global;
use std::test::Fail;

// Calls `hit` behind each `a`.
pub(crate) const HITS: &str =
    "host hit match;entry s;node s match;on \"a\" -> c;skip -> s;node c call hit;else -> s";

// A span over `a`, `b`, `c` and pauses, up to a `d`.
pub(crate) const SPANS: &str =
    "span w;entry o;node o open w;else -> r;node r match;on [abc] -> r;on \"!\" -> p;peek \"d\" -> c;else -> bad;node c close w;else -> z;node z match;skip -> z;node bad error 1 \"bad\";node p pause 21 \"held\";else -> r";

// Calls `hit` behind each `a`, and fails once it is answered 1.
pub(crate) const ANSWERED: &str =
    "host hit match;entry s;node s match;on \"a\" -> c;skip -> s;node c call hit;is 1 -> bad;else -> s;node bad error 9 \"x\"";

// A number of digits, told where it passes 255.
pub(crate) const DIGITS: &str =
    "prop n u8;host over match;entry d;node d match;on \"2\" = 2 -> add;on \"5\" = 5 -> add;on \"6\" = 6 -> add;else -> bad;node add muladd n 10;is 1 -> big;else -> d;node big call over;else -> d;node bad error 1 \"bad\"";

// Takes as many bytes as a property says.
pub(crate) const CONSUMES: &str =
    "prop n u64;entry c;node c consume n;else -> z;node z match;skip -> z";

// The graph whose text has these statements in its only line.
pub(crate) fn graph_of(alloc: Global, statements: &str) -> Result<Graph, Fail> {
    let text = format!(in alloc; "graph 1;{statements};end")?;
    let (graph, _) = read_graph(alloc, text.as_bytes())?;
    Ok(graph)
}
