// Texts that are read, refused for their form, and printed. What the rules refuse stands in `rules`.

use pp_graph::GraphRule;
use pp_text::{TextFault, print_graph, read_back, read_graph};
use std::alloc::Global;
use std::test::Fail;

// What reading a text comes to: how many bytes it takes, or the fault.
fn outcome(alloc: Global, text: &str) -> Result<usize, TextFault> {
    match read_graph(alloc, text.as_bytes()) {
        Ok((_, used)) => Ok(used),
        Err(fault) => Err(fault),
    }
}

// In front of each row of the table below, on one line. The last node is a match node with an otherwise.
const BEFORE: &str =
    "graph 1;prop p u64;host h match;span w;entry s;node e error 1 \"x\";node i call h;else -> s;node st store p;else -> s;node s match;else -> s\n";

// A line that is no statement for one reason, and a neighbour that is one.
const LINES: [(&str, &str); 55] = [
    ("on \"a\"->s", "on \"a\" -> s"),
    ("on \"a\" ->s", "on\t\"a\"\t->  s "),
    ("on \"a\"\"b\" -> s", "on \"a\" \"b\" -> s"),
    ("on \"a\"[b] -> s", "on \"a\" [b] -> s"),
    ("on \"a\"=5 -> st", "on \"a\" = 5 -> st"),
    ("on \"a\" =5 -> st", "on \"a\" = 0 -> st"),
    ("on \"a\" = 4294967296 -> st", "on \"a\" = 4294967295 -> st"),
    ("on \"a\" = 05 -> st", "on \"a\" = 50 -> st"),
    ("on \"a\" = +5 -> st", "on \"a\" \"b\" = 5 -> st"),
    ("on \"\\q\" -> s", "on \"\\\\\" -> s"),
    ("on \"\\0\" -> s", "on \"\\x00\" -> s"),
    ("on [\\0] -> s", "on [\\x00] -> s"),
    ("on \"\\x4\" -> s", "on \"\\x41\" -> s"),
    ("on \"\\xg1\" -> s", "on \"\\xFf\" -> s"),
    ("on \"\\]\" -> s", "on \"]\" -> s"),
    ("on \"\\-\" -> s", "on \"-\" -> s"),
    ("on \"a -> s", "on \"a \" -> s"),
    ("on \"\"\" -> s", "on \"\\\"\" -> s"),
    ("on -> s", "on \"on\" -> s"),
    ("on a -> s", "on [a] -> s"),
    ("on [] -> s", "on [ ] -> s"),
    ("on [b-a] -> s", "on [a-b] -> s"),
    ("on [a-] -> s", "on [a\\-] -> s"),
    ("on [-a] -> s", "on [\\-a] -> s"),
    ("on [a-c-e] -> s", "on [a-ce] -> s"),
    ("on [\\\"] -> s", "on [\"#; ] -> s"),
    ("on [a]] -> s", "on [a\\]] -> s"),
    ("on [\\x0] -> s", "on [\\x00-\\x1f] -> s"),
    ("on \"\t\" -> s", "on \"\\t\" -> s"),
    ("on [\t] -> s", "on [\\t\\r\\n] -> s"),
    ("peek \"\" -> s", "peek \"b\" -> s"),
    ("peek \"ab\" -> s", "peek \"a\" \"b\" -> s"),
    ("peek \"a\" = 1 -> st", "peek [ab] \"c\" -> s"),
    ("else -> s", ""),
    ("skip -> s", " ;\t; # nothing"),
    ("is 3 -> s", "node c call h;is 3 -> s;else -> s"),
    (
        "node c call h;on \"a\" -> s;else -> s",
        "node c call h;else -> s",
    ),
    ("node c call h;skip -> s", "node c match;skip -> s"),
    ("node c error 1 \"y\";else -> s", "node c error 1 \"y\""),
    ("prop q u9", "prop q u16"),
    ("prop q", "prop q u32"),
    ("host g", "host g value"),
    ("span 1w", "span _w1"),
    (
        "node n pause 4294967296 \"r\";else -> s",
        "node n pause 4294967295 \"r\";else -> s",
    ),
    (
        "node n equal p 18446744073709551616;else -> s",
        "node n equal p 18446744073709551615;else -> s",
    ),
    (
        "node n muladd p 4294967296;else -> s",
        "node n muladd p 4294967295;else -> s",
    ),
    (
        "node n muladd p 10 max;else -> s",
        "node n muladd p 10 max 7;else -> s",
    ),
    ("node n error 1 \"\"", "node n error 1 \" \""),
    ("node n error 1\"x\"", "node n error 1 \"a#;\" # \u{e9}"),
    ("node n error 1 \"\\\\\"", "node n error 1 \"/\""),
    (
        "node n match upper;else -> s",
        "node n match lower;else -> s",
    ),
    ("graph 1", "#graph 1"),
    ("finish p", "finish p h"),
    ("node n consume;else -> s", "node n consume p;else -> s"),
    ("span\rv", "span v\r"),
];

#[test]
fn lines_have_one_form(rt: HostRuntime) -> Result<(), Fail> {
    let alloc = rt.alloc();
    for (wrong, right) in LINES {
        let text = format!(in alloc; "{BEFORE}{wrong}\nend\n")?;
        assert_eq!(rt;
            outcome(alloc, &text),
            Err(TextFault::Syntax { line: 2 }),
            "{wrong}"
        );
        let text = format!(in alloc; "{BEFORE}{right}\nend\n")?;
        assert_eq!(rt; outcome(alloc, &text), Ok(text.len()), "{right}");
    }
    Ok(())
}

// A graph of two nodes.
const FIRST: &str =
    "graph 1\nhost hit match\nentry start\nnode start match\non \"a\" -> hit_it\nskip -> start\nnode hit_it call hit\nelse -> start\nend\n";

// Texts that are refused for their form, and the line. A line is told before what stands after it, a rule after all lines.
const REFUSED: [(&str, u32); 13] = [
    ("", 1),
    ("\n\n", 2),
    ("\n\n ", 3),
    ("\x7f", 1),
    ("graph 1", 1),
    ("graph 2\nend\n", 1),
    ("\nspan w\ngraph 1\nend\n", 2),
    ("end\n", 1),
    ("graph 1\nend;\n", 2),
    ("graph 1\nend x\n", 2),
    ("graph 1\nend\r", 2),
    ("graph 1\n\n# c\nspan\nend\n", 4),
    (
        "graph 1;entry t;node s match;on [b-a] -> s;else -> s;end",
        1,
    ),
];

#[test]
fn a_wrong_line_is_told_by_its_number(rt: HostRuntime) -> Result<(), Fail> {
    for (text, line) in REFUSED {
        let want = Err(TextFault::Syntax { line });
        assert_eq!(rt; outcome(rt.alloc(), text), want, "{text}");
    }
    Ok(())
}

// Texts that are read, and how many of their bytes are text.
const ENDS: [(&str, usize); 7] = [
    ("graph 1;entry s;node s match;else -> s;end", 42),
    ("graph 1;entry s;node s match;else -> s;end\n", 43),
    ("graph 1;entry s;node s match;else -> s;end\r\n\u{1}", 44),
    (
        "graph 1;entry s;node s match;else -> s;end \t#;\r\r\nend",
        49,
    ),
    ("graph 1;entry s;node s match;else -> s;end # c\r", 47),
    ("graph 1;entry s;node s match;else -> s;end# \u{e9}", 46),
    (
        "\r\n#\n;;graph 1;entry s;node s match;else -> s;end\n\n",
        49,
    ),
];

#[test]
fn texts_end_after_their_last_line(rt: HostRuntime) -> Result<(), Fail> {
    for (text, used) in ENDS {
        assert_eq!(rt; outcome(rt.alloc(), text), Ok(used), "{text}");
    }
    Ok(())
}

// A text of 4,194,304 bytes is read, and one of a byte more is too long.
#[test]
fn lines_are_whole_within_the_limit(rt: HostRuntime) -> Result<(), Fail> {
    let alloc = rt.alloc();
    for (blanks, want) in [
        (4_194_261, Ok(4_194_304)),
        (4_194_262, Err(TextFault::TooLong)),
    ] {
        let mut text = Vec::from_slice(alloc, b"graph 1;entry s;node s match;else -> s;end")?;
        text.resize(42 + blanks, b' ')?;
        text.push(b'\n')?;
        text.push(b'x')?;
        let got = match read_graph(alloc, &text) {
            Ok((_, used)) => Ok(used),
            Err(fault) => Err(fault),
        };
        assert_eq!(rt; got, want);
    }
    Ok(())
}

// Each node kind, code, width and escape, as it is printed.
const PRINTED: &str =
    "graph 1\nprop a u8\nprop b u16\nprop c u32\nprop d u64\nhost h match\nhost v value\nspan w\nentry s\nfinish a h\n\
node s match lower\non \"\\x00\\x0d\\x0a\\x09 ~\\x7f\\x22\\x5c\\xff#;]\" -> e\non \"x\" = 255 -> st\non \"y\" = 4294967295 -> vh\npeek \"\\x09\" -> s\nskip -> s\n\
node e error 4294967295 \"no; # way\"\nnode st store a\nelse -> s\nnode vh call v\nis 3 -> s\nis 0 -> e\nelse -> s\nnode ld load d\nelse -> s\n\
node up update a 255\nelse -> s\nnode eq equal b 65535\nelse -> s\nnode an and c 4294967295\nelse -> s\nnode or or d 18446744073709551615\nelse -> s\n\
node te test a 0\nelse -> s\nnode mu muladd d 10 max 18446744073709551615\nelse -> s\nnode co consume b\nelse -> s\nnode op open w\nelse -> cl\n\
node cl close w\nelse -> s\nnode pa pause 21 \"held\"\nelse -> s\nnode m match\nelse -> s\nend\n";

// Texts, and what is printed of their graphs.
const ALIKE: [(&str, &str); 4] = [
    (PRINTED, PRINTED),
    (FIRST, FIRST),
    (
        "graph 1;entry s;node s match;on [ba] -> s;else -> e;node e error 1 \"#;\";end",
        "graph 1\nentry s\nnode s match\non \"a\" -> s\non \"b\" -> s\nelse -> e\nnode e error 1 \"#;\"\nend\n",
    ),
    (
        "graph 1;node n muladd p 7;else -> s;prop p u16;node s match;else -> s;peek [\\x7e-\\x80] -> s;on \"\\r\\n\\t\\\\\\\"\\x41\" -> s;entry s;end",
        "graph 1\nprop p u16\nentry s\nnode n muladd p 7 max 65535\nelse -> s\nnode s match\non \"\\x0d\\x0a\\x09\\x5c\\x22A\" -> s\npeek \"~\" -> s\npeek \"\\x7f\" -> s\npeek \"\\x80\" -> s\nelse -> s\nend\n",
    ),
];

#[test]
fn graphs_are_printed_in_one_form(rt: HostRuntime) -> Result<(), Fail> {
    let alloc = rt.alloc();
    for (text, want) in ALIKE {
        let (graph, _) = read_graph(alloc, text.as_bytes())?;
        let printed = print_graph(alloc, &graph)?;
        assert_eq!(rt; printed.as_slice(), want.as_bytes(), "{text}");
        let (_, used) = read_back(alloc, &graph)?;
        assert_eq!(rt; used, want.len());
    }
    Ok(())
}

#[test]
fn faults_of_texts_have_a_text(rt: HostRuntime) -> Result<(), Fail> {
    for (fault, want) in [
        (TextFault::Syntax { line: 7 }, "line 7: syntax"),
        (TextFault::TooLong, "too long"),
        (
            TextFault::Graph {
                line: 2,
                rule: GraphRule::PrefixGap,
            },
            "line 2: prefix gap",
        ),
        (TextFault::NoMemory, "out of memory"),
    ] {
        assert_eq!(rt; format!(in rt.alloc(); "{fault}")?.as_str(), want);
    }
    Ok(())
}
