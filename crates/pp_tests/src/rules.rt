// The rules of graphs, as texts. A table for each rule, in the order of the rules; then texts that break two rules, and
// the limits of `TooMany`.

use pp_graph::GraphRule;
use pp_graph::GraphRule::*;
use pp_text::{TextFault, read_graph};
use std::alloc::{AllocError, Global};
use std::test::Fail;

// A name; lines that follow `FRONT` up to `end`, or a whole text; and the line at which the rule fails, if it does.
type Row = (&'static str, &'static str, Option<u32>);

// Line 1 of a text whose rows do not begin it themselves. The last node is a match node.
const FRONT: &str =
    "graph 1;prop p u8;prop q u8;host h match;host v value;span b;entry s;node e error 1 \"x\";node st store p;else -> s;node c call h;else -> s;node s match;else -> s\n";

const DUPLICATE_NAME: &[Row] = &[
    (
        "a node twice",
        "node n error 1 \"x\"\nnode n error 1 \"x\"",
        Some(3),
    ),
    ("a second entry", "entry s", Some(2)),
    ("a second finish rule", "finish p h\nfinish q h", Some(3)),
    ("a host of the other signature", "host h value", Some(2)),
    ("a property of another width", "prop p u16", Some(2)),
    ("a span twice", "span b", Some(2)),
    (
        "one name for each sort",
        "prop x u8;host x match;span x;node x error 1 \"x\"",
        None,
    ),
    (
        "what stands after it",
        "node e error 1 \"x\"\nentry t\nspan w;end\nx",
        Some(2),
    ),
];

const UNKNOWN_NAME: &[Row] = &[
    ("a node in an otherwise", "node n match;else -> t", Some(2)),
    ("a node in a key", "on \"a\" -> t", Some(2)),
    ("a node in a peek", "peek \"a\" -> t", Some(2)),
    (
        "a node in an answer",
        "node n call h;is 1 -> t;else -> s",
        Some(2),
    ),
    (
        "a node in a set",
        "on [a-c] -> s\non [d-f] -> t\non [g] -> u",
        Some(3),
    ),
    (
        "a node after sets",
        "peek [a-c] -> s\non [de] -> s\nnode n match;else -> t",
        Some(4),
    ),
    (
        "a node in an entry",
        "graph 1\nentry t\nnode s error 1 \"x\"\nend\n",
        Some(2),
    ),
    (
        "a letter of the other case",
        "node n match;else -> S",
        Some(2),
    ),
    ("a host", "node n call p;else -> s", Some(2)),
    ("a property", "node n load h;else -> s", Some(2)),
    ("a span", "node n open p;else -> s", Some(2)),
    ("a property in a finish rule", "finish h h", Some(2)),
    ("a host in a finish rule", "finish p p", Some(2)),
    (
        "a node that comes later",
        "on \"a\" -> n;node n error 1 \"x\"",
        None,
    ),
];

const NO_ENTRY: &[Row] = &[
    ("no statement", "graph 1\nend\n", Some(2)),
    (
        "a node alone",
        "graph 1\nnode s match\nskip -> s\nend\n",
        Some(4),
    ),
];

const NO_OTHERWISE: &[Row] = &[
    (
        "a match node",
        "node n match\non \"a\" -> s\nnode m error 1 \"x\"",
        Some(2),
    ),
    ("an invoke node", "node n call h\nis 1 -> s", Some(2)),
    ("a pause", "node n pause 1 \"x\"", Some(2)),
    ("an error", "node n error 1 \"x\"", None),
];

const KEY_CLASH: &[Row] = &[
    ("equal keys", "on \"a\" -> s\non \"a\" -> s", Some(3)),
    ("equal keys of a statement", "on [a] \"a\" -> s", Some(2)),
    (
        "equal longer keys",
        "on \"a\" \"ab\" -> s\non \"ab\" -> s",
        Some(3),
    ),
    ("equal peeks", "peek \"x\" -> s\npeek \"x\" -> s", Some(3)),
    ("a peek of a key", "on \"x\" -> s\npeek \"x\" -> s", Some(3)),
    (
        "a peek of a longer key",
        "on \"xy\" -> s\npeek \"x\" -> s",
        Some(3),
    ),
    (
        "a key after its peek",
        "peek \"x\" -> s\non \"xy\" -> s",
        Some(3),
    ),
    (
        "a key of a set after its peek",
        "peek \"b\" -> s\non [a-c] -> s",
        Some(3),
    ),
    ("two sets", "on [a-c] -> s\non [c-e] -> s", Some(3)),
    ("a set of peeks", "on [a-c] -> s\npeek [c-e] -> s", Some(3)),
    (
        "sets after peeks",
        "peek [0-9] \"x\" -> s\non [a-c] -> s\non [c-e] -> s",
        Some(4),
    ),
    (
        "equal answers",
        "node n call h;is 3 -> s\nis 3 -> s\nelse -> s",
        Some(3),
    ),
    (
        "sets that share no byte",
        "on [a-c] -> s\non [d-f] -> s\npeek [g-i] -> s",
        None,
    ),
    (
        "a peek of a second byte",
        "on \"xy\" -> s\npeek \"y\" -> s",
        None,
    ),
    (
        "a key at two nodes",
        "on \"a\" -> s;node n match;on \"a\" -> s;else -> s",
        None,
    ),
];

const PREFIX_GAP: &[Row] = &[
    (
        "shorter key first",
        "on \"a\" -> s\non \"abc\" -> s",
        Some(3),
    ),
    (
        "longer key first",
        "on \"abc\" -> s\non \"a\" -> s",
        Some(3),
    ),
    (
        "no neighbours",
        "on \"a\" -> s\non \"abcd\" -> s\non \"ab\" -> s",
        Some(3),
    ),
    (
        "under an empty key",
        "on \"\" -> s\non \"ab\" -> s",
        Some(3),
    ),
    (
        "under a key of a set",
        "on [a-c] -> s\non \"bcd\" -> s",
        Some(3),
    ),
    (
        "a key of a set later",
        "on \"bcd\" -> s\non [a-c] -> s",
        Some(3),
    ),
    (
        "every prefix, in any order",
        "on \"abc\" \"a\" \"ab\" -> s",
        None,
    ),
    (
        "a common front that is no key",
        "on \"abc\" \"abd\" -> s",
        None,
    ),
];

const VALUE_TARGET: &[Row] = &[
    ("a number to a match node", "on \"a\" = 1 -> s", Some(2)),
    (
        "a number to a call without one",
        "on \"a\" = 1 -> c",
        Some(2),
    ),
    (
        "a number in a set",
        "on [a-c] -> s\non [d-f] = 1 -> s",
        Some(3),
    ),
    ("no number to a store", "on \"a\" -> st", Some(2)),
    (
        "an otherwise to a store",
        "node n match;else -> st",
        Some(2),
    ),
    (
        "a skip to a call with one",
        "node n call v;else -> s\nnode m match;skip -> n",
        Some(3),
    ),
    (
        "an answer to a muladd",
        "node n muladd p 10;else -> s\nnode m call h;is 1 -> n;else -> s",
        Some(3),
    ),
    (
        "an entry that stores",
        "graph 1\nprop p u8\nentry a\nnode a store p\nelse -> e\nnode e error 1 \"x\"\nend\n",
        Some(3),
    ),
    ("a finish host with a number", "finish p v", Some(2)),
    ("a number to a store", "on \"a\" = 1 -> st", None),
    (
        "a number to a call with one",
        "on \"a\" = 1 -> n;node n call v;else -> s",
        None,
    ),
];

const VALUE_TOO_WIDE: &[Row] = &[
    ("a constant", "node n equal p 256;else -> s", Some(2)),
    (
        "a constant of an update",
        "node n update p 256;else -> s",
        Some(2),
    ),
    ("a most", "node n muladd p 10 max 256;else -> s", Some(2)),
    ("a number to a store", "on \"a\" = 256 -> st", Some(2)),
    (
        "the greatest constant",
        "node n equal p 255;else -> s",
        None,
    ),
    (
        "the greatest number to a store",
        "on \"a\" = 255 -> st",
        None,
    ),
    (
        "a number that is not stored",
        "on \"a\" = 256 -> n;node n call v;else -> s",
        None,
    ),
];

const EMPTY_KEY: &[Row] = &[
    ("alone", "on \"\" -> s", Some(2)),
    (
        "before a key of one byte",
        "on \"\" -> s\non \"a\" -> s",
        Some(2),
    ),
    (
        "after a set",
        "on [a-c] -> s\non [d-f] \"\" -> s\non [g-i] -> s",
        Some(3),
    ),
];

const KEY_NOT_FOLDED: &[Row] = &[
    (
        "a key",
        "node n match lower;else -> s\non \"aB\" -> s",
        Some(3),
    ),
    (
        "a peek",
        "node n match lower;else -> s\npeek \"A\" -> s",
        Some(3),
    ),
    (
        "the last byte of a set",
        "node n match lower;else -> s\non [abC] -> s",
        Some(3),
    ),
    (
        "a set from Z on",
        "node n match lower;else -> s\non [Z-\\x5f] -> s",
        Some(3),
    ),
    (
        "neighbours of the letters",
        "node n match lower;else -> s;on \"@\" \"[\" -> s",
        None,
    ),
    ("a node that compares as it is", "on \"A\" -> s", None),
];

const TOO_MANY: &[Row] = &[
    (
        "a key of 65 bytes",
        "on \"aaaaaaaaaabbbbbbbbbbccccccccccddddddddddeeeeeeeeeeffffffffffggggg\" -> s",
        Some(2),
    ),
    (
        "a key of 64 bytes",
        "on \"aaaaaaaaaabbbbbbbbbbccccccccccddddddddddeeeeeeeeeeffffffffffgggg\" -> s",
        None,
    ),
];

const RULES: [(GraphRule, &[Row]); 11] = [
    (DuplicateName, DUPLICATE_NAME),
    (UnknownName, UNKNOWN_NAME),
    (NoEntry, NO_ENTRY),
    (NoOtherwise, NO_OTHERWISE),
    (KeyClash, KEY_CLASH),
    (PrefixGap, PREFIX_GAP),
    (ValueTarget, VALUE_TARGET),
    (ValueTooWide, VALUE_TOO_WIDE),
    (EmptyKey, EMPTY_KEY),
    (KeyNotFolded, KEY_NOT_FOLDED),
    (TooMany, TOO_MANY),
];

// Texts that break two rules: the earlier rule is told, also where it fails at a later line.
const TWICE: [(&str, &str, GraphRule, u32); 11] = [
    (
        "duplicate, unknown",
        "node n match;else -> t\nnode e error 1 \"x\"",
        DuplicateName,
        3,
    ),
    (
        "unknown, no entry",
        "graph 1\nnode a match\nelse -> b\nend\n",
        UnknownName,
        3,
    ),
    (
        "no entry, clash",
        "graph 1\nnode a match\non \"x\" -> a\non \"x\" -> a\nend\n",
        NoEntry,
        5,
    ),
    (
        "no otherwise, clash",
        "on \"x\" \"x\" -> s\nnode n match",
        NoOtherwise,
        3,
    ),
    (
        "clash, gap",
        "on \"x\" -> s\non \"xyz\" -> s\non \"x\" -> s",
        KeyClash,
        4,
    ),
    (
        "gap, target",
        "on \"x\" = 1 -> s\non \"y\" -> s\non \"yzz\" -> s",
        PrefixGap,
        4,
    ),
    (
        "target, too wide",
        "node n equal p 256;else -> s\nnode m match;else -> st",
        ValueTarget,
        3,
    ),
    (
        "too wide, empty",
        "on \"\" -> s\nnode n equal p 256;else -> s",
        ValueTooWide,
        3,
    ),
    (
        "empty, not folded",
        "node n match lower;else -> s\non \"A\" -> s\non \"\" -> s",
        EmptyKey,
        4,
    ),
    (
        "not folded, too many",
        "on \"aaaaaaaaaabbbbbbbbbbccccccccccddddddddddeeeeeeeeeeffffffffffggggg\" -> s\nnode n match lower;else -> s\non \"A\" -> s",
        KeyNotFolded,
        4,
    ),
    (
        "unknown, not folded",
        "node n match lower;on \"A\" -> s\nelse -> t\nnode m equal p 256;else -> s",
        UnknownName,
        3,
    ),
];

// A row's lines as a text: behind the front and up to `end`, where they are no text themselves.
fn text_of(alloc: Global, lines: &str) -> Result<String, AllocError> {
    if lines.starts_with("graph 1") {
        return format!(in alloc; "{lines}");
    }
    format!(in alloc; "{FRONT}{lines}\nend\n")
}

// Why a text is refused, if it is.
fn fault_of(alloc: Global, text: &str) -> Option<TextFault> {
    read_graph(alloc, text.as_bytes()).err()
}

#[test]
fn each_rule_refuses_and_accepts(rt: HostRuntime) -> Result<(), Fail> {
    let alloc = rt.alloc();
    for (rule, rows) in RULES {
        for (name, lines, line) in rows {
            let text = text_of(alloc, lines)?;
            let want = line.map(|line| TextFault::Graph { line, rule });
            assert_eq!(rt; fault_of(alloc, &text), want, "{rule}: {name}");
        }
    }
    Ok(())
}

#[test]
fn the_rules_are_tried_in_their_order(rt: HostRuntime) -> Result<(), Fail> {
    let alloc = rt.alloc();
    for (name, lines, rule, line) in TWICE {
        let text = text_of(alloc, lines)?;
        let want = Some(TextFault::Graph { line, rule });
        assert_eq!(rt; fault_of(alloc, &text), want, "{name}");
    }
    Ok(())
}

// What a graph has a limit of.
#[derive(Clone, Copy, Debug)]
enum Counted {
    Prop,
    Host,
    Span,
    Node,
    Key,
    LongKey,
    AllBytes,
    Answer,
}

// The line of the one of this number.
fn line_of(alloc: Global, counted: Counted, i: u32) -> Result<String, AllocError> {
    match counted {
        Counted::Prop => format!(in alloc; "prop p{i} u8\n"),
        Counted::Host => format!(in alloc; "host h{i} match\n"),
        Counted::Span => format!(in alloc; "span s{i}\n"),
        Counted::Node => format!(in alloc; "node n{i} error 1 \"x\"\n"),
        Counted::Key => format!(in alloc; "on \"{i:04}\" -> e\n"),
        Counted::LongKey => format!(in alloc; "on \"{i:064}\" -> e\n"),
        Counted::AllBytes => {
            format!(in alloc; "node n{i} match;else -> e;on [\\x00-\\xff] -> e\n")
        }
        Counted::Answer => format!(in alloc; "is {i} -> e\n"),
    }
}

// What is counted, what line 1 has, and how many there may be. The node of the first line is one of the 4,096. Long keys,
// sets of all bytes and answers come to the weight of 20,000: 312 times 64, 78 times 256.
const LIMITS: [(Counted, &str, u32); 8] = [
    (Counted::Prop, "", 64),
    (Counted::Host, "", 64),
    (Counted::Span, "", 32),
    (Counted::Node, "", 4095),
    (Counted::Key, ";node m match;else -> e", 2048),
    (Counted::LongKey, ";node m match;else -> e", 312),
    (Counted::AllBytes, "", 78),
    (
        Counted::Answer,
        ";host h match;node c call h;else -> e",
        20000,
    ),
];

// A text with so many of what is counted, each in a line of its own from line 2 on.
fn text_with(
    alloc: Global,
    counted: Counted,
    front: &str,
    count: u32,
) -> Result<String, AllocError> {
    let mut text = format!(in alloc; "graph 1;entry e;node e error 1 \"x\"{front}\n")?;
    for i in 0..count {
        let line = line_of(alloc, counted, i)?;
        text.push_str(&line)?;
    }
    text.push_str("end\n")?;
    Ok(text)
}

#[test]
fn counts_go_up_to_their_limits(rt: HostRuntime) -> Result<(), Fail> {
    let alloc = rt.alloc();
    for (counted, front, most) in LIMITS {
        let text = text_with(alloc, counted, front, most)?;
        assert_eq!(rt; fault_of(alloc, &text), None, "{counted:?}");
        let text = text_with(alloc, counted, front, most + 1)?;
        let want = TextFault::Graph {
            line: most + 2,
            rule: TooMany,
        };
        assert_eq!(rt; fault_of(alloc, &text), Some(want), "{counted:?}");
    }
    Ok(())
}
