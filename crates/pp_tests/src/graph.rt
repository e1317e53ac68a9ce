// The builder's calls, each once, and what names, reasons and faults look like. What the rules refuse stands in `rules`.

ghost use Rattle.std.specs.Prelude.{◌+◌, ◌<◌, ◌≤◌, length, OnOk};

use pp_bytes::{ByteSet, Fold};
use pp_graph::{
    Code, CodeText, Graph, GraphBuilder, GraphFault, GraphRule, Kind, KindText, LastNode, Name,
    NoMemory, Other, Peek, Reason, Width, is_name, is_reason,
};
use pp_text::read_graph;
use std::alloc::Global;
use std::process::Abort;
use std::test::Fail;

// The set of the bytes of a text.
fn set_of(text: &[u8]) -> ByteSet {
    let mut bytes = ByteSet::new();
    for b in text {
        bytes.add(*b);
    }
    bytes
}

// Adds keys of one byte to the last node, a match.
fn add_keys(rt: &impl Abort, builder: &mut GraphBuilder, text: &[u8]) -> Result<(), NoMemory>
    requires { length builder.old < 1000 }
    ensures { OnOk result (length builder.new ≤ length builder.old + 256) }
{
    let bytes = set_of(text);
    assert!(rt; bytes.len() <= 256);
    assert!(rt; matches!(builder.last_node(), LastNode::Match));
    builder.keys(bytes, None, "asked")
}

// Adds peeks to the last node, a match.
fn add_peeks(rt: &impl Abort, builder: &mut GraphBuilder, text: &[u8]) -> Result<(), NoMemory>
    requires { length builder.old < 1000 }
    ensures { OnOk result (length builder.new ≤ length builder.old + 256) }
{
    let bytes = set_of(text);
    assert!(rt; bytes.len() <= 256);
    assert!(rt; matches!(builder.last_node(), LastNode::Match));
    builder.peeks(bytes, "asked")
}

// A graph by every call of a builder.
fn by_every_call(rt: &impl Abort, alloc: Global) -> Result<Graph, GraphFault> {
    let mut builder = GraphBuilder::new(alloc);
    builder.prop("count", Width::W16)?;
    builder.host("hit", false)?;
    builder.host("sum", true)?;
    builder.span("body")?;
    builder.entry("start")?;
    builder.finish("count", "hit")?;
    let code = CodeText::Call { host: "hit" };
    builder.node("asked", KindText::Invoke { code })?;
    builder.answer(1, "start")?;
    builder.otherwise("start")?;
    let code = CodeText::MulAdd {
        prop: "count",
        base: 10,
        max: None,
    };
    builder.node("grown", KindText::Invoke { code })?;
    builder.otherwise("start")?;
    builder.node("start", KindText::Match { fold: Fold::Lower })?;
    builder.key(b"a", None, "asked")?;
    builder.key(b"ab", Some(255), "grown")?;
    builder.peek(b'x', "start")?;
    builder.skip("start")?;
    add_keys(rt, &mut builder, b"dc")?;
    add_keys(rt, &mut builder, b"")?;
    add_peeks(rt, &mut builder, b"zy")?;
    builder.close()
}

// The same graph as a text.
const EVERY_CALL: &str = "graph 1
prop count u16
host hit match
host sum value
span body
entry start
finish count hit
node asked call hit
is 1 -> start
else -> start
node grown muladd count 10 max 65535
else -> start
node start match lower
on \"a\" -> asked
on \"ab\" = 255 -> grown
on \"c\" -> asked
on \"d\" -> asked
peek \"x\" -> start
peek \"y\" -> asked
peek \"z\" -> asked
skip -> start
end
";

#[test]
fn every_call_adds_what_it_names(rt: HostRuntime) -> Result<(), Fail> {
    let alloc = rt.alloc();
    let graph = by_every_call(&rt, alloc)?;
    let (read, _) = read_graph(alloc, EVERY_CALL.as_bytes())?;
    let built = format!(in alloc; "{graph:?}")?;
    let read = format!(in alloc; "{read:?}")?;
    assert_eq!(rt; built.as_str(), read.as_str());
    Ok(())
}

#[test]
fn a_graph_tells_its_parts(rt: HostRuntime) -> Result<(), Fail> {
    let graph = by_every_call(&rt, rt.alloc())?;
    assert_eq!(rt; (graph.props().len(), graph.hosts().len()), (1, 2));
    assert_eq!(rt; (graph.spans().len(), graph.nodes().len()), (1, 3));
    assert_eq!(rt; graph.props()[0].width, Width::W16);
    assert_eq!(rt; graph.spans()[0].name.bytes(), b"body".as_slice());
    assert!(rt; !graph.hosts()[0].value && graph.hosts()[1].value);
    assert_eq!(rt; (graph.entry(), graph.finish_rule()), (2, Some((0, 0))));
    let Kind::Match {
        fold,
        keys,
        peeks,
        other,
    } = &graph.nodes()[2].kind
    else {
        return Err(Fail::from("no match node"));
    };
    let skip = Other {
        skip: true,
        target: 2,
    };
    assert_eq!(rt; (*fold, *other), (Fold::Lower, skip));
    assert_eq!(rt; keys.items().len(), 4);
    let key = &keys.items()[1];
    assert_eq!(rt;
        (key.bytes.items(), key.number, key.target),
        (b"ab".as_slice(), Some(255), 1)
    );
    let peek = Peek {
        byte: b'y',
        target: 0,
    };
    assert_eq!(rt; peeks.items().len(), 3);
    assert_eq!(rt; peeks.items()[1], peek);
    Ok(())
}

// Where a code has no most, it is the greatest value of its property.
#[test]
fn a_most_that_is_not_given_is_that_of_the_property(rt: HostRuntime) -> Result<(), Fail> {
    let graph = by_every_call(&rt, rt.alloc())?;
    assert_eq!(rt; graph.nodes().len(), 3);
    let Kind::Invoke { code, .. } = &graph.nodes()[1].kind else {
        return Err(Fail::from("no invoke node"));
    };
    let most = Code::MulAdd {
        prop: 0,
        base: 10,
        max: 65535,
    };
    assert_eq!(rt; *code, most);
    Ok(())
}

#[test]
fn a_builder_tells_its_last_node(rt: HostRuntime) -> Result<(), Fail> {
    let mut builder = GraphBuilder::new(rt.alloc());
    builder.entry("a")?;
    assert_eq!(rt;
        (builder.last_node(), builder.has_otherwise()),
        (LastNode::None, false)
    );
    builder.node("a", KindText::Match { fold: Fold::Same })?;
    assert_eq!(rt;
        (builder.last_node(), builder.has_otherwise()),
        (LastNode::Match, false)
    );
    builder.otherwise("a")?;
    assert_eq!(rt;
        (builder.last_node(), builder.has_otherwise()),
        (LastNode::Match, true)
    );
    let code = CodeText::Call { host: "hit" };
    builder.node("b", KindText::Invoke { code })?;
    assert_eq!(rt;
        (builder.last_node(), builder.has_otherwise()),
        (LastNode::Invoke, false)
    );
    builder.node("c", KindText::SpanOpen { span: "s" })?;
    assert_eq!(rt; builder.last_node(), LastNode::Other);
    builder.node(
        "d",
        KindText::Fail {
            code: 1,
            reason: "x",
        },
    )?;
    assert_eq!(rt; builder.last_node(), LastNode::Fail);
    Ok(())
}

// A text, and whether it has the form of a name and of a reason.
const FORMS: [(&str, bool, bool); 12] = [
    ("", false, false),
    ("_a1", true, true),
    ("a-b", false, true),
    ("1a", false, true),
    (" ~", false, true),
    ("a\"b", false, false),
    ("a\\b", false, false),
    ("a\tb", false, false),
    ("a2345678901234567890123456789012", true, true),
    ("a23456789012345678901234567890123", false, true),
    (
        "12345678901234567890123456789012345678901234567890123456789012345678901234567890",
        false,
        true,
    ),
    (
        "123456789012345678901234567890123456789012345678901234567890123456789012345678901",
        false,
        false,
    ),
];

#[test]
fn names_and_reasons_have_a_form(rt: HostRuntime) -> Result<(), Fail> {
    for (text, name, reason) in FORMS {
        let text = text.as_bytes();
        assert_eq!(rt;
            (is_name(text), is_reason(text)),
            (name, reason),
            "{text:?}"
        );
        assert!(rt; text.len() < 256);
        assert_eq!(rt; Name::new(rt.alloc(), text)?.bytes(), text);
        assert_eq!(rt; Reason::new(rt.alloc(), text)?.bytes(), text);
    }
    Ok(())
}

#[test]
fn faults_of_graphs_have_a_text(rt: HostRuntime) -> Result<(), Fail> {
    for (rule, want) in [
        (GraphRule::DuplicateName, "call 3: duplicate name"),
        (GraphRule::UnknownName, "call 3: unknown name"),
        (GraphRule::NoEntry, "call 3: no entry"),
        (GraphRule::NoOtherwise, "call 3: no otherwise"),
        (GraphRule::KeyClash, "call 3: key clash"),
        (GraphRule::PrefixGap, "call 3: prefix gap"),
        (GraphRule::ValueTarget, "call 3: value target"),
        (GraphRule::ValueTooWide, "call 3: value too wide"),
        (GraphRule::EmptyKey, "call 3: empty key"),
        (GraphRule::KeyNotFolded, "call 3: key not folded"),
        (GraphRule::TooMany, "call 3: too many"),
    ] {
        let fault = GraphFault::Broken { rule, call: 3 };
        assert_eq!(rt; format!(in rt.alloc(); "{fault}")?.as_str(), want);
    }
    let text = format!(in rt.alloc(); "{}", GraphFault::NoMemory)?;
    assert_eq!(rt; text.as_str(), "out of memory");
    Ok(())
}

// A builder's fault has the number of the call, of which a set has one for each byte; a want of an entry has their count.
#[test]
fn a_broken_rule_is_told_with_its_call(rt: HostRuntime) -> Result<(), Fail> {
    let mut builder = GraphBuilder::new(rt.alloc());
    builder.node("asked", KindText::Match { fold: Fold::Same })?;
    builder.otherwise("asked")?;
    let want = GraphFault::Broken {
        rule: GraphRule::NoEntry,
        call: 2,
    };
    assert_eq!(rt; builder.close().err(), Some(want));
    let mut builder = GraphBuilder::new(rt.alloc());
    builder.entry("asked")?;
    builder.node("asked", KindText::Match { fold: Fold::Same })?;
    builder.otherwise("asked")?;
    add_keys(&rt, &mut builder, b"abc")?;
    builder.entry("asked")?;
    let want = GraphFault::Broken {
        rule: GraphRule::DuplicateName,
        call: 6,
    };
    assert_eq!(rt; builder.close().err(), Some(want));
    Ok(())
}
