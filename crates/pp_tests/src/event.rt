// Hosts, scripts and joining.
ghost use Rattle.std.specs.Prelude.{◌<◌};

use pp_event::{
    Event, Host, Item, Joiner, Props, Recorded, Reply, Script, ScriptEntry, ScriptTo, Scripted,
    Spans, laws,
};
use std::alloc::Global;
use std::test::Fail;

const CODE: ScriptTo = ScriptTo::Code(3);

const SPAN: ScriptTo = ScriptTo::Span(0);

// Two answers for a code, and between them two for a span.
const ENTRIES: [ScriptEntry; 4] = [
    ScriptEntry {
        to: CODE,
        answer: 5,
    },
    ScriptEntry {
        to: SPAN,
        answer: 0,
    },
    ScriptEntry {
        to: SPAN,
        answer: 7,
    },
    ScriptEntry {
        to: CODE,
        answer: 6,
    },
];

// Which answer comes when.
const ANSWERS: [(ScriptTo, u64, u32); 7] = [
    (CODE, 0, 5),
    (CODE, 1, 6),
    (CODE, 2, 0),
    (CODE, u64::MAX, 0),
    (SPAN, 1, 7),
    (ScriptTo::Code(0), 0, 0),
    (ScriptTo::Span(3), 0, 0),
];

#[test]
fn a_script_answers_each_code_and_span_in_order(rt: HostRuntime) -> Result<(), Fail> {
    let script = Script::new(rt.alloc(), &ENTRIES)?;
    for (to, k, answer) in ANSWERS {
        assert_eq!(rt; script.answer(to, k), answer, "entry {k}");
    }
    let mut host = Scripted::new(&script);
    let props = Props::none();
    for answer in [5, 6, 0, 0] {
        assert_eq!(rt; host.call(3, 0, 0, &props), Reply::Is(answer));
    }
    for answer in [0, 7, 0] {
        assert_eq!(rt; host.piece(0, b"a", 0, false), Reply::Is(answer));
    }
    Ok(())
}

#[test]
fn a_recorded_host_logs_what_it_was_asked(rt: HostRuntime) -> Result<(), Fail> {
    let script = Script::new(rt.alloc(), &ENTRIES)?;
    let mut props = Props::zeros(2);
    props.set(1, 9);
    let mut host = Recorded::new(rt.alloc(), Scripted::new(&script));
    assert_eq!(rt; host.call(3, 1, 2, &props), Reply::Is(5));
    assert_eq!(rt; host.log().len(), 1);
    let Event::Call {
        code,
        value,
        at,
        props,
        answer,
    } = &host.log()[0]
    else {
        return Err(Fail::from("no call"));
    };
    assert_eq!(rt; (*code, *value, *at, *answer), (3, 1, 2, 5));
    assert_eq!(rt;
        (props.len(), props.is_empty(), props.get(0), props.get(1)),
        (2, false, 0, 9)
    );
    assert_eq!(rt; host.piece(0, b"ab", 4, true), Reply::Is(0));
    let Event::Piece {
        span,
        at,
        part,
        last,
        answer,
    } = &host.log()[1]
    else {
        return Err(Fail::from("no piece"));
    };
    assert_eq!(rt; (*span, *at, *last, *answer), (0, 4, true, 0));
    assert_eq!(rt; *part, b"ab".as_slice());
    Ok(())
}

// A span of two pieces, one without bytes, and the open span behind it.
const PIECES: [(u64, &str, bool, Option<(u64, u64)>, &str); 4] = [
    (2, "ab", false, None, "ab"),
    (4, "c", true, Some((2, 5)), "abc"),
    (7, "", true, Some((7, 7)), ""),
    (9, "d", false, None, "d"),
];

#[test]
fn pieces_are_joined_to_spans(rt: HostRuntime) -> Result<(), Fail> {
    let mut joiner = Joiner::new(rt.alloc());
    for (at, part, last, span, bytes) in PIECES {
        let part = part.as_bytes();
        assert!(rt; at < 100 && part.len() < 100, "at {at}");
        let event = Event::Piece {
            span: 1,
            at,
            part,
            last,
            answer: 0,
        };
        let item = joiner.take(&event)?;
        let found = match item {
            Some(Item::Span { span: 1, from, to }) => Some((from, to)),
            _ => None,
        };
        assert_eq!(rt; found, span, "at {at}");
        assert_eq!(rt; joiner.bytes_of(1), bytes.as_bytes(), "at {at}");
    }
    assert_eq!(rt; joiner.bytes_of(0), b"".as_slice());
    let call = Event::Call {
        code: 3,
        value: 1,
        at: 2,
        props: Props::zeros(1),
        answer: 5,
    };
    let Some(
        Item::Call {
            code: 3,
            value: 1,
            at: 2,
            props,
            answer: 5,
        },
    ) = joiner.take(&call)?
    else {
        return Err(Fail::from("no call"));
    };
    assert_eq!(rt; props.copy().len(), 1);
    Ok(())
}

#[test]
fn spans_are_open_where_they_were_set(rt: HostRuntime) {
    let mut spans = Spans::shut(3);
    spans.set(1, Some(7));
    assert_eq!(rt;
        (spans.len(), spans.get(0), spans.get(1)),
        (3, None, Some(7))
    );
    spans.set(1, None);
    assert_eq!(rt; spans.get(1), None);
}

#[test]
fn laws_are_called(_rt: HostRuntime) {
    laws::at_most_one_result();
    laws::more_moves();
    laws::longer_strings();
    laws::ended_for_good();
    laws::goes_on();
    laws::one_more_resume();
    laws::same_answers();
    laws::same_beginnings();
    laws::lies_in_its_string();
    laws::waits_at_the_end();
    laws::pauses_at_the_end();
    laws::takes_join();
    laws::bytes_join();
}
