// The push engine.
ghost use Rattle.std.specs.Prelude.{◌≡◌, ◌<◌, ◌^◌, length};

mod cuts;

use crate::clean::finished;
use crate::graphs::{CONSUMES, DIGITS, HITS, SPANS, graph_of};
use pp_engine::{FinishOutcome, NotPaused, Outcome, Parser, SetFault, Standing};
use pp_event::{Event, Host, Props, Recorded, Reply, Script, ScriptEntry, ScriptTo, Scripted};
use pp_outside::Steps;
use pp_program::Verified;
use std::alloc::Global;
use std::marker::Brand;
use std::process::Abort;
use std::sync::ledger::{Blank, Ledger};
use std::test::Fail;

// Two keys, one of which begins the other, with a call for each.
pub(crate) const CALLED_KEYS: &str =
    "host ab match;host abc match;entry s;node s match;on \"ab\" -> x;on \"abc\" -> y;else -> bad;node x call ab;else -> s;node y call abc;else -> s;node bad error 1 \"bad\"";

// One key, which leads back.
pub(crate) const FOUR: &str =
    "entry s;node s match;on \"abcd\" -> s;else -> bad;node bad error 2 \"no\"";

// A span in another one, both of the same bytes.
pub(crate) const NESTED: &str =
    "span v;span w;entry o;node o open v;else -> q;node q open w;else -> r;node r match;on \"a\" -> r;peek \".\" -> k;else -> bad;node k close w;else -> l;node l close v;else -> z;node z match;skip -> z;node bad error 1 \"bad\"";

// By the property it may end, or asks first, or may not end.
const FINISHES: &str = "prop end u8;host may match;finish end may;entry s;node s match;skip -> s";

// A call of a parser, with what it answers.
#[derive(Clone, Copy)]
enum Act<'a> {
    Feed(&'a [u8], Outcome),
    Resume(Result<(), NotPaused>),
    Finish(FinishOutcome),
}

// A call, and behind it: how many bytes were taken, where the first span was opened, if it is open, and how many events
// there were.
type Step<'a> = (Act<'a>, u64, Option<u64>, usize);

// An event that is wanted. The value of the first property is 0 where there is none.
#[derive(Clone, Copy)]
enum Told {
    Call {
        code: u32,
        value: u64,
        at: u64,
        first: u64,
        answer: u32,
    },
    Piece {
        span: u32,
        at: u64,
        part: &'static [u8],
        last: bool,
        answer: u32,
    },
}

// The calls of one parser, and at the end: all events, how it stands, and its reason.
#[derive(Clone, Copy)]
struct Session {
    name: &'static str,
    graph: &'static str,
    sets: &'static [(u32, u64)],
    entries: &'static [ScriptEntry],
    steps: &'static [Step<'static>],
    told: &'static [Told],
    stands: Standing,
    reason: &'static str,
}

// Keys and calls. Each session runs a parser of its own from the beginning.
const KEYS: [Session; 5] = [
    Session {
        name: "a parser that was never fed is ready",
        graph: HITS,
        sets: &[],
        entries: &[],
        steps: &[],
        told: &[],
        stands: Standing::Ready,
        reason: "",
    },
    Session {
        name: "a call between pieces of one byte",
        graph: HITS,
        sets: &[],
        entries: &[],
        steps: &[
            (Act::Feed(b"b", Outcome::Waits), 1, None, 0),
            (Act::Feed(b"a", Outcome::Waits), 2, None, 1),
            (Act::Feed(b"b", Outcome::Waits), 3, None, 1),
        ],
        told: &[Told::Call {
            code: 0,
            value: 0,
            at: 2,
            first: 0,
            answer: 0,
        }],
        stands: Standing::Waiting { node: 0 },
        reason: "",
    },
    Session {
        name: "a key is taken once no longer one can come",
        graph: CALLED_KEYS,
        sets: &[],
        entries: &[],
        steps: &[
            (Act::Feed(b"ab", Outcome::Waits), 2, None, 0),
            (
                Act::Feed(b"x", Outcome::Failed { code: 1, at: 2 }),
                2,
                None,
                1,
            ),
        ],
        told: &[Told::Call {
            code: 0,
            value: 0,
            at: 2,
            first: 0,
            answer: 0,
        }],
        stands: Standing::Failed { code: 1 },
        reason: "bad",
    },
    Session {
        name: "the longest key is taken",
        graph: CALLED_KEYS,
        sets: &[],
        entries: &[],
        steps: &[(Act::Feed(b"abc", Outcome::Waits), 3, None, 1)],
        told: &[Told::Call {
            code: 1,
            value: 0,
            at: 3,
            first: 0,
            answer: 0,
        }],
        stands: Standing::Waiting { node: 0 },
        reason: "",
    },
    Session {
        name: "a half key is not given back, and an error is the end",
        graph: FOUR,
        sets: &[],
        entries: &[],
        steps: &[
            (Act::Feed(b"ab", Outcome::Waits), 2, None, 0),
            (
                Act::Feed(b"x", Outcome::Failed { code: 2, at: 2 }),
                2,
                None,
                0,
            ),
            (Act::Feed(b"x", Outcome::AlreadyFailed), 2, None, 0),
            (Act::Resume(Err(NotPaused)), 2, None, 0),
            (Act::Finish(FinishOutcome::AlreadyFailed), 2, None, 0),
        ],
        told: &[],
        stands: Standing::Failed { code: 2 },
        reason: "no",
    },
];

// Spans, numbers and a consume.
const SPANNED: [Session; 5] = [
    Session {
        name: "a span over two pieces",
        graph: SPANS,
        sets: &[],
        entries: &[],
        steps: &[
            (Act::Feed(b"abc", Outcome::Waits), 3, Some(0), 1),
            (Act::Feed(b"d", Outcome::Waits), 4, None, 2),
        ],
        told: &[
            Told::Piece {
                span: 0,
                at: 0,
                part: b"abc",
                last: false,
                answer: 0,
            },
            Told::Piece {
                span: 0,
                at: 3,
                part: b"",
                last: true,
                answer: 0,
            },
        ],
        stands: Standing::Waiting { node: 3 },
        reason: "",
    },
    Session {
        name: "the parts of two spans come in their order",
        graph: NESTED,
        sets: &[],
        entries: &[],
        steps: &[
            (Act::Feed(b"aa", Outcome::Waits), 2, Some(0), 2),
            (Act::Feed(b".", Outcome::Waits), 3, None, 4),
        ],
        told: &[
            Told::Piece {
                span: 0,
                at: 0,
                part: b"aa",
                last: false,
                answer: 0,
            },
            Told::Piece {
                span: 1,
                at: 0,
                part: b"aa",
                last: false,
                answer: 0,
            },
            Told::Piece {
                span: 1,
                at: 2,
                part: b"",
                last: true,
                answer: 0,
            },
            Told::Piece {
                span: 0,
                at: 2,
                part: b"",
                last: true,
                answer: 0,
            },
        ],
        stands: Standing::Waiting { node: 5 },
        reason: "",
    },
    Session {
        name: "a number past the most is told, and the property stays",
        graph: DIGITS,
        sets: &[],
        entries: &[],
        steps: &[(Act::Feed(b"256", Outcome::Waits), 3, None, 1)],
        told: &[Told::Call {
            code: 0,
            value: 0,
            at: 3,
            first: 25,
            answer: 0,
        }],
        stands: Standing::Waiting { node: 0 },
        reason: "",
    },
    Session {
        name: "the most is no more than the most",
        graph: DIGITS,
        sets: &[],
        entries: &[],
        steps: &[(Act::Feed(b"255", Outcome::Waits), 3, None, 0)],
        told: &[],
        stands: Standing::Waiting { node: 0 },
        reason: "",
    },
    Session {
        name: "a consume waits",
        graph: CONSUMES,
        sets: &[(0, u64::MAX)],
        entries: &[],
        steps: &[(Act::Feed(b"aaa", Outcome::Waits), 3, None, 0)],
        told: &[],
        stands: Standing::Waiting { node: 0 },
        reason: "",
    },
];

// Stops and pauses.
const HELD: [Session; 4] = [
    Session {
        name: "a piece that is answered 7 stops the parser",
        graph: SPANS,
        sets: &[],
        entries: &[
            ScriptEntry {
                to: ScriptTo::Span(0),
                answer: 0,
            },
            ScriptEntry {
                to: ScriptTo::Span(0),
                answer: 7,
            },
        ],
        steps: &[
            (Act::Feed(b"a", Outcome::Waits), 1, Some(0), 1),
            (
                Act::Feed(b"b", Outcome::Stopped { answer: 7, at: 2 }),
                2,
                Some(0),
                2,
            ),
            (Act::Feed(b"c", Outcome::AlreadyFailed), 2, Some(0), 2),
        ],
        told: &[
            Told::Piece {
                span: 0,
                at: 0,
                part: b"a",
                last: false,
                answer: 0,
            },
            Told::Piece {
                span: 0,
                at: 1,
                part: b"b",
                last: false,
                answer: 7,
            },
        ],
        stands: Standing::Stopped { answer: 7 },
        reason: "",
    },
    Session {
        name: "a pause in a span, and the bytes behind it",
        graph: SPANS,
        sets: &[],
        entries: &[],
        steps: &[
            (
                Act::Feed(b"a!b", Outcome::Paused { code: 21, taken: 2 }),
                2,
                Some(0),
                1,
            ),
            (Act::Resume(Ok(())), 2, Some(0), 1),
            (Act::Feed(b"bc", Outcome::Waits), 4, Some(0), 2),
            (Act::Feed(b"d", Outcome::Waits), 5, None, 3),
        ],
        told: &[
            Told::Piece {
                span: 0,
                at: 0,
                part: b"a!",
                last: false,
                answer: 0,
            },
            Told::Piece {
                span: 0,
                at: 2,
                part: b"bc",
                last: false,
                answer: 0,
            },
            Told::Piece {
                span: 0,
                at: 4,
                part: b"",
                last: true,
                answer: 0,
            },
        ],
        stands: Standing::Waiting { node: 3 },
        reason: "held",
    },
    Session {
        name: "a pause that is not resumed",
        graph: SPANS,
        sets: &[],
        entries: &[],
        steps: &[
            (
                Act::Feed(b"a!b", Outcome::Paused { code: 21, taken: 2 }),
                2,
                Some(0),
                1,
            ),
            (Act::Feed(b"c", Outcome::StillPaused), 2, Some(0), 1),
            (Act::Finish(FinishOutcome::StillPaused), 2, Some(0), 1),
        ],
        told: &[Told::Piece {
            span: 0,
            at: 0,
            part: b"a!",
            last: false,
            answer: 0,
        }],
        stands: Standing::Paused { node: 5, code: 21 },
        reason: "held",
    },
    Session {
        name: "a pause, and the end behind it",
        graph: SPANS,
        sets: &[],
        entries: &[],
        steps: &[
            (
                Act::Feed(b"a!b", Outcome::Paused { code: 21, taken: 2 }),
                2,
                Some(0),
                1,
            ),
            (Act::Feed(b"c", Outcome::StillPaused), 2, Some(0), 1),
            (Act::Resume(Ok(())), 2, Some(0), 1),
            (Act::Feed(b"bc", Outcome::Waits), 4, Some(0), 2),
            (Act::Resume(Err(NotPaused)), 4, Some(0), 2),
            (Act::Finish(FinishOutcome::Done), 4, Some(0), 2),
            (Act::Feed(b"", Outcome::AlreadyFinished), 4, Some(0), 2),
            (Act::Finish(FinishOutcome::AlreadyFinished), 4, Some(0), 2),
        ],
        told: &[
            Told::Piece {
                span: 0,
                at: 0,
                part: b"a!",
                last: false,
                answer: 0,
            },
            Told::Piece {
                span: 0,
                at: 2,
                part: b"bc",
                last: false,
                answer: 0,
            },
        ],
        stands: Standing::Finished,
        reason: "held",
    },
];

// Ends by the finish rule.
const ENDED: [Session; 5] = [
    Session {
        name: "at 0 the end is free",
        graph: FINISHES,
        sets: &[],
        entries: &[ScriptEntry {
            to: ScriptTo::Code(0),
            answer: 9,
        }],
        steps: &[
            (Act::Feed(b"ab", Outcome::Waits), 2, None, 0),
            (Act::Finish(FinishOutcome::Done), 2, None, 0),
            (Act::Feed(b"c", Outcome::AlreadyFinished), 2, None, 0),
        ],
        told: &[],
        stands: Standing::Finished,
        reason: "",
    },
    Session {
        name: "at 1 the end is asked for, and answered 0",
        graph: FINISHES,
        sets: &[(0, 1)],
        entries: &[],
        steps: &[
            (Act::Feed(b"ab", Outcome::Waits), 2, None, 0),
            (Act::Finish(FinishOutcome::Done), 2, None, 1),
            (Act::Finish(FinishOutcome::AlreadyFinished), 2, None, 1),
        ],
        told: &[Told::Call {
            code: 0,
            value: 0,
            at: 2,
            first: 1,
            answer: 0,
        }],
        stands: Standing::Finished,
        reason: "",
    },
    Session {
        name: "at 1 the end is asked for, and answered 9",
        graph: FINISHES,
        sets: &[(0, 1)],
        entries: &[ScriptEntry {
            to: ScriptTo::Code(0),
            answer: 9,
        }],
        steps: &[
            (Act::Feed(b"ab", Outcome::Waits), 2, None, 0),
            (
                Act::Finish(FinishOutcome::Refused { answer: 9 }),
                2,
                None,
                1,
            ),
            (Act::Finish(FinishOutcome::AlreadyFailed), 2, None, 1),
        ],
        told: &[Told::Call {
            code: 0,
            value: 0,
            at: 2,
            first: 1,
            answer: 9,
        }],
        stands: Standing::Refused { answer: 9 },
        reason: "",
    },
    Session {
        name: "at 2 there is no end",
        graph: FINISHES,
        sets: &[(0, 2)],
        entries: &[],
        steps: &[
            (Act::Feed(b"ab", Outcome::Waits), 2, None, 0),
            (Act::Finish(FinishOutcome::Unsafe { at: 2 }), 2, None, 0),
            (Act::Feed(b"c", Outcome::AlreadyFailed), 2, None, 0),
        ],
        told: &[],
        stands: Standing::Unsafe,
        reason: "",
    },
    Session {
        name: "the end may come before any byte",
        graph: FINISHES,
        sets: &[],
        entries: &[],
        steps: &[(Act::Finish(FinishOutcome::Done), 0, None, 0)],
        told: &[],
        stands: Standing::Finished,
        reason: "",
    },
];

// No parser of a test comes further.
const MOST: u64 = 4_294_967_296;

// A feed. No test comes near the places where there may be none.
fn fed<'a, H: Host<'a>, L: Ledger>(
    parser: &mut Parser<'_>,
    input: &'a [u8],
    host: &mut H,
    steps: &mut Steps<L>,
) -> Result<Outcome, Fail>
    ensures { parser.new.program ≡ parser.old.program }
{
    if parser.offset() > MOST || input.len() as u64 > MOST {
        return Err(Fail::from("too far"));
    }
    Ok(parser.feed(input, host, steps))
}

// Makes the call, which answers as it is to.
fn assert_act<'a, H: Host<'a>, L: Ledger>(
    rt: &impl Abort,
    parser: &mut Parser<'_>,
    host: &mut H,
    steps: &mut Steps<L>,
    act: Act<'a>,
) -> Result<(), Fail> {
    match act {
        Act::Feed(input, outcome) => {
            assert_eq!(rt; fed(parser, input, host, steps)?, outcome);
        }
        Act::Resume(outcome) => {
            assert_eq!(rt; parser.resume(), outcome);
        }
        Act::Finish(outcome) => {
            assert_eq!(rt; parser.finish(host), outcome);
        }
    }
    Ok(())
}

// Where the first span was opened, if it is open.
fn first_open(parser: &Parser<'_>) -> Option<u64> {
    if parser.opened() % 2 == 1 {
        Some(parser.from_of(0))
    } else {
        None
    }
}

// The value of the first property, or 0.
pub(crate) fn first_of(props: &Props) -> u64 {
    if props.is_empty() { 0 } else { props.get(0) }
}

// Whether the event is the wanted one.
fn is_told(event: &Event<'_>, told: &Told) -> bool {
    match (event, told) {
        (
            Event::Call {
                code,
                value,
                at,
                props,
                answer,
            },
            Told::Call {
                code: code_told,
                value: value_told,
                at: at_told,
                first,
                answer: answer_told,
            },
        ) => {
            code == code_told
                && value == value_told
                && at == at_told
                && first_of(props) == *first
                && answer == answer_told
        }
        (
            Event::Piece {
                span,
                at,
                part,
                last,
                answer,
            },
            Told::Piece {
                span: span_told,
                at: at_told,
                part: part_told,
                last: last_told,
                answer: answer_told,
            },
        ) => {
            span == span_told
                && at == at_told
                && *part == *part_told
                && last == last_told
                && answer == answer_told
        }
        _ => false,
    }
}

// The log has these events.
fn assert_log(rt: &impl Abort, name: &str, log: &[Event<'_>], told: &[Told]) -> Result<(), Fail> {
    assert_eq!(rt; log.len(), told.len(), "{name}");
    for (event, wanted) in log.iter().zip(told) {
        assert!(rt; is_told(event, wanted), "{name}");
    }
    Ok(())
}

// Makes the calls, one after the other, and looks behind each.
fn assert_steps<'a, L: Ledger>(
    rt: &impl Abort,
    name: &str,
    parser: &mut Parser<'_>,
    host: &mut Recorded<'a, Scripted<'_>>,
    steps: &mut Steps<L>,
    acts: &[Step<'a>],
) -> Result<(), Fail> {
    for (act, at, open, count) in acts {
        assert_act(rt, parser, host, steps, *act)?;
        assert_eq!(rt;
            (parser.offset(), first_open(parser), host.log().len()),
            (*at, *open, *count),
            "{name}"
        );
    }
    Ok(())
}

// Makes the calls of a session on its program.
fn assert_calls<L: Ledger>(
    rt: &impl Abort,
    alloc: Global,
    program: &Verified,
    session: &Session,
    blank: Blank,
) -> Result<(), Fail>
    requires name { blank.name ≡ L.name }
    requires parts { blank.parts ≡ L.parts }
    requires some { 0 < blank.parts }
{
    let name = session.name;
    if session.sets.len() > 2 {
        return Err(Fail::from("too many sets"));
    }
    let script = Script::new(alloc, session.entries)?;
    let mut host = Recorded::new(alloc, Scripted::new(&script));
    let mut steps = Steps::<L>::new(blank);
    let mut parser = Parser::new(program, session.sets)?;
    assert_steps(rt, name, &mut parser, &mut host, &mut steps, session.steps)?;
    assert_eq!(rt; parser.standing(), session.stands, "{name}");
    assert_eq!(rt; parser.reason(), session.reason.as_bytes(), "{name}");
    assert_log(rt, name, host.log(), session.told)
}

// Runs a session.
fn assert_session<L: Ledger>(
    rt: &impl Abort,
    alloc: Global,
    session: &Session,
    blank: Blank,
) -> Result<(), Fail>
    requires name { blank.name ≡ L.name }
    requires parts { blank.parts ≡ L.parts }
    requires some { 0 < blank.parts }
{
    let program = finished(alloc, graph_of(alloc, session.graph)?)?;
    assert_calls::<L>(rt, alloc, &program, session, blank)
}

#[test]
fn keys_and_calls_come_in_pieces(rt: HostRuntime) -> Result<(), Fail> {
    for session in KEYS {
        assert_session::<Brand>(&rt, rt.alloc(), &session, Blank::new(1))?;
    }
    Ok(())
}

#[test]
fn spans_and_numbers_come_in_pieces(rt: HostRuntime) -> Result<(), Fail> {
    for session in SPANNED {
        assert_session::<Brand>(&rt, rt.alloc(), &session, Blank::new(1))?;
    }
    Ok(())
}

#[test]
fn stops_and_pauses_hold_a_parser(rt: HostRuntime) -> Result<(), Fail> {
    for session in HELD {
        assert_session::<Brand>(&rt, rt.alloc(), &session, Blank::new(1))?;
    }
    Ok(())
}

#[test]
fn ends_go_by_the_finish_rule(rt: HostRuntime) -> Result<(), Fail> {
    for session in ENDED {
        assert_session::<Brand>(&rt, rt.alloc(), &session, Blank::new(1))?;
    }
    Ok(())
}

// A graph with a property, sets, a string, and the value of the property behind it.
#[derive(Clone, Copy)]
struct Value {
    graph: &'static str,
    sets: &'static [(u32, u64)],
    bytes: &'static [u8],
    value: u64,
}

const VALUES: [Value; 6] = [
    Value {
        graph: DIGITS,
        sets: &[],
        bytes: b"256",
        value: 25,
    },
    Value {
        graph: DIGITS,
        sets: &[],
        bytes: b"255",
        value: 255,
    },
    Value {
        graph: CONSUMES,
        sets: &[(0, u64::MAX)],
        bytes: b"aaa",
        value: 18_446_744_073_709_551_612,
    },
    Value {
        graph: CONSUMES,
        sets: &[(0, 9), (0, 5)],
        bytes: b"",
        value: 5,
    },
    Value {
        graph: CONSUMES,
        sets: &[(0, 5), (0, 9)],
        bytes: b"aa",
        value: 7,
    },
    Value {
        graph: DIGITS,
        sets: &[(0, 255), (0, 7)],
        bytes: b"",
        value: 7,
    },
];

// The first property has its value behind the string.
fn assert_value<L: Ledger>(
    rt: &impl Abort,
    alloc: Global,
    row: &Value,
    blank: Blank,
) -> Result<(), Fail>
    requires name { blank.name ≡ L.name }
    requires parts { blank.parts ≡ L.parts }
    requires some { 0 < blank.parts }
{
    let program = finished(alloc, graph_of(alloc, row.graph)?)?;
    if row.sets.len() > 2 || program.props() == 0 {
        return Err(Fail::from("too many sets, or no property"));
    }
    let script = Script::new(alloc, &[])?;
    let mut host = Scripted::new(&script);
    let mut steps = Steps::<L>::new(blank);
    let mut parser = Parser::new(&program, row.sets)?;
    assert_eq!(rt;
        fed(&mut parser, row.bytes, &mut host, &mut steps)?,
        Outcome::Waits
    );
    assert_eq!(rt; parser.prop(0), row.value);
    Ok(())
}

#[test]
fn a_property_has_its_value(rt: HostRuntime) -> Result<(), Fail> {
    for row in VALUES {
        assert_value::<Brand>(&rt, rt.alloc(), &row, Blank::new(1))?;
    }
    Ok(())
}

// Sets that are wrong, and how.
const WRONG_SETS: [(&str, &[(u32, u64)], SetFault); 4] = [
    (HITS, &[(0, 1)], SetFault::UnknownProp { set: 0 }),
    (DIGITS, &[(0, 255), (0, 256)], SetFault::TooWide { set: 1 }),
    (DIGITS, &[(0, 256), (0, 1)], SetFault::TooWide { set: 0 }),
    (DIGITS, &[(0, 0), (1, 0)], SetFault::UnknownProp { set: 1 }),
];

#[test]
fn the_first_wrong_set_is_told(rt: HostRuntime) -> Result<(), Fail> {
    for (graph, sets, fault) in WRONG_SETS {
        if sets.len() > 2 {
            return Err(Fail::from("too many sets"));
        }
        let program = finished(rt.alloc(), graph_of(rt.alloc(), graph)?)?;
        let found = Parser::new(&program, sets).err().ok_or("a parser is made")?;
        assert_eq!(rt; found, fault);
    }
    Ok(())
}

// A host that refuses every question.
#[derive(Debug, Drop)]
struct Refusing {
    refused: u64,
}

impl<'a> Host<'a> for Refusing {
    ghost use Rattle.std.specs.Prelude.{None};

    ghost View = { Unit {0} };

    ghost shown = { λ s. record { log = None; refusals = s.refused; view = tt } };

    ghost allows = { λ v e. Unit {0} };

    ghost next = { λ v e. v };

    fn call(&mut self, _code: u32, _value: u64, _at: u64, _props: &Props) -> Reply {
        self.refused = self.refused.saturating_add(1);
        Reply::NoMemory
    }

    fn piece(&mut self, _span: u32, _part: &'a [u8], _at: u64, _last: bool) -> Reply {
        self.refused = self.refused.saturating_add(1);
        Reply::NoMemory
    }
}

// A graph, sets, and calls of a parser whose host refuses, with the number of refusals.
const REFUSALS: [(&str, &[(u32, u64)], &[Act<'static>], u64); 4] = [
    (
        HITS,
        &[],
        &[
            Act::Feed(b"bab", Outcome::HostOut),
            Act::Feed(b"b", Outcome::AlreadyFailed),
            Act::Finish(FinishOutcome::AlreadyFailed),
        ],
        1,
    ),
    (
        SPANS,
        &[],
        &[
            Act::Feed(b"ab", Outcome::HostOut),
            Act::Feed(b"b", Outcome::AlreadyFailed),
            Act::Resume(Err(NotPaused)),
        ],
        1,
    ),
    (
        SPANS,
        &[],
        &[
            Act::Feed(b"", Outcome::Waits),
            Act::Feed(b"!b", Outcome::HostOut),
            Act::Resume(Err(NotPaused)),
        ],
        1,
    ),
    (
        FINISHES,
        &[(0, 1)],
        &[
            Act::Feed(b"ab", Outcome::Waits),
            Act::Finish(FinishOutcome::HostOut),
            Act::Finish(FinishOutcome::AlreadyFailed),
        ],
        1,
    ),
];

// Makes the calls of a parser whose host refuses each question, and counts the refusals.
fn refusals_of<L: Ledger>(
    rt: &impl Abort,
    program: &Verified,
    sets: &[(u32, u64)],
    acts: &[Act<'static>],
    blank: Blank,
) -> Result<u64, Fail>
    requires name { blank.name ≡ L.name }
    requires parts { blank.parts ≡ L.parts }
    requires some { 0 < blank.parts }
    requires sets { length sets.now < 2 ^ 32 }
{
    let mut host = Refusing { refused: 0 };
    let mut steps = Steps::<L>::new(blank);
    let mut parser = Parser::new(program, sets)?;
    for act in acts {
        assert_act(rt, &mut parser, &mut host, &mut steps, *act)?;
    }
    assert_eq!(rt; parser.standing(), Standing::Spent);
    Ok(host.refused)
}

#[test]
fn a_refusal_is_the_end(rt: HostRuntime) -> Result<(), Fail> {
    for (graph, sets, acts, count) in REFUSALS {
        if sets.len() > 2 {
            return Err(Fail::from("too many sets"));
        }
        let program = finished(rt.alloc(), graph_of(rt.alloc(), graph)?)?;
        let found = refusals_of::<Brand>(&rt, &program, sets, acts, Blank::new(1))?;
        assert_eq!(rt; found, count);
    }
    Ok(())
}

#[test]
fn faults_have_a_text(rt: HostRuntime) -> Result<(), Fail> {
    for (fault, want) in [
        (SetFault::UnknownProp { set: 3 }, "set 3 names no property"),
        (
            SetFault::TooWide { set: 0 },
            "set 0 has a value too wide for its property",
        ),
    ] {
        assert_eq!(rt; format!(in rt.alloc(); "{fault}")?.as_str(), want);
    }
    assert_eq!(rt;
        format!(in rt.alloc(); "{NotPaused}")?.as_str(),
        "the parser is not paused"
    );
    Ok(())
}
