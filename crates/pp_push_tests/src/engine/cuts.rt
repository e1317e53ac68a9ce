// A string that is cut in any way gives the same events, once they are joined.
ghost use Rattle.std.specs.Prelude.{◌≡◌, ◌<◌};

use super::{CALLED_KEYS, FOUR, NESTED, fed, first_of};
use crate::clean::finished;
use crate::graphs::{ANSWERED, DIGITS, HITS, SPANS, graph_of};
use pp_engine::{Outcome, Parser};
use pp_event::{Event, Host, Item, Joiner, Recorded, Script, ScriptEntry, ScriptTo, Scripted};
use pp_outside::Steps;
use pp_program::Verified;
use std::alloc::Global;
use std::marker::Brand;
use std::process::Abort;
use std::sync::ledger::{Blank, Ledger};
use std::test::Fail;

// A digit says how many bytes follow it, which are a span.
const BODIES: &str =
    "prop n u8;span b;entry s;node s match;on \"2\" = 2 -> put;on \"3\" = 3 -> put;else -> bad;node put store n;else -> o;node o open b;else -> c;node c consume n;else -> k;node k close b;else -> s;node bad error 1 \"bad\"";

// Calls with a number behind each of two keys, one of which begins the other.
const NUMBERS: &str =
    "host h value;entry s;node s match;on \"a\" = 5 -> c;on \"ab\" = 7 -> c;skip -> s;node c call h;else -> s";

// Calls behind a word in any case.
const WORDS: &str =
    "host hit match;entry s;node s match lower;on \"get\" -> c;skip -> s;node c call hit;else -> s";

// What the joined events tell. The value of the first property is 0 where there is none.
#[derive(Clone, Copy, Debug, PartialEq, Eq)]
enum Line {
    Call {
        code: u32,
        value: u64,
        at: u64,
        first: u64,
        answer: u32,
    },
    Span {
        span: u32,
        from: u64,
        to: u64,
    },
}

// A graph and a string, with what its events tell, how the run ends, where, and how many pauses it passes.
#[derive(Clone, Copy)]
struct Whole {
    name: &'static str,
    graph: &'static str,
    entries: &'static [ScriptEntry],
    bytes: &'static [u8],
    lines: &'static [Line],
    end: Outcome,
    at: u64,
    pauses: u32,
}

// The lines come from the statements of the graphs, by hand.
const WHOLES: [Whole; 12] = [
    Whole {
        name: "calls behind bytes",
        graph: HITS,
        entries: &[],
        bytes: b"abacaab",
        lines: &[
            Line::Call {
                code: 0,
                value: 0,
                at: 1,
                first: 0,
                answer: 0,
            },
            Line::Call {
                code: 0,
                value: 0,
                at: 3,
                first: 0,
                answer: 0,
            },
            Line::Call {
                code: 0,
                value: 0,
                at: 5,
                first: 0,
                answer: 0,
            },
            Line::Call {
                code: 0,
                value: 0,
                at: 6,
                first: 0,
                answer: 0,
            },
        ],
        end: Outcome::Waits,
        at: 7,
        pauses: 0,
    },
    Whole {
        name: "the longest key, and an error",
        graph: CALLED_KEYS,
        entries: &[],
        bytes: b"ababcabx",
        lines: &[
            Line::Call {
                code: 0,
                value: 0,
                at: 2,
                first: 0,
                answer: 0,
            },
            Line::Call {
                code: 1,
                value: 0,
                at: 5,
                first: 0,
                answer: 0,
            },
            Line::Call {
                code: 0,
                value: 0,
                at: 7,
                first: 0,
                answer: 0,
            },
        ],
        end: Outcome::Failed { code: 1, at: 7 },
        at: 7,
        pauses: 0,
    },
    Whole {
        name: "a key over and over, and a half one",
        graph: FOUR,
        entries: &[],
        bytes: b"abcdabx",
        lines: &[],
        end: Outcome::Failed { code: 2, at: 6 },
        at: 6,
        pauses: 0,
    },
    Whole {
        name: "a span, and bytes behind it",
        graph: SPANS,
        entries: &[],
        bytes: b"abcadxyz",
        lines: &[Line::Span {
            span: 0,
            from: 0,
            to: 4,
        }],
        end: Outcome::Waits,
        at: 8,
        pauses: 0,
    },
    Whole {
        name: "two pauses in a span",
        graph: SPANS,
        entries: &[],
        bytes: b"a!b!cd",
        lines: &[Line::Span {
            span: 0,
            from: 0,
            to: 5,
        }],
        end: Outcome::Waits,
        at: 6,
        pauses: 2,
    },
    Whole {
        name: "an error in a span with a pause",
        graph: SPANS,
        entries: &[],
        bytes: b"ab!cx",
        lines: &[],
        end: Outcome::Failed { code: 1, at: 4 },
        at: 4,
        pauses: 1,
    },
    Whole {
        name: "numbers past the most",
        graph: DIGITS,
        entries: &[],
        bytes: b"25625",
        lines: &[
            Line::Call {
                code: 0,
                value: 0,
                at: 3,
                first: 25,
                answer: 0,
            },
            Line::Call {
                code: 0,
                value: 0,
                at: 5,
                first: 252,
                answer: 0,
            },
        ],
        end: Outcome::Waits,
        at: 5,
        pauses: 0,
    },
    Whole {
        name: "spans of told lengths, and an error",
        graph: BODIES,
        entries: &[],
        bytes: b"2ab3abcx",
        lines: &[
            Line::Span {
                span: 0,
                from: 1,
                to: 3,
            },
            Line::Span {
                span: 0,
                from: 4,
                to: 7,
            },
        ],
        end: Outcome::Failed { code: 1, at: 7 },
        at: 7,
        pauses: 0,
    },
    Whole {
        name: "calls that are answered",
        graph: ANSWERED,
        entries: &[
            ScriptEntry {
                to: ScriptTo::Code(0),
                answer: 0,
            },
            ScriptEntry {
                to: ScriptTo::Code(0),
                answer: 1,
            },
        ],
        bytes: b"baab",
        lines: &[
            Line::Call {
                code: 0,
                value: 0,
                at: 2,
                first: 0,
                answer: 0,
            },
            Line::Call {
                code: 0,
                value: 0,
                at: 3,
                first: 0,
                answer: 1,
            },
        ],
        end: Outcome::Failed { code: 9, at: 3 },
        at: 3,
        pauses: 0,
    },
    Whole {
        name: "numbers that keys carry",
        graph: NUMBERS,
        entries: &[],
        bytes: b"axabcxa",
        lines: &[
            Line::Call {
                code: 0,
                value: 5,
                at: 1,
                first: 0,
                answer: 0,
            },
            Line::Call {
                code: 0,
                value: 7,
                at: 4,
                first: 0,
                answer: 0,
            },
        ],
        end: Outcome::Waits,
        at: 7,
        pauses: 0,
    },
    Whole {
        name: "words in any case",
        graph: WORDS,
        entries: &[],
        bytes: b"GeTxgET",
        lines: &[
            Line::Call {
                code: 0,
                value: 0,
                at: 3,
                first: 0,
                answer: 0,
            },
            Line::Call {
                code: 0,
                value: 0,
                at: 7,
                first: 0,
                answer: 0,
            },
        ],
        end: Outcome::Waits,
        at: 7,
        pauses: 0,
    },
    Whole {
        name: "a span in a span",
        graph: NESTED,
        entries: &[],
        bytes: b"aa.b",
        lines: &[
            Line::Span {
                span: 1,
                from: 0,
                to: 2,
            },
            Line::Span {
                span: 0,
                from: 0,
                to: 2,
            },
        ],
        end: Outcome::Waits,
        at: 4,
        pauses: 0,
    },
];

// The line of an item.
fn line_of(item: &Item) -> Result<Line, Fail> {
    match item {
        Item::Call {
            code,
            value,
            at,
            props,
            answer,
        } => Ok(Line::Call {
            code: *code,
            value: *value,
            at: *at,
            first: first_of(props),
            answer: *answer,
        }),
        Item::Span { span, from, to } => Ok(Line::Span {
            span: *span,
            from: *from,
            to: *to,
        }),
        Item::Pause { .. } => Err(Fail::from("no event tells a pause")),
    }
}

// One event more for the joiner. The strings of the tests are short.
fn item_with(joiner: &mut Joiner, event: &Event<'_>) -> Result<Option<Item>, Fail> {
    if let Event::Piece { at, part, .. } = event {
        if *at > 100 || part.len() > 100 {
            return Err(Fail::from("too far"));
        }
    }
    Ok(joiner.take(event)?)
}

// The joined bytes of a span that a line tells are those of the string.
fn assert_bytes(rt: &impl Abort, whole: &Whole, joiner: &Joiner, line: Line) -> Result<(), Fail> {
    if let Line::Span { span, from, to } = line {
        let bytes = whole
            .bytes
            .get(from as usize..to as usize)
            .ok_or("no such bytes")?;
        assert_eq!(rt; joiner.bytes_of(span), bytes, "{}", whole.name);
    }
    Ok(())
}

// The log, joined, tells the lines of the whole string.
fn assert_lines(
    rt: &impl Abort,
    alloc: Global,
    whole: &Whole,
    log: &[Event<'_>],
) -> Result<(), Fail> {
    let mut joiner = Joiner::new(alloc);
    let mut lines = Vec::new(alloc);
    for event in log {
        if let Some(item) = item_with(&mut joiner, event)? {
            let line = line_of(&item)?;
            assert_bytes(rt, whole, &joiner, line)?;
            lines.push(line)?;
        }
    }
    assert_eq!(rt; lines.as_slice(), whole.lines, "{}", whole.name);
    Ok(())
}

// Feeds a piece, resumes at each pause, and counts these.
fn fed_on<'a, H: Host<'a>, L: Ledger>(
    parser: &mut Parser<'_>,
    piece: &'a [u8],
    host: &mut H,
    steps: &mut Steps<L>,
) -> Result<(Outcome, u32), Fail> {
    let mut rest = piece;
    for pauses in 0..9 {
        match fed(parser, rest, host, steps)? {
            Outcome::Paused { taken, .. } => {
                rest = rest.get(taken..).ok_or("more was taken than there is")?;
                parser.resume()?;
            }
            outcome => return Ok((outcome, pauses)),
        }
    }
    Err(Fail::from("too many pauses"))
}

// Feeds three pieces, up to an end before the last, and counts the pauses.
fn fed_three<'a, H: Host<'a>, L: Ledger>(
    parser: &mut Parser<'_>,
    pieces: [&'a [u8]; 3],
    host: &mut H,
    steps: &mut Steps<L>,
) -> Result<(Outcome, u32), Fail> {
    let mut pauses: u32 = 0;
    for piece in pieces {
        let (outcome, more) = fed_on(parser, piece, host, steps)?;
        pauses = pauses.checked_add(more).ok_or("too many pauses")?;
        if outcome != Outcome::Waits {
            return Ok((outcome, pauses));
        }
    }
    Ok((Outcome::Waits, pauses))
}

// The three pieces tell what the whole string tells, and the parser ends as behind it.
fn assert_pieces<L: Ledger>(
    rt: &impl Abort,
    alloc: Global,
    program: &Verified,
    whole: &Whole,
    pieces: [&'static [u8]; 3],
    steps: &mut Steps<L>,
) -> Result<(), Fail> {
    let script = Script::new(alloc, whole.entries)?;
    let mut host = Recorded::new(alloc, Scripted::new(&script));
    let mut parser = Parser::new(program, &[])?;
    let found = fed_three(&mut parser, pieces, &mut host, steps)?;
    assert_eq!(rt; found, (whole.end, whole.pauses), "{}", whole.name);
    assert_eq!(rt; parser.offset(), whole.at, "{}", whole.name);
    assert_lines(rt, alloc, whole, host.log())
}

// The same where the first piece is this one, and the others are cut in each way.
fn assert_rest<L: Ledger>(
    rt: &impl Abort,
    alloc: Global,
    program: &Verified,
    whole: &Whole,
    first: &'static [u8],
    rest: &'static [u8],
    steps: &mut Steps<L>,
) -> Result<(), Fail> {
    for at in 0..9 {
        if let Some((second, third)) = rest.split_at_checked(at) {
            assert_pieces(rt, alloc, program, whole, [first, second, third], steps)?;
        }
    }
    Ok(())
}

// The same for each way to cut the string into three pieces.
fn assert_cuts<L: Ledger>(
    rt: &impl Abort,
    alloc: Global,
    whole: &Whole,
    blank: Blank,
) -> Result<(), Fail>
    requires name { blank.name ≡ L.name }
    requires parts { blank.parts ≡ L.parts }
    requires some { 0 < blank.parts }
{
    let mut steps = Steps::<L>::new(blank);
    let program = finished(alloc, graph_of(alloc, whole.graph)?)?;
    for at in 0..9 {
        if let Some((first, rest)) = whole.bytes.split_at_checked(at) {
            assert_rest(rt, alloc, &program, whole, first, rest, &mut steps)?;
        }
    }
    Ok(())
}

#[test]
fn each_cut_tells_the_same(rt: HostRuntime) -> Result<(), Fail> {
    for whole in WHOLES {
        assert!(rt; whole.bytes.len() <= 8, "{}", whole.name);
        assert_cuts::<Brand>(&rt, rt.alloc(), &whole, Blank::new(1))?;
    }
    Ok(())
}
