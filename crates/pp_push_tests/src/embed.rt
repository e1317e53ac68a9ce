// How a program embeds the parser: a host of its own, and pieces that are fed as they come.
ghost use Rattle.std.specs.Prelude.{◌≡◌, ◌<◌};

use pp_check::check;
use pp_clean::finish_program;
use pp_engine::{FinishOutcome, Outcome, Parser, Standing};
use pp_event::{Host, Props, Reply};
use pp_lower::lower;
use pp_outside::Steps;
use pp_program::Verified;
use pp_text::read_graph;
use std::alloc::Global;
use std::marker::Brand;
use std::process::Abort;
use std::sync::ledger::{Blank, Ledger};
use std::test::Fail;

// A span over `a`, `b` and `c`, up to a `d`.
const WORD: &str =
    "graph 1;span w;entry o;node o open w;else -> r;node r match;on [abc] -> r;peek \"d\" -> c;else -> bad;node c close w;else -> z;node z match;skip -> z;node bad error 1 \"bad\";end";

// No piece has more bytes here, and no string.
const LONGEST: u64 = 1 << 32;

// Counts the calls and the bytes of spans. It answers each question 0, takes no memory and never refuses.
#[derive(Debug, Drop)]
struct Sizes {
    calls: u64,
    bytes: u64,
}

impl<'a> Host<'a> for Sizes {
    ghost use Rattle.std.specs.Prelude.{None};

    ghost View = { Unit {0} };

    ghost shown = { λ s. record { log = None; refusals = 0; view = tt } };

    ghost allows = { λ v e. Unit {0} };

    ghost next = { λ v e. v };

    fn call(&mut self, _code: u32, _value: u64, _at: u64, _props: &Props) -> Reply {
        self.calls = self.calls.saturating_add(1);
        Reply::Is(0)
    }

    fn piece(&mut self, _span: u32, part: &'a [u8], _at: u64, _last: bool) -> Reply {
        self.bytes = self.bytes.saturating_add(part.len() as u64);
        Reply::Is(0)
    }
}

// The program of a graph text.
fn program_of(alloc: Global, text: &str) -> Result<Verified, Fail> {
    let (graph, _) = read_graph(alloc, text.as_bytes())?;
    let checked = check(alloc, graph)?;
    let lowered = lower(alloc, &checked)?;
    Ok(finish_program(alloc, lowered)?)
}

// Feeds the pieces in order, as long as the parser waits for more, and gives the last outcome.
fn feed_all<'a, H: Host<'a>, L: Ledger>(
    parser: &mut Parser<'_>,
    pieces: &[&'a [u8]],
    host: &mut H,
    steps: &mut Steps<L>,
) -> Result<Outcome, Fail> {
    for &piece in pieces {
        if parser.offset() > LONGEST || piece.len() as u64 > LONGEST {
            return Err(Fail::from("too long"));
        }
        let outcome = parser.feed(piece, host, steps);
        if outcome != Outcome::Waits {
            return Ok(outcome);
        }
    }
    Ok(Outcome::Waits)
}

// The parser waits at the node of this name.
fn assert_waits_at(
    rt: &impl Abort,
    program: &Verified,
    parser: &Parser<'_>,
    name: &[u8],
) -> Result<(), Fail> {
    let Standing::Waiting { node } = parser.standing() else {
        return Err(Fail::from("it does not wait"));
    };
    if node >= program.names() {
        return Err(Fail::from("no such node"));
    }
    assert_eq!(rt; program.name(node).bytes(), name);
    Ok(())
}

// Feeds a word in two pieces, and then no more.
fn count_a_word<L: Ledger>(rt: &impl Abort, program: &Verified, blank: Blank) -> Result<(), Fail>
    requires name { blank.name ≡ L.name }
    requires parts { blank.parts ≡ L.parts }
    requires some { 0 < blank.parts }
{
    let mut steps = Steps::<L>::new(blank);
    let mut host = Sizes { calls: 0, bytes: 0 };
    let mut parser = Parser::new(program, &[])?;
    let outcome = feed_all(&mut parser, &[b"abc", b"d"], &mut host, &mut steps)?;
    assert_eq!(rt; outcome, Outcome::Waits);
    assert_eq!(rt; (host.calls, host.bytes), (0, 3));
    assert_eq!(rt; parser.offset(), 4);
    assert_waits_at(rt, program, &parser, b"z")?;
    assert_eq!(rt; parser.finish(&mut host), FinishOutcome::Done);
    Ok(())
}

#[test]
fn a_host_of_its_own_counts_the_bytes_of_a_span(rt: HostRuntime) -> Result<(), Fail> {
    let program = program_of(rt.alloc(), WORD)?;
    count_a_word::<Brand>(&rt, &program, Blank::new(1))
}

// Calls `hit` after each `a`.
const HITS: &str =
    "graph 1;host hit match;entry start;node start match;on \"a\" -> hit_it;skip -> start;node hit_it call hit;else -> start;end";

// Refuses every question, and counts that.
#[derive(Debug, Drop)]
struct Full {
    refused: u64,
}

impl<'a> Host<'a> for Full {
    ghost use Rattle.std.specs.Prelude.{None};

    ghost View = { Unit {0} };

    ghost shown = { λ s. record { log = None; refusals = s.refused; view = tt } };

    ghost allows = { λ v e. Unit {0} };

    ghost next = { λ v e. v };

    fn call(&mut self, _code: u32, _value: u64, _at: u64, _props: &Props) -> Reply {
        self.refused = self.refused.saturating_add(1);
        Reply::NoMemory
    }

    fn piece(&mut self, _span: u32, _part: &'a [u8], _at: u64, _last: bool) -> Reply {
        self.refused = self.refused.saturating_add(1);
        Reply::NoMemory
    }
}

// Feeds to a host that has no memory, and feeds once more.
fn ask_a_full_host<L: Ledger>(rt: &impl Abort, program: &Verified, blank: Blank) -> Result<(), Fail>
    requires name { blank.name ≡ L.name }
    requires parts { blank.parts ≡ L.parts }
    requires some { 0 < blank.parts }
{
    let mut steps = Steps::<L>::new(blank);
    let mut host = Full { refused: 0 };
    let mut parser = Parser::new(program, &[])?;
    for want in [Outcome::HostOut, Outcome::AlreadyFailed] {
        let outcome = feed_all(&mut parser, &[b"bab"], &mut host, &mut steps)?;
        assert_eq!(rt; outcome, want);
        assert_eq!(rt; host.refused, 1);
    }
    Ok(())
}

#[test]
fn a_host_that_refuses_ends_the_run(rt: HostRuntime) -> Result<(), Fail> {
    let program = program_of(rt.alloc(), HITS)?;
    ask_a_full_host::<Brand>(&rt, &program, Blank::new(1))
}
