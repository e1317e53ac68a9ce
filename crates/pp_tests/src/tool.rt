// The command over fakes in memory.
ghost use Rattle.std.specs.Prelude.{◌≡◌, ◌<◌, ◌≤◌};

use pp_outside::{MemSink, MemSource, Steps, read_some};
use pp_tool::{Status, WordList, tool};
use std::alloc::{AllocError, Global};
use std::marker::Brand;
use std::sync::ledger::{Blank, Ledger};
use std::test::Fail;

mod check;
mod print;
mod trace;

// Calls `hit` after each `a`. It is the text of examples/first/graph.txt.
const GRAPH: &str = "graph 1
host hit match
entry start
node start match
on \"a\" -> hit_it
skip -> start
node hit_it call hit
else -> start
end
";

const BEGIN: [u8; 5] = [1, 0, 0, 0, 0];

// What a run of the command left.
#[derive(Drop)]
struct Outcome {
    status: Status,
    input: MemSource,
    output: MemSink,
    errors: MemSink,
}

// How the source and the output behave: the calls that fail, and the most bytes of a call.
#[derive(Clone, Copy)]
struct Outside {
    read_fails: &'static [u64],
    write_fails: &'static [u64],
    most: usize,
}

const SOUND: Outside = Outside {
    read_fails: &[],
    write_fails: &[],
    most: 100_000,
};

fn run<L: Ledger>(
    alloc: Global,
    words: &[&str],
    bytes: &[u8],
    outside: Outside,
    blank: Blank,
) -> Result<Outcome, AllocError>
    requires name { blank.name ≡ L.name }
    requires parts { blank.parts ≡ L.parts }
    requires some { 0 < blank.parts }
    requires most { 1 ≤ outside.most }
{
    let mut list = WordList::new(alloc);
    for word in words {
        list.add(word)?;
    }
    let mut input = MemSource::new(alloc, bytes, outside.most, outside.read_fails)?;
    let mut output = MemSink::new(alloc, 2000, outside.most, outside.write_fails)?;
    let mut errors = MemSink::new(alloc, 1000, 7, &[])?;
    let mut steps = Steps::<L>::new(blank);
    let status = tool(
        alloc,
        &list,
        &mut input,
        &mut output,
        &mut errors,
        &mut steps,
    );
    Ok(Outcome {
        status,
        input,
        output,
        errors,
    })
}

fn outcome_of(
    alloc: Global,
    words: &[&str],
    bytes: &[u8],
    outside: Outside,
) -> Result<Outcome, AllocError>
    requires { 1 ≤ outside.most }
{
    run::<Brand>(alloc, words, bytes, outside, Blank::new(1))
}

// A graph text and what stands after it.
fn joined(alloc: Global, text: &str, rest: &[u8]) -> Result<Vec<u8>, AllocError> {
    let mut bytes = Vec::from_slice(alloc, text.as_bytes())?;
    bytes.extend_from_slice(rest)?;
    Ok(bytes)
}

const FIRST_READ: Outside = Outside {
    read_fails: &[0],
    ..SOUND
};

const LATER_READ: Outside = Outside {
    read_fails: &[3],
    most: 10,
    ..SOUND
};

const FIRST_WRITE: Outside = Outside {
    write_fails: &[0],
    ..SOUND
};

const LATER_WRITE: Outside = Outside {
    write_fails: &[2],
    most: 4,
    ..SOUND
};

// Words, the world outside, the status, what was written, and the line that tells it. For wrong words nothing is
// read: the first read would fail.
const FAULTS: [(&[&str], Outside, Status, &str, &str); 8] = [
    (
        &["trace"],
        FIRST_READ,
        Status::ReadFault,
        "",
        "read fault\n",
    ),
    (
        &["print"],
        LATER_READ,
        Status::ReadFault,
        "",
        "read fault\n",
    ),
    (
        &["trace"],
        FIRST_WRITE,
        Status::WriteFault,
        "",
        "write fault\n",
    ),
    (
        &["trace"],
        LATER_WRITE,
        Status::WriteFault,
        "0 call h",
        "write fault\n",
    ),
    (
        &["trace", "--quick"],
        FIRST_READ,
        Status::Words,
        "",
        "words: no such command\n",
    ),
    (
        &["print", "print"],
        FIRST_READ,
        Status::Words,
        "",
        "words: no such command\n",
    ),
    (
        &["Print"],
        FIRST_READ,
        Status::Words,
        "",
        "words: no such command\n",
    ),
    (
        &[],
        FIRST_READ,
        Status::Words,
        "",
        "words: no such command\n",
    ),
];

#[test]
fn a_fault_is_told_by_its_status_and_a_line(rt: HostRuntime) -> Result<(), Fail> {
    let alloc = rt.alloc();
    let mut bytes = joined(alloc, GRAPH, &BEGIN)?;
    bytes.extend_from_slice(&[2, 0, 0, 3, b'b', b'a', b'b', 5])?;
    for (words, outside, status, written, line) in FAULTS {
        assert!(rt; 1 <= outside.most);
        let got = outcome_of(alloc, words, bytes.as_slice(), outside)?;
        assert_eq!(rt; got.status, status);
        assert_eq!(rt; got.output.written(), written.as_bytes());
        assert_eq!(rt; got.errors.written(), line.as_bytes());
    }
    Ok(())
}

// With 40 bytes a read, the graph and the capture come by four reads, and then two find the end: one for the front of
// the input and one for its rest.
const PLACES: [&[u64]; 6] = [&[0], &[1], &[2], &[3], &[4], &[5]];

#[test]
fn each_read_can_fail(rt: HostRuntime) -> Result<(), Fail> {
    let alloc = rt.alloc();
    let mut bytes = joined(alloc, GRAPH, &BEGIN)?;
    bytes.extend_from_slice(&[2, 0, 0, 3, b'b', b'a', b'b', 5])?;
    for read_fails in PLACES {
        let outside = Outside {
            read_fails,
            most: 40,
            ..SOUND
        };
        let got = outcome_of(alloc, &["trace"], bytes.as_slice(), outside)?;
        assert_eq!(rt; got.status, Status::ReadFault);
        assert_eq!(rt; got.output.written(), b"".as_slice());
        assert_eq!(rt; got.errors.written(), b"read fault\n".as_slice());
    }
    Ok(())
}

// What the front of an input is at most: the most bytes of a text, and one more.
const FRONT: usize = 4_194_305;

// A text that is read, and is no plain graph.
const FOLDED: &str = "graph 1\nentry s\nnode s match lower\nskip -> s\nend\n";

// A command, how an input begins that goes on in blanks, how many bytes it has, how many of them follow its front, and how
// it is refused: each time the front was taken, and no byte more. A line that goes on past the front is too long.
const TAKEN: [(&str, &str, usize, usize, Status, &str); 7] = [
    (
        "trace",
        "x\n",
        FRONT + 7,
        7,
        Status::Graph,
        "graph: line 1: syntax\n",
    ),
    (
        "trace",
        FOLDED,
        FRONT + 7,
        7,
        Status::Check,
        "check: not yet\n",
    ),
    (
        "print",
        "",
        FRONT + 7,
        7,
        Status::Graph,
        "graph: too long\n",
    ),
    (
        "print",
        "x\n",
        99,
        0,
        Status::Graph,
        "graph: line 1: syntax\n",
    ),
    ("trace", FOLDED, 99, 0, Status::Check, "check: not yet\n"),
    (
        "check",
        "x\n",
        FRONT + 7,
        7,
        Status::Graph,
        "graph: line 1: syntax\n",
    ),
    (
        "print",
        FOLDED,
        99,
        0,
        Status::Graph,
        "graph: line 6: syntax\n",
    ),
];

#[test]
fn a_refusal_leaves_what_follows_the_front(rt: HostRuntime) -> Result<(), Fail> {
    let alloc = rt.alloc();
    let mut buffer = [0u8; 10];
    for (word, text, length, left, status, line) in TAKEN {
        let mut bytes = Vec::from_slice(alloc, text.as_bytes())?;
        bytes.resize(length, b' ')?;
        let mut got = outcome_of(alloc, &[word], bytes.as_slice(), SOUND)?;
        assert_eq!(rt; got.status, status, "{word} {text}");
        assert_eq!(rt; got.errors.written(), line.as_bytes(), "{word} {text}");
        assert_eq!(rt;
            read_some(&mut got.input, &mut buffer)?,
            left,
            "{word} {text}"
        );
    }
    Ok(())
}

// The front is taken before it is judged: its second read fails, behind a wrong first line.
#[test]
fn a_wrong_line_yields_to_a_read_that_fails_after_it(rt: HostRuntime) -> Result<(), Fail> {
    let alloc = rt.alloc();
    for word in ["trace", "check", "print"] {
        let outside = Outside {
            read_fails: &[1],
            most: 10,
            ..SOUND
        };
        let got = outcome_of(alloc, &[word], b"graph 2\nend\n", outside)?;
        assert_eq!(rt; got.status, Status::ReadFault, "{word}");
        assert_eq!(rt; got.errors.written(), b"read fault\n".as_slice(), "{word}");
    }
    Ok(())
}

#[test]
fn statuses_have_their_numbers(rt: HostRuntime) {
    for (status, number) in [
        (Status::Ok, 0),
        (Status::Words, 2),
        (Status::Graph, 3),
        (Status::Check, 4),
        (Status::Program, 5),
        (Status::Capture, 6),
        (Status::ReadFault, 7),
        (Status::WriteFault, 8),
        (Status::NoMemory, 9),
        (Status::TooLong, 10),
    ] {
        assert_eq!(rt; status.number(), number);
    }
}
