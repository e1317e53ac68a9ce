// Why an input is refused.
ghost use Rattle.std.specs.Prelude.{◌≡◌, ◌∷◌, [], OnOk, OnErr};
ghost use Rattle.pp_outside.specs.Faults.{Rose};
ghost use Rattle.pp_outside.specs.Sink.{Adds, AddsSome};
ghost use Rattle.hex.specs.Hex.{encode_lower};
ghost use Rattle.pp_tool.specs.Answers.{graph_line, check_line, loop_line, span_line, line_of, status_of};
ghost use Rattle.pp_tool.specs.steps.Stops.{line_with, concat_slices};

use crate::status::Status;
use itoa::Buffer;
use pp_graph::{GraphRule, Name};
use pp_outside::{Failed, Sink, write_whole};

/// Why the graph part of an input is refused.
#[derive(Clone, Copy, Debug)]
pub(crate) enum GraphReason {
    /// A line isn't whole within the most bytes that a text may have.
    LongLine,
    /// A line is wrong.
    WrongLine { line: u64 },
    /// A rule of graphs fails at a line.
    BrokenRule { line: u64, rule: GraphRule },
}

/// Why the checks of a graph fail. Nodes and spans are told by their names.
#[derive(Debug, Drop)]
pub(crate) enum CheckReason {
    /// The graph is accepted, and is not plain.
    NotYet,
    /// Moves that take no byte form a cycle where this byte comes next, and the node is the least on one.
    Loop { node: Name, byte: u8 },
    /// The span is opened at a node where it may be open.
    Reopened { span: Name, node: Name },
    /// The span is closed at a node where it may be shut.
    NotOpen { span: Name, node: Name },
    /// The span may be open and may be shut at the node.
    Mixed { span: Name, node: Name },
}

/// Why an input is refused.
#[derive(Debug, Drop)]
pub(crate) enum Refusal {
    /// The graph part is refused.
    Graph(GraphReason),
    /// The checks fail.
    Check(CheckReason),
    /// More bytes stand behind the graph text than a capture may have.
    TooLong,
    /// They are no capture.
    Capture,
}

impl GraphReason {
    // Writes its line.
    fn write_line<E: Sink>(self, errors: &mut E) -> Result<(), Failed>
        ensures whole { OnOk result (Adds (E.written errors.old) (E.written errors.new) (graph_line self)) }
        ensures failed { OnErr result (Rose (E.faults errors.old) (E.faults errors.new)) }
        ensures front { OnErr result (AddsSome (E.written errors.old) (E.written errors.new) (graph_line self)) }
    {
        match self {
            GraphReason::LongLine => write_whole(errors, b"graph: too long\n"),
            GraphReason::WrongLine { line } => write_graph_line(errors, line, b"syntax"),
            GraphReason::BrokenRule { line, rule } => {
                write_graph_line(errors, line, rule.text().as_bytes())
            }
        }
    }
}

impl CheckReason {
    // Writes its line.
    fn write_line<E: Sink>(&self, errors: &mut E) -> Result<(), Failed>
        ensures whole { OnOk result (Adds (E.written errors.old) (E.written errors.new) (check_line self.now)) }
        ensures failed { OnErr result (Rose (E.faults errors.old) (E.faults errors.new)) }
        ensures front { OnErr result (AddsSome (E.written errors.old) (E.written errors.new) (check_line self.now)) }
    {
        match self {
            CheckReason::NotYet => write_whole(errors, b"check: not yet\n"),
            CheckReason::Loop { node, byte } => write_loop_line(errors, node.bytes(), *byte),
            CheckReason::Reopened { span, node } => {
                write_span_line(errors, span.bytes(), b" reopened at ", node.bytes())
            }
            CheckReason::NotOpen { span, node } => {
                write_span_line(errors, span.bytes(), b" not open at ", node.bytes())
            }
            CheckReason::Mixed { span, node } => {
                write_span_line(errors, span.bytes(), b" mixed at ", node.bytes())
            }
        }
    }
}

impl Refusal {
    /// The status that a refusal ends with.
    pub(crate) fn status(&self) -> Status
        ensures { result ≡ status_of self.now }
    {
        match self {
            Refusal::Graph(_) => Status::Graph,
            Refusal::Check(_) => Status::Check,
            Refusal::TooLong => Status::TooLong,
            Refusal::Capture => Status::Capture,
        }
    }

    /// Writes the line of a refusal.
    pub(crate) fn write_line<E: Sink>(&self, errors: &mut E) -> Result<(), Failed>
        ensures whole { OnOk result (Adds (E.written errors.old) (E.written errors.new) (line_of self.now)) }
        ensures failed { OnErr result (Rose (E.faults errors.old) (E.faults errors.new)) }
        ensures front { OnErr result (AddsSome (E.written errors.old) (E.written errors.new) (line_of self.now)) }
    {
        match self {
            Refusal::Graph(reason) => reason.write_line(errors),
            Refusal::Check(reason) => reason.write_line(errors),
            Refusal::TooLong => write_whole(errors, b"input too long\n"),
            Refusal::Capture => write_whole(errors, b"capture: refused\n"),
        }
    }
}

// A loop at a node, on a byte in two hexadecimal digits. Takes no memory.
fn write_loop_line<E: Sink>(errors: &mut E, node: &[u8], byte: u8) -> Result<(), Failed>
    ensures whole { OnOk result (Adds (E.written errors.old) (E.written errors.new) (loop_line node.now byte)) }
    ensures failed { OnErr result (Rose (E.faults errors.old) (E.faults errors.new)) }
    ensures front { OnErr result (AddsSome (E.written errors.old) (E.written errors.new) (loop_line node.now byte)) }
{
    let digits = hex_digits(byte);
    let pieces = [
        b"check: loop at ".as_slice(),
        node,
        b" on byte ".as_slice(),
        digits.as_slice(),
        b"\n".as_slice(),
    ];
    write_pieces(errors, &pieces)
}

// A byte in two hexadecimal digits, in lower case.
fn hex_digits(byte: u8) -> [u8; 2]
    ensures { result ≡ encode_lower (byte ∷ []) }
{
    let mut digits = [0u8; 2];
    let _ = hex::encode_to_slice([byte], &mut digits);
    digits
}

// What is wrong with a span at a node. Takes no memory.
fn write_span_line<E: Sink>(
    errors: &mut E,
    span: &[u8],
    what: &[u8],
    node: &[u8],
) -> Result<(), Failed>
    ensures whole { OnOk result (Adds (E.written errors.old) (E.written errors.new) (span_line span.now what.now node.now)) }
    ensures failed { OnErr result (Rose (E.faults errors.old) (E.faults errors.new)) }
    ensures front { OnErr result (AddsSome (E.written errors.old) (E.written errors.new) (span_line span.now what.now node.now)) }
{
    let pieces = [
        b"check: span ".as_slice(),
        span,
        what,
        node,
        b"\n".as_slice(),
    ];
    write_pieces(errors, &pieces)
}

// What is wrong at a line of the graph text. Takes no memory.
fn write_graph_line<E: Sink>(errors: &mut E, line: u64, text: &[u8]) -> Result<(), Failed>
    ensures whole { OnOk result (Adds (E.written errors.old) (E.written errors.new) (line_with line text.now)) }
    ensures failed { OnErr result (Rose (E.faults errors.old) (E.faults errors.new)) }
    ensures front { OnErr result (AddsSome (E.written errors.old) (E.written errors.new) (line_with line text.now)) }
{
    let mut number = Buffer::new();
    let pieces = [
        b"graph: line ".as_slice(),
        number.format(line).as_bytes(),
        b": ".as_slice(),
        text,
        b"\n".as_slice(),
    ];
    write_pieces(errors, &pieces)
}

// Pieces, one after the other. A failed write ends them.
fn write_pieces<E: Sink>(errors: &mut E, pieces: &[&[u8]]) -> Result<(), Failed>
    ensures whole { OnOk result (Adds (E.written errors.old) (E.written errors.new) (concat_slices pieces.now)) }
    ensures failed { OnErr result (Rose (E.faults errors.old) (E.faults errors.new)) }
    ensures front { OnErr result (AddsSome (E.written errors.old) (E.written errors.new) (concat_slices pieces.now)) }
{
    for piece in pieces {
        write_whole(errors, piece)?;
    }
    Ok(())
}
