// Reading a graph text.
ghost use Rattle.std.specs.Prelude.{◌≡◌, ℕ, ◌+◌, ◌*◌, ◌≤◌, ◌<◌, ◌↔◌, List, Some, None, length, Err, IfOk, IsTrue, MatchResult, unwrap_or, slice_get};
ghost use Rattle.pp_graph.specs.Built.{built};
ghost use Rattle.pp_rules.specs.Rules.{KeepsRules};
ghost use Rattle.pp_rules.specs.declared.rules.GraphRule.{GraphRule};
ghost use Rattle.pp_text.specs.declared.fault.TextFault.TheVariants as fault;
ghost use Rattle.pp_text.specs.Text.{Told, BeginWithText, IsWrongAt, IsTooLong, limit, end_tokens};
ghost use Rattle.pp_text.specs.Outcome.{Reads, Breaks, IsFaultAlone};
ghost use Rattle.pp_text.specs.steps.Reading.{count_told};
ghost use Rattle.pp_text.specs.steps.Lines.{lines_of};
ghost use Rattle.pp_text.specs.steps.Settled.{Settles};
ghost use Rattle.pp_text.specs.steps.Rows.{IsRowAnswer, RowIs, LastIs, IsLineAnswer, IsLineFault, LinesAre, IsText, IsGraphFault};
ghost use Rattle.pp_text.specs.steps.View.{tokens_of};

use crate::calls::Run;
use crate::draft::Draft;
use crate::fault::TextFault;
use crate::line::{Line, first_line};
use crate::row::{Behind, read_tokens};
use crate::token::Token;
use crate::word::is_word;
use pp_graph::{Graph, GraphFault, NoMemory};
use std::alloc::Global;

// The most bytes of a text.
const LIMIT: usize = 4_194_304;

/// The graph whose text begins the bytes, and how many bytes the text takes. Bytes may follow a text whose last line
/// has its LF.
///
/// Lines are taken in order, and the first that is wrong gives the fault: `TooLong` where a line isn't whole within the
/// first 4,194,304 bytes, else `Syntax` with its number from 1, also for a missing `end`. Then the rules of graphs are
/// tried: `Graph` with the first that fails, and the line of the first call at which it does.
pub fn read_graph(alloc: Global, bytes: &[u8]) -> Result<(Graph, usize), TextFault>
    ensures graph { IfOk result (λ r. (told : Told) × (last : ℕ) × (rest : List ℕ) × Reads bytes.now told last rest r.0 r.1) }
    ensures syntax { (line : ℕ) → result ≡ Err (fault.Syntax line) → IsWrongAt bytes.now line }
    ensures too_long { result ≡ Err fault.TooLong → IsTooLong bytes.now }
    ensures rule { (line : ℕ) (rule : GraphRule) → result ≡ Err (fault.Graph line rule) → Breaks bytes.now line rule }
    ensures graph_only { (told : Told) (last : ℕ) (rest : List ℕ) → BeginWithText bytes.now told last rest → KeepsRules told.calls
        → MatchResult result (λ r. Reads bytes.now told last rest r.0 r.1) (λ e. e ≡ fault.NoMemory) }
    ensures syntax_only { (line : ℕ) → IsWrongAt bytes.now line → IsFaultAlone result (fault.Syntax line) }
    ensures too_long_only { IsTooLong bytes.now → IsFaultAlone result fault.TooLong }
    ensures rule_only { (line : ℕ) (rule : GraphRule) → Breaks bytes.now line rule → IsFaultAlone result (fault.Graph line rule) }
{
    read_text(alloc, bytes)
}

// The same, said once for all results.
fn read_text(alloc: Global, bytes: &[u8]) -> Result<(Graph, usize), TextFault>
    ensures { Settles bytes.now result }
{
    let mut draft = Draft::new(alloc);
    let (last, used) = read_lines(alloc, &mut draft, bytes)?;
    let graph = close(draft, last)?;
    Ok((graph, used))
}

// Reads the lines up to the one with `end`, and gives its number, and how many bytes the lines take.
fn read_lines(alloc: Global, draft: &mut Draft, bytes: &[u8]) -> Result<(u32, usize), TextFault>
    requires { draft.old ≡ None }
    ensures { MatchResult result (λ r. IsText bytes.now draft.old draft.new r.0 r.1)
        (IsLineFault (LinesAre limit 1 draft.old bytes.now)) }
{
    let mut tokens = Vec::new(alloc);
    let mut line: u32 = 1;
    let mut room = LIMIT;
    let mut rest = bytes;
    while !rest.is_empty() {
        match read_line(draft, &mut tokens, room, line, rest)? {
            LineEnd::Leads(behind) => {
                room -= rest.len() - behind.len();
                rest = behind;
                line += 1;
            }
            LineEnd::Ends(behind) => return Ok((line, bytes.len() - behind.len())),
        }
    }
    Err(TextFault::Syntax {
        line: (line - 1).max(1),
    })
}

// What a line comes to that is not wrong, and the bytes behind it.
#[derive(Clone, Copy)]
enum LineEnd<'t> {
    // It leads on.
    Leads(&'t [u8]),
    // It ends the text.
    Ends(&'t [u8]),
}

// Reads the first line of the bytes, which has to be whole within so many of them.
fn read_line<'t>(
    draft: &mut Draft,
    tokens: &mut Vec<Token<'t>>,
    room: usize,
    line: u32,
    bytes: &'t [u8],
) -> Result<LineEnd<'t>, TextFault>
    requires some { 0 < length bytes.now }
    requires room { count_told draft.old + 256 * room < 4294967295 }
    ensures { MatchResult result (IsLineAnswer room line draft.old bytes.now draft.new)
        (IsLineFault (LinesAre room line draft.old bytes.now)) }
{
    match first_line(room, bytes) {
        None => Err(TextFault::TooLong),
        Some(Line::Whole { row, rest }) => match read_row(draft, tokens, line, row)? {
            RowEnd::Leads => Ok(LineEnd::Leads(rest)),
            RowEnd::Ends => Ok(LineEnd::Ends(rest)),
            RowEnd::Wrong => Err(TextFault::Syntax { line }),
        },
        Some(Line::Open { row }) => match read_row(draft, tokens, line, row)? {
            RowEnd::Ends => Ok(LineEnd::Ends(b"")),
            RowEnd::Leads | RowEnd::Wrong => Err(TextFault::Syntax { line }),
        },
    }
}

// What a row comes to.
#[derive(Clone, Copy)]
enum RowEnd {
    // It leads on.
    Leads,
    // It ends the text.
    Ends,
    // It does neither.
    Wrong,
}

// Reads the statements of a row.
fn read_row<'t>(
    draft: &mut Draft,
    tokens: &mut Vec<Token<'t>>,
    line: u32,
    row: &'t [u8],
) -> Result<RowEnd, NoMemory>
    requires room { count_told draft.old + 256 * length row.now < 4294967295 }
    ensures answer { IfOk result (λ end. IsRowAnswer end draft.new (RowIs line row.now draft.old)) }
    ensures count { IfOk result (λ end. count_told draft.new ≤ count_told draft.old + 256 * length row.now) }
{
    let mut rest = row;
    while let Some(behind) = read_tokens(tokens, rest)? {
        let Behind::Statement(next) = behind else {
            return end_row(draft, line, tokens);
        };
        if !draft.add(line, tokens)? {
            return Ok(RowEnd::Wrong);
        }
        rest = next;
    }
    Ok(RowEnd::Wrong)
}

// Takes the last statement of a row: `end` behind `graph 1`, or one that leads on.
fn end_row(draft: &mut Draft, line: u32, tokens: &[Token<'_>]) -> Result<RowEnd, NoMemory>
    requires room { count_told draft.old + 256 * length tokens.now < 4294967295 }
    ensures answer { IfOk result (λ end. IsRowAnswer end draft.new (LastIs line (tokens_of tokens.now) draft.old)) }
    ensures count { IfOk result (λ end. count_told draft.new ≤ count_told draft.old + 256 * length tokens.now) }
{
    if draft.has_begun() && is_end(tokens) {
        return Ok(RowEnd::Ends);
    }
    if draft.add(line, tokens)? {
        Ok(RowEnd::Leads)
    } else {
        Ok(RowEnd::Wrong)
    }
}

// Whether the tokens are `end`.
fn is_end(tokens: &[Token<'_>]) -> bool
    ensures { IsTrue result ↔ (tokens_of tokens.now ≡ end_tokens) }
{
    match tokens {
        [word] => is_word(*word, b"end"),
        _ => false,
    }
}

// The graph of the calls of a text whose `end` is at this line.
fn close(draft: Draft, last: u32) -> Result<Graph, TextFault>
    ensures { (told : Told) → draft ≡ Some told → MatchResult result (λ graph. KeepsRules told.calls × (graph ≡ built told.calls)) (IsGraphFault told last) }
{
    let (builder, runs) = draft.into_parts();
    match builder.close() {
        Ok(graph) => Ok(graph),
        Err(GraphFault::Broken { rule, call }) => Err(TextFault::Graph {
            line: line_of_call(&runs, call, last),
            rule,
        }),
        Err(GraphFault::NoMemory) => Err(TextFault::NoMemory),
    }
}

// The line of a call by its number; behind the last call that of `end`.
fn line_of_call(runs: &[Run], call: u32, last: u32) -> u32
    ensures { result ≡ unwrap_or (slice_get (lines_of runs.now) call) last }
{
    let mut before = call as usize;
    for run in runs {
        if before < run.calls {
            return run.line;
        }
        before -= run.calls;
    }
    last
}
