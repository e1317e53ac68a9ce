// What an instruction does.
ghost use Rattle.std.specs.Prelude.{◌≡◌, ℕ, List, [], ◌∷◌, ◌+◌, ◌<◌, ◌≤◌, ◌^◌, ◌-◌, drop, length, unwrap_or, if◌then◌else◌};
ghost use Rattle.pp_bytes.specs.declared.fold.Fold.{Fold};
ghost use Rattle.pp_event.specs.Codes.{answered as answered_by, effect_of as effect_by};
ghost use Rattle.pp_event.specs.Effects.{Uses};
ghost use Rattle.pp_event.specs.Turns.{to, effect_turn, consume_turn, open_turn, close_turn};
ghost use Rattle.pp_program.specs.States.{edge_on, branch_turn, instr_turn};
ghost use Rattle.pp_program.specs.declared.program.Instr.TheVariants.{Invoke};
ghost use Rattle.pp_engine.specs.declared.turn.Step.TheVariants.{Goes, Rests};
ghost use Rattle.pp_engine.specs.Spots.{config, IsTurn, SaysOf, edge_of, InOrder, Reads};

use crate::spot::Spot;
use pp_bytes::{Fold, Ranges};
use pp_event::{Effect, answered, effect_of};
use pp_graph::{Answer, Code};
use pp_program::{Edge, Instr, Rest};

/// What a turn did, or wants of its caller.
#[derive(Clone, Copy, Debug)]
pub enum Step<'p> {
    /// It went on, and took so many bytes.
    Goes {
        takes: usize,
    },
    /// It closed a span, which was opened at this place.
    Closes {
        span: u32,
        from: u64,
    },
    /// It asks a host code.
    Asks {
        host: u32,
    },
    /// It waits for bytes.
    Rests,
    /// It pauses, and goes on from this state once resumed.
    Stops {
        code: u32,
        next: u32,
        reason: &'p [u8],
    },
    /// It fails.
    Fails {
        code: u32,
        reason: &'p [u8],
    },
}

// The edge that has a byte.
fn edge_for(edges: &[Edge], byte: u8) -> Option<Edge>
    requires { InOrder edges.now }
    ensures { result ≡ edge_on byte edges.now }
{
    let place = edges.partition_point(|edge| edge.hi < byte);
    if place == edges.len() {
        return None;
    }
    let edge = edges[place];
    if edge.lo <= byte { Some(edge) } else { None }
}

// Goes to a state, having taken a byte or none.
fn go<'p>(spot: &mut Spot, target: u32, takes: bool, number: Option<u32>) -> Step<'p>
    requires { spot.old.at < 2 ^ 63 }
    ensures { IsTurn (λ n. 0) (config spot.old) (config spot.new) result (to (config spot.old) target (if takes then 1 else 0) (unwrap_or number 0)) }
{
    spot.node = target;
    spot.carried = number.unwrap_or(0);
    if takes {
        spot.at += 1;
        Step::Goes { takes: 1 }
    } else {
        Step::Goes { takes: 0 }
    }
}

// Goes to a state without a byte or a number.
fn enter<'p>(spot: &mut Spot, target: u32) -> Step<'p>
    ensures stands { config spot.new ≡ record (config spot.old) { node = target; carried = 0 } }
    ensures goes { result ≡ Goes 0 }
{
    spot.node = target;
    spot.carried = 0;
    Step::Goes { takes: 0 }
}

// A branch's turn where this byte comes first.
fn branch_on<'p>(
    spot: &mut Spot,
    fold: Fold,
    stay: &Ranges,
    edges: &[Edge],
    rest: Rest,
    byte: u8,
) -> Step<'p>
    requires room { spot.old.at < 2 ^ 63 }
    requires order { InOrder edges.now }
    ensures { (later : List ℕ) → IsTurn (λ n. 0) (config spot.old) (config spot.new) result (branch_turn (config spot.old) fold stay.now edges.now rest (byte ∷ later)) }
{
    if stay.has(byte) {
        let node = spot.node;
        return go(spot, node, true, None);
    }
    match edge_for(edges, fold.of(byte)) {
        Some(edge) => go(spot, edge.target, edge.take, edge.number),
        None => go(spot, rest.target, rest.skip, rest.number),
    }
}

// Waits for bytes, without a number.
fn wait<'p>(spot: &mut Spot) -> Step<'p>
    ensures stands { config spot.new ≡ record (config spot.old) { carried = 0 } }
    ensures rests { result ≡ Rests }
{
    spot.carried = 0;
    Step::Rests
}

// A branch's turn where no byte is left.
fn branch_at_end<'p>(spot: &mut Spot, stay: &Ranges, edges: &[Edge], rest: Rest) -> Step<'p>
    requires { spot.old.at ≤ 2 ^ 63 }
    ensures { (fold : Fold) → IsTurn (λ n. 0) (config spot.old) (config spot.new) result (branch_turn (config spot.old) fold stay.now edges.now rest []) }
{
    if stay.len() == 0 && edges.is_empty() && !rest.skip {
        spot.node = rest.target;
        spot.carried = rest.number.unwrap_or(0);
        Step::Goes { takes: 0 }
    } else {
        wait(spot)
    }
}

// A branch's turn.
fn branch<'p>(
    spot: &mut Spot,
    fold: Fold,
    stay: &Ranges,
    edges: &[Edge],
    rest: Rest,
    bytes: &[u8],
) -> Step<'p>
    requires room { spot.old.at + length bytes.now ≤ 2 ^ 63 }
    requires order { InOrder edges.now }
    ensures { IsTurn (λ n. 0) (config spot.old) (config spot.new) result (branch_turn (config spot.old) fold stay.now edges.now rest bytes.now) }
{
    match bytes {
        [byte, ..] => branch_on(spot, fold, stay, edges, rest, *byte),
        [] => branch_at_end(spot, stay, edges, rest),
    }
}

// A code's turn. A call is left to the caller.
fn perform<'p>(spot: &mut Spot, code: Code, answers: &[Answer], other: u32) -> Step<'p>
    requires { Uses (length spot.old.props) code }
    ensures turn { IsTurn (answered_by answers.now other) (config spot.old) (config spot.new) result (effect_turn (config spot.old) (answered_by answers.now other) (effect_by spot.old.props spot.old.carried code)) }
    ensures says { SaysOf (Invoke code answers.now other) result }
{
    match effect_of(&spot.props, spot.carried, code) {
        Effect::AsksHost { host } => Step::Asks { host },
        Effect::Answers { answer } => enter(spot, answered(answers, other, answer)),
        Effect::Sets { prop, value } => {
            spot.props.set(prop, value);
            enter(spot, answered(answers, other, 0))
        }
    }
}

// A consume's turn.
fn consume<'p>(spot: &mut Spot, prop: u32, next: u32, bytes: &[u8]) -> Step<'p>
    requires room { spot.old.at + length bytes.now ≤ 2 ^ 63 }
    requires prop { prop < length spot.old.props }
    ensures { IsTurn (λ n. 0) (config spot.old) (config spot.new) result (consume_turn (config spot.old) bytes.now prop next) }
{
    let value = spot.props.get(prop);
    let left = bytes.len() as u64;
    spot.carried = 0;
    if value <= left {
        spot.props.set(prop, 0);
        spot.node = next;
        spot.at += value;
        Step::Goes {
            takes: value as usize,
        }
    } else {
        spot.props.set(prop, value - left);
        spot.at += left;
        Step::Rests
    }
}

// Opens a span here.
fn open<'p>(spot: &mut Spot, span: u32, next: u32) -> Step<'p>
    requires { span < length spot.old.spans }
    ensures { IsTurn (λ n. 0) (config spot.old) (config spot.new) result (open_turn (config spot.old) span next) }
{
    let at = spot.at;
    spot.spans.set(span, Some(at));
    enter(spot, next)
}

// Closes a span.
fn close<'p>(spot: &mut Spot, span: u32, next: u32) -> Step<'p>
    requires { span < length spot.old.spans }
    ensures { IsTurn (λ n. 0) (config spot.old) (config spot.new) result (close_turn (config spot.old) span next) }
{
    let from = spot.spans.get(span).unwrap_or(spot.at);
    spot.spans.set(span, None);
    spot.node = next;
    spot.carried = 0;
    Step::Closes { span, from }
}

/// The turn of an instruction. A call is left to the caller, and so are the pieces of spans.
pub fn turn<'p>(spot: &mut Spot, instr: &'p Instr, bytes: &[u8]) -> Step<'p>
    requires room { spot.old.at + length bytes.now ≤ 2 ^ 63 }
    requires reads { Reads (length spot.old.props) (length spot.old.spans) instr.now }
    ensures turn { IsTurn (edge_of instr.now) (config spot.old) (config spot.new) result (instr_turn instr.now (config spot.old) bytes.now) }
    ensures says { SaysOf instr.now result }
{
    match instr {
        Instr::Branch {
            fold,
            stay,
            edges,
            rest,
        } => branch(spot, *fold, stay, edges.items(), *rest, bytes),
        Instr::Invoke {
            code,
            answers,
            other,
        } => perform(spot, *code, answers.items(), *other),
        Instr::Consume { prop, next } => consume(spot, *prop, *next, bytes),
        Instr::SpanOpen { span, next } => open(spot, *span, *next),
        Instr::SpanClose { span, next } => close(spot, *span, *next),
        Instr::Pause { code, reason, next } => Step::Stops {
            code: *code,
            next: *next,
            reason: reason.bytes(),
        },
        Instr::Fail { code, reason } => Step::Fails {
            code: *code,
            reason: reason.bytes(),
        },
    }
}

/// The turn of an instruction behind the bytes that were taken.
pub fn turn_from<'p>(spot: &mut Spot, instr: &'p Instr, input: &[u8], taken: usize) -> Step<'p>
    requires within { taken ≤ length input.now }
    requires room { spot.old.at + (length input.now - taken) ≤ 2 ^ 63 }
    requires reads { Reads (length spot.old.props) (length spot.old.spans) instr.now }
    ensures turn { IsTurn (edge_of instr.now) (config spot.old) (config spot.new) result (instr_turn instr.now (config spot.old) (drop taken input.now)) }
    ensures says { SaysOf instr.now result }
{
    turn(spot, instr, &input[taken..])
}

/// Goes on by an answer of the host.
pub fn answer_by(spot: &mut Spot, instr: &Instr, answer: u32)
    ensures config { config spot.new ≡ record (config spot.old) { node = edge_of instr.now answer; carried = 0 } }
    ensures fits { answer < 2 ^ 32 }
{
    spot.node = match instr {
        Instr::Invoke { answers, other, .. } => answered(
            answers.items(),
            *other,
            u64::from(answer),
        ),
        _ => 0,
    };
    spot.carried = 0;
}
