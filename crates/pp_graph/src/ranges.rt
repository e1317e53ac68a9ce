// The numbers of nodes lie within their types, which a contract knows of each number once it is read. So the nodes of a
// graph are gone over once, as it is made, and no caller has to.
ghost use Rattle.std.specs.Prelude.{◌<◌, ◌^◌, All};
ghost use Rattle.pp_graph.specs.Ranges.{NumberInRange, CodeInRange, KeyInRange, PeekInRange, AnswerInRange, KindInRange, NodeInRange};

use crate::node::{Answer, Code, Key, Kind, Node, Peek};

/// The numbers of these nodes lie within their types.
pub(crate) fn numbers_fit(nodes: &[Node])
    ensures { All NodeInRange nodes.now }
{
    for node in nodes {
        kind_fits(&node.kind);
    }
}

fn kind_fits(kind: &Kind)
    ensures { KindInRange kind.now }
{
    match kind {
        Kind::Match { keys, peeks, .. } => {
            keys_fit(keys.items());
            peeks_fit(peeks.items());
        }
        Kind::Invoke { code, answers, .. } => {
            code_fits(*code);
            answers_fit(answers.items());
        }
        Kind::Pause { code, .. } | Kind::Fail { code, .. } => number_fits(*code),
        Kind::Consume { .. } | Kind::SpanOpen { .. } | Kind::SpanClose { .. } => {}
    }
}

fn number_fits(number: u32)
    ensures { number < 2 ^ 32 }
{
    let _number = number;
}

fn code_fits(code: Code)
    ensures { CodeInRange code }
{
    match code {
        Code::Call { .. } | Code::Store { .. } | Code::Load { .. } => {}
        Code::Update { value, .. }
        | Code::Equal { value, .. }
        | Code::And { value, .. }
        | Code::Or { value, .. }
        | Code::Test { value, .. } => constant_fits(value),
        Code::MulAdd { base, max, .. } => {
            number_fits(base);
            constant_fits(max);
        }
    }
}

fn constant_fits(value: u64)
    ensures { value < 2 ^ 64 }
{
    let _value = value;
}

fn keys_fit(keys: &[Key])
    ensures { All KeyInRange keys.now }
{
    for key in keys {
        key_fits(key);
    }
}

fn key_fits(key: &Key)
    ensures { KeyInRange key.now }
{
    bytes_fit(key.bytes.items());
    carried_fits(key.number);
}

fn bytes_fit(bytes: &[u8])
    ensures { All (λ b. b < 256) bytes.now }
{
    let _bytes = bytes;
}

fn carried_fits(number: Option<u32>)
    ensures { NumberInRange number }
{
    match number {
        Some(number) => number_fits(number),
        None => {}
    }
}

fn peeks_fit(peeks: &[Peek])
    ensures { All PeekInRange peeks.now }
{
    for peek in peeks {
        peek_fits(*peek);
    }
}

fn peek_fits(peek: Peek)
    ensures { PeekInRange peek }
{
    let _byte = peek.byte;
}

fn answers_fit(answers: &[Answer])
    ensures { All AnswerInRange answers.now }
{
    for answer in answers {
        answer_fits(*answer);
    }
}

fn answer_fits(answer: Answer)
    ensures { AnswerInRange answer }
{
    number_fits(answer.number);
}
