// One statement, from its tokens.
ghost use Rattle.std.specs.Prelude.{◌≡◌, ◌∷◌, Bool, Some, codes, if◌then◌else◌, IfSome, IsSomeAnd};
ghost use Rattle.pp_rules.specs.declared.call.BuilderCall.{BuilderCall};
ghost use Rattle.pp_text.specs.Tokens.{Word};
ghost use Rattle.pp_text.specs.steps.Shapes.{Shape, IsShape};
ghost use Rattle.pp_text.specs.Statements.{AreCall};
ghost use Rattle.pp_text.specs.steps.View.{token_of, tokens_of, call_of, shape_of};

use crate::edge::{at_word, number_and_target, target_in};
use crate::node::kind_in;
use crate::token::Token;
use crate::word::{name_in, small_number_in, width_in};
use pp_graph::{KindText, Width};

/// A statement that adds one call.
#[derive(Clone, Copy)]
pub(crate) enum Call<'t> {
    Prop { name: &'t str, width: Width },
    Host { name: &'t str, value: bool },
    Span { name: &'t str },
    Entry { node: &'t str },
    Finish { prop: &'t str, host: &'t str },
    Node { name: &'t str, kind: KindText<'t> },
    Answer { number: u32, target: &'t str },
    Otherwise { skip: bool, target: &'t str },
}

/// A statement. Its keys are quoted and bracketed tokens, which are not read yet.
#[derive(Clone, Copy)]
pub(crate) enum Statement<'s, 't> {
    One(Call<'t>),
    Keys {
        keys: &'s [Token<'t>],
        number: Option<u32>,
        target: &'t str,
    },
    Peeks {
        keys: &'s [Token<'t>],
        target: &'t str,
    },
}

/// The statement that tokens are.
pub(crate) fn statement_of<'s, 't>(tokens: &'s [Token<'t>]) -> Option<Statement<'s, 't>>
    ensures found { IfSome result (λ s. IsShape (tokens_of tokens.now) (shape_of s)) }
    ensures only { (shape : Shape) → IsShape (tokens_of tokens.now) shape → IsSomeAnd result (λ s. shape_of s ≡ shape) }
{
    match tokens {
        [Token::Word(word), rest @ ..] => statement_in(word, rest),
        _ => None,
    }
}

// A statement, from its first word and the tokens behind it.
fn statement_in<'s, 't>(word: &[u8], rest: &'s [Token<'t>]) -> Option<Statement<'s, 't>>
    ensures found { IfSome result (λ s. IsShape (Word word.now ∷ tokens_of rest.now) (shape_of s)) }
    ensures only { (shape : Shape) → IsShape (Word word.now ∷ tokens_of rest.now) shape → IsSomeAnd result (λ s. shape_of s ≡ shape) }
{
    match word {
        b"on" => keys_in(rest),
        b"peek" => peeks_in(rest),
        _ => Some(Statement::One(call_in(word, rest)?)),
    }
}

// Behind `on`: keys, a number or none, and a node.
fn keys_in<'s, 't>(rest: &'s [Token<'t>]) -> Option<Statement<'s, 't>>
    ensures found { IfSome result (λ s. IsShape (Word (codes "on") ∷ tokens_of rest.now) (shape_of s)) }
    ensures only { (shape : Shape) → IsShape (Word (codes "on") ∷ tokens_of rest.now) shape → IsSomeAnd result (λ s. shape_of s ≡ shape) }
{
    let (keys, rest) = at_word(rest);
    if keys.is_empty() {
        return None;
    }
    let (number, target) = number_and_target(rest)?;
    Some(Statement::Keys {
        keys,
        number,
        target,
    })
}

// Behind `peek`: keys, and a node.
fn peeks_in<'s, 't>(rest: &'s [Token<'t>]) -> Option<Statement<'s, 't>>
    ensures found { IfSome result (λ s. IsShape (Word (codes "peek") ∷ tokens_of rest.now) (shape_of s)) }
    ensures only { (shape : Shape) → IsShape (Word (codes "peek") ∷ tokens_of rest.now) shape → IsSomeAnd result (λ s. shape_of s ≡ shape) }
{
    let (keys, rest) = at_word(rest);
    if keys.is_empty() {
        return None;
    }
    let target = target_in(rest)?;
    Some(Statement::Peeks { keys, target })
}

// A statement that adds one call, from its first word and the tokens behind it.
fn call_in<'t>(word: &[u8], rest: &[Token<'t>]) -> Option<Call<'t>>
    ensures found { IfSome result (λ c. AreCall (Word word.now ∷ tokens_of rest.now) (call_of c)) }
    ensures only { (what : BuilderCall) → AreCall (Word word.now ∷ tokens_of rest.now) what → IsSomeAnd result (λ c. call_of c ≡ what) }
{
    match word {
        b"prop" => prop_in(rest),
        b"host" => host_in(rest),
        b"span" => span_in(rest),
        b"entry" => entry_in(rest),
        b"finish" => finish_in(rest),
        b"node" => node_in(rest),
        b"is" => answer_in(rest),
        b"else" => otherwise_in(false, rest),
        b"skip" => otherwise_in(true, rest),
        _ => None,
    }
}

// Behind `prop`: a name and a width.
fn prop_in<'t>(rest: &[Token<'t>]) -> Option<Call<'t>>
    ensures found { IfSome result (λ c. AreCall (Word (codes "prop") ∷ tokens_of rest.now) (call_of c)) }
    ensures only { (what : BuilderCall) → AreCall (Word (codes "prop") ∷ tokens_of rest.now) what → IsSomeAnd result (λ c. call_of c ≡ what) }
{
    match rest {
        [name, width] => Some(Call::Prop {
            name: name_in(name)?,
            width: width_in(width)?,
        }),
        _ => None,
    }
}

// Behind `host`: a name, and `match` or `value`.
fn host_in<'t>(rest: &[Token<'t>]) -> Option<Call<'t>>
    ensures found { IfSome result (λ c. AreCall (Word (codes "host") ∷ tokens_of rest.now) (call_of c)) }
    ensures only { (what : BuilderCall) → AreCall (Word (codes "host") ∷ tokens_of rest.now) what → IsSomeAnd result (λ c. call_of c ≡ what) }
{
    match rest {
        [name, value] => Some(Call::Host {
            name: name_in(name)?,
            value: value_in(value)?,
        }),
        _ => None,
    }
}

// Whether a host returns a value: `value`, or `match`.
fn value_in(token: &Token<'_>) -> Option<bool>
    ensures found { IfSome result (λ value. token_of token.now ≡ Word (if value then codes "value" else codes "match")) }
    ensures only { (value : Bool) → token_of token.now ≡ Word (if value then codes "value" else codes "match") → result ≡ Some value }
{
    match token {
        Token::Word(b"match") => Some(false),
        Token::Word(b"value") => Some(true),
        _ => None,
    }
}

// Behind `span`: a name.
fn span_in<'t>(rest: &[Token<'t>]) -> Option<Call<'t>>
    ensures found { IfSome result (λ c. AreCall (Word (codes "span") ∷ tokens_of rest.now) (call_of c)) }
    ensures only { (what : BuilderCall) → AreCall (Word (codes "span") ∷ tokens_of rest.now) what → IsSomeAnd result (λ c. call_of c ≡ what) }
{
    match rest {
        [name] => Some(Call::Span {
            name: name_in(name)?,
        }),
        _ => None,
    }
}

// Behind `entry`: a node.
fn entry_in<'t>(rest: &[Token<'t>]) -> Option<Call<'t>>
    ensures found { IfSome result (λ c. AreCall (Word (codes "entry") ∷ tokens_of rest.now) (call_of c)) }
    ensures only { (what : BuilderCall) → AreCall (Word (codes "entry") ∷ tokens_of rest.now) what → IsSomeAnd result (λ c. call_of c ≡ what) }
{
    match rest {
        [node] => Some(Call::Entry {
            node: name_in(node)?,
        }),
        _ => None,
    }
}

// Behind `finish`: a property and a host.
fn finish_in<'t>(rest: &[Token<'t>]) -> Option<Call<'t>>
    ensures found { IfSome result (λ c. AreCall (Word (codes "finish") ∷ tokens_of rest.now) (call_of c)) }
    ensures only { (what : BuilderCall) → AreCall (Word (codes "finish") ∷ tokens_of rest.now) what → IsSomeAnd result (λ c. call_of c ≡ what) }
{
    match rest {
        [prop, host] => Some(Call::Finish {
            prop: name_in(prop)?,
            host: name_in(host)?,
        }),
        _ => None,
    }
}

// Behind `node`: a name, and what the node does.
fn node_in<'t>(rest: &[Token<'t>]) -> Option<Call<'t>>
    ensures found { IfSome result (λ c. AreCall (Word (codes "node") ∷ tokens_of rest.now) (call_of c)) }
    ensures only { (what : BuilderCall) → AreCall (Word (codes "node") ∷ tokens_of rest.now) what → IsSomeAnd result (λ c. call_of c ≡ what) }
{
    match rest {
        [name, kind @ ..] => Some(Call::Node {
            name: name_in(name)?,
            kind: kind_in(kind)?,
        }),
        _ => None,
    }
}

// Behind `is`: a number and a node.
fn answer_in<'t>(rest: &[Token<'t>]) -> Option<Call<'t>>
    ensures found { IfSome result (λ c. AreCall (Word (codes "is") ∷ tokens_of rest.now) (call_of c)) }
    ensures only { (what : BuilderCall) → AreCall (Word (codes "is") ∷ tokens_of rest.now) what → IsSomeAnd result (λ c. call_of c ≡ what) }
{
    match rest {
        [number, rest @ ..] => Some(Call::Answer {
            number: small_number_in(number)?,
            target: target_in(rest)?,
        }),
        _ => None,
    }
}

// Behind `else` or `skip`: a node.
fn otherwise_in<'t>(skip: bool, rest: &[Token<'t>]) -> Option<Call<'t>>
    ensures found { IfSome result (λ c. AreCall (Word (if skip then codes "skip" else codes "else") ∷ tokens_of rest.now) (call_of c)) }
    ensures only { (what : BuilderCall) → AreCall (Word (if skip then codes "skip" else codes "else") ∷ tokens_of rest.now) what
        → IsSomeAnd result (λ c. call_of c ≡ what) }
{
    let target = target_in(rest)?;
    Some(Call::Otherwise { skip, target })
}
