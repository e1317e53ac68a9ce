// What a node does, from the tokens behind its name.
ghost use Rattle.std.specs.Prelude.{◌≡◌, ◌<◌, ◌^◌, ◌∷◌, [], ℕ, List, Option, Some, codes, IfSome, IsSomeAnd};
ghost use Rattle.pp_bytes.specs.declared.fold.Fold.{Fold as SpecFold};
ghost use Rattle.pp_rules.specs.declared.call.NamedCode.{NamedCode};
ghost use Rattle.pp_rules.specs.declared.call.NamedKind.{NamedKind};
ghost use Rattle.pp_rules.specs.declared.call.NamedKind.TheVariants as kind;
ghost use Rattle.pp_graph.specs.Calls.{named_code, named_kind};
ghost use Rattle.pp_rules.specs.declared.call.Constant.{Constant as SpecConstant};
ghost use Rattle.pp_rules.specs.Names.{IsName, IsReason};
ghost use Rattle.pp_text.specs.Tokens.{Word, Quoted};
ghost use Rattle.pp_text.specs.Statements.{number_word, constant_word, most_tokens, fold_tokens, MostFits};
ghost use Rattle.pp_text.specs.steps.View.{tokens_of};
ghost use Rattle.pp_text.specs.steps.Kinds.{AreCode, AreKind};

use crate::token::Token;
use crate::word::{name_in, number_in, reason_in, small_number_in};
use pp_bytes::Fold;
use pp_graph::{CodeText, Constant, KindText};

/// What a node does.
pub(crate) fn kind_in<'t>(tokens: &[Token<'t>]) -> Option<KindText<'t>>
    ensures found { IfSome result (λ k. AreKind (tokens_of tokens.now) (named_kind k)) }
    ensures only { (what : NamedKind) → AreKind (tokens_of tokens.now) what → IsSomeAnd result (λ k. named_kind k ≡ what) }
{
    match tokens {
        [Token::Word(word), rest @ ..] => kind_of(word, rest),
        _ => None,
    }
}

// What a node does, from the first word and the tokens behind it.
fn kind_of<'t>(word: &[u8], rest: &[Token<'t>]) -> Option<KindText<'t>>
    ensures found { IfSome result (λ k. AreKind (Word word.now ∷ tokens_of rest.now) (named_kind k)) }
    ensures only { (what : NamedKind) → AreKind (Word word.now ∷ tokens_of rest.now) what → IsSomeAnd result (λ k. named_kind k ≡ what) }
{
    match word {
        b"match" => match_in(rest),
        b"consume" => consume_in(rest),
        b"open" => open_in(rest),
        b"close" => close_in(rest),
        b"pause" => pause_in(rest),
        b"error" => fail_in(rest),
        _ => invoke_in(word, rest),
    }
}

// An invoke node, from the first word and the tokens behind it.
fn invoke_in<'t>(word: &[u8], rest: &[Token<'t>]) -> Option<KindText<'t>>
    ensures found { IfSome result (λ k. AreKind (Word word.now ∷ tokens_of rest.now) (named_kind k)) }
    ensures only { (what : NamedCode) → AreCode (Word word.now ∷ tokens_of rest.now) what → IsSomeAnd result (λ k. named_kind k ≡ kind.Invoke what) }
{
    let code = code_of(word, rest)?;
    Some(KindText::Invoke { code })
}

// Behind `match`: how bytes are compared.
fn match_in<'t>(rest: &[Token<'t>]) -> Option<KindText<'t>>
    ensures found { IfSome result (λ k. AreKind (Word (codes "match") ∷ tokens_of rest.now) (named_kind k)) }
    ensures only { (what : NamedKind) → AreKind (Word (codes "match") ∷ tokens_of rest.now) what → IsSomeAnd result (λ k. named_kind k ≡ what) }
{
    let fold = fold_in(rest)?;
    Some(KindText::Match { fold })
}

// Nothing, or `lower`.
fn fold_in(rest: &[Token<'_>]) -> Option<Fold>
    ensures found { IfSome result (λ fold. tokens_of rest.now ≡ fold_tokens fold) }
    ensures only { (fold : SpecFold) → tokens_of rest.now ≡ fold_tokens fold → result ≡ Some fold }
{
    match rest {
        [] => Some(Fold::Same),
        [Token::Word(b"lower")] => Some(Fold::Lower),
        _ => None,
    }
}

// Behind `consume`: a property.
fn consume_in<'t>(rest: &[Token<'t>]) -> Option<KindText<'t>>
    ensures found { IfSome result (λ k. AreKind (Word (codes "consume") ∷ tokens_of rest.now) (named_kind k)) }
    ensures only { (what : NamedKind) → AreKind (Word (codes "consume") ∷ tokens_of rest.now) what → IsSomeAnd result (λ k. named_kind k ≡ what) }
{
    match rest {
        [prop] => Some(KindText::Consume {
            prop: name_in(prop)?,
        }),
        _ => None,
    }
}

// Behind `open`: a span.
fn open_in<'t>(rest: &[Token<'t>]) -> Option<KindText<'t>>
    ensures found { IfSome result (λ k. AreKind (Word (codes "open") ∷ tokens_of rest.now) (named_kind k)) }
    ensures only { (what : NamedKind) → AreKind (Word (codes "open") ∷ tokens_of rest.now) what → IsSomeAnd result (λ k. named_kind k ≡ what) }
{
    match rest {
        [span] => Some(KindText::SpanOpen {
            span: name_in(span)?,
        }),
        _ => None,
    }
}

// Behind `close`: a span.
fn close_in<'t>(rest: &[Token<'t>]) -> Option<KindText<'t>>
    ensures found { IfSome result (λ k. AreKind (Word (codes "close") ∷ tokens_of rest.now) (named_kind k)) }
    ensures only { (what : NamedKind) → AreKind (Word (codes "close") ∷ tokens_of rest.now) what → IsSomeAnd result (λ k. named_kind k ≡ what) }
{
    match rest {
        [span] => Some(KindText::SpanClose {
            span: name_in(span)?,
        }),
        _ => None,
    }
}

// Behind `pause`: a code and a reason.
fn pause_in<'t>(rest: &[Token<'t>]) -> Option<KindText<'t>>
    ensures found { IfSome result (λ k. AreKind (Word (codes "pause") ∷ tokens_of rest.now) (named_kind k)) }
    ensures only { (what : NamedKind) → AreKind (Word (codes "pause") ∷ tokens_of rest.now) what → IsSomeAnd result (λ k. named_kind k ≡ what) }
{
    let (code, reason) = code_and_reason(rest)?;
    Some(KindText::Pause { code, reason })
}

// Behind `error`: a code and a reason.
fn fail_in<'t>(rest: &[Token<'t>]) -> Option<KindText<'t>>
    ensures found { IfSome result (λ k. AreKind (Word (codes "error") ∷ tokens_of rest.now) (named_kind k)) }
    ensures only { (what : NamedKind) → AreKind (Word (codes "error") ∷ tokens_of rest.now) what → IsSomeAnd result (λ k. named_kind k ≡ what) }
{
    let (code, reason) = code_and_reason(rest)?;
    Some(KindText::Fail { code, reason })
}

// A code, and a reason between quotes.
fn code_and_reason<'t>(rest: &[Token<'t>]) -> Option<(u32, &'t str)>
    ensures found { IfSome result (λ r. (tokens_of rest.now ≡ number_word r.0 ∷ Quoted r.1.now ∷ []) × IsReason r.1.now) }
    ensures only { (number : ℕ) (reason : List ℕ) → number < 2 ^ 32 → IsReason reason → tokens_of rest.now ≡ number_word number ∷ Quoted reason ∷ []
        → IsSomeAnd result (λ r. (r.0 ≡ number) × (r.1.now ≡ reason)) }
{
    match rest {
        [code, reason] => Some((small_number_in(code)?, reason_in(reason)?)),
        _ => None,
    }
}

// What an invoke node runs, from the first word and the tokens behind it.
fn code_of<'t>(word: &[u8], rest: &[Token<'t>]) -> Option<CodeText<'t>>
    ensures found { IfSome result (λ k. AreCode (Word word.now ∷ tokens_of rest.now) (named_code k)) }
    ensures only { (what : NamedCode) → AreCode (Word word.now ∷ tokens_of rest.now) what → IsSomeAnd result (λ k. named_code k ≡ what) }
{
    match word {
        b"call" => call_in(rest),
        b"store" => store_in(rest),
        b"load" => load_in(rest),
        b"muladd" => muladd_in(rest),
        _ => constant_in(constant_of(word)?, rest),
    }
}

// Behind `call`: a host.
fn call_in<'t>(rest: &[Token<'t>]) -> Option<CodeText<'t>>
    ensures found { IfSome result (λ k. AreCode (Word (codes "call") ∷ tokens_of rest.now) (named_code k)) }
    ensures only { (what : NamedCode) → AreCode (Word (codes "call") ∷ tokens_of rest.now) what → IsSomeAnd result (λ k. named_code k ≡ what) }
{
    match rest {
        [host] => Some(CodeText::Call {
            host: name_in(host)?,
        }),
        _ => None,
    }
}

// Behind `store`: a property.
fn store_in<'t>(rest: &[Token<'t>]) -> Option<CodeText<'t>>
    ensures found { IfSome result (λ k. AreCode (Word (codes "store") ∷ tokens_of rest.now) (named_code k)) }
    ensures only { (what : NamedCode) → AreCode (Word (codes "store") ∷ tokens_of rest.now) what → IsSomeAnd result (λ k. named_code k ≡ what) }
{
    match rest {
        [prop] => Some(CodeText::Store {
            prop: name_in(prop)?,
        }),
        _ => None,
    }
}

// Behind `load`: a property.
fn load_in<'t>(rest: &[Token<'t>]) -> Option<CodeText<'t>>
    ensures found { IfSome result (λ k. AreCode (Word (codes "load") ∷ tokens_of rest.now) (named_code k)) }
    ensures only { (what : NamedCode) → AreCode (Word (codes "load") ∷ tokens_of rest.now) what → IsSomeAnd result (λ k. named_code k ≡ what) }
{
    match rest {
        [prop] => Some(CodeText::Load {
            prop: name_in(prop)?,
        }),
        _ => None,
    }
}

// Behind `muladd`: a property and a base, and the most behind `max`, if there is one.
fn muladd_in<'t>(rest: &[Token<'t>]) -> Option<CodeText<'t>>
    ensures found { IfSome result (λ k. AreCode (Word (codes "muladd") ∷ tokens_of rest.now) (named_code k)) }
    ensures only { (what : NamedCode) → AreCode (Word (codes "muladd") ∷ tokens_of rest.now) what → IsSomeAnd result (λ k. named_code k ≡ what) }
{
    let [prop, base, most @ ..] = rest else {
        return None;
    };
    Some(CodeText::MulAdd {
        prop: name_in(prop)?,
        base: small_number_in(base)?,
        max: most_in(most)?,
    })
}

// Nothing, or `max` and a number.
fn most_in(rest: &[Token<'_>]) -> Option<Option<u64>>
    ensures found { IfSome result (λ most. tokens_of rest.now ≡ most_tokens most) }
    ensures only { (most : Option ℕ) → MostFits most → tokens_of rest.now ≡ most_tokens most → result ≡ Some most }
{
    match rest {
        [] => Some(None),
        [Token::Word(b"max"), most] => Some(Some(number_in(most)?)),
        _ => None,
    }
}

// What a word says to do with a property and a number.
fn constant_of(word: &[u8]) -> Option<Constant>
    ensures found { IfSome result (λ what. Word word.now ≡ constant_word what) }
    ensures only { (what : SpecConstant) → Word word.now ≡ constant_word what → result ≡ Some what }
{
    match word {
        b"update" => Some(Constant::Update),
        b"equal" => Some(Constant::Equal),
        b"and" => Some(Constant::And),
        b"or" => Some(Constant::Or),
        b"test" => Some(Constant::Test),
        _ => None,
    }
}

// Behind `update`, `equal`, `and`, `or` or `test`: a property and a number.
fn constant_in<'t>(what: Constant, rest: &[Token<'t>]) -> Option<CodeText<'t>>
    ensures found { IfSome result (λ k. AreCode (constant_word what ∷ tokens_of rest.now) (named_code k)) }
    ensures only { (code : NamedCode) → AreCode (constant_word what ∷ tokens_of rest.now) code → IsSomeAnd result (λ k. named_code k ≡ code) }
{
    let (prop, value) = prop_and_number(rest)?;
    Some(match what {
        Constant::Update => CodeText::Update { prop, value },
        Constant::Equal => CodeText::Equal { prop, value },
        Constant::And => CodeText::And { prop, value },
        Constant::Or => CodeText::Or { prop, value },
        Constant::Test => CodeText::Test { prop, value },
    })
}

// A property and a number.
fn prop_and_number<'t>(rest: &[Token<'t>]) -> Option<(&'t str, u64)>
    ensures found { IfSome result (λ r. (tokens_of rest.now ≡ Word r.0.now ∷ number_word r.1 ∷ []) × IsName r.0.now) }
    ensures only { (prop : List ℕ) (value : ℕ) → IsName prop → value < 2 ^ 64 → tokens_of rest.now ≡ Word prop ∷ number_word value ∷ []
        → IsSomeAnd result (λ r. (r.0.now ≡ prop) × (r.1 ≡ value)) }
{
    match rest {
        [prop, value] => Some((name_in(prop)?, number_in(value)?)),
        _ => None,
    }
}
