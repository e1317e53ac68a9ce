// Edges, from the tokens behind their first word.
ghost use Rattle.std.specs.Prelude.{◌≡◌, ◌<◌, ◌++◌, ℕ, List, Option, IfSome, IsSomeAnd, MatchOption, length};
ghost use Rattle.std.specs.List.{AllWithin, HoldsAt};
ghost use Rattle.pp_rules.specs.Names.{IsName};
ghost use Rattle.pp_text.specs.Statements.{arrow_tokens, carried_tokens, NumberFits};
ghost use Rattle.pp_text.specs.steps.Shapes.{AreKeyTokens};
ghost use Rattle.pp_text.specs.steps.View.{tokens_of};
ghost use Rattle.pp_text.specs.steps.FirstWord.{StartsWithWord, IsKeyIn, IsWordIn};

use crate::token::Token;
use crate::word::{name_in, small_number_in};

/// An arrow, and the node behind it.
pub(crate) fn target_in<'t>(rest: &[Token<'t>]) -> Option<&'t str>
    ensures found { IfSome result (λ s. (tokens_of rest.now ≡ arrow_tokens s.now) × IsName s.now) }
    ensures only { (target : List ℕ) → IsName target → tokens_of rest.now ≡ arrow_tokens target → IsSomeAnd result (λ s. s.now ≡ target) }
{
    match rest {
        [Token::Word(b"->"), target] => name_in(target),
        _ => None,
    }
}

/// A number behind `=`, or none, and the node behind the arrow.
pub(crate) fn number_and_target<'t>(rest: &[Token<'t>]) -> Option<(Option<u32>, &'t str)>
    ensures found { IfSome result (λ r. (tokens_of rest.now ≡ carried_tokens r.0 ++ arrow_tokens r.1.now) × IsName r.1.now) }
    ensures only { (number : Option ℕ) (target : List ℕ) → NumberFits number → IsName target → tokens_of rest.now ≡ carried_tokens number ++ arrow_tokens target
        → IsSomeAnd result (λ r. (r.0 ≡ number) × (r.1.now ≡ target)) }
{
    match rest {
        [Token::Word(b"="), number, rest @ ..] => {
            Some((Some(small_number_in(number)?), target_in(rest)?))
        }
        _ => Some((None, target_in(rest)?)),
    }
}

/// The quoted and bracketed tokens in front of the first word, and the tokens from there on.
pub(crate) fn at_word<'s, 't>(tokens: &'s [Token<'t>]) -> (&'s [Token<'t>], &'s [Token<'t>])
    ensures split { tokens_of tokens.now ≡ tokens_of result.0.now ++ tokens_of result.1.now }
    ensures keys { AreKeyTokens (tokens_of result.0.now) }
    ensures word { StartsWithWord (tokens_of result.1.now) }
{
    tokens.split_at(first_word(tokens).unwrap_or(tokens.len()))
}

// The place of the first word.
fn first_word(tokens: &[Token<'_>]) -> Option<usize>
    ensures { MatchOption result (AllWithin IsKeyIn tokens.now 0 (length tokens.now))
        (λ at. (at < length tokens.now) × HoldsAt IsWordIn tokens.now at × AllWithin IsKeyIn tokens.now 0 at) }
{
    tokens
        .iter()
        .position(|token| matches!(token, Token::Word(_)))
}
