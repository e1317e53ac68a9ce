// What a token says by itself.
ghost use Rattle.std.specs.Prelude.{◌≡◌, ◌<◌, ◌^◌, ◌↔◌, ℕ, List, Some, IfSome, IsSomeAnd, IsTrue};
ghost use Rattle.pp_rules.specs.Names.{IsName, IsReason};
ghost use Rattle.pp_rules.specs.declared.declaration.Width.{Width as SpecWidth};
ghost use Rattle.pp_text.specs.Tokens.{Word, Quoted};
ghost use Rattle.pp_text.specs.Statements.{width_word, number_word};
ghost use Rattle.pp_text.specs.steps.View.{token_of};

use crate::token::Token;
use pp_bytes::read_number;
use pp_graph::{Width, is_name, is_reason};

/// The name that a word is.
pub(crate) fn name_in<'t>(token: &Token<'t>) -> Option<&'t str>
    ensures found { IfSome result (λ s. (token_of token.now ≡ Word s.now) × IsName s.now) }
    ensures only { (name : List ℕ) → IsName name → token_of token.now ≡ Word name → IsSomeAnd result (λ s. s.now ≡ name) }
{
    match token {
        Token::Word(bytes) => name_of(bytes),
        Token::Quoted(_) | Token::Bracketed(_) => None,
    }
}

// The text of a name.
fn name_of(bytes: &[u8]) -> Option<&str>
    ensures found { IfSome result (λ s. (s.now ≡ bytes.now) × IsName bytes.now) }
    ensures only { IsName bytes.now → IsSomeAnd result (λ s. s.now ≡ bytes.now) }
{
    if is_name(bytes) {
        str::from_utf8(bytes).ok()
    } else {
        None
    }
}

/// The reason that stands between quotes.
pub(crate) fn reason_in<'t>(token: &Token<'t>) -> Option<&'t str>
    ensures found { IfSome result (λ s. (token_of token.now ≡ Quoted s.now) × IsReason s.now) }
    ensures only { (reason : List ℕ) → IsReason reason → token_of token.now ≡ Quoted reason → IsSomeAnd result (λ s. s.now ≡ reason) }
{
    match token {
        Token::Quoted(inside) => reason_of(inside),
        Token::Word(_) | Token::Bracketed(_) => None,
    }
}

// The text of a reason.
fn reason_of(bytes: &[u8]) -> Option<&str>
    ensures found { IfSome result (λ s. (s.now ≡ bytes.now) × IsReason bytes.now) }
    ensures only { IsReason bytes.now → IsSomeAnd result (λ s. s.now ≡ bytes.now) }
{
    if is_reason(bytes) {
        str::from_utf8(bytes).ok()
    } else {
        None
    }
}

/// The number that a word is, below 2^64.
pub(crate) fn number_in(token: &Token<'_>) -> Option<u64>
    ensures found { IfSome result (λ n. token_of token.now ≡ number_word n) }
    ensures only { (n : ℕ) → n < 2 ^ 64 → token_of token.now ≡ number_word n → result ≡ Some n }
{
    match token {
        Token::Word(bytes) => read_number(bytes),
        Token::Quoted(_) | Token::Bracketed(_) => None,
    }
}

/// The number that a word is, below 2^32.
pub(crate) fn small_number_in(token: &Token<'_>) -> Option<u32>
    ensures found { IfSome result (λ n. token_of token.now ≡ number_word n) }
    ensures only { (n : ℕ) → n < 2 ^ 32 → token_of token.now ≡ number_word n → result ≡ Some n }
{
    u32::try_from(number_in(token)?).ok()
}

/// The width that a word names.
pub(crate) fn width_in(token: &Token<'_>) -> Option<Width>
    ensures found { IfSome result (λ width. token_of token.now ≡ width_word width) }
    ensures only { (width : SpecWidth) → token_of token.now ≡ width_word width → result ≡ Some width }
{
    match token {
        Token::Word(b"u8") => Some(Width::W8),
        Token::Word(b"u16") => Some(Width::W16),
        Token::Word(b"u32") => Some(Width::W32),
        Token::Word(b"u64") => Some(Width::W64),
        _ => None,
    }
}

/// Whether a token is this word.
pub(crate) fn is_word(token: Token<'_>, word: &[u8]) -> bool
    ensures { IsTrue result ↔ (token_of token.entry ≡ Word word.now) }
{
    match token {
        Token::Word(bytes) => bytes == word,
        Token::Quoted(_) | Token::Bracketed(_) => false,
    }
}
