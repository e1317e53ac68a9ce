// Tokens.
ghost use Rattle.std.specs.Prelude.{◌≡◌, ◌∷◌, ◌++◌, ℕ, List, IsTrue, IfSome, IsSomeAnd, false, ◌≤◌, length};
ghost use Rattle.std.specs.List.{prefix_len};
ghost use Rattle.pp_text.specs.Tokens.{Token as SpecToken, is_token, token_text, is_inside, is_word};
ghost use Rattle.pp_text.specs.Tokens.{is_printed as is_printed_byte, is_word_byte as is_word_byte_of};
ghost use Rattle.pp_text.specs.steps.Reading.{ends_token as ends_token_of};
ghost use Rattle.pp_text.specs.steps.View.{token_of};

/// A token as it is written: a word; what stands between double quotes; what stands between brackets.
#[derive(Clone, Copy)]
pub(crate) enum Token<'t> {
    Word(&'t [u8]),
    Quoted(&'t [u8]),
    Bracketed(&'t [u8]),
}

/// The token that the bytes begin with, and the bytes behind it. `None` where none begins them, and where something
/// other than a blank, a `;`, a comment or nothing stands directly behind it.
pub(crate) fn token_at(bytes: &[u8]) -> Option<(Token<'_>, &[u8])>
    ensures spelled { IfSome result (λ r. bytes.now ≡ token_text (token_of r.0) ++ r.1.now) }
    ensures token { IfSome result (λ r. IsTrue (is_token (token_of r.0))) }
    ensures ended { IfSome result (λ r. IsTrue (ends_token_of r.1.now)) }
    ensures only { (t : SpecToken) (rest : List ℕ) → IsTrue (is_token t) → IsTrue (ends_token_of rest) → bytes.now ≡ token_text t ++ rest
        → IsSomeAnd result (λ r. (token_of r.0 ≡ t) × (r.1.now ≡ rest)) }
{
    let (token, rest) = begin_token(bytes)?;
    ends_token(rest).then_some((token, rest))
}

// The token that the bytes begin with, and the bytes behind it, whatever they are.
fn begin_token(bytes: &[u8]) -> Option<(Token<'_>, &[u8])>
    ensures spelled { IfSome result (λ r. bytes.now ≡ token_text (token_of r.0) ++ r.1.now) }
    ensures token { IfSome result (λ r. IsTrue (is_token (token_of r.0))) }
    ensures only { (t : SpecToken) (rest : List ℕ) → IsTrue (is_token t) → IsTrue (ends_token_of rest) → bytes.now ≡ token_text t ++ rest
        → IsSomeAnd result (λ r. (token_of r.0 ≡ t) × (r.1.now ≡ rest)) }
{
    match bytes {
        [b'"', behind @ ..] => {
            let (inside, rest) = inside_of(b'"', behind)?;
            Some((Token::Quoted(inside), rest))
        }
        [b'[', behind @ ..] => {
            let (inside, rest) = inside_of(b']', behind)?;
            Some((Token::Bracketed(inside), rest))
        }
        _ => {
            let (word, rest) = word_of(bytes)?;
            Some((Token::Word(word), rest))
        }
    }
}

// What stands in front of the first `close` that no backslash escapes, and what behind it.
fn inside_of(close: u8, bytes: &[u8]) -> Option<(&[u8], &[u8])>
    ensures spelled { IfSome result (λ r. bytes.now ≡ r.0.now ++ close ∷ r.1.now) }
    ensures inside { IfSome result (λ r. IsTrue (is_inside close false r.0.now)) }
    ensures only { (inside rest : List ℕ) → IsTrue (is_inside close false inside) → bytes.now ≡ inside ++ close ∷ rest
        → IsSomeAnd result (λ r. (r.0.now ≡ inside) × (r.1.now ≡ rest)) }
{
    let mut escaped = false;
    for (i, byte) in bytes.iter().enumerate() {
        if *byte == close && !escaped {
            return Some((&bytes[..i], &bytes[i + 1..]));
        }
        if !is_printed(*byte) {
            return None;
        }
        escaped = *byte == b'\\' && !escaped;
    }
    None
}

// A byte from 0x20 to 0x7e.
fn is_printed(b: u8) -> bool
    ensures { result ≡ is_printed_byte b }
{
    matches!(b, b' '..=b'~')
}

// The word that the bytes begin with, if one does, and what stands behind it.
fn word_of(bytes: &[u8]) -> Option<(&[u8], &[u8])>
    ensures spelled { IfSome result (λ r. bytes.now ≡ r.0.now ++ r.1.now) }
    ensures word { IfSome result (λ r. IsTrue (is_word r.0.now)) }
    ensures only { (word rest : List ℕ) → IsTrue (is_word word) → IsTrue (ends_token_of rest) → bytes.now ≡ word ++ rest
        → IsSomeAnd result (λ r. (r.0.now ≡ word) × (r.1.now ≡ rest)) }
{
    let end = word_length(bytes);
    (end > 0).then_some((&bytes[..end], &bytes[end..]))
}

// How many word bytes come first.
fn word_length(bytes: &[u8]) -> usize
    ensures run { result ≡ prefix_len is_word_byte_of bytes.now }
    ensures within { result ≤ length bytes.now }
{
    bytes.iter().take_while(|b| is_word_byte(**b)).count()
}

// A letter, a digit, `_`, `-`, `=` or `>`.
fn is_word_byte(b: u8) -> bool
    ensures { result ≡ is_word_byte_of b }
{
    b.is_ascii_alphanumeric() || b == b'_' || b == b'-' || b == b'=' || b == b'>'
}

// Whether a blank, a `;`, a comment or nothing comes first.
fn ends_token(bytes: &[u8]) -> bool
    ensures { result ≡ ends_token_of bytes.now }
{
    matches!(bytes, [] | [b' ' | b'\t' | b';' | b'#', ..])
}
