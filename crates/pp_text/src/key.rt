// Keys and sets, as tokens write them.
ghost use Rattle.std.specs.Prelude.{◌≡◌, ◌≢◌, ℕ, ◌+◌, ◌*◌, ◌<◌, ◌||◌, ◌&&◌, ◌∷◌, List, IsTrue, IfOk, IfSome, IfNone, IsSomeAnd};
ghost use Rattle.std.specs.Char.{digit_value};
ghost use Rattle.std.specs.FinSet as set;
ghost use Rattle.std.specs.Option.{SomeIff};
ghost use Rattle.pp_text.specs.Keys.{Raw, Escape, SpellsKey, SpellsSet, escaped_byte, is_hex};
ghost use Rattle.pp_text.specs.steps.Places.{BeginsByte, BeginsItem, is_between, is_byte_in, is_no_range};
ghost use Rattle.pp_text.specs.steps.Reading.{HasBytes};

use pp_bytes::ByteSet;
use std::alloc::{AllocError, Global};

/// The key that stands between quotes.
pub(crate) fn key_of(alloc: Global, inside: &[u8]) -> Result<Option<Vec<u8>>, AllocError>
    ensures found { IfOk result (λ r. IfSome r (λ key. SpellsKey inside.now key.items)) }
    ensures only { (key : List ℕ) → SpellsKey inside.now key → IfOk result (λ r. IsSomeAnd r (λ k. k.items ≡ key)) }
{
    let mut key = Vec::new(alloc);
    let mut rest = inside;
    while !rest.is_empty() {
        let Some((byte, behind)) = byte_at(Place::Key, rest) else {
            return Ok(None);
        };
        key.push(byte)?;
        rest = behind;
    }
    Ok(Some(key))
}

/// The set that stands between brackets.
pub(crate) fn set_of(inside: &[u8]) -> Option<ByteSet>
    ensures found { IfSome result (λ set. (bytes : List ℕ) × SpellsSet inside.now bytes × HasBytes set bytes) }
    ensures only { (bytes : List ℕ) → SpellsSet inside.now bytes → IsSomeAnd result (λ set. HasBytes set bytes) }
{
    if inside.is_empty() {
        return None;
    }
    let mut set = ByteSet::new();
    let mut rest = inside;
    while !rest.is_empty() {
        let (first, last, behind) = item_at(rest)?;
        add_range(&mut set, first, last);
        rest = behind;
    }
    Some(set)
}

// Adds the bytes from the first to the last.
fn add_range(bytes: &mut ByteSet, first: u8, last: u8)
    ensures { (b : ℕ) → set.contains bytes.new b ≡ (set.contains bytes.old b || is_between first last b) }
{
    for byte in first..=last {
        bytes.add(byte);
    }
}

// The first and the last byte of the item that stands at the front of a set, and the text behind it.
fn item_at(text: &[u8]) -> Option<(u8, u8, &[u8])>
    ensures found { IfSome result (λ r. BeginsItem text.now r.0 r.1 r.2.now) }
    ensures only { (first last : ℕ) (rest : List ℕ) → BeginsItem text.now first last rest → IsTrue (is_no_range rest) → IsSomeAnd result (λ r. (r.2.now ≡ rest) × ((b : ℕ) → is_between r.0 r.1 b ≡ is_between first last b)) }
{
    let (first, behind) = byte_at(Place::Set, text)?;
    let Some(range) = behind_dash(behind) else {
        return Some((first, first, behind));
    };
    let (last, rest) = byte_at(Place::Set, range)?;
    if last < first {
        return None;
    }
    Some((first, last, rest))
}

// The text behind a `-` in front.
fn behind_dash(text: &[u8]) -> Option<&[u8]>
    ensures found { IfSome result (λ rest. text.now ≡ 45 ∷ rest.now) }
    ensures none { IfNone result ((rest : List ℕ) → text.now ≢ 45 ∷ rest) }
{
    match text {
        [b'-', rest @ ..] => Some(rest),
        _ => None,
    }
}

// Where a byte is written.
#[derive(Clone, Copy)]
enum Place {
    Key,
    Set,
}

impl Place {
    // Whether a byte may stand for itself.
    fn is_raw(self, byte: u8) -> bool
        ensures { result ≡ is_byte_in self (Raw byte) }
    {
        let excluded = match self {
            Place::Key => byte == b'"' || byte == b'\\',
            Place::Set => byte == b'\\' || byte == b']' || byte == b'-',
        };
        (b' '..=b'~').contains(&byte) && !excluded
    }

    // The byte that a character stands for behind a backslash.
    fn escaped(self, character: u8) -> Option<u8>
        ensures { SomeIff result (IsTrue (is_byte_in self (Escape character))) (escaped_byte character) }
    {
        match (character, self) {
            (b'r', _) => Some(b'\r'),
            (b'n', _) => Some(b'\n'),
            (b't', _) => Some(b'\t'),
            (b'\\', _) | (b'"', Place::Key) | (b']' | b'-', Place::Set) => Some(character),
            _ => None,
        }
    }
}

// The byte that is written at the front, and the text behind it.
fn byte_at(place: Place, text: &[u8]) -> Option<(u8, &[u8])>
    ensures found { IfSome result (λ r. BeginsByte place text.now r.0 r.1.now) }
    ensures only { (byte : ℕ) (rest : List ℕ) → BeginsByte place text.now byte rest → IsSomeAnd result (λ r. (r.0 ≡ byte) × (r.1.now ≡ rest)) }
{
    match text {
        [b'\\', escape @ ..] => escape_at(place, escape),
        [byte, rest @ ..] if place.is_raw(*byte) => Some((*byte, rest)),
        _ => None,
    }
}

// The byte that is written by a backslash in front of a text, and the rest of the text.
fn escape_at(place: Place, text: &[u8]) -> Option<(u8, &[u8])>
    ensures found { IfSome result (λ r. BeginsByte place (92 ∷ text.now) r.0 r.1.now) }
    ensures only { (byte : ℕ) (rest : List ℕ) → BeginsByte place (92 ∷ text.now) byte rest → IsSomeAnd result (λ r. (r.0 ≡ byte) × (r.1.now ≡ rest)) }
{
    match text {
        [b'x', high, low, rest @ ..] => Some((hex_byte(*high, *low)?, rest)),
        [character, rest @ ..] => Some((place.escaped(*character)?, rest)),
        [] => None,
    }
}

// The byte that two hexadecimal digits write.
fn hex_byte(high: u8, low: u8) -> Option<u8>
    ensures { SomeIff result (IsTrue (is_hex high && is_hex low)) (digit_value high * 16 + digit_value low) }
{
    Some(hex_value(high)? * 16 + hex_value(low)?)
}

// The value of a hexadecimal digit of either case.
fn hex_value(digit: u8) -> Option<u8>
    ensures { SomeIff result (digit_value digit < 16) (digit_value digit) }
{
    match digit {
        b'0'..=b'9' => Some(digit - b'0'),
        b'a'..=b'f' => Some(digit - b'a' + 10),
        b'A'..=b'F' => Some(digit - b'A' + 10),
        _ => None,
    }
}
