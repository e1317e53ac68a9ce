// The keys and peeks of a match node, by their bytes.
ghost use Rattle.std.specs.Prelude.{◌≡◌, ℕ, ◌<◌, ◌↔◌, Some, IfSome, IfNone, IsTrue, true, length, slice_index};
ghost use Rattle.std.specs.FinSet as set;
ghost use Rattle.std.specs.List.{Any};
ghost use Rattle.pp_bytes.specs.Fold.{folded};
ghost use Rattle.pp_graph.specs.declared.node.Key.{Key};
ghost use Rattle.pp_check.specs.steps.Ends.{GoesOnBy, IsLive, KeyBegins, PeekAt, IsKeyOf, StopsIn, StopsBehind};

use pp_bytes::{ByteSet, Fold};
use pp_graph::{Key, Peek};

/// The bytes that are compared as this one.
pub fn begun_by(fold: Fold, byte: u8) -> ByteSet
    ensures { (b : ℕ) → b < 256 → (set.contains result b ≡ true) ↔ (byte ≡ folded fold b) }
{
    let mut bytes = ByteSet::new();
    for b in 0..=u8::MAX {
        if fold.of(b) == byte {
            bytes.add(b);
        }
    }
    bytes
}

// The byte with which bytes go on behind a front, if they begin with it and go on.
fn next_byte(bytes: &[u8], front: &[u8]) -> Option<u8>
    ensures some { IfSome result (GoesOnBy front.now bytes.now) }
    ensures none { IfNone result ((c : ℕ) → GoesOnBy front.now bytes.now c → ⊥) }
{
    if front.len() < bytes.len() && &bytes[..front.len()] == front {
        return Some(bytes[front.len()]);
    }
    None
}

// The bytes with which keys go on behind a front.
fn next_bytes(keys: &[Key], front: &[u8]) -> ByteSet
    ensures { (c : ℕ) → c < 256 → (set.contains result c ≡ true) ↔ Any (λ (k : Key). GoesOnBy front.now k.bytes c) keys.now }
{
    let mut bytes = ByteSet::new();
    for place in 0..keys.len() {
        if let Some(byte) = next_byte(keys[place].bytes.items(), front) {
            bytes.add(byte);
        }
    }
    bytes
}

/// Whether a string may go on behind these bytes as no key does.
pub fn is_live(fold: Fold, keys: &[Key], front: &[u8]) -> bool
    ensures { IsTrue result ↔ IsLive fold keys.now front.now }
{
    let next = next_bytes(keys, front);
    for b in 0..=u8::MAX {
        if !next.has(fold.of(b)) {
            return true;
        }
    }
    false
}

// Whether these bytes are a key.
fn is_key(keys: &[Key], bytes: &[u8]) -> bool
    ensures { IsTrue result ↔ IsKeyOf keys.now bytes.now }
{
    for place in 0..keys.len() {
        if keys[place].bytes.items() == bytes {
            return true;
        }
    }
    false
}

// Whether a string may stop fitting behind some front of the bytes that is no key.
fn stops_in(fold: Fold, keys: &[Key], bytes: &[u8]) -> bool
    ensures { IsTrue result ↔ StopsIn fold keys.now bytes.now }
{
    for size in 1..bytes.len() {
        if !is_key(keys, &bytes[..size]) && is_live(fold, keys, &bytes[..size]) {
            return true;
        }
    }
    false
}

/// The first byte of bytes, 0 where there is none.
pub fn first_byte(bytes: &[u8]) -> u8
    ensures { result ≡ slice_index bytes.now 0 }
{
    bytes.first().copied().unwrap_or(0)
}

/// The bytes with which keys begin, each with a byte at least.
pub fn first_bytes(keys: &[Key]) -> ByteSet
    ensures { (c : ℕ) → c < 256 → (set.contains result c ≡ true) ↔ KeyBegins keys.now c }
{
    let mut bytes = ByteSet::new();
    for place in 0..keys.len() {
        bytes.add(first_byte(keys[place].bytes.items()));
    }
    bytes
}

/// The peek bytes.
pub fn peek_bytes(peeks: &[Peek]) -> ByteSet
    ensures { (c : ℕ) → c < 256 → (set.contains result c ≡ true) ↔ PeekAt peeks.now c }
{
    let mut bytes = ByteSet::new();
    for place in 0..peeks.len() {
        bytes.add(peeks[place].byte);
    }
    bytes
}

/// The first bytes of keys in which a string may stop fitting behind a front that is no key.
pub fn stop_bytes(fold: Fold, keys: &[Key]) -> ByteSet
    ensures { (c : ℕ) → c < 256 → (set.contains result c ≡ true) ↔ StopsBehind fold keys.now c }
{
    let mut bytes = ByteSet::new();
    for place in 0..keys.len() {
        let key = keys[place].bytes.items();
        let first = first_byte(key);
        if !bytes.has(first) && stops_in(fold, keys, key) {
            bytes.add(first);
        }
    }
    bytes
}
