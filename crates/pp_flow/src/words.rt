// Words of the table of bits, a quarter of the bytes at once.
ghost use Rattle.std.specs.Prelude.{◌≡◌, ℕ, ◌+◌, ◌*◌, ◌/◌, ◌%◌, ◌<◌, ◌≤◌, ◌⊎◌, ◌↔◌, true, length};
ghost use Rattle.pp_flow.specs.steps.Bits.{Has, has_low};
ghost use Rattle.pp_flow.specs.steps.Spread.{Grows};

// The word whose bits from one place up to another are set.
fn ones(first: u32, end: u32) -> u64
    requires order { first ≤ end }
    requires end { end ≤ 64 }
    ensures { (i : ℕ) → (has_low result i ≡ true) ↔ ((first ≤ i) × (i < end)) }
{
    ((1u128 << end) - (1u128 << first)) as u64
}

// The bits of the bytes from lo to hi that are in one quarter of the bytes.
fn mask_of(lo: u8, hi: u8, quarter: u8) -> u64
    requires { quarter < 4 }
    ensures { (b : ℕ) → b / 64 ≡ quarter → (has_low result (b % 64) ≡ true) ↔ ((lo ≤ b) × (b ≤ hi)) }
{
    let before = u32::from(quarter) * 64;
    let end = (u32::from(hi) + 1).saturating_sub(before).min(64);
    let first = u32::from(lo).saturating_sub(before).min(end);
    ones(first, end)
}

/// The bits of one quarter that a point has at the bytes from lo to hi.
pub fn chosen(words: &[u64], node: u32, lo: u8, hi: u8, quarter: u8) -> u64
    requires room { node * 4 + 4 ≤ length words.now }
    requires quarter { quarter < 4 }
    ensures { (b : ℕ) → b / 64 ≡ quarter → (has_low result (b % 64) ≡ true) ↔ (Has words.now node b × (lo ≤ b) × (b ≤ hi)) }
{
    words[node as usize * 4 + quarter as usize] & mask_of(lo, hi, quarter)
}

/// Adds bits to one quarter of a point, and tells whether one was missing.
pub fn merge(words: &mut [u64], to: u32, quarter: u8, bits: u64) -> bool
    requires room { to * 4 + 4 ≤ length words.old }
    requires quarter { quarter < 4 }
    ensures grows { Grows to words.old words.new result }
    ensures source { (b : ℕ) → b < 256 → Has words.new to b → Has words.old to b ⊎ ((b / 64 ≡ quarter) × (has_low bits (b % 64) ≡ true)) }
    ensures all { (b : ℕ) → b / 64 ≡ quarter → has_low bits (b % 64) ≡ true → Has words.new to b }
{
    let place = to as usize * 4 + quarter as usize;
    let old = words[place];
    let new = old | bits;
    if new == old {
        return false;
    }
    words[place] = new;
    true
}
