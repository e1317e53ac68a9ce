// A table of bits, one for each point and byte.

ghost use Rattle.std.specs.Prelude.{◌≡◌, ◌≢◌, ℕ, ◌+◌, ◌*◌, ◌<◌, ◌≤◌, ◌⊎◌, true, length};
ghost use Rattle.pp_flow.specs.steps.Bits.{has_pair, Has};

/// Whether the table has a pair.
pub fn has(words: &[u64], node: u32, b: u8) -> bool
    requires { node * 4 + 4 ≤ length words.now }
    ensures { result ≡ has_pair words.now node b }
{
    words[node as usize * 4 + (b / 64) as usize] >> (b % 64) & 1 == 1
}

/// Adds a pair.
pub fn add(words: &mut [u64], node: u32, b: u8)
    requires { node * 4 + 4 ≤ length words.old }
    ensures here { Has words.new node b }
    ensures others { (x c : ℕ) → c < 256 → (x ≢ node) ⊎ (c ≢ b) → has_pair words.new x c ≡ has_pair words.old x c }
{
    words[node as usize * 4 + (b / 64) as usize] |= 1 << (b % 64);
}
