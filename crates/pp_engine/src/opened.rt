// Which spans are open, as bits.
ghost use Rattle.std.specs.Prelude.{◌≡◌, ◌≢◌, ◌↔◌, ◌<◌, ℕ};
ghost use Rattle.std.specs.Int.{bit_at};
ghost use Rattle.pp_engine.specs.Stood.{IsOpen};

use pp_event::Spans;

// The bits with one more.
fn with_bit(bits: u32, place: u32) -> u32
    requires { place < 32 }
    ensures here { bit_at result place ≡ 1 }
    ensures others { (i : ℕ) → i ≢ place → bit_at result i ≡ bit_at bits i }
{
    bits | (1 << place)
}

/// Bit i is 1 exactly where span i is open.
pub fn open_bits(spans: &Spans) -> u32
    ensures { (span : ℕ) → span < 32 → (bit_at result span ≡ 1) ↔ IsOpen spans.now span }
{
    let mut bits: u32 = 0;
    for span in 0..spans.len() {
        if spans.get(span).is_some() {
            bits = with_bit(bits, span);
        }
    }
    bits
}
