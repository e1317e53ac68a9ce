// Numbers as texts write them.
ghost use Rattle.std.specs.Prelude.{◌≡◌, ◌+◌, ◌*◌, ◌<◌, ◌^◌, ◌↔◌, IfSome, IfNone, IsTrue, length, slice_index};
ghost use Rattle.std.specs.Option.{SomeIff};
ghost use Rattle.std.specs.Char.{digit_value};
ghost use Rattle.std.specs.Str.Parse.{AllDigits, digits_value};
ghost use Rattle.pp_bytes.specs.Number.{IsNumber, IsNoNumber};

/// The number that the bytes write in decimal, without a sign and without leading zeros.
///
/// `None` for every other text, and for a number from 2^64 on.
pub fn read_number(bytes: &[u8]) -> Option<u64>
    ensures some { IfSome result (IsNumber bytes.now) }
    ensures none { IfNone result (IsNoNumber bytes.now) }
{
    if bytes.is_empty() || has_leading_zero(bytes) {
        return None;
    }
    digits_number(bytes)
}

// Whether a zero stands in front of another byte.
fn has_leading_zero(bytes: &[u8]) -> bool
    ensures { IsTrue result ↔ ((slice_index bytes.now 0 ≡ 48) × (1 < length bytes.now)) }
{
    bytes.len() > 1 && bytes[0] == b'0'
}

// The number that digits write, if each byte is one and the number is below 2^64.
fn digits_number(digits: &[u8]) -> Option<u64>
    ensures { SomeIff result (AllDigits 10 digits.now × (digits_value 10 digits.now < 2 ^ 64)) (digits_value 10 digits.now) }
{
    let mut number = 0u64;
    for byte in digits {
        number = with_digit(number, *byte)?;
    }
    Some(number)
}

// A number with one more digit after it, if the byte is a digit and the new number is below 2^64.
fn with_digit(number: u64, byte: u8) -> Option<u64>
    ensures { SomeIff result ((digit_value byte < 10) × (number * 10 + digit_value byte < 2 ^ 64)) (number * 10 + digit_value byte) }
{
    if !byte.is_ascii_digit() {
        return None;
    }
    number.checked_mul(10)?.checked_add(u64::from(byte - b'0'))
}
