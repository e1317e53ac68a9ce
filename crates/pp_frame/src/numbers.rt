// Numbers in decimal, as a Content-Length has them.
ghost use Rattle.std.specs.Prelude.{◌≡◌, ◌+◌, ◌*◌, ◌<◌, ◌^◌};
ghost use Rattle.std.specs.Option.{SomeIff};
ghost use Rattle.std.specs.Char.{digit_value};
ghost use Rattle.pp_frame.specs.Framing.{length_in};

// The number that one or more digits write, if it is below 2^64.
pub(crate) fn length_in(value: &[u8]) -> Option<u64>
    ensures { result ≡ length_in value.now }
{
    if value.is_empty() {
        return None;
    }
    let mut number = 0u64;
    for byte in value {
        number = with_digit(number, *byte)?;
    }
    Some(number)
}

// A number with one more digit behind it, if the byte is a digit and the new number is below 2^64.
fn with_digit(number: u64, byte: u8) -> Option<u64>
    ensures { SomeIff result ((digit_value byte < 10) × (number * 10 + digit_value byte < 2 ^ 64)) (number * 10 + digit_value byte) }
{
    if !byte.is_ascii_digit() {
        return None;
    }
    number.checked_mul(10)?.checked_add(u64::from(byte - b'0'))
}
