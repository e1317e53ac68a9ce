// How a key is printed: bytes that stand for themselves as they are, all others by two hexadecimal digits.
ghost use Rattle.std.specs.Prelude.{◌≡◌, ◌++◌, ◌<◌, flat_map, OnOk};
ghost use Rattle.pp_rules.specs.Names.{is_plain_byte as is_plain_byte_of};
ghost use Rattle.pp_text.specs.Printed.{printed_byte, printed_key, behind_blank, hex_digit as hex_digit_of};

use std::alloc::AllocError;

/// A key between quotes.
pub(crate) fn push_key(out: &mut Vec<u8>, bytes: &[u8]) -> Result<(), AllocError>
    ensures { OnOk result (out.new.items ≡ out.old.items ++ behind_blank (printed_key bytes.now)) }
{
    out.extend_from_slice(b" \"")?;
    push_key_bytes(out, bytes)?;
    out.push(b'"')?;
    Ok(())
}

fn push_key_bytes(out: &mut Vec<u8>, bytes: &[u8]) -> Result<(), AllocError>
    ensures { OnOk result (out.new.items ≡ out.old.items ++ flat_map printed_byte bytes.now) }
{
    for byte in bytes {
        push_key_byte(out, *byte)?;
    }
    Ok(())
}

// A byte as it is where it may stand so, else by two hexadecimal digits.
fn push_key_byte(out: &mut Vec<u8>, byte: u8) -> Result<(), AllocError>
    ensures { OnOk result (out.new.items ≡ out.old.items ++ printed_byte byte) }
{
    if is_plain_byte(byte) {
        out.push(byte)?;
        return Ok(());
    }
    out.extend_from_slice(&[b'\\', b'x', hex_digit(byte / 16), hex_digit(byte % 16)])
}

// Whether a byte may stand in a key as it is.
fn is_plain_byte(b: u8) -> bool
    ensures { result ≡ is_plain_byte_of b }
{
    0x20 <= b && b <= 0x7e && b != b'"' && b != b'\\'
}

// A hexadecimal digit in lower case.
fn hex_digit(digit: u8) -> u8
    requires { digit < 16 }
    ensures { result ≡ hex_digit_of digit }
{
    if digit < 10 {
        b'0' + digit
    } else {
        b'a' - 10 + digit
    }
}
