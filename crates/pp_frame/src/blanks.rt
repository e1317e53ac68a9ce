// Blanks at the ends of bytes.
ghost use Rattle.std.specs.Prelude.{◌≡◌, ◌≤◌, length};
ghost use Rattle.std.specs.List.{prefix_len, suffix_len};
ghost use Rattle.pp_frame.specs.Bytes.{is_blank};
ghost use Rattle.pp_frame.specs.Fields.{trimmed, bytes_in, IsPartOf};
ghost use Rattle.pp_frame.specs.Framing.{without_blanks};

use crate::parts::Part;

// A space or a tab.
fn is_blank(b: u8) -> bool
    ensures { result ≡ is_blank b }
{
    b == b' ' || b == b'\t'
}

// How many blanks stand in front.
fn leading_blanks(bytes: &[u8]) -> usize
    ensures blanks { result ≡ prefix_len is_blank bytes.now }
    ensures within { result ≤ length bytes.now }
{
    for (i, b) in bytes.iter().enumerate() {
        if !is_blank(*b) {
            return i;
        }
    }
    bytes.len()
}

// How many blanks stand at the end.
fn trailing_blanks(bytes: &[u8]) -> usize
    ensures blanks { result ≡ suffix_len is_blank bytes.now }
    ensures within { result ≤ length bytes.now }
{
    let mut end = bytes.len();
    while end > 0 && is_blank(bytes[end - 1]) {
        end -= 1;
    }
    bytes.len() - end
}

// Where the bytes stand without the blanks at both ends.
pub(crate) fn trimmed(bytes: &[u8]) -> Part
    ensures part { result ≡ trimmed bytes.now }
    ensures within { IsPartOf bytes.now result }
{
    let from = leading_blanks(bytes);
    let to = bytes.len() - trailing_blanks(&bytes[from..]);
    Part { from, to }
}

// The bytes without the blanks at both ends.
pub(crate) fn without_blanks(bytes: &[u8]) -> &[u8]
    ensures { result.now ≡ without_blanks bytes.now }
{
    let part = trimmed(bytes);
    &bytes[part.from..part.to]
}
