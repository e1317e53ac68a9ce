// Lines.
ghost use Rattle.std.specs.Prelude.{◌<◌, IfSome, IsNone, length, take};
ghost use Rattle.pp_text.specs.Text.{BeginWithLine, IsWithin, IsOneLine, IsRowOf};
ghost use Rattle.pp_text.specs.steps.View.{line_of};

/// A line. Its row is what stands in front of its LF, without the CR that may stand there.
#[derive(Clone, Copy)]
pub(crate) enum Line<'t> {
    /// A line with its LF, and the bytes behind it.
    Whole { row: &'t [u8], rest: &'t [u8] },
    /// A last line without LF.
    Open { row: &'t [u8] },
}

/// The first line of the bytes, if it is whole within so many bytes.
pub(crate) fn first_line(room: usize, bytes: &[u8]) -> Option<Line<'_>>
    ensures found { IfSome result (λ line. BeginWithLine bytes.now (line_of line)) }
    ensures within { IfSome result (λ line. IsWithin room bytes.now (line_of line)) }
    ensures beyond { IsNone result → room < length bytes.now }
    ensures no_end { IsNone result → IsOneLine (take room bytes.now) }
{
    let front = &bytes[..room.min(bytes.len())];
    match front.iter().position(|b| *b == b'\n') {
        Some(end) => Some(Line::Whole {
            row: without_cr(&bytes[..end]),
            rest: &bytes[end + 1..],
        }),
        None => (bytes.len() <= room).then_some(Line::Open { row: bytes }),
    }
}

// The bytes without the CR that they may end with.
fn without_cr(bytes: &[u8]) -> &[u8]
    ensures { IsRowOf bytes.now result.now }
{
    bytes.strip_suffix(b"\r").unwrap_or(bytes)
}
