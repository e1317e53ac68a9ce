// The line that bytes begin with.
ghost use Rattle.std.specs.Prelude.{IfSome, IfNone};
ghost use Rattle.pp_frame.specs.Lines.{HasNoEnd};
ghost use Rattle.pp_frame.specs.steps.Heads.{BeginsWithLine};

// How many bytes stand before the first CRLF.
pub(crate) fn line_len(bytes: &[u8]) -> Option<usize>
    ensures none { IfNone result (HasNoEnd bytes.now) }
    ensures some { IfSome result (BeginsWithLine bytes.now) }
{
    for i in 1..bytes.len() {
        if bytes[i - 1] == b'\r' && bytes[i] == b'\n' {
            return Some(i - 1);
        }
    }
    None
}
