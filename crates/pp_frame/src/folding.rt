// Words that are compared without regard to case.
ghost use Rattle.std.specs.Prelude.{◌≡◌, length};
ghost use Rattle.pp_frame.specs.Bytes.{folds_to};

use pp_bytes::Fold;

// Whether the bytes, with A to Z read as a to z, are these.
pub(crate) fn folds_to(bytes: &[u8], lower: &[u8]) -> bool
    ensures { result ≡ folds_to lower.now bytes.now }
{
    bytes.len() == lower.len() && folds_to_same_length(bytes, lower)
}

// The same, where both are as long.
fn folds_to_same_length(bytes: &[u8], lower: &[u8]) -> bool
    requires { length bytes.now ≡ length lower.now }
    ensures { result ≡ folds_to lower.now bytes.now }
{
    for i in 0..bytes.len() {
        if Fold::Lower.of(bytes[i]) != lower[i] {
            return false;
        }
    }
    true
}
