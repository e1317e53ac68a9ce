// The run of bytes in some ranges.
ghost use Rattle.std.specs.Prelude.{◌≡◌, ◌≤◌, length};
ghost use Rattle.std.specs.List.{prefix_len};
ghost use Rattle.pp_bytes.specs.Ranges.{in_ranges};

use crate::lanes::{LANES, block_run};
use pp_bytes::Ranges;

/// The length of the longest prefix whose bytes all lie in the ranges. Takes no memory.
pub fn run_of(ranges: &Ranges, bytes: &[u8]) -> usize
    ensures run { result ≡ prefix_len (in_ranges ranges.now) bytes.now }
    ensures within { result ≤ length bytes.now }
{
    let mut at = 0;
    while bytes.len() - at >= LANES {
        let run = block_run(ranges, &bytes[at..]);
        at += run;
        if run < LANES {
            return at;
        }
    }
    at + plain_run(ranges, &bytes[at..])
}

// The length of the longest prefix whose bytes all lie in the ranges, byte by byte.
fn plain_run(ranges: &Ranges, bytes: &[u8]) -> usize
    ensures { result ≡ prefix_len (in_ranges ranges.now) bytes.now }
{
    bytes.iter().take_while(|b| ranges.has(**b)).count()
}
