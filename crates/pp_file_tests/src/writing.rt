// Files that are written.
ghost use Rattle.std.specs.Prelude.{◌≡◌, ◌<◌};

use pp_check::check;
use pp_clean::finish_program;
use pp_file::{one_length, one_spelling, write_program};
use pp_lower::lower;
use pp_outside::Steps;
use pp_text::read_graph;
use std::alloc::Global;
use std::marker::Brand;
use std::process::Abort;
use std::sync::ledger::{Blank, Ledger};
use std::test::Fail;

#[test]
fn laws_are_called() {
    one_spelling();
    one_length();
}

// The graph of the first example.
const FIRST: &str =
    "graph 1;host hit match;entry start;node start match;on \"a\" -> hit_it;skip -> start;node hit_it call hit;else -> start;end";

// Its file, as `docs/program-file.md` draws it.
pub(crate) const FIRST_FILE: [u8; 60] = [
    0x7f, 0x4c, 0x4c, 0x50, 0x01, 0x00, 0x00, 0x00, 0x3c, 0x00, 0x01, 0x00, 0x00, 0x02, 0x00, 0x02,
    0x00, 0x00, 0x00, 0x03, 0x68, 0x69, 0x74, 0x00, 0x05, 0x73, 0x74, 0x61, 0x72, 0x74, 0x06, 0x68,
    0x69, 0x74, 0x5f, 0x69, 0x74, 0x00, 0x00, 0x00, 0x00, 0x00, 0x00, 0x01, 0x61, 0x61, 0x01, 0x00,
    0x01, 0x01, 0x00, 0x00, 0x00, 0x01, 0x01, 0x00, 0x00, 0x00, 0x00, 0x00,
];

// The program of the graph has this file.
fn assert_file<L: Ledger>(rt: &impl Abort, alloc: Global, blank: Blank) -> Result<(), Fail>
    requires name { blank.name ≡ L.name }
    requires parts { blank.parts ≡ L.parts }
    requires some { 0 < blank.parts }
{
    let (graph, _) = read_graph(alloc, FIRST.as_bytes())?;
    let checked = check(alloc, graph)?;
    let lowered = lower(alloc, &checked)?;
    let program = finish_program(alloc, lowered)?;
    let mut steps = Steps::<L>::new(blank);
    let written = write_program(alloc, &program, &mut steps)?;
    assert_eq!(rt; written.as_slice(), FIRST_FILE.as_slice());
    Ok(())
}

#[test]
fn the_first_example_has_its_file(rt: HostRuntime) -> Result<(), Fail> {
    assert_file::<Brand>(&rt, rt.alloc(), Blank::new(1))
}
