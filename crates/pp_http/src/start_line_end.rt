// The end of the start line (RFC 9112, section 2.2).
ghost use Rattle.std.specs.Prelude.{◌≡◌, ◌≤◌, true, Bool, length, flat_map};
ghost use Rattle.pp_graph.specs.declared.builder.LastNode.{LastNode as Last};
ghost use Rattle.pp_http.specs.Rows.{row_calls, rows_fit};
ghost use Rattle.pp_http.specs.StartLineEnd.{start_line_end as start_line_end_calls};

use crate::row::NodeKind::{Match, Test};
use crate::row::Row::{self, Is, Node, On, Otherwise, Peek, Skip};

static ROWS: [Row<'static>; 15] = [
    Node("line", Match),
    On("\r", "line_lf"),
    Peek(10, "line_b"),
    Otherwise("e_cr"),
    Node("line_lf", Match),
    On("\n", "fields"),
    Otherwise("line_c"),
    Node("line_c", Test("lenient", 64)),
    Is(1, "fields"),
    Otherwise("e_lf"),
    Node("line_b", Test("lenient", 256)),
    Is(1, "line_n"),
    Otherwise("e_cr"),
    Node("line_n", Match),
    Skip("fields"),
];

/// The rows of this part.
pub fn start_line_end_rows() -> &'static [Row<'static>]
    ensures calls { flat_map row_calls result.now ≡ start_line_end_calls }
    ensures fit { (l : Last) (closed : Bool) → rows_fit l closed result.now ≡ true }
    ensures few { length result.now ≤ 200 }
{
    &ROWS
}
