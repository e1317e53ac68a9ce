// A body of a stated length (RFC 9112, section 6.2).
ghost use Rattle.std.specs.Prelude.{◌≡◌, ◌≤◌, true, Bool, length, flat_map};
ghost use Rattle.pp_graph.specs.declared.builder.LastNode.{LastNode as Last};
ghost use Rattle.pp_http.specs.Rows.{row_calls, rows_fit};
ghost use Rattle.pp_http.specs.Body.{body as body_calls};

use crate::row::NodeKind::{Close, Consume, Open};
use crate::row::Row::{self, Node, Otherwise};

static ROWS: [Row<'static>; 6] = [
    Node("d_open", Open("body")),
    Otherwise("d_take"),
    Node("d_take", Consume("length")),
    Otherwise("d_close"),
    Node("d_close", Close("body")),
    Otherwise("cb_done"),
];

/// The rows of this part.
pub fn body_rows() -> &'static [Row<'static>]
    ensures calls { flat_map row_calls result.now ≡ body_calls }
    ensures fit { (l : Last) (closed : Bool) → rows_fit l closed result.now ≡ true }
    ensures few { length result.now ≤ 200 }
{
    &ROWS
}
