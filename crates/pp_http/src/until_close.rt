// A body that ends with the connection (RFC 9112, section 6.3).
ghost use Rattle.std.specs.Prelude.{◌≡◌, ◌≤◌, true, Bool, length, flat_map};
ghost use Rattle.pp_graph.specs.declared.builder.LastNode.{LastNode as Last};
ghost use Rattle.pp_http.specs.Rows.{row_calls, rows_fit};
ghost use Rattle.pp_http.specs.UntilClose.{until_close as until_close_calls};

use crate::row::Bytes;
use crate::row::NodeKind::{Match, Open, Update};
use crate::row::Row::{self, Node, OnAny, Otherwise};

static ROWS: [Row<'static>; 7] = [
    Node("x_fin", Update("finish", 1)),
    Otherwise("x_open"),
    Node("x_open", Open("body")),
    Otherwise("x_run"),
    Node("x_run", Match),
    OnAny(Bytes::Every, "x_run"),
    Otherwise("e_closed"),
];

/// The rows of this part.
pub fn until_close_rows() -> &'static [Row<'static>]
    ensures calls { flat_map row_calls result.now ≡ until_close_calls }
    ensures fit { (l : Last) (closed : Bool) → rows_fit l closed result.now ≡ true }
    ensures few { length result.now ≤ 200 }
{
    &ROWS
}
