// How the body of a message is delimited (RFC 9112, section 6.3).
ghost use Rattle.std.specs.Prelude.{◌≡◌, ◌≤◌, true, Bool, length, flat_map};
ghost use Rattle.pp_graph.specs.declared.builder.LastNode.{LastNode as Last};
ghost use Rattle.pp_http.specs.Rows.{row_calls, rows_fit};
ghost use Rattle.pp_http.specs.Framing.{framing as framing_calls};

use crate::row::NodeKind::{Equal, Load, Test};
use crate::row::Row::{self, Is, Node, Otherwise};

static ROWS: [Row<'static>; 31] = [
    Node("w_kind", Load("type")),
    Is(2, "w_info"),
    Otherwise("w_te"),
    Node("w_info", Test("flags", 512)),
    Is(1, "cb_done"),
    Otherwise("w_stat"),
    Node("w_stat", Load("status")),
    Is(204, "cb_done"),
    Is(304, "cb_done"),
    Otherwise("w_te"),
    Node("w_te", Test("flags", 256)),
    Is(1, "w_chunk"),
    Otherwise("w_cl"),
    Node("w_chunk", Test("flags", 8)),
    Is(1, "k_zero"),
    Otherwise("w_last"),
    Node("w_last", Load("type")),
    Is(2, "x_fin"),
    Otherwise("w_any"),
    Node("w_any", Test("lenient", 8)),
    Is(1, "x_fin"),
    Otherwise("e_coding"),
    Node("w_cl", Test("flags", 32)),
    Is(1, "w_nil"),
    Otherwise("w_none"),
    Node("w_nil", Equal("length", 0)),
    Is(1, "cb_done"),
    Otherwise("d_open"),
    Node("w_none", Load("type")),
    Is(2, "x_fin"),
    Otherwise("cb_done"),
];

/// The rows of this part.
pub fn framing_rows() -> &'static [Row<'static>]
    ensures calls { flat_map row_calls result.now ≡ framing_calls }
    ensures fit { (l : Last) (closed : Bool) → rows_fit l closed result.now ≡ true }
    ensures few { length result.now ≤ 200 }
{
    &ROWS
}
