// The value of a Content-Length field (RFC 9110, section 8.6; RFC 9112, section 6.3).
ghost use Rattle.std.specs.Prelude.{◌≡◌, ◌≤◌, true, Bool, length, flat_map};
ghost use Rattle.pp_graph.specs.declared.builder.LastNode.{LastNode as Last};
ghost use Rattle.pp_http.specs.Rows.{row_calls, rows_fit};
ghost use Rattle.pp_http.specs.ContentLength.{content_length as content_length_calls};

use crate::row::Bytes;
use crate::row::NodeKind::{Match, MulAdd, Or, Test};
use crate::row::Row::{self, Is, Node, OnAny, Otherwise, PeekAny, Select};

static ROWS: [Row<'static>; 44] = [
    Node("l_once", Test("flags", 32)),
    Is(1, "e_two"),
    Otherwise("l_te"),
    Node("l_te", Test("flags", 256)),
    Is(1, "l_len"),
    Otherwise("l_set"),
    Node("l_len", Test("lenient", 2)),
    Is(1, "l_set"),
    Otherwise("e_both"),
    Node("l_set", Or("flags", 32)),
    Otherwise("l_first"),
    Node("l_first", Match),
    Select("0", 0, "l_add"),
    Select("1", 1, "l_add"),
    Select("2", 2, "l_add"),
    Select("3", 3, "l_add"),
    Select("4", 4, "l_add"),
    Select("5", 5, "l_add"),
    Select("6", 6, "l_add"),
    Select("7", 7, "l_add"),
    Select("8", 8, "l_add"),
    Select("9", 9, "l_add"),
    Otherwise("e_length"),
    Node("l_add", MulAdd("length", 10)),
    Is(1, "e_length"),
    Otherwise("l_more"),
    Node("l_more", Match),
    Select("0", 0, "l_add"),
    Select("1", 1, "l_add"),
    Select("2", 2, "l_add"),
    Select("3", 3, "l_add"),
    Select("4", 4, "l_add"),
    Select("5", 5, "l_add"),
    Select("6", 6, "l_add"),
    Select("7", 7, "l_add"),
    Select("8", 8, "l_add"),
    Select("9", 9, "l_add"),
    OnAny(Bytes::Blanks, "l_ws"),
    PeekAny(Bytes::Ends, "v_close"),
    Otherwise("e_length"),
    Node("l_ws", Match),
    OnAny(Bytes::Blanks, "l_ws"),
    PeekAny(Bytes::Ends, "v_close"),
    Otherwise("e_length"),
];

/// The rows of this part.
pub fn content_length_rows() -> &'static [Row<'static>]
    ensures calls { flat_map row_calls result.now ≡ content_length_calls }
    ensures fit { (l : Last) (closed : Bool) → rows_fit l closed result.now ≡ true }
    ensures few { length result.now ≤ 200 }
{
    &ROWS
}
