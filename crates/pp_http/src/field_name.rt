// The name of a field line, up to its value (RFC 9112, section 5.1).
ghost use Rattle.std.specs.Prelude.{◌≡◌, ◌≤◌, true, Bool, length, flat_map};
ghost use Rattle.pp_graph.specs.declared.builder.LastNode.{LastNode as Last};
ghost use Rattle.pp_http.specs.Rows.{row_calls, rows_fit};
ghost use Rattle.pp_http.specs.FieldName.{field_name as field_name_calls};

use crate::row::Bytes;
use crate::row::NodeKind::{Call, Close, Fail, Lower, Match, Open, Pause, Store, Test, Update};
use crate::row::Row::{self, Is, Node, On, OnAny, Otherwise, Peek, PeekAny, Select};

static ROWS: [Row<'static>; 45] = [
    Node("fields", Match),
    PeekAny(Bytes::Ends, "head"),
    PeekAny(Bytes::Token, "f_zero"),
    Otherwise("e_header"),
    Node("f_zero", Update("field", 0)),
    Otherwise("f_open"),
    Node("f_open", Open("field")),
    Otherwise("f_key"),
    Node("f_key", Lower),
    Select("connection", 1, "f_set"),
    Select("content-length", 2, "f_set"),
    Select("transfer-encoding", 3, "f_set"),
    Select("upgrade", 4, "f_set"),
    Otherwise("f_name"),
    Node("f_set", Store("field")),
    Otherwise("f_end"),
    Node("f_end", Match),
    Peek(58, "f_close"),
    Otherwise("f_gen"),
    Node("f_gen", Update("field", 0)),
    Otherwise("f_name"),
    Node("f_name", Match),
    OnAny(Bytes::Token, "f_name"),
    Peek(58, "f_close"),
    Otherwise("e_header"),
    Node("f_close", Close("field")),
    Otherwise("cb_field"),
    Node("cb_field", Call("on_header_field_complete")),
    Is(0, "f_colon"),
    Is(21, "cb_field_p"),
    Otherwise("cb_field_e"),
    Node("cb_field_p", Pause(21, "on_header_field_complete")),
    Otherwise("f_colon"),
    Node("cb_field_e", Fail(28, "on_header_field_complete")),
    Node("f_colon", Match),
    On(":", "f_trail"),
    Otherwise("e_header"),
    Node("f_trail", Test("flags", 128)),
    Is(1, "f_plain"),
    Otherwise("f_ows"),
    Node("f_plain", Update("field", 0)),
    Otherwise("f_ows"),
    Node("f_ows", Match),
    OnAny(Bytes::Blanks, "f_ows"),
    Otherwise("v_open"),
];

/// The rows of this part.
pub fn field_name_rows() -> &'static [Row<'static>]
    ensures calls { flat_map row_calls result.now ≡ field_name_calls }
    ensures fit { (l : Last) (closed : Bool) → rows_fit l closed result.now ≡ true }
    ensures few { length result.now ≤ 200 }
{
    &ROWS
}
