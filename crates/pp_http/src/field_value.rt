// The value of a field line (RFC 9110, section 5.5; RFC 9112, section 5.2).
ghost use Rattle.std.specs.Prelude.{◌≡◌, ◌≤◌, true, Bool, length, flat_map};
ghost use Rattle.pp_graph.specs.declared.builder.LastNode.{LastNode as Last};
ghost use Rattle.pp_http.specs.Rows.{row_calls, rows_fit};
ghost use Rattle.pp_http.specs.FieldValue.{field_value as field_value_calls};

use crate::row::Bytes;
use crate::row::NodeKind::{Call, Close, Fail, Load, Match, Open, Or, Pause, Test};
use crate::row::Row::{self, Is, Node, On, OnAny, Otherwise, Peek, PeekAny, Skip};

static ROWS: [Row<'static>; 43] = [
    Node("v_open", Open("value")),
    Otherwise("v_kind"),
    Node("v_kind", Load("field")),
    Is(1, "c_item"),
    Is(2, "l_once"),
    Is(3, "t_both"),
    Is(4, "up_set"),
    Otherwise("v_run"),
    Node("v_run", Match),
    OnAny(Bytes::Value, "v_run"),
    PeekAny(Bytes::Ends, "v_close"),
    Otherwise("v_odd"),
    Node("v_odd", Test("lenient", 1)),
    Is(1, "v_take"),
    Otherwise("e_value"),
    Node("v_take", Match),
    Skip("v_run"),
    Node("v_close", Close("value")),
    Otherwise("cb_value"),
    Node("cb_value", Call("on_header_value_complete")),
    Is(0, "v_eol"),
    Is(21, "cb_value_p"),
    Otherwise("cb_value_e"),
    Node("cb_value_p", Pause(21, "on_header_value_complete")),
    Otherwise("v_eol"),
    Node("cb_value_e", Fail(29, "on_header_value_complete")),
    Node("v_eol", Match),
    On("\r", "v_eol_lf"),
    Peek(10, "v_eol_b"),
    Otherwise("e_cr"),
    Node("v_eol_lf", Match),
    On("\n", "fields"),
    Otherwise("v_eol_c"),
    Node("v_eol_c", Test("lenient", 64)),
    Is(1, "fields"),
    Otherwise("e_lf"),
    Node("v_eol_b", Test("lenient", 256)),
    Is(1, "v_eol_n"),
    Otherwise("e_cr"),
    Node("v_eol_n", Match),
    Skip("fields"),
    Node("up_set", Or("flags", 16)),
    Otherwise("v_run"),
];

/// The rows of this part.
pub fn field_value_rows() -> &'static [Row<'static>]
    ensures calls { flat_map row_calls result.now ≡ field_value_calls }
    ensures fit { (l : Last) (closed : Bool) → rows_fit l closed result.now ≡ true }
    ensures few { length result.now ≤ 200 }
{
    &ROWS
}
