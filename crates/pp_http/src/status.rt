// The status line of a response (RFC 9112, section 4).
ghost use Rattle.std.specs.Prelude.{◌≡◌, ◌≤◌, true, Bool, length, flat_map};
ghost use Rattle.pp_graph.specs.declared.builder.LastNode.{LastNode as Last};
ghost use Rattle.pp_http.specs.Rows.{row_calls, rows_fit};
ghost use Rattle.pp_http.specs.Status.{status as status_calls};

use crate::row::Bytes;
use crate::row::NodeKind::{Call, Close, Equal, Fail, Match, MulAdd, Open, Or, Pause, Store};
use crate::row::Row::{self, Is, Node, On, OnAny, Otherwise, PeekAny, Select};

static ROWS: [Row<'static>; 72] = [
    Node("res", Match),
    On("HTTP/", "v_major"),
    Otherwise("e_const"),
    Node("s_sp", Match),
    On(" ", "s_1"),
    Otherwise("e_version"),
    Node("s_1", Match),
    Select("0", 0, "s_1s"),
    Select("1", 1, "s_1s"),
    Select("2", 2, "s_1s"),
    Select("3", 3, "s_1s"),
    Select("4", 4, "s_1s"),
    Select("5", 5, "s_1s"),
    Select("6", 6, "s_1s"),
    Select("7", 7, "s_1s"),
    Select("8", 8, "s_1s"),
    Select("9", 9, "s_1s"),
    Otherwise("e_status"),
    Node("s_1s", Store("status")),
    Otherwise("s_class"),
    Node("s_class", Equal("status", 1)),
    Is(1, "s_info"),
    Otherwise("s_2"),
    Node("s_info", Or("flags", 512)),
    Otherwise("s_2"),
    Node("s_2", Match),
    Select("0", 0, "s_2m"),
    Select("1", 1, "s_2m"),
    Select("2", 2, "s_2m"),
    Select("3", 3, "s_2m"),
    Select("4", 4, "s_2m"),
    Select("5", 5, "s_2m"),
    Select("6", 6, "s_2m"),
    Select("7", 7, "s_2m"),
    Select("8", 8, "s_2m"),
    Select("9", 9, "s_2m"),
    Otherwise("e_status"),
    Node("s_2m", MulAdd("status", 10)),
    Otherwise("s_3"),
    Node("s_3", Match),
    Select("0", 0, "s_3m"),
    Select("1", 1, "s_3m"),
    Select("2", 2, "s_3m"),
    Select("3", 3, "s_3m"),
    Select("4", 4, "s_3m"),
    Select("5", 5, "s_3m"),
    Select("6", 6, "s_3m"),
    Select("7", 7, "s_3m"),
    Select("8", 8, "s_3m"),
    Select("9", 9, "s_3m"),
    Otherwise("e_status"),
    Node("s_3m", MulAdd("status", 10)),
    Otherwise("s_end"),
    Node("s_end", Match),
    On(" ", "r_open"),
    PeekAny(Bytes::Ends, "cb_status"),
    Otherwise("e_status"),
    Node("r_open", Open("status")),
    Otherwise("r_run"),
    Node("r_run", Match),
    OnAny(Bytes::Value, "r_run"),
    PeekAny(Bytes::Ends, "r_close"),
    Otherwise("e_status"),
    Node("r_close", Close("status")),
    Otherwise("cb_status"),
    Node("cb_status", Call("on_status_complete")),
    Is(0, "line"),
    Is(21, "cb_status_p"),
    Otherwise("cb_status_e"),
    Node("cb_status_p", Pause(21, "on_status_complete")),
    Otherwise("line"),
    Node("cb_status_e", Fail(27, "on_status_complete")),
];

/// The rows of this part.
pub fn status_rows() -> &'static [Row<'static>]
    ensures calls { flat_map row_calls result.now ≡ status_calls }
    ensures fit { (l : Last) (closed : Bool) → rows_fit l closed result.now ≡ true }
    ensures few { length result.now ≤ 200 }
{
    &ROWS
}
