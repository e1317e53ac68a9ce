// The options of a Connection field (RFC 9110, section 7.6.1).
ghost use Rattle.std.specs.Prelude.{◌≡◌, ◌≤◌, true, Bool, length, flat_map};
ghost use Rattle.pp_graph.specs.declared.builder.LastNode.{LastNode as Last};
ghost use Rattle.pp_http.specs.Rows.{row_calls, rows_fit};
ghost use Rattle.pp_http.specs.Connection.{connection as connection_calls};

use crate::row::Bytes;
use crate::row::NodeKind::{Lower, Match, Or};
use crate::row::Row::{self, Node, On, OnAny, Otherwise, PeekAny};

static ROWS: [Row<'static>; 34] = [
    Node("c_item", Lower),
    OnAny(Bytes::List, "c_item"),
    On("close", "c_cl"),
    On("keep-alive", "c_ka"),
    On("upgrade", "c_up"),
    PeekAny(Bytes::Ends, "v_close"),
    Otherwise("c_run"),
    Node("c_cl", Match),
    OnAny(Bytes::Blanks, "c_cl"),
    PeekAny(Bytes::Marks, "c_cl_s"),
    Otherwise("c_run"),
    Node("c_cl_s", Or("flags", 2)),
    Otherwise("c_next"),
    Node("c_ka", Match),
    OnAny(Bytes::Blanks, "c_ka"),
    PeekAny(Bytes::Marks, "c_ka_s"),
    Otherwise("c_run"),
    Node("c_ka_s", Or("flags", 1)),
    Otherwise("c_next"),
    Node("c_up", Match),
    OnAny(Bytes::Blanks, "c_up"),
    PeekAny(Bytes::Marks, "c_up_s"),
    Otherwise("c_run"),
    Node("c_up_s", Or("flags", 4)),
    Otherwise("c_next"),
    Node("c_next", Match),
    On(",", "c_item"),
    PeekAny(Bytes::Ends, "v_close"),
    Otherwise("c_run"),
    Node("c_run", Match),
    On(",", "c_item"),
    OnAny(Bytes::ValueNoComma, "c_run"),
    PeekAny(Bytes::Ends, "v_close"),
    Otherwise("v_odd"),
];

/// The rows of this part.
pub fn connection_rows() -> &'static [Row<'static>]
    ensures calls { flat_map row_calls result.now ≡ connection_calls }
    ensures fit { (l : Last) (closed : Bool) → rows_fit l closed result.now ≡ true }
    ensures few { length result.now ≤ 200 }
{
    &ROWS
}
