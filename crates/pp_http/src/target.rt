// The target of a request, and the name of the protocol (RFC 9112, section 3.2).
ghost use Rattle.std.specs.Prelude.{◌≡◌, ◌≤◌, true, Bool, length, flat_map};
ghost use Rattle.pp_graph.specs.declared.builder.LastNode.{LastNode as Last};
ghost use Rattle.pp_http.specs.Rows.{row_calls, rows_fit};
ghost use Rattle.pp_http.specs.Target.{target as target_calls};

use crate::row::Bytes;
use crate::row::NodeKind::{Call, Close, Fail, Match, Open, Pause};
use crate::row::Row::{self, Is, Node, On, OnAny, Otherwise, Peek};

static ROWS: [Row<'static>; 21] = [
    Node("u_open", Open("url")),
    Otherwise("u_first"),
    Node("u_first", Match),
    OnAny(Bytes::Target, "u_run"),
    Otherwise("e_url"),
    Node("u_run", Match),
    OnAny(Bytes::Target, "u_run"),
    Peek(32, "u_close"),
    Otherwise("e_url"),
    Node("u_close", Close("url")),
    Otherwise("cb_url"),
    Node("cb_url", Call("on_url_complete")),
    Is(0, "u_http"),
    Is(21, "cb_url_p"),
    Otherwise("cb_url_e"),
    Node("cb_url_p", Pause(21, "on_url_complete")),
    Otherwise("u_http"),
    Node("cb_url_e", Fail(26, "on_url_complete")),
    Node("u_http", Match),
    On(" HTTP/", "v_major"),
    Otherwise("e_const"),
];

/// The rows of this part.
pub fn target_rows() -> &'static [Row<'static>]
    ensures calls { flat_map row_calls result.now ≡ target_calls }
    ensures fit { (l : Last) (closed : Bool) → rows_fit l closed result.now ≡ true }
    ensures few { length result.now ≤ 200 }
{
    &ROWS
}
