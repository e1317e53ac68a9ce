// The end of the head or of the trailer section, and what the host answers there (RFC 9110, sections 7.8 and 9.3.6).
ghost use Rattle.std.specs.Prelude.{◌≡◌, ◌≤◌, true, Bool, length, flat_map};
ghost use Rattle.pp_graph.specs.declared.builder.LastNode.{LastNode as Last};
ghost use Rattle.pp_http.specs.Rows.{row_calls, rows_fit};
ghost use Rattle.pp_http.specs.HeadEnd.{head_end as head_end_calls};

use crate::row::NodeKind::{Call, Equal, Fail, Load, Match, Or, Pause, Test, Update};
use crate::row::Row::{self, Is, Node, On, Otherwise, Peek, Skip};

static ROWS: [Row<'static>; 52] = [
    Node("head", Match),
    On("\r", "head_lf"),
    Peek(10, "head_b"),
    Otherwise("e_cr"),
    Node("head_lf", Match),
    On("\n", "h_trail"),
    Otherwise("head_c"),
    Node("head_c", Test("lenient", 64)),
    Is(1, "h_trail"),
    Otherwise("e_lf"),
    Node("head_b", Test("lenient", 256)),
    Is(1, "head_n"),
    Otherwise("e_cr"),
    Node("head_n", Match),
    Skip("h_trail"),
    Node("h_trail", Test("flags", 128)),
    Is(1, "cb_last"),
    Otherwise("h_kind"),
    Node("cb_last", Call("on_chunk_complete")),
    Is(0, "cb_done"),
    Is(21, "cb_last_p"),
    Otherwise("cb_last_e"),
    Node("cb_last_p", Pause(21, "on_chunk_complete")),
    Otherwise("cb_done"),
    Node("cb_last_e", Fail(20, "on_chunk_complete")),
    Node("h_kind", Load("type")),
    Is(2, "h_101"),
    Otherwise("h_connect"),
    Node("h_101", Equal("status", 101)),
    Is(1, "h_up"),
    Otherwise("cb_head"),
    Node("h_connect", Equal("method", 5)),
    Is(1, "h_up"),
    Otherwise("h_field"),
    Node("h_field", Test("flags", 20)),
    Is(1, "h_up"),
    Otherwise("cb_head"),
    Node("h_up", Update("upgrade", 1)),
    Otherwise("cb_head"),
    Node("cb_head", Call("on_headers_complete")),
    Is(0, "w_kind"),
    Is(1, "h_skip"),
    Is(2, "h_tunnel"),
    Is(21, "cb_head_p"),
    Otherwise("cb_head_e"),
    Node("cb_head_p", Pause(21, "on_headers_complete")),
    Otherwise("w_kind"),
    Node("cb_head_e", Fail(17, "on_headers_complete")),
    Node("h_tunnel", Update("upgrade", 1)),
    Otherwise("h_skip"),
    Node("h_skip", Or("flags", 64)),
    Otherwise("cb_done"),
];

/// The rows of this part.
pub fn head_end_rows() -> &'static [Row<'static>]
    ensures calls { flat_map row_calls result.now ≡ head_end_calls }
    ensures fit { (l : Last) (closed : Bool) → rows_fit l closed result.now ≡ true }
    ensures few { length result.now ≤ 200 }
{
    &ROWS
}
