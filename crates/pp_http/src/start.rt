// The begin of a message: blank lines before it, and what is set anew (RFC 9112, section 2.2).
ghost use Rattle.std.specs.Prelude.{◌≡◌, ◌≤◌, true, Bool, length, flat_map};
ghost use Rattle.pp_graph.specs.declared.builder.LastNode.{LastNode as Last};
ghost use Rattle.pp_http.specs.Rows.{row_calls, rows_fit};
ghost use Rattle.pp_http.specs.Start.{start as start_calls};

use crate::row::NodeKind::{Call, Fail, Load, Match, Pause, Update};
use crate::row::Row::{self, Is, Node, On, Otherwise, Peek};

static ROWS: [Row<'static>; 24] = [
    Node("start", Match),
    Peek(13, "start_cr"),
    Otherwise("begin"),
    Node("start_cr", Match),
    On("\r\n", "start"),
    Otherwise("e_lf"),
    Node("begin", Update("finish", 2)),
    Otherwise("b_flags"),
    Node("b_flags", Update("flags", 0)),
    Otherwise("b_len"),
    Node("b_len", Update("length", 0)),
    Otherwise("b_up"),
    Node("b_up", Update("upgrade", 0)),
    Otherwise("cb_begin"),
    Node("cb_begin", Call("on_message_begin")),
    Is(0, "kind"),
    Is(21, "cb_begin_p"),
    Otherwise("cb_begin_e"),
    Node("cb_begin_p", Pause(21, "on_message_begin")),
    Otherwise("kind"),
    Node("cb_begin_e", Fail(16, "on_message_begin")),
    Node("kind", Load("type")),
    Is(2, "res"),
    Otherwise("req"),
];

/// The rows of this part.
pub fn start_rows() -> &'static [Row<'static>]
    ensures calls { flat_map row_calls result.now ≡ start_calls }
    ensures fit { (l : Last) (closed : Bool) → rows_fit l closed result.now ≡ true }
    ensures few { length result.now ≤ 200 }
{
    &ROWS
}
