// The end of a message, what follows on the connection, and the errors (RFC 9112, sections 9.3 and 9.6).
ghost use Rattle.std.specs.Prelude.{◌≡◌, ◌≤◌, true, Bool, length, flat_map};
ghost use Rattle.pp_graph.specs.declared.builder.LastNode.{LastNode as Last};
ghost use Rattle.pp_http.specs.Rows.{row_calls, rows_fit};
ghost use Rattle.pp_http.specs.MessageEnd.{message_end as message_end_calls};

use crate::row::Bytes;
use crate::row::NodeKind::{Call, Equal, Fail, Match, Pause, Test, Update};
use crate::row::Row::{self, Is, Node, OnAny, Otherwise, Skip};

static ROWS: [Row<'static>; 53] = [
    Node("cb_done", Call("on_message_complete")),
    Is(0, "z_up"),
    Is(21, "cb_done_p"),
    Otherwise("cb_done_e"),
    Node("cb_done_p", Pause(21, "on_message_complete")),
    Otherwise("z_up"),
    Node("cb_done_e", Fail(18, "on_message_complete")),
    Node("z_up", Equal("upgrade", 1)),
    Is(1, "z_up_f"),
    Otherwise("z_close"),
    Node("z_up_f", Update("finish", 0)),
    Otherwise("z_up_p"),
    Node("z_up_p", Pause(22, "Upgrade")),
    Otherwise("start"),
    Node("z_close", Test("flags", 2)),
    Is(1, "z_len"),
    Otherwise("z_ver"),
    Node("z_ver", Equal("minor", 0)),
    Is(1, "z_ka"),
    Otherwise("z_next"),
    Node("z_ka", Test("flags", 1)),
    Is(1, "z_next"),
    Otherwise("z_len"),
    Node("z_len", Test("lenient", 4)),
    Is(1, "z_next"),
    Otherwise("z_end"),
    Node("z_next", Update("finish", 0)),
    Otherwise("start"),
    Node("z_end", Update("finish", 0)),
    Otherwise("closed"),
    Node("closed", Match),
    OnAny(Bytes::Ends, "closed"),
    Otherwise("closed_t"),
    Node("closed_t", Test("lenient", 32)),
    Is(1, "closed_any"),
    Otherwise("e_closed"),
    Node("closed_any", Match),
    Skip("closed"),
    Node("e_lf", Fail(3, "Expected LF after CR")),
    Node("e_cr", Fail(25, "Expected CR")),
    Node("e_method", Fail(6, "Invalid method")),
    Node("e_url", Fail(7, "Invalid URL")),
    Node("e_const", Fail(8, "Expected HTTP/")),
    Node("e_version", Fail(9, "Invalid version")),
    Node("e_header", Fail(10, "Invalid header token")),
    Node("e_value", Fail(10, "Invalid header value")),
    Node("e_length", Fail(11, "Invalid Content-Length")),
    Node("e_chunk", Fail(12, "Invalid chunk size")),
    Node("e_status", Fail(13, "Invalid status")),
    Node("e_coding", Fail(15, "Invalid Transfer-Encoding")),
    Node("e_two", Fail(4, "Second Content-Length")),
    Node("e_both", Fail(4, "Content-Length beside Transfer-Encoding")),
    Node("e_closed", Fail(5, "Data after close")),
];

/// The rows of this part.
pub fn message_end_rows() -> &'static [Row<'static>]
    ensures calls { flat_map row_calls result.now ≡ message_end_calls }
    ensures fit { (l : Last) (closed : Bool) → rows_fit l closed result.now ≡ true }
    ensures few { length result.now ≤ 200 }
{
    &ROWS
}
