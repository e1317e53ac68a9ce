// The codings of a Transfer-Encoding field (RFC 9112, section 6.1).
ghost use Rattle.std.specs.Prelude.{◌≡◌, ◌≤◌, true, Bool, length, flat_map};
ghost use Rattle.pp_graph.specs.declared.builder.LastNode.{LastNode as Last};
ghost use Rattle.pp_http.specs.Rows.{row_calls, rows_fit};
ghost use Rattle.pp_http.specs.TransferEncoding.{transfer_encoding as transfer_encoding_calls};

use crate::row::Bytes;
use crate::row::NodeKind::{And, Equal, Lower, Match, Or, Test};
use crate::row::Row::{self, Is, Node, On, OnAny, Otherwise, PeekAny};

static ROWS: [Row<'static>; 35] = [
    Node("t_both", Test("flags", 32)),
    Is(1, "t_len"),
    Otherwise("t_ver"),
    Node("t_len", Test("lenient", 2)),
    Is(1, "t_ver"),
    Otherwise("e_both"),
    Node("t_ver", Equal("minor", 0)),
    Is(1, "e_coding"),
    Otherwise("t_set"),
    Node("t_set", Or("flags", 256)),
    Otherwise("t_item"),
    Node("t_item", Match),
    OnAny(Bytes::List, "t_item"),
    PeekAny(Bytes::Ends, "v_close"),
    Otherwise("t_new"),
    Node("t_new", And("flags", 65527)),
    Otherwise("t_word"),
    Node("t_word", Lower),
    On("chunked", "t_end"),
    Otherwise("t_run"),
    Node("t_end", Match),
    OnAny(Bytes::Blanks, "t_end"),
    PeekAny(Bytes::Marks, "t_mark"),
    Otherwise("t_run"),
    Node("t_mark", Or("flags", 8)),
    Otherwise("t_next"),
    Node("t_next", Match),
    On(",", "t_item"),
    PeekAny(Bytes::Ends, "v_close"),
    Otherwise("t_run"),
    Node("t_run", Match),
    On(",", "t_item"),
    OnAny(Bytes::PlainValue, "t_run"),
    PeekAny(Bytes::Ends, "v_close"),
    Otherwise("e_coding"),
];

/// The rows of this part.
pub fn transfer_encoding_rows() -> &'static [Row<'static>]
    ensures calls { flat_map row_calls result.now ≡ transfer_encoding_calls }
    ensures fit { (l : Last) (closed : Bool) → rows_fit l closed result.now ≡ true }
    ensures few { length result.now ≤ 200 }
{
    &ROWS
}
