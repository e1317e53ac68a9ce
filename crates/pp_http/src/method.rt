// The method of a request, and the space behind it (RFC 9112, section 3.1).
ghost use Rattle.std.specs.Prelude.{◌≡◌, ◌≤◌, true, Bool, length, flat_map};
ghost use Rattle.pp_graph.specs.declared.builder.LastNode.{LastNode as Last};
ghost use Rattle.pp_http.specs.Rows.{row_calls, rows_fit};
ghost use Rattle.pp_http.specs.Method.{method as method_calls};

use crate::row::NodeKind::{Match, Store};
use crate::row::Row::{self, Node, On, Otherwise, Select};

static ROWS: [Row<'static>; 40] = [
    Node("req", Match),
    Select("DELETE", 0, "m_store"),
    Select("GET", 1, "m_store"),
    Select("HEAD", 2, "m_store"),
    Select("POST", 3, "m_store"),
    Select("PUT", 4, "m_store"),
    Select("CONNECT", 5, "m_store"),
    Select("OPTIONS", 6, "m_store"),
    Select("TRACE", 7, "m_store"),
    Select("COPY", 8, "m_store"),
    Select("LOCK", 9, "m_store"),
    Select("MKCOL", 10, "m_store"),
    Select("MOVE", 11, "m_store"),
    Select("PROPFIND", 12, "m_store"),
    Select("PROPPATCH", 13, "m_store"),
    Select("SEARCH", 14, "m_store"),
    Select("UNLOCK", 15, "m_store"),
    Select("BIND", 16, "m_store"),
    Select("REBIND", 17, "m_store"),
    Select("UNBIND", 18, "m_store"),
    Select("ACL", 19, "m_store"),
    Select("REPORT", 20, "m_store"),
    Select("MKACTIVITY", 21, "m_store"),
    Select("CHECKOUT", 22, "m_store"),
    Select("MERGE", 23, "m_store"),
    Select("M-SEARCH", 24, "m_store"),
    Select("NOTIFY", 25, "m_store"),
    Select("SUBSCRIBE", 26, "m_store"),
    Select("UNSUBSCRIBE", 27, "m_store"),
    Select("PATCH", 28, "m_store"),
    Select("PURGE", 29, "m_store"),
    Select("MKCALENDAR", 30, "m_store"),
    Select("LINK", 31, "m_store"),
    Select("UNLINK", 32, "m_store"),
    Otherwise("e_method"),
    Node("m_store", Store("method")),
    Otherwise("m_sp"),
    Node("m_sp", Match),
    On(" ", "u_open"),
    Otherwise("e_method"),
];

/// The rows of this part.
pub fn method_rows() -> &'static [Row<'static>]
    ensures calls { flat_map row_calls result.now ≡ method_calls }
    ensures fit { (l : Last) (closed : Bool) → rows_fit l closed result.now ≡ true }
    ensures few { length result.now ≤ 200 }
{
    &ROWS
}
