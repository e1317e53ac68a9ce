// The version of a message (RFC 9112, section 2.3).
ghost use Rattle.std.specs.Prelude.{◌≡◌, ◌≤◌, true, Bool, length, flat_map};
ghost use Rattle.pp_graph.specs.declared.builder.LastNode.{LastNode as Last};
ghost use Rattle.pp_http.specs.Rows.{row_calls, rows_fit};
ghost use Rattle.pp_http.specs.Version.{version as version_calls};

use crate::row::NodeKind::{Equal, Load, Match, Store, Test};
use crate::row::Row::{self, Is, Node, On, Otherwise, Select};

static ROWS: [Row<'static>; 44] = [
    Node("v_major", Match),
    Select("0", 0, "v_major_s"),
    Select("1", 1, "v_major_s"),
    Select("2", 2, "v_major_s"),
    Select("3", 3, "v_major_s"),
    Select("4", 4, "v_major_s"),
    Select("5", 5, "v_major_s"),
    Select("6", 6, "v_major_s"),
    Select("7", 7, "v_major_s"),
    Select("8", 8, "v_major_s"),
    Select("9", 9, "v_major_s"),
    Otherwise("e_version"),
    Node("v_major_s", Store("major")),
    Otherwise("v_dot"),
    Node("v_dot", Match),
    On(".", "v_minor"),
    Otherwise("e_version"),
    Node("v_minor", Match),
    Select("0", 0, "v_minor_s"),
    Select("1", 1, "v_minor_s"),
    Select("2", 2, "v_minor_s"),
    Select("3", 3, "v_minor_s"),
    Select("4", 4, "v_minor_s"),
    Select("5", 5, "v_minor_s"),
    Select("6", 6, "v_minor_s"),
    Select("7", 7, "v_minor_s"),
    Select("8", 8, "v_minor_s"),
    Select("9", 9, "v_minor_s"),
    Otherwise("e_version"),
    Node("v_minor_s", Store("minor")),
    Otherwise("v_any"),
    Node("v_any", Test("lenient", 16)),
    Is(1, "v_next"),
    Otherwise("v_one"),
    Node("v_one", Equal("major", 1)),
    Is(1, "v_low"),
    Otherwise("e_version"),
    Node("v_low", Load("minor")),
    Is(0, "v_next"),
    Is(1, "v_next"),
    Otherwise("e_version"),
    Node("v_next", Load("type")),
    Is(2, "s_sp"),
    Otherwise("line"),
];

/// The rows of this part.
pub fn version_rows() -> &'static [Row<'static>]
    ensures calls { flat_map row_calls result.now ≡ version_calls }
    ensures fit { (l : Last) (closed : Bool) → rows_fit l closed result.now ≡ true }
    ensures few { length result.now ≤ 200 }
{
    &ROWS
}
