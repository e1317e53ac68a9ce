// What the graph declares: properties, host codes, spans, the entry and the finish rule.
ghost use Rattle.std.specs.Prelude.{◌≡◌, ◌≤◌, true, Bool, length, flat_map};
ghost use Rattle.pp_graph.specs.declared.builder.LastNode.{LastNode as Last};
ghost use Rattle.pp_http.specs.Rows.{row_calls, rows_fit};
ghost use Rattle.pp_http.specs.Heading.{heading as heading_calls};

use crate::row::Row::{self, Entry, Finish, Host, Prop, Span};
use pp_graph::Width;

static ROWS: [Row<'static>; 27] = [
    Prop("type", Width::W8),
    Prop("method", Width::W8),
    Prop("major", Width::W8),
    Prop("minor", Width::W8),
    Prop("status", Width::W16),
    Prop("lenient", Width::W16),
    Prop("flags", Width::W16),
    Prop("length", Width::W64),
    Prop("finish", Width::W8),
    Prop("upgrade", Width::W8),
    Prop("field", Width::W8),
    Host("on_message_begin"),
    Host("on_url_complete"),
    Host("on_status_complete"),
    Host("on_header_field_complete"),
    Host("on_header_value_complete"),
    Host("on_headers_complete"),
    Host("on_chunk_header"),
    Host("on_chunk_complete"),
    Host("on_message_complete"),
    Span("url"),
    Span("status"),
    Span("field"),
    Span("value"),
    Span("body"),
    Entry("start"),
    Finish("finish", "on_message_complete"),
];

/// The rows of the declarations.
pub fn heading_rows() -> &'static [Row<'static>]
    ensures calls { flat_map row_calls result.now ≡ heading_calls }
    ensures fit { (l : Last) (closed : Bool) → rows_fit l closed result.now ≡ true }
    ensures few { length result.now ≤ 200 }
{
    &ROWS
}
