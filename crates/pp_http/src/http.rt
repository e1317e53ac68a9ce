// The graph, from the rows of its parts.
ghost use Rattle.std.specs.Prelude.{◌≡◌, IfOk};
ghost use Rattle.pp_graph.specs.Built.{built};
ghost use Rattle.pp_http.specs.HttpGraph.{http_calls};
ghost use Rattle.pp_http.specs.Accepted.{IsAccepted};

use crate::body::body_rows;
use crate::chunks::chunks_rows;
use crate::connection::connection_rows;
use crate::content_length::content_length_rows;
use crate::field_name::field_name_rows;
use crate::field_value::field_value_rows;
use crate::framing::framing_rows;
use crate::head_end::head_end_rows;
use crate::heading::heading_rows;
use crate::message_end::message_end_rows;
use crate::method::method_rows;
use crate::row::add_rows;
use crate::start::start_rows;
use crate::start_line_end::start_line_end_rows;
use crate::status::status_rows;
use crate::target::target_rows;
use crate::transfer_encoding::transfer_encoding_rows;
use crate::until_close::until_close_rows;
use crate::version::version_rows;
use pp_graph::{Graph, GraphBuilder, GraphFault, NoMemory};
use std::alloc::{AllocError, Global};

/// The graph that reads HTTP/1, requests and responses: 11 properties, 9 host codes, 5 spans and 205 nodes, in seventeen
/// parts. It is an accepted graph, and the only refusal is want of memory.
///
/// RFC 9112 throughout; each part names its sections.
pub fn http_graph(alloc: Global) -> Result<Graph, NoMemory>
    ensures exact { IfOk result (λ graph. graph ≡ built http_calls) }
    ensures accepted { IfOk result IsAccepted }
{
    let mut b = GraphBuilder::new(alloc);
    add_rows(&mut b, heading_rows())?;
    add_rows(&mut b, start_rows())?;
    add_rows(&mut b, method_rows())?;
    add_rows(&mut b, target_rows())?;
    add_rows(&mut b, version_rows())?;
    add_rows(&mut b, status_rows())?;
    add_rows(&mut b, start_line_end_rows())?;
    add_rows(&mut b, field_name_rows())?;
    add_rows(&mut b, field_value_rows())?;
    add_rows(&mut b, connection_rows())?;
    add_rows(&mut b, content_length_rows())?;
    add_rows(&mut b, transfer_encoding_rows())?;
    add_rows(&mut b, head_end_rows())?;
    add_rows(&mut b, framing_rows())?;
    add_rows(&mut b, body_rows())?;
    add_rows(&mut b, until_close_rows())?;
    add_rows(&mut b, chunks_rows())?;
    add_rows(&mut b, message_end_rows())?;
    match b.close() {
        Ok(graph) => Ok(graph),
        Err(GraphFault::Broken { .. }) => unreachable!(),
        Err(GraphFault::NoMemory) => Err(AllocError),
    }
}
