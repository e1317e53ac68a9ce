//! The graph of HTTP/1: its nodes, its flags, and the names of its methods and errors.
#![tactic(auto)]

mod body;
mod chunks;
mod connection;
mod content_length;
mod field_name;
mod field_value;
mod framing;
mod head_end;
mod heading;
pub mod host;
mod http;
mod lenient;
mod message_end;
mod method;
mod names;
pub mod prop;
mod row;
pub mod span;
mod start;
mod start_line_end;
mod status;
mod target;
mod transfer_encoding;
mod until_close;
mod version;

pub use http::http_graph;
pub use lenient::Lenient;
pub use names::{error_name, method_name};
