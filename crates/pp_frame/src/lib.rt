//! Framing of HTTP/1 messages on whole bytes: the fields of a head, how long a body is, and chunked bodies.
//!
//! RFC 9112, sections 2 to 7. Nothing here knows how the bytes came.
#![tactic(auto)]

mod blanks;
mod coded;
mod deciding;
mod folding;
mod head;
mod lines;
mod message;
mod numbers;
mod parts;
mod places;
mod values;

pub use coded::{ChunkFault, Chunks, chunk_data};
pub use deciding::framing;
pub use head::fields_of;
pub use message::{Framing, Start};
pub use parts::{Field, HeadFault, Part};
