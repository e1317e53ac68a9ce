//! What a start line says of a message's body, and how the body is framed.

/// What the start line says that framing depends on. `status` counts for a response alone.
#[derive(Clone, Copy, Debug, PartialEq, Eq)]
pub struct Start {
    pub response: bool,
    pub status: u16,
    pub minor: u8,
}

/// How the body of a message is framed.
#[derive(Clone, Copy, Debug, PartialEq, Eq)]
pub enum Framing {
    /// No body.
    Nothing,
    /// No body, and what follows is no more HTTP/1.
    Tunnel,
    /// A body of this many bytes.
    Length(u64),
    /// A chunked body.
    Chunked,
    /// A body of all the bytes until the connection closes.
    UntilClose,
    /// The head is refused, with the number of the error.
    Refused(u32),
}
