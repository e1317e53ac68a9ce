//! The places of the graph's host codes. None is asked with a number.
ghost use Rattle.std.specs.Prelude.{◌≡◌, [], ◌∷◌, codes};
ghost use Rattle.pp_http.specs.Places.{host_places};

/// At the begin of a message.
pub const ON_MESSAGE_BEGIN: u32 = 0;
/// Behind the target of a request.
pub const ON_URL_COMPLETE: u32 = 1;
/// Behind the status of a response.
pub const ON_STATUS_COMPLETE: u32 = 2;
/// Behind the name of a field.
pub const ON_HEADER_FIELD_COMPLETE: u32 = 3;
/// Behind the value of a field.
pub const ON_HEADER_VALUE_COMPLETE: u32 = 4;
/// At the end of the head. Here the answer 1 means that there is no body, and 2 that the message upgrades besides.
pub const ON_HEADERS_COMPLETE: u32 = 5;
/// Behind the line of a chunk's size.
pub const ON_CHUNK_HEADER: u32 = 6;
/// Behind a chunk.
pub const ON_CHUNK_COMPLETE: u32 = 7;
/// At the end of a message.
pub const ON_MESSAGE_COMPLETE: u32 = 8;

/// The constants are the places of these names in the graph.
pub fn places()
    ensures { host_places (codes "on_message_begin" ∷ codes "on_url_complete" ∷ codes "on_status_complete" ∷ codes "on_header_field_complete" ∷ codes "on_header_value_complete" ∷ codes "on_headers_complete" ∷ codes "on_chunk_header" ∷ codes "on_chunk_complete" ∷ codes "on_message_complete" ∷ []) ≡ ON_MESSAGE_BEGIN ∷ ON_URL_COMPLETE ∷ ON_STATUS_COMPLETE ∷ ON_HEADER_FIELD_COMPLETE ∷ ON_HEADER_VALUE_COMPLETE ∷ ON_HEADERS_COMPLETE ∷ ON_CHUNK_HEADER ∷ ON_CHUNK_COMPLETE ∷ ON_MESSAGE_COMPLETE ∷ [] }
{}
