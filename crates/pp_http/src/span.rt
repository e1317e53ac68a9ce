//! The places of the graph's spans.
ghost use Rattle.std.specs.Prelude.{◌≡◌, [], ◌∷◌, codes};
ghost use Rattle.pp_http.specs.Places.{span_places};

/// The target of a request.
pub const URL: u32 = 0;
/// The reason of a status line.
pub const STATUS: u32 = 1;
/// The name of a field.
pub const FIELD: u32 = 2;
/// The value of a field.
pub const VALUE: u32 = 3;
/// A body, or a chunk's data.
pub const BODY: u32 = 4;

/// The constants are the places of these names in the graph.
pub fn places()
    ensures { span_places (codes "url" ∷ codes "status" ∷ codes "field" ∷ codes "value" ∷ codes "body" ∷ []) ≡ URL ∷ STATUS ∷ FIELD ∷ VALUE ∷ BODY ∷ [] }
{}
