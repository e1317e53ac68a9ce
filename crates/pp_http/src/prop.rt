//! The places of the graph's properties.
ghost use Rattle.std.specs.Prelude.{◌≡◌, [], ◌∷◌, codes};
ghost use Rattle.pp_http.specs.Places.{prop_places};

/// 2 is a response; every other value is a request.
pub const TYPE: u32 = 0;
/// The number of the method.
pub const METHOD: u32 = 1;
/// The first digit of the version.
pub const MAJOR: u32 = 2;
/// The second digit of the version.
pub const MINOR: u32 = 3;
/// The status code.
pub const STATUS: u32 = 4;
/// The lenient flags.
pub const LENIENT: u32 = 5;
/// What is known of the message: 1 keep-alive seen, 2 close seen, 4 upgrade seen in Connection, 8 chunked is the last
/// coding, 16 an Upgrade field, 32 a Content-Length field, 64 no body by the host's answer, 128 in the trailer section,
/// 256 a Transfer-Encoding field, 512 a status from 100 to 199.
pub const FLAGS: u32 = 6;
/// The content length, or what is left of a body or a chunk.
pub const LENGTH: u32 = 7;
/// What an end of the connection means here: 0 is safe, 1 completes the message, 2 cuts it off.
pub const FINISH: u32 = 8;
/// 1 where the message upgrades.
pub const UPGRADE: u32 = 9;
/// The field that is read: 0 other, 1 Connection, 2 Content-Length, 3 Transfer-Encoding, 4 Upgrade.
pub const FIELD: u32 = 10;

/// The constants are the places of these names in the graph.
pub fn places()
    ensures { prop_places (codes "type" ∷ codes "method" ∷ codes "major" ∷ codes "minor" ∷ codes "status" ∷ codes "lenient" ∷ codes "flags" ∷ codes "length" ∷ codes "finish" ∷ codes "upgrade" ∷ codes "field" ∷ []) ≡ TYPE ∷ METHOD ∷ MAJOR ∷ MINOR ∷ STATUS ∷ LENIENT ∷ FLAGS ∷ LENGTH ∷ FINISH ∷ UPGRADE ∷ FIELD ∷ [] }
{}
