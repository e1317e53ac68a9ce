// The names of methods and of errors, by their numbers.
ghost use Rattle.std.specs.Prelude.{◌≡◌, ◌↔◌, List, ℕ, map, option_map, true, false, IsSome, IsNone};
ghost use Rattle.pp_http.specs.Names.{methods, errors, name_of, is_listed};

/// A number with its name.
type Named = (u32, &'static str);

static METHODS: [Named; 33] = [
    (0, "DELETE"),
    (1, "GET"),
    (2, "HEAD"),
    (3, "POST"),
    (4, "PUT"),
    (5, "CONNECT"),
    (6, "OPTIONS"),
    (7, "TRACE"),
    (8, "COPY"),
    (9, "LOCK"),
    (10, "MKCOL"),
    (11, "MOVE"),
    (12, "PROPFIND"),
    (13, "PROPPATCH"),
    (14, "SEARCH"),
    (15, "UNLOCK"),
    (16, "BIND"),
    (17, "REBIND"),
    (18, "UNBIND"),
    (19, "ACL"),
    (20, "REPORT"),
    (21, "MKACTIVITY"),
    (22, "CHECKOUT"),
    (23, "MERGE"),
    (24, "M-SEARCH"),
    (25, "NOTIFY"),
    (26, "SUBSCRIBE"),
    (27, "UNSUBSCRIBE"),
    (28, "PATCH"),
    (29, "PURGE"),
    (30, "MKCALENDAR"),
    (31, "LINK"),
    (32, "UNLINK"),
];

static ERRORS: [Named; 26] = [
    (0, "OK"),
    (3, "LF_EXPECTED"),
    (4, "UNEXPECTED_CONTENT_LENGTH"),
    (5, "CLOSED_CONNECTION"),
    (6, "INVALID_METHOD"),
    (7, "INVALID_URL"),
    (8, "INVALID_CONSTANT"),
    (9, "INVALID_VERSION"),
    (10, "INVALID_HEADER_TOKEN"),
    (11, "INVALID_CONTENT_LENGTH"),
    (12, "INVALID_CHUNK_SIZE"),
    (13, "INVALID_STATUS"),
    (14, "INVALID_EOF_STATE"),
    (15, "INVALID_TRANSFER_ENCODING"),
    (16, "CB_MESSAGE_BEGIN"),
    (17, "CB_HEADERS_COMPLETE"),
    (18, "CB_MESSAGE_COMPLETE"),
    (19, "CB_CHUNK_HEADER"),
    (20, "CB_CHUNK_COMPLETE"),
    (21, "PAUSED"),
    (22, "PAUSED_UPGRADE"),
    (25, "CR_EXPECTED"),
    (26, "CB_URL_COMPLETE"),
    (27, "CB_STATUS_COMPLETE"),
    (28, "CB_HEADER_FIELD_COMPLETE"),
    (29, "CB_HEADER_VALUE_COMPLETE"),
];

/// The name of a method, by the number that the property method has.
pub fn method_name(number: u32) -> Option<&'static str>
    ensures name { option_map (λ name. name.now) result ≡ name_of methods number }
    ensures none { IsNone result ↔ (is_listed methods number ≡ false) }
{
    name_in(method_table(), number)
}

/// The name of an error, by its number. Those of a callback are the errors of answers that the callback doesn't know.
pub fn error_name(number: u32) -> Option<&'static str>
    ensures name { option_map (λ name. name.now) result ≡ name_of errors number }
    ensures none { IsNone result ↔ (is_listed errors number ≡ false) }
{
    name_in(error_table(), number)
}

// The table of methods.
fn method_table() -> &'static [Named]
    ensures { map (λ row. (row.0, row.1.now)) result.now ≡ methods }
{
    &METHODS
}

// The table of errors.
fn error_table() -> &'static [Named]
    ensures { map (λ row. (row.0, row.1.now)) result.now ≡ errors }
{
    &ERRORS
}

// The name of a number in a table.
fn name_in(rows: &[Named], number: u32) -> Option<&'static str>
    ensures name { option_map (λ name. name.now) result ≡ name_of (map (λ row. (row.0, row.1.now)) rows.now) number }
    ensures none { IsNone result ↔ (is_listed (map (λ row. (row.0, row.1.now)) rows.now) number ≡ false) }
{
    for (listed, name) in rows {
        if *listed == number {
            return Some(*name);
        }
    }
    None
}
