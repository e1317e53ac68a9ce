// How a message's body is framed.
ghost use Rattle.std.specs.Prelude.{◌≡◌, All};
ghost use Rattle.pp_frame.specs.Fields.{IsFieldOf};
ghost use Rattle.pp_frame.specs.Framing.{framing_of, stated, coded, framed_by, unstated, is_bare, length_in, values_named, content_length, transfer_encoding};

use crate::message::{Framing, Start};
use crate::numbers::length_in;
use crate::parts::Field;
use crate::values::{
    CONTENT_LENGTH, TRANSFER_ENCODING, any_quoted, ends_chunked, first_named, has_first, has_second,
};

/// How the body of a message is framed, whose head has these fields. `answer` is what the host answered to the head.
///
/// RFC 9112, section 6.3. Names and codings are compared without regard to case. Answer 2 asks for a tunnel and
/// answer 1 for no body. Narrower than the RFC: two Content-Length fields are refused even where they agree, and a
/// double quote in a Transfer-Encoding is refused. Takes no memory.
///
/// Each part of `fields` lies in `head`, with `from` at most `to`.
pub fn framing(start: Start, head: &[u8], fields: &[Field], answer: u32) -> Framing
    requires { All (IsFieldOf head.now) fields.now }
    ensures { result ≡ framing_of start head.now fields.now answer }
{
    if answer == 2 {
        return Framing::Tunnel;
    }
    if answer == 1 || is_bare(start) {
        return Framing::Nothing;
    }
    stated(start, head, fields)
}

// The framing of a body by what the head says of it.
fn stated(start: Start, head: &[u8], fields: &[Field]) -> Framing
    requires { All (IsFieldOf head.now) fields.now }
    ensures { result ≡ stated start (values_named content_length head.now fields.now) (values_named transfer_encoding head.now fields.now) }
{
    let is_coded = has_first(head, fields, TRANSFER_ENCODING);
    let Some(value) = first_named(head, fields, CONTENT_LENGTH) else {
        if is_coded {
            return coded(start, head, fields);
        }
        return unstated(start);
    };
    if is_coded || has_second(head, fields, CONTENT_LENGTH) {
        return Framing::Refused(4);
    }
    framed_by(value)
}

// Whether it is a response that never has a body.
fn is_bare(start: Start) -> bool
    ensures { result ≡ is_bare start }
{
    start.response && matches!(start.status, 100..=199 | 204 | 304)
}

// The framing of a body whose head has Transfer-Encoding.
fn coded(start: Start, head: &[u8], fields: &[Field]) -> Framing
    requires { All (IsFieldOf head.now) fields.now }
    ensures { result ≡ coded start (values_named transfer_encoding head.now fields.now) }
{
    if start.minor == 0 || any_quoted(head, fields) {
        return Framing::Refused(15);
    }
    if ends_chunked(head, fields) {
        return Framing::Chunked;
    }
    if start.response {
        return Framing::UntilClose;
    }
    Framing::Refused(15)
}

// The framing of a body by the value of its one Content-Length.
fn framed_by(value: &[u8]) -> Framing
    ensures { result ≡ framed_by (length_in value.now) }
{
    match length_in(value) {
        None => Framing::Refused(11),
        Some(n) => Framing::Length(n),
    }
}

// The framing of a body whose head says nothing of it.
fn unstated(start: Start) -> Framing
    ensures { result ≡ unstated start }
{
    if start.response {
        Framing::UntilClose
    } else {
        Framing::Length(0)
    }
}
