// The values of the fields of one name, and the elements of values.
ghost use Rattle.std.specs.Prelude.{◌≡◌, ◌==◌, ◌<◌, nat_lt, All, IfSome, length, slice_get};
ghost use Rattle.std.specs.List.{position, list_any};
ghost use Rattle.std.specs.Option.{is_some, option_copied};
ghost use Rattle.pp_frame.specs.Bytes.{comma};
ghost use Rattle.pp_frame.specs.Fields.{IsFieldOf};
ghost use Rattle.pp_frame.specs.Framing.{values_named, is_quoted, ends_chunked, transfer_encoding};
ghost use Rattle.pp_frame.specs.steps.Codings.{after_field, after_part, after_value, quotes, value_if_named};

use crate::blanks::without_blanks;
use crate::folding::folds_to;
use crate::parts::Field;

/// The name of Content-Length, in small letters.
pub(crate) const CONTENT_LENGTH: &[u8] = b"content-length";

/// The name of Transfer-Encoding, in small letters.
pub(crate) const TRANSFER_ENCODING: &[u8] = b"transfer-encoding";

/// The name of the chunked coding.
const CHUNKED: &[u8] = b"chunked";

// The value of a field, if it has this name.
fn value_if_named<'h>(head: &'h [u8], field: Field, name: &[u8]) -> Option<&'h [u8]>
    requires { IsFieldOf head.now field }
    ensures { option_copied result ≡ value_if_named name.now head.now field }
{
    if folds_to(&head[field.name.from..field.name.to], name) {
        Some(&head[field.value.from..field.value.to])
    } else {
        None
    }
}

// The value of the first field of this name.
pub(crate) fn first_named<'h>(head: &'h [u8], fields: &[Field], name: &[u8]) -> Option<&'h [u8]>
    requires { All (IsFieldOf head.now) fields.now }
    ensures { option_copied result ≡ slice_get (values_named name.now head.now fields.now) 0 }
{
    for field in fields {
        if let Some(value) = value_if_named(head, *field, name) {
            return Some(value);
        }
    }
    None
}

// Whether there is a field of this name.
pub(crate) fn has_first(head: &[u8], fields: &[Field], name: &[u8]) -> bool
    requires { All (IsFieldOf head.now) fields.now }
    ensures { result ≡ is_some (slice_get (values_named name.now head.now fields.now) 0) }
{
    match first_named(head, fields, name) {
        None => false,
        Some(_) => true,
    }
}

// Whether there are two fields of this name or more.
pub(crate) fn has_second(head: &[u8], fields: &[Field], name: &[u8]) -> bool
    requires { All (IsFieldOf head.now) fields.now }
    ensures { result ≡ nat_lt 1 (length (values_named name.now head.now fields.now)) }
{
    for i in 0..fields.len() {
        if let Some(_) = value_if_named(head, fields[i], name) {
            return has_first(head, &fields[i + 1..], name);
        }
    }
    false
}

// Whether a double quote stands in a Transfer-Encoding.
pub(crate) fn any_quoted(head: &[u8], fields: &[Field]) -> bool
    requires { All (IsFieldOf head.now) fields.now }
    ensures { result ≡ list_any is_quoted (values_named transfer_encoding head.now fields.now) }
{
    for field in fields {
        if is_quoted_coding(head, *field) {
            return true;
        }
    }
    false
}

// Whether it is a Transfer-Encoding with a double quote.
fn is_quoted_coding(head: &[u8], field: Field) -> bool
    requires { IsFieldOf head.now field }
    ensures { result ≡ quotes (value_if_named transfer_encoding head.now field) }
{
    match value_if_named(head, field, TRANSFER_ENCODING) {
        None => false,
        Some(value) => is_quoted(value),
    }
}

// Whether a double quote stands in a value.
fn is_quoted(value: &[u8]) -> bool
    ensures { result ≡ is_quoted value.now }
{
    value.contains(&b'"')
}

// Whether the last element of all Transfer-Encodings is `chunked`.
pub(crate) fn ends_chunked(head: &[u8], fields: &[Field]) -> bool
    requires { All (IsFieldOf head.now) fields.now }
    ensures { result ≡ ends_chunked (values_named transfer_encoding head.now fields.now) }
{
    let mut last = false;
    for field in fields {
        last = after_field(head, *field, last);
    }
    last
}

// The same up to and with a field, which counts if it is a Transfer-Encoding.
fn after_field(head: &[u8], field: Field, before: bool) -> bool
    requires { IsFieldOf head.now field }
    ensures { result ≡ after_field before (value_if_named transfer_encoding head.now field) }
{
    match value_if_named(head, field, TRANSFER_ENCODING) {
        None => before,
        Some(value) => after_value(value, before),
    }
}

// Whether the last element up to and with those of this value is `chunked`, if the last before it was so.
fn after_value(value: &[u8], before: bool) -> bool
    ensures { result ≡ after_value before value.now }
{
    let mut last = before;
    let mut rest = value;
    while let Some(comma) = comma_of(rest) {
        last = after_part(&rest[..comma], last);
        rest = &rest[comma + 1..];
    }
    after_part(rest, last)
}

// The place of the first comma.
fn comma_of(value: &[u8]) -> Option<usize>
    ensures place { result ≡ position (λ b. b == comma) value.now }
    ensures within { IfSome result (λ k. k < length value.now) }
{
    value.iter().position(|b| *b == b',')
}

// The same for the bytes between two commas, which are no element where they are blanks alone.
fn after_part(part: &[u8], before: bool) -> bool
    ensures { result ≡ after_part before part.now }
{
    let element = without_blanks(part);
    if element.is_empty() {
        before
    } else {
        folds_to(element, CHUNKED)
    }
}
