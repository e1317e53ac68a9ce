// The fields of a head.
ghost use Rattle.std.specs.Prelude.{◌≡◌, All, ℕ, ◌+◌, ◌<◌, ◌^◌, ◌==◌, ◌⊎◌, List, length, IfOk, IsErrOf, MatchBool, MatchResult};
ghost use Rattle.std.specs.List.{position};
ghost use Rattle.std.specs.Option.{SomeIff};
ghost use Rattle.pp_frame.specs.steps.Heads.{IsFaultOf, IsFaultOfLine};
ghost use Rattle.pp_frame.specs.declared.parts.Field.{Field};
ghost use Rattle.pp_frame.specs.Bytes.{colon};
ghost use Rattle.pp_frame.specs.Lines.{HasEmptyLine};
ghost use Rattle.pp_frame.specs.Fields.{HasColon, HasFields, IsFieldOf, LacksColonAt, field_at};

use crate::blanks::trimmed;
use crate::lines::line_len;
use crate::parts::{Field, HeadFault, Part};
use std::alloc::Global;

/// The field lines of `head` up to the empty line, in order. Places count bytes of `head`.
///
/// RFC 9112, section 5. A line ends at CRLF, its name stands before the first colon, and its value is given
/// without the blanks around it. A value that is then empty has both places at the end of its line.
///
/// `NoEnd` where no line is empty; else `NoColon` with the first line, from 1, that has no colon.
/// The head is shorter than 4,294,967,296 bytes.
pub fn fields_of(alloc: Global, head: &[u8]) -> Result<Vec<Field>, HeadFault>
    requires { length head.now < 2 ^ 32 }
    ensures ok { IfOk result (λ fields. HasFields head.now fields.items) }
    ensures parts { IfOk result (λ fields. All (IsFieldOf head.now) fields.items) }
    ensures ok_only { (fields : List Field) → HasFields head.now fields → MatchResult result (λ found. found.items ≡ fields) (λ e. e ≡ HeadFault.NoMemory) }
    ensures no_end { IsErrOf result HeadFault.NoEnd → ¬ (HasEmptyLine head.now) }
    ensures no_end_only { ¬ (HasEmptyLine head.now) → MatchResult result (λ _. ⊥) (λ e. (e ≡ HeadFault.NoEnd) ⊎ (e ≡ HeadFault.NoMemory)) }
    ensures no_colon { (line : ℕ) → IsErrOf result (HeadFault.NoColon line) → LacksColonAt head.now line }
    ensures no_colon_only { (line : ℕ) → LacksColonAt head.now line → MatchResult result (λ _. ⊥) (λ e. (e ≡ HeadFault.NoColon line) ⊎ (e ≡ HeadFault.NoMemory)) }
{
    read_fields(alloc, head)
}

// The same, where want of memory may hide each other answer.
fn read_fields(alloc: Global, head: &[u8]) -> Result<Vec<Field>, HeadFault>
    requires { length head.now < 2 ^ 32 }
    ensures { MatchResult result (λ fields. HasFields head.now fields.items) (IsFaultOf head.now) }
{
    let mut fields = Vec::new(alloc);
    let mut at = 0;
    let mut line = 1;
    while let Some(len) = line_len(&head[at..]) {
        if len == 0 {
            return Ok(fields);
        }
        let Some(field) = field_in(&head[at..at + len], at) else {
            return Err(line_fault(&head[at..], line));
        };
        fields.push(field)?;
        at += len + 2;
        line += 1;
    }
    Err(HeadFault::NoEnd)
}

// The field of a line that begins at this place, if it has a colon.
fn field_in(line: &[u8], from: usize) -> Option<Field>
    requires { from + length line.now < 2 ^ 32 }
    ensures { SomeIff result (HasColon line.now) (field_at from line.now) }
{
    let colon = colon_of(line)?;
    let after = colon + 1;
    let value = trimmed(&line[after..]);
    Some(Field {
        name: Part {
            from,
            to: from + colon,
        },
        value: Part {
            from: from + after + value.from,
            to: from + after + value.to,
        },
    })
}

// The place of the first colon.
fn colon_of(line: &[u8]) -> Option<usize>
    ensures { result ≡ position (λ b. b == colon) line.now }
{
    line.iter().position(|b| *b == b':')
}

// Why these bytes, whose first line has this number and no colon, are no end of a head.
fn line_fault(bytes: &[u8], line: u32) -> HeadFault
    ensures { IsFaultOfLine bytes.now line result }
{
    if has_empty_line(bytes) {
        HeadFault::NoColon { line }
    } else {
        HeadFault::NoEnd
    }
}

// Whether an empty line stands among the lines of the bytes.
fn has_empty_line(bytes: &[u8]) -> bool
    ensures { MatchBool result (HasEmptyLine bytes.now) (¬ (HasEmptyLine bytes.now)) }
{
    let mut at = 0;
    while let Some(len) = line_len(&bytes[at..]) {
        if len == 0 {
            return true;
        }
        at += len + 2;
    }
    false
}
