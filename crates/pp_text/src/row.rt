// The statements of a row, which is a line without its end.
ghost use Rattle.std.specs.Prelude.{◌≡◌, ◌+◌, ◌≤◌, List, IfOk, IfSome, IsSomeAnd, length};
ghost use Rattle.std.specs.List.{prefix_len};
ghost use Rattle.pp_text.specs.steps.Lexing.{IsBehindBlanks};
ghost use Rattle.pp_text.specs.Tokens.{Token as SpecToken, Behind as SpecBehind, BeginsRow, IsBehind, is_blank};
ghost use Rattle.pp_text.specs.steps.View.{tokens_of, behind_of, length_behind};

use crate::token::{Token, token_at};
use std::alloc::AllocError;

/// What stands behind a statement in its row.
#[derive(Clone, Copy)]
pub(crate) enum Behind<'t> {
    /// Another statement, behind a `;`: the bytes behind it.
    Statement(&'t [u8]),
    /// The end of the row, or a comment.
    Nothing,
}

/// Reads the tokens of the first statement of a row, and gives what stands behind it. `None` where the row does not
/// begin with a statement.
pub(crate) fn read_tokens<'t>(
    tokens: &mut Vec<Token<'t>>,
    row: &'t [u8],
) -> Result<Option<Behind<'t>>, AllocError>
    ensures found { IfOk result (λ r. IfSome r (λ behind. BeginsRow row.now (tokens_of tokens.new.items) (behind_of behind))) }
    ensures only { (ts : List SpecToken) (b : SpecBehind) → BeginsRow row.now ts b
        → IfOk result (λ r. IsSomeAnd r (λ behind. (tokens_of tokens.new.items ≡ ts) × (behind_of behind ≡ b))) }
    ensures short { IfOk result (λ r. IfSome r (λ behind. length tokens.new.items + length_behind behind ≤ length row.now)) }
{
    tokens.clear();
    let mut rest = without_blanks(row);
    while let Some((token, behind)) = token_at(rest) {
        tokens.push(token)?;
        rest = without_blanks(behind);
    }
    Ok(behind_in(rest))
}

// The bytes behind the blanks that they begin with.
fn without_blanks(bytes: &[u8]) -> &[u8]
    ensures { IsBehindBlanks bytes.now result.now }
{
    &bytes[count_blanks(bytes)..]
}

// How many blanks come first.
fn count_blanks(bytes: &[u8]) -> usize
    ensures run { result ≡ prefix_len is_blank bytes.now }
    ensures within { result ≤ length bytes.now }
{
    bytes
        .iter()
        .take_while(|b| **b == b' ' || **b == b'\t')
        .count()
}

// What stands behind a statement: a `;` and the next one, or the end of the row.
fn behind_in(rest: &[u8]) -> Option<Behind<'_>>
    ensures found { IfSome result (λ behind. IsBehind rest.now (behind_of behind)) }
    ensures only { (b : SpecBehind) → IsBehind rest.now b → IsSomeAnd result (λ behind. behind_of behind ≡ b) }
{
    match rest {
        [b';', next @ ..] => Some(Behind::Statement(next)),
        [] | [b'#', ..] => Some(Behind::Nothing),
        _ => None,
    }
}
