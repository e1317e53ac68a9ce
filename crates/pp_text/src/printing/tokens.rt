// Tokens, each behind a blank, and the end of a line.
ghost use Rattle.std.specs.Prelude.{◌≡◌, ◌++◌, ◌∷◌, [], flat_map, OnOk};
ghost use Rattle.pp_text.specs.Tokens.{Word, Quoted};
ghost use Rattle.pp_text.specs.Statements.{number_word, arrow_tokens};
ghost use Rattle.pp_text.specs.Printed.{behind_blank};

use itoa::Buffer;
use std::alloc::AllocError;

/// A blank and a word.
pub(crate) fn push_word(out: &mut Vec<u8>, word: &[u8]) -> Result<(), AllocError>
    ensures { OnOk result (out.new.items ≡ out.old.items ++ behind_blank (Word word.now)) }
{
    out.push(b' ')?;
    out.extend_from_slice(word)
}

/// Two words, each behind a blank.
pub(crate) fn push_two(out: &mut Vec<u8>, first: &[u8], second: &[u8]) -> Result<(), AllocError>
    ensures { OnOk result (out.new.items ≡ out.old.items ++ flat_map behind_blank (Word first.now ∷ Word second.now ∷ [])) }
{
    push_word(out, first)?;
    push_word(out, second)
}

/// A blank and a number in decimal.
pub(crate) fn push_number(out: &mut Vec<u8>, number: u64) -> Result<(), AllocError>
    ensures { OnOk result (out.new.items ≡ out.old.items ++ behind_blank (number_word number)) }
{
    let mut buffer = Buffer::new();
    push_word(out, buffer.format(number).as_bytes())
}

/// A blank and a text in quotes, as it is.
pub(crate) fn push_quoted(out: &mut Vec<u8>, inside: &[u8]) -> Result<(), AllocError>
    ensures { OnOk result (out.new.items ≡ out.old.items ++ behind_blank (Quoted inside.now)) }
{
    out.extend_from_slice(b" \"")?;
    out.extend_from_slice(inside)?;
    out.push(b'"')?;
    Ok(())
}

/// The arrow and the node behind it.
pub(crate) fn push_arrow(out: &mut Vec<u8>, target: &[u8]) -> Result<(), AllocError>
    ensures { OnOk result (out.new.items ≡ out.old.items ++ flat_map behind_blank (arrow_tokens target.now)) }
{
    push_two(out, b"->", target)
}

pub(crate) fn end_line(out: &mut Vec<u8>) -> Result<(), AllocError>
    ensures { OnOk result (out.new.items ≡ out.old.items ++ 10 ∷ []) }
{
    out.push(b'\n')?;
    Ok(())
}
