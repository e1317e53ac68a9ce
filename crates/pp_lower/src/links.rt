// Which texts are longer by one byte than others, and which are the same.
ghost use Rattle.std.specs.Prelude.{◌≡◌, ◌<◌, ◌+◌, ◌^◌, ℕ, List, ◌++◌, ◌∷◌, [], Some, None, suc, length, map, slice_get, slice_set, slice_index_or, replicate, IfOk, OnOk};
ghost use Rattle.pp_lower.specs.Tree.{place_of};
ghost use Rattle.pp_lower.specs.steps.Order.{IsOrdered};
ghost use Rattle.pp_lower.specs.steps.Links.{link_by, links_in, AreLinks, AreEnds};

use crate::texts::place_for;
use pp_bytes::Listed;
use std::alloc::{AllocError, Global};

/// The place of a text that is longer than another by this byte.
#[derive(Clone, Copy)]
pub(crate) struct Link {
    pub byte: u8,
    pub place: u32,
}

/// Where a byte leads.
pub(crate) fn link_at(links: &[Link], byte: u8) -> Option<u32>
    ensures { result ≡ link_by links.now byte }
{
    for link in links {
        if link.byte == byte {
            return Some(link.place);
        }
    }
    None
}

/// For the empty text and those of a list, by each byte the place of the text that is longer by it.
pub(crate) fn links_of(
    alloc: Global,
    list: &[Listed<u8>],
    texts: &[Listed<u8>],
) -> Result<Vec<Vec<Link>>, AllocError>
    requires ordered { IsOrdered ([] ∷ list.now) }
    requires small { length texts.now < 2 ^ 32 }
    ensures { IfOk result (λ rows. AreLinks list.now texts.now (links_in rows.items)) }
{
    let mut rows = empty_rows(alloc, list)?;
    for i in 0..texts.len() {
        add_link(&mut rows, list, texts[i].items(), i as u32)?;
    }
    Ok(rows)
}

// For the empty text and those of a list no links.
fn empty_rows(alloc: Global, list: &[Listed<u8>]) -> Result<Vec<Vec<Link>>, AllocError>
    ensures { IfOk result (λ rows. AreLinks list.now [] (links_in rows.items)) }
{
    let mut rows = Vec::new(alloc);
    for _i in 0..=list.len() {
        push_row(alloc, &mut rows)?;
    }
    Ok(rows)
}

fn push_row(alloc: Global, rows: &mut Vec<Vec<Link>>) -> Result<(), AllocError>
    ensures { OnOk result (links_in rows.new.items ≡ links_in rows.old.items ++ [] ∷ []) }
{
    rows.push(Vec::new(alloc))?;
    Ok(())
}

// Adds one more of the texts, at a place.
fn add_link(
    rows: &mut Vec<Vec<Link>>,
    list: &[Listed<u8>],
    text: &[u8],
    place: u32,
) -> Result<(), AllocError>
    requires ordered { IsOrdered ([] ∷ list.now) }
    requires long { length rows.old.items ≡ suc (length list.now) }
    ensures { OnOk result ((texts : List (List ℕ)) → place ≡ length texts → AreLinks list.now texts (links_in rows.old.items) → AreLinks list.now (texts ++ text.now ∷ []) (links_in rows.new.items)) }
{
    if text.len() == 0 {
        return Ok(());
    }
    let last = text.len() - 1;
    if let Some(row) = row_of(list, &text[..last]) {
        push_link(
            rows,
            row,
            Link {
                byte: text[last],
                place,
            },
        )?;
    }
    Ok(())
}

fn push_link(rows: &mut Vec<Vec<Link>>, row: usize, link: Link) -> Result<(), AllocError>
    requires { row < length rows.old.items }
    ensures { OnOk result (links_in rows.new.items ≡ slice_set (links_in rows.old.items) row (slice_index_or (links_in rows.old.items) row [] ++ link ∷ [])) }
{
    rows[row].push(link)?;
    Ok(())
}

// Where a text stands among the empty one and those of a list.
fn row_of(list: &[Listed<u8>], text: &[u8]) -> Option<usize>
    requires { IsOrdered ([] ∷ list.now) }
    ensures { result ≡ place_of text.now ([] ∷ list.now) }
{
    if text.len() == 0 {
        return Some(0);
    }
    match place_for(list, text) {
        Some(place) => Some(place + 1),
        None => None,
    }
}

/// For the empty text and those of a list the place of the text that is the same.
pub(crate) fn ends_of(
    alloc: Global,
    list: &[Listed<u8>],
    texts: &[Listed<u8>],
) -> Result<Vec<Option<u32>>, AllocError>
    requires ordered { IsOrdered ([] ∷ list.now) }
    requires small { length texts.now < 2 ^ 32 }
    ensures { IfOk result (λ ends. AreEnds list.now texts.now ends.items) }
{
    let mut ends = empty_ends(alloc, list)?;
    for i in 0..texts.len() {
        add_end(&mut ends, list, texts[i].items(), i as u32);
    }
    Ok(ends)
}

fn empty_ends(alloc: Global, list: &[Listed<u8>]) -> Result<Vec<Option<u32>>, AllocError>
    ensures { IfOk result (λ ends. AreEnds list.now [] ends.items) }
{
    let mut ends: Vec<Option<u32>> = Vec::new(alloc);
    for _i in 0..=list.len() {
        ends.push(None)?;
    }
    Ok(ends)
}

// Adds one more of the texts, at a place.
fn add_end(ends: &mut [Option<u32>], list: &[Listed<u8>], text: &[u8], place: u32)
    requires ordered { IsOrdered ([] ∷ list.now) }
    requires long { length ends.old ≡ suc (length list.now) }
    ensures { (texts : List (List ℕ)) → place ≡ length texts → AreEnds list.now texts ends.old → AreEnds list.now (texts ++ text.now ∷ []) ends.new }
{
    if let Some(row) = row_of(list, text) {
        if ends[row].is_none() {
            ends[row] = Some(place);
        }
    }
}
