//! Reading a part.
ghost use Rattle.std.specs.Prelude.{◌≡◌, ◌-◌, map, take, length, List, Some, None, MatchOption, IfOk, IfSome};
ghost use Rattle.std.specs.List.{AllZip};
ghost use Rattle.mpw_firm_parts.specs.Parts.{IsListOf};
ghost use Rattle.mpw_text.specs.Text.{lines_of};
ghost use Rattle.mpw_geom.specs.Names.{name_eq};
ghost use Rattle.mpw_firm_parts.specs.Text.{part_text};
ghost use Rattle.mpw_firm_parts.specs.Reading.{all_of, column_of, head_by, head_of, listed_of, within, part_by, exact, part_of, ends_word, has_first_word, is_older, begins_as_part};
ghost use Rattle.mpw_firm_parts.specs.Internal.Reading.{AreOf};

use crate::head::{Heading, head};
use crate::line::column_line;
use crate::part::{Lists, Part};
use crate::write::write_part;
use mpw_columns_keys::{Column, ColumnKeys};
use mpw_text::lines;
use std::alloc::{AllocError, Global};

/// The columns of lines, with the keys of each.
fn columns(alloc: Global, lines: &[&[u8]]) -> Result<Option<Lists>, AllocError>
    ensures columns { IfOk result (λ found. MatchOption found (all_of column_of (map (λ line. line.now) lines.now) ≡ None) (λ l. AreOf (all_of column_of (map (λ line. line.now) lines.now)) l.columns.items l.lists.items)) }
    ensures of { IfOk result (λ found. IfSome found (λ l. AllZip IsListOf l.columns.items l.lists.items)) }
{
    let mut columns = Vec::with_capacity(alloc, lines.len())?;
    let mut lists = Vec::with_capacity(alloc, lines.len())?;
    for line in lines {
        match column_line(alloc, line)? {
            Some(listed) => {
                columns.push(listed.column)?;
                lists.push(listed.keys)?;
            }
            None => return Ok(None),
        }
    }
    Ok(Some(Lists { columns, lists }))
}

/// The columns of the lines before the last.
fn listed_of(alloc: Global, lines: &[&[u8]]) -> Result<Option<Lists>, AllocError>
    ensures columns { IfOk result (λ found. MatchOption found (listed_of (map (λ line. line.now) lines.now) ≡ None) (λ l. AreOf (listed_of (map (λ line. line.now) lines.now)) l.columns.items l.lists.items)) }
    ensures of { IfOk result (λ found. IfSome found (λ l. AllZip IsListOf l.columns.items l.lists.items)) }
{
    columns(alloc, &lines[..lines.len().saturating_sub(1)])
}

/// The part of these columns, if they are among those of the whole.
#[tactic(auto, unfolding(crate::specs::Reading::within))]
fn within(heading: Heading, columns: Vec<Column>, lists: Vec<ColumnKeys>) -> Option<Part>
    requires { AllZip IsListOf columns.items lists.items }
    ensures { result ≡ within heading columns.items lists.items }
{
    if heading.first as usize + lists.len() > heading.subject.columns() as usize {
        return None;
    }
    Some(Part::new(heading.subject, heading.first, columns, lists))
}

/// What lines say as a part. What the last line has isn't looked at.
#[tactic(auto, unfolding(crate::specs::Reading::part_by))]
fn part(alloc: Global, lines: &[&[u8]]) -> Result<Option<Part>, AllocError>
    ensures { IfOk result (λ found. found ≡ part_by (map (λ line. line.now) lines.now)) }
{
    let [first, rest @ ..] = lines else {
        return Ok(None);
    };
    let Some(heading) = head(alloc, first)? else {
        return Ok(None);
    };
    match listed_of(alloc, rest)? {
        Some(found) => Ok(within(heading, found.columns, found.lists)),
        None => Ok(None),
    }
}

/// What a text says as a part.
fn said(alloc: Global, text: &[u8]) -> Result<Option<Part>, AllocError>
    ensures { IfOk result (λ found. found ≡ part_by (lines_of text.now)) }
{
    let lines = lines(alloc, text)?;
    part(alloc, lines.as_slice())
}

/// Whether this is the part's text.
fn is_text_of(alloc: Global, text: &[u8], part: &Part) -> Result<bool, AllocError>
    ensures { IfOk result (λ same. same ≡ name_eq text.now (part_text part.now)) }
{
    let mut written = Vec::with_capacity(alloc, text.len())?;
    match write_part(alloc, &mut written, part) {
        Ok(()) => Ok(text == written.as_slice()),
        Err(_) => Err(AllocError),
    }
}

/// The part, if this is its text.
#[tactic(auto, unfolding(crate::specs::Reading::exact))]
fn exact(alloc: Global, text: &[u8], part: Part) -> Result<Option<Part>, AllocError>
    ensures { IfOk result (λ found. found ≡ exact text.now part) }
{
    match is_text_of(alloc, text, &part) {
        Ok(true) => Ok(Some(part)),
        Ok(false) => Ok(None),
        Err(_) => Err(AllocError),
    }
}

/// Reads a part: `Some` of it if the text is the very one that [`write_part`] writes of it, and else `None`. So a text with a changed byte,
/// or one that was cut off, is no part: its last line has the SHA-256 of all before it. Reading takes one pass over the text, and writing the part
/// again another. Beside the keys it takes memory for the places of the lines and of the words of one of them, and then for a second text.
///
/// # Errors
/// Out of memory.
#[tactic(auto, unfolding(crate::specs::Reading::part_of))]
pub fn read_part(alloc: Global, text: &[u8]) -> Result<Option<Part>, AllocError>
    ensures { IfOk result (λ part. part ≡ part_of text.now) }
{
    match said(alloc, text)? {
        Some(part) => exact(alloc, text, part),
        None => Ok(None),
    }
}

/// Whether a word ends there.
fn ends_word(text: &[u8]) -> bool
    ensures { result ≡ ends_word text.now }
{
    match text {
        [] => true,
        [byte, ..] => *byte == b' ' || *byte == b'\n',
    }
}

/// Whether this is the text's first word.
fn has_first_word(word: &[u8], text: &[u8]) -> bool
    ensures { result ≡ has_first_word word.now text.now }
{
    match text.strip_prefix(word) {
        Some(rest) => ends_word(rest),
        None => false,
    }
}

/// Whether the text's first word is that of an older part: of tiles, or of columns without a digest. No part is read from it, and the
/// check has to run again. It looks at eleven bytes.
pub fn is_older_part(text: &[u8]) -> bool
    ensures { result ≡ is_older text.now }
{
    has_first_word(b"mpw-part-1", text) || has_first_word(b"mpw-part-2", text)
}

/// Whether the text's first word is a part's. If [`read_part`] reads no part from it, it was changed or cut off. It looks at eleven bytes.
pub fn begins_as_part(text: &[u8]) -> bool
    ensures { result ≡ begins_as_part text.now }
{
    has_first_word(b"mpw-part-3", text)
}
