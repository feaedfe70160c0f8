//! Reading a part's first line.
ghost use Rattle.std.specs.Prelude.{◌≡◌, map, option_map, Some, IfOk};
ghost use Rattle.mpw_firm_parts.specs.Reading.{box_by, extent_of, head_by, head_from, head_of};

use crate::part::Subject;
use crate::word::{bytes, digest, integer, is, name};
use mpw_geom::Box2;
use mpw_text::{parts, read_number};
use std::alloc::{AllocError, Global};

/// The greatest number of columns.
const MAX_COLUMNS: u32 = 4194304;

/// What a part's first line says.
#[derive(Drop)]
pub(crate) struct Heading {
    pub subject: Subject,
    pub first: u32,
}

/// The box of these sides.
#[tactic(auto, unfolding(crate::specs::Reading::box_by))]
fn box_by(words: &[&[u8]]) -> Option<Box2>
    ensures { result ≡ box_by (map (λ word. word.now) words.now) }
{
    let [x0, y0, x1, y1] = words else {
        return None;
    };
    let x0 = integer(x0)?;
    let y0 = integer(y0)?;
    let x1 = integer(x1)?;
    let y1 = integer(y1)?;
    Some(Box2 { x0, y0, x1, y1 })
}

/// The extent that a word gives, or that there is none.
#[tactic(auto, unfolding(crate::specs::Reading::extent_of))]
fn extent(alloc: Global, word: &[u8]) -> Result<Option<Option<Box2>>, AllocError>
    ensures { IfOk result (λ found. found ≡ extent_of word.now) }
{
    if is(word, "-") {
        return Ok(Some(None));
    }
    let sides = parts(alloc, word, b':')?;
    match box_by(sides.as_slice()) {
        Some(extent) => Ok(Some(Some(extent))),
        None => Ok(None),
    }
}

/// What the words after the first say.
#[tactic(auto, unfolding(crate::specs::Reading::head_from))]
fn head_from(alloc: Global, words: &[&[u8]]) -> Result<Option<Heading>, AllocError>
    ensures { IfOk result (λ found. found ≡ head_from (map (λ word. word.now) words.now)) }
{
    let [library, deck, top, sides, columns, first] = words else {
        return Ok(None);
    };
    let Some(library) = digest(library) else {
        return Ok(None);
    };
    let Some(columns) = read_number(columns, 0, MAX_COLUMNS) else {
        return Ok(None);
    };
    let Some(first) = read_number(first, 0, MAX_COLUMNS) else {
        return Ok(None);
    };
    let Some(extent) = extent(alloc, sides)? else {
        return Ok(None);
    };
    let Some(top) = name(alloc, top)? else {
        return Ok(None);
    };
    let Some(deck) = bytes(alloc, deck)? else {
        return Ok(None);
    };
    Ok(Some(Heading {
        subject: Subject::new(library, deck, top, extent, columns),
        first,
    }))
}

/// What a first line says, by its words.
#[tactic(auto, unfolding(crate::specs::Reading::head_by))]
fn head_by(alloc: Global, words: &[&[u8]]) -> Result<Option<Heading>, AllocError>
    ensures { IfOk result (λ found. found ≡ head_by (map (λ word. word.now) words.now)) }
{
    match words {
        [kind, rest @ ..] if is(kind, "mpw-part-3") => head_from(alloc, rest),
        _ => Ok(None),
    }
}

/// What a first line says.
pub(crate) fn head(alloc: Global, line: &[u8]) -> Result<Option<Heading>, AllocError>
    ensures { IfOk result (λ found. found ≡ head_of line.now) }
{
    let words = parts(alloc, line, b' ')?;
    head_by(alloc, words.as_slice())
}
