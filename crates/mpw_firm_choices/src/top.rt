//! Finds the structures of a library that nothing places.
ghost use Rattle.std.specs.Prelude.{◌≡◌, ◌*◌, ◌^◌, nat_lt, map, take, IfOk};
ghost use Rattle.mpw_firm_choices.specs.Tops.{is_placed, name_in, only_in, only_of, only_top, unplaced, unplaced_in, unplaced_of};

use mpw_elements::{ReadError, read_name};
use mpw_firm_skipping::names_of;
use mpw_geom::Name;
use mpw_records::Record;
use mpw_records::kind::{SNAME, STRNAME};
use std::alloc::{AllocError, Global};

/// The most comparisons of names.
const MAX_WORK: usize = 1 << 28;

/// Whether the list has the name.
fn is_placed(placed: &[&[u8]], name: &[u8]) -> bool
    ensures { result ≡ is_placed (λ p. p.now) placed.now name.now }
{
    for other in placed {
        if *other == name {
            return true;
        }
    }
    false
}

/// The names out of these that aren't placed.
fn unplaced<'a>(
    alloc: Global,
    names: &[&'a [u8]],
    placed: &[&[u8]],
) -> Result<Vec<&'a [u8]>, AllocError>
    ensures { IfOk result (λ found. found.items ≡ unplaced (λ n. n.now) (λ p. p.now) names.now placed.now) }
{
    let mut found = Vec::new(alloc);
    for name in names {
        if !is_placed(placed, name) {
            found.push(*name)?;
        }
    }
    Ok(found)
}

/// The name in a record's data, if it is a valid name.
fn name_in(alloc: Global, bytes: &[u8]) -> Result<Option<Name>, AllocError>
    ensures { IfOk result (λ name. name ≡ name_in bytes.now) }
{
    let found = Record {
        offset: 0,
        kind: STRNAME,
        data_type: 6,
        bytes,
    };
    match read_name(alloc, found) {
        Ok(name) => Ok(Some(name)),
        Err(ReadError::Fault(_)) => Ok(None),
        Err(ReadError::Memory) => Err(AllocError),
    }
}

/// The only one of these names, if there is exactly one and it is valid.
fn only_of(alloc: Global, names: &[&[u8]]) -> Result<Option<Name>, AllocError>
    ensures { IfOk result (λ name. name ≡ only_of (λ n. n.now) names.now) }
{
    match names {
        [name] => name_in(alloc, name),
        _ => Ok(None),
    }
}

/// Whether `names` and `placed` names are too many to be compared.
fn is_long(names: usize, placed: usize) -> bool
    ensures { result ≡ nat_lt (2 ^ 28) (names * placed) }
{
    names.saturating_mul(placed) > MAX_WORK
}

/// The only one of the names that isn't placed. `None` if they are too many.
fn only_among(alloc: Global, names: &[&[u8]], placed: &[&[u8]]) -> Result<Option<Name>, AllocError>
    ensures { IfOk result (λ name. name ≡ only_in (map (λ n. n.now) names.now) (map (λ p. p.now) placed.now)) }
{
    if is_long(names.len(), placed.len()) {
        return Ok(None);
    }
    let found = unplaced(alloc, names, placed)?;
    only_of(alloc, found.as_slice())
}

/// The structure of a library's text that nothing places, if there is exactly one. It is found by the names in the text's records, without those in texts and
/// nodes, as long as the lengths of records are sound. `None` if there are no such structures or several, or if the number of structures times the number of
/// references exceeds 2^28. Cost: two visits of each record, and a comparison of each structure's name with each reference's.
///
/// # Errors
/// Out of memory.
pub fn only_top(alloc: Global, text: &[u8]) -> Result<Option<Name>, AllocError>
    ensures { IfOk result (λ name. name ≡ only_top text.now) }
{
    let names = names_of(alloc, text, STRNAME)?;
    let placed = names_of(alloc, text, SNAME)?;
    only_among(alloc, names.as_slice(), placed.as_slice())
}

/// The names out of these that aren't placed. Empty if they are too many.
fn unplaced_among<'a>(
    alloc: Global,
    names: &[&'a [u8]],
    placed: &[&[u8]],
) -> Result<Vec<&'a [u8]>, AllocError>
    ensures { IfOk result (λ found. map (λ n. n.now) found.items ≡ unplaced_in (map (λ n. n.now) names.now) (map (λ p. p.now) placed.now)) }
{
    if is_long(names.len(), placed.len()) {
        return Ok(Vec::new(alloc));
    }
    unplaced(alloc, names, placed)
}

/// The first `most` structures of a library's text that nothing places, with their names as they are in the records that
/// [`only_top`] reads. There are none if the number of structures times the number of references exceeds 2^28. The cost is that of
/// [`only_top`].
///
/// # Errors
/// Out of memory.
pub fn unplaced_structures<'a>(
    alloc: Global,
    text: &'a [u8],
    most: usize,
) -> Result<Vec<&'a [u8]>, AllocError>
    ensures { IfOk result (λ found. map (λ n. n.now) found.items ≡ take most (unplaced_of text.entry.now)) }
{
    let names = names_of(alloc, text, STRNAME)?;
    let placed = names_of(alloc, text, SNAME)?;
    let mut found = unplaced_among(alloc, names.as_slice(), placed.as_slice())?;
    found.truncate(most);
    Ok(found)
}
