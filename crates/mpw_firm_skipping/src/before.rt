//! Finds which structure is open, and which record comes last, before a byte of a text.
ghost use Rattle.std.specs.Prelude.{◌≡◌};
ghost use Rattle.mpw_records.specs.Records.{seen};
ghost use Rattle.mpw_firm_skipping.specs.Before.{kind_before, kind_of, offset_of, opened_after, opened_before, structure_before};

use crate::found::Finds;
use crate::span::{Opened, behind};
use mpw_records::{ReadFault, Record};

/// The offset of a record, or of a fault in its place.
fn offset_of(found: &Result<Record<'_>, ReadFault>) -> usize
    ensures { result ≡ offset_of (seen found.now) }
{
    match found {
        Ok(found) => found.offset,
        Err(fault) => fault.offset,
    }
}

/// The type of a record; `None` for a fault.
fn kind_of(found: &Result<Record<'_>, ReadFault>) -> Option<u8>
    ensures { result ≡ kind_of (seen found.now) }
{
    match found {
        Ok(found) => Some(found.kind),
        Err(_) => None,
    }
}

/// What is open after a record, or after a fault in its place.
fn opened_after(found: Result<Record<'_>, ReadFault>, so_far: Opened) -> Opened
    ensures { result ≡ opened_after (seen found.entry) so_far }
{
    match found {
        Ok(found) => behind(found, so_far),
        Err(_) => so_far,
    }
}

/// What is open at a byte of a text.
fn opened_before(text: &[u8], offset: usize) -> Opened
    ensures { result ≡ opened_before text.now offset }
{
    let mut opened = Opened::nothing();
    let mut finds = Finds::new(text);
    while let Some(found) = finds.next() {
        if offset_of(&found) >= offset {
            return opened;
        }
        opened = opened_after(found, opened);
    }
    opened
}

/// The offset of the STRNAME of the structure that is open at a byte of a text. It depends only on the records that begin before that byte. `None` if no
/// structure with a name is open. A record inside a text or a node names no structure, and a fault of a record's data ends none. Cost: one visit of each
/// record before that byte.
pub fn structure_before(text: &[u8], offset: usize) -> Option<usize>
    ensures { result ≡ structure_before text.now offset }
{
    opened_before(text, offset).structure
}

/// The type of the last record that begins before a byte of a text. `None` if there is no such record, or if it has a fault. Cost: as
/// [`structure_before`].
pub fn kind_before(text: &[u8], offset: usize) -> Option<u8>
    ensures { result ≡ kind_before text.now offset }
{
    let mut last = None;
    let mut finds = Finds::new(text);
    while let Some(found) = finds.next() {
        if offset_of(&found) >= offset {
            return last;
        }
        last = kind_of(&found);
    }
    last
}
