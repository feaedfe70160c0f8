//! Finds the names in a text's records.
ghost use Rattle.std.specs.Prelude.{◌≡◌, ◌∷◌, ◌++◌, List, map, IfOk};
ghost use Rattle.mpw_records.specs.Records.{RecordOutcome, raw, seen};
ghost use Rattle.mpw_firm_skipping.specs.Names.{named_by, names_in, names_of};
ghost use Rattle.mpw_firm_skipping.specs.Structures.{listed};

use crate::found::Finds;
use crate::span::{Opened, behind, is_inner};
use mpw_records::{ReadFault, Record};
use std::alloc::{AllocError, Global};

/// The data of a record, if it has that type and is outside texts and nodes.
fn named_by<'a>(found: Record<'a>, kind: u8, opened: Opened) -> Option<&'a [u8]>
    ensures { map (λ n. n.now) (listed result) ≡ named_by kind (raw found.entry) opened }
{
    if is_inner(found, opened.element) {
        None
    } else if found.kind == kind {
        Some(found.bytes)
    } else {
        None
    }
}

/// Adds a name, if there is one.
fn add<'a>(names: &mut Vec<&'a [u8]>, found: Option<&'a [u8]>) -> Result<(), AllocError>
    ensures { IfOk result (λ _. names.new.items ≡ names.old.items ++ listed found.entry) }
{
    if let Some(name) = found {
        names.push(name)?;
    }
    Ok(())
}

/// Processes one record: adds the name in it, and updates what is open.
fn take<'a>(
    names: &mut Vec<&'a [u8]>,
    kind: u8,
    opened: Opened,
    found: Result<Record<'a>, ReadFault>,
) -> Result<Opened, AllocError>
    ensures { IfOk result (λ next. (rest : List RecordOutcome) → map (λ n. n.now) names.new.items ++ names_in kind next rest ≡ map (λ n. n.now) names.old.items ++ names_in kind opened (seen found.entry ∷ rest)) }
{
    match found {
        Ok(found) => {
            add(names, named_by(found, kind, opened))?;
            Ok(behind(found, opened))
        }
        Err(_) => Ok(opened),
    }
}

/// The data of a text's records of that type, in order, except those in texts and nodes. For SNAME or STRNAME these are the names as they are in the
/// records. Nothing is found after a record with an unsound length, or after ENDLIB. Cost: linear in the records, with memory for the names.
///
/// # Errors
/// Out of memory.
pub fn names_of<'a>(alloc: Global, text: &'a [u8], kind: u8) -> Result<Vec<&'a [u8]>, AllocError>
    ensures { IfOk result (λ names. map (λ n. n.now) names.items ≡ names_of kind text.entry.now) }
{
    let mut names = Vec::new(alloc);
    let mut opened = Opened::nothing();
    let mut finds = Finds::new(text);
    while let Some(found) = finds.next() {
        opened = take(&mut names, kind, opened, found)?;
    }
    Ok(names)
}
