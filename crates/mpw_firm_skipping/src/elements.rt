//! Finds the elements of a text.
ghost use Rattle.std.specs.Prelude.{◌≡◌, ◌∷◌, ◌++◌, List, IfOk};
ghost use Rattle.mpw_records.specs.Records.{RecordOutcome, seen};
ghost use Rattle.mpw_firm_skipping.specs.Elements.{elements_in, elements_of, listed};

use crate::found::Finds;
use crate::span::{ElementSpan, Opened, behind, closed};
use mpw_records::{ReadFault, Record};
use std::alloc::{AllocError, Global};

/// Adds an element, if there is one.
fn add(spans: &mut Vec<ElementSpan>, found: Option<ElementSpan>) -> Result<(), AllocError>
    ensures { IfOk result (λ _. spans.new.items ≡ spans.old.items ++ listed found) }
{
    if let Some(span) = found {
        spans.push(span)?;
    }
    Ok(())
}

/// Processes one record: adds the element that it ends, and updates what is open.
#[tactic(auto, unfolding(crate::specs::Elements::elements_in))]
fn take(
    spans: &mut Vec<ElementSpan>,
    opened: Opened,
    found: Result<Record<'_>, ReadFault>,
) -> Result<Opened, AllocError>
    ensures { IfOk result (λ next. (rest : List RecordOutcome) → spans.new.items ++ elements_in next rest ≡ spans.old.items ++ elements_in opened (seen found.entry ∷ rest)) }
{
    match found {
        Ok(record) => {
            add(spans, closed(record, opened.element))?;
            Ok(behind(record, opened))
        }
        Err(_) => Ok(opened),
    }
}

/// The elements of the structures of a text, in order: each from its first record through its ENDEL. If an element is open, a record that begins
/// another element, or that begins, names or ends a structure, drops the open one. But a text or a node continues to its ENDEL. A fault of a
/// record's data ends nothing. Nothing is found after a record with an unsound length, or after ENDLIB. Cost: linear in the records, with memory
/// for the elements.
///
/// # Errors
/// Out of memory.
pub fn elements_of(alloc: Global, text: &[u8]) -> Result<Vec<ElementSpan>, AllocError>
    ensures { IfOk result (λ spans. spans.items ≡ elements_of text.now) }
{
    let mut spans = Vec::new(alloc);
    let mut opened = Opened::nothing();
    let mut finds = Finds::new(text);
    while let Some(found) = finds.next() {
        opened = take(&mut spans, opened, found)?;
    }
    Ok(spans)
}
