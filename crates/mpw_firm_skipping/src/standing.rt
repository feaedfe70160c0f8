//! Finds the structures of a text.
ghost use Rattle.std.specs.Prelude.{◌≡◌, ◌∷◌, ◌++◌, List, IfOk};
ghost use Rattle.mpw_records.specs.Records.{RecordOutcome, raw, seen};
ghost use Rattle.mpw_firm_skipping.specs.Structures.{begin_behind, ended, ended_by, listed, nothing_stands, standing_behind, structures_in, structures_of};

use crate::found::Finds;
use crate::span::{Opened, behind, end_of, is_inner};
use mpw_records::kind::{BGNSTR, ENDLIB, ENDSTR};
use mpw_records::{ReadFault, Record};
use std::alloc::{AllocError, Global};

/// The position of a structure in a text, in bytes from its front.
#[derive(Clone, Copy)]
pub(crate) struct StructureSpan {
    /// The offset of its BGNSTR.
    pub start: usize,
    /// The offset after its ENDSTR.
    pub end: usize,
    /// The offset of its STRNAME.
    pub name: usize,
}

/// What is open at an offset of a text.
#[derive(Clone, Copy)]
pub(crate) struct Standing {
    /// The offset of the BGNSTR of the open structure.
    pub begin: Option<usize>,
    /// The name of the open structure, and the open element.
    pub opened: Opened,
}

impl Standing {
    /// Nothing is open, as at the front of a text.
    pub fn nothing() -> Standing
        ensures { result ≡ nothing_stands }
    {
        Standing {
            begin: None,
            opened: Opened::nothing(),
        }
    }

    /// What is open after a record.
    pub fn behind(self, found: Record<'_>) -> Standing
        ensures { result ≡ standing_behind (raw found.entry) self }
    {
        Standing {
            begin: if is_inner(found, self.opened.element) {
                self.begin
            } else {
                begin_behind(found, self.begin)
            },
            opened: behind(found, self.opened),
        }
    }
}

/// The offset of the BGNSTR of the structure that is open after a record.
fn begin_behind(found: Record<'_>, so_far: Option<usize>) -> Option<usize>
    ensures { result ≡ begin_behind (raw found.entry) so_far }
{
    match found.kind {
        BGNSTR => Some(found.offset),
        ENDSTR | ENDLIB => None,
        _ => so_far,
    }
}

/// The structure that ends with a record, if it began and has a name.
fn ended(found: Record<'_>, begin: Option<usize>, name: Option<usize>) -> Option<StructureSpan>
    ensures { result ≡ ended (raw found.entry) begin name }
{
    match (begin, name) {
        (Some(begin), Some(name)) => Some(StructureSpan {
            start: begin,
            end: end_of(found),
            name,
        }),
        _ => None,
    }
}

/// The structure that a record ends.
fn ended_by(found: Record<'_>, standing: Standing) -> Option<StructureSpan>
    ensures { result ≡ ended_by (raw found.entry) standing }
{
    if is_inner(found, standing.opened.element) {
        None
    } else if found.kind == ENDSTR {
        ended(found, standing.begin, standing.opened.structure)
    } else {
        None
    }
}

/// Adds a structure, if there is one.
fn add(spans: &mut Vec<StructureSpan>, found: Option<StructureSpan>) -> Result<(), AllocError>
    ensures { IfOk result (λ _. spans.new.items ≡ spans.old.items ++ listed found) }
{
    if let Some(span) = found {
        spans.push(span)?;
    }
    Ok(())
}

/// Processes one record: adds the structure that it ends, and updates what is open.
#[tactic(auto, unfolding(crate::specs::Structures::structures_in))]
fn take(
    spans: &mut Vec<StructureSpan>,
    standing: Standing,
    found: Result<Record<'_>, ReadFault>,
) -> Result<Standing, AllocError>
    ensures { IfOk result (λ next. (rest : List RecordOutcome) → spans.new.items ++ structures_in next rest ≡ spans.old.items ++ structures_in standing (seen found.entry ∷ rest)) }
{
    match found {
        Ok(found) => {
            add(spans, ended_by(found, standing))?;
            Ok(standing.behind(found))
        }
        Err(_) => Ok(standing),
    }
}

/// The structures of a text that have a name, in order: each from its BGNSTR through its ENDSTR. Cost: linear in the records, with
/// memory for the structures.
///
/// # Errors
/// Out of memory.
pub(crate) fn structures_of(alloc: Global, text: &[u8]) -> Result<Vec<StructureSpan>, AllocError>
    ensures { IfOk result (λ spans. spans.items ≡ structures_of text.now) }
{
    let mut spans = Vec::new(alloc);
    let mut standing = Standing::nothing();
    let mut finds = Finds::new(text);
    while let Some(found) = finds.next() {
        standing = take(&mut spans, standing, found)?;
    }
    Ok(spans)
}
