//! Finds the only reference that may lead to a structure.
ghost use Rattle.std.specs.Prelude.{◌≡◌, ◌≤◌, drop, filter, IfOk, option_map};
ghost use Rattle.mpw_firm_faults.specs.Lifting.{is_reference, may_name, named_in, only, placing_by, placing_in, refers, single, to_way, way_by, way_from};
ghost use Rattle.mpw_records.specs.Records.{outcomes_of};
ghost use Rattle.mpw_firm_skipping.specs.Structures.{name_at};

use crate::own::from;
use mpw_elements::{ReadError, read_element};
use mpw_firm_skipping::{ElementSpan, record_at};
use mpw_geom::Placing;
use mpw_records::Records;
use mpw_records::kind::{AREF, ENDEL, SNAME, SREF};
use mpw_structures::{Element, Reference, Storage};
use std::alloc::{AllocError, Global};

/// A text of a library, its unit, its elements, and the name of the top as its record has it.
#[derive(Clone, Copy, Drop)]
pub struct Seen<'a> {
    /// The database unit, in nm.
    pub unit: u16,
    /// The text.
    pub text: &'a [u8],
    /// Its elements.
    pub spans: &'a [ElementSpan],
    /// The top's name, with the NUL that makes the number of its bytes even.
    pub top: &'a [u8],
}

/// A reference that places its structure once: the structure that it is in, by the offset of its STRNAME, and its placing.
#[derive(Clone, Copy)]
pub(crate) struct Way {
    pub(crate) structure: usize,
    pub(crate) placing: Placing,
}

/// The data of the record at an offset: the name in it.
pub(crate) fn name_at(text: &[u8], at: usize) -> &[u8]
    ensures { result.now ≡ name_at text.entry.now at }
{
    match record_at(text, at) {
        Ok(found) => found.bytes,
        Err(_) => &[],
    }
}

/// The first SNAME of the element that begins at an offset.
#[tactic(auto, unfolding(crate::specs::Lifting::named_in))]
fn named_in(text: &[u8], at: usize) -> Option<&[u8]>
    ensures { option_map (λ name. name.now) result ≡ named_in (outcomes_of (drop at text.entry.now)) }
{
    let mut records = Records::new(from(text, at));
    while let Some(outcome) = records.next() {
        match outcome {
            Ok(found) if found.kind == SNAME => return Some(found.bytes),
            Ok(found) if found.kind == ENDEL => return None,
            Ok(_) => {}
            Err(_) => return None,
        }
    }
    None
}

/// Whether an element with that SNAME may refer to the structure with that name.
fn may_name(found: Option<&[u8]>, name: &[u8]) -> bool
    ensures { result ≡ may_name name.now (option_map (λ n. n.now) found.entry) }
{
    match found {
        Some(other) => other == name,
        None => true,
    }
}

/// Whether elements of that kind are references.
fn is_reference(kind: u8) -> bool
    ensures { result ≡ is_reference kind }
{
    (kind == SREF) | (kind == AREF)
}

/// Whether an element may refer to the structure with that name.
fn refers(text: &[u8], name: &[u8], span: &ElementSpan) -> bool
    ensures { result ≡ refers text.now name.now span.now }
{
    if is_reference(span.kind) {
        may_name(named_in(text, span.start), name)
    } else {
        false
    }
}

/// The only element that may refer to the structure with that name. The search ends at the second one.
fn only_reference(text: &[u8], spans: &[ElementSpan], name: &[u8]) -> Option<ElementSpan>
    ensures { result ≡ only (filter (refers text.now name.now) spans.now) }
{
    let mut found = None;
    for span in spans {
        if refers(text, name, span) {
            if found.is_some() {
                return None;
            }
            found = Some(*span);
        }
    }
    found
}

/// The placing of a reference that places its structure once.
fn single(reference: &Reference) -> Option<Placing>
    ensures { result ≡ single reference.now }
{
    if (reference.columns == 1) & (reference.rows == 1) {
        Some(Placing {
            orient: reference.orient,
            by: reference.origin,
        })
    } else {
        None
    }
}

/// The placing of an element that is such a reference.
fn placing_by(element: &Option<Element>) -> Option<Placing>
    ensures { result ≡ placing_by element.now }
{
    match element {
        Some(Element::Reference(reference)) => single(reference.get()),
        Some(Element::Boundary(_)) => None,
        Some(Element::Path(_)) => None,
        None => None,
    }
}

/// The placing of the element that begins at an offset of a text with that unit, if it is such a reference.
fn placing_in(
    alloc: Global,
    unit: u16,
    text: &[u8],
    at: usize,
) -> Result<Option<Placing>, AllocError>
    requires { unit ≤ 1000 }
    ensures { IfOk result (λ placing. placing ≡ placing_in unit (outcomes_of (drop at text.now))) }
{
    let mut records = Records::new(from(text, at));
    match records.next() {
        None => Ok(None),
        Some(Err(_)) => Ok(None),
        Some(Ok(first)) => match read_element(
            Storage { alloc, text: None },
            &mut records,
            first,
            unit,
        ) {
            Ok(element) => Ok(placing_by(&element)),
            Err(ReadError::Fault(_)) => Ok(None),
            Err(ReadError::Memory) => Err(AllocError),
        },
    }
}

/// The placing of a reference in that structure.
fn to_way(structure: usize, placing: Option<Placing>) -> Option<Way>
    ensures { result ≡ to_way structure placing }
{
    match placing {
        Some(placing) => Some(Way { structure, placing }),
        None => None,
    }
}

/// The same, if there is just one reference.
fn way_by(
    alloc: Global,
    seen: &Seen<'_>,
    found: Option<ElementSpan>,
) -> Result<Option<Way>, AllocError>
    requires { seen.now.unit ≤ 1000 }
    ensures { IfOk result (λ way. way ≡ way_by seen.now.unit seen.now.text.now found) }
{
    match found {
        Some(one) => {
            let placing = placing_in(alloc, seen.unit, seen.text, one.start)?;
            Ok(to_way(one.structure, placing))
        }
        None => Ok(None),
    }
}

/// The only reference that may lead to the structure whose STRNAME is at an offset. Cost: one visit of each element at most.
pub(crate) fn way_from(alloc: Global, seen: &Seen<'_>, at: usize) -> Result<Option<Way>, AllocError>
    requires { seen.now.unit ≤ 1000 }
    ensures { IfOk result (λ way. way ≡ way_from seen.now.unit seen.now.text.now seen.now.spans.now at) }
{
    let name = name_at(seen.text, at);
    way_by(alloc, seen, only_reference(seen.text, seen.spans, name))
}
