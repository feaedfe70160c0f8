//! Faults of a library's elements, as a report has them. `specs/Seen.antt` has what contracts say of it.
ghost use Rattle.std.specs.Prelude.{◌≡◌, ◌≤◌, map, option_map, unwrap_or, IfOk};
ghost use Rattle.std.specs.String.{string_bytes};
ghost use Rattle.mpw_firm_faults.specs.Faults.{unit_of};
ghost use Rattle.mpw_records.specs.Words.{code_word};
ghost use Rattle.mpw_firm_report.specs.Content.{fault_of};
ghost use Rattle.mpw_firm_sources.specs.Seen.{area_in, read_in, structure_in, told_at, told_by, told_faults, told_left, told_left_of, told_left_out, told_seen};

use crate::reached::padded;
use crate::source::Source;
use mpw_firm_faults::{FaultFound, Lifts, Seen, all_faults, structure_of, unit_of};
use mpw_firm_report::Fault;
use mpw_firm_skipping::{ElementSpan, elements_of};
use mpw_geom::{Box2, Name};
use mpw_records::Code;
use std::alloc::{AllocError, Global};

/// A fault as it is printed, with its place in the file.
#[derive(Drop)]
pub struct SeenFault {
    /// The word of its code.
    pub code: String,
    /// The byte in the file.
    pub byte: usize,
    /// The structure of its element, if it is known.
    pub structure: Option<Name>,
    /// The box of its element's points in the top's coordinates, if it is known.
    pub area: Option<Box2>,
}

/// The structure of an element.
pub(crate) fn structure_in(
    alloc: Global,
    text: &[u8],
    element: &Option<ElementSpan>,
) -> Result<Option<Name>, AllocError>
    ensures { IfOk result (λ name. name ≡ structure_in text.now element.now) }
{
    match element {
        Some(element) => structure_of(alloc, text, element.structure),
        None => Ok(None),
    }
}

/// Where an element lies.
fn area_in(
    alloc: Global,
    lifts: &mut Lifts<'_>,
    element: &Option<ElementSpan>,
) -> Result<Option<Box2>, AllocError>
    ensures same { lifts.new ≡ lifts.old }
    ensures area { IfOk result (λ area. area ≡ area_in lifts.old element.now) }
{
    match element {
        Some(element) => lifts.area_in_top(alloc, element),
        None => Ok(None),
    }
}

/// The word of a code.
fn word(alloc: Global, code: Code) -> Result<String, AllocError>
    ensures { IfOk result (λ word. string_bytes word ≡ code_word code) }
{
    Ok(format!(in alloc; "{code}")?)
}

/// A fault as it is printed, at that byte of the file.
fn seen_at(
    alloc: Global,
    byte: usize,
    lifts: &mut Lifts<'_>,
    found: &FaultFound,
) -> Result<SeenFault, AllocError>
    ensures same { lifts.new ≡ lifts.old }
    ensures told { IfOk result (λ fault. told_seen fault ≡ told_at byte lifts.old found.now) }
{
    let code = word(alloc, found.fault.code)?;
    let structure = structure_in(alloc, lifts.text(), &found.element)?;
    let area = area_in(alloc, lifts, &found.element)?;
    Ok(SeenFault {
        code,
        byte,
        structure,
        area,
    })
}

/// These faults of a text as it is read, as they are printed.
fn all_seen(
    alloc: Global,
    source: &Source<'_>,
    lifts: &mut Lifts<'_>,
    found: &[FaultFound],
) -> Result<Vec<SeenFault>, AllocError>
    ensures { IfOk result (λ faults. map told_seen faults.items ≡ map (told_by source.now lifts.old) found.now) }
{
    let mut faults = Vec::new(alloc);
    for fault in found {
        let byte = source.moved_fault(fault.fault).offset;
        faults
            .push(seen_at(alloc, byte, lifts, fault)?)
            .map_err(AllocError::from)?;
    }
    Ok(faults)
}

/// These faults of elements that are left out for them, as they are printed.
fn all_left(
    alloc: Global,
    source: &Source<'_>,
    lifts: &mut Lifts<'_>,
    found: &[FaultFound],
) -> Result<Vec<SeenFault>, AllocError>
    ensures { IfOk result (λ faults. map told_seen faults.items ≡ map (told_left source.now lifts.old) found.now) }
{
    let mut faults = Vec::new(alloc);
    for fault in found {
        let byte = source.reached_fault(fault.fault).offset;
        faults
            .push(seen_at(alloc, byte, lifts, fault)?)
            .map_err(AllocError::from)?;
    }
    Ok(faults)
}

/// The unit of a text, and 1 nm if it isn't read.
fn unit_or_one(text: &[u8]) -> u16
    ensures unit { result ≡ unwrap_or (unit_of text.now) 1 }
    ensures most { result ≤ 1000 }
{
    match unit_of(text) {
        Some(unit) => unit,
        None => 1,
    }
}

/// A text with its elements, in which positions are lifted to the top with that name, as its record has it.
pub(crate) fn lifts_in<'a>(
    alloc: Global,
    text: &'a [u8],
    spans: &'a [ElementSpan],
    top: &'a [u8],
) -> Lifts<'a>
    ensures { result ≡ read_in text.entry.now spans.entry.now top.entry.now }
{
    let seen = Seen {
        unit: unit_or_one(text),
        text,
        spans,
        top,
    };
    Lifts::new(alloc, seen)
}

/// All faults of a library as it is read, as they are printed about a check of that structure: the code, the byte in the file, the structure, and
/// the box of the element's points in the checked structure's coordinates, if that is known.
///
/// # Errors
/// Out of memory.
pub fn faults_seen(
    alloc: Global,
    source: &Source<'_>,
    top: &Name,
) -> Result<Vec<SeenFault>, AllocError>
    ensures { IfOk result (λ faults. map told_seen faults.items ≡ told_faults source.now top.now) }
{
    let text = source.kept();
    let found = all_faults(alloc, text)?;
    let spans = elements_of(alloc, text)?;
    let name = padded(alloc, top)?;
    let mut lifts = lifts_in(alloc, text, spans.as_slice(), name.as_slice());
    all_seen(alloc, source, &mut lifts, found.as_slice())
}

/// The same of these elements that are left out for their faults.
fn some_left(
    alloc: Global,
    source: &Source<'_>,
    top: &Name,
    found: &[FaultFound],
) -> Result<Vec<SeenFault>, AllocError>
    ensures { IfOk result (λ faults. map told_seen faults.items ≡ told_left_of source.now top.now found.now) }
{
    let text = source.reached();
    let spans = elements_of(alloc, text)?;
    let name = padded(alloc, top)?;
    let mut lifts = lifts_in(alloc, text, spans.as_slice(), name.as_slice());
    all_left(alloc, source, &mut lifts, found)
}

/// The faults of the elements that are left out for them, as [`faults_seen`] gives those of a library with these elements. If there are none, the
/// text isn't looked at.
///
/// # Errors
/// Out of memory.
pub fn left_out_seen(
    alloc: Global,
    source: &Source<'_>,
    top: &Name,
) -> Result<Vec<SeenFault>, AllocError>
    ensures { IfOk result (λ faults. map told_seen faults.items ≡ told_left_out source.now top.now) }
{
    match source.faulty() {
        [] => Ok(Vec::new(alloc)),
        found => some_left(alloc, source, top, found),
    }
}

/// A structure's name, if it is known.
fn name_of(name: &Option<Name>) -> Option<&Name>
    ensures { option_map (λ n. n.now) result ≡ name.entry.now }
{
    match name {
        Some(name) => Some(name),
        None => None,
    }
}

/// The same faults, for a report.
///
/// # Errors
/// Out of memory.
pub fn report_faults<'a>(alloc: Global, seen: &'a [SeenFault]) -> Result<Vec<Fault<'a>>, AllocError>
    ensures { IfOk result (λ faults. map fault_of faults.items ≡ map told_seen seen.entry.now) }
{
    let mut faults = Vec::new(alloc);
    for fault in seen {
        faults.push(Fault {
            code: fault.code.as_str(),
            byte: fault.byte as u64,
            structure: name_of(&fault.structure),
            area: fault.area,
        })?;
    }
    Ok(faults)
}
