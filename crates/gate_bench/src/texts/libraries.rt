//! What reading a library gives.

use crate::texts::sum::Sum;
use anyhow::{Result, bail};
use mpw_elements::ReadError;
use mpw_library::{LibraryText, read_library};
use mpw_records::ReadFault;
use mpw_structures::{Boundary, Element, Library, Path, Reference, Structure};

fn add_boundary(sum: &mut Sum, found: &Boundary) {
    sum.add(1);
    sum.add_layer(found.layer);
    sum.add_points(&found.points);
}

fn add_path(sum: &mut Sum, found: &Path) {
    sum.add(2);
    sum.add_layer(found.layer);
    for number in [found.width, found.begin, found.end] {
        sum.add_signed(number);
    }
    sum.add_points(&found.points);
}

fn add_reference(sum: &mut Sum, found: &Reference) {
    sum.add(3);
    sum.add_name(&found.name);
    sum.add(u64::from(found.orient as u8));
    sum.add(u64::from(found.columns));
    sum.add(u64::from(found.rows));
    for point in [found.origin, found.column_step, found.row_step] {
        sum.add_point(point);
    }
}

fn add_element(sum: &mut Sum, found: &Element) {
    match found {
        Element::Boundary(found) => add_boundary(sum, found),
        Element::Path(found) => add_path(sum, found.get()),
        Element::Reference(found) => add_reference(sum, found.get()),
    }
}

/// A structure's name, the number of its elements, and each of them.
fn add_structure(sum: &mut Sum, found: &Structure) {
    sum.add_name(&found.name);
    sum.add_count(found.elements.as_slice().len());
    for element in found.elements.as_slice() {
        add_element(sum, element);
    }
}

/// Prints the numbers of structures and of their elements, and the sum.
fn report_library(rt: &HostRuntime, found: &Library) -> Result<()> {
    let (mut sum, mut elements) = (Sum::new(), 0usize);
    for structure in found.structures() {
        add_structure(&mut sum, structure);
        elements = elements.saturating_add(structure.elements.as_slice().len());
    }
    let structures = found.structures().len();
    Ok(println!(rt; "read {structures} {elements} {}", sum.value())?)
}

/// Prints what reading gave.
fn report_outcome(
    rt: &HostRuntime,
    outcome: &std::result::Result<Library, ReadError>,
) -> Result<()> {
    match outcome {
        Ok(library) => report_library(rt, library),
        Err(ReadError::Fault(ReadFault { code, offset })) => Ok(println!(rt; "{code} {offset}")?),
        Err(ReadError::Memory) => bail!("out of memory"),
    }
}

/// Reads a text as a submission's is read, and prints what that gives.
pub fn report(rt: &HostRuntime, bytes: &[u8]) -> Result<()> {
    let text = LibraryText::read(rt.alloc(), Vec::from_slice(rt.alloc(), bytes)?)?;
    report_outcome(rt, &text.library(rt.alloc()))
}

/// Reads the front of a text, and prints what that gives.
pub fn report_front(rt: &HostRuntime, bytes: &[u8]) -> Result<()> {
    report_outcome(rt, &read_library(rt.alloc(), bytes))
}
