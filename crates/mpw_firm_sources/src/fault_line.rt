//! The line of a fault, as it is printed. `specs/FaultLines.antt` has what contracts say of it.
ghost use Rattle.std.specs.Prelude.{◌≡◌, ◌++◌, IfOk};
ghost use Rattle.std.specs.String.{string_bytes};
ghost use Rattle.mpw_firm_faults.specs.Faults.{unit_of};
ghost use Rattle.mpw_firm_sources.specs.FaultLines.{joined_text, layer_by, layer_in, layer_text, line_of, line_text, placed_text, point_in, point_text, structure_text};
ghost use Rattle.mpw_firm_sources.specs.Seen.{structure_in};

use crate::seen::structure_in;
use mpw_firm_faults::{first_point, unit_of};
use mpw_firm_skipping::ElementSpan;
use mpw_geom::{Layer, Name, Point};
use mpw_records::ReadFault;
use std::alloc::{AllocError, Global};

/// A fault, and what its line shows of its element.
#[derive(Drop)]
pub struct FaultLine {
    /// The fault, with its byte in the file.
    pub fault: ReadFault,
    /// The structure of the element, if it is known.
    pub structure: Option<Name>,
    /// The layer of the element, if it is known.
    pub layer: Option<Layer>,
    /// The first point of the element in nm, if it is known.
    pub point: Option<Point>,
}

/// The layer of two numbers, if both are known.
fn layer_by(layer: Option<u16>, datatype: Option<u16>) -> Option<Layer>
    ensures { result ≡ layer_by layer datatype }
{
    match (layer, datatype) {
        (Some(layer), Some(datatype)) => Some(Layer { layer, datatype }),
        _ => None,
    }
}

/// The layer of an element.
fn layer_in(element: &Option<ElementSpan>) -> Option<Layer>
    ensures { result ≡ layer_in element.now }
{
    match element {
        Some(element) => layer_by(element.layer, element.datatype),
        None => None,
    }
}

/// The first point of an element of a text, in nm.
fn point_in(text: &[u8], element: &Option<ElementSpan>) -> Option<Point>
    ensures { result ≡ point_in (unit_of text.now) text.now element.now }
{
    match (unit_of(text), element) {
        (Some(unit), Some(element)) => first_point(unit, text, element.points),
        _ => None,
    }
}

/// What the line of a fault shows, which has its place in the file, of an element of that text.
///
/// # Errors
/// Out of memory.
pub fn line_of(
    alloc: Global,
    text: &[u8],
    fault: ReadFault,
    element: &Option<ElementSpan>,
) -> Result<FaultLine, AllocError>
    ensures { IfOk result (λ line. line ≡ line_of text.now fault element.now) }
{
    let structure = structure_in(alloc, text, element)?;
    Ok(FaultLine {
        fault,
        structure,
        layer: layer_in(element),
        point: point_in(text, element),
    })
}

/// The structure of a fault's element, as its line has it.
#[tactic(auto, unfolding(crate::specs::FaultLines::structure_text))]
fn structure_text(alloc: Global, structure: &Option<Name>) -> Result<String, AllocError>
    ensures { IfOk result (λ text. string_bytes text ≡ structure_text structure.now) }
{
    match structure {
        Some(name) => format!(in alloc; " in {name}"),
        None => Ok(String::new(alloc)),
    }
}

/// Its layer.
#[tactic(auto, unfolding(crate::specs::FaultLines::layer_text))]
fn layer_text(alloc: Global, layer: Option<Layer>) -> Result<String, AllocError>
    ensures { IfOk result (λ text. string_bytes text ≡ layer_text layer) }
{
    match layer {
        Some(Layer { layer, datatype }) => format!(in alloc; ", layer {layer}/{datatype}"),
        None => Ok(String::new(alloc)),
    }
}

/// Its first point.
#[tactic(auto, unfolding(crate::specs::FaultLines::point_text))]
fn point_text(alloc: Global, point: Option<Point>) -> Result<String, AllocError>
    ensures { IfOk result (λ text. string_bytes text ≡ point_text point) }
{
    match point {
        Some(Point { x, y }) => format!(in alloc; ", at {x},{y}"),
        None => Ok(String::new(alloc)),
    }
}

/// All three, as far as they are known.
fn placed_text(alloc: Global, line: &FaultLine) -> Result<String, AllocError>
    ensures { IfOk result (λ text. string_bytes text ≡ placed_text line.now) }
{
    let mut text = structure_text(alloc, &line.structure)?;
    let layer = layer_text(alloc, line.layer)?;
    text.push_str(layer.as_str())?;
    let point = point_text(alloc, line.point)?;
    text.push_str(point.as_str())?;
    Ok(text)
}

/// The line of a fault of these texts.
#[tactic(auto, unfolding(crate::specs::FaultLines::joined_text))]
fn joined_text(
    alloc: Global,
    file: &str,
    fault: ReadFault,
    placed: &str,
    lifted: &str,
) -> Result<String, AllocError>
    ensures { IfOk result (λ text. string_bytes text ≡ joined_text file.now fault placed.now lifted.now) }
{
    format!(in alloc; "fault: {file}: {fault}{placed}{lifted}\n")
}

/// Adds the line of a fault to a text; `lifted` is at its end.
///
/// # Errors
/// Out of memory.
pub fn add_line(
    alloc: Global,
    text: &mut String,
    file: &str,
    line: &FaultLine,
    lifted: &str,
) -> Result<(), AllocError>
    ensures { IfOk result (λ _. string_bytes text.new ≡ string_bytes text.old ++ line_text file.now line.now lifted.now) }
{
    let placed = placed_text(alloc, line)?;
    let joined = joined_text(alloc, file, line.fault, placed.as_str(), lifted)?;
    text.push_str(joined.as_str())
}
