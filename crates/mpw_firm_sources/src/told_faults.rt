//! The faults of a library's elements, and what is left out of it, printed on the standard error. `specs/FaultLines.antt` has what contracts
//! say of the lines.
ghost use Rattle.std.specs.Prelude.{◌≡◌, ◌++◌, IfOk};
ghost use Rattle.std.specs.String.{string_bytes};
ghost use Rattle.mpw_firm_sources.specs.FaultLines.{below_line, cut_faults, cut_lines, element_lifted, fault_lines, is_cut, is_in, is_name, kept_lines, left_lines, left_out_lines, lifted_text, padded_for, point_text_in, top_text};

use crate::fault_line::{add_line, line_of};
use crate::reached::padded;
use crate::seen::lifts_in;
use crate::source::Source;
use mpw_firm_faults::{FaultFound, Lifts, all_faults, structure_of};
use mpw_firm_skipping::{Cut, ElementSpan, elements_of};
use mpw_geom::{Name, Point};
use std::alloc::{AllocError, Global};
use std::io;

/// A text that is read, and the structure in whose coordinates points are printed, if there is one.
#[derive(Drop)]
struct Below<'a, 'b> {
    lifts: Lifts<'a>,
    top: &'b Option<Name>,
}

/// Whether a name is that of the top.
fn is_name(name: &Option<Name>, top: &Name) -> bool
    ensures { result ≡ is_name name.now top.now }
{
    match name {
        Some(name) => name.as_bytes() == top.as_bytes(),
        None => false,
    }
}

/// A point in the coordinates of a top.
#[tactic(auto, unfolding(crate::specs::FaultLines::top_text))]
fn top_text(alloc: Global, top: &Name, point: Point) -> Result<String, AllocError>
    ensures { IfOk result (λ text. string_bytes text ≡ top_text top.now point) }
{
    let Point { x, y } = point;
    format!(in alloc; ", in {top} at {x},{y}")
}

/// The same, if the point is known.
fn point_text_in(alloc: Global, top: &Name, point: Option<Point>) -> Result<String, AllocError>
    ensures { IfOk result (λ text. string_bytes text ≡ point_text_in top.now point) }
{
    match point {
        Some(point) => top_text(alloc, top, point),
        None => Ok(String::new(alloc)),
    }
}

/// Where the first point of an element lies in a top, if it isn't the top's own.
fn element_lifted(
    alloc: Global,
    lifts: &mut Lifts<'_>,
    top: &Name,
    element: &ElementSpan,
) -> Result<String, AllocError>
    ensures same { lifts.new ≡ lifts.old }
    ensures text { IfOk result (λ text. string_bytes text ≡ element_lifted lifts.old top.now element.now) }
{
    let structure = structure_of(alloc, lifts.text(), element.structure)?;
    if is_name(&structure, top) {
        return Ok(String::new(alloc));
    }
    let point = lifts.point_in_top(alloc, element)?;
    point_text_in(alloc, top, point)
}

/// The same, if there are a top and an element.
fn lifted_text(
    alloc: Global,
    lifts: &mut Lifts<'_>,
    top: &Option<Name>,
    element: &Option<ElementSpan>,
) -> Result<String, AllocError>
    ensures same { lifts.new ≡ lifts.old }
    ensures text { IfOk result (λ text. string_bytes text ≡ lifted_text lifts.old top.now element.now) }
{
    match (top, element) {
        (Some(top), Some(element)) => element_lifted(alloc, lifts, top, element),
        _ => Ok(String::new(alloc)),
    }
}

/// Adds the line of a fault of a text, which has its place in the file.
fn add_fault(
    alloc: Global,
    text: &mut String,
    file: &str,
    below: &mut Below<'_, '_>,
    found: &FaultFound,
) -> Result<(), AllocError>
    ensures same { below.new ≡ below.old }
    ensures text { IfOk result (λ _. string_bytes text.new ≡ string_bytes text.old ++ below_line file.now below.old.lifts below.old.top.now found.now) }
{
    let line = line_of(alloc, below.lifts.text(), found.fault, &found.element)?;
    let lifted = lifted_text(alloc, &mut below.lifts, below.top, &found.element)?;
    add_line(alloc, text, file, &line, lifted.as_str())
}

/// The lines of faults of a library as it is read.
fn kept_lines(
    alloc: Global,
    file: &str,
    source: &Source<'_>,
    below: &mut Below<'_, '_>,
    faults: &[FaultFound],
) -> Result<String, AllocError>
    ensures { IfOk result (λ text. string_bytes text ≡ kept_lines file.now source.now below.old.lifts below.old.top.now faults.now) }
{
    let mut text = String::new(alloc);
    for found in faults {
        let found = FaultFound {
            fault: source.moved_fault(found.fault),
            element: found.element,
        };
        add_fault(alloc, &mut text, file, below, &found)?;
    }
    Ok(text)
}

/// The name of a top as its record has it, if there is one.
fn padded_for(alloc: Global, top: &Option<Name>) -> Result<Vec<u8>, AllocError>
    ensures { IfOk result (λ bytes. bytes.items ≡ padded_for top.now) }
{
    match top {
        Some(top) => padded(alloc, top),
        None => Ok(Vec::new(alloc)),
    }
}

/// A line for each fault of a library as it is read: the code, the byte in the file, and of the element its structure, its layer and its first
/// point in nm, as far as these are known; and that point in the top's coordinates, if there is a top and the structure is placed just once. The
/// first fault is the one for which the library is refused. It takes the text's size, and looks at each element once a fault and level.
///
/// # Errors
/// Out of memory.
pub fn fault_lines(
    alloc: Global,
    file: &str,
    source: &Source<'_>,
    top: &Option<Name>,
) -> Result<String, AllocError>
    ensures { IfOk result (λ text. string_bytes text ≡ fault_lines file.now source.now top.now) }
{
    let text = source.kept();
    let faults = all_faults(alloc, text)?;
    let spans = elements_of(alloc, text)?;
    let name = padded_for(alloc, top)?;
    let lifts = lifts_in(alloc, text, spans.as_slice(), name.as_slice());
    let mut below = Below { lifts, top };
    kept_lines(alloc, file, source, &mut below, faults.as_slice())
}

/// The lines of these elements that are left out for their faults.
fn left_lines(
    alloc: Global,
    file: &str,
    source: &Source<'_>,
    below: &mut Below<'_, '_>,
    faults: &[FaultFound],
) -> Result<String, AllocError>
    ensures { IfOk result (λ text. string_bytes text ≡ left_lines file.now source.now below.old.lifts below.old.top.now faults.now) }
{
    let mut text = String::new(alloc);
    for found in faults {
        let found = FaultFound {
            fault: source.reached_fault(found.fault),
            element: found.element,
        };
        add_fault(alloc, &mut text, file, below, &found)?;
    }
    Ok(text)
}

/// A line for each element that is left out for its fault, in order, of the form of [`fault_lines`].
///
/// # Errors
/// Out of memory.
pub fn left_out_lines(
    alloc: Global,
    file: &str,
    source: &Source<'_>,
    top: &Option<Name>,
) -> Result<String, AllocError>
    ensures { IfOk result (λ text. string_bytes text ≡ left_out_lines file.now source.now top.now) }
{
    let text = source.reached();
    let spans = elements_of(alloc, text)?;
    let name = padded_for(alloc, top)?;
    let lifts = lifts_in(alloc, text, spans.as_slice(), name.as_slice());
    let mut below = Below { lifts, top };
    left_lines(alloc, file, source, &mut below, source.faulty())
}

/// Prints these lines on the standard error; nothing if no element is left out for a fault.
///
/// # Errors
/// Out of memory, or that of the standard error.
pub fn tell_faulty(
    rt: &HostRuntime,
    file: &str,
    source: &Source<'_>,
    top: &Option<Name>,
) -> io::Result<()> {
    if source.faulty().is_empty() {
        return Ok(());
    }
    let lines = left_out_lines(rt.alloc(), file, source, top)?;
    eprint!(rt; "{}", lines.as_str())
}

/// Prints the lines of [`fault_lines`] on the standard error.
///
/// # Errors
/// Out of memory, or that of the standard error.
pub fn tell_faults(
    rt: &HostRuntime,
    file: &str,
    source: &Source<'_>,
    top: &Option<Name>,
) -> io::Result<()> {
    let lines = fault_lines(rt.alloc(), file, source, top)?;
    eprint!(rt; "{}", lines.as_str())
}

/// Whether a byte is cut out.
fn is_in(at: usize, cut: &Cut) -> bool
    ensures { result ≡ is_in at cut.now }
{
    (cut.start <= at) & (at < cut.end)
}

/// Whether a fault is in what is cut out.
fn is_cut(cuts: &[Cut], found: &FaultFound) -> bool
    ensures { result ≡ is_cut cuts.now found.now }
{
    for cut in cuts {
        if is_in(found.fault.offset, cut) {
            return true;
        }
    }
    false
}

/// The faults of the structures that are left out.
fn cut_faults(alloc: Global, source: &Source<'_>) -> Result<Vec<FaultFound>, AllocError>
    ensures { IfOk result (λ found. found.items ≡ cut_faults source.now) }
{
    let faults = all_faults(alloc, source.left())?;
    let mut found = Vec::new(alloc);
    for fault in faults.as_slice() {
        if is_cut(source.structures(), fault) {
            found.push(*fault)?;
        }
    }
    Ok(found)
}

/// The lines of faults of the structures that are left out.
fn cut_lines(
    alloc: Global,
    file: &str,
    source: &Source<'_>,
    faults: &[FaultFound],
) -> Result<String, AllocError>
    ensures { IfOk result (λ text. string_bytes text ≡ cut_lines file.now source.now faults.now) }
{
    let mut text = String::new(alloc);
    for found in faults {
        let fault = source.left_fault(found.fault);
        let line = line_of(alloc, source.left(), fault, &found.element)?;
        add_line(alloc, &mut text, file, &line, "")?;
    }
    Ok(text)
}

/// Prints the faults of the structures that are left out, and says how many these are.
fn tell_unreached_faults(rt: &HostRuntime, file: &str, source: &Source<'_>) -> io::Result<usize> {
    let found = cut_faults(rt.alloc(), source)?;
    let lines = cut_lines(rt.alloc(), file, source, found.as_slice())?;
    eprint!(rt; "{}", lines.as_str())?;
    Ok(found.len())
}

/// Prints which structures are left out, and their faults.
fn tell_unreached(rt: &HostRuntime, file: &str, source: &Source<'_>) -> io::Result<()> {
    let left_out = source.structures().len();
    let faults = tell_unreached_faults(rt, file, source)?;
    eprint!(rt;
        "note: {file}: structures left out, which the checked one doesn't reach: {left_out}"
    )?;
    if faults == 0 {
        eprintln!(rt; "; the desk reads them")
    } else {
        eprintln!(rt;
            ", with faults: {faults}; the desk reads them, and refuses the file as it stands"
        )
    }
}

/// Prints on the standard error what is left out of a library: the number of the elements on skipped layers, and that of the structures that
/// the checked one doesn't reach, with each fault of these.
///
/// # Errors
/// Out of memory, or that of the standard error.
pub fn tell_left_out(rt: &HostRuntime, file: &str, source: &Source<'_>) -> io::Result<()> {
    source.layered().tell(rt, file)?;
    if source.structures().is_empty() {
        return Ok(());
    }
    tell_unreached(rt, file, source)
}
