//! The position of an element in a text, and the layer and type in its records.
ghost use Rattle.std.specs.Prelude.{◌≡◌, Some, option_map};
ghost use Rattle.mpw_records.specs.Records.{raw};
ghost use Rattle.mpw_firm_skipping.specs.Elements.{begins, begun, behind, closed, element_behind, end_of, first_told, is_inner, is_text, is_type, nothing_open, number_of, stops, structure_behind, with_record};

use mpw_records::Record;
use mpw_records::kind::{
    AREF, BGNSTR, BOUNDARY, BOX, BOXTYPE, DATATYPE, ENDEL, ENDLIB, ENDSTR, LAYER, NODE, PATH, SREF,
    STRNAME, TEXT, XY,
};

/// The record TEXTTYPE of a text: a two-byte number, like the datatype of a boundary.
pub const TEXTTYPE: u8 = 0x16;

/// The record NODETYPE of a node: a two-byte number, like the datatype of a boundary.
pub const NODETYPE: u8 = 0x2A;

/// The position of an element in a text, and its first layer and type. Offsets are in bytes from the text's front.
#[derive(Clone, Copy, PartialEq, Eq, Debug)]
pub struct ElementSpan {
    /// The offset of its first record.
    pub start: usize,
    /// The offset after its last record.
    pub end: usize,
    /// The type of its first record.
    pub kind: u8,
    /// The offset of the STRNAME of its structure.
    pub structure: usize,
    /// The number in its first LAYER.
    pub layer: Option<u16>,
    /// The number in its first DATATYPE, TEXTTYPE, NODETYPE or BOXTYPE.
    pub datatype: Option<u16>,
    /// The offset of its first XY.
    pub points: Option<usize>,
}

/// What is open at an offset of a text.
#[derive(Clone, Copy)]
pub(crate) struct Opened {
    /// The offset of the STRNAME of the open structure.
    pub structure: Option<usize>,
    /// The open element, as far as it was read.
    pub element: Option<ElementSpan>,
}

impl Opened {
    /// Nothing is open, as at the front of a text.
    pub fn nothing() -> Opened
        ensures { result ≡ nothing_open }
    {
        Opened {
            structure: None,
            element: None,
        }
    }
}

/// Whether a record begins an element.
fn begins(kind: u8) -> bool
    ensures { result ≡ begins kind }
{
    matches!(kind, BOUNDARY | PATH | SREF | AREF | TEXT | NODE | BOX)
}

/// Whether a record ends an element, or can't be in one.
fn stops(kind: u8) -> bool
    ensures { result ≡ stops kind }
{
    matches!(kind, ENDEL | BGNSTR | STRNAME | ENDSTR | ENDLIB)
}

/// Whether a record has the type of an element.
fn is_type(kind: u8) -> bool
    ensures { result ≡ is_type kind }
{
    matches!(kind, DATATYPE | TEXTTYPE | NODETYPE | BOXTYPE)
}

/// The two-byte number at the front of the data.
fn number_of(bytes: &[u8]) -> Option<u16>
    ensures { result ≡ number_of bytes.now }
{
    match bytes {
        [high, low, ..] => Some(u16::from(*high) * 256 + u16::from(*low)),
        _ => None,
    }
}

/// The number that was read before, or else the next one.
fn first_told(before: Option<u16>, next: Option<u16>) -> Option<u16>
    ensures { result ≡ first_told before next }
{
    match before {
        Some(number) => Some(number),
        None => next,
    }
}

/// The offset that was read before, or else the next one.
fn first_place(before: Option<usize>, next: usize) -> Option<usize>
    ensures { result ≡ first_told before (Some next) }
{
    match before {
        Some(place) => Some(place),
        None => Some(next),
    }
}

/// The offset after a record, in bytes from the text's front, up to 2^64 - 1.
pub(crate) fn end_of(found: Record<'_>) -> usize
    ensures { result ≡ end_of (raw found.entry) }
{
    found
        .offset
        .saturating_add(4)
        .saturating_add(found.bytes.len())
}

/// An element whose first record was read, in the structure whose STRNAME is at this offset.
fn begun(found: Record<'_>, structure: usize) -> ElementSpan
    ensures { result ≡ begun (raw found.entry) structure }
{
    ElementSpan {
        start: found.offset,
        end: end_of(found),
        kind: found.kind,
        structure,
        layer: None,
        datatype: None,
        points: None,
    }
}

/// An element with its next record.
fn with_record(found: Record<'_>, span: ElementSpan) -> ElementSpan
    ensures { result ≡ with_record (raw found.entry) span }
{
    let mut next = span;
    next.end = end_of(found);
    if found.kind == LAYER {
        next.layer = first_told(span.layer, number_of(found.bytes));
    }
    if is_type(found.kind) {
        next.datatype = first_told(span.datatype, number_of(found.bytes));
    }
    if found.kind == XY {
        next.points = first_place(span.points, found.offset);
    }
    next
}

/// The element that a record ends.
pub(crate) fn closed(found: Record<'_>, so_far: Option<ElementSpan>) -> Option<ElementSpan>
    ensures { result ≡ closed (raw found.entry) so_far }
{
    match so_far {
        Some(span) if found.kind == ENDEL => Some(with_record(found, span)),
        _ => None,
    }
}

/// The open element, if there is one, with its next record.
fn continued(found: Record<'_>, so_far: Option<ElementSpan>) -> Option<ElementSpan>
    ensures { result ≡ option_map (with_record (raw found.entry)) so_far }
{
    match so_far {
        Some(span) => Some(with_record(found, span)),
        None => None,
    }
}

/// Whether a text or a node is open.
fn is_text(so_far: Option<ElementSpan>) -> bool
    ensures { result ≡ is_text so_far }
{
    match so_far {
        Some(span) => (span.kind == TEXT) | (span.kind == NODE),
        None => false,
    }
}

/// Whether a record is inside a text or a node, whatever its type.
pub(crate) fn is_inner(found: Record<'_>, so_far: Option<ElementSpan>) -> bool
    ensures { result ≡ is_inner (raw found.entry) so_far }
{
    is_text(so_far) & (found.kind != ENDEL) & (found.kind != ENDLIB)
}

/// The element that is open after a record.
fn element_behind(
    found: Record<'_>,
    structure: Option<usize>,
    so_far: Option<ElementSpan>,
) -> Option<ElementSpan>
    ensures { result ≡ element_behind (raw found.entry) structure so_far }
{
    if begins(found.kind) {
        match structure {
            Some(structure) => Some(begun(found, structure)),
            None => None,
        }
    } else if stops(found.kind) {
        None
    } else {
        continued(found, so_far)
    }
}

/// The offset of the STRNAME of the structure that is open after a record.
fn structure_behind(found: Record<'_>, so_far: Option<usize>) -> Option<usize>
    ensures { result ≡ structure_behind (raw found.entry) so_far }
{
    match found.kind {
        STRNAME => Some(found.offset),
        BGNSTR | ENDSTR | ENDLIB => None,
        _ => so_far,
    }
}

/// What is open after a record.
pub(crate) fn behind(found: Record<'_>, so_far: Opened) -> Opened
    ensures { result ≡ behind (raw found.entry) so_far }
{
    if is_inner(found, so_far.element) {
        Opened {
            structure: so_far.structure,
            element: continued(found, so_far.element),
        }
    } else {
        Opened {
            structure: structure_behind(found, so_far.structure),
            element: element_behind(found, so_far.structure, so_far.element),
        }
    }
}
