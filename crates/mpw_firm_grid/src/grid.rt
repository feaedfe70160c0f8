//! A library's text with a unit of 1 nm instead of its own.
ghost use Rattle.std.specs.Prelude.{◌≡◌, ◌≤◌, drop, length, option_copied, option_map, take, IfOk, IfSome};
ghost use Rattle.mpw_firm_grid.specs.Texts.{first_units, grid_parts, metres_place, on_grid, parts_in};
ghost use Rattle.mpw_records.specs.Records.{outcomes_of, raw};

use crate::parts::Parts;
use crate::unit::{is_decimal, parts_of};
use mpw_records::kind::UNITS;
use mpw_records::{Record, Records};
use std::alloc::{AllocError, Global};

/// One nanometre, as UNITS has it in metres.
const NANOMETRE: [u8; 8] = [57, 68, 184, 47, 160, 155, 90, 84];

/// The first UNITS of a text, if no record before it has a fault.
#[tactic(auto, unfolding(crate::specs::Texts::first_units, mpw_records::specs::Format::least_size))]
fn first_units(text: &[u8]) -> Option<Record<'_>>
    ensures units { option_map raw result ≡ first_units (outcomes_of text.now) }
    ensures sized { IfSome result (λ units. 16 ≤ length units.bytes.now) }
{
    let mut records = Records::new(text);
    while let Some(Ok(found)) = records.next() {
        if found.kind == UNITS {
            return Some(found);
        }
    }
    None
}

/// The parts of a nanometre that the unit of a record UNITS is, if there are at least two and lengths in them have finite decimals.
fn parts_in(units: &Record<'_>) -> Option<Parts>
    requires { 16 ≤ length units.now.bytes.now }
    ensures { result ≡ parts_in (raw units.now) }
{
    let bytes = units.bytes;
    let parts = parts_of([
        bytes[8], bytes[9], bytes[10], bytes[11], bytes[12], bytes[13], bytes[14], bytes[15],
    ])?;
    if (parts >= 2) & is_decimal(parts) {
        Parts::new(parts)
    } else {
        None
    }
}

/// Into how many parts a nanometre is divided to get the unit of a library's text, from 2 to 1000, if lengths in them have finite decimals
/// in nanometres. None for whole nanometres, for other units, and without UNITS.
pub fn grid_parts(text: &[u8]) -> Option<Parts>
    ensures { result ≡ grid_parts text.now }
{
    match first_units(text) {
        Some(units) => parts_in(&units),
        None => None,
    }
}

/// The place of the metres of a text's UNITS.
fn metres_place(text: &[u8]) -> Option<usize>
    ensures { result ≡ metres_place text.now }
{
    match first_units(text) {
        Some(units) => Some(units.offset.saturating_add(12)),
        None => None,
    }
}

/// The bytes before a place.
fn front(text: &[u8], at: usize) -> &[u8]
    ensures { result.now ≡ take at text.now }
{
    match text.get(..at) {
        Some(front) => front,
        None => text,
    }
}

/// The bytes from a place on.
fn rest(text: &[u8], at: usize) -> &[u8]
    ensures { result.now ≡ drop at text.now }
{
    match text.get(at..) {
        Some(rest) => rest,
        None => &[],
    }
}

/// A library's text with a unit of 1 nm. Without UNITS it is the text itself. It takes a copy of the text.
///
/// # Errors
/// Out of memory.
pub fn on_grid(alloc: Global, text: &[u8]) -> Result<Vec<u8>, AllocError>
    ensures { IfOk result (λ grid. grid.items ≡ on_grid text.now) }
{
    let mut grid = Vec::new(alloc);
    match metres_place(text) {
        Some(at) => {
            grid.extend_from_slice(front(text, at))?;
            grid.extend_from_slice(&NANOMETRE)?;
            grid.extend_from_slice(rest(text, at.saturating_add(8)))?;
        }
        None => grid.extend_from_slice(text)?,
    }
    Ok(grid)
}
