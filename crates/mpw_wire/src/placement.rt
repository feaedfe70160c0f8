//! Placings, from the words of a line: an orientation, and coordinates in nm.
ghost use Rattle.std.specs.Prelude.{◌≡◌, pos, IfOk, option_map};
ghost use Rattle.mpw_wire.specs.Placement.{farthest_below, farthest_above, negative, coordinate_of};
ghost use Rattle.mpw_text.specs.Text.{number_of};
ghost use Rattle.mpw_wire.specs.Request.{placing_of, placement_of};

use crate::operand::{Origin, name};
use mpw_geom::{Placing, Point};
use mpw_requests::{Operands, orient_of};
use mpw_text::read_count;
use std::alloc::{AllocError, Global};

/// The largest distance of a connection's coordinate from 0, in nm.
const MAX_COORDINATE: usize = 1 << 30;

/// The number below 0 with these digits, at most as far from 0 as a line of that origin allows.
#[tactic(auto, using(crate::proofs::PlacementLemmas::within), unfolding(crate::specs::Placement::farthest_below))]
fn below(origin: Origin, digits: &[u8]) -> Option<i64>
    ensures { result ≡ option_map negative (number_of 1 (farthest_below origin) digits.now) }
{
    let farthest = match origin {
        Origin::Connection => MAX_COORDINATE,
        Origin::Store => 1 << 63,
    };
    match read_count(digits, 1, farthest) {
        Some(count) => Some(-1 - (count - 1) as i64),
        None => None,
    }
}

/// The number from 0 on with these digits, at most as far from 0 as a line of that origin allows.
#[tactic(auto, using(crate::proofs::PlacementLemmas::within), unfolding(crate::specs::Placement::farthest_above))]
fn above(origin: Origin, digits: &[u8]) -> Option<i64>
    ensures { result ≡ option_map pos (number_of 0 (farthest_above origin) digits.now) }
{
    let farthest = match origin {
        Origin::Connection => MAX_COORDINATE,
        Origin::Store => (1 << 63) - 1,
    };
    match read_count(digits, 0, farthest) {
        Some(count) => Some(count as i64),
        None => None,
    }
}

/// The coordinate that a word spells, in nm: digits without a leading zero, after a minus sign if it is below 0.
#[tactic(auto, unfolding(crate::specs::Placement::coordinate_of))]
pub(crate) fn coordinate(origin: Origin, word: &[u8]) -> Option<i64>
    ensures { result ≡ coordinate_of origin word.now }
{
    match word {
        [b'-', digits @ ..] => below(origin, digits),
        _ => above(origin, word),
    }
}

/// The placing that an orientation and two coordinates give.
#[tactic(auto, unfolding(crate::specs::Request::placing_of))]
pub(crate) fn placing(origin: Origin, orient_word: &[u8], x: &[u8], y: &[u8]) -> Option<Placing>
    ensures { result ≡ placing_of origin orient_word.now x.now y.now }
{
    let orient = orient_of(orient_word)?;
    let x = coordinate(origin, x)?;
    let y = coordinate(origin, y)?;
    Some(Placing {
        orient,
        by: Point { x, y },
    })
}

/// The placement of a cell under a label, by the words of these names and those of a placing.
#[tactic(auto, unfolding(crate::specs::Request::placement_of))]
pub(crate) fn placement(
    alloc: Global,
    origin: Origin,
    cell_word: &[u8],
    label_word: &[u8],
    placing: Option<Placing>,
) -> Result<Option<Operands>, AllocError>
    ensures { IfOk result (λ operands. operands ≡ placement_of origin cell_word.now label_word.now placing) }
{
    let Some(cell) = name(alloc, origin, cell_word)? else {
        return Ok(None);
    };
    let Some(label) = name(alloc, origin, label_word)? else {
        return Ok(None);
    };
    match placing {
        Some(placing) => Ok(Some(Operands::Placement(cell, label, placing))),
        None => Ok(None),
    }
}
