//! Keys of markers, as words: the name of a rule and the place of the marker, with colons between the parts.
//!
//! A name may have colons, so a key is read from its end.
ghost use Rattle.std.specs.Prelude.{◌≡◌, Some, None, IfOk, IfSome, IfNone};
ghost use Rattle.mpw_text.specs.Text.{number_of};
ghost use Rattle.mpw_wire.specs.Keys.{cut_last, greatest_side, last_coordinate, last_side, last_axis, last_piece, key_of};

use crate::operand::{Origin, name};
use crate::placement::coordinate;
use mpw_edges::{Axis, Piece};
use mpw_requests::{MarkerName, axis_of};
use mpw_text::read_number;
use std::alloc::{AllocError, Global};

/// The parts before and after the last colon. It searches from the end.
fn cut_last(word: &[u8]) -> Option<(&[u8], &[u8])>
    ensures some { IfSome result (λ parts. cut_last word.now ≡ Some (parts.0.now, parts.1.now)) }
    ensures none { IfNone result (cut_last word.now ≡ None) }
{
    let mut at = word.len();
    while at > 0 {
        at -= 1;
        if word[at] == b':' {
            return Some((&word[..at], &word[at + 1..]));
        }
    }
    None
}

/// The side that a word spells: 0 or 1 on a connection, and in a store any value of a byte.
#[tactic(auto, unfolding(crate::specs::Keys::greatest_side))]
fn side(origin: Origin, word: &[u8]) -> Option<u8>
    ensures { result ≡ number_of 0 (greatest_side origin) word.now }
{
    let greatest = match origin {
        Origin::Connection => 1,
        Origin::Store => 255,
    };
    match read_number(word, 0, greatest) {
        Some(side) => Some(side as u8),
        None => None,
    }
}

/// The coordinate after the last colon, and the part before it.
#[tactic(auto, unfolding(crate::specs::Keys::last_coordinate))]
fn last_coordinate(origin: Origin, word: &[u8]) -> Option<(&[u8], i64)>
    ensures some { IfSome result (λ found. last_coordinate origin word.now ≡ Some (found.0.now, found.1)) }
    ensures none { IfNone result (last_coordinate origin word.now ≡ None) }
{
    let (rest, field) = cut_last(word)?;
    let coordinate = coordinate(origin, field)?;
    Some((rest, coordinate))
}

/// The side after the last colon, and the part before it.
#[tactic(auto, unfolding(crate::specs::Keys::last_side))]
fn last_side(origin: Origin, word: &[u8]) -> Option<(&[u8], u8)>
    ensures some { IfSome result (λ found. last_side origin word.now ≡ Some (found.0.now, found.1)) }
    ensures none { IfNone result (last_side origin word.now ≡ None) }
{
    let (rest, field) = cut_last(word)?;
    let side = side(origin, field)?;
    Some((rest, side))
}

/// The axis after the last colon, and the part before it.
#[tactic(auto, unfolding(crate::specs::Keys::last_axis))]
fn last_axis(word: &[u8]) -> Option<(&[u8], Axis)>
    ensures some { IfSome result (λ found. last_axis word.now ≡ Some (found.0.now, found.1)) }
    ensures none { IfNone result (last_axis word.now ≡ None) }
{
    let (rest, field) = cut_last(word)?;
    let axis = axis_of(field)?;
    Some((rest, axis))
}

/// The run of a marker by the end of its key, and the part before it.
#[tactic(auto, unfolding(crate::specs::Keys::last_piece))]
fn last_piece(origin: Origin, word: &[u8]) -> Option<(&[u8], Piece)>
    ensures some { IfSome result (λ found. last_piece origin word.now ≡ Some (found.0.now, found.1)) }
    ensures none { IfNone result (last_piece origin word.now ≡ None) }
{
    let (rest, y1) = last_coordinate(origin, word)?;
    let (rest, y0) = last_coordinate(origin, rest)?;
    let (rest, x2) = last_coordinate(origin, rest)?;
    let (rest, x1) = last_coordinate(origin, rest)?;
    let (rest, side) = last_side(origin, rest)?;
    let (rest, axis) = last_axis(rest)?;
    Some((
        rest,
        Piece {
            axis,
            side,
            x1,
            x2,
            y0,
            y1,
        },
    ))
}

/// The marker of the key that a word is.
#[tactic(auto, unfolding(crate::specs::Keys::key_of))]
pub(crate) fn key(
    alloc: Global,
    origin: Origin,
    word: &[u8],
) -> Result<Option<MarkerName>, AllocError>
    ensures { IfOk result (λ marker. marker ≡ key_of origin word.now) }
{
    let Some((rest, piece)) = last_piece(origin, word) else {
        return Ok(None);
    };
    let Some(rule) = name(alloc, origin, rest)? else {
        return Ok(None);
    };
    Ok(Some(MarkerName { rule, piece }))
}
