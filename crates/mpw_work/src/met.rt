//! Finds the submissions that markers touch.
//!
//! Each marker touches at least one submission. So if all rectangles are of one submission, there is nothing to find. Otherwise all markers of
//! a tile are searched together, so that a rectangle isn't compared with each of them.

ghost use Rattle.std.specs.Prelude.{◌≡◌, ◌↔◌, ℕ, [], ◌∷◌, IfOk, IfSome, IsTrue, MatchBool, All, length, map};
ghost use Rattle.mpw_geom.specs.Plane.{Square, HasArea, IsOrdered};
ghost use Rattle.mpw_markers.specs.Origins.{OriginHasSquare};
ghost use Rattle.mpw_tiles.specs.Listing.{HasListed};
ghost use Rattle.mpw_work.specs.Internal.Found.{key_of, met_of, key_box, TellMet, MeetsSome, AreMarkersOfKeys};

use mpw_geom::Box2;
use mpw_markers::{Key, Marker, Met, met_origins};
use mpw_tiles::Rectangle;
use std::alloc::{AllocError, Global};

/// Whether the box has a unit square.
fn has_area(b: &Box2) -> bool
    ensures { MatchBool result (HasArea b.now) (HasArea b.now → ⊥) }
{
    b.x0 < b.x1 && b.y0 < b.y1
}

/// The rectangles that have a unit square, by area and origin.
fn with_area(alloc: Global, window: &[Rectangle]) -> Result<Vec<mpw_markers::Rectangle>, AllocError>
    ensures areas { IfOk result (λ v. All (λ r. HasArea r.area) v.items) }
    ensures squares { IfOk result (λ v. (origin : ℕ) (s : Square) →
        OriginHasSquare v.items origin s ↔ HasListed window.now origin s) }
{
    let mut found = Vec::new(alloc);
    for rectangle in window {
        if has_area(&rectangle.area) {
            found.push(mpw_markers::Rectangle {
                area: rectangle.area,
                origin: rectangle.origin,
            })?;
        }
    }
    Ok(found)
}

/// The closed boxes of markers with these keys.
fn closed_boxes(alloc: Global, keys: &[Key]) -> Result<Vec<Box2>, AllocError>
    ensures { IfOk result (λ v. v.items ≡ map key_box keys.now) }
{
    let mut boxes = Vec::with_capacity(alloc, keys.len())?;
    for key in keys {
        boxes.push(key.piece.closed_box())?;
    }
    Ok(boxes)
}

/// What the markers with these keys touch.
fn mets_of(alloc: Global, window: &[Rectangle], keys: &[Key]) -> Result<Vec<Met>, AllocError>
    requires { All (λ k. IsOrdered (key_box k)) keys.now }
    ensures { IfOk result (λ v. TellMet window.now keys.now v.items) }
{
    let rectangles = with_area(alloc, window)?;
    let boxes = closed_boxes(alloc, keys)?;
    let mets = met_origins(alloc, rectangles.as_slice(), boxes.as_slice())?;
    Ok(mets)
}

/// The markers with these keys, each with what it touches.
fn with_mets(alloc: Global, keys: &[Key], mets: &[Met]) -> Result<Vec<Marker>, AllocError>
    requires { length mets.now ≡ length keys.now }
    ensures keys { IfOk result (λ v. map key_of v.items ≡ keys.now) }
    ensures mets { IfOk result (λ v. map met_of v.items ≡ mets.now) }
{
    let mut markers = Vec::with_capacity(alloc, keys.len())?;
    for place in 0..keys.len() {
        let met = mets[place].copy()?;
        markers.push(Marker {
            key: keys[place],
            met,
        })?;
    }
    Ok(markers)
}

/// The markers with these keys, each with the submissions that are found to touch it.
fn with_those_met(
    alloc: Global,
    window: &[Rectangle],
    keys: &[Key],
) -> Result<Vec<Marker>, AllocError>
    requires { All (λ k. IsOrdered (key_box k)) keys.now }
    ensures { IfOk result (λ v. AreMarkersOfKeys window.now keys.now v.items) }
{
    let mets = mets_of(alloc, window, keys)?;
    let markers = with_mets(alloc, keys, mets.as_slice())?;
    Ok(markers)
}

/// Whether each rectangle is of that origin.
fn are_of(window: &[Rectangle], origin: u32) -> bool
    ensures { IsTrue result → All (λ r. r.origin ≡ origin) window.now }
{
    window.iter().all(|r| r.origin == origin)
}

/// The origin of all rectangles, if they have only one.
fn only_origin(window: &[Rectangle]) -> Option<u32>
    ensures { IfSome result (λ origin. All (λ r. r.origin ≡ origin) window.now) }
{
    match window {
        [] => None,
        [first, ..] if are_of(window, first.origin) => Some(first.origin),
        _ => None,
    }
}

/// The markers with these keys, each of which touches that origin alone.
fn with_origin(alloc: Global, keys: &[Key], origin: u32) -> Result<Vec<Marker>, AllocError>
    ensures keys { IfOk result (λ v. map key_of v.items ≡ keys.now) }
    ensures mets { IfOk result (λ v. All (λ m. m.met ≡ origin ∷ []) v.items) }
{
    let mut markers = Vec::with_capacity(alloc, keys.len())?;
    for key in keys {
        let met = Met::of(alloc, &[origin])?;
        markers.push(Marker { key: *key, met })?;
    }
    Ok(markers)
}

/// The markers with these keys, each with the origins of the rectangles, on any layer, that have a closed unit square which touches
/// its closed box. Cost: a pass over the rectangles, and, if they have several origins, what [`met_origins`] takes for them and the
/// boxes. The only error is out of memory.
pub(crate) fn markers_of(
    alloc: Global,
    window: &[Rectangle],
    keys: &[Key],
) -> Result<Vec<Marker>, AllocError>
    requires ordered { All (λ k. IsOrdered (key_box k)) keys.now }
    requires some { All (MeetsSome window.now) keys.now }
    ensures { IfOk result (λ v. AreMarkersOfKeys window.now keys.now v.items) }
{
    match only_origin(window) {
        Some(origin) => {
            let markers = with_origin(alloc, keys, origin)?;
            Ok(markers)
        }
        None => with_those_met(alloc, window, keys),
    }
}
