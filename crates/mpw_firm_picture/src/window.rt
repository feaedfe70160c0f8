//! The windows of pictures.
ghost use Rattle.std.specs.Prelude.{◌≡◌, ◌≤◌, ◌<◌, ◌^◌, ◌+ℤ◌, ◌-ℤ◌, pos};
ghost use Rattle.mpw_geom.specs.Plane.{IsBoxInPlane};
ghost use Rattle.mpw_tiles.specs.Placed.{nearest};
ghost use Rattle.mpw_tiles.specs.Snapshots.{shown_extent};
ghost use Rattle.mpw_firm_picture.specs.Windows.{widened_in_plane, distance_of, marker_margin, marker_window, around, whole_window};

use crate::size::longer_side;
use mpw_deck::Rule;
use mpw_geom::Box2;
use mpw_markers::Marker;
use mpw_tiles::Snapshot;

/// The greatest absolute coordinate of the plane, in nm.
const MAX_COORDINATE: i64 = 1 << 48;

/// A coordinate `by` nm below another, or the nearest one of the plane.
fn below(z: i64, by: u64) -> i64
    ensures { result ≡ nearest (z -ℤ pos by) }
{
    z.saturating_sub_unsigned(by)
        .max(-MAX_COORDINATE)
        .min(MAX_COORDINATE)
}

/// A coordinate `by` nm above another, or the nearest one of the plane.
fn above(z: i64, by: u64) -> i64
    ensures { result ≡ nearest (z +ℤ pos by) }
{
    z.saturating_add_unsigned(by)
        .max(-MAX_COORDINATE)
        .min(MAX_COORDINATE)
}

/// A box extended on each side, as far as the plane reaches.
#[tactic(auto, unfolding(crate::specs::Windows::widened_in_plane))]
pub(crate) fn wider_box(area: &Box2, by: u64) -> Box2
    ensures { result ≡ widened_in_plane by area.now }
{
    Box2 {
        x0: below(area.x0, by),
        y0: below(area.y0, by),
        x1: above(area.x1, by),
        y1: above(area.y1, by),
    }
}

/// The distance of the rule at index `place` in its deck, in nm; 0 if there is no such rule.
fn distance_of(rules: &[Rule], place: u32) -> u32
    ensures { result ≡ distance_of rules.now place }
{
    match rules.get(place as usize) {
        Some(rule) => rule.distance,
        None => 0,
    }
}

/// By how much a marker's window exceeds its box on each side, in nm.
#[tactic(auto, unfolding(crate::specs::Windows::marker_margin))]
fn marker_margin(distance: u32, area: &Box2) -> u64
    ensures { result ≡ marker_margin distance area.now }
{
    4 * u64::from(distance) + longer_side(*area) / 4
}

/// The window around a marker, in nm: its box, extended on each side by 4 times its rule's distance and a quarter of the box's longer side.
/// It ends at the borders of the plane, -2^48 to 2^48. Constant time; takes no memory.
pub fn marker_window(rules: &[Rule], marker: &Marker) -> Box2
    ensures window { result ≡ marker_window rules.now marker.now }
    ensures plane { IsBoxInPlane result }
{
    let area = marker.key.piece.closed_box();
    let margin = marker_margin(distance_of(rules, marker.key.rule), &area);
    wider_box(&area, margin)
}

/// The box, extended by a twentieth of its longer side plus 1 nm.
fn around(area: &Box2) -> Box2
    ensures window { result ≡ around area.now }
    ensures plane { IsBoxInPlane result }
{
    wider_box(area, longer_side(*area) / 20 + 1)
}

/// The window around all shapes of a snapshot, in nm: the least box that contains them, extended on each side by a twentieth of its
/// longer side plus 1 nm. Without shapes it is around the origin. Cost: linear in the roots; takes no memory.
#[tactic(auto, unfolding(crate::specs::Windows::whole_window))]
pub fn whole_window(snapshot: &Snapshot) -> Box2
    ensures window { result ≡ whole_window (shown_extent snapshot.now) }
    ensures plane { IsBoxInPlane result }
{
    match snapshot.extent() {
        Some(extent) => around(&extent),
        None => around(&Box2 {
            x0: 0,
            y0: 0,
            x1: 0,
            y1: 0,
        }),
    }
}
