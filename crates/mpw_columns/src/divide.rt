//! Halves a column again and again, until its bands have few rectangles side by side.
//!
//! A column is cut at the middle of its rectangles as long as the halves together are less work. Each half is a column with all rows. So what it finds is
//! whole, and no other column finds it: the lists are simply appended.

ghost use Rattle.std.specs.Prelude.{◌≡◌, ◌≤ℤ◌, OnOk};
ghost use Rattle.mpw_job.specs.Answers.{listed_on};
ghost use Rattle.mpw_columns.specs.Internal.Found.{left_of, right_of, AddsFound, IsLook, IsUpright};

use crate::leaf::add_leaf;
use crate::load::Load;
use crate::look::Look;
use crate::part::{parts_in, window_of};
use mpw_geom::{Box2, Point};
use mpw_markers::Key;
use mpw_tiles::Rectangle;
use std::alloc::{AllocError, Global};

/// A point in the middle of the extent. If that is outside the core, the point is at the core's side.
fn middle(core: &Box2, extent: &Box2) -> Point
    requires { core.now.x0 ≤ℤ core.now.x1 }
    ensures low { core.now.x0 ≤ℤ result.x }
    ensures high { result.x ≤ℤ core.now.x1 }
{
    Point {
        x: (extent.x0.wrapping_add(extent.x1) / 2)
            .max(core.x0)
            .min(core.x1),
        y: core.y0,
    }
}

/// The core left of the point, and the core right of it.
fn halves(core: &Box2, at: Point) -> (Box2, Box2)
    ensures left { result.0 ≡ left_of core.now at.x }
    ensures right { result.1 ≡ right_of core.now at.x }
{
    let left = Box2 {
        x0: core.x0,
        y0: core.y0,
        x1: at.x,
        y1: core.y1,
    };
    let right = Box2 {
        x0: at.x,
        y0: core.y0,
        x1: core.x1,
        y1: core.y1,
    };
    (left, right)
}

/// Adds what the rules find in the core, which is halved at most `depth` times. The rectangles are sorted by layer and seen along the axis. Cost: a pass
/// over the rectangles for each halving, and the bands of each leaf.
pub(crate) fn add_column(
    alloc: Global,
    keys: &mut Vec<Key>,
    look: &Look<'_>,
    rectangles: &[Rectangle],
    core: &Box2,
    depth: u32,
) -> Result<(), AllocError>
    requires look { IsLook look.now.rules.now look.now.layers.now look.now.distance }
    requires upright { IsUpright core.now }
    ensures { OnOk result (AddsFound look.now.rules.now look.now.axis (listed_on rectangles.now) core.now keys.old.items keys.new.items) }
{
    let load = Load::of(rectangles);
    if depth == 0 || !load.may_be_eased(core, look.distance) {
        return add_leaf(alloc, keys, look, rectangles, *core);
    }
    let (left, right) = halves(core, middle(core, &load.extent));
    let low = parts_in(alloc, rectangles, &window_of(&left, look.distance))?;
    let high = parts_in(alloc, rectangles, &window_of(&right, look.distance))?;
    if !load.is_eased_by(&Load::of(low.as_slice()), &Load::of(high.as_slice())) {
        return add_leaf(alloc, keys, look, rectangles, *core);
    }
    add_column(alloc, keys, look, low.as_slice(), &left, depth - 1)?;
    add_column(alloc, keys, look, high.as_slice(), &right, depth - 1)
}
