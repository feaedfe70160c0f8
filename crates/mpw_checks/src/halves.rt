//! Halves of a core, and the parts of rectangles in a window.

ghost use Rattle.std.specs.Prelude.{◌≡◌, IfOk};
ghost use Rattle.mpw_geom.specs.Plane.{IsBoxInPlane};
ghost use Rattle.mpw_checks.specs.Internal.Cells.{
  window_of,
  left_of,
  right_of,
  IsMiddle,
  AreHalves,
  AreAlikeIn,
};

use crate::across::{are_many, merge_across};
use crate::load::Load;
use mpw_geom::{Box2, Point};
use mpw_region::has_area;
use std::alloc::{AllocError, Global};

/// The rectangles of both layers in a window, and how much work they are.
#[derive(Drop)]
pub(crate) struct Layers {
    pub(crate) first: Vec<Box2>,
    pub(crate) second: Vec<Box2>,
    pub(crate) load: Load,
}

/// Boxes, and how much work they are.
#[derive(Drop)]
struct Loaded {
    boxes: Vec<Box2>,
    load: Load,
}

/// The core extended on each side by the distance plus 1.
fn window(core: &Box2, distance: u32) -> Box2
    requires { IsBoxInPlane core.now }
    ensures { result ≡ window_of core.now distance }
{
    let margin = i64::from(distance) + 1;
    Box2 {
        x0: core.x0 - margin,
        y0: core.y0 - margin,
        x1: core.x1 + margin,
        y1: core.y1 + margin,
    }
}

/// A point in the middle of the extent. If that is outside the core, the point is at the core's side.
fn middle(core: &Box2, extent: &Box2) -> Point
    ensures { IsMiddle core.now result }
{
    Point {
        x: (extent.x0.wrapping_add(extent.x1) / 2)
            .max(core.x0)
            .min(core.x1),
        y: core.y0,
    }
}

/// The core left and right of the point.
fn columns(core: &Box2, at: Point) -> (Box2, Box2)
    ensures low { result.0 ≡ left_of core.now at }
    ensures high { result.1 ≡ right_of core.now at }
{
    let low = Box2 {
        x0: core.x0,
        y0: core.y0,
        x1: at.x,
        y1: core.y1,
    };
    let high = Box2 {
        x0: at.x,
        y0: core.y0,
        x1: core.x1,
        y1: core.y1,
    };
    (low, high)
}

/// The core in two halves, left and right of the middle of the extent.
pub(crate) fn halves(core: &Box2, extent: &Box2) -> (Box2, Box2)
    requires { IsBoxInPlane core.now }
    ensures cores { AreHalves core.now result.0 result.1 }
    ensures low { IsBoxInPlane result.0 }
    ensures high { IsBoxInPlane result.1 }
{
    let at = middle(core, extent);
    columns(core, at)
}

/// The parts of the boxes in the window, and how much work they are. Two passes.
fn parts(alloc: Global, boxes: &[Box2], window: &Box2) -> Result<Loaded, AllocError>
    ensures { IfOk result (λ s. AreAlikeIn window.now boxes.now s.boxes.items) }
{
    let mut found = Vec::with_capacity(alloc, boxes.len())?;
    for b in boxes {
        let part = b.intersection(*window);
        if has_area(&part) {
            found.push(part)?;
        }
    }
    let load = Load::of(found.as_slice());
    Ok(Loaded { boxes: found, load })
}

/// The parts of the boxes in the window. Those that reach across it are merged.
fn merged_parts(alloc: Global, boxes: &[Box2], window: &Box2) -> Result<Loaded, AllocError>
    ensures { IfOk result (λ s. AreAlikeIn window.now boxes.now s.boxes.items) }
{
    let parts = parts(alloc, boxes, window)?;
    if !are_many(parts.boxes.as_slice(), &parts.load.extent) {
        return Ok(parts);
    }
    let boxes = merge_across(alloc, parts.boxes.as_slice(), &parts.load.extent)?;
    let load = Load::of(boxes.as_slice());
    Ok(Loaded { boxes, load })
}

/// The parts of the rectangles that lie in the core's window.
pub(crate) fn in_window(
    alloc: Global,
    distance: u32,
    first: &[Box2],
    second: &[Box2],
    core: &Box2,
) -> Result<Layers, AllocError>
    requires { IsBoxInPlane core.now }
    ensures first { IfOk result (λ l. AreAlikeIn (window_of core.now distance) first.now l.first.items) }
    ensures second { IfOk result (λ l. AreAlikeIn (window_of core.now distance) second.now l.second.items) }
{
    let window = window(core, distance);
    let first = merged_parts(alloc, first, &window)?;
    let second = merged_parts(alloc, second, &window)?;
    let load = first.load.with(&second.load);
    Ok(Layers {
        first: first.boxes,
        second: second.boxes,
        load,
    })
}
