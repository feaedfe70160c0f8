//! Selects the rectangles that a part of the boxes may touch.

ghost use Rattle.std.specs.Prelude.{◌≡◌, ◌⊎◌, ◌≤ℤ◌, true, ℕ, Contains, IfOk, IsTrue, MatchBool};
ghost use Rattle.mpw_markers.specs.declared.search.Item.{Item as ItemValue};
ghost use Rattle.mpw_markers.specs.Internal.Search.{SharePoint, IsWithin, AreAlikeIn, Answers};

use crate::met::Met;
use mpw_geom::Box2;
use std::alloc::{AllocError, Global};

/// A placed rectangle of a shape, in nm, and the number of the submission from which the shape comes.
#[derive(Clone, Copy, PartialEq, Eq)]
pub struct Rectangle {
    /// The rectangle, closed: a box that shares only a corner with it touches it.
    pub area: Box2,
    /// The submission's number on the shelf, from 0.
    pub origin: u32,
}

/// A box, and the index of its answer.
#[derive(Clone, Copy, PartialEq, Eq)]
pub(crate) struct Item {
    /// The index of its answer in the list of all answers, from 0.
    pub place: usize,
    /// The box, closed, in nm.
    pub area: Box2,
}

/// A box in which all of them lie.
pub(crate) fn hull(items: &[Item]) -> Box2
    ensures { (i : ItemValue) → Contains items.now i → IsWithin i.area result }
{
    let mut hull = match items.first() {
        Some(item) => item.area,
        None => Box2 {
            x0: 0,
            y0: 0,
            x1: 0,
            y1: 0,
        },
    };
    for item in items {
        hull = hull.join(item.area);
    }
    hull
}

/// Whether the first box lies in the second.
fn is_within(b: &Box2, hull: &Box2) -> bool
    ensures { result ≡ true → IsWithin b.now hull.now }
{
    if b.x0 < hull.x0 {
        return false;
    }
    if hull.x1 < b.x1 {
        return false;
    }
    if b.y0 < hull.y0 {
        return false;
    }
    if hull.y1 < b.y1 {
        return false;
    }
    true
}

/// Origins that all boxes of a part touch, each once, and the rectangles that some of them may touch.
#[derive(Drop)]
pub(crate) struct Near {
    /// The origins that each box touches, including those of rectangles that contain the whole hull of the boxes.
    pub common: Met,
    /// The rectangles that touch the hull, but don't contain all of it.
    pub rectangles: Vec<Rectangle>,
}

/// What matters for the boxes in the hull. A rectangle that contains the hull is touched by each of them, and one that
/// doesn't touch the hull is touched by none.
pub(crate) fn parts_near(
    alloc: Global,
    hull: &Box2,
    common: &[u32],
    rectangles: &[Rectangle],
) -> Result<Near, AllocError>
    ensures { IfOk result (λ n. AreAlikeIn hull.now common.now n.common rectangles.now n.rectangles.items) }
{
    let mut found = Vec::from_slice(alloc, common)?;
    let mut some = Vec::new(alloc);
    for rectangle in rectangles {
        if is_within(hull, &rectangle.area) {
            found.push(rectangle.origin)?;
        } else if rectangle.area.meets(*hull) {
            some.push(*rectangle)?;
        }
    }
    Ok(Near {
        common: Met::from_vec(alloc, found)?,
        rectangles: some,
    })
}

/// Whether the number is the last of them.
fn is_last(numbers: &[u32], number: u32) -> bool
    ensures { IsTrue result → Contains numbers.now number }
{
    match numbers.last() {
        Some(last) => *last == number,
        None => false,
    }
}

/// Whether the rectangle touches the box, and its origin isn't the last number already.
fn is_needed(numbers: &[u32], rectangle: &Rectangle, b: &Box2) -> bool
    ensures { MatchBool result (SharePoint rectangle.now.area b.now)
        (Contains numbers.now rectangle.now.origin ⊎ (SharePoint rectangle.now.area b.now → ⊥)) }
{
    !is_last(numbers, rectangle.origin) && rectangle.area.meets(*b)
}

/// The origins that the box touches.
pub(crate) fn answer(
    alloc: Global,
    b: &Box2,
    common: &[u32],
    rectangles: &[Rectangle],
) -> Result<Met, AllocError>
    ensures { IfOk result (λ met. Answers common.now rectangles.now b.now met) }
{
    let mut numbers = Vec::from_slice(alloc, common)?;
    for rectangle in rectangles {
        if is_needed(numbers.as_slice(), rectangle, b) {
            numbers.push(rectangle.origin)?;
        }
    }
    Met::from_vec(alloc, numbers)
}
