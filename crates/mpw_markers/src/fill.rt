//! Halves a list of boxes again and again, and answers each part by itself.
//!
//! A part of the boxes is divided at its median, along the longer side of the box around it. Rectangles that touch no box of a part
//! are left out. Of rectangles that contain the whole part only the origins are stored. So a rectangle is visited only where its
//! border passes: an edge along an axis passes about the square root of the number of parts.

ghost use Rattle.std.specs.Prelude.{◌≡◌, ◌↔◌, ◌⊎◌, ◌<◌, [], ◌∷◌, ◌++◌, length, All, Contains, IfOk, OnOk};
ghost use Rattle.std.specs.List.Sorted.{IsPermutation};
ghost use Rattle.mpw_geom.specs.Plane.{IsOrdered, HasArea};
ghost use Rattle.mpw_markers.specs.declared.search.Item.{Item as ItemValue};
ghost use Rattle.mpw_markers.specs.Origins.{AreMetOrigins};
ghost use Rattle.mpw_markers.specs.Internal.Search.{AreItemsOf, CanBeFilled, Fills};

use crate::met::Met;
use crate::search::{Item, Rectangle, answer, hull, parts_near};
use mpw_geom::Box2;
use std::alloc::{AllocError, Global};

/// The most halvings.
const MAX_DEPTH: u32 = 40;

/// At most this many boxes, or rectangles, are not divided any more.
const FEW: usize = 16;

/// Stores the answer of one box at its index.
fn fill_one(
    alloc: Global,
    mets: &mut Vec<Met>,
    item: &Item,
    common: &[u32],
    rectangles: &[Rectangle],
) -> Result<(), AllocError>
    requires { item.now.place < length mets.old.items }
    ensures { OnOk result (Fills common.now rectangles.now (item.now ∷ []) mets.old.items mets.new.items) }
{
    let met = answer(alloc, &item.area, common, rectangles)?;
    mets[item.place] = met;
    Ok(())
}

/// Stores the answer of each box at its index: one test for each box and rectangle.
fn fill_each(
    alloc: Global,
    mets: &mut Vec<Met>,
    items: &[Item],
    common: &[u32],
    rectangles: &[Rectangle],
) -> Result<(), AllocError>
    requires { CanBeFilled (length mets.old.items) items.now }
    ensures { OnOk result (Fills common.now rectangles.now items.now mets.old.items mets.new.items) }
{
    for item in items {
        fill_one(alloc, mets, item, common, rectangles)?;
    }
    Ok(())
}

/// The items before the median along one side of the box around them, the median, and the others.
fn parts_at_median<'a>(
    items: &'a mut [Item],
    around: &Box2,
) -> (&'a mut [Item], &'a mut Item, &'a mut [Item])
    requires { 0 < length items.old }
    ensures { IsPermutation items.old (result.0.now ++ result.1.now ∷ result.2.now) }
{
    let middle = items.len() / 2;
    if around.x1.abs_diff(around.x0) >= around.y1.abs_diff(around.y0) {
        items.select_nth_unstable_by_key(middle, |item| item.area.x0)
    } else {
        items.select_nth_unstable_by_key(middle, |item| item.area.y0)
    }
}

/// The items in two halves, along one side of the box around them.
fn halves(
    alloc: Global,
    items: Vec<Item>,
    around: &Box2,
) -> Result<(Vec<Item>, Vec<Item>), AllocError>
    requires { 0 < length items.items }
    ensures { IfOk result (λ r. (i : ItemValue) →
        Contains items.items i ↔ (Contains r.0.items i ⊎ Contains r.1.items i)) }
{
    let mut items = items;
    let (low, median, high) = parts_at_median(items.as_mut_slice(), around);
    let low = Vec::from_slice(alloc, low)?;
    let mut rest = Vec::with_capacity(alloc, high.len().saturating_add(1))?;
    rest.push(*median)?;
    rest.extend_from_slice(high)?;
    Ok((low, rest))
}

/// Stores the answer of each box at its index, dividing them at most `depth` times.
fn fill(
    alloc: Global,
    mets: &mut Vec<Met>,
    items: Vec<Item>,
    common: &[u32],
    rectangles: &[Rectangle],
    depth: u32,
) -> Result<(), AllocError>
    requires { CanBeFilled (length mets.old.items) items.items }
    ensures { OnOk result (Fills common.now rectangles.now items.items mets.old.items mets.new.items) }
{
    let around = hull(items.as_slice());
    let near = parts_near(alloc, &around, common, rectangles)?;
    let (common, some) = (near.common.as_slice(), near.rectangles.as_slice());
    if depth == 0 || items.len() <= FEW || some.len() <= FEW {
        return fill_each(alloc, mets, items.as_slice(), common, some);
    }
    let (low, high) = halves(alloc, items, &around)?;
    fill(alloc, mets, low, common, some, depth - 1)?;
    fill(alloc, mets, high, common, some, depth - 1)
}

/// The boxes with their indices.
fn items(alloc: Global, boxes: &[Box2]) -> Result<Vec<Item>, AllocError>
    ensures { IfOk result (λ v. AreItemsOf boxes.now v.items) }
{
    let mut items = Vec::with_capacity(alloc, boxes.len())?;
    for (place, area) in boxes.iter().enumerate() {
        items.push(Item { place, area: *area })?;
    }
    Ok(items)
}

/// `count` empty lists of numbers.
fn none(alloc: Global, count: usize) -> Result<Vec<Met>, AllocError>
    ensures count { IfOk result (λ v. length v.items ≡ count) }
{
    let mut mets = Vec::with_capacity(alloc, count)?;
    for place in 0..count {
        mets.push(Met::none())?;
    }
    Ok(mets)
}

/// For each closed box, the origins of the rectangles that have a closed unit square which shares a point with the box. The origins are ascending,
/// each once, and the lists are in the order of the boxes.
///
/// Cost for `n` boxes and `m` rectangles: about `n` for the halvings of each depth, one test of a rectangle for each part of the
/// boxes that its border passes, and a sort of each box's answer. On evenly spread input that is `(n + m) log n`. A rectangle
/// across all boxes is tested in about the square root of `n` parts. Boxes that all overlap can't be separated; each is then
/// tested with each rectangle whose border passes them.
///
/// # Errors
/// Out of memory.
pub fn met_origins(
    alloc: Global,
    rectangles: &[Rectangle],
    boxes: &[Box2],
) -> Result<Vec<Met>, AllocError>
    requires areas { All (λ r. HasArea r.area) rectangles.now }
    requires ordered { All IsOrdered boxes.now }
    ensures { IfOk result (λ v. AreMetOrigins rectangles.now boxes.now v.items) }
{
    let items = items(alloc, boxes)?;
    let mut mets = none(alloc, boxes.len())?;
    fill(alloc, &mut mets, items, &[], rectangles, MAX_DEPTH)?;
    Ok(mets)
}
