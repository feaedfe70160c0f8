//! Sorts rectangles into the windows of the tiles that they touch.
//!
//! The tiles are found by division, so a rectangle takes constant time and its entries in the lists.

ghost use Rattle.std.specs.Prelude.{◌≡◌, ◌≤◌, ◌<◌, [], length, All, OnOk, IfOk};
ghost use Rattle.mpw_geom.specs.Plane.{IsBoxInPlane};
ghost use Rattle.mpw_tiles.specs.Grid.{columns, rows, column_of, row_of, IsInBlock};
ghost use Rattle.mpw_tiles.specs.Plan.{tiles};
ghost use Rattle.mpw_tiles.specs.Listing.{HasSquareOf, IsListed, AreWindowsOf, ListNear};
ghost use Rattle.mpw_tiles.specs.Internal.Listing.{Lists, IsInRow, AddsSquares};

use crate::grid::Block;
use crate::listing::{Listed, Rectangle, Windows, list_at, windows_from};
use crate::plan::Plan;
use std::alloc::{AllocError, Global};

/// Adds the rectangle to the lists of a row's tiles, from one column up to before another.
fn list_in_row(
    lists: &mut Vec<Listed>,
    plan: &Plan,
    block: &Block,
    row: u32,
    rectangle: &Rectangle,
) -> Result<(), AllocError>
    requires count { length lists.old.items ≡ tiles plan.now }
    requires columns { block.now.column1 ≤ columns plan.now.grid }
    requires row { row < rows plan.now.grid }
    ensures ok { OnOk result (Lists lists.old.items lists.new.items rectangle.now
        (IsInRow plan.now.grid block.now.column0 block.now.column1 row)) }
{
    for column in block.column0..block.column1 {
        let tile = plan.tile(column, row) as usize;
        list_at(lists, tile, *rectangle)?;
    }
    Ok(())
}

/// Adds the rectangle to the lists of a block of tiles.
fn list_in_block(
    lists: &mut Vec<Listed>,
    plan: &Plan,
    block: &Block,
    rectangle: &Rectangle,
) -> Result<(), AllocError>
    requires count { length lists.old.items ≡ tiles plan.now }
    requires columns { block.now.column1 ≤ columns plan.now.grid }
    requires rows { block.now.row1 ≤ rows plan.now.grid }
    ensures ok { OnOk result (Lists lists.old.items lists.new.items rectangle.now
        (λ tile. IsInBlock block.now (column_of plan.now.grid tile) (row_of plan.now.grid tile))) }
{
    for row in block.row0..block.row1 {
        list_in_row(lists, plan, block, row, rectangle)?;
    }
    Ok(())
}

/// Adds the rectangle to the lists of the tiles whose windows share a square with it. The only error is out of
/// memory.
pub(crate) fn list_rectangle(
    lists: &mut Vec<Listed>,
    plan: &Plan,
    rectangle: &Rectangle,
) -> Result<(), AllocError>
    requires count { length lists.old.items ≡ tiles plan.now }
    requires plane { IsBoxInPlane rectangle.now.area }
    ensures ok { OnOk result (AddsSquares plan.now lists.old.items lists.new.items (HasSquareOf rectangle.now)) }
{
    let area = rectangle.area;
    if area.x0 >= area.x1 || area.y0 >= area.y1 {
        return Ok(());
    }
    let block = plan.meeting(area);
    list_in_block(lists, plan, &block, rectangle)?;
    Ok(())
}

/// `count` empty lists. The only error is out of memory.
pub(crate) fn empty_lists(alloc: Global, count: u32) -> Result<Vec<Listed>, AllocError>
    ensures count { IfOk result (λ v. length v.items ≡ count) }
    ensures empty { IfOk result (λ v. All (λ w. w ≡ []) v.items) }
{
    let mut lists = Vec::new(alloc);
    for tile in 0..count {
        lists.push(Listed::new(alloc))?;
    }
    Ok(lists)
}

/// Adds the rectangles to the lists of the windows with which they share squares. The only error is out of memory.
fn list_all(
    lists: &mut Vec<Listed>,
    plan: &Plan,
    rectangles: &[Rectangle],
) -> Result<(), AllocError>
    requires count { length lists.old.items ≡ tiles plan.now }
    requires plane { All (λ r. IsBoxInPlane r.area) rectangles.now }
    ensures ok { OnOk result (AddsSquares plan.now lists.old.items lists.new.items (IsListed rectangles.now)) }
{
    for rectangle in rectangles {
        list_rectangle(lists, plan, rectangle)?;
    }
    Ok(())
}

/// The windows of the plan's tiles over placed rectangles, one for each tile, in order. Each rectangle is listed in the
/// windows with which it shares a unit square, found by division. Cost: linear in the tiles, the rectangles and the
/// entries of the lists.
///
/// # Errors
/// Out of memory.
pub fn windows_of(
    alloc: Global,
    plan: &Plan,
    rectangles: &[Rectangle],
) -> Result<Windows, AllocError>
    requires plane { All (λ r. IsBoxInPlane r.area) rectangles.now }
    ensures windows { IfOk result (AreWindowsOf plan.now (IsListed rectangles.now)) }
    ensures near { IfOk result (ListNear plan.now) }
{
    let mut lists = empty_lists(alloc, plan.tiles())?;
    list_all(&mut lists, plan, rectangles)?;
    windows_from(alloc, lists)
}
