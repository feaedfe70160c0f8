//! Blocks: adjacent columns, compared as one column.
//!
//! If the window of a block has the same content as the window of an earlier block, up to translation, then the columns of the two blocks are identical
//! up to translation too. So the columns of an instance in an array of arrays need one comparison for the instance, not one for each column.

ghost use Rattle.std.specs.Prelude.{◌<◌, ◌≤◌, ◌+◌, ◌-ℤ◌, IfSome, IsTrue, length};
ghost use Rattle.mpw_columns.specs.Internal.Blocks.{IsUprightIn, AreUprightIn, IsBlockAt, IsPart, IsCounterpart, AreCounterparts};
ghost use Rattle.mpw_columns.specs.Internal.Like.{AreContentsOf, AreAlike};

use crate::equal::{distance, is_displaced, is_like, is_same, is_same_axis};
use crate::layout::Layout;
use mpw_columns_contents::Contents;
use mpw_columns_cuts::{Lattice, line_between};
use mpw_columns_keys::Column;
use mpw_edges::Axis;

/// Adjacent columns: the index of the first, their number, and the column that contains them all.
#[derive(Clone, Copy)]
pub(crate) struct Block {
    pub(crate) place: usize,
    pub(crate) count: usize,
    pub(crate) whole: Column,
}

/// The columns of a layout, and for each axis the lines on which its arrays repeat.
#[derive(Clone, Copy)]
pub(crate) struct Columns<'a> {
    pub(crate) layout: &'a Layout<'a>,
    pub(crate) list: &'a [Column],
    pub(crate) vertical: &'a [Lattice],
    pub(crate) horizontal: &'a [Lattice],
}

/// The column that contains `count` columns from index `place` on. `None` if they have two axes, or if the last ends before the first begins.
pub(crate) fn whole_of(
    layout: &Layout<'_>,
    columns: &[Column],
    place: usize,
    count: usize,
) -> Option<Column>
    requires upright { AreUprightIn layout.now columns.now }
    requires some { 0 < count }
    requires within { place + count ≤ length columns.now }
    ensures { IfSome result (λ w. IsUprightIn layout.now w) }
{
    let first = &columns[place];
    let last = &columns[place + (count - 1)];
    if !is_same_axis(first.axis, last.axis) || first.from > last.to {
        return None;
    }
    Some(Column {
        axis: first.axis,
        from: first.from,
        to: last.to,
    })
}

/// Whether a column lies within another one of the same axis.
pub(crate) fn is_part(column: &Column, whole: &Column) -> bool
    ensures { IsTrue result → IsPart column.now whole.now }
{
    is_same_axis(column.axis, whole.axis) && whole.from <= column.from && column.to <= whole.to
}

/// Whether a column of a block is a column of an earlier block, displaced by the distance between the blocks, and lies within the earlier block.
fn is_counterpart(
    layout: &Layout<'_>,
    earlier: &Column,
    block: &Column,
    column: &Column,
    other: &Column,
) -> bool
    requires earlier { IsUprightIn layout.now earlier.now }
    requires block { IsUprightIn layout.now block.now }
    requires column { IsUprightIn layout.now column.now }
    requires other { IsUprightIn layout.now other.now }
    ensures { IsTrue result → IsCounterpart earlier.now (block.now.from -ℤ earlier.now.from) column.now other.now }
{
    if !is_part(column, earlier) {
        return false;
    }
    if !is_displaced(layout, column, other) {
        return false;
    }
    let by = distance(layout, earlier, block);
    is_same(distance(layout, column, other), by)
}

/// Whether each column of a block is the column of an earlier block at the same index, displaced by the distance between the blocks, and lies within
/// the earlier block. Cost: one pass over the columns of the block.
fn are_counterparts(all: &Columns<'_>, earlier: &Block, block: &Block) -> bool
    requires upright { AreUprightIn all.now.layout.now all.now.list.now }
    requires earlier { IsUprightIn all.now.layout.now earlier.now.whole }
    requires block { IsUprightIn all.now.layout.now block.now.whole }
    requires before { earlier.now.place + block.now.count ≤ block.now.place }
    requires within { block.now.place + block.now.count ≤ length all.now.list.now }
    ensures { IsTrue result → AreCounterparts all.now.list.now earlier.now.whole (block.now.whole.from -ℤ earlier.now.whole.from)
        earlier.now.place block.now.place block.now.count }
{
    for k in 0..block.count {
        let column = &all.list[earlier.place + k];
        let other = &all.list[block.place + k];
        if !is_counterpart(all.layout, &earlier.whole, &block.whole, column, other) {
            return false;
        }
    }
    true
}

/// Whether a block comes after an earlier one that has at least as many columns.
fn stands_behind(earlier: &Block, block: &Block) -> bool
    ensures { IsTrue result → earlier.now.place + block.now.count ≤ block.now.place }
{
    earlier.place <= block.place && block.count <= block.place - earlier.place
}

/// Whether a column has this axis and begins before a position.
fn is_left(column: &Column, axis: Axis, cut: i64) -> bool {
    is_same_axis(column.axis, axis) && column.from < cut
}

impl<'a> Columns<'a> {
    /// The block of `count` columns from index `place` on. `None` if they have two axes, or if the last ends before the first begins.
    pub(crate) fn block(&self, place: usize, count: usize) -> Option<Block>
        requires upright { AreUprightIn self.now.layout.now self.now.list.now }
        requires some { 0 < count }
        requires within { place + count ≤ length self.now.list.now }
        ensures { IfSome result (λ b. IsBlockAt self.now.layout.now place count b) }
    {
        let whole = whole_of(self.layout, self.list, place, count)?;
        Some(Block {
            place,
            count,
            whole,
        })
    }

    /// Whether these contents show that the columns of a block are those of an earlier block, up to translation. Cost: linear in the contents and in the
    /// columns of the block. Takes no memory.
    pub(crate) fn are_like(
        &self,
        earlier: &Block,
        first: &Contents,
        block: &Block,
        second: &Contents,
    ) -> bool
        requires upright { AreUprightIn self.now.layout.now self.now.list.now }
        requires earlier { IsUprightIn self.now.layout.now earlier.now.whole }
        requires block { IsUprightIn self.now.layout.now block.now.whole }
        requires within { block.now.place + block.now.count ≤ length self.now.list.now }
        requires first { AreContentsOf self.now.layout.now earlier.now.whole first.now }
        requires second { AreContentsOf self.now.layout.now block.now.whole second.now }
        ensures { IsTrue result → AreAlike self.now.layout.now self.now.list.now earlier.now.place block.now.place block.now.count }
    {
        if !stands_behind(earlier, block) {
            return false;
        }
        if !is_like(self.layout, &earlier.whole, first, &block.whole, second) {
            return false;
        }
        are_counterparts(self, earlier, block)
    }

    /// The lines on which arrays repeat across the edges of an axis.
    fn lattices(&self, axis: Axis) -> &[Lattice] {
        match axis {
            Axis::V => self.vertical,
            Axis::H => self.horizontal,
        }
    }

    /// Whether arrays repeat across the edges of the axis of a column.
    fn may_repeat_along(&self, place: usize) -> bool {
        match self.list.get(place) {
            Some(column) => !self.lattices(column.axis).is_empty(),
            None => false,
        }
    }

    /// Whether arrays repeat across the edges of the axis of the first or the last of `count` columns from index `place` on.
    pub(crate) fn may_repeat(&self, place: usize, count: usize) -> bool {
        self.may_repeat_along(place)
            || self.may_repeat_along(place.saturating_add(count.saturating_sub(1)))
    }

    /// Where `count` columns from index `place` on are cut: the first that is not left of it.
    fn cut(&self, place: usize, count: usize) -> i64
        requires some { 0 < count }
        requires within { place + count ≤ length self.now.list.now }
    {
        let first = &self.list[place];
        let last = &self.list[place + (count - 1)];
        if !is_same_axis(first.axis, last.axis) {
            return i64::MAX;
        }
        let half = first
            .from
            .wrapping_add(last.to.wrapping_sub(first.from) / 2);
        line_between(self.lattices(first.axis), first.from, last.to).unwrap_or(half)
    }

    /// How many of `count` columns from index `place` on form a part that may repeat: those left of a line on which an array of the first column's axis
    /// repeats, or else left of the middle. At least one, and not all.
    pub(crate) fn part(&self, place: usize, count: usize) -> usize
        requires some { 2 ≤ count }
        requires within { place + count ≤ length self.now.list.now }
        ensures some { 0 < result }
        ensures fewer { result < count }
    {
        let (axis, cut) = (self.list[place].axis, self.cut(place, count));
        let mut part = 1;
        for k in 1..count - 1 {
            if is_left(&self.list[place + k], axis, cut) {
                part = k + 1;
            }
        }
        part
    }
}
