//! Grids of cells.

ghost use Rattle.std.specs.Prelude.{◌≡◌, ◌↔◌, ◌≤◌, ◌<◌, ◌^◌, ℕ, ◌+◌, ◌*◌, pos, ◌+ℤ◌, true, IfSome, IfNone};
ghost use Rattle.mpw_geom.specs.Plane.{IsBoxInPlane, IsOrdered, HasArea, has_point};
ghost use Rattle.mpw_tiles.specs.Grid.{
  columns,
  rows,
  cells,
  core_at,
  core_of,
  window_at,
  window_of,
  found_cell,
  column_of,
  row_of,
  sides_between,
  IsOnlyCell,
  IsInBlock,
  IsBoxWithin,
  ShareSquare,
};

use crate::span::{sides_between, span};
use mpw_geom::{Box2, Point};
use std::marker::Model;

/// Square cells with one side length that cover a closed extent, from its lower left corner on. Contracts see the
/// extent and the side.
#[derive(Drop)]
pub struct Grid {
    extent: Box2,
    side: u32,
    columns: u32,
    rows: u32,
}

impl Model for Grid {
    ghost use Rattle.mpw_tiles.specs.Grid.{Cells, IsGrid};

    ghost Value = { Cells };

    ghost view = { λ g. record { extent = g.extent; side = g.side } };

    ghost invariant = { λ g. IsGrid (record { extent = g.extent; side = g.side }) g.columns g.rows };
}

/// Cells in consecutive columns and rows: from the first up to before the second.
#[derive(Clone, Copy)]
pub struct Block {
    /// The first column, from 0.
    pub column0: u32,
    /// The column after the last one.
    pub column1: u32,
    /// The first row, from 0.
    pub row0: u32,
    /// The row after the last one.
    pub row1: u32,
}

impl Grid {
    /// The grid of cells with that side, in nm. `None` exactly if it has more than `most` cells. Takes no
    /// memory.
    pub fn of(extent: Box2, side: u32, most: u32) -> Option<Grid>
        requires plane { IsBoxInPlane extent }
        requires ordered { IsOrdered extent }
        requires side { 1 ≤ side }
        ensures some { IfSome result (λ g. g ≡ record { extent = extent; side = side }) }
        ensures few { IfSome result (λ g. cells g ≤ most) }
        ensures none { IfNone result (most < cells (record { extent = extent; side = side })) }
    {
        let columns = column_count(&extent, side);
        let rows = row_count(&extent, side);
        let Some(cells) = rows.checked_mul(columns) else {
            return None;
        };
        if cells > u64::from(most) {
            return None;
        }
        Some(Grid {
            extent,
            side,
            columns: columns as u32,
            rows: rows as u32,
        })
    }

    /// The number of columns, at least 1.
    pub fn columns(&self) -> u32
        ensures { result ≡ columns self.now }
    {
        self.columns
    }

    /// The number of rows, at least 1.
    pub fn rows(&self) -> u32
        ensures { result ≡ rows self.now }
    {
        self.rows
    }

    /// The number of cells.
    pub fn cells(&self) -> u32
        ensures { result ≡ cells self.now }
    {
        self.rows * self.columns
    }

    /// The number of the cell in a column and a row.
    pub fn cell(&self, column: u32, row: u32) -> u32
        requires column { column < columns self.now }
        requires row { row < rows self.now }
        ensures number { result ≡ row * columns self.now + column }
        ensures within { result < cells self.now }
        ensures core { core_of self.now result ≡ core_at self.now column row }
    {
        row * self.columns + column
    }

    /// The half-open core of a cell, in nm. Takes no memory.
    pub fn core(&self, cell: u32) -> Box2
        requires { cell < cells self.now }
        ensures core { result ≡ core_of self.now cell }
        ensures reach { IsBoxWithin (2 ^ 50) result }
        ensures near { (m : ℕ) → IsBoxWithin m self.now.extent → IsBoxWithin (m + 2 ^ 32) result }
    {
        let (x0, y0) = (self.left_of(cell), self.bottom_of(cell));
        let side = i64::from(self.side);
        Box2 {
            x0,
            y0,
            x1: x0 + side,
            y1: y0 + side,
        }
    }

    /// The x coordinate at which the core of a cell begins.
    fn left_of(&self, cell: u32) -> i64
        requires { cell < cells self.now }
        ensures place { result ≡ self.now.extent.x0 +ℤ pos (column_of self.now cell * self.now.side) }
        ensures short { column_of self.now cell * self.now.side ≤ 2 ^ 49 }
    {
        self.extent.x0 + distance(cell % self.columns, self.side)
    }

    /// The y coordinate at which the core of a cell begins.
    fn bottom_of(&self, cell: u32) -> i64
        requires { cell < cells self.now }
        ensures place { result ≡ self.now.extent.y0 +ℤ pos (row_of self.now cell * self.now.side) }
        ensures short { row_of self.now cell * self.now.side ≤ 2 ^ 49 }
    {
        self.extent.y0 + distance(cell / self.columns, self.side)
    }

    /// The window of a cell: its core, extended by the margin on each side. Takes no memory.
    pub fn window(&self, cell: u32, margin: u64) -> Box2
        requires cell { cell < cells self.now }
        requires margin { margin ≤ 2 ^ 32 }
        ensures window { result ≡ window_of self.now margin cell }
        ensures near { (m : ℕ) → IsBoxWithin m self.now.extent → IsBoxWithin (m + 2 ^ 33) result }
    {
        let core = self.core(cell);
        let margin = margin as i64;
        Box2 {
            x0: core.x0 - margin,
            y0: core.y0 - margin,
            x1: core.x1 + margin,
            y1: core.y1 + margin,
        }
    }

    /// The cell whose core has the point, by division. Takes no memory.
    pub fn cell_of(&self, p: Point) -> u32
        requires { has_point self.now.extent p ≡ true }
        ensures found { result ≡ found_cell self.now p }
        ensures only { IsOnlyCell self.now p result }
    {
        self.cell(self.column_at(p), self.row_at(p))
    }

    /// The column of a point of the extent.
    fn column_at(&self, p: Point) -> u32
        requires { has_point self.now.extent p ≡ true }
        ensures place { result ≡ sides_between self.now.side self.now.extent.x0 p.x }
        ensures within { result < columns self.now }
        ensures side { 1 ≤ self.now.side }
    {
        sides_between(self.side, self.extent.x0, p.x) as u32
    }

    /// The row of a point of the extent.
    fn row_at(&self, p: Point) -> u32
        requires { has_point self.now.extent p ≡ true }
        ensures place { result ≡ sides_between self.now.side self.now.extent.y0 p.y }
        ensures within { result < rows self.now }
    {
        sides_between(self.side, self.extent.y0, p.y) as u32
    }

    /// The cells whose windows share a unit square with the box, by division. Takes no memory.
    pub fn meeting(&self, b: Box2, margin: u64) -> Block
        requires plane { IsBoxInPlane b }
        requires area { HasArea b }
        requires margin { margin ≤ 2 ^ 32 }
        ensures columns { result.column1 ≤ columns self.now }
        ensures rows { result.row1 ≤ rows self.now }
        ensures exact { (column row : ℕ) → column < columns self.now → row < rows self.now →
            IsInBlock result column row ↔ ShareSquare (window_at self.now margin column row) b }
    {
        let margin = margin as i64;
        let (side, from) = (self.side, self.extent);
        let (column0, column1) = span(from.x0, side, self.columns, b.x0 - margin, b.x1 + margin);
        let (row0, row1) = span(from.y0, side, self.rows, b.y0 - margin, b.y1 + margin);
        Block {
            column0,
            column1,
            row0,
            row1,
        }
    }
}

/// The columns of a grid over an extent.
fn column_count(extent: &Box2, side: u32) -> u64
    requires plane { IsBoxInPlane extent.now }
    requires side { 1 ≤ side }
    ensures count { result ≡ columns (record { extent = extent.now; side = side }) }
    ensures some { 1 ≤ result }
{
    sides_between(side, extent.x0, extent.x1) + 1
}

/// The rows of a grid over an extent.
fn row_count(extent: &Box2, side: u32) -> u64
    requires plane { IsBoxInPlane extent.now }
    requires side { 1 ≤ side }
    ensures count { result ≡ rows (record { extent = extent.now; side = side }) }
    ensures some { 1 ≤ result }
{
    sides_between(side, extent.y0, extent.y1) + 1
}

/// The length of `count` sides, in nm.
fn distance(count: u32, side: u32) -> i64
    requires { count * side ≤ 2 ^ 50 }
    ensures { result ≡ pos (count * side) }
{
    (u64::from(count) * u64::from(side)) as i64
}
