//! The second opinion: a layout as a grid of squares, and a search row by row for each two columns.

use crate::checks::drawn::{Drawn, Search, exchanged_box};
use crate::checks::numbers::SIZE;
use mpw_deck::Check;
use mpw_edges::{Axis, Piece};
use mpw_geom::Box2;
use std::alloc::{AllocError, Global};

/// The squares of a layer, one by one.
#[derive(Drop)]
struct Grid {
    squares: Vec<bool>,
}

/// The index of a square in a grid, or one beyond it.
fn index(x: i64, y: i64) -> usize {
    if x < 0 || y < 0 || x >= SIZE || y >= SIZE {
        return usize::MAX;
    }
    usize::try_from(y.wrapping_mul(SIZE).wrapping_add(x)).unwrap_or(usize::MAX)
}

impl Grid {
    /// The squares of some box that are in the grid.
    fn painted(alloc: Global, boxes: &[Box2]) -> Result<Grid, AllocError> {
        let mut squares = vec![in alloc; false; 4096]?;
        for b in boxes {
            paint(&mut squares, b);
        }
        Ok(Grid { squares })
    }

    fn has(&self, axis: Axis, x: i64, y: i64) -> bool {
        let at = match axis {
            Axis::V => index(x, y),
            Axis::H => index(y, x),
        };
        self.squares.get(at).copied().unwrap_or(false)
    }

    fn rises(&self, axis: Axis, x: i64, y: i64) -> bool {
        self.has(axis, x, y) && !self.has(axis, x.saturating_sub(1), y)
    }

    fn falls(&self, axis: Axis, x: i64, y: i64) -> bool {
        !self.has(axis, x, y) && self.has(axis, x.saturating_sub(1), y)
    }

    fn has_all(&self, axis: Axis, x1: i64, x2: i64, y: i64) -> bool {
        for x in x1..x2 {
            if !self.has(axis, x, y) {
                return false;
            }
        }
        true
    }
}

/// Marks the squares of a box.
fn paint(squares: &mut [bool], b: &Box2) {
    for y in b.y0..b.y1 {
        for x in b.x0..b.x1 {
            if let Some(square) = squares.get_mut(index(x, y)) {
                *square = true;
            }
        }
    }
}

/// A random layout: two layers, and what is searched for.
#[derive(Drop)]
pub struct Layout {
    first: Grid,
    second: Grid,
    search: Search,
}

/// A pair of columns of an axis, and a side.
#[derive(Clone, Copy)]
struct Columns {
    axis: Axis,
    side: u8,
    x1: i64,
    x2: i64,
}

impl Columns {
    fn piece(&self, y0: i64, y1: i64) -> Piece {
        Piece {
            axis: self.axis,
            side: self.side,
            x1: self.x1,
            x2: self.x2,
            y0,
            y1,
        }
    }
}

impl Layout {
    /// The squares of a layout one by one, for a search.
    pub fn painted(alloc: Global, drawn: &Drawn, search: Search) -> Result<Layout, AllocError> {
        let first = Grid::painted(alloc, &drawn.first)?;
        let second = Grid::painted(alloc, &drawn.second)?;
        Ok(Layout {
            first,
            second,
            search,
        })
    }

    fn has_step(&self, at: &Columns, y: i64) -> bool {
        let (a, b) = (&self.first, &self.second);
        let Columns { axis, side, x1, x2 } = *at;
        match (self.search.check, side) {
            (Check::Width(_), 0) => {
                x1 < x2
                    && a.rises(axis, x1, y)
                    && a.falls(axis, x2, y)
                    && a.has_all(axis, x1, x2, y)
            }
            (Check::Space(_), 0) => x1 < x2 && a.falls(axis, x1, y) && a.rises(axis, x2, y),
            (Check::Separation(..), 0) => a.falls(axis, x1, y) && b.rises(axis, x2, y),
            (Check::Separation(..), 1) => b.falls(axis, x1, y) && a.rises(axis, x2, y),
            (Check::Enclosing(..), 0) => a.rises(axis, x1, y) && b.rises(axis, x2, y),
            (Check::Enclosing(..), 1) => b.falls(axis, x1, y) && a.falls(axis, x2, y),
            _ => false,
        }
    }

    /// Adds the runs of rows of a pair of columns.
    fn add_runs(
        &self,
        pieces: &mut Vec<Piece>,
        at: &Columns,
        rows: (i64, i64),
    ) -> Result<(), AllocError> {
        let mut first = rows.0;
        for y in rows.0..rows.1 {
            if !self.has_step(at, y) {
                first = y.saturating_add(1);
            } else if y.saturating_add(1) == rows.1 || !self.has_step(at, y.saturating_add(1)) {
                pieces.push(at.piece(first, y.saturating_add(1)))?;
            }
        }
        Ok(())
    }

    /// Adds the runs of rows of each pair of columns of an axis and a side.
    fn add_side(
        &self,
        pieces: &mut Vec<Piece>,
        axis: Axis,
        side: u8,
        core: &Box2,
    ) -> Result<(), AllocError> {
        for x1 in core.x0..core.x1 {
            for x2 in x1..x1.saturating_add(i64::from(self.search.distance)) {
                let columns = Columns { axis, side, x1, x2 };
                self.add_runs(pieces, &columns, (core.y0, core.y1))?;
            }
        }
        Ok(())
    }

    /// What the check finds, by testing each pair of columns in each row of the core: by axis, side, x1, x2 and row.
    pub fn pieces(&self, alloc: Global) -> Result<Vec<Piece>, AllocError> {
        let (core, across) = (&self.search.core, exchanged_box(&self.search.core));
        let mut pieces = Vec::new(alloc);
        self.add_side(&mut pieces, Axis::V, 0, core)?;
        self.add_side(&mut pieces, Axis::V, 1, core)?;
        self.add_side(&mut pieces, Axis::H, 0, &across)?;
        self.add_side(&mut pieces, Axis::H, 1, &across)?;
        Ok(pieces)
    }
}
