//! The unit squares of a layout, painted one by one.

use crate::flat::{Cell, Shown, layer, squares_of};
use anyhow::{Result, bail};
use mpw_geom::Box2;
use std::alloc::{AllocError, Global};

/// The side of a picture, in nm, and its lower left corner.
const SIDE: usize = 3000;

const CORNER: i64 = -1500;

/// The squares of layers 0/0 and 1/0, and of the first six submissions, around the origin.
#[derive(Drop)]
pub struct Picture {
    squares: Vec<u8>,
    reach: Box2,
}

/// The square's index in the picture, or none outside.
fn place(x: i64, y: i64) -> Option<usize> {
    let column = usize::try_from(x.wrapping_sub(CORNER)).ok()?;
    let row = usize::try_from(y.wrapping_sub(CORNER)).ok()?;
    if column < SIDE && row < SIDE {
        Some(row * SIDE + column)
    } else {
        None
    }
}

/// The bits of a shape's layer and submission, or none if the picture has none for them.
fn mark_of(shown: &Shown<'_>) -> Option<u8> {
    let layer = layer(shown.element)?.layer;
    if layer > 1 || shown.origin > 5 {
        return None;
    }
    Some((1u8 << layer) | (4u8 << shown.origin))
}

/// The smallest box that has those squares and this one.
fn reaching(reach: &Box2, cell: Cell) -> Box2 {
    Box2 {
        x0: reach.x0.min(cell.x),
        y0: reach.y0.min(cell.y),
        x1: reach.x1.max(cell.x.saturating_add(1)),
        y1: reach.y1.max(cell.y.saturating_add(1)),
    }
}

impl Picture {
    /// The picture without squares.
    ///
    /// # Errors
    /// Out of memory.
    pub fn new(alloc: Global) -> Result<Picture, AllocError> {
        let squares = vec![in alloc; 0u8; SIDE * SIDE]?;
        let reach = Box2 {
            x0: 0,
            y0: 0,
            x1: 0,
            y1: 0,
        };
        Ok(Picture { squares, reach })
    }

    /// Paints a square, and returns whether it is within the picture.
    fn paint_square(&mut self, cell: Cell, mark: u8) -> bool {
        let place = place(cell.x, cell.y).unwrap_or(usize::MAX);
        let Some(square) = self.squares.get_mut(place) else {
            return false;
        };
        *square |= mark;
        self.reach = reaching(&self.reach, cell);
        true
    }

    /// Paints squares.
    fn paint_squares(&mut self, squares: &[Cell], mark: u8) -> Result<()> {
        for cell in squares {
            if !self.paint_square(*cell, mark) {
                bail!("a square within the picture");
            }
        }
        Ok(())
    }

    /// Paints a shape.
    ///
    /// # Errors
    /// It is on another layer, of another submission or outside, or out of memory.
    pub fn paint(&mut self, alloc: Global, shown: &Shown<'_>) -> Result<()> {
        let Some(mark) = mark_of(shown) else {
            bail!("a layer and a submission of the picture");
        };
        let squares = squares_of(alloc, shown)?;
        self.paint_squares(&squares, mark)
    }

    /// A box that has the origin and all squares.
    pub fn reach(&self) -> Box2 {
        self.reach
    }

    fn marks(&self, x: i64, y: i64) -> u8 {
        match place(x, y) {
            Some(place) => self.squares.get(place).copied().unwrap_or(0),
            None => 0,
        }
    }

    /// Which of the two layers have the square: one bit each.
    pub fn layers(&self, x: i64, y: i64) -> u8 {
        self.marks(x, y) & 3
    }

    /// Whether the layer, 0 or 1, has the square.
    pub fn has(&self, layer: u16, x: i64, y: i64) -> bool {
        layer <= 1 && self.marks(x, y) & (1u8 << (layer & 1)) != 0
    }

    /// Whether the submission, 0 to 5, has the square, on any layer.
    pub fn is_of(&self, origin: u32, x: i64, y: i64) -> bool {
        origin <= 5 && self.marks(x, y) & (4u8 << (origin % 6)) != 0
    }
}
