//! Plans: the tiles over an extent.

ghost use Rattle.std.specs.Prelude.{◌≡◌, ◌↔◌, ◌≤◌, ◌<◌, ◌^◌, ℕ, ◌+◌, ◌*◌, IfOk, IfErr};
ghost use Rattle.mpw_geom.specs.Plane.{IsBoxInPlane, IsOrdered, HasArea};
ghost use Rattle.mpw_tiles.specs.Grid.{columns, rows, column_of, row_of, IsBoxWithin, IsInBlock, ShareSquare};
ghost use Rattle.mpw_tiles.specs.Plan.{greatest_distance, plan_of, tiles, tile_core, tile_window};

use crate::grid::{Block, Grid};
use mpw_deck::{Deck, Rule};
use mpw_geom::Box2;
use std::marker::Model;
use thiserror::Error;

/// The most tiles of a plan.
pub const MAX_TILES: u32 = 4096;

/// A plan would have more than 4096 tiles.
#[derive(Clone, Copy, Debug, PartialEq, Eq, Error)]
#[error("more than 4096 tiles")]
pub struct TooManyTiles;

/// The tiles of an extent. Contracts see their grid and the margin of their windows.
#[derive(Drop)]
pub struct Plan {
    grid: Grid,
    margin: u64,
}

impl Model for Plan {
    ghost use Rattle.mpw_tiles.specs.Plan.{Tiling, IsPlan};

    ghost Value = { Tiling };

    ghost view = { λ p. record { grid = p.grid; margin = p.margin } };

    ghost invariant = { λ p. IsPlan (record { grid = p.grid; margin = p.margin }) };
}

/// The greatest distance of the rules, in nm; 0 without rules. Cost: linear in the rules; takes no memory.
pub fn greatest_distance(rules: &[Rule]) -> u32
    ensures { result ≡ greatest_distance rules.now }
{
    let mut greatest = 0u32;
    for rule in rules {
        greatest = greatest.max(rule.distance);
    }
    greatest
}

impl Plan {
    /// The tiles over the closed extent, from its lower left corner on, with the deck's side. There are as many columns as it
    /// takes for the extent's greatest x to lie in a core, and rows likewise. A window is wider than its core by the deck's
    /// greatest distance plus 1 on each side. Cost: linear in the rules; takes no memory.
    ///
    /// # Errors
    /// Exactly if there would be more than 4096 tiles.
    pub fn of(extent: Box2, deck: &Deck) -> Result<Plan, TooManyTiles>
        requires plane { IsBoxInPlane extent }
        requires ordered { IsOrdered extent }
        ensures ok { IfOk result (λ plan. plan ≡ plan_of extent deck.now) }
        ensures few { IfOk result (λ plan. tiles plan ≤ 4096) }
        ensures refused { IfErr result (λ _. 4096 < tiles (plan_of extent deck.now)) }
    {
        deck.is_deck();
        let margin = u64::from(greatest_distance(deck.rules().as_slice())) + 1;
        match Grid::of(extent, deck.tile(), MAX_TILES) {
            Some(grid) => Ok(Plan { grid, margin }),
            None => Err(TooManyTiles),
        }
    }

    /// The number of tiles, 1 to 4096. Tiles are numbered row by row from 0.
    pub fn tiles(&self) -> u32
        ensures { result ≡ tiles self.now }
    {
        self.grid.cells()
    }

    /// The half-open core of a tile, in nm. Takes no memory.
    pub fn core(&self, tile: u32) -> Box2
        requires { tile < tiles self.now }
        ensures core { result ≡ tile_core self.now tile }
        ensures near { (m : ℕ) → IsBoxWithin m self.now.grid.extent → IsBoxWithin (m + 2 ^ 32) result }
    {
        self.grid.core(tile)
    }

    /// The window of a tile, in nm. Takes no memory.
    pub fn window(&self, tile: u32) -> Box2
        requires { tile < tiles self.now }
        ensures window { result ≡ tile_window self.now tile }
        ensures near { (m : ℕ) → IsBoxWithin m self.now.grid.extent → IsBoxWithin (m + 2 ^ 33) result }
    {
        self.grid.window(tile, self.margin)
    }

    /// The tiles whose windows share a unit square with the box, by division.
    pub(crate) fn meeting(&self, b: Box2) -> Block
        requires plane { IsBoxInPlane b }
        requires area { HasArea b }
        ensures columns { result.column1 ≤ columns self.now.grid }
        ensures rows { result.row1 ≤ rows self.now.grid }
        ensures exact { (tile : ℕ) → tile < tiles self.now → IsInBlock result (column_of self.now.grid tile) (row_of self.now.grid tile)
            ↔ ShareSquare (tile_window self.now tile) b }
    {
        self.grid.meeting(b, self.margin)
    }

    /// The number of the tile in a column and a row.
    pub(crate) fn tile(&self, column: u32, row: u32) -> u32
        requires column { column < columns self.now.grid }
        requires row { row < rows self.now.grid }
        ensures number { result ≡ row * columns self.now.grid + column }
        ensures within { result < tiles self.now }
    {
        self.grid.cell(column, row)
    }
}
