//! The boxes of two layers, and what the checks find in them.

ghost use Rattle.std.specs.Prelude.{◌≤ℤ◌, pos, negsuc};
ghost use Rattle.mpw_geom.specs.Plane.{IsBoxInPlane};

use mpw_deck::{Check, Rule};
use mpw_edges::{Piece, pieces};
use mpw_geom::{Box2, Name};
use mpw_region::bands;
use std::alloc::{AllocError, Global};

/// The boxes of a layout's two layers.
#[derive(Drop)]
pub struct Drawn {
    /// Those of the check's first layer.
    pub first: Vec<Box2>,
    /// Those of its second layer.
    pub second: Vec<Box2>,
}

/// What is searched for: a check, its distance, and the core of the lower left points.
#[derive(Clone, Copy)]
pub struct Search {
    /// The check, which selects the edges.
    pub check: Check,
    /// Edges nearer than this are too near.
    pub distance: u32,
    /// Half-open; it has the lower left points that are searched for.
    pub core: Box2,
}

/// A coordinate that a core may have: the nearest from -2^48 to 2^48.
fn coordinate(z: i64) -> i64
    ensures low { negsuc 281474976710655 ≤ℤ result }
    ensures high { result ≤ℤ pos 281474976710656 }
{
    z.max(-281_474_976_710_656).min(281_474_976_710_656)
}

/// The core, with its coordinates within the limits.
fn within(core: Box2) -> Box2
    ensures { IsBoxInPlane result }
{
    Box2 {
        x0: coordinate(core.x0),
        y0: coordinate(core.y0),
        x1: coordinate(core.x1),
        y1: coordinate(core.y1),
    }
}

impl Search {
    /// The rule of the check.
    fn rule(&self, alloc: Global) -> Result<Rule, AllocError> {
        match Name::read(alloc, b"rule") {
            Ok(name) => Ok(Rule {
                name,
                check: self.check,
                distance: self.distance,
            }),
            Err(_) => Err(AllocError),
        }
    }
}

/// The box with its coordinates exchanged.
pub fn exchanged_box(b: &Box2) -> Box2 {
    Box2 {
        x0: b.y0,
        y0: b.x0,
        x1: b.y1,
        y1: b.x1,
    }
}

/// The boxes with their coordinates exchanged.
fn exchanged(alloc: Global, boxes: &[Box2]) -> Result<Vec<Box2>, AllocError> {
    let mut all = Vec::new(alloc);
    for b in boxes {
        all.push(exchanged_box(b))?;
    }
    Ok(all)
}

impl Drawn {
    /// The layout with its coordinates exchanged.
    pub fn exchanged(&self, alloc: Global) -> Result<Drawn, AllocError> {
        let first = exchanged(alloc, &self.first)?;
        let second = exchanged(alloc, &self.second)?;
        Ok(Drawn { first, second })
    }

    /// The pieces by cells.
    pub fn by_cells(&self, alloc: Global, search: Search) -> Result<Vec<Piece>, AllocError> {
        let rule = search.rule(alloc)?;
        let core = within(search.core);
        mpw_checks::pieces(alloc, &rule, &self.first, &self.second, core)
    }

    /// The pieces by bands of the whole core.
    pub fn by_bands(&self, alloc: Global, search: Search) -> Result<Vec<Piece>, AllocError> {
        let rule = search.rule(alloc)?;
        let first = bands(alloc, &self.first)?;
        let second = bands(alloc, &self.second)?;
        pieces(alloc, &rule, &first, &second, within(search.core))
    }
}
