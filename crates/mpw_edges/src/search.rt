//! Finds the pieces of a core.

ghost use Rattle.std.specs.Prelude.{◌≡◌, ◌↔◌, ◌++◌, ℤ, IfOk, map, Contains, AllPairs};
ghost use Rattle.mpw_region.specs.declared.runs.Line.{Line as LineValue};
ghost use Rattle.mpw_region.specs.Runs.{CoversPlace, AreApart};
ghost use Rattle.mpw_region.specs.Squares.{covers};
ghost use Rattle.mpw_region.specs.Banded.{AreBands};
ghost use Rattle.mpw_edges.specs.declared.run.Axis.TheVariants.{V, H};
ghost use Rattle.mpw_edges.specs.declared.run.Piece.{Piece as PieceValue};
ghost use Rattle.mpw_edges.specs.Pieces.{
  HasStep,
  HasVerticalStep,
  IsPiece,
  ComesBefore,
  piece_of,
};

use crate::edges::runs;
use crate::run::{Axis, Piece};
use mpw_deck::Rule;
use mpw_geom::Box2;
use mpw_region::{Bands, Run, exchanged_box, join_runs};
use std::alloc::{AllocError, Global};

/// The maximal runs of rows with a pair step between vertical edges of the bands with these boxes. The line
/// of a run has the side, `x1` and `x2`. They are what [`pieces`] finds on axis `V`, for a caller that finds
/// the steps of many cores and joins their runs.
///
/// Cost for `k` runs before they are joined: that of finding them (see [`pieces`]) and `k log k`.
///
/// # Errors
/// Out of memory.
pub fn vertical_steps(
    alloc: Global,
    rule: &Rule,
    first: &[Box2],
    second: &[Box2],
    core: Box2,
) -> Result<Vec<Run>, AllocError>
    requires first { AreBands first.now }
    requires second { AreBands second.now }
    ensures places { IfOk result (λ v. (line : LineValue) (j : ℤ) → CoversPlace v.items line j
        ↔ HasVerticalStep rule.now (covers first.now) (covers second.now) core
        line.side line.first line.second j) }
    ensures apart { IfOk result (λ v. AreApart v.items) }
{
    let found = runs(alloc, rule, first, second, core)?;
    join_runs(alloc, found)
}

/// The maximal runs of rows with a pair step of the rule on the axis inside the core.
fn steps(
    alloc: Global,
    rule: &Rule,
    axis: Axis,
    first: &Bands,
    second: &Bands,
    core: Box2,
) -> Result<Vec<Run>, AllocError>
    ensures places { IfOk result (λ v. (line : LineValue) (j : ℤ) → CoversPlace v.items line j
        ↔ HasStep rule.now (covers first.now) (covers second.now) core axis
        line.side line.first line.second j) }
    ensures apart { IfOk result (λ v. AreApart v.items) }
{
    match axis {
        Axis::V => vertical_steps(alloc, rule, first.as_slice(), second.as_slice(), core),
        Axis::H => {
            let core = exchanged_box(&core);
            vertical_steps(alloc, rule, first.columns(), second.columns(), core)
        }
    }
}

/// The runs as pieces of an axis.
fn pieces_on(alloc: Global, axis: Axis, runs: &[Run]) -> Result<Vec<Piece>, AllocError>
    ensures { IfOk result (λ v. v.items ≡ map (piece_of axis) runs.now) }
{
    runs.iter()
        .map(|r| Piece {
            axis,
            side: r.line.side,
            x1: r.line.first,
            x2: r.line.second,
            y0: r.from,
            y1: r.to,
        })
        .collect(alloc)
}

/// The runs of both axes as pieces, those of axis `V` first. One pass.
///
/// # Errors
/// Out of memory.
pub fn pieces_of(
    alloc: Global,
    vertical: &[Run],
    horizontal: &[Run],
) -> Result<Vec<Piece>, AllocError>
    ensures { IfOk result (λ v.
        v.items ≡ map (piece_of V) vertical.now ++ map (piece_of H) horizontal.now) }
{
    let mut pieces = pieces_on(alloc, Axis::V, vertical)?;
    let more = pieces_on(alloc, Axis::H, horizontal)?;
    pieces.extend_from_slice(more.as_slice())?;
    Ok(pieces)
}

/// What the rule finds in the half-open core, from `(x0, y0)` to before `(x1, y1)`: the maximal runs of
/// rows with the same pair step, ordered by axis, side, `x1`, `x2` and `y0`. `first` is the region of
/// the check's first layer, `second` that of its second; a check of one layer ignores `second`.
///
/// A pair step of axis `V` in row `j` belongs to the core with the point `(x1, j)`; on axis `H` the
/// coordinates are exchanged. So the result depends only on the squares of the core, extended on
/// each side by the distance plus 1.
///
/// Cost on each axis: one test for each box for a width. For the other checks, in each two bands of
/// the regions with rows in common, a binary search for each box of the first, and the pairs found,
/// which are split where a band ends; each list of bands is visited once. Then the runs are sorted
/// and joined.
///
/// # Errors
/// Out of memory.
pub fn pieces(
    alloc: Global,
    rule: &Rule,
    first: &Bands,
    second: &Bands,
    core: Box2,
) -> Result<Vec<Piece>, AllocError>
    ensures exact { IfOk result (λ v. (p : PieceValue) →
        Contains v.items p ↔ IsPiece rule.now (covers first.now) (covers second.now) core p) }
    ensures ordered { IfOk result (λ v. AllPairs ComesBefore v.items) }
{
    let vertical = steps(alloc, rule, Axis::V, first, second, core)?;
    let horizontal = steps(alloc, rule, Axis::H, first, second, core)?;
    pieces_of(alloc, vertical.as_slice(), horizontal.as_slice())
}
