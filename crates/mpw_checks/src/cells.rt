//! Cuts a core into strips, by halving it again and again. Each strip has its own bands.
//!
//! Along rows, a core is cut at the middle of its rectangles as long as the halves together are
//! less work. So a strip has few rectangles in a row, however many it has from below to above.
//! Rectangles at a common position aren't divided in vain, and the number of passes over a
//! rectangle is about the number of halvings.

ghost use Rattle.std.specs.Prelude.{◌≡◌, ◌↔◌, ◌≤◌, ℤ, IfOk, OnOk, All, Contains, AllPairs};
ghost use Rattle.mpw_geom.specs.Plane.{IsBoxInPlane};
ghost use Rattle.mpw_region.specs.declared.runs.Line.{Line as LineValue};
ghost use Rattle.mpw_region.specs.Squares.{covers};
ghost use Rattle.mpw_deck.specs.declared.rule.Rule.{Rule as RuleValue};
ghost use Rattle.mpw_edges.specs.declared.run.Axis.TheVariants.{V, H};
ghost use Rattle.mpw_edges.specs.declared.run.Piece.{Piece as PieceValue};
ghost use Rattle.mpw_edges.specs.Pieces.{IsPiece, ComesBefore};
ghost use Rattle.mpw_checks.specs.Internal.Cells.{StepsIn};
ghost use Rattle.mpw_checks.specs.Strips.{IsStrip, FindsIn, AreStrips};
ghost use Rattle.mpw_checks.specs.Internal.Strips.{AddsStrips};

use crate::halves::{Layers, halves, in_window};
use crate::strips::{Strip, Strips, pieces_in};
use mpw_deck::Rule;
use mpw_edges::Piece;
use mpw_geom::Box2;
use mpw_region::{exchange, exchanged_box, row_bands};
use std::alloc::{AllocError, Global};

/// The most halvings of a core.
const MAX_DEPTH: u32 = 60;

/// Adds a strip with the bands of the layers.
fn add_strip(
    alloc: Global,
    strips: &mut Vec<Strip>,
    layers: &Layers,
    core: Box2,
    distance: u32,
) -> Result<(), AllocError>
    ensures { OnOk result (AddsStrips distance strips.old.items strips.new.items
        (λ rule. StepsIn rule layers.now.first.items layers.now.second.items core V)) }
{
    let first = row_bands(alloc, layers.first.as_slice())?;
    let second = row_bands(alloc, layers.second.as_slice())?;
    strips.push(Strip {
        core,
        first,
        second,
    })?;
    Ok(())
}

/// Adds the strips of a core along rows: at most 2^`depth`.
fn add_core(
    alloc: Global,
    strips: &mut Vec<Strip>,
    layers: &Layers,
    core: Box2,
    distance: u32,
    depth: u32,
) -> Result<(), AllocError>
    requires { IsBoxInPlane core }
    ensures { OnOk result (AddsStrips distance strips.old.items strips.new.items
        (λ rule. StepsIn rule layers.now.first.items layers.now.second.items core V)) }
{
    let load = layers.load;
    if depth == 0 || !load.may_be_eased(&core, distance) {
        return add_strip(alloc, strips, layers, core, distance);
    }
    let (left, right) = halves(&core, &load.extent);
    let (first, second) = (layers.first.as_slice(), layers.second.as_slice());
    let low = in_window(alloc, distance, first, second, &left)?;
    let high = in_window(alloc, distance, first, second, &right)?;
    if !load.is_eased_by(&low.load, &high.load) {
        return add_strip(alloc, strips, layers, core, distance);
    }
    add_core(alloc, strips, &low, left, distance, depth - 1)?;
    add_core(alloc, strips, &high, right, distance, depth - 1)
}

/// The strips of a core along rows, for rules with at most that distance.
fn along_rows(
    alloc: Global,
    distance: u32,
    first: &[Box2],
    second: &[Box2],
    core: Box2,
) -> Result<Vec<Strip>, AllocError>
    requires { IsBoxInPlane core }
    ensures steps { IfOk result (λ v. (rule : RuleValue) → rule.distance ≤ distance → (line : LineValue) (j : ℤ) →
        FindsIn v.items rule line j ↔ StepsIn rule first.now second.now core V line j) }
    ensures banded { IfOk result (λ v. All IsStrip v.items) }
{
    let layers = in_window(alloc, distance, first, second, &core)?;
    let mut strips = Vec::new(alloc);
    add_core(alloc, &mut strips, &layers, core, distance, MAX_DEPTH)?;
    Ok(strips)
}

/// The strips of a core along columns, for rules with at most that distance.
fn along_columns(
    alloc: Global,
    distance: u32,
    first: &[Box2],
    second: &[Box2],
    core: Box2,
) -> Result<Vec<Strip>, AllocError>
    requires { IsBoxInPlane core }
    ensures steps { IfOk result (λ v. (rule : RuleValue) → rule.distance ≤ distance → (line : LineValue) (j : ℤ) →
        FindsIn v.items rule line j ↔ StepsIn rule first.now second.now core H line j) }
    ensures banded { IfOk result (λ v. All IsStrip v.items) }
{
    let first = exchange(alloc, first)?;
    let second = exchange(alloc, second)?;
    let core = exchanged_box(&core);
    along_rows(alloc, distance, first.as_slice(), second.as_slice(), core)
}

/// The half-open core in strips, with the bands of two layers, from rectangles in any order that may overlap.
/// The strips serve each rule with at most that distance whose first layer has the rectangles of `first` and
/// whose second layer has those of `second`; a check of one layer ignores `second`.
///
/// Along rows and along columns, the core is halved into strips with few rectangles side by side.
/// Cost: a pass over the rectangles for each halving, and the bands of each strip, which stay in
/// memory.
///
/// # Errors
/// Out of memory.
pub fn strips_of(
    alloc: Global,
    distance: u32,
    first: &[Box2],
    second: &[Box2],
    core: Box2,
) -> Result<Strips, AllocError>
    requires { IsBoxInPlane core }
    ensures { IfOk result (AreStrips distance (covers first.now) (covers second.now) core) }
{
    let rows = along_rows(alloc, distance, first, second, core)?;
    let columns = along_columns(alloc, distance, first, second, core)?;
    Ok(Strips::of(rows, columns))
}

/// What the rule finds in the half-open core, as [`mpw_edges::pieces`] does, from rectangles in any
/// order that may overlap. `first` are those of the check's first layer, `second` those of its
/// second; a check of one layer ignores `second`, which should then be empty.
///
/// Cost: that of [`strips_of`] and of [`pieces_in`].
///
/// # Errors
/// Out of memory.
pub fn pieces(
    alloc: Global,
    rule: &Rule,
    first: &[Box2],
    second: &[Box2],
    core: Box2,
) -> Result<Vec<Piece>, AllocError>
    requires { IsBoxInPlane core }
    ensures exact { IfOk result (λ v. (p : PieceValue) →
        Contains v.items p ↔ IsPiece rule.now (covers first.now) (covers second.now) core p) }
    ensures ordered { IfOk result (λ v. AllPairs ComesBefore v.items) }
{
    let strips = strips_of(alloc, rule.distance, first, second, core)?;
    pieces_in(alloc, rule, &strips)
}
