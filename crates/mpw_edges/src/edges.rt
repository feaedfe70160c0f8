//! The vertical edges of a region, and which pairs of them each check finds.

ghost use Rattle.std.specs.Prelude.{◌≡◌, ◌<ℤ◌, ◌-ℤ◌, pos, IfOk, OnOk, map};
ghost use Rattle.mpw_region.specs.Internal.Runs.{Adds, Finds};
ghost use Rattle.mpw_region.specs.Squares.{covers};
ghost use Rattle.mpw_region.specs.Banded.{AreBands};
ghost use Rattle.mpw_edges.specs.Steps.{IsWidth, IsSpace};
ghost use Rattle.mpw_edges.specs.Pieces.{IsInCore, HasVerticalStep};
ghost use Rattle.mpw_edges.specs.Internal.Pairs.{
  IsWidthOf,
  IsPairOf,
  IsBetween,
  edge_of,
  rise_of,
  fall_of,
  separation_ends,
  enclosing_ends,
};

use crate::pair::{Edge, Limits, add_pair, add_pairs};
use mpw_deck::{Check, Rule};
use mpw_geom::Box2;
use mpw_region::Run;
use std::alloc::{AllocError, Global};

/// An end of a box from left to right: its beginning or its end.
#[derive(Clone, Copy)]
pub(crate) enum End {
    Rise,
    Fall,
}

/// Which edges of two layers form pairs: those of the first layer with later ones of the second, and those of the second with
/// later ones of the first.
#[derive(Clone, Copy)]
pub(crate) struct Ends {
    pub(crate) forth_from: End,
    pub(crate) forth_to: End,
    pub(crate) back_from: End,
    pub(crate) back_to: End,
}

/// The edge at which a box begins.
fn rise(b: &Box2) -> Edge
    ensures { result ≡ rise_of b.now }
{
    Edge {
        x: b.x0,
        y0: b.y0,
        y1: b.y1,
    }
}

/// The edge at which a box ends.
fn fall(b: &Box2) -> Edge
    ensures { result ≡ fall_of b.now }
{
    Edge {
        x: b.x1,
        y0: b.y0,
        y1: b.y1,
    }
}

/// The edges at one end of boxes, in the order of the boxes.
fn edges(alloc: Global, boxes: &[Box2], end: End) -> Result<Vec<Edge>, AllocError>
    ensures { IfOk result (λ v. v.items ≡ map (edge_of end) boxes.now) }
{
    match end {
        End::Rise => boxes.iter().map(|b| rise(b)).collect(alloc),
        End::Fall => boxes.iter().map(|b| fall(b)).collect(alloc),
    }
}

/// Adds the rows of the pairs on one side: edges at an end of the first boxes with later ones at an end of the second.
fn add_pairs_of(
    alloc: Global,
    runs: &mut Vec<Run>,
    side: u8,
    first: &[Box2],
    from: End,
    second: &[Box2],
    to: End,
    limits: &Limits,
) -> Result<(), AllocError>
    requires first { AreBands first.now }
    requires second { AreBands second.now }
    ensures { OnOk result (Adds runs.old.items runs.new.items
        (IsPairOf side limits.now (map (edge_of from) first.now) (map (edge_of to) second.now))) }
{
    let froms = edges(alloc, first, from)?;
    let tos = edges(alloc, second, to)?;
    add_pairs(runs, side, froms.as_slice(), tos.as_slice(), limits)?;
    Ok(())
}

/// Adds the rows of the two edges of each box.
fn add_widths(runs: &mut Vec<Run>, boxes: &[Box2], limits: &Limits) -> Result<(), AllocError>
    ensures { OnOk result (Adds runs.old.items runs.new.items (IsWidthOf limits.now boxes.now)) }
{
    for b in boxes {
        add_pair(runs, 0, &rise(b), &fall(b), limits)?;
    }
    Ok(())
}

/// The rows of the rises and falls of one layer between which everything is covered.
fn widths(alloc: Global, boxes: &[Box2], distance: u32, core: Box2) -> Result<Vec<Run>, AllocError>
    requires { AreBands boxes.now }
    ensures { IfOk result (λ v. Finds v.items (λ line j.
        (IsWidth (covers boxes.now) line.side line.first line.second j
        × ((line.second -ℤ line.first) <ℤ pos distance)) × IsInCore core line.first j)) }
{
    let mut runs = Vec::with_capacity(alloc, boxes.len())?;
    let limits = Limits::apart(distance, core);
    add_widths(&mut runs, boxes, &limits)?;
    Ok(runs)
}

/// The rows of the falls and later rises of one layer.
fn spaces(alloc: Global, boxes: &[Box2], distance: u32, core: Box2) -> Result<Vec<Run>, AllocError>
    requires { AreBands boxes.now }
    ensures { IfOk result (λ v. Finds v.items (λ line j.
        (IsSpace (covers boxes.now) line.side line.first line.second j
        × ((line.second -ℤ line.first) <ℤ pos distance)) × IsInCore core line.first j)) }
{
    let mut runs = Vec::with_capacity(alloc, boxes.len())?;
    let limits = Limits::apart(distance, core);
    add_pairs_of(
        alloc,
        &mut runs,
        0,
        boxes,
        End::Fall,
        boxes,
        End::Rise,
        &limits,
    )?;
    Ok(runs)
}

/// The rows of edges of each layer and later ones of the other, including touching ones.
fn between(
    alloc: Global,
    first: &[Box2],
    second: &[Box2],
    ends: Ends,
    distance: u32,
    core: Box2,
) -> Result<Vec<Run>, AllocError>
    requires first { AreBands first.now }
    requires second { AreBands second.now }
    ensures { IfOk result (λ v. Finds v.items (IsBetween ends (covers first.now) (covers second.now) distance core)) }
{
    let mut runs = Vec::with_capacity(alloc, first.len().min(second.len()))?;
    let limits = Limits {
        touching: true,
        distance,
        core,
    };
    let (from, to) = (ends.forth_from, ends.forth_to);
    add_pairs_of(alloc, &mut runs, 0, first, from, second, to, &limits)?;
    let (from, to) = (ends.back_from, ends.back_to);
    add_pairs_of(alloc, &mut runs, 1, second, from, first, to, &limits)?;
    Ok(runs)
}

/// The falls of each layer, and later rises of the other.
fn separation() -> Ends
    ensures { result ≡ separation_ends }
{
    Ends {
        forth_from: End::Fall,
        forth_to: End::Rise,
        back_from: End::Fall,
        back_to: End::Rise,
    }
}

/// The rises of the outer layer and later ones of the inner, and the falls of the inner and later ones of the outer.
fn enclosing() -> Ends
    ensures { result ≡ enclosing_ends }
{
    Ends {
        forth_from: End::Rise,
        forth_to: End::Rise,
        back_from: End::Fall,
        back_to: End::Fall,
    }
}

/// The rows with a pair step between vertical edges of the regions' boxes, split where a band of either
/// region ends. Cost: one test for each box for a width, and what [`add_pairs`] takes for the others.
pub(crate) fn runs(
    alloc: Global,
    rule: &Rule,
    first: &[Box2],
    second: &[Box2],
    core: Box2,
) -> Result<Vec<Run>, AllocError>
    requires first { AreBands first.now }
    requires second { AreBands second.now }
    ensures { IfOk result (λ v. Finds v.items (λ line j.
        HasVerticalStep rule.now (covers first.now) (covers second.now) core
        line.side line.first line.second j)) }
{
    let distance = rule.distance;
    match rule.check {
        Check::Width(_) => widths(alloc, first, distance, core),
        Check::Space(_) => spaces(alloc, first, distance, core),
        Check::Separation(..) => between(alloc, first, second, separation(), distance, core),
        Check::Enclosing(..) => between(alloc, first, second, enclosing(), distance, core),
    }
}
