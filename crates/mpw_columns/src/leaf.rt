//! Checks a column that is not halved any more: makes the bands of its layers, and finds the runs of each rule between them.
//!
//! The bands of a layer are made once for all rules. They cover all rows of the column. So what is found is whole: none of it continues in another
//! column.

ghost use Rattle.std.specs.Prelude.{◌≡◌, ◌<◌, ◌≤◌, ◌++◌, ℤ, All, IfOk, OnOk, IsTrue, length, map};
ghost use Rattle.mpw_geom.specs.declared.plane.Box2.{Box2 as BoxValue};
ghost use Rattle.mpw_region.specs.Banded.{AreBands};
ghost use Rattle.mpw_region.specs.Squares.{covers};
ghost use Rattle.mpw_geom.specs.Layers.{same_layer};
ghost use Rattle.mpw_job.specs.Layers.{first_squares, second_squares, Coverage};
ghost use Rattle.mpw_job.specs.Answers.{listed_on};
ghost use Rattle.mpw_columns.specs.Internal.Bands.{banded_on, IsBanded, AreBandsOf};
ghost use Rattle.mpw_columns.specs.Internal.Found.{key_of_run, AddsRule, AddsFirst, AddsFound, IsLook};

use crate::look::Look;
use mpw_deck::{Check, Rule};
use mpw_edges::{Axis, Piece, vertical_steps};
use mpw_geom::{Box2, Layer};
use mpw_markers::Key;
use mpw_region::{Run, row_bands};
use mpw_tiles::Rectangle;
use std::alloc::{AllocError, Global};

/// The bands of a layer.
#[derive(Drop)]
pub(crate) struct Banded {
    pub(crate) layer: Layer,
    pub(crate) boxes: Vec<Box2>,
}

/// Whether two layers are the same.
fn same_layer(a: Layer, b: Layer) -> bool
    ensures { result ≡ same_layer a b }
{
    (a.layer == b.layer) & (a.datatype == b.datatype)
}

/// The areas of the rectangles on the layer. One pass.
fn areas_of(alloc: Global, rectangles: &[Rectangle], layer: Layer) -> Result<Vec<Box2>, AllocError>
    ensures { IfOk result (λ v. (i j : ℤ) → covers v.items i j ≡ listed_on rectangles.now layer i j) }
{
    let mut areas = Vec::new(alloc);
    for rectangle in rectangles {
        if same_layer(rectangle.layer, layer) {
            areas.push(rectangle.area)?;
        }
    }
    Ok(areas)
}

/// The bands of the rectangles on each of the layers.
fn bands_of(
    alloc: Global,
    layers: &[Layer],
    rectangles: &[Rectangle],
) -> Result<Vec<Banded>, AllocError>
    ensures { IfOk result (λ v. AreBandsOf layers.now (listed_on rectangles.now) v.items) }
{
    let mut banded = Vec::with_capacity(alloc, layers.len())?;
    for layer in layers {
        let areas = areas_of(alloc, rectangles, *layer)?;
        let boxes = row_bands(alloc, areas.as_slice())?;
        banded.push(Banded {
            layer: *layer,
            boxes,
        })?;
    }
    Ok(banded)
}

/// The first bands of the layer; an empty slice if there are none.
fn bands_on(banded: &[Banded], layer: Layer) -> &[Box2]
    requires { All IsBanded banded.now }
    ensures banded { AreBands result.now }
    ensures squares { covers result.now ≡ banded_on banded.now layer }
{
    for one in banded {
        if same_layer(one.layer, layer) {
            return one.boxes.as_slice();
        }
    }
    &[]
}

/// The bands of the check's first layer.
fn first_bands(banded: &[Banded], check: Check) -> &[Box2]
    requires { All IsBanded banded.now }
    ensures banded { AreBands result.now }
    ensures squares { covers result.now ≡ first_squares check (banded_on banded.now) }
{
    match check {
        Check::Width(layer) => bands_on(banded, layer),
        Check::Space(layer) => bands_on(banded, layer),
        Check::Separation(first, _) => bands_on(banded, first),
        Check::Enclosing(outer, _) => bands_on(banded, outer),
    }
}

/// The bands of the check's second layer; an empty slice if it has only one layer.
#[tactic(auto, unfolding(mpw_geom::specs::Plane::any_has_square))]
fn second_bands(banded: &[Banded], check: Check) -> &[Box2]
    requires { All IsBanded banded.now }
    ensures banded { AreBands result.now }
    ensures squares { covers result.now ≡ second_squares check (banded_on banded.now) }
{
    match check {
        Check::Width(_) => &[],
        Check::Space(_) => &[],
        Check::Separation(_, second) => bands_on(banded, second),
        Check::Enclosing(_, inner) => bands_on(banded, inner),
    }
}

/// The key of a run of the rule at index `place`.
fn key(place: u32, axis: Axis, run: &Run) -> Key
    ensures { result ≡ key_of_run place axis run.now }
{
    let piece = Piece {
        axis,
        side: run.line.side,
        x1: run.line.first,
        x2: run.line.second,
        y0: run.from,
        y1: run.to,
    };
    Key { rule: place, piece }
}

/// Adds the keys of the runs of the rule at index `place`.
fn add_keys(keys: &mut Vec<Key>, place: u32, axis: Axis, runs: &[Run]) -> Result<(), AllocError>
    ensures { OnOk result (keys.new.items ≡ keys.old.items ++ map (key_of_run place axis) runs.now) }
{
    for run in runs {
        keys.push(key(place, axis, run))?;
    }
    Ok(())
}

/// Adds what the rule at index `place` finds between the bands in the core.
fn add_rule(
    alloc: Global,
    keys: &mut Vec<Key>,
    look: &Look<'_>,
    place: u32,
    banded: &[Banded],
    core: Box2,
) -> Result<(), AllocError>
    requires within { place < length look.now.rules.now }
    requires banded { All IsBanded banded.now }
    ensures { OnOk result (AddsRule place look.now.rules.now look.now.axis (banded_on banded.now) core keys.old.items keys.new.items) }
{
    let rule = &look.rules[place as usize];
    let first = first_bands(banded, rule.check);
    let second = second_bands(banded, rule.check);
    let runs = vertical_steps(alloc, rule, first, second, core)?;
    add_keys(keys, place, look.axis, runs.as_slice())
}

/// Adds what all rules find between the bands in the core.
fn add_rules(
    alloc: Global,
    keys: &mut Vec<Key>,
    look: &Look<'_>,
    banded: &[Banded],
    core: Box2,
) -> Result<(), AllocError>
    requires few { length look.now.rules.now ≤ 256 }
    requires banded { All IsBanded banded.now }
    ensures { OnOk result (AddsFirst (length look.now.rules.now) look.now.rules.now look.now.axis (banded_on banded.now) core keys.old.items keys.new.items) }
{
    for place in 0..look.rules.len() {
        add_rule(alloc, keys, look, place as u32, banded, core)?;
    }
    Ok(())
}

/// Adds what the rules find in the core, from rectangles that are seen along the axis. Cost: the bands of each layer, and for each rule
/// what [`vertical_steps`] takes.
pub(crate) fn add_leaf(
    alloc: Global,
    keys: &mut Vec<Key>,
    look: &Look<'_>,
    rectangles: &[Rectangle],
    core: Box2,
) -> Result<(), AllocError>
    requires { IsLook look.now.rules.now look.now.layers.now look.now.distance }
    ensures { OnOk result (AddsFound look.now.rules.now look.now.axis (listed_on rectangles.now) core keys.old.items keys.new.items) }
{
    let banded = bands_of(alloc, look.layers, rectangles)?;
    add_rules(alloc, keys, look, banded.as_slice(), core)
}
