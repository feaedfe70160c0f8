//! What a check looks for along an axis.

ghost use Rattle.std.specs.Prelude.{◌≡◌, ◌↔◌, All, Contains, IfOk, IsTrue, MatchBool, OnOk};
ghost use Rattle.mpw_geom.specs.declared.plane.Layer.{Layer as LayerValue};
ghost use Rattle.mpw_columns.specs.Found.{HasLayers};

use mpw_deck::{Check, Rule};
use mpw_edges::Axis;
use mpw_geom::Layer;
use std::alloc::{AllocError, Global};

/// The rules, their layers, the axis of the edges, and the greatest distance of the rules in nm.
#[derive(Clone, Copy)]
pub(crate) struct Look<'a> {
    pub(crate) rules: &'a [Rule],
    pub(crate) layers: &'a [Layer],
    pub(crate) axis: Axis,
    pub(crate) distance: u32,
}

/// Whether two layers are the same.
pub(crate) fn is_one(a: Layer, b: Layer) -> bool
    ensures { IsTrue result ↔ (a ≡ b) }
{
    a == b
}

/// Whether the list has the layer.
pub(crate) fn has_layer(layers: &[Layer], layer: Layer) -> bool
    ensures { MatchBool result (Contains layers.now layer) (Contains layers.now layer → ⊥) }
{
    for other in layers {
        if is_one(*other, layer) {
            return true;
        }
    }
    false
}

/// Adds the layer if the list doesn't have it.
fn add_layer(layers: &mut Vec<Layer>, layer: Layer) -> Result<(), AllocError>
    ensures has { OnOk result (Contains layers.new.items layer) }
    ensures kept { OnOk result ((other : LayerValue) → Contains layers.old.items other → Contains layers.new.items other) }
{
    if !has_layer(layers.as_slice(), layer) {
        layers.push(layer)?;
    }
    Ok(())
}

/// Adds the layers of a check.
fn add_layers(layers: &mut Vec<Layer>, check: Check) -> Result<(), AllocError>
    ensures has { OnOk result (HasLayers layers.new.items check) }
    ensures kept { OnOk result ((other : LayerValue) → Contains layers.old.items other → Contains layers.new.items other) }
{
    match check {
        Check::Width(layer) => add_layer(layers, layer),
        Check::Space(layer) => add_layer(layers, layer),
        Check::Separation(first, second) => {
            add_layer(layers, first)?;
            add_layer(layers, second)
        }
        Check::Enclosing(outer, inner) => {
            add_layer(layers, outer)?;
            add_layer(layers, inner)
        }
    }
}

/// The layers of the rules, each once.
pub(crate) fn layers_of(alloc: Global, rules: &[Rule]) -> Result<Vec<Layer>, AllocError>
    ensures { IfOk result (λ v. All (λ rule. HasLayers v.items rule.check) rules.now) }
{
    let mut layers = Vec::new(alloc);
    for rule in rules {
        add_layers(&mut layers, rule.check)?;
    }
    Ok(layers)
}
