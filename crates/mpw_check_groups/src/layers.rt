//! The layers of rules, and which elements stay if only shapes on these are left.

ghost use Rattle.std.specs.Prelude.{◌≡◌, ◌||◌, IfOk, OnOk};
ghost use Rattle.mpw_geom.specs.Layers.{same_layer};
ghost use Rattle.mpw_geom.specs.declared.plane.Layer.{Layer as LayerValue};
ghost use Rattle.mpw_check_groups.specs.Layers.{is_of, is_named, is_among, stays};

use mpw_deck::{Check, Rule};
use mpw_geom::Layer;
use mpw_structures::Element;
use std::alloc::{AllocError, Global};

/// Whether two layers are the same.
pub fn same_layer(a: Layer, b: Layer) -> bool
    ensures { result ≡ same_layer a b }
{
    (a.layer == b.layer) & (a.datatype == b.datatype)
}

/// Whether the list has the layer.
pub fn is_among(layers: &[Layer], layer: Layer) -> bool
    ensures { result ≡ is_among layers.now layer }
{
    for own in layers {
        if same_layer(*own, layer) {
            return true;
        }
    }
    false
}

/// Whether an element stays: it is a reference, or a shape on one of the layers.
pub fn stays(layers: &[Layer], element: &Element) -> bool
    ensures { result ≡ stays (is_among layers.now) element.now }
{
    match element {
        Element::Boundary(boundary) => is_among(layers, boundary.layer),
        Element::Path(path) => is_among(layers, path.get().layer),
        Element::Reference(_) => true,
    }
}

/// Adds the layer if the list doesn't have it. The only error is out of memory.
fn add_layer(layers: &mut Vec<Layer>, layer: Layer) -> Result<(), AllocError>
    ensures { OnOk result ((other : LayerValue) → is_among layers.new.items other ≡ (is_among layers.old.items other || same_layer layer other)) }
{
    if is_among(layers.as_slice(), layer) {
        return Ok(());
    }
    layers.push(layer)?;
    Ok(())
}

/// Adds the layers of a check. The only error is out of memory.
pub fn add_layers(layers: &mut Vec<Layer>, check: Check) -> Result<(), AllocError>
    ensures { OnOk result ((other : LayerValue) → is_among layers.new.items other ≡ (is_among layers.old.items other || is_of check other)) }
{
    match check {
        Check::Width(layer) => add_layer(layers, layer),
        Check::Space(layer) => add_layer(layers, layer),
        Check::Separation(first, second) => {
            add_layer(layers, first)?;
            add_layer(layers, second)
        }
        Check::Enclosing(outer, inner) => {
            add_layer(layers, outer)?;
            add_layer(layers, inner)
        }
    }
}

/// The layers of rules, each once. Cost: quadratic in the rules. The only error is out of memory.
pub fn layers_of_rules(alloc: Global, rules: &[Rule]) -> Result<Vec<Layer>, AllocError>
    ensures { IfOk result (λ v. (layer : LayerValue) → is_among v.items layer ≡ is_named rules.now layer) }
{
    let mut layers = Vec::new(alloc);
    for rule in rules {
        add_layers(&mut layers, rule.check)?;
    }
    Ok(layers)
}
