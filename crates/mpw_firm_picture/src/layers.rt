//! The layers of a picture.
ghost use Rattle.std.specs.Prelude.{◌≡◌, IfOk, OnOk};
ghost use Rattle.std.specs.List.{list_any, position};
ghost use Rattle.mpw_firm_picture.specs.Looks.{is_layer, with_layer, with_rule, rule_layers, layers_of, place_of};

use mpw_deck::{Check, Rule};
use mpw_geom::Layer;
use mpw_tiles::Rectangle;
use std::alloc::{AllocError, Global};

/// Whether the layers are equal.
pub(crate) fn is_layer(a: Layer, b: Layer) -> bool
    ensures { result ≡ is_layer a b }
{
    a.layer == b.layer && a.datatype == b.datatype
}

/// Whether the list has the layer.
fn is_there(layers: &[Layer], layer: Layer) -> bool
    ensures { result ≡ list_any (is_layer layer) layers.now }
{
    layers.iter().any(|other| is_layer(layer, *other))
}

/// The index of a layer in a list, if it is there.
fn find_layer(layers: &[Layer], layer: Layer) -> Option<usize>
    ensures { result ≡ position (is_layer layer) layers.now }
{
    layers.iter().position(|other| is_layer(layer, *other))
}

/// The index of a layer in a list; the list's length if it isn't there. Cost: linear in the layers.
pub(crate) fn place_of(layers: &[Layer], layer: Layer) -> usize
    ensures { result ≡ place_of layers.now layer }
{
    match find_layer(layers, layer) {
        Some(place) => place,
        None => layers.len(),
    }
}

/// Adds a layer if it isn't there. The only error is out of memory.
fn add_layer(layers: &mut Vec<Layer>, layer: Layer) -> Result<(), AllocError>
    ensures ok { OnOk result (layers.new.items ≡ with_layer layers.old.items layer) }
{
    if !is_there(layers.as_slice(), layer) {
        layers.push(layer)?;
    }
    Ok(())
}

/// Adds the layers of a rule. The only error is out of memory.
fn add_rule(layers: &mut Vec<Layer>, rule: &Rule) -> Result<(), AllocError>
    ensures ok { OnOk result (layers.new.items ≡ with_rule layers.old.items rule.now) }
{
    match rule.check {
        Check::Width(layer) | Check::Space(layer) => add_layer(layers, layer),
        Check::Separation(first, second) | Check::Enclosing(first, second) => {
            add_layer(layers, first)?;
            add_layer(layers, second)
        }
    }
}

/// The layers of the rules, each once. The only error is out of memory.
fn rule_layers(alloc: Global, rules: &[Rule]) -> Result<Vec<Layer>, AllocError>
    ensures { IfOk result (λ layers. layers.items ≡ rule_layers rules.now) }
{
    let mut layers = Vec::new(alloc);
    for rule in rules {
        add_rule(&mut layers, rule)?;
    }
    Ok(layers)
}

/// The layers of a picture: first those of the rules, and then those of its rectangles, each once. The only error is out of
/// memory. Cost: the product of the numbers of rectangles and layers.
pub(crate) fn layers_of(
    alloc: Global,
    rules: &[Rule],
    rectangles: &[Rectangle],
) -> Result<Vec<Layer>, AllocError>
    ensures { IfOk result (λ layers. layers.items ≡ layers_of rules.now rectangles.now) }
{
    let mut layers = rule_layers(alloc, rules)?;
    for rectangle in rectangles {
        add_layer(&mut layers, rectangle.layer)?;
    }
    Ok(layers)
}
