//! Decides which layers rules name.

ghost use Rattle.std.specs.Prelude.{◌≡◌};
ghost use Rattle.mpw_firm_layers.specs.Unnamed.{is_named, names};

use crate::layer::same_layer;
use mpw_deck::{Check, Rule};
use mpw_geom::Layer;

/// Whether a check names a layer.
fn names(check: Check, layer: Layer) -> bool
    ensures { result ≡ names layer check }
{
    match check {
        Check::Width(one) | Check::Space(one) => same_layer(one, layer),
        Check::Separation(one, other) | Check::Enclosing(one, other) => {
            same_layer(one, layer) | same_layer(other, layer)
        }
    }
}

/// Whether one of these rules names a layer. One pass over them.
pub fn is_named(rules: &[Rule], layer: Layer) -> bool
    ensures { result ≡ is_named rules.now layer }
{
    for rule in rules {
        if names(rule.check, layer) {
            return true;
        }
    }
    false
}
