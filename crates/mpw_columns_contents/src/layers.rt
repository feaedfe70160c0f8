//! Removes the shapes on other layers from contents.

ghost use Rattle.std.specs.Prelude.{◌<◌, length, ◌≡◌, ◌↔◌, IsTrue, All, IfOk, MatchBool, Contains, option_copied};
ghost use Rattle.mpw_hier.specs.Items.{Item};
ghost use Rattle.mpw_columns_contents.specs.Contents.{AreSound, IsBoxed, IsOn, IsThingOn};
ghost use Rattle.mpw_columns_contents.specs.Things.{thing_items, things_items};
ghost use Rattle.mpw_columns_contents.specs.Internal.Layers.{ShowsNone};

use crate::contents::Contents;
use crate::opening::element_of;
use crate::thing::Thing;
use mpw_geom::Layer;
use mpw_hier::Shelf;
use mpw_structures::Element;
use std::alloc::{AllocError, Global};

fn is_one(a: Layer, b: Layer) -> bool
    ensures { IsTrue result ↔ (a ≡ b) }
{
    a == b
}

/// Whether the list has the layer.
fn is_among(layers: &[Layer], layer: Layer) -> bool
    ensures { MatchBool result (Contains layers.now layer) (Contains layers.now layer → ⊥) }
{
    for other in layers {
        if is_one(*other, layer) {
            return true;
        }
    }
    false
}

/// Whether an element is a shape on one of the layers.
fn is_on(layers: &[Layer], element: &Element) -> bool
    ensures { MatchBool result (IsOn layers.now element.now) (IsOn layers.now element.now → ⊥) }
{
    match element {
        Element::Boundary(boundary) => is_among(layers, boundary.layer),
        Element::Path(path) => is_among(layers, path.get().layer),
        Element::Reference(_) => false,
    }
}

/// Whether an entry stays: it is an array, or a shape on one of the layers.
fn stays(shelf: &Shelf, layers: &[Layer], thing: &Thing) -> bool
    requires { 0 < length shelf.now }
    ensures { MatchBool result (IsThingOn shelf.now layers.now thing.now) (ShowsNone layers.now (thing_items shelf.now thing.now)) }
{
    let Thing::Shape(shape) = thing else {
        return true;
    };
    match element_of(shelf, shape) {
        Some(element) => is_on(layers, element),
        None => false,
    }
}

impl Contents {
    /// These contents without the shapes that are on none of the layers. Arrays stay, whatever their layers.
    ///
    /// # Errors
    /// Out of memory.
    pub fn on_layers(
        &self,
        alloc: Global,
        shelf: &Shelf,
        layers: &[Layer],
    ) -> Result<Contents, AllocError>
        requires { 0 < length shelf.now }
        ensures kept { IfOk result (λ things. (i : Item) → Contains (things_items shelf.now self.now) i → IsOn layers.now i.element → Contains (things_items shelf.now things) i) }
        ensures sound { IfOk result (λ things. AreSound (things_items shelf.now self.now) (things_items shelf.now things)) }
        ensures boxed { All (IsBoxed shelf.now) self.now → IfOk result (All (IsBoxed shelf.now)) }
        ensures on { IfOk result (λ things. All (IsThingOn shelf.now layers.now) things) }
    {
        let all = self.things();
        let mut things = Vec::new(alloc);
        for thing in all {
            if !stays(shelf, layers, thing) {
                continue;
            }
            things.push(*thing)?;
        }
        Ok(Contents { things })
    }
}
