//! A list of layers that no rule names, each once, at most 64.

ghost use Rattle.std.specs.Prelude.{◌≡◌, [], IfOk};
ghost use Rattle.std.specs.List.{list_any};
ghost use Rattle.mpw_geom.specs.Layers.{same_layer};
ghost use Rattle.mpw_firm_layers.specs.Unnamed.{with_layer, with_shape};
ghost use Rattle.mpw_firm_layers.specs.Internal.Gathered.{with_layers, with_shapes};

use crate::layer::same_layer;
use crate::named::is_named;
use mpw_deck::Rule;
use mpw_geom::Layer;
use mpw_structures::Element;
use std::alloc::{AllocError, Global};
use std::marker::Model;

/// The most layers of a list.
const MAX_LAYERS: usize = 64;

/// Layers in order. Contracts see them as a list.
pub struct Layers {
    items: Vec<Layer>,
}

impl Drop for Layers {
    fn drop(self) {
        let Layers { items } = self;
        drop(items);
    }
}

impl Model for Layers {
    ghost use Rattle.std.specs.Prelude.{List};
    ghost use Rattle.mpw_geom.specs.declared.plane.Layer.{Layer};

    ghost Value = { List Layer };

    ghost view = { λ layers. layers.items.items };
}

/// Whether the list has the layer.
fn is_there(layers: &[Layer], layer: Layer) -> bool
    ensures { result ≡ list_any (same_layer layer) layers.now }
{
    for other in layers {
        if same_layer(layer, *other) {
            return true;
        }
    }
    false
}

impl Layers {
    /// The empty list. Takes no memory.
    pub(crate) fn new(alloc: Global) -> Layers
        ensures { result ≡ [] }
    {
        Layers {
            items: Vec::new(alloc),
        }
    }

    /// The layers as a slice.
    pub fn as_slice(&self) -> &[Layer]
        ensures { result.now ≡ self.now }
    {
        self.items.as_slice()
    }

    /// Adds a layer if no rule names it, it isn't there, and there are fewer than 64. Cost: one pass over the layers, and over the rules
    /// if it isn't there.
    ///
    /// # Errors
    /// Out of memory.
    pub(crate) fn add(&mut self, rules: &[Rule], layer: Layer) -> Result<(), AllocError>
        ensures { IfOk result (λ _. self.new ≡ with_layer rules.now self.old layer) }
    {
        if is_there(self.items.as_slice(), layer) {
            return Ok(());
        }
        if is_named(rules, layer) {
            return Ok(());
        }
        if self.items.len() < MAX_LAYERS {
            self.items.push(layer)?;
        }
        Ok(())
    }

    /// Adds the layer of a shape in the same way. A reference has none.
    ///
    /// # Errors
    /// Out of memory.
    fn add_shape(&mut self, rules: &[Rule], element: &Element) -> Result<(), AllocError>
        ensures { IfOk result (λ _. self.new ≡ with_shape rules.now self.old element.now) }
    {
        match element {
            Element::Boundary(boundary) => self.add(rules, boundary.layer),
            Element::Path(path) => self.add(rules, path.get().layer),
            Element::Reference(_) => Ok(()),
        }
    }

    /// Adds the layers of elements in the same way, one after another.
    ///
    /// # Errors
    /// Out of memory.
    pub(crate) fn add_shapes(
        &mut self,
        rules: &[Rule],
        elements: &[Element],
    ) -> Result<(), AllocError>
        ensures { IfOk result (λ _. self.new ≡ with_shapes rules.now self.old elements.now) }
    {
        for element in elements {
            self.add_shape(rules, element)?;
        }
        Ok(())
    }

    /// Adds other layers in the same way, one after another.
    ///
    /// # Errors
    /// Out of memory.
    pub(crate) fn add_all(&mut self, rules: &[Rule], layers: &[Layer]) -> Result<(), AllocError>
        ensures { IfOk result (λ _. self.new ≡ with_layers rules.now self.old layers.now) }
    {
        for layer in layers {
            self.add(rules, *layer)?;
        }
        Ok(())
    }
}
