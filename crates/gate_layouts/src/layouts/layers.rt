//! On which layers shapes are.

use anyhow::{Result, bail};
use gate_plain::{Shown, layer};
use mpw_firm_layers::{layer_count, shows, unnamed_layers};
use mpw_geom::Layer;
use mpw_hier::Shelf;
use mpw_walk::Root;
use std::alloc::{AllocError, Global};
use std::slice;

/// The most layers that are printed.
const MAX_LAYERS: usize = 64;

/// A layer that no shape of a random shelf is on.
const NO_LAYER: Layer = Layer {
    layer: 0,
    datatype: 2,
};

/// Prints the layers of a submission's shapes, in the order in which they come, at most 64, with how many shapes are on each.
pub fn print_layers(rt: &HostRuntime, shelf: &Shelf, number: u32) -> Result<()> {
    if number as usize >= shelf.submissions().len() {
        bail!("a submission");
    }
    let root = Root::at_origin(shelf, number);
    let roots = slice::from_ref(&root);
    for layer in unnamed_layers(rt.alloc(), shelf, roots, &[])?.as_slice() {
        let count = layer_count(rt.alloc(), shelf, roots, *layer)?;
        println!(rt; "    {}/{} {count}", layer.layer, layer.datatype)?;
    }
    Ok(())
}

/// How many shapes of a flat list are on a layer.
fn number_on(list: &[Shown<'_>], wanted: Layer) -> usize {
    let mut count = 0usize;
    for shown in list {
        if layer(shown.element) == Some(wanted) {
            count = count.wrapping_add(1);
        }
    }
    count
}

/// The layers of a flat list, each once, in the order in which they come, at most 64.
fn layers_of(alloc: Global, list: &[Shown<'_>]) -> Result<Vec<Layer>, AllocError> {
    let mut layers = Vec::new(alloc);
    for shown in list {
        let layer = layer(shown.element).unwrap_or(NO_LAYER);
        if layers.len() < MAX_LAYERS && !layers.contains(&layer) {
            layers.push(layer)?;
        }
    }
    Ok(layers)
}

/// The shapes of roots, by a shelf and as a flat list.
#[derive(Clone, Copy)]
pub struct Both<'a> {
    /// The shelf.
    pub shelf: &'a Shelf,
    /// The roots over it.
    pub roots: &'a [Root],
    /// Their flat list.
    pub list: &'a [Shown<'a>],
}

impl Both<'_> {
    /// Whether nodes have the same number of shapes on a layer as the flat list, and say correctly whether there is one.
    fn agree_on(&self, alloc: Global, layer: Layer) -> Result<bool, AllocError> {
        let count = number_on(self.list, layer);
        let counted = layer_count(alloc, self.shelf, self.roots, layer)?;
        let is_shown = shows(alloc, self.shelf, self.roots, layer)?;
        Ok(counted == count && is_shown == (count > 0))
    }

    /// Whether nodes have the same layers as the flat list, and the same number of shapes on each and on another one.
    pub fn agree(&self, alloc: Global) -> Result<bool, AllocError> {
        let layers = layers_of(alloc, self.list)?;
        let told = unnamed_layers(alloc, self.shelf, self.roots, &[])?;
        let mut agree = told.as_slice() == layers.as_slice();
        for layer in &layers {
            agree &= self.agree_on(alloc, *layer)?;
        }
        Ok(agree && self.agree_on(alloc, NO_LAYER)?)
    }
}
