//! Finds the elements on some layers.
ghost use Rattle.std.specs.Prelude.{◌≡◌, map, filter, IfOk};
ghost use Rattle.std.specs.List.{list_any};
ghost use Rattle.mpw_geom.specs.Layers.{same_layer};
ghost use Rattle.mpw_firm_skipping.specs.Cuts.{cut_of, cuts_of_layers, is_named};

use crate::cut::Cut;
use crate::elements::elements_of;
use crate::span::ElementSpan;
use mpw_geom::Layer;
use std::alloc::{AllocError, Global};

/// Whether two layers are the same.
fn same_layer(one: Layer, other: Layer) -> bool
    ensures { result ≡ same_layer one other }
{
    (one.layer == other.layer) & (one.datatype == other.datatype)
}

/// Whether the list has the layer.
fn is_among(layers: &[Layer], layer: Layer) -> bool
    ensures { result ≡ list_any (same_layer layer) layers.now }
{
    for other in layers {
        if same_layer(layer, *other) {
            return true;
        }
    }
    false
}

/// Whether an element has a layer and a type that are one of these layers.
pub fn is_named(layers: &[Layer], span: ElementSpan) -> bool
    ensures { result ≡ is_named layers.now span }
{
    match (span.layer, span.datatype) {
        (Some(layer), Some(datatype)) => is_among(layers, Layer { layer, datatype }),
        _ => false,
    }
}

/// The cuts of those of these elements that are on these layers.
fn cuts_among(
    alloc: Global,
    layers: &[Layer],
    spans: &[ElementSpan],
) -> Result<Vec<Cut>, AllocError>
    ensures { IfOk result (λ cuts. cuts.items ≡ map cut_of (filter (is_named layers.now) spans.now)) }
{
    let mut cuts = Vec::new(alloc);
    for span in spans {
        if is_named(layers, *span) {
            let (start, end) = (span.start, span.end);
            cuts.push(Cut { start, end })?;
        }
    }
    Ok(cuts)
}

/// The cuts that leave out the elements of a text on these layers, in order. Cost: that of [`elements_of`], and a comparison of
/// each element with each layer.
///
/// # Errors
/// Out of memory.
pub fn cuts_of_layers(alloc: Global, layers: &[Layer], text: &[u8]) -> Result<Vec<Cut>, AllocError>
    ensures { IfOk result (λ cuts. cuts.items ≡ cuts_of_layers layers.now text.now) }
{
    let spans = elements_of(alloc, text)?;
    cuts_among(alloc, layers, spans.as_slice())
}
