//! Which shapes are on a layer.

ghost use Rattle.std.specs.Prelude.{◌≡◌};
ghost use Rattle.mpw_geom.specs.Layers.{same_layer};
ghost use Rattle.mpw_firm_layers.specs.Layers.{is_on};

use mpw_geom::Layer;
use mpw_structures::Element;

/// Whether two layers are the same.
pub fn same_layer(one: Layer, other: Layer) -> bool
    ensures { result ≡ same_layer one other }
{
    (one.layer == other.layer) & (one.datatype == other.datatype)
}

/// Whether a shape is on a layer. A reference is on none.
pub fn is_on(element: &Element, layer: Layer) -> bool
    ensures { result ≡ is_on layer element.now }
{
    match element {
        Element::Boundary(boundary) => same_layer(boundary.layer, layer),
        Element::Path(path) => same_layer(path.get().layer, layer),
        Element::Reference(_) => false,
    }
}
