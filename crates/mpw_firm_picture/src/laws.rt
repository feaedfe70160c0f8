//! Laws about the definitions.
ghost use Rattle.mpw_firm_picture.specs.Looks.{LayersLookUnlike, PlacesLookUnlike};

/// No two layers of a picture have the same style, however many there are. Layers at different indices have different styles (`look_of`, which defines
/// the patterns), and two layers of a picture with the same style are equal.
pub fn layers_look_unlike()
    ensures places { PlacesLookUnlike }
    ensures layers { LayersLookUnlike }
{}
