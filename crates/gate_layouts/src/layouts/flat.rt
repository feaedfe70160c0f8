//! What a walk must give: the flat list by plain recursion.

use gate_plain::{Affine, Shown, layer};
use mpw_walk::{Placed, Walk};

/// Whether a walk gives a shape of the list.
fn is_shown(placed: &Placed<'_>, shown: &Shown<'_>) -> bool {
    placed.origin == shown.origin
        && Affine::of(placed.placing) == shown.map
        && layer(placed.element) == layer(shown.element)
}

/// Whether the walk gives the list and then ends.
pub fn gives(walk: &mut Walk, list: &[Shown<'_>]) -> bool {
    for shown in list {
        match walk.next() {
            Some(placed) if is_shown(&placed, shown) => {}
            _ => return false,
        }
    }
    walk.next().is_none()
}
