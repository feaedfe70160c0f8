//! Decides which instances a walk enters, and which shapes it gives.

ghost use Rattle.std.specs.Prelude.{◌≡◌, option_map};
ghost use Rattle.mpw_structures.specs.Element.{IsElement};
ghost use Rattle.mpw_hier.specs.Boxes.{element_box, placed_box};
ghost use Rattle.mpw_hier.specs.Sizes.{IsExtentNear};
ghost use Rattle.mpw_walk.specs.Frames.{IsWithin};
ghost use Rattle.mpw_walk.specs.Turns.{give};
ghost use Rattle.mpw_walk.specs.Way.{item_of};
ghost use Rattle.mpw_walk.specs.Window.{do_meet, is_in, is_taken};

use crate::fit::placed_box;
use crate::root::Placed;
use mpw_geom::{Box2, Placing};
use mpw_hier::element_box;

/// Whether the closed boxes share a point.
fn do_meet(a: Box2, b: Box2) -> bool
    ensures { result ≡ do_meet a b }
{
    a.meets(b)
}

/// Whether the image of a near box, if there is one, touches the window. Without a window it does.
pub fn is_in(window: Option<Box2>, placing: Placing, b: Option<Box2>) -> bool
    requires near { IsExtentNear b }
    requires short { IsWithin placing.by }
    ensures { result ≡ is_in window (option_map (placed_box placing) b) }
{
    let Some(window) = window else {
        return true;
    };
    match b {
        Some(b) => do_meet(placed_box(placing, b), window),
        None => false,
    }
}

/// Whether a shape touches the window. With a window it takes time linear in the shape's points.
pub fn is_given(window: Option<Box2>, placed: &Placed) -> bool
    requires element { IsElement placed.now.element.now }
    requires near { IsExtentNear (element_box placed.now.element.now) }
    requires short { IsWithin placed.now.placing.by }
    ensures { result ≡ is_taken window (give (item_of placed.now)) }
{
    if window.is_none() {
        return true;
    }
    is_in(window, placed.placing, element_box(placed.element))
}
