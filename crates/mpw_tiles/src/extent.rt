//! Computes the extent of placed submissions: the least box that contains the boxes of all their flat shapes.

ghost use Rattle.std.specs.Prelude.{◌≡◌, true, All, IfSome};
ghost use Rattle.mpw_geom.specs.Plane.{IsOrdered};
ghost use Rattle.mpw_hier.specs.Boxes.{hull, placed_box, is_box_near};
ghost use Rattle.mpw_walk.specs.Roots.{root_extent, roots_extent};
ghost use Rattle.mpw_walk.specs.Walk.{IsRoot};

use crate::place::placed_area;
use mpw_geom::Box2;
use mpw_hier::{Shelf, extents_are_least_boxes, hull};
use mpw_walk::Root;

/// The extent of a placed submission; `None` if it has no shapes.
fn root_extent(shelf: &Shelf, root: &Root) -> Option<Box2>
    requires { IsRoot shelf.now root.now }
    ensures extent { result ≡ root_extent shelf.now root.now }
    ensures near { IfSome result (λ b. is_box_near b ≡ true) }
{
    extents_are_least_boxes();
    let extent = shelf.extent(root.submission)?;
    Some(placed_area(&root.placing, &extent))
}

/// The extent of placed submissions, in nm; `None` if they have no shapes. Cost: linear in their number; takes no memory.
pub(crate) fn roots_extent(shelf: &Shelf, roots: &[Root]) -> Option<Box2>
    requires { All (IsRoot shelf.now) roots.now }
    ensures extent { result ≡ roots_extent shelf.now roots.now }
    ensures near { IfSome result (λ b. is_box_near b ≡ true) }
{
    let mut extent = None;
    for root in roots {
        extent = hull(extent, root_extent(shelf, root));
    }
    extent
}
