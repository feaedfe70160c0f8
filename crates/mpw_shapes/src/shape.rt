//! Computes the rectangles of an element.

ghost use Rattle.std.specs.Prelude.{◌≡◌, All, IfOk};
ghost use Rattle.mpw_geom.specs.Plane.{Square, HasArea, any_has_square};
ghost use Rattle.mpw_structures.specs.Element.{IsElement};
ghost use Rattle.mpw_shapes.specs.Element.{element_has};
ghost use Rattle.mpw_shapes.specs.Placed.{BoundarySquaresArePlaced, PathSquaresArePlaced};

use crate::boundary::boundary_rectangles;
use crate::path::path_rectangles;
use mpw_geom::Box2;
use mpw_structures::Element;
use std::alloc::{AllocError, Global};

/// Rectangles whose union is the element's set of unit squares, in nm. They may overlap, and each
/// has an area.
///
/// A reference has none. A path of n points gives at most n - 1 rectangles and takes O(n). A boundary
/// of n corners that gives m rectangles takes O((n + m) log n). A simple polygon gives O(n) rectangles.
///
/// # Errors
/// Out of memory.
#[tactic(auto, unfolding(mpw_geom::specs::Plane::any_has_square))]
pub fn rectangles(alloc: Global, element: &Element) -> Result<Vec<Box2>, AllocError>
    requires { IsElement element.now }
    ensures squares { IfOk result (λ boxes. (s : Square) → any_has_square boxes.items s ≡ element_has element.now s) }
    ensures area { IfOk result (λ boxes. All HasArea boxes.items) }
{
    match element {
        Element::Boundary(boundary) => {
            let corners = boundary.points.to_vec(alloc)?;
            boundary_rectangles(alloc, &corners)
        }
        Element::Path(path) => path_rectangles(alloc, path.get()),
        Element::Reference(_) => Ok(Vec::new(alloc)),
    }
}

/// A law about the definitions: a placing takes the unit squares of a boundary or a path exactly to the
/// unit squares of the placed boundary or path.
pub fn squares_are_placed()
    ensures boundaries { BoundarySquaresArePlaced }
    ensures paths { PathSquaresArePlaced }
{}
