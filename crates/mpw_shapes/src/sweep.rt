//! Computes the squares of a boundary from its edges, from left to right.
//!
//! Right of the edges processed so far, each row has a state: its winding number, and where the squares
//! began that are in no box yet. Right of all edges every winding number is 0, and every square is in a
//! box.

ghost use Rattle.std.specs.Prelude.{◌≡◌, ℤ, All, IfOk};
ghost use Rattle.mpw_geom.specs.Plane.{Square, HasArea, any_has_square};
ghost use Rattle.mpw_shapes.specs.Internal.Edges.{AreFromLeft, AreFromBelow, HasEndsAmong, IsBalanced, edges_have};

use crate::edge::Edge;
use crate::rows::{Rows, State};
use crate::turn::turn;
use mpw_geom::Box2;
use std::alloc::{AllocError, Global};

/// The boxes of all the squares around which the edges wind. The only error is out of memory. Cost: O((n + m) log n) for n edges,
/// O(n) rows and m boxes.
pub(crate) fn sweep(alloc: Global, edges: &[Edge], rows: &[i64]) -> Result<Vec<Box2>, AllocError>
    requires from_left { AreFromLeft edges.now }
    requires from_below { AreFromBelow rows.now }
    requires ends { All (HasEndsAmong rows.now) edges.now }
    requires balanced { (row : ℤ) → IsBalanced edges.now row }
    ensures squares { IfOk result (λ boxes. (s : Square) → any_has_square boxes.items s ≡ edges_have edges.now s) }
    ensures area { IfOk result (λ boxes. All HasArea boxes.items) }
{
    let mut boxes = Vec::new(alloc);
    if rows.len() < 2 {
        return Ok(boxes);
    }
    let top = rows.len() - 1;
    let mut node = Rows::Alike(State::ZERO);
    for edge in edges {
        turn(alloc, &mut node, rows, 0, top, *edge, &mut boxes)?;
    }
    Ok(boxes)
}
