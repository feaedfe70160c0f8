//! Computes the rectangles of a boundary.

ghost use Rattle.std.specs.Prelude.{◌≡◌, ℤ, All, Contains, IfOk, map};
ghost use Rattle.mpw_geom.specs.Plane.{Square, HasArea, any_has_square};
ghost use Rattle.mpw_shapes.specs.Boundary.{boundary_has};
ghost use Rattle.mpw_shapes.specs.Internal.Edges.{AreApart};

use crate::edge::edges_of;
use crate::sweep::sweep;
use mpw_geom::{Box2, Point};
use std::alloc::{AllocError, Global};

/// The heights of the corners in ascending order, each once. Cost: O(n log n) for n corners.
fn rows_of(alloc: Global, corners: &[Point]) -> Result<Vec<i64>, AllocError>
    ensures heights { IfOk result (λ rows. (y : ℤ) → Contains (map (λ p. p.y) corners.now) y → Contains rows.items y) }
    ensures apart { IfOk result (λ rows. AreApart rows.items) }
{
    let mut rows = heights_of(alloc, corners)?;
    rows.sort_unstable();
    rows.dedup();
    Ok(rows)
}

fn heights_of(alloc: Global, corners: &[Point]) -> Result<Vec<i64>, AllocError>
    ensures { IfOk result (λ rows. rows.items ≡ map (λ p. p.y) corners.now) }
{
    corners.iter().map(|corner| corner.y).collect(alloc)
}

/// Rectangles whose union is the set of unit squares around which the closed boundary winds (GDSII
/// Stream release 6, BOUNDARY and BOX). The edge from the last corner to the first is implied.
///
/// The only error is out of memory. Cost: O((n + m) log n) for n corners and m rectangles. A rectangle that lies on the
/// one before it and has the same width is joined with it. So a simple polygon gives O(n) rectangles. A boundary that
/// crosses itself may give about n * n / 16, since it can cover that many; the limits on shapes don't limit this, since
/// they count it as one shape.
pub(crate) fn boundary_rectangles(alloc: Global, corners: &[Point]) -> Result<Vec<Box2>, AllocError>
    ensures squares { IfOk result (λ boxes. (s : Square) → any_has_square boxes.items s ≡ boundary_has corners.now s) }
    ensures area { IfOk result (λ boxes. All HasArea boxes.items) }
{
    let edges = edges_of(alloc, corners)?;
    let rows = rows_of(alloc, corners)?;
    let boxes = sweep(alloc, &edges, &rows)?;
    Ok(boxes)
}
