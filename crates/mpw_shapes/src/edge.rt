//! The vertical edges of a boundary.

ghost use Rattle.std.specs.Prelude.{◌≡◌, ◌+◌, ℤ, List, All, Contains, IfOk, OnOk, count_by, if◌then◌else◌, map};
ghost use Rattle.mpw_geom.specs.Plane.{Square};
ghost use Rattle.mpw_shapes.specs.Boundary.{upward, downward, rises_across};
ghost use Rattle.mpw_shapes.specs.Internal.Edges.{AreFromLeft, HasEndsAmong, rises_left, falls_left};
ghost use Rattle.mpw_shapes.specs.Internal.Rows.{turn_of};

use crate::rows::Added;
use mpw_geom::Point;
use std::alloc::{AllocError, Global};

/// A vertical edge of a boundary, from `low` up to `high`, in nm.
#[derive(Clone, Copy)]
pub(crate) struct Edge {
    /// Its x coordinate.
    pub x: i64,
    /// The y coordinate of its lower end.
    pub low: i64,
    /// The y coordinate of its upper end, above `low`.
    pub high: i64,
    /// Whether the boundary runs up along it.
    pub is_up: bool,
}

impl Edge {
    /// What the edge adds to the winding number of the rows that it crosses.
    pub fn turn(self) -> Added
        ensures { result ≡ turn_of self }
    {
        Added {
            winding: if self.is_up { 1 } else { -1 },
        }
    }

    fn between(low: Point, high: Point, is_up: bool) -> Edge
        ensures { result ≡ record { x = low.x; low = low.y; high = high.y; is_up = is_up } }
    {
        Edge {
            x: low.x,
            low: low.y,
            high: high.y,
            is_up,
        }
    }
}

/// Adds the edge between two corners if it goes up or down.
fn push_edge(edges: &mut Vec<Edge>, from: Point, to: Point) -> Result<(), AllocError>
    ensures up { OnOk result ((s : Square) → count_by (rises_left s) edges.new.items ≡ count_by (rises_left s) edges.old.items + (if rises_across s from to then 1 else 0)) }
    ensures down { OnOk result ((s : Square) → count_by (falls_left s) edges.new.items ≡ count_by (falls_left s) edges.old.items + (if rises_across s to from then 1 else 0)) }
    ensures ends { OnOk result ((heights : List ℤ) → Contains heights from.y → Contains heights to.y → All (HasEndsAmong heights) edges.old.items → All (HasEndsAmong heights) edges.new.items) }
{
    if from.y < to.y {
        edges.push(Edge::between(from, to, true))?;
    } else if to.y < from.y {
        edges.push(Edge::between(to, from, false))?;
    }
    Ok(())
}

/// The vertical edges of the closed boundary, from left to right, and from below at the same x.
/// Cost: O(n log n) for n corners.
pub(crate) fn edges_of(alloc: Global, corners: &[Point]) -> Result<Vec<Edge>, AllocError>
    ensures up { IfOk result (λ edges. (s : Square) → count_by (rises_left s) edges.items ≡ upward corners.now s) }
    ensures down { IfOk result (λ edges. (s : Square) → count_by (falls_left s) edges.items ≡ downward corners.now s) }
    ensures ends { IfOk result (λ edges. All (HasEndsAmong (map (λ p. p.y) corners.now)) edges.items) }
    ensures from_left { IfOk result (λ edges. AreFromLeft edges.items) }
{
    let mut edges = edges_in_turn(alloc, corners)?;
    edges.sort_unstable_by_key(|edge| (edge.x, edge.low));
    Ok(edges)
}

/// The vertical edges in the order of the corners, the closing edge first.
fn edges_in_turn(alloc: Global, corners: &[Point]) -> Result<Vec<Edge>, AllocError>
    ensures up { IfOk result (λ edges. (s : Square) → count_by (rises_left s) edges.items ≡ upward corners.now s) }
    ensures down { IfOk result (λ edges. (s : Square) → count_by (falls_left s) edges.items ≡ downward corners.now s) }
    ensures ends { IfOk result (λ edges. All (HasEndsAmong (map (λ p. p.y) corners.now)) edges.items) }
{
    let mut edges = Vec::new(alloc);
    if corners.is_empty() {
        return Ok(edges);
    }
    let mut from = corners[corners.len() - 1];
    for to in corners {
        push_edge(&mut edges, from, *to)?;
        from = *to;
    }
    Ok(edges)
}
