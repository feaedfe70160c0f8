//! Processes one edge of a boundary: turns the rows that it crosses.
//!
//! A node whose rows the edge misses stays as it is. If the edge crosses all rows of a node and none begins or
//! ends there, the node takes one step. Its halves are needed only if rows begin or end, or if an end of the
//! edge lies inside the node.

ghost use Rattle.std.specs.Prelude.{◌≡◌, ◌<◌, ◌+◌, ◌^◌, ◌||◌, ◌&&◌, ◌⊎◌, ◌↔◌, pos, ◌+ℤ◌, ◌<ℤ◌, ◌≤ℤ◌, length, IsTrue, IfOk, OnOk, All, FitsSigned, slice_index_or};
ghost use Rattle.std.specs.Int.{w64};
ghost use Rattle.mpw_geom.specs.Plane.{Square, HasArea, any_has_square};
ghost use Rattle.mpw_shapes.specs.Internal.Edges.{AreFromBelow, is_between};
ghost use Rattle.mpw_shapes.specs.Internal.Rows.{IsBuilt, closes, past, reach, turn_of};
ghost use Rattle.mpw_shapes.specs.Internal.Turned.{IsClearIn, Turned};

use crate::boxes::stack_box;
use crate::edge::Edge;
use crate::rows::{Rows, State, halves_of, node_of};
use mpw_geom::Box2;
use std::alloc::{AllocError, Global};
use std::mem;

/// The rows from `low` to before `high`.
#[derive(Clone, Copy)]
struct Band {
    low: i64,
    high: i64,
}

impl Band {
    /// The rows from one of the list to before a later one.
    fn between(rows: &[i64], from: usize, to: usize) -> Band
        requires from { from < length rows.now }
        requires to { to < length rows.now }
        ensures { result ≡ record { low = slice_index_or rows.now from (pos 0); high = slice_index_or rows.now to (pos 0) } }
    {
        Band {
            low: rows[from],
            high: rows[to],
        }
    }

    fn is_missed_by(self, edge: Edge) -> bool
        ensures { IsTrue result ↔ ((edge.high ≤ℤ self.low) ⊎ (self.high ≤ℤ edge.low)) }
    {
        edge.high <= self.low || self.high <= edge.low
    }

    fn is_crossed_by(self, edge: Edge) -> bool
        ensures { IsTrue result ↔ ((edge.low ≤ℤ self.low) × (self.high ≤ℤ edge.high)) }
    {
        edge.low <= self.low && self.high <= edge.high
    }

    /// The squares of the band from where the state began up to the edge.
    fn box_to(self, edge: Edge, state: State) -> Box2
        ensures { result ≡ record { x0 = state.since; y0 = self.low; x1 = edge.x; y1 = self.high } }
    {
        Box2 {
            x0: state.since,
            y0: self.low,
            x1: edge.x,
            y1: self.high,
        }
    }
}

/// Rows in the same state, right of an edge that crosses them all. Their squares become a box if they end
/// there.
fn turn_state(
    state: State,
    band: Band,
    edge: Edge,
    boxes: &mut Vec<Box2>,
) -> Result<State, AllocError>
    requires fits { FitsSigned w64 (state.winding +ℤ (turn_of edge).winding) }
    requires area { All HasArea boxes.old.items }
    ensures state { IfOk result (λ after. after ≡ past edge state) }
    ensures squares { OnOk result ((s : Square) → any_has_square boxes.new.items s ≡ (any_has_square boxes.old.items s || (is_between band.low band.high s.row && closes edge state s.column))) }
    ensures area { All HasArea boxes.new.items }
{
    let after = state.past(edge);
    if after.winding == 0 {
        stack_box(boxes, band.box_to(edge, state))?;
    }
    Ok(after)
}

/// Turns the rows of a node by an edge, and adds the boxes of the squares that end there. The node has the rows from index `from` of the list to before
/// index `to`.
///
/// The only error is out of memory; the node's rows and the boxes are then unspecified. Cost: O(log n) for n
/// rows, and O(log n) for each run of rows whose squares begin or end there.
#[cycle(turn)]
pub(crate) fn turn(
    alloc: Global,
    node: &mut Rows,
    rows: &[i64],
    from: usize,
    to: usize,
    edge: Edge,
    boxes: &mut Vec<Box2>,
) -> Result<(), AllocError>
    requires order { from < to }
    requires in_range { to < length rows.now }
    requires from_below { AreFromBelow rows.now }
    requires clear { IsClearIn rows.now edge }
    requires built { IsBuilt node.old rows.now from to }
    requires room { (reach node.old +ℤ pos 1) <ℤ pos (2 ^ 63) }
    requires area { All HasArea boxes.old.items }
    ensures { OnOk result (Turned rows.now from to edge node.old node.new boxes.old.items boxes.new.items) }
{
    let band = Band::between(rows, from, to);
    if band.is_missed_by(edge) {
        return Ok(());
    }
    if !band.is_crossed_by(edge) {
        return turn_halves(alloc, node, rows, from, to, edge, boxes);
    }
    if node.gap().hides(edge.turn()) {
        node.raise(edge.turn());
        return Ok(());
    }
    match node {
        Rows::Alike(state) => {
            *state = turn_state(*state, band, edge, boxes)?;
            Ok(())
        }
        Rows::Parted(_) => turn_halves(alloc, node, rows, from, to, edge, boxes),
    }
}

/// Does the same, half by half.
#[cycle(turn)]
fn turn_halves(
    alloc: Global,
    node: &mut Rows,
    rows: &[i64],
    from: usize,
    to: usize,
    edge: Edge,
    boxes: &mut Vec<Box2>,
) -> Result<(), AllocError>
    requires order { from + 1 < to }
    requires in_range { to < length rows.now }
    requires from_below { AreFromBelow rows.now }
    requires clear { IsClearIn rows.now edge }
    requires built { IsBuilt node.old rows.now from to }
    requires room { (reach node.old +ℤ pos 1) <ℤ pos (2 ^ 63) }
    requires area { All HasArea boxes.old.items }
    ensures { OnOk result (Turned rows.now from to edge node.old node.new boxes.old.items boxes.new.items) }
{
    let middle = from + (to - from) / 2;
    let whole = mem::replace(node, Rows::Alike(State::ZERO));
    let mut halves = halves_of(alloc, whole)?;
    turn(alloc, &mut halves.below, rows, from, middle, edge, boxes)?;
    turn(alloc, &mut halves.above, rows, middle, to, edge, boxes)?;
    *node = node_of(halves);
    Ok(())
}
