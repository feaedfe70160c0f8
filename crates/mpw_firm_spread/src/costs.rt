//! Estimates what the check of each column costs. The estimates decide where shares are cut, and nothing else.
//!
//! A column costs its flat shapes at which a rule looks. If few structures have most of the layout, equal parts of a column are checked once. Then the
//! instances of an array count once, and an eighth of all flat shapes is added for the markers that are copied.

ghost use Rattle.std.specs.Prelude.{◌≡◌, ◌≤◌, length, All, IfOk};

use crate::bins::{Bins, Works};
use crate::tree::Tree;
use mpw_columns_cuts::Counts;
use mpw_columns_keys::Column;
use mpw_edges::Axis;
use mpw_geom::Box2;
use mpw_tiles::{Snapshot, greatest_distance};
use std::alloc::{AllocError, Global};

/// How many flat shapes of equal instances cost as much as one that is checked.
const COPIED: u64 = 8;

/// What is known of a layout's work along an axis: that of each position, and the flat shapes. A window exceeds its column by `margin`.
#[derive(Drop)]
struct Along {
    bins: Bins,
    counts: Option<Counts>,
    margin: i64,
}

/// What is known of a layout's work along both axes.
#[derive(Drop)]
struct Estimate {
    upright: Along,
    across: Along,
}

/// The extent of a layout, seen along an axis.
fn seen_box(axis: Axis, b: &Box2) -> Box2 {
    match axis {
        Axis::V => *b,
        Axis::H => Box2 {
            x0: b.y0,
            y0: b.x0,
            x1: b.y1,
            y1: b.x1,
        },
    }
}

/// The flat shapes of a layout along an axis, if equal parts of it are checked once.
fn counts_of(
    alloc: Global,
    snapshot: &Snapshot,
    axis: Axis,
    seen: &Box2,
    is_placed: bool,
) -> Result<Option<Counts>, AllocError> {
    if !is_placed {
        return Ok(None);
    }
    let counts = Counts::of(alloc, snapshot, axis, seen)?;
    Ok(Some(counts))
}

impl Along {
    /// What is known of a layout with this extent, along an axis. The only error is out of memory.
    fn of(
        alloc: Global,
        snapshot: &Snapshot,
        works: Works<'_>,
        extent: &Box2,
        axis: Axis,
    ) -> Result<Along, AllocError> {
        let seen = seen_box(axis, extent);
        let bins = Bins::of(alloc, works, axis, &seen)?;
        let counts = counts_of(alloc, snapshot, axis, &seen, works.tree.is_placed)?;
        Ok(Along {
            bins,
            counts,
            margin: i64::from(greatest_distance(snapshot.deck().rules().as_slice())) + 1,
        })
    }

    /// The estimated cost of a column, at least 1.
    fn cost(&self, column: &Column) -> u32
        ensures { 1 ≤ result }
    {
        let from = column.from.saturating_sub(self.margin);
        let to = column.to.saturating_add(self.margin);
        let copied = match &self.counts {
            Some(counts) => counts.shown(from, to) / COPIED,
            None => 0,
        };
        let cost = self.bins.work(from, to).saturating_add(copied);
        cost.min(u64::from(u32::MAX)).max(1) as u32
    }
}

impl Estimate {
    /// The estimated cost of a column, at least 1.
    fn cost(&self, column: &Column) -> u32
        ensures { 1 ≤ result }
    {
        match column.axis {
            Axis::V => self.upright.cost(column),
            Axis::H => self.across.cost(column),
        }
    }
}

/// What is known of the work of a layout with this extent. `None` if it has no shapes. The only error is out of memory.
fn estimate_of(alloc: Global, snapshot: &Snapshot) -> Result<Option<Estimate>, AllocError> {
    let Some(extent) = snapshot.extent() else {
        return Ok(None);
    };
    let Some(tree) = Tree::of(snapshot) else {
        return Ok(None);
    };
    let each = tree.works(alloc)?;
    let works = Works {
        tree,
        each: each.as_slice(),
    };
    let upright = Along::of(alloc, snapshot, works, &extent, Axis::V)?;
    let across = Along::of(alloc, snapshot, works, &extent, Axis::H)?;
    Ok(Some(Estimate { upright, across }))
}

/// The estimated cost of a column, if the work of its layout is known; 1 if it isn't.
fn cost_of(estimate: &Option<Estimate>, column: &Column) -> u32
    ensures { 1 ≤ result }
{
    match estimate {
        Some(estimate) => estimate.cost(column),
        None => 1,
    }
}

/// The estimated cost of each column of a layout, from 1 to 2^32 - 1. Cost: a few passes over the structures, and a few look-ups for each column. The only
/// error is out of memory.
pub(crate) fn costs_of(
    alloc: Global,
    snapshot: &Snapshot,
    columns: &[Column],
) -> Result<Vec<u32>, AllocError>
    ensures each { IfOk result (λ v. length v.items ≡ length columns.now) }
    ensures some { IfOk result (λ v. All (λ cost. 1 ≤ cost) v.items) }
{
    let estimate = estimate_of(alloc, snapshot)?;
    let mut costs = Vec::with_capacity(alloc, columns.len())?;
    for column in columns {
        costs.push(cost_of(&estimate, column))?;
    }
    Ok(costs)
}
