//! Finds the line at which more of a core's instances begin or end than at any other.

use crate::cutting::Cut;
use crate::room::{Span, span_of};
use crate::sample::Sample;
use crate::view::View;
use mpw_columns_contents::Thing;
use std::alloc::{AllocError, Global};

/// The cost of crossing an instance, in nm of the side that is cut.
const CROSSED: i64 = 1_000_000;

/// The cost of cutting off less than a quarter, in nm of the side that is cut.
const NEAR_A_SIDE: i64 = 500_000;

/// A position, and how many edges are there.
#[derive(Clone, Copy)]
struct Place {
    at: i64,
    times: u64,
}

/// A line and its cost.
#[derive(Clone, Copy)]
struct Priced {
    cut: Cut,
    cost: i64,
}

impl Place {
    /// Whether there are more edges here than at another position, or as many and it is nearer to `middle`.
    fn is_better(self, other: Place, middle: i64) -> bool {
        self.times > other.times
            || (self.times == other.times && self.at.abs_diff(middle) < other.at.abs_diff(middle))
    }
}

/// The most frequent of sorted positions. Of several it is the nearest to `middle`.
fn most_common(places: &[i64], middle: i64) -> Option<i64> {
    let mut best: Option<Place> = None;
    let mut last = Place { at: 0, times: 0 };
    for at in places {
        let times = if last.at == *at { last.times } else { 0 };
        last = Place {
            at: *at,
            times: times.saturating_add(1),
        };
        best = match best {
            Some(found) if !last.is_better(found, middle) => Some(found),
            _ => Some(last),
        };
    }
    best.map(|place| place.at)
}

/// The edges of a sample's boxes along y, or along x, that lie strictly inside a span, in order. Each box is extended by the view's margin. The only
/// error is out of memory.
fn edges_inside(
    alloc: Global,
    view: &View<'_>,
    sample: &Sample,
    are_rows: bool,
    inside: Span,
) -> Result<Vec<i64>, AllocError> {
    let mut edges = Vec::with_capacity(alloc, sample.boxes().len().saturating_mul(2))?;
    for b in sample.boxes() {
        let Span { low, high } = span_of(b, are_rows).moved_apart(view.margin(are_rows));
        if inside.has(low) {
            edges.push(low)?;
        }
        if inside.has(high) {
            edges.push(high)?;
        }
    }
    edges.sort_unstable();
    Ok(edges)
}

/// The line inside a span along y, or along x, at which the most boxes of a sample begin or end. The only error is out of memory.
fn common_inside(
    alloc: Global,
    view: &View<'_>,
    sample: &Sample,
    are_rows: bool,
    inside: Span,
) -> Result<Option<Priced>, AllocError> {
    let edges = edges_inside(alloc, view, sample, are_rows, inside)?;
    let Some(at) = most_common(&edges, inside.middle()) else {
        return Ok(None);
    };
    let cut = Cut { are_rows, at };
    let crossed = i64::try_from(sample.crossed(cut, view.slack())).unwrap_or(0);
    let length = i64::try_from(view.span(are_rows).length()).unwrap_or(i64::MAX);
    let cost = crossed.saturating_mul(CROSSED).saturating_sub(length);
    Ok(Some(Priced { cut, cost }))
}

/// The line along y, or along x, at which the most boxes of a sample begin or end: in the middle half of a core, if there is one. The only error is
/// out of memory.
fn common_along(
    alloc: Global,
    view: &View<'_>,
    sample: &Sample,
    are_rows: bool,
) -> Result<Option<Priced>, AllocError> {
    let span = view.span(are_rows);
    let middle = common_inside(alloc, view, sample, are_rows, span.middle_half())?;
    if middle.is_some() {
        return Ok(middle);
    }
    let anywhere = common_inside(alloc, view, sample, are_rows, span)?;
    Ok(anywhere.map(|priced| Priced {
        cost: priced.cost.saturating_add(NEAR_A_SIDE),
        ..priced
    }))
}

/// The line at which the most instances of a core begin or end, along y or along x, whichever costs less. It is an estimate from about 64 instances.
/// `instances` of the entries are arrays. `None` if no edge is inside. The only error is out of memory.
pub(crate) fn common_edge(
    alloc: Global,
    view: &View<'_>,
    things: &[Thing],
    instances: usize,
) -> Result<Option<Cut>, AllocError> {
    let sample = Sample::of_instances(alloc, view, things, instances)?;
    let rows = common_along(alloc, view, &sample, true)?;
    let columns = common_along(alloc, view, &sample, false)?;
    let best = match (rows, columns) {
        (Some(row), Some(column)) if column.cost < row.cost => Some(column),
        (None, column) => column,
        (row, _) => row,
    };
    Ok(best.map(|priced| priced.cut))
}
