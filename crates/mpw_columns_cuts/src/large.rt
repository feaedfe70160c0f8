//! Decides where a core is cut because of its arrays of many instances.

use crate::cutting::Cut;
use crate::room::{Room, Series, Span, span_of};
use crate::sample::{Sample, Share};
use crate::tally::is_large;
use crate::view::View;
use mpw_columns_contents::Thing;
use mpw_geom::Box2;
use std::alloc::{AllocError, Global};

/// Lines at equal distances that lie strictly inside a core.
#[derive(Clone, Copy)]
struct Lines {
    /// The first.
    first: i64,
    /// The distance from one to the next.
    pitch: i64,
    /// How many there are.
    count: u64,
}

/// No lines.
const NONE: Lines = Lines {
    first: 0,
    pitch: 0,
    count: 0,
};

/// The positions of a series that lie strictly inside a span.
fn lines_inside(series: Series, span: Span) -> Lines {
    let base = series.from.saturating_add(series.reach().min(0));
    let pitch = series.step.unsigned_abs();
    if pitch == 0 || span.high <= base {
        return NONE;
    }
    let begin = if span.low < base {
        0
    } else {
        (span.low.abs_diff(base) / pitch).saturating_add(1)
    };
    let last = span.high.abs_diff(base).saturating_sub(1) / pitch;
    let end = last.saturating_add(1).min(u64::from(series.count));
    let way = i64::try_from(begin.saturating_mul(pitch)).unwrap_or(i64::MAX);
    Lines {
        first: base.saturating_add(way),
        pitch: i64::try_from(pitch).unwrap_or(i64::MAX),
        count: end.saturating_sub(begin),
    }
}

/// The greatest power of two that is at most a number; the number is at least 1.
fn power_within(number: u64) -> u64 {
    let mut power = 1u64;
    for _ in 0..63 {
        if power <= number / 2 {
            power = power.saturating_mul(2);
        }
    }
    power
}

impl Lines {
    /// The best of these lines to cut the span in which they lie. If the span begins on a line, the number of cells before the cut is a power of two.
    /// Otherwise it is the first line.
    fn best(self, span: Span) -> i64 {
        if span.low.saturating_add(self.pitch) != self.first {
            return self.first;
        }
        let further = power_within(self.count).saturating_sub(1);
        let cells = i64::try_from(further).unwrap_or(0);
        self.first.saturating_add(cells.saturating_mul(self.pitch))
    }
}

/// The line on which a core is cut because of an array, between its instances. `None` if none is inside. Constant time.
pub(crate) fn line_of_lattice(view: &View<'_>, room: &Room) -> Option<Cut> {
    let across = lines_inside(room.series(false), view.span(false));
    let along = lines_inside(room.series(true), view.span(true));
    let are_rows = along.count > across.count;
    let lines = if are_rows { along } else { across };
    let span = view.span(are_rows);
    let at = lines.best(span);
    if lines.count > 0 && span.has(at) {
        Some(Cut { are_rows, at })
    } else {
        None
    }
}

/// An edge of an array at which it may be cut off.
#[derive(Clone, Copy)]
struct Edge {
    cut: Cut,
    /// How many boxes of a sample it crosses.
    crossed: u64,
    /// Its distance from the core's nearer side.
    depth: u64,
}

impl Edge {
    /// Whether it is better than another one: it crosses less, or as much and lies farther inside.
    fn is_better(&self, other: &Edge) -> bool {
        self.crossed < other.crossed || (self.crossed == other.crossed && self.depth > other.depth)
    }
}

/// The better one of two edges.
fn better(one: Option<Edge>, other: Option<Edge>) -> Option<Edge> {
    match (one, other) {
        (Some(found), Some(next)) if next.is_better(&found) => Some(next),
        (None, next) => next,
        (found, _) => found,
    }
}

/// An edge at which a core may be cut. `None` if it isn't inside.
fn edge_at(view: &View<'_>, sample: &Sample, cut: Cut) -> Option<Edge> {
    let span = view.span(cut.are_rows);
    if span.has(cut.at) {
        Some(Edge {
            cut,
            crossed: sample.crossed(cut, view.margin(false)),
            depth: span.depth(cut.at),
        })
    } else {
        None
    }
}

/// The better of a box's two edges along y, or along x.
fn edge_along(view: &View<'_>, sample: &Sample, b: &Box2, are_rows: bool) -> Option<Edge> {
    let Span { low, high } = span_of(b, are_rows);
    better(
        edge_at(view, sample, Cut { are_rows, at: low }),
        edge_at(view, sample, Cut { are_rows, at: high }),
    )
}

/// The best edge of an array.
fn edge_of_array(view: &View<'_>, sample: &Sample, room: &Room) -> Option<Edge> {
    let b = room.whole();
    better(
        edge_along(view, sample, &b, false),
        edge_along(view, sample, &b, true),
    )
}

/// The edge at which an array of many instances is cut off: one that crosses few entries, and lies far inside the core. `large` is the number of such
/// arrays. `None` if no edge is inside. It tries about 64 of the arrays with about 64 of the entries. The only error is out of memory.
pub(crate) fn edge_of_large(
    alloc: Global,
    view: &View<'_>,
    things: &[Thing],
    large: usize,
) -> Result<Option<Cut>, AllocError> {
    if large == 0 {
        return Ok(None);
    }
    let sample = Sample::of_things(alloc, view, things)?;
    let mut share = Share::of(large);
    let mut best = None;
    for thing in things {
        let room = view.instance_room(thing).filter(is_large);
        if let Some(room) = room {
            if share.takes() {
                best = better(best, edge_of_array(view, &sample, &room));
            }
        }
    }
    Ok(best.map(|edge| edge.cut))
}
