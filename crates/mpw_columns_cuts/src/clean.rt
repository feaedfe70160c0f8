//! Finds clean lines: they pass at the edges of instances and cross no instance, apart from a little slack at its edges.
//!
//! Counting decides whether a line is clean: in order, how many instances have begun before it, and how many have ended.

use crate::cutting::Cuts;
use crate::room::Span;
use crate::view::View;
use mpw_columns_contents::Thing;
use std::alloc::{AllocError, Global};

/// The least number of clean lines that cut a core.
const ENOUGH: usize = 2;

/// Edges of instances along y, or along x.
#[derive(Drop)]
struct Edges {
    /// Where lines may be.
    lines: Vec<i64>,
    /// Where the intervals begin that a line must not cross.
    begins: Vec<i64>,
    /// Where these intervals end.
    ends: Vec<i64>,
}

impl Edges {
    /// No edges, with room for those of `instances` instances.
    fn empty(alloc: Global, instances: usize) -> Result<Edges, AllocError> {
        Ok(Edges {
            lines: Vec::with_capacity(alloc, instances.saturating_mul(2))?,
            begins: Vec::new(alloc),
            ends: Vec::new(alloc),
        })
    }

    /// Adds a line if it lies strictly inside a core.
    fn add_line(&mut self, core: Span, at: i64) -> Result<(), AllocError> {
        if core.has(at) {
            self.lines.push(at)?;
        }
        Ok(())
    }

    /// Adds an interval in which a line would cross an instance.
    fn add_inside(&mut self, inside: Span) -> Result<(), AllocError> {
        if inside.low < inside.high {
            self.begins.push(inside.low)?;
            self.ends.push(inside.high)?;
        }
        Ok(())
    }

    /// Adds an instance that covers this span.
    fn add(&mut self, view: &View<'_>, are_rows: bool, span: Span) -> Result<(), AllocError> {
        let core = view.span(are_rows);
        let beyond = span.moved_apart(view.margin(are_rows));
        self.add_line(core, beyond.low)?;
        self.add_line(core, beyond.high)?;
        self.add_inside(span.moved_apart(view.slack().saturating_neg()))
    }

    /// The edges of the entries in a core's window, `instances` of which are arrays. An entry with the same span as the one before adds nothing.
    fn of(
        alloc: Global,
        view: &View<'_>,
        things: &[Thing],
        instances: usize,
        are_rows: bool,
    ) -> Result<Edges, AllocError> {
        let mut edges = Edges::empty(alloc, instances)?;
        let mut last = None;
        for thing in things {
            let span = view.instance_room(thing).map(|room| room.span(are_rows));
            if let Some(span) = span {
                if last != Some(span) {
                    edges.add(view, are_rows, span)?;
                    last = Some(span);
                }
            }
        }
        Ok(edges)
    }

    /// The clean lines, in order.
    fn into_clean(self) -> Vec<i64> {
        let Edges {
            mut lines,
            mut begins,
            mut ends,
        } = self;
        lines.sort_unstable();
        begins.sort_unstable();
        ends.sort_unstable();
        keep_clean(&mut lines, &begins, &ends);
        lines
    }
}

/// How many sorted numbers are less than `at`. At least `known` are.
fn count_below(numbers: &[i64], known: usize, at: i64) -> usize {
    for count in known..numbers.len() {
        if numbers[count] >= at {
            return count;
        }
    }
    numbers.len()
}

/// The number at an index; 0 if there is no such index.
fn number_at(numbers: &[i64], place: usize) -> i64 {
    numbers.get(place).copied().unwrap_or(0)
}

/// Sets the number at an index, if there is such an index.
fn put(numbers: &mut Vec<i64>, place: usize, number: i64) {
    if place < numbers.len() {
        numbers[place] = number;
    }
}

/// Leaves, of sorted lines, one at each position where all instances that began before it have ended.
fn keep_clean(lines: &mut Vec<i64>, begins: &[i64], ends: &[i64]) {
    let (mut kept, mut begun, mut ended) = (0usize, 0usize, 0usize);
    let mut last = None;
    for index in 0..lines.len() {
        let line = number_at(lines, index);
        begun = count_below(begins, begun, line);
        ended = count_below(ends, ended, line.saturating_add(1));
        if begun <= ended && last != Some(line) {
            put(lines, kept, line);
            kept = kept.saturating_add(1);
            last = Some(line);
        }
    }
    lines.truncate(kept);
}

/// All clean lines of a core along y, or else along x, if there are at least two. `None` if there are fewer along both. `instances` of the
/// entries are arrays. The only error is out of memory.
pub(crate) fn clean_lines(
    alloc: Global,
    view: &View<'_>,
    things: &[Thing],
    instances: usize,
) -> Result<Option<Cuts>, AllocError> {
    for are_rows in [true, false] {
        let lines = Edges::of(alloc, view, things, instances, are_rows)?.into_clean();
        if lines.len() >= ENOUGH {
            return Ok(Some(Cuts { are_rows, lines }));
        }
    }
    Ok(None)
}
