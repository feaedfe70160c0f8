//! Decides where a core is cut, from the entries (shapes and arrays) in its window.
//!
//! Parts that are identical up to translation are checked once, so the cuts should make few kinds of parts. An array with half of all shapes is cut on a line
//! of its lattice, into equal halves. An array of many instances is cut off from what is around it. Adjacent instances are separated by cuts, all at once and
//! rows first: what is left are the inside of each and what two share. A core with few shapes isn't cut, nor is one with an array of half of its shapes whose
//! instances overlap several times over if cuts cost more than they save.

use crate::clean::clean_lines;
use crate::common::common_edge;
use crate::large::{edge_of_large, line_of_lattice};
use crate::overlap::is_crowded;
use crate::tally::Tally;
use crate::view::View;
use mpw_columns_contents::Contents;
use mpw_edges::Axis;
use mpw_geom::Box2;
use mpw_hier::Shelf;
use std::alloc::{AllocError, Global};

/// A core that is at most this wide and high, in nm, is checked without cuts.
const SMALL: u64 = 128;

/// A core as it is seen along an axis (on H with the coordinates exchanged), and how far its window exceeds it to the left and right.
#[derive(Clone, Copy)]
pub struct Core {
    /// The axis.
    pub axis: Axis,
    /// The area of the core, in nm.
    pub area: Box2,
    /// How far its window exceeds it, in nm.
    pub margin: i64,
}

/// The lines along which a core is cut: lines across it at these y (rows) or at these x, ascending, each strictly inside. There are none if the core should
/// be checked without cuts.
#[derive(Drop)]
pub struct Cuts {
    /// Whether the lines are at positions along y, so that the parts are rows.
    pub are_rows: bool,
    /// The positions of the lines, in nm.
    pub lines: Vec<i64>,
}

/// A line that cuts a core, at a position along y (rows), or along x.
#[derive(Clone, Copy)]
pub(crate) struct Cut {
    pub are_rows: bool,
    pub at: i64,
}

impl Cuts {
    /// No lines.
    fn none(alloc: Global) -> Cuts {
        Cuts {
            are_rows: false,
            lines: Vec::new(alloc),
        }
    }

    /// One line.
    fn one(alloc: Global, cut: Cut) -> Result<Cuts, AllocError> {
        let mut lines = Vec::new(alloc);
        lines.push(cut.at)?;
        Ok(Cuts {
            are_rows: cut.are_rows,
            lines,
        })
    }
}

/// Whether the core of a view is so small that it is checked without cuts.
fn is_small(core: &Core) -> bool {
    core.area.x0.abs_diff(core.area.x1) <= SMALL && core.area.y0.abs_diff(core.area.y1) <= SMALL
}

/// The line in the middle of the longer side.
fn middle_line(view: &View<'_>) -> Option<Cut> {
    let are_rows = view.span(true).length() > view.span(false).length();
    let span = view.span(are_rows);
    let at = span.middle();
    if span.has(at) {
        Some(Cut { are_rows, at })
    } else {
        None
    }
}

/// The best single line, for a core that isn't a leaf and has no clean lines.
fn last_line(
    alloc: Global,
    view: &View<'_>,
    contents: &Contents,
    tally: &Tally,
) -> Result<Option<Cut>, AllocError> {
    let edge = common_edge(alloc, view, contents.things(), tally.instances)?;
    if edge.is_some() || tally.is_at_rest() {
        return Ok(edge);
    }
    Ok(middle_line(view))
}

/// The line on which an array is cut, or at which it is cut off.
fn line_of_array(
    alloc: Global,
    view: &View<'_>,
    contents: &Contents,
    tally: &Tally,
) -> Result<Option<Cut>, AllocError> {
    if let Some(array) = tally.half() {
        let line = line_of_lattice(view, &array.room);
        if line.is_some() {
            return Ok(line);
        }
    }
    edge_of_large(alloc, view, contents.things(), tally.large)
}

/// The lines that cut a core that isn't a leaf.
fn cuts_by(
    alloc: Global,
    view: &View<'_>,
    contents: &Contents,
    tally: &Tally,
) -> Result<Cuts, AllocError> {
    if let Some(array) = tally.half() {
        if is_crowded(view, &array) {
            return Ok(Cuts::none(alloc));
        }
    }
    if let Some(cut) = line_of_array(alloc, view, contents, tally)? {
        return Cuts::one(alloc, cut);
    }
    if tally.inside >= 2 && tally.instances >= 2 {
        if let Some(cuts) = clean_lines(alloc, view, contents.things(), tally.instances)? {
            return Ok(cuts);
        }
    }
    match last_line(alloc, view, contents, tally)? {
        Some(cut) => Cuts::one(alloc, cut),
        None => Ok(Cuts::none(alloc)),
    }
}

/// The lines along which a core should be cut, given the entries of its window ([`mpw_columns_contents::contents_in`]) from the
/// first submission of a shelf. This is an estimate: no contract depends on it.
///
/// Cost: linear in the number of entries if the core isn't cut, with no memory. Otherwise a sort of the edges of the arrays, with memory
/// for up to 48 bytes for each.
///
/// # Errors
/// Out of memory.
pub fn cuts_of(
    alloc: Global,
    shelf: &Shelf,
    contents: &Contents,
    core: &Core,
) -> Result<Cuts, AllocError> {
    if is_small(core) {
        return Ok(Cuts::none(alloc));
    }
    let Some(view) = View::of(shelf, core) else {
        return Ok(Cuts::none(alloc));
    };
    let tally = Tally::of(&view, contents.things());
    if tally.is_leaf() {
        return Ok(Cuts::none(alloc));
    }
    cuts_by(alloc, &view, contents, &tally)
}
