//! Finds the lines on which arrays repeat, as candidates for cuts between columns. No contract depends on them.
//!
//! Columns that are cut on the lines of an array's lattice are identical up to translation, so they are checked once. The lattices are those of the
//! arrays with the most flat shapes, from the top down: each array is in a cell of the one before.

use mpw_edges::Axis;
use mpw_geom::{Orient, Point};
use mpw_hier::{Node, Target};
use mpw_structures::{Element, Reference, Structure};
use mpw_tiles::Snapshot;
use std::alloc::{AllocError, Global};

/// The most levels that are visited.
const MOST_LEVELS: usize = 64;

/// Lines at equal distances along an axis.
#[derive(Clone, Copy)]
pub struct Lattice {
    /// The position of a line, relative to a line of the lattice before, or to the top's origin.
    from: i64,
    /// The distance from one line to the next, in nm.
    pitch: u32,
    /// The size of an instance along the axis, in nm.
    reach: u64,
    /// An estimate of how many flat shapes the instances of its array have between two lines.
    shown: u64,
}

/// The coordinate along the axis across whose edges columns are cut.
pub(crate) fn along(axis: Axis, point: Point) -> i64 {
    match axis {
        Axis::V => point.x,
        Axis::H => point.y,
    }
}

/// The distance of a reference's instances along an axis. `None` if there is only one along it.
fn pitch_of(axis: Axis, reference: &Reference) -> Option<u32> {
    let column = along(axis, reference.column_step).unsigned_abs();
    let row = along(axis, reference.row_step).unsigned_abs();
    let pitch = if reference.columns > 1 && column > 0 {
        column
    } else if reference.rows > 1 {
        row
    } else {
        0
    };
    match u32::try_from(pitch) {
        Ok(pitch) if pitch > 0 => Some(pitch),
        _ => None,
    }
}

/// A reference of a node that isn't turned, the index of the node that it places, and how many flat shapes its instances have.
#[derive(Clone, Copy)]
struct Most<'a> {
    reference: &'a Reference,
    place: usize,
    shown: u64,
}

/// What the child of a node with these elements places, if it is a node of the same library and isn't turned.
fn placed_by<'a>(
    nodes: &[Node],
    elements: &'a [Element],
    target: Target,
    element: usize,
) -> Option<Most<'a>> {
    let Target::Own(place) = target else {
        return None;
    };
    let Some(Element::Reference(reference)) = elements.get(element) else {
        return None;
    };
    let reference = reference.get();
    if reference.orient != Orient::R0 {
        return None;
    }
    let instances = u64::from(reference.columns).saturating_mul(u64::from(reference.rows));
    let shown = nodes.get(place)?.size.count.saturating_mul(instances);
    Some(Most {
        reference,
        place,
        shown,
    })
}

/// The child of a node with the most flat shapes.
fn most_of<'a>(nodes: &[Node], elements: &'a [Element], node: &Node) -> Option<Most<'a>> {
    let mut most: Option<Most<'a>> = None;
    for child in node.children.iter() {
        let next = placed_by(nodes, elements, child.target, child.element);
        most = match (most, next) {
            (Some(found), Some(next)) if next.shown > found.shown => Some(next),
            (None, next) => next,
            (found, _) => found,
        };
    }
    most
}

/// The child of a node with the most flat shapes, if it has at least half of the node's.
fn array_of<'a>(structures: &'a [Structure], nodes: &[Node], place: usize) -> Option<Most<'a>> {
    let node = nodes.get(place)?;
    let elements = structures.get(node.structure)?.elements.as_slice();
    most_of(nodes, elements, node).filter(|most| most.shown >= node.size.count / 2)
}

/// The size of a node's shapes along an axis.
fn reach_of(axis: Axis, nodes: &[Node], place: usize) -> u64 {
    let Some(extent) = nodes.get(place).and_then(|node| node.size.extent) else {
        return 0;
    };
    let low = along(
        axis,
        Point {
            x: extent.x0,
            y: extent.y0,
        },
    );
    let high = along(
        axis,
        Point {
            x: extent.x1,
            y: extent.y1,
        },
    );
    low.abs_diff(high)
}

/// The path down to an array: its position relative to the last line before, how many instances it has in all, and at how many positions along the axis.
#[derive(Clone, Copy)]
struct Way {
    from: i64,
    instances: u64,
    places: u64,
}

impl Way {
    /// Continues the path to the array of a reference.
    fn go(&mut self, axis: Axis, reference: &Reference) {
        let (columns, rows) = (u64::from(reference.columns), u64::from(reference.rows));
        self.from = self.from.wrapping_add(along(axis, reference.origin));
        self.instances = self.instances.saturating_mul(columns).saturating_mul(rows);
        if along(axis, reference.column_step) != 0 {
            self.places = self.places.saturating_mul(columns);
        }
        if along(axis, reference.row_step) != 0 {
            self.places = self.places.saturating_mul(rows);
        }
    }

    /// The lattice of the array at the end of the path, whose instances have this distance.
    fn lattice(&self, axis: Axis, pitch: u32, nodes: &[Node], place: usize) -> Lattice {
        let count = nodes.get(place).map_or(0, |node| node.size.count);
        Lattice {
            from: self.from,
            pitch,
            reach: reach_of(axis, nodes, place),
            shown: self.instances.saturating_mul(count) / self.places.max(1),
        }
    }
}

/// The lattices of the arrays with the most flat shapes along an axis, in the first submission's top and in what that places. Cost: one pass over the
/// children of a node for each level.
///
/// # Errors
/// Out of memory.
pub fn lattices_of(
    alloc: Global,
    snapshot: &Snapshot,
    axis: Axis,
) -> Result<Vec<Lattice>, AllocError> {
    let mut lattices = Vec::new(alloc);
    let (Some(nodes), Some(submission)) = (snapshot.shelf().nodes(0), snapshot.shelf().get(0))
    else {
        return Ok(lattices);
    };
    let structures = submission.library.structures();
    let mut place = nodes.len().saturating_sub(1);
    let mut way = Way {
        from: 0,
        instances: 1,
        places: 1,
    };
    for _ in 0..MOST_LEVELS {
        let Some(most) = array_of(structures, nodes, place) else {
            return Ok(lattices);
        };
        way.go(axis, most.reference);
        place = most.place;
        if let Some(pitch) = pitch_of(axis, most.reference) {
            lattices.push(way.lattice(axis, pitch, nodes, place))?;
            way.from = 0;
        }
    }
    Ok(lattices)
}

/// Whether there is a lattice along either axis ([`lattices_of`]). Cost: two passes over the children of a node for each level. Takes no memory.
pub fn repeats(snapshot: &Snapshot) -> bool {
    repeats_along(snapshot, Axis::V) || repeats_along(snapshot, Axis::H)
}

/// Whether there is one along an axis.
fn repeats_along(snapshot: &Snapshot, axis: Axis) -> bool {
    let (Some(nodes), Some(submission)) = (snapshot.shelf().nodes(0), snapshot.shelf().get(0))
    else {
        return false;
    };
    let structures = submission.library.structures();
    let mut place = nodes.len().saturating_sub(1);
    for _ in 0..MOST_LEVELS {
        let Some(most) = array_of(structures, nodes, place) else {
            return false;
        };
        if pitch_of(axis, most.reference).is_some() {
            return true;
        }
        place = most.place;
    }
    false
}

/// Whether a width is at most that of an instance of the finest lattice, or at most its pitch.
pub fn is_within_cell(lattices: &[Lattice], width: u64) -> bool {
    match lattices.last() {
        Some(finest) => width <= finest.reach.max(u64::from(finest.pitch)),
        None => false,
    }
}

/// The width of a column that has about `most` flat shapes of an array: a number of cells of the finest lattice, at least one.
pub fn width_of_cells(lattices: &[Lattice], most: u64) -> u64 {
    match lattices.last() {
        Some(finest) => {
            let cells = most.checked_div(finest.shown).unwrap_or(most).max(1);
            cells.saturating_mul(u64::from(finest.pitch))
        }
        None => 0,
    }
}

/// An estimate of how many flat shapes of the finest lattice's array a column of this width has if it lies inside the array.
pub fn shown_by_cells(lattices: &[Lattice], width: u64) -> u64 {
    match lattices.last() {
        Some(finest) => (width / u64::from(finest.pitch.max(1))).saturating_mul(finest.shown),
        None => 0,
    }
}

/// The distance of a position from the line before it, less than the pitch.
fn past_line(at: i64, line: i64, pitch: u32) -> i64 {
    let pitch = i64::from(pitch.max(1));
    let past = at.wrapping_sub(line).wrapping_rem(pitch);
    if past < 0 {
        past.wrapping_add(pitch)
    } else {
        past
    }
}

/// The greatest power of two whose double is at most `cells`; at least 1.
fn half_of(cells: u64) -> u64 {
    let mut half = 1u64;
    for _ in 0..63 {
        if half <= cells / 4 {
            half = half.saturating_mul(2);
        }
    }
    half
}

/// Where the positions from `from` to before `to` are cut: on a line of the first lattice that has one between them. If `from` is on a line, the number of
/// cells left of the cut is a power of two. `None` if no lattice has such a line.
pub fn line_between(lattices: &[Lattice], from: i64, to: i64) -> Option<i64> {
    let mut base = 0i64;
    for lattice in lattices {
        let pitch = i64::from(lattice.pitch);
        let past = past_line(from, base.wrapping_add(lattice.from), lattice.pitch);
        let line = from.wrapping_sub(past);
        if line.wrapping_add(pitch) < to {
            if past > 0 {
                return Some(line.wrapping_add(pitch));
            }
            let cells = from.abs_diff(to) / u64::from(lattice.pitch.max(1));
            let left = i64::try_from(half_of(cells)).unwrap_or(1);
            return Some(from.wrapping_add(left.wrapping_mul(pitch)));
        }
        base = line;
    }
    None
}

/// With at least this many flat shapes for each drawn shape and each reference, a layout is regular.
const MANY_PLACED: u64 = 3;

/// Whether a layout has many flat shapes for each drawn shape and each reference, so that a window has far fewer entries than flat shapes. Cost: one pass
/// over the structures.
pub fn is_placed(snapshot: &Snapshot) -> bool {
    let Some(nodes) = snapshot.shelf().nodes(0) else {
        return false;
    };
    let mut drawn = 0u64;
    for node in nodes {
        let own = (node.shapes.len() as u64).saturating_add(node.children.len() as u64);
        drawn = drawn.saturating_add(own);
    }
    match nodes.last() {
        Some(top) => top.size.count >= drawn.saturating_mul(MANY_PLACED),
        None => false,
    }
}
