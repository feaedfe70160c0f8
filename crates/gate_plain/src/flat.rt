//! The flat list of placed submissions by plain recursion, and the unit squares of its shapes by their definition: a second implementation
//! for walks, placings and rectangles.

use crate::named::{bound, own};
use anyhow::{Context, Result, bail};
use mpw_geom::{Layer, Name, Orient, Placing, Point};
use mpw_hier::Shelf;
use mpw_structures::{Boundary, Element, Path, Reference, Structure};
use mpw_walk::Root;
use std::alloc::{AllocError, Global};

/// More levels than a random layout has: a library has at most 4, and a name outside adds one.
const LEVELS: u32 = 30;

/// No coordinate of a random shape is farther from its origin, including half a wire's width.
const REACH: i64 = 90;

/// A unit square, by its lower left corner.
#[derive(Clone, Copy, PartialEq, Eq)]
pub struct Cell {
    /// Its column, in nm.
    pub x: i64,
    /// Its row, in nm.
    pub y: i64,
}

/// The affine map that takes (x, y) to (xx x + xy y + x0, yx x + yy y + y0).
#[derive(Clone, Copy, PartialEq, Eq)]
pub struct Affine {
    xx: i64,
    xy: i64,
    x0: i64,
    yx: i64,
    yy: i64,
    y0: i64,
}

/// A shape of a submission, and the map to its place.
#[derive(Clone, Copy)]
pub struct Shown<'a> {
    /// The submission's number, from 0.
    pub origin: u32,
    /// What takes the points of its library to their places.
    pub map: Affine,
    /// A boundary or a path, as it is in its library.
    pub element: &'a Element,
}

/// A row times a column.
fn dot(a: i64, b: i64, x: i64, y: i64) -> i64 {
    a.wrapping_mul(x).wrapping_add(b.wrapping_mul(y))
}

impl Affine {
    /// The map of a placing: its orientation, and then its displacement.
    pub fn of(placing: Placing) -> Affine {
        let (xx, xy, yx, yy) = match placing.orient {
            Orient::R0 => (1, 0, 0, 1),
            Orient::R90 => (0, -1, 1, 0),
            Orient::R180 => (-1, 0, 0, -1),
            Orient::R270 => (0, 1, -1, 0),
            Orient::M0 => (1, 0, 0, -1),
            Orient::M90 => (0, 1, 1, 0),
            Orient::M180 => (-1, 0, 0, 1),
            Orient::M270 => (0, -1, -1, 0),
        };
        Affine {
            xx,
            xy,
            x0: placing.by.x,
            yx,
            yy,
            y0: placing.by.y,
        }
    }

    /// The place of a point.
    fn at(&self, x: i64, y: i64) -> Point {
        Point {
            x: dot(self.xx, self.xy, x, y).wrapping_add(self.x0),
            y: dot(self.yx, self.yy, x, y).wrapping_add(self.y0),
        }
    }

    /// This map, and then another.
    fn then(&self, next: &Affine) -> Affine {
        let Point { x: x0, y: y0 } = next.at(self.x0, self.y0);
        Affine {
            xx: dot(next.xx, next.xy, self.xx, self.yx),
            xy: dot(next.xx, next.xy, self.xy, self.yy),
            x0,
            yx: dot(next.yx, next.yy, self.xx, self.yx),
            yy: dot(next.yx, next.yy, self.xy, self.yy),
            y0,
        }
    }
}

impl Shown<'_> {
    /// The place of the shape's square: the lower left one of the places of two opposite corners.
    fn placed(&self, cell: Cell) -> Cell {
        let first = self.map.at(cell.x, cell.y);
        let last = self.map.at(cell.x.wrapping_add(1), cell.y.wrapping_add(1));
        Cell {
            x: first.x.min(last.x),
            y: first.y.min(last.y),
        }
    }
}

/// The instance of a row and a column.
fn instance(reference: &Reference, row: u16, column: u16) -> Affine {
    let (row, column) = (i64::from(row), i64::from(column));
    let (across, up) = (reference.column_step, reference.row_step);
    let x = dot(column, row, across.x, up.x);
    let y = dot(column, row, across.y, up.y);
    Affine::of(Placing {
        orient: reference.orient,
        by: Point {
            x: x.wrapping_add(reference.origin.x),
            y: y.wrapping_add(reference.origin.y),
        },
    })
}

/// The name and the map of an instance.
type Target<'a> = (&'a Name, Affine);

/// Adds the instances of a reference: row by row, the column running fastest.
fn add_instances<'a>(
    targets: &mut Vec<Target<'a>>,
    reference: &'a Reference,
) -> Result<(), AllocError> {
    for row in 0..reference.rows {
        for column in 0..reference.columns {
            targets.push((&reference.name, instance(reference, row, column)))?;
        }
    }
    Ok(())
}

/// The instances of a structure's references, in file order.
fn targets(alloc: Global, structure: &Structure) -> Result<Vec<Target<'_>>, AllocError> {
    let mut targets = Vec::new(alloc);
    for element in structure.elements.as_slice() {
        if let Element::Reference(reference) = element {
            add_instances(&mut targets, reference.get())?;
        }
    }
    Ok(targets)
}

/// What a name of a submission refers to: a structure, and the submission that has it.
#[derive(Clone, Copy)]
struct Found<'a> {
    origin: u32,
    structure: &'a Structure,
}

/// The structure of a name, of the submission's library or of one outside.
fn named<'a>(shelf: &'a Shelf, number: u32, name: &Name) -> Result<Found<'a>> {
    let submission = shelf.get(number).context("a submission")?;
    if let Some(structure) = own(submission, name) {
        return Ok(Found {
            origin: number,
            structure,
        });
    }
    let origin = bound(submission, name)?;
    let outer = shelf.get(origin).context("a bound submission")?;
    let structure = own(outer, &outer.top).context("a top")?;
    Ok(Found { origin, structure })
}

/// Adds the own shapes of a structure.
fn add_shapes<'a>(
    list: &mut Vec<Shown<'a>>,
    found: Found<'a>,
    map: Affine,
) -> Result<(), AllocError> {
    let origin = found.origin;
    for element in found.structure.elements.as_slice() {
        if !matches!(element, Element::Reference(_)) {
            list.push(Shown {
                origin,
                map,
                element,
            })?;
        }
    }
    Ok(())
}

/// Adds the flat shapes of a structure to the list, placed by a map: its own ones, and then those of its instances.
fn flatten<'a>(
    list: &mut Vec<Shown<'a>>,
    shelf: &'a Shelf,
    outer: Found<'a>,
    map: Affine,
    depth: u32,
) -> Result<()> {
    if depth == 0 {
        bail!("fewer levels");
    }
    add_shapes(list, outer, map)?;
    for (name, inner) in &targets(*list.allocator(), outer.structure)? {
        let found = named(shelf, outer.origin, name)?;
        flatten(list, shelf, found, inner.then(&map), depth - 1)?;
    }
    Ok(())
}

/// The shapes of placed submissions, each with the map to its place.
///
/// # Errors
/// A submission or a bound name doesn't exist, there are more levels than a random layout has, or out of memory.
pub fn flat_list<'a>(alloc: Global, shelf: &'a Shelf, roots: &[Root]) -> Result<Vec<Shown<'a>>> {
    let mut list = Vec::new(alloc);
    for root in roots {
        let top = &shelf.get(root.submission).context("a root")?.top;
        let found = named(shelf, root.submission, top)?;
        flatten(&mut list, shelf, found, Affine::of(root.placing), LEVELS)?;
    }
    Ok(list)
}

/// Whether a step goes up across the square's row, at the square or left of it.
fn rises(from: Point, to: Point, cell: Cell) -> bool {
    from.x <= cell.x && from.y <= cell.y && cell.y < to.y
}

fn boundary_has(boundary: &Boundary, cell: Cell) -> bool {
    let points = &boundary.points;
    let count = points.len();
    if count == 0 {
        return false;
    }
    let mut from = points.at(count - 1);
    let mut winding = 0i64;
    for index in 0..count {
        let to = points.at(index);
        winding = winding.wrapping_add(i64::from(rises(from, to, cell)));
        winding = winding.wrapping_sub(i64::from(rises(to, from, cell)));
        from = to;
    }
    winding != 0
}

/// Whether the coordinate is on a segment's span, extended on both sides.
fn is_along(from: i64, to: i64, before: i64, behind: i64, z: i64) -> bool {
    if from <= to {
        from.wrapping_sub(before) <= z && z < to.wrapping_add(behind)
    } else {
        to.wrapping_sub(behind) <= z && z < from.wrapping_add(before)
    }
}

/// A segment of a path, how far it goes on before its first point and after its last one, and half its width.
#[derive(Clone, Copy)]
struct Segment {
    from: Point,
    to: Point,
    before: i64,
    behind: i64,
    half: i64,
}

impl Segment {
    fn has(&self, cell: Cell) -> bool {
        let (from, to, half) = (self.from, self.to, self.half);
        if from.y == to.y {
            is_along(from.x, to.x, self.before, self.behind, cell.x)
                && is_along(from.y, to.y, half, half, cell.y)
        } else {
            is_along(from.x, to.x, half, half, cell.x)
                && is_along(from.y, to.y, self.before, self.behind, cell.y)
        }
    }
}

fn path_has(path: &Path, cell: Cell) -> bool {
    let count = path.points.len();
    let half = path.width / 2;
    for index in 1..count {
        let segment = Segment {
            from: path.points.at(index - 1),
            to: path.points.at(index),
            before: if index == 1 { path.begin } else { half },
            behind: if index + 1 == count { path.end } else { half },
            half,
        };
        if segment.has(cell) {
            return true;
        }
    }
    false
}

/// Whether the shape has the square, in its own coordinates.
fn has(element: &Element, cell: Cell) -> bool {
    match element {
        Element::Boundary(boundary) => boundary_has(boundary, cell),
        Element::Path(path) => path_has(path.get(), cell),
        Element::Reference(_) => false,
    }
}

/// The layer of a shape, or none for a reference.
pub fn layer(element: &Element) -> Option<Layer> {
    match element {
        Element::Boundary(boundary) => Some(boundary.layer),
        Element::Path(path) => Some(path.get().layer),
        Element::Reference(_) => None,
    }
}

/// The squares of a random layout's shape at their places.
///
/// # Errors
/// Out of memory.
pub fn squares_of(alloc: Global, shown: &Shown<'_>) -> Result<Vec<Cell>, AllocError> {
    let mut squares = Vec::new(alloc);
    for x in -REACH..REACH {
        for y in -REACH..REACH {
            let cell = Cell { x, y };
            if has(shown.element, cell) {
                squares.push(shown.placed(cell))?;
            }
        }
    }
    Ok(squares)
}
