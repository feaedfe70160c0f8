//! Computes the positions of shapes and instances along one axis.

use crate::lattice::along;
use mpw_edges::Axis;
use mpw_geom::{Box2, Orient, Point};
use mpw_hier::Target;
use mpw_structures::{Element, Points, Reference};

/// A map from the coordinates of a structure to positions along the axis that is counted: `from`, plus or minus the coordinate along one of
/// the structure's axes.
#[derive(Clone, Copy)]
pub(crate) struct Line {
    pub axis: Axis,
    pub is_back: bool,
    pub from: i64,
}

/// The axis of a turned structure that lies along an axis, and whether its coordinates run backwards.
fn turned(orient: Orient, axis: Axis) -> (Axis, bool) {
    let is_along_x = matches!(axis, Axis::V);
    match orient {
        Orient::R0 => (axis, false),
        Orient::R180 => (axis, true),
        Orient::M0 => (axis, !is_along_x),
        Orient::M180 => (axis, is_along_x),
        Orient::R90 => (other(axis), is_along_x),
        Orient::R270 => (other(axis), !is_along_x),
        Orient::M90 => (other(axis), false),
        Orient::M270 => (other(axis), true),
    }
}

/// The other axis.
fn other(axis: Axis) -> Axis {
    match axis {
        Axis::V => Axis::H,
        Axis::H => Axis::V,
    }
}

impl Line {
    /// The position of a point.
    fn at(self, point: Point) -> i64 {
        self.shifted(along(self.axis, point))
    }

    /// The position at a coordinate.
    fn shifted(self, by: i64) -> i64 {
        if self.is_back {
            self.from.wrapping_sub(by)
        } else {
            self.from.wrapping_add(by)
        }
    }

    /// The map for the structure that a reference places, displaced by its rows and columns.
    fn of_instance(self, reference: &Reference, by: i64) -> Line {
        let (axis, is_back) = turned(reference.orient, self.axis);
        let from = self.shifted(along(self.axis, reference.origin).wrapping_add(by));
        Line {
            axis,
            is_back: is_back != self.is_back,
            from,
        }
    }
}

/// An interval along the axis.
#[derive(Clone, Copy)]
pub(crate) struct Reach {
    pub low: i64,
    pub high: i64,
}

impl Reach {
    /// The interval between two positions.
    fn between(a: i64, b: i64) -> Reach {
        Reach {
            low: a.min(b),
            high: a.max(b),
        }
    }

    /// The interval extended on both sides.
    fn wider(self, by: i64) -> Reach {
        Reach {
            low: self.low.wrapping_sub(by),
            high: self.high.wrapping_add(by),
        }
    }
}

/// The interval of a box.
pub(crate) fn reach_of_box(line: Line, b: &Box2) -> Reach {
    let low = line.at(Point { x: b.x0, y: b.y0 });
    let high = line.at(Point { x: b.x1, y: b.y1 });
    Reach::between(low, high)
}

/// The interval of points. `None` if there are none.
fn reach_of(line: Line, points: &Points) -> Option<Reach> {
    let mut reach: Option<Reach> = None;
    for index in 0..points.len() {
        let place = line.at(points.at(index));
        reach = match reach {
            Some(reach) => Some(Reach {
                low: reach.low.min(place),
                high: reach.high.max(place),
            }),
            None => Some(Reach::between(place, place)),
        };
    }
    reach
}

/// The approximate interval of a shape. `None` for a reference.
pub(crate) fn shape_reach(line: Line, element: &Element) -> Option<Reach> {
    match element {
        Element::Boundary(boundary) => reach_of(line, &boundary.points),
        Element::Path(path) => {
            let path = path.get();
            Some(reach_of(line, &path.points)?.wider(path.width / 2))
        }
        Element::Reference(_) => None,
    }
}

/// A node that is placed along a line, `times` times at the same position.
#[derive(Clone, Copy)]
pub(crate) struct Instances {
    pub node: usize,
    pub line: Line,
    pub times: u64,
}

/// The instances of a reference. Those at the same position are one.
#[derive(Clone, Copy)]
pub(crate) struct Array<'a> {
    reference: &'a Reference,
    node: usize,
    line: Line,
    times: u64,
    columns: u64,
    rows: u64,
}

impl<'a> Array<'a> {
    /// The instances of a reference that belongs to a structure placed in this way.
    fn of(reference: &'a Reference, node: usize, placed: Instances) -> Array<'a> {
        let (mut columns, mut rows) = (u64::from(reference.columns), u64::from(reference.rows));
        let mut times = placed.times;
        if along(placed.line.axis, reference.column_step) == 0 {
            times = times.saturating_mul(columns);
            columns = 1;
        }
        if along(placed.line.axis, reference.row_step) == 0 {
            times = times.saturating_mul(rows);
            rows = 1;
        }
        Array {
            reference,
            node,
            line: placed.line,
            times,
            columns,
            rows,
        }
    }

    /// How many there are.
    pub fn count(self) -> u64 {
        self.columns.saturating_mul(self.rows)
    }

    /// The instances with a number.
    pub fn at(self, number: u64) -> Instances {
        let rows = self.rows.max(1);
        let column = i64::try_from(number / rows).unwrap_or(0);
        let row = i64::try_from(number % rows).unwrap_or(0);
        let column_step = along(self.line.axis, self.reference.column_step);
        let row_step = along(self.line.axis, self.reference.row_step);
        let by = column_step
            .wrapping_mul(column)
            .wrapping_add(row_step.wrapping_mul(row));
        Instances {
            node: self.node,
            line: self.line.of_instance(self.reference, by),
            times: self.times,
        }
    }
}

/// The array of a child of a placed structure, if it places a node of the same library.
pub(crate) fn array_of<'a>(
    elements: &'a [Element],
    element: usize,
    target: Target,
    placed: Instances,
) -> Option<Array<'a>> {
    match (elements.get(element)?, target) {
        (Element::Reference(reference), Target::Own(node)) => {
            Some(Array::of(reference.get(), node, placed))
        }
        _ => None,
    }
}
