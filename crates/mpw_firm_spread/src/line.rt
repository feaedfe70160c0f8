//! Where placed structures and their shapes lie along an axis. Sums wrap: they decide an estimate, and nothing else.

use mpw_edges::Axis;
use mpw_geom::{Box2, Point};
use mpw_structures::{Element, Points, Reference};

/// An interval along an axis.
#[derive(Clone, Copy)]
pub(crate) struct Reach {
    pub(crate) low: i64,
    pub(crate) high: i64,
}

impl Reach {
    /// The interval between two positions.
    fn between(a: i64, b: i64) -> Reach {
        Reach {
            low: a.min(b),
            high: a.max(b),
        }
    }

    /// The interval that reaches a position too.
    fn with(self, at: i64) -> Reach {
        Reach {
            low: self.low.min(at),
            high: self.high.max(at),
        }
    }

    /// The interval extended on both sides.
    fn wider(self, by: i64) -> Reach {
        Reach {
            low: self.low.wrapping_sub(by),
            high: self.high.wrapping_add(by),
        }
    }

    /// The interval of this one and of all its displacements by up to `by`.
    pub(crate) fn stretched(self, by: i64) -> Reach {
        Reach {
            low: self.low.wrapping_add(by.min(0)),
            high: self.high.wrapping_add(by.max(0)),
        }
    }
}

/// How a placed structure's coordinates lead along an axis: position 0 is at `from`, and x and y count as often as these factors say. One of
/// them is 1 or -1, and the other is 0.
#[derive(Clone, Copy)]
pub(crate) struct Line {
    from: i64,
    x: i64,
    y: i64,
}

impl Line {
    /// The coordinates of the top, along an axis.
    pub(crate) fn of_top(axis: Axis) -> Line {
        match axis {
            Axis::V => Line {
                from: 0,
                x: 1,
                y: 0,
            },
            Axis::H => Line {
                from: 0,
                x: 0,
                y: 1,
            },
        }
    }

    /// How far a displacement leads along the axis.
    pub(crate) fn along(self, way: Point) -> i64 {
        let x = self.x.wrapping_mul(way.x);
        x.wrapping_add(self.y.wrapping_mul(way.y))
    }

    /// The position of a point.
    fn at(self, point: Point) -> i64 {
        self.from.wrapping_add(self.along(point))
    }

    /// The coordinates of the first instance that a reference places.
    pub(crate) fn of_first(self, reference: &Reference) -> Line {
        let x = reference.orient.apply(Point { x: 1, y: 0 });
        let y = reference.orient.apply(Point { x: 0, y: 1 });
        Line {
            from: self.at(reference.origin),
            x: self.along(x),
            y: self.along(y),
        }
    }

    /// The same coordinates, displaced along the axis.
    pub(crate) fn displaced(self, by: i64) -> Line {
        Line {
            from: self.from.wrapping_add(by),
            x: self.x,
            y: self.y,
        }
    }

    /// The interval of a box.
    pub(crate) fn reach_of_box(self, b: &Box2) -> Reach {
        let low = self.at(Point { x: b.x0, y: b.y0 });
        let high = self.at(Point { x: b.x1, y: b.y1 });
        Reach::between(low, high)
    }

    /// The interval of points. `None` if there are none.
    fn reach_of_points(self, points: &Points) -> Option<Reach> {
        let mut reach: Option<Reach> = None;
        for index in 0..points.len() {
            let at = self.at(points.at(index));
            reach = match reach {
                Some(reach) => Some(reach.with(at)),
                None => Some(Reach::between(at, at)),
            };
        }
        reach
    }

    /// The approximate interval of a shape. `None` for a reference.
    pub(crate) fn reach_of_shape(self, element: &Element) -> Option<Reach> {
        match element {
            Element::Boundary(boundary) => self.reach_of_points(&boundary.points),
            Element::Path(path) => {
                let path = path.get();
                Some(self.reach_of_points(&path.points)?.wider(path.width / 2))
            }
            Element::Reference(_) => None,
        }
    }
}
