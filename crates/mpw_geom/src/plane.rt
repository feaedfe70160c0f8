//! Points, boxes, layers and orientations. Coordinates are whole nanometres.

ghost use Rattle.std.specs.Prelude.{◌≡◌, ◌↔◌, IsTrue, int_le, ◌≤ℤ◌, pos};
ghost use Rattle.std.specs.Int.{int_max, int_min};
ghost use Rattle.mpw_geom.specs.Plane.{box_at, box_between, has_point, intersection, joined};
ghost use Rattle.mpw_geom.specs.declared.plane.Point.{Point};

/// A point, in nm.
#[derive(Clone, Copy, PartialEq, Eq)]
pub struct Point {
    /// Grows to the right. Callers ensure that it is within -2^48 to 2^48.
    pub x: i64,
    /// Grows upwards. Callers ensure that it is within -2^48 to 2^48.
    pub y: i64,
}

/// The closed box from `(x0, y0)` to `(x1, y1)`, in nm, with `x0 <= x1` and `y0 <= y1`.
#[derive(Clone, Copy, PartialEq, Eq)]
pub struct Box2 {
    /// The left side.
    pub x0: i64,
    /// The lower side.
    pub y0: i64,
    /// The right side. The last column of the box's unit squares is the one before it.
    pub x1: i64,
    /// The upper side. The last row of the box's unit squares is the one before it.
    pub y1: i64,
}

/// A layer number with its datatype, each 0 to 65535 (GDSII Stream, LAYER and DATATYPE).
#[derive(Clone, Copy, PartialEq, Eq)]
pub struct Layer {
    /// The number of LAYER.
    pub layer: u16,
    /// The number of DATATYPE, or of BOXTYPE for a BOX.
    pub datatype: u16,
}

/// One of the eight orientations. `R` turns counterclockwise by the degrees in its name; `M` mirrors
/// about the x axis first and then turns.
#[derive(Clone, Copy, PartialEq, Eq)]
pub enum Orient {
    /// Leaves (x, y) unchanged.
    R0,
    /// Takes (x, y) to (-y, x).
    R90,
    /// Takes (x, y) to (-x, -y).
    R180,
    /// Takes (x, y) to (y, -x).
    R270,
    /// Takes (x, y) to (x, -y).
    M0,
    /// Takes (x, y) to (y, x).
    M90,
    /// Takes (x, y) to (-x, y).
    M180,
    /// Takes (x, y) to (-y, -x).
    M270,
}

impl Box2 {
    /// The box that consists of the point.
    pub fn at(p: Point) -> Box2
        ensures { result ≡ box_at p }
    {
        let Point { x, y } = p;
        Box2 {
            x0: x,
            y0: y,
            x1: x,
            y1: y,
        }
    }

    /// The box that has the two points as opposite corners, in either order.
    #[tactic(auto, unfolding(crate::specs::Plane::box_between))]
    pub fn between(p: Point, q: Point) -> Box2
        ensures { result ≡ box_between p q }
    {
        Box2::at(p).join(Box2::at(q))
    }

    /// The least box that contains both (KLayout's `Box#join`).
    pub fn join(self, other: Box2) -> Box2
        ensures { result ≡ joined self other }
    {
        Box2 {
            x0: self.x0.min(other.x0),
            y0: self.y0.min(other.y0),
            x1: self.x1.max(other.x1),
            y1: self.y1.max(other.y1),
        }
    }

    /// The intersection of both boxes. If they share no point, its corners are out of order.
    pub fn intersection(self, other: Box2) -> Box2
        ensures { result ≡ intersection self other }
    {
        Box2 {
            x0: self.x0.max(other.x0),
            y0: self.y0.max(other.y0),
            x1: self.x1.min(other.x1),
            y1: self.y1.min(other.y1),
        }
    }

    /// Whether the two closed boxes share a point. A common corner or edge is enough. Takes no
    /// memory.
    pub fn meets(self, other: Box2) -> bool
        ensures { IsTrue result ↔ ((p : Point) × IsTrue (has_point self p) × IsTrue (has_point other p)) }
    {
        self.shares_column(other) && self.shares_row(other)
    }

    fn shares_column(self, other: Box2) -> bool
        ensures { result ≡ int_le (int_max self.x0 other.x0) (int_min self.x1 other.x1) }
    {
        self.x0.max(other.x0) <= self.x1.min(other.x1)
    }

    fn shares_row(self, other: Box2) -> bool
        ensures { result ≡ int_le (int_max self.y0 other.y0) (int_min self.y1 other.y1) }
    {
        self.y0.max(other.y0) <= self.y1.min(other.y1)
    }
}
