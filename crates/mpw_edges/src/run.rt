//! The results of a check: maximal runs of rows.

ghost use Rattle.std.specs.Prelude.{◌≡◌};
ghost use Rattle.mpw_edges.specs.Pieces.{box_of};

use mpw_geom::Box2;

/// The direction of the edges: `V` is vertical, `H` horizontal.
#[derive(Clone, Copy, PartialEq, Eq, PartialOrd, Ord)]
pub enum Axis {
    /// `x1` and `x2` are x coordinates, and the rows go along y.
    V,
    /// `x1` and `x2` are y coordinates, and the rows go along x.
    H,
}

/// A maximal run of the rows from `y0` to before `y1` with edges at `x1` and `x2`, in nm. On axis
/// `H` the coordinates are exchanged. The side is 0 or 1: it says which layer is at `x1`.
#[derive(Clone, Copy, PartialEq, Eq)]
pub struct Piece {
    /// The direction of both edges.
    pub axis: Axis,
    /// 0 if the edge at `x1` is the first layer's, 1 if it is the second's; 0 for the checks of one layer.
    pub side: u8,
    /// The first edge, in nm.
    pub x1: i64,
    /// The second edge, in nm: at least `x1`, and less than the rule's distance beyond it.
    pub x2: i64,
    /// The first row, in nm.
    pub y0: i64,
    /// The row after the last one, above `y0`, in nm.
    pub y1: i64,
}

impl Piece {
    /// The closed box: on axis `V` from `x1` to `x2` over its rows, on `H` with the coordinates exchanged.
    pub fn closed_box(&self) -> Box2
        ensures { result ≡ box_of self.now }
    {
        match self.axis {
            Axis::V => Box2 {
                x0: self.x1,
                y0: self.y0,
                x1: self.x2,
                y1: self.y1,
            },
            Axis::H => Box2 {
                x0: self.y0,
                y0: self.x1,
                x1: self.y1,
                y1: self.x2,
            },
        }
    }
}
