//! Placings: an orientation and then a displacement (GDSII Stream release 6, SREF and AREF).
//!
//! No call here takes memory. Callers ensure that coordinates are between -2^48 and 2^48 nm, so that no sum
//! wraps.

ghost use Rattle.std.specs.Prelude.{◌≡◌, ◌↔◌, IsTrue};
ghost use Rattle.mpw_geom.specs.Plane.{IsInPlane, IsBoxInPlane, IsOrdered, Square, has_point, has_square};
ghost use Rattle.mpw_geom.specs.Placing.{oriented_point, oriented_square, undoing, mirrored_point, mirrored_square, turned_point, turned_square, placed_point, placed_square, PlacedSquaresHavePlacedPoints};
ghost use Rattle.mpw_geom.specs.declared.plane.Point.{Point};

use crate::plane::{Box2, Orient, Point};

/// How a structure is placed in its parent: mirrored and turned by `orient`, then displaced by `by`, in nm.
#[derive(Clone, Copy)]
pub struct Placing {
    /// How it is mirrored and turned, about the origin of its own coordinates.
    pub orient: Orient,
    /// Where that origin is placed.
    pub by: Point,
}

impl Orient {
    /// The image of a point, about the origin.
    pub fn apply(self, p: Point) -> Point
        requires { IsInPlane p }
        ensures point { result ≡ oriented_point self p }
        ensures in_plane { IsInPlane result }
    {
        let Point { x, y } = p;
        match self {
            Orient::R0 => p,
            Orient::R90 => Point { x: -y, y: x },
            Orient::R180 => Point { x: -x, y: -y },
            Orient::R270 => Point { x: y, y: -x },
            Orient::M0 => Point { x, y: -y },
            Orient::M90 => Point { x: y, y: x },
            Orient::M180 => Point { x: -x, y },
            Orient::M270 => Point { x: -y, y: -x },
        }
    }

    /// The orientation that undoes this one.
    pub fn inverse(self) -> Orient
        ensures left { (p : Point) → oriented_point result (oriented_point self p) ≡ p }
        ensures right { (p : Point) → oriented_point self (oriented_point result p) ≡ p }
        ensures left_squares { (s : Square) → oriented_square result (oriented_square self s) ≡ s }
        ensures right_squares { (s : Square) → oriented_square self (oriented_square result s) ≡ s }
    {
        self.undoing()
    }

    // Separate from `inverse`, so that its four clauses are proved once and not for each orientation.
    fn undoing(self) -> Orient
        ensures { result ≡ undoing self }
    {
        match self {
            Orient::R0 => Orient::R0,
            Orient::R90 => Orient::R270,
            Orient::R180 => Orient::R180,
            Orient::R270 => Orient::R90,
            Orient::M0 => Orient::M0,
            Orient::M90 => Orient::M90,
            Orient::M180 => Orient::M180,
            Orient::M270 => Orient::M270,
        }
    }

    /// The orientation that is this one followed by `next`.
    #[tactic(auto, unfolding(crate::specs::Placing::oriented_point, crate::specs::Placing::oriented_square))]
    pub fn then(self, next: Orient) -> Orient
        ensures points { (p : Point) → oriented_point result p ≡ oriented_point next (oriented_point self p) }
        ensures squares { (s : Square) → oriented_square result s ≡ oriented_square next (oriented_square self s) }
    {
        match next {
            Orient::R0 => self,
            Orient::R90 => self.turn(),
            Orient::R180 => self.turn_twice(),
            Orient::R270 => self.turn_twice().turn(),
            Orient::M0 => self.mirror(),
            Orient::M90 => self.mirror().turn(),
            Orient::M180 => self.mirror().turn_twice(),
            Orient::M270 => self.mirror().turn_twice().turn(),
        }
    }

    #[tactic(auto, using(crate::proofs::Turns::negations), unfolding(crate::specs::Placing::oriented_point, crate::specs::Placing::oriented_square))]
    fn turn(self) -> Orient
        ensures points { (p : Point) → oriented_point result p ≡ turned_point (oriented_point self p) }
        ensures squares { (s : Square) → oriented_square result s ≡ turned_square (oriented_square self s) }
    {
        match self {
            Orient::R0 => Orient::R90,
            Orient::R90 => Orient::R180,
            Orient::R180 => Orient::R270,
            Orient::R270 => Orient::R0,
            Orient::M0 => Orient::M90,
            Orient::M90 => Orient::M180,
            Orient::M180 => Orient::M270,
            Orient::M270 => Orient::M0,
        }
    }

    fn turn_twice(self) -> Orient
        ensures points { (p : Point) → oriented_point result p ≡ turned_point (turned_point (oriented_point self p)) }
        ensures squares { (s : Square) → oriented_square result s ≡ turned_square (turned_square (oriented_square self s)) }
    {
        self.turn().turn()
    }

    #[tactic(auto, using(crate::proofs::Turns::negations), unfolding(crate::specs::Placing::oriented_point, crate::specs::Placing::oriented_square))]
    fn mirror(self) -> Orient
        ensures points { (p : Point) → oriented_point result p ≡ mirrored_point (oriented_point self p) }
        ensures squares { (s : Square) → oriented_square result s ≡ mirrored_square (oriented_square self s) }
    {
        match self {
            Orient::R0 => Orient::M0,
            Orient::R90 => Orient::M270,
            Orient::R180 => Orient::M180,
            Orient::R270 => Orient::M90,
            Orient::M0 => Orient::R0,
            Orient::M90 => Orient::R270,
            Orient::M180 => Orient::R180,
            Orient::M270 => Orient::R90,
        }
    }
}

impl Placing {
    /// The image of a point.
    #[tactic(auto, unfolding(crate::specs::Placing::placed_point))]
    pub fn apply(self, p: Point) -> Point
        requires point { IsInPlane p }
        requires displacement { IsInPlane self.by }
        ensures { result ≡ placed_point self p }
    {
        let Point { x, y } = self.orient.apply(p);
        Point {
            x: x + self.by.x,
            y: y + self.by.y,
        }
    }

    /// The image of a box: the box of the images of its corners.
    pub fn apply_box(self, b: Box2) -> Box2
        requires ordered { IsOrdered b }
        requires corners { IsBoxInPlane b }
        requires displacement { IsInPlane self.by }
        ensures points { (p : Point) → has_point result (placed_point self p) ≡ has_point b p }
        ensures squares { (s : Square) → has_square result (placed_square self s) ≡ has_square b s }
    {
        let p = self.apply(Point { x: b.x0, y: b.y0 });
        let q = self.apply(Point { x: b.x1, y: b.y1 });
        Box2::between(p, q)
    }

    /// The placing that is this one followed by `next`.
    pub fn then(self, next: Placing) -> Placing
        requires inner { IsInPlane self.by }
        requires outer { IsInPlane next.by }
        ensures displacement { result.by ≡ placed_point next self.by }
        ensures points { (p : Point) → placed_point result p ≡ placed_point next (placed_point self p) }
        ensures squares { (s : Square) → placed_square result s ≡ placed_square next (placed_square self s) }
    {
        Placing {
            orient: self.orient.then(next.orient),
            by: next.apply(self.by),
        }
    }
}

/// A law about the definitions: a placing takes the points of a closed unit square exactly to the points of the
/// placed closed unit square.
pub fn squares_go_with_points()
    ensures { PlacedSquaresHavePlacedPoints }
{}
