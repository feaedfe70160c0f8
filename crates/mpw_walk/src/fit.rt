//! Decides which roots a walk may have.

ghost use Rattle.std.specs.Prelude.{◌≡◌, ◌<◌, ◌↔◌, ◌∷◌, [], length, All, IsTrue, true};
ghost use Rattle.mpw_hier.specs.Boxes.{is_box_near, placed_box};
ghost use Rattle.mpw_hier.specs.Values.{flat};
ghost use Rattle.mpw_walk.specs.Frames.{IsWithin};
ghost use Rattle.mpw_walk.specs.Roots.{root_at_origin};
ghost use Rattle.mpw_walk.specs.Turns.{flat_roots};
ghost use Rattle.mpw_walk.specs.Walk.{IsRoot};

use crate::laws::roots_at_origin_show_their_submission;
use crate::root::Root;
use mpw_geom::{Box2, Orient, Placing, Point};
use mpw_hier::{Shelf, is_box_near};

/// The longest displacement along an axis, in nm.
const LONGEST: i64 = 1 << 31;

/// The placing of a submission where it was drawn.
const UNMOVED: Placing = Placing {
    orient: Orient::R0,
    by: Point { x: 0, y: 0 },
};

/// Whether a displacement is at most 2^31 nm along each axis.
fn is_short(by: Point) -> bool
    ensures { IsTrue result ↔ IsWithin by }
{
    -LONGEST <= by.x && by.x <= LONGEST && -LONGEST <= by.y && by.y <= LONGEST
}

/// The image of a near box under a placing.
pub fn placed_box(placing: Placing, b: Box2) -> Box2
    requires near { is_box_near b ≡ true }
    requires short { IsWithin placing.by }
    ensures { result ≡ placed_box placing b }
{
    let p = placing.apply(Point { x: b.x0, y: b.y0 });
    let q = placing.apply(Point { x: b.x1, y: b.y1 });
    Box2::between(p, q)
}

/// Whether the image of a near box is near.
fn is_placed_near(placing: Placing, b: Box2) -> bool
    requires { is_box_near b ≡ true }
    ensures { result ≡ is_box_near (placed_box placing b) }
{
    is_short(placing.by) && is_box_near(placed_box(placing, b))
}

impl Root {
    /// The submission with a number on the shelf where it was drawn, neither turned nor displaced. It is a root of any walk over the shelf.
    pub fn at_origin(shelf: &Shelf, submission: u32) -> Root
        requires { submission < length shelf.now }
        ensures is { result ≡ root_at_origin submission }
        ensures root { IsRoot shelf.now result }
        ensures shapes { flat_roots shelf.now (result ∷ []) ≡ flat shelf.now submission }
    {
        shelf.is_shelf();
        roots_at_origin_show_their_submission();
        Root {
            submission,
            placing: UNMOVED,
        }
    }

    /// Whether the submission is on the shelf, and its placed content lies within -2^30 to 2^30 nm.
    /// Takes no memory.
    pub fn fits(&self, shelf: &Shelf) -> bool
        ensures { IsTrue result ↔ IsRoot shelf.now self.now }
    {
        if shelf.get(self.submission).is_none() {
            return false;
        }
        match shelf.extent(self.submission) {
            Some(extent) => is_placed_near(self.placing, extent),
            None => true,
        }
    }
}

/// Whether all of the roots fit.
pub fn all_fit(shelf: &Shelf, roots: &[Root]) -> bool
    ensures { IsTrue result ↔ All (IsRoot shelf.now) roots.now }
{
    for root in roots {
        if !root.fits(shelf) {
            return false;
        }
    }
    true
}
