//! Rectangles that are in the plane.

ghost use Rattle.std.specs.Prelude.{◌≡◌, ◌↔◌, true, All};
ghost use Rattle.mpw_geom.specs.Plane.{IsBoxInPlane};

use gate_words::is_near;
use mpw_tiles::Rectangle;

/// Whether the coordinates of all corners of rectangles are from -2^48 to 2^48 nm.
pub fn all_near(rectangles: &[Rectangle]) -> bool
    ensures { (result ≡ true) ↔ All (λ r. IsBoxInPlane r.area) rectangles.now }
{
    rectangles.iter().all(|rectangle| is_near(&rectangle.area))
}
