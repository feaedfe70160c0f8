//! The least boxes that contain others. Nothing here takes memory.

ghost use Rattle.std.specs.Prelude.{◌≡◌};
ghost use Rattle.mpw_hier.specs.Boxes.{hull, has_area, is_near, is_box_near};
ghost use Rattle.mpw_geom.specs.Plane.{joined};

use mpw_geom::Box2;

/// The greatest absolute coordinate of an extent, in nm.
const MAX_COORDINATE: i128 = 1 << 30;

/// The least box that contains both. `None` if both are `None`.
pub fn hull(a: Option<Box2>, b: Option<Box2>) -> Option<Box2>
    ensures { result ≡ hull a b }
{
    match (a, b) {
        (None, b) => b,
        (a, None) => a,
        (Some(a), Some(b)) => Some(a.join(b)),
    }
}

/// Whether the box has a unit square.
pub fn has_area(b: Box2) -> bool
    ensures { result ≡ has_area b }
{
    b.x0 < b.x1 && b.y0 < b.y1
}

/// Whether a coordinate lies from -2^30 to 2^30 nm.
pub fn is_near(z: i128) -> bool
    ensures { result ≡ is_near z }
{
    -MAX_COORDINATE <= z && z <= MAX_COORDINATE
}

/// Whether both corners lie from -2^30 to 2^30 nm, as those of each extent on a shelf do.
pub fn is_box_near(b: Box2) -> bool
    ensures { result ≡ is_box_near b }
{
    is_near(i128::from(b.x0))
        & is_near(i128::from(b.y0))
        & is_near(i128::from(b.x1))
        & is_near(i128::from(b.y1))
}
