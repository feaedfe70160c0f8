//! The tests that a placement passes before it is added to the table. None takes memory.

ghost use Rattle.std.specs.Prelude.{◌≡◌, ◌<◌, ◌≤◌, ◌^◌, length};
ghost use Rattle.mpw_walk.specs.Roots.{root_extent, roots_count};
ghost use Rattle.mpw_placings.specs.Placements.{is_far};

use mpw_hier::Shelf;
use mpw_walk::Root;

/// Whether a shape of a submission on the shelf reaches beyond -2^30 to 2^30 nm at its place.
pub(crate) fn is_far(shelf: &Shelf, root: &Root) -> bool
    requires { root.now.submission < length shelf.now }
    ensures { result ≡ is_far (root_extent shelf.now root.now) }
{
    !root.fits(shelf)
}

/// The most flat shapes of all placements on a wafer together, 2^20. (A snapshot may have more.)
pub const MAX_SHAPES: u64 = 1 << 20;

/// The number of flat shapes of the roots. Linear in the roots.
pub(crate) fn shape_count(shelf: &Shelf, roots: &[Root]) -> u64
    requires { length roots.now ≤ 4096 }
    ensures count { result ≡ roots_count shelf.now roots.now }
    ensures most { result ≤ 2 ^ 52 }
{
    let mut count = 0u64;
    for root in roots {
        count += shelf.count(root.submission);
    }
    count
}
