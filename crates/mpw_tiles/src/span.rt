//! One direction of a grid: consecutive intervals of one length.

ghost use Rattle.std.specs.Prelude.{◌≡◌, ◌↔◌, ◌≤◌, ◌<◌, min, ℕ, ◌*◌, pos, ◌+ℤ◌, ◌<ℤ◌};
ghost use Rattle.mpw_geom.specs.Plane.{IsCoordinate};
ghost use Rattle.mpw_tiles.specs.Grid.{sides_between};
ghost use Rattle.mpw_tiles.specs.Internal.Grid.{IsStretch};

/// How many whole sides lie from one coordinate to a later one.
pub(crate) fn sides_between(side: u32, from: i64, to: i64) -> u64
    requires { 1 ≤ side }
    ensures { result ≡ sides_between side from to }
{
    to.abs_diff(from) / u64::from(side)
}

/// `intervals`, but at most `count`.
fn up_to(intervals: u64, count: u32) -> u32
    ensures { result ≡ min intervals count }
{
    intervals.min(u64::from(count)) as u32
}

/// The first of `count` intervals that ends after `low`, and the first that doesn't begin before `high`. The
/// first interval begins at `origin`, and each is `side` long.
pub(crate) fn span(origin: i64, side: u32, count: u32, low: i64, high: i64) -> (u32, u32)
    requires side { 1 ≤ side }
    requires origin { IsCoordinate origin }
    requires stretch { IsStretch low high }
    ensures first { result.0 ≤ count }
    ensures end { result.1 ≤ count }
    ensures exact { (n : ℕ) → n < count → ((result.0 ≤ n) × (n < result.1))
        ↔ (((origin +ℤ pos (n * side)) <ℤ high) × (low <ℤ (origin +ℤ pos (n * side) +ℤ pos side))) }
{
    let first = up_to(sides_between(side, origin, low.max(origin)), count);
    let end = if high <= origin {
        0
    } else {
        up_to(sides_between(side, origin, high - 1) + 1, count)
    };
    (first, end)
}
