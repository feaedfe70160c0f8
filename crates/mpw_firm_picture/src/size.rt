//! The sizes of a drawing, in nm and in pixels.
ghost use Rattle.std.specs.Prelude.{◌≡◌, ◌≤◌, ◌<◌, ◌^◌};
ghost use Rattle.mpw_firm_picture.specs.Windows.{side, longer_side};
ghost use Rattle.mpw_firm_picture.specs.Sizes.{pixels, drawing_breadth, drawing_height, line_breadth, ring_margin, is_small, turned, bar_lengths, last_within, bar_length};

use mpw_geom::Box2;

/// The position of a box in a drawing, in nm: x from its left edge, and y down from its top edge.
#[derive(Clone, Copy)]
pub(crate) struct Corners {
    /// Its left side: 0 is that of the window.
    pub left: i128,
    /// Its upper side: 0 is that of the window.
    pub top: i128,
    /// Its right side, `left` or more.
    pub right: i128,
    /// Its lower side, `top` or more.
    pub bottom: i128,
}

/// The position of a box of the plane in the drawing of a window. In the drawing y points down.
#[tactic(auto, unfolding(crate::specs::Sizes::turned))]
pub(crate) fn corners_of(window: Box2, area: Box2) -> Corners
    ensures { result ≡ turned window area }
{
    Corners {
        left: i128::from(area.x0) - i128::from(window.x0),
        top: i128::from(window.y1) - i128::from(area.y1),
        right: i128::from(area.x1) - i128::from(window.x0),
        bottom: i128::from(window.y1) - i128::from(area.y0),
    }
}

/// The width of a box, in nm: at least 1.
#[tactic(auto, unfolding(crate::specs::Windows::side))]
pub(crate) fn breadth(area: Box2) -> u64
    ensures breadth { result ≡ side area.x0 area.x1 }
    ensures some { 1 ≤ result }
{
    area.x1.abs_diff(area.x0).max(1)
}

/// The height of a box, in nm: at least 1.
#[tactic(auto, unfolding(crate::specs::Windows::side))]
pub(crate) fn height(area: Box2) -> u64
    ensures height { result ≡ side area.y0 area.y1 }
    ensures some { 1 ≤ result }
{
    area.y1.abs_diff(area.y0).max(1)
}

/// The longer side of a box, in nm: at least 1.
#[tactic(auto, unfolding(crate::specs::Windows::longer_side))]
pub(crate) fn longer_side(area: Box2) -> u64
    ensures longer { result ≡ longer_side area }
    ensures some { 1 ≤ result }
{
    breadth(area).max(height(area))
}

/// A length of `nm` nm in a window, in pixels, rounded up.
fn pixels(window: Box2, nm: u64) -> u128
    ensures pixels { result ≡ pixels window nm }
    ensures few { result < 2 ^ 80 }
{
    let longer = u128::from(longer_side(window));
    (1000 * u128::from(nm) + longer - 1) / longer
}

/// The width of the drawing of a window, in pixels.
#[tactic(auto, unfolding(crate::specs::Sizes::drawing_breadth))]
pub(crate) fn drawing_breadth(window: Box2) -> u128
    ensures { result ≡ drawing_breadth window }
{
    pixels(window, breadth(window))
}

/// The height of the drawing of a window, in pixels.
#[tactic(auto, unfolding(crate::specs::Sizes::drawing_height))]
pub(crate) fn drawing_height(window: Box2) -> u128
    ensures height { result ≡ drawing_height window }
    ensures few { result < 2 ^ 80 }
{
    pixels(window, height(window))
}

/// The line width of a marker in a window, in nm.
#[tactic(auto, unfolding(crate::specs::Sizes::line_breadth))]
pub(crate) fn line_breadth(window: Box2) -> u64
    ensures { result ≡ line_breadth window }
{
    longer_side(window) / 300 + 1
}

/// The distance of the ring from the selected marker, in nm.
#[tactic(auto, unfolding(crate::specs::Sizes::ring_margin))]
pub(crate) fn ring_margin(window: Box2) -> u64
    ensures margin { result ≡ ring_margin window }
    ensures few { result < 2 ^ 60 }
{
    longer_side(window) / 100 + 1
}

/// Whether a box is smaller than five pixels in a window.
#[tactic(auto, unfolding(crate::specs::Sizes::is_small))]
pub(crate) fn is_small(window: Box2, area: Box2) -> bool
    ensures { result ≡ is_small window area }
{
    200 * u128::from(longer_side(area)) < u128::from(longer_side(window))
}

/// The possible lengths of a scale bar, in nm.
const BAR_LENGTHS: [u32; 27] = [
    1, 2, 5, 10, 20, 50, 100, 200, 500, 1000, 2000, 5000, 10000, 20000, 50000, 100000, 200000,
    500000, 1000000, 2000000, 5000000, 10000000, 20000000, 50000000, 100000000, 200000000,
    500000000,
];

/// The last of some lengths that is within a limit; 1 if there is none.
fn last_within(limit: u64, lengths: &[u32]) -> u32
    ensures { result ≡ last_within limit lengths.now }
{
    let mut last = 1;
    for length in lengths {
        if u64::from(*length) <= limit {
            last = *length;
        }
    }
    last
}

/// The length of the scale bar of a window, in nm.
#[tactic(auto, unfolding(crate::specs::Sizes::bar_length, crate::specs::Sizes::bar_lengths))]
pub(crate) fn bar_length(window: Box2) -> u32
    ensures { result ≡ bar_length window }
{
    last_within(longer_side(window) / 4, &BAR_LENGTHS)
}
