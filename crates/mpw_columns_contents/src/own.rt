//! Converts a window to the coordinates of a placed structure. What misses it there can be left out without being placed. Nothing here
//! takes memory.

ghost use Rattle.std.specs.Prelude.{◌≡◌, IfSome};
ghost use Rattle.mpw_columns_contents.specs.Internal.Own.{back, own_window, reversed, unturned};

use mpw_geom::{Box2, Orient, Placing, Point};

/// A box before a displacement. `None` if 64 bits are too few.
fn back(b: &Box2, by: Point) -> Option<Box2>
    ensures { IfSome result (λ m. m ≡ back by b.now) }
{
    let x0 = b.x0.checked_sub(by.x)?;
    let y0 = b.y0.checked_sub(by.y)?;
    let x1 = b.x1.checked_sub(by.x)?;
    let y1 = b.y1.checked_sub(by.y)?;
    Some(Box2 { x0, y0, x1, y1 })
}

/// A box mirrored at the origin. `None` if 64 bits are too few.
fn reversed(b: &Box2) -> Option<Box2>
    ensures { IfSome result (λ m. m ≡ reversed b.now) }
{
    let x0 = b.x1.checked_neg()?;
    let y0 = b.y1.checked_neg()?;
    let x1 = b.x0.checked_neg()?;
    let y1 = b.y0.checked_neg()?;
    Some(Box2 { x0, y0, x1, y1 })
}

/// The box that an orientation takes to a given one. `back` is that one mirrored at the origin.
fn unturned(orient: Orient, b: &Box2, back: &Box2) -> Box2
    requires { back.now ≡ reversed b.now }
    ensures { result ≡ unturned orient b.now }
{
    match orient {
        Orient::R0 => *b,
        Orient::R90 => Box2 {
            x0: b.y0,
            y0: back.x0,
            x1: b.y1,
            y1: back.x1,
        },
        Orient::R180 => *back,
        Orient::R270 => Box2 {
            x0: back.y0,
            y0: b.x0,
            x1: back.y1,
            y1: b.x1,
        },
        Orient::M0 => Box2 {
            x0: b.x0,
            y0: back.y0,
            x1: b.x1,
            y1: back.y1,
        },
        Orient::M90 => Box2 {
            x0: b.y0,
            y0: b.x0,
            x1: b.y1,
            y1: b.x1,
        },
        Orient::M180 => Box2 {
            x0: back.x0,
            y0: b.y0,
            x1: back.x1,
            y1: b.y1,
        },
        Orient::M270 => Box2 {
            x0: back.y0,
            y0: back.x0,
            x1: back.y1,
            y1: back.x1,
        },
    }
}

/// The window in the coordinates of a placed structure. `None` if 64 bits are too few.
pub fn own_window(placing: &Placing, window: &Box2) -> Option<Box2>
    ensures { IfSome result (λ own. own ≡ own_window placing.now window.now) }
{
    let before = back(window, placing.by)?;
    let reverse = reversed(&before)?;
    Some(unturned(placing.orient, &before, &reverse))
}
