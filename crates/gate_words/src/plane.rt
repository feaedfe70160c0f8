//! Orientations, placings and boxes.

ghost use Rattle.std.specs.Prelude.{◌≡◌, ◌↔◌, true};
ghost use Rattle.mpw_geom.specs.Plane.{IsCoordinate, IsBoxInPlane, IsOrdered};

use crate::numerals::coordinate;
use anyhow::{Result, bail};
use mpw_geom::{Box2, Orient, Placing, Point};

/// The farthest coordinate, in nm.
const FAR: i64 = 1 << 48;

/// The orientations by their words.
pub const ORIENTS: [(&str, Orient); 8] = [
    ("R0", Orient::R0),
    ("R90", Orient::R90),
    ("R180", Orient::R180),
    ("R270", Orient::R270),
    ("M0", Orient::M0),
    ("M90", Orient::M90),
    ("M180", Orient::M180),
    ("M270", Orient::M270),
];

/// The orientation of a word, or none.
pub fn orient_of(word: &str) -> Option<Orient> {
    for (name, orient) in ORIENTS {
        if name == word {
            return Some(orient);
        }
    }
    None
}

/// The orientation of a word.
///
/// # Errors
/// No orientation has the word.
pub fn orient(word: &str) -> Result<Orient> {
    match orient_of(word) {
        Some(orient) => Ok(orient),
        None => bail!("an orientation"),
    }
}

/// The word of an orientation.
pub fn orient_word(wanted: Orient) -> &'static str {
    for (name, orient) in ORIENTS {
        if orient == wanted {
            return name;
        }
    }
    "none"
}

/// An orientation and a displacement in nm.
///
/// # Errors
/// A word is no orientation or no coordinate.
pub fn placing(turn: &str, x: &str, y: &str) -> Result<Placing> {
    let orient = orient(turn)?;
    let by = Point {
        x: coordinate(x)?,
        y: coordinate(y)?,
    };
    Ok(Placing { orient, by })
}

/// The box of four words.
///
/// # Errors
/// There are more or fewer words, or one is no coordinate.
pub fn coordinates(words: &[&str]) -> Result<Box2> {
    let [x0, y0, x1, y1] = words else {
        bail!("four coordinates");
    };
    Ok(Box2 {
        x0: coordinate(x0)?,
        y0: coordinate(y0)?,
        x1: coordinate(x1)?,
        y1: coordinate(y1)?,
    })
}

/// Whether a coordinate is from -2^48 to 2^48 nm.
pub fn is_coordinate(z: i64) -> bool
    ensures { (result ≡ true) ↔ IsCoordinate z }
{
    -FAR <= z && z <= FAR
}

/// Whether the coordinates of the box's corners are from -2^48 to 2^48 nm.
pub fn is_near(b: &Box2) -> bool
    ensures { (result ≡ true) ↔ IsBoxInPlane b.now }
{
    is_coordinate(b.x0) & is_coordinate(b.y0) & is_coordinate(b.x1) & is_coordinate(b.y1)
}

/// Whether the box's first corner is its lower left one.
pub fn is_ordered(b: &Box2) -> bool
    ensures { (result ≡ true) ↔ IsOrdered b.now }
{
    b.x0 <= b.x1 && b.y0 <= b.y1
}
