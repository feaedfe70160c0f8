//! A hash code of contents that doesn't depend on their position. Nothing here takes memory.

ghost use Rattle.std.specs.Prelude.{◌≡◌, List};
ghost use Rattle.mpw_geom.specs.declared.plane.Point.{Point};
ghost use Rattle.mpw_columns_contents.specs.declared.thing.Thing.{Thing};
ghost use Rattle.mpw_columns_contents.specs.Codes.{mixed, with_place, shape_code, array_code, thing_code, code_of};
ghost use Rattle.mpw_columns_contents.specs.Displaced.{AreMoved};

use crate::contents::Contents;
use crate::displaced::place;
use crate::thing::{Array, Shape, Thing};
use mpw_geom::Point;

/// The prime that mixes numbers.
const PRIME: u64 = 1_099_511_628_211;

/// A hash code with one more number.
#[tactic(auto, unfolding(crate::specs::Codes::mixed))]
fn mixed(code: u64, number: u64) -> u64
    ensures { result ≡ mixed code number }
{
    code.wrapping_mul(PRIME).wrapping_add(number)
}

/// A hash code with the displacement from one point to another.
fn with_place(code: u64, from: Point, at: Point) -> u64
    ensures { result ≡ with_place code from at }
{
    let code = mixed(code, at.x.abs_diff(from.x));
    mixed(code, at.y.abs_diff(from.y))
}

fn shape_code(from: Point, code: u64, shape: &Shape) -> u64
    ensures { result ≡ shape_code from code shape.now }
{
    let code = mixed(code, shape.structure as u64);
    let code = mixed(code, shape.element as u64);
    with_place(code, from, shape.placing.by)
}

fn array_code(from: Point, code: u64, array: &Array) -> u64
    ensures { result ≡ array_code from code array.now }
{
    let code = mixed(code, array.structure as u64);
    let code = mixed(code, u64::from(array.columns));
    let code = mixed(code, u64::from(array.rows));
    with_place(code, from, array.first.by)
}

fn thing_code(from: Point, code: u64, thing: &Thing) -> u64
    ensures { result ≡ thing_code from code thing.now }
{
    match thing {
        Thing::Shape(shape) => shape_code(from, code, shape),
        Thing::Array(array) => array_code(from, code, array),
    }
}

/// A hash code of contents: of their entries and the distance of each from the first. Displaced contents have the same
/// code. Other contents may have it too, so contents with equal codes must be compared by [`crate::displacement`].
///
/// Cost: linear in the entries. Takes no memory.
pub fn code(contents: &Contents) -> u64
    ensures code { result ≡ code_of contents.now }
    ensures stays { (d : Point) (others : List Thing) → AreMoved d contents.now others → code_of others ≡ result }
{
    let things = contents.things();
    if things.is_empty() {
        return 0;
    }
    let from = place(&things[0]);
    let mut code = 0;
    for thing in things {
        code = thing_code(from, code, thing);
    }
    code
}
