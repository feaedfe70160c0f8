//! Points, boxes and placings.

ghost use Rattle.mpw_geom.specs.Plane.{IsCoordinate, IsInPlane, IsBoxInPlane, IsOrdered};

use anyhow::{Result, bail};
use gate_words::{Words, is_coordinate, orient_word};
use mpw_geom::{Box2, Placing, Point};
use std::io;

/// The coordinate, or 0 and a note that a word is wrong.
fn within(words: &mut Words<'_>, z: i64) -> i64
    ensures { IsCoordinate result }
{
    if is_coordinate(z) {
        return z;
    }
    words.fail();
    0
}

fn point(words: &mut Words<'_>) -> Point
    ensures { IsInPlane result }
{
    let Point { x, y } = words.point();
    let x = within(words, x);
    let y = within(words, y);
    Point { x, y }
}

fn boxed(words: &mut Words<'_>) -> Box2
    ensures ordered { IsOrdered result }
    ensures in_plane { IsBoxInPlane result }
{
    let Point { x: x0, y: y0 } = point(words);
    let Point { x: x1, y: y1 } = point(words);
    if x0 <= x1 && y0 <= y1 {
        return Box2 { x0, y0, x1, y1 };
    }
    words.fail();
    Box2 {
        x0,
        y0,
        x1: x0,
        y1: y0,
    }
}

/// The placing, with its displacement in the plane.
fn in_plane(words: &mut Words<'_>, placing: Placing) -> Placing
    ensures { IsInPlane result.by }
{
    let Placing { orient, by } = placing;
    let x = within(words, by.x);
    let y = within(words, by.y);
    let by = Point { x, y };
    Placing { orient, by }
}

fn placing(words: &mut Words<'_>) -> Placing
    ensures { IsInPlane result.by }
{
    let placing = words.placing();
    in_plane(words, placing)
}

fn print_point(rt: &HostRuntime, found: Point) -> io::Result<()> {
    println!(rt; "    {} {}", found.x, found.y)
}

fn print_box(rt: &HostRuntime, b: Box2) -> io::Result<()> {
    println!(rt; "    {} {} {} {}", b.x0, b.y0, b.x1, b.y1)
}

/// A placing, and another one after it if there are words left.
fn placing_of_both(words: &mut Words<'_>) -> Placing
    ensures { IsInPlane result.by }
{
    let inner = placing(words);
    if words.is_empty() {
        return inner;
    }
    let outer = placing(words);
    in_plane(words, inner.then(outer))
}

fn print_meets(rt: &HostRuntime, first: Box2, second: Box2) -> io::Result<()> {
    let answer = if first.meets(second) {
        "meets"
    } else {
        "apart"
    };
    println!(rt; "    {answer}")
}

/// Answers a command of the plane.
pub fn answer(rt: &HostRuntime, verb: &str, words: &mut Words<'_>, behind: &str) -> Result<()> {
    let more = &mut Words::of(behind);
    match verb {
        "point" => print_point(rt, placing_of_both(words).apply(point(more)))?,
        "box" => print_box(rt, placing(words).apply_box(boxed(more)))?,
        "meets" => print_meets(rt, boxed(words), boxed(more))?,
        "between" => print_box(rt, Box2::between(point(words), point(words)))?,
        "inverse" => println!(rt; "    {}", orient_word(words.orient().inverse()))?,
        _ => bail!("a command"),
    }
    more.end()
}
