//! Origins of random boxes, compared with a search square by square.

use crate::markers::asked::{met, origins};
use anyhow::Result;
use gate_words::Random;
use mpw_geom::Box2;
use mpw_markers::{Met, Rectangle};
use std::alloc::{AllocError, Global};

/// The submissions of random rectangles are below this.
const SUBMISSIONS: u32 = 5;

/// A box of some size from a random corner on. It has area if `least` is 1.
fn random_box(random: &mut Random, place: u32, size: u32, least: u32) -> Box2 {
    let x0 = i64::from(random.below(place)) - 9;
    let y0 = i64::from(random.below(place)) - 9;
    let width = i64::from(random.below(size)) + i64::from(least);
    let height = i64::from(random.below(size)) + i64::from(least);
    Box2 {
        x0,
        y0,
        x1: x0 + width,
        y1: y0 + height,
    }
}

/// Some rectangles, a few of them far longer than the others.
fn rectangles(
    alloc: Global,
    random: &mut Random,
    place: u32,
) -> Result<Vec<Rectangle>, AllocError> {
    let mut list = Vec::new(alloc);
    for _ in 0..random.below(40) {
        let size = if random.below(6) == 0 { place } else { 4 };
        let area = random_box(random, place, size, 1);
        let origin = random.below(SUBMISSIONS);
        list.push(Rectangle { area, origin })?;
    }
    Ok(list)
}

fn boxes(alloc: Global, random: &mut Random, place: u32) -> Result<Vec<Box2>, AllocError> {
    let mut list = Vec::new(alloc);
    for _ in 0..random.below(50) {
        list.push(random_box(random, place, 5, 0))?;
    }
    Ok(list)
}

/// Whether a closed unit square of the area shares a point with the closed box.
fn touches(area: &Box2, b: &Box2) -> bool {
    for x in area.x0..area.x1 {
        for y in area.y0..area.y1 {
            if x <= b.x1 && b.x0 <= x + 1 && y <= b.y1 && b.y0 <= y + 1 {
                return true;
            }
        }
    }
    false
}

/// Whether the box touches a rectangle of a submission.
fn is_met(rectangles: &[Rectangle], origin: u32, b: &Box2) -> bool {
    for rectangle in rectangles {
        if rectangle.origin == origin && touches(&rectangle.area, b) {
            return true;
        }
    }
    false
}

/// The submissions that the box touches, one after another.
fn plain(alloc: Global, rectangles: &[Rectangle], b: &Box2) -> Result<Met> {
    let mut numbers = Vec::new(alloc);
    for origin in 0..SUBMISSIONS {
        if is_met(rectangles, origin, b) {
            numbers.push(origin)?;
        }
    }
    met(alloc, &numbers)
}

/// Whether the origins of boxes are those of the plain search.
fn are_right(alloc: Global, rectangles: &[Rectangle], boxes: &[Box2]) -> Result<bool> {
    let mets = origins(alloc, rectangles, boxes)?;
    for (b, met) in boxes.iter().zip(mets.as_slice()) {
        if met.as_slice() != plain(alloc, rectangles, b)?.as_slice() {
            return Ok(false);
        }
    }
    Ok(mets.len() == boxes.len())
}

/// Whether the origins of some random boxes are right.
fn compare(alloc: Global, random: &mut Random) -> Result<bool> {
    let place = 8 + random.below(40) % 40;
    let rectangles = rectangles(alloc, random, place)?;
    let boxes = boxes(alloc, random, place)?;
    are_right(alloc, &rectangles, &boxes)
}

/// Compares that many times, and prints how many differ.
pub fn compared(rt: &HostRuntime, count: u32) -> Result<()> {
    let mut random = Random::new(7);
    let mut different = 0u32;
    for _ in 0..count {
        different = different.saturating_add(u32::from(!compare(rt.alloc(), &mut random)?));
    }
    Ok(println!(rt; "    {different} of {count} differ")?)
}
