//! Boundaries of known forms.
//!
//! A line that begins with a figure's name adds corners to it, as often as the number after the name says. Of each corner it has x and y, and by how
//! much these grow each time.

use anyhow::Result;
use gate_words::Words;
use mpw_geom::Point;
use std::alloc::{AllocError, Global};

/// The figures.
const FIGURES: &str = "# 2,000 teeth of width 1 on a bar, each 4 corners.
comb 2000 0 0 2 0 0 10 2 0 1 10 2 0 1 0 2 0
comb 1 4000 0 0 0 4000 -5 0 0 0 -5 0 0
# Steps of 1, and the corner that closes them.
staircase 4000 0 0 1 1 1 0 1 1
staircase 1 4000 4000 0 0 0 4000 0 0
largest 4094 0 0 1 1 1 0 1 1
largest 1 4094 4094 0 0 0 4094 0 0
# A corridor of width 1 that winds inward 250 times between walls of width 1.
spiral 1 -1 0 0 0
spiral 250 1000 0 -2 2 1000 1000 -2 -2 0 1000 2 -2 0 2 2 2
spiral 1 499 500 0 0
spiral 250 499 501 -2 2 501 501 2 2 501 499 2 -2 497 499 -2 -2
# 500 squares one in another, drawn by one line that comes back on its own steps.
nested 500 0 0 1 1 1000 0 -1 1 1000 1000 -1 -1 0 1000 1 -1 0 0 1 1 1 0 1 1
nested 500 500 500 -1 -1 500 499 -1 -1
# 1,000 teeth of different lengths, and 1,000 rectangles round them all, drawn by one line.
teeth 1000 0 0 0 2 10 0 1 2 10 1 1 2 0 1 0 2
teeth 1 0 2000 0 0 -10 2000 0 0 -10 0 0 0
teeth 1000 2000 0 1 0 2000 2000 1 0 -10 2000 -1 0 -10 0 -1 0";

/// A corner, and by how much it moves each time.
type Corner = (Point, Point);

/// Takes all corners of a line.
fn corners(alloc: Global, words: &mut Words<'_>) -> Result<Vec<Corner>, AllocError> {
    let mut corners = Vec::new(alloc);
    for _ in 0..u64::MAX {
        if words.is_empty() {
            break;
        }
        corners.push((words.point(), words.point()))?;
    }
    Ok(corners)
}

/// A coordinate after that many steps.
fn moved(from: i64, step: i64, count: u32) -> i32 {
    let to = from.wrapping_add(step.wrapping_mul(i64::from(count)));
    i32::try_from(to).unwrap_or(0)
}

/// Adds corners that many times.
fn add_times(
    points: &mut Vec<(i32, i32)>,
    corners: &[Corner],
    times: u32,
) -> Result<(), AllocError> {
    for count in 0..times {
        for (at, step) in corners {
            points.push((moved(at.x, step.x, count), moved(at.y, step.y, count)))?;
        }
    }
    Ok(())
}

/// Adds the corners of a line if it is of that figure.
fn add_line(points: &mut Vec<(i32, i32)>, name: &str, line: &str) -> Result<()> {
    let mut words = Words::of(line);
    if words.next() != name {
        return Ok(());
    }
    let times = words.number();
    let corners = corners(*points.allocator(), &mut words)?;
    add_times(points, &corners, times)?;
    words.end()
}

/// The corners of a figure.
pub fn figure(alloc: Global, name: &str) -> Result<Vec<(i32, i32)>> {
    let mut points = Vec::new(alloc);
    for line in FIGURES.lines() {
        add_line(&mut points, name, line)?;
    }
    Ok(points)
}
