//! Random boundaries, whose boxes are compared with winding numbers.

use crate::shapes::shapes::{boxes_of_figure, has};
use anyhow::Result;
use gate_words::Random;
use mpw_geom::Box2;
use std::alloc::{AllocError, Global};

/// A closed chain of steps between the lines 0 to 7, with 6 steps or 60 in turn.
fn scribble(alloc: Global, seed: u32) -> Result<Vec<(i32, i32)>, AllocError> {
    let mut points = Vec::new(alloc);
    let mut random = Random::new(u64::from(seed));
    let mut at = (0i32, 0i32);
    let steps = if seed % 2 == 0 { 6u32 } else { 60 };
    for _ in 0..steps {
        let x = (random.below(8) % 8) as i32;
        let y = (random.below(8) % 8) as i32;
        points.extend_from_slice(&[at, (x, at.1)])?;
        at = (x, y);
    }
    points.extend_from_slice(&[at, (0, at.1)])?;
    Ok(points)
}

/// How often a step winds round a square, by its horizontal edge above it.
fn winding(from: (i32, i32), to: (i32, i32), x: i32, y: i32) -> i32 {
    if to.1 <= y {
        0
    } else if to.0 <= x && x < from.0 {
        1
    } else if from.0 <= x && x < to.0 {
        -1
    } else {
        0
    }
}

/// Whether the winding number round a square isn't 0.
fn is_in(points: &[(i32, i32)], x: i32, y: i32) -> bool {
    let mut from = points.last().copied().unwrap_or((0, 0));
    let mut turns = 0i32;
    for to in points {
        turns = turns.wrapping_add(winding(from, *to, x, y));
        from = *to;
    }
    turns != 0
}

/// Whether the boxes have the squares round which the boundary winds, from 0 to 7.
fn agree(boxes: &[Box2], points: &[(i32, i32)]) -> bool {
    for x in 0..8i32 {
        for y in 0..8i32 {
            if has(boxes, i64::from(x), i64::from(y)) != is_in(points, x, y) {
                return false;
            }
        }
    }
    true
}

/// Whether the boxes of a random boundary are right.
fn compare(alloc: Global, seed: u32) -> Result<bool> {
    let points = scribble(alloc, seed)?;
    let boxes = boxes_of_figure(alloc, &points)?;
    Ok(agree(&boxes, &points))
}

/// Compares random boundaries with a grid.
pub fn scribbles(rt: &HostRuntime, count: u32) -> Result<()> {
    for seed in 0..count {
        if !compare(rt.alloc(), seed)? {
            println!(rt; "    boundary {seed} differs")?;
        }
    }
    Ok(println!(rt; "    {count} boundaries, equal")?)
}
