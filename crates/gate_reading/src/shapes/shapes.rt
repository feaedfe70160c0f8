//! Rectangles of elements, counted square by square.

ghost use Rattle.mpw_structures.specs.Element.{IsElement};
ghost use Rattle.mpw_structures.specs.Library.{IsLibrary};

use crate::shapes::figures::figure;
use crate::shapes::scribbles::scribbles;
use anyhow::{Result, bail};
use gate_samples::{NANOMETRE, Sample, SampleError, text_of_library};
use gate_words::{Answers, Words};
use mpw_geom::Box2;
use mpw_library::read_library;
use mpw_shapes::rectangles;
use mpw_structures::{Element, Library};
use std::alloc::{AllocError, Global};
use std::io;

/// The rectangles of a copy of the element.
fn rectangles_of_copy(alloc: Global, element: &Element) -> Result<Vec<Box2>, AllocError>
    requires { IsElement element.now }
{
    rectangles(alloc, &element.copy(alloc)?)
}

/// The rectangles of all elements of a library.
fn boxes_in(alloc: Global, library: &Library) -> Result<Vec<Box2>, AllocError>
    requires { IsLibrary library.now }
{
    let mut boxes = Vec::new(alloc);
    for structure in library.structures() {
        for element in structure.elements.as_slice() {
            boxes.extend_from_slice(&rectangles_of_copy(alloc, element)?)?;
        }
    }
    Ok(boxes)
}

/// The rectangles of all elements of the library in the bytes.
fn boxes_of(alloc: Global, bytes: &[u8]) -> Result<Vec<Box2>> {
    let library = read_library(alloc, bytes)?;
    Ok(boxes_in(alloc, &library)?)
}

/// Whether a box has the unit square.
pub fn has(boxes: &[Box2], x: i64, y: i64) -> bool {
    for b in boxes {
        if b.x0 <= x && x < b.x1 && b.y0 <= y && y < b.y1 {
            return true;
        }
    }
    false
}

/// The unit squares with both coordinates from 0 to 39.
fn count(boxes: &[Box2]) -> u32 {
    let mut squares = 0u32;
    for x in 0..40i64 {
        for y in 0..40i64 {
            squares = squares.wrapping_add(u32::from(has(boxes, x, y)));
        }
    }
    squares
}

/// The sum of the boxes' areas: the area of their union, if no two overlap.
fn area(boxes: &[Box2]) -> i64 {
    let mut sum = 0i64;
    for b in boxes {
        let (width, height) = (b.x1.wrapping_sub(b.x0), b.y1.wrapping_sub(b.y0));
        sum = sum.wrapping_add(width.wrapping_mul(height));
    }
    sum
}

/// A boundary, with the closing point that the standard requires.
fn drawn(alloc: Global, points: &[(i32, i32)]) -> Result<Sample, SampleError> {
    let mut closed = Vec::from_slice(alloc, points)?;
    closed.extend_from_slice(points.get(..1).unwrap_or(points))?;
    let mut text = Sample::new(alloc, NANOMETRE)?;
    text.begin("TOP")?;
    text.boundary(1, 0, &closed)?;
    text.end()?;
    Ok(text)
}

/// The rectangles of a boundary.
pub fn boxes_of_figure(alloc: Global, points: &[(i32, i32)]) -> Result<Vec<Box2>> {
    boxes_of(alloc, &drawn(alloc, points)?.finish()?)
}

/// Prints the rectangles.
fn print_boxes(rt: &HostRuntime, boxes: &[Box2]) -> io::Result<()> {
    for b in boxes {
        println!(rt; "    {} {} {} {}", b.x0, b.y0, b.x1, b.y1)?;
    }
    if boxes.is_empty() {
        println!(rt; "    none")?;
    }
    Ok(())
}

/// Prints how many squares there are, and tests some.
fn print_squares(rt: &HostRuntime, boxes: &[Box2], words: &mut Words<'_>) -> io::Result<()> {
    println!(rt; "    {} squares", count(boxes))?;
    for _ in 0..u64::MAX {
        if words.is_empty() {
            break;
        }
        let at = words.point();
        let side = if has(boxes, at.x, at.y) { "in" } else { "out" };
        println!(rt; "    {} {} {side}", at.x, at.y)?;
    }
    Ok(())
}

/// Prints the numbers of a figure. Of the boxes it prints only that they are at most that many, if that is asked for.
fn print_figure(rt: &HostRuntime, name: &str, words: &mut Words<'_>) -> Result<()> {
    let points = figure(rt.alloc(), name)?;
    let boxes = boxes_of_figure(rt.alloc(), &points)?;
    let (mut told, mut number) = ("", boxes.len());
    if !words.is_empty() {
        let most = words.number() as usize;
        if number <= most {
            (told, number) = ("at most ", most);
        }
    }
    let (corners, sum) = (points.len(), area(&boxes));
    Ok(println!(rt; "    {corners} corners, {told}{number} boxes, area {sum}")?)
}

/// Answers a command on the rectangles of a library.
fn answer_boxes(rt: &HostRuntime, verb: &str, words: &mut Words<'_>, boxes: &[Box2]) -> Result<()> {
    match verb {
        "boxes" => print_boxes(rt, boxes)?,
        "total" => println!(rt; "    {} boxes, areas of {}", boxes.len(), area(boxes))?,
        "squares" => print_squares(rt, boxes, words)?,
        _ => bail!("a command"),
    }
    Ok(())
}

/// What answers the lines.
#[derive(Clone, Copy)]
pub struct Shapes;

impl Answers for Shapes {
    fn answer(
        &mut self,
        rt: &HostRuntime,
        verb: &str,
        words: &mut Words<'_>,
        behind: &str,
    ) -> Result<()> {
        match verb {
            "figure" => print_figure(rt, words.next(), words),
            "scribbles" => scribbles(rt, words.number()),
            _ => {
                let boxes = boxes_of(rt.alloc(), &text_of_library(rt.alloc(), behind)?)?;
                answer_boxes(rt, verb, words, &boxes)
            }
        }
    }
}
