//! Parts of contents, the boxes that are stored for elements, and the lines that print them.

use crate::contents::seen::print_contents;
use anyhow::{Context, Result, bail};
use gate_words::Words;
use mpw_columns_contents::{Boxes, Contents, Part};
use mpw_geom::Box2;
use mpw_hier::Shelf;
use std::io;

/// Prints what of the top touches the window, by the words of the line.
pub fn print_part(rt: &HostRuntime, shelf: &Shelf, words: &mut Words<'_>) -> Result<()> {
    if shelf.submissions().is_empty() {
        bail!("a submission");
    }
    let boxes = Boxes::of(rt.alloc(), shelf)?;
    let part = Part {
        boxes: &boxes,
        most: words.number() as usize,
        instances: words.number(),
        shapes: u64::from(words.number()),
        window: words.area(),
    };
    let top = Contents::top(rt.alloc(), shelf)?.context("a top")?;
    match top.within(rt.alloc(), shelf, &part)? {
        Some(contents) => print_contents(rt, shelf, &contents),
        None => Ok(println!(rt; "    none")?),
    }
}

/// The most boxes that are printed.
const FEW: usize = 9;

fn print_boxes(rt: &HostRuntime, boxes: &[Option<Box2>]) -> io::Result<()> {
    println!(rt; "    {} held", boxes.len())?;
    if boxes.len() > FEW {
        return Ok(());
    }
    for held in boxes {
        match held {
            Some(b) => println!(rt; "    {} {} {} {}", b.x0, b.y0, b.x1, b.y1)?,
            None => println!(rt; "    none")?,
        }
    }
    Ok(())
}

/// Prints how many boxes are stored for the elements of the structure at an index of the library, and a few of them.
pub fn print_boxes_of(rt: &HostRuntime, shelf: &Shelf, structure: u32) -> Result<()> {
    if shelf.submissions().is_empty() {
        bail!("a submission");
    }
    let boxes = Boxes::of(rt.alloc(), shelf)?;
    Ok(print_boxes(rt, boxes.of_structure(structure as usize))?)
}
