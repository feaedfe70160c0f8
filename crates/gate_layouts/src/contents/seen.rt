//! Contents of windows, and the lines that print them.

use anyhow::{Context, Result, bail};
use gate_words::{Words, orient_word};
use mpw_columns_contents::{
    Array, Contents, Shape, Thing, Wanted, code, contents_in, displacement,
};
use mpw_geom::{Box2, Point};
use mpw_hier::Shelf;
use mpw_structures::Structure;
use std::alloc::Global;
use std::io;

/// Takes the limits of contents.
fn wanted(words: &mut Words<'_>) -> Wanted {
    Wanted {
        most: words.number() as usize,
        width: u64::from(words.number()),
        is_along_y: words.next() == "y",
    }
}

fn seen(alloc: Global, shelf: &Shelf, window: Box2, wanted: Wanted) -> Result<Option<Contents>> {
    if shelf.submissions().is_empty() {
        bail!("a submission");
    }
    Ok(contents_in(alloc, shelf, window, wanted)?)
}

fn name_at(structures: &[Structure], place: usize) -> &str {
    match structures.get(place) {
        Some(structure) => structure.name.as_str(),
        None => "none",
    }
}

fn print_shape(rt: &HostRuntime, name: &str, shape: &Shape) -> io::Result<()> {
    let turn = orient_word(shape.placing.orient);
    let Point { x, y } = shape.placing.by;
    println!(rt; "    shape {name} {} {turn} {x} {y}", shape.element)
}

fn print_array(rt: &HostRuntime, name: &str, array: &Array) -> io::Result<()> {
    let turn = orient_word(array.first.orient);
    let Point { x, y } = array.first.by;
    print!(rt;
        "    array {name} {turn} {x} {y} {} {}",
        array.columns, array.rows
    )?;
    let (across, up) = (array.column_step, array.row_step);
    println!(rt; " {} {} {} {}", across.x, across.y, up.x, up.y)
}

/// Prints entries, one a line.
pub fn print_contents(rt: &HostRuntime, shelf: &Shelf, contents: &Contents) -> Result<()> {
    let structures = shelf.get(0).context("a submission")?.library.structures();
    for thing in contents.things() {
        match thing {
            Thing::Shape(shape) => print_shape(rt, name_at(structures, shape.structure), shape)?,
            Thing::Array(array) => print_array(rt, name_at(structures, array.structure), array)?,
        }
    }
    Ok(())
}

/// Prints the contents of a window.
pub fn print_seen(rt: &HostRuntime, shelf: &Shelf, words: &mut Words<'_>) -> Result<()> {
    let wanted = wanted(words);
    match seen(rt.alloc(), shelf, words.area(), wanted)? {
        Some(contents) => print_contents(rt, shelf, &contents),
        None => Ok(println!(rt; "    none")?),
    }
}

fn print_displacement(rt: &HostRuntime, a: &Contents, b: &Contents) -> io::Result<()> {
    let number = if code(a) == code(b) {
        "same"
    } else {
        "another"
    };
    match displacement(a, b) {
        Some(by) => println!(rt; "    at {} {}, {number} number", by.x, by.y),
        None => println!(rt; "    other, {number} number"),
    }
}

/// Prints the displacement by which the contents of a window are those of another.
pub fn print_alike(rt: &HostRuntime, shelf: &Shelf, words: &mut Words<'_>) -> Result<()> {
    let wanted = wanted(words);
    let a = seen(rt.alloc(), shelf, words.area(), wanted)?;
    let b = seen(rt.alloc(), shelf, words.area(), wanted)?;
    match (&a, &b) {
        (Some(a), Some(b)) => Ok(print_displacement(rt, a, b)?),
        _ => Ok(println!(rt; "    none")?),
    }
}
