//! Libraries as lines.

use anyhow::Result;
use gate_words::orient_word;
use mpw_structures::{Boundary, Element, Library, Path, Points, Reference, Structure};
use std::io;

/// Prints the coordinates in turn, and ends the line.
fn print_points(rt: &HostRuntime, points: &Points) -> io::Result<()> {
    for index in 0..points.len() {
        let at = points.at(index);
        print!(rt; " {} {}", at.x, at.y)?;
    }
    println!(rt)
}

fn boundary(rt: &HostRuntime, found: &Boundary) -> io::Result<()> {
    print!(rt;
        "        boundary {}/{}",
        found.layer.layer, found.layer.datatype
    )?;
    print_points(rt, &found.points)
}

fn path(rt: &HostRuntime, found: &Path) -> io::Result<()> {
    print!(rt;
        "        path {}/{} width {} begin {} end {}",
        found.layer.layer, found.layer.datatype, found.width, found.begin, found.end
    )?;
    print_points(rt, &found.points)
}

/// Prints the columns and rows of an array.
fn array(rt: &HostRuntime, found: &Reference) -> io::Result<()> {
    let (across, up) = (found.column_step, found.row_step);
    println!(rt;
        "            {} columns by {} {}",
        found.columns, across.x, across.y
    )?;
    println!(rt; "            {} rows by {} {}", found.rows, up.x, up.y)
}

fn reference(rt: &HostRuntime, found: &Reference) -> io::Result<()> {
    let (turn, at) = (orient_word(found.orient), found.origin);
    println!(rt; "        reference {} {turn} {} {}", found.name, at.x, at.y)?;
    if found.columns == 1 && found.rows == 1 {
        return Ok(());
    }
    array(rt, found)
}

/// Prints a copy of an element.
fn element(rt: &HostRuntime, found: &Element) -> Result<()> {
    match found {
        Element::Boundary(found) => Ok(boundary(rt, &found.copy()?)?),
        Element::Path(found) => Ok(path(rt, &found.get().copy()?)?),
        Element::Reference(found) => Ok(reference(rt, &found.get().copy()?)?),
    }
}

fn structure(rt: &HostRuntime, found: &Structure) -> Result<()> {
    println!(rt; "    {}", found.name)?;
    for item in found.elements.as_slice() {
        element(rt, &item.copy(rt.alloc())?)?;
    }
    Ok(())
}

/// Prints the structures with their elements. It also prints if a structure isn't the one that its name refers to.
pub fn library(rt: &HostRuntime, found: &Library) -> Result<()> {
    for (place, item) in found.structures().iter().enumerate() {
        structure(rt, item)?;
        if found.position(&item.name) != Some(place) {
            println!(rt; "        stands elsewhere")?;
        }
    }
    Ok(())
}
