//! Shapes by the words of an item.

use crate::sample::Sample;
use crate::words::{NotationError, layer, number, points, short};
use mpw_records::kind;
use std::alloc::{AllocError, Global};

/// A BOUNDARY: its layer, and two opposite corners in database units.
pub fn add_rectangle(text: &mut Sample, words: &[&str]) -> Result<(), NotationError> {
    let [on, x0, y0, x1, y1] = words else {
        return Err(NotationError::Notation);
    };
    let (layer, datatype) = layer(on)?;
    let (x0, y0, x1, y1) = (number(x0)?, number(y0)?, number(x1)?, number(y1)?);
    let corners = [(x0, y0), (x1, y0), (x1, y1), (x0, y1), (x0, y0)];
    Ok(text.boundary(layer, datatype, &corners)?)
}

/// A BOUNDARY: its layer, and its points in database units, including the closing one if it is wanted.
pub fn add_polygon(text: &mut Sample, alloc: Global, words: &[&str]) -> Result<(), NotationError> {
    let [on, rest @ ..] = words else {
        return Err(NotationError::Notation);
    };
    let (layer, datatype) = layer(on)?;
    Ok(text.boundary(layer, datatype, &points(alloc, rest)?)?)
}

/// A record of a four-byte number, unless the word is `.`.
fn add_optional(text: &mut Sample, kind: u8, word: &str) -> Result<(), NotationError> {
    if word == "." {
        return Ok(());
    }
    Ok(text.long(kind, number(word)?)?)
}

/// PATH, LAYER, DATATYPE and PATHTYPE.
fn add_path_head(text: &mut Sample, on: &str, form: &str) -> Result<(), NotationError> {
    let (layer, datatype) = layer(on)?;
    text.record(kind::PATH, 0, &[])?;
    text.short(kind::LAYER, layer)?;
    text.short(kind::DATATYPE, datatype)?;
    if form == "." {
        return Ok(());
    }
    Ok(text.short(kind::PATHTYPE, short(form)?)?)
}

/// A PATH: its layer, PATHTYPE, WIDTH, BGNEXTN and ENDEXTN, each left out if its word is `.`, and its points, all in database units.
pub fn add_path(text: &mut Sample, alloc: Global, words: &[&str]) -> Result<(), NotationError> {
    let [on, form, width, begin, end, rest @ ..] = words else {
        return Err(NotationError::Notation);
    };
    add_path_head(text, on, form)?;
    add_optional(text, kind::WIDTH, width)?;
    add_optional(text, kind::BGNEXTN, begin)?;
    add_optional(text, kind::ENDEXTN, end)?;
    text.points(&points(alloc, rest)?)?;
    Ok(text.record(kind::ENDEL, 0, &[])?)
}

/// Squares with sides of 4 database units, each 1 to the right of the one before, so that they overlap.
pub fn add_grid(text: &mut Sample, words: &[&str]) -> Result<(), NotationError> {
    let [count] = words else {
        return Err(NotationError::Notation);
    };
    for x in 0..number(count)? {
        let right = x.wrapping_add(4);
        text.boundary(1, 0, &[(x, 0), (right, 0), (right, 4), (x, 4), (x, 0)])?;
    }
    Ok(())
}

/// A path that goes up in steps: to the right at even points, and up at odd ones.
pub fn add_stairs(text: &mut Sample, alloc: Global, words: &[&str]) -> Result<(), NotationError> {
    let [count] = words else {
        return Err(NotationError::Notation);
    };
    let mut points = Vec::new(alloc);
    for step in 0..short(count)? {
        let point = (i32::from(step / 2 + step % 2), i32::from(step / 2));
        points.push(point).map_err(AllocError::from)?;
    }
    add_path_head(text, "1/0", ".")?;
    text.long(kind::WIDTH, 2)?;
    text.points(&points)?;
    Ok(text.record(kind::ENDEL, 0, &[])?)
}
