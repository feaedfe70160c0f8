//! References by the words of an item, and structures that refer to one another.

use crate::sample::Sample;
use crate::words::{NotationError, count_of, number, points, short};
use mpw_records::kind;
use std::alloc::Global;

/// The real of an angle, and whether the orientation mirrors first.
fn orientation(word: &str) -> Result<(u8, [u8; 2]), NotationError> {
    match word {
        "R0" => Ok((0, [0x00, 0x00])),
        "R90" => Ok((0, [0x42, 0x5A])),
        "R180" => Ok((0, [0x42, 0xB4])),
        "R270" => Ok((0, [0x43, 0x10])),
        "M0" => Ok((0x80, [0x00, 0x00])),
        "M90" => Ok((0x80, [0x42, 0x5A])),
        "M180" => Ok((0x80, [0x42, 0xB4])),
        "M270" => Ok((0x80, [0x43, 0x10])),
        _ => Err(NotationError::Notation),
    }
}

/// STRANS and ANGLE of a word, or nothing.
fn add_orientation(text: &mut Sample, words: &[&str]) -> Result<(), NotationError> {
    let [word] = words else {
        return Ok(());
    };
    let (flags, [first, second]) = orientation(word)?;
    // 270 is 10E hex over 256: its mantissa has a third byte
    let third = if first == 0x43 { 0xE0 } else { 0 };
    text.record(kind::STRANS, 1, &[flags, 0])?;
    Ok(text.record(kind::ANGLE, 5, &[first, second, third, 0, 0, 0, 0, 0])?)
}

/// An SREF: a name, x and y, and an orientation if there is one more word. Coordinates are in database units.
pub fn add_single(text: &mut Sample, words: &[&str]) -> Result<(), NotationError> {
    let [name, x, y, rest @ ..] = words else {
        return Err(NotationError::Notation);
    };
    let at = (number(x)?, number(y)?);
    text.record(kind::SREF, 0, &[])?;
    text.text(kind::SNAME, name)?;
    add_orientation(text, rest)?;
    text.points(&[at])?;
    Ok(text.record(kind::ENDEL, 0, &[])?)
}

fn add_columns_and_rows(text: &mut Sample, columns: &str, rows: &str) -> Result<(), NotationError> {
    let [c1, c0] = short(columns)?.to_be_bytes();
    let [r1, r0] = short(rows)?.to_be_bytes();
    Ok(text.record(kind::COLROW, 2, &[c1, c0, r1, r0])?)
}

/// An AREF: a name, columns and rows, the origin and the points after the last column and the last row, and an orientation if there is one
/// more word. Coordinates are in database units.
pub fn add_array(text: &mut Sample, alloc: Global, words: &[&str]) -> Result<(), NotationError> {
    let [name, columns, rows, x0, y0, x1, y1, x2, y2, rest @ ..] = words else {
        return Err(NotationError::Notation);
    };
    text.record(kind::AREF, 0, &[])?;
    text.text(kind::SNAME, name)?;
    add_orientation(text, rest)?;
    add_columns_and_rows(text, columns, rows)?;
    text.points(&points(alloc, &[*x0, *y0, *x1, *y1, *x2, *y2])?)?;
    Ok(text.record(kind::ENDEL, 0, &[])?)
}

/// Places structures whose names are a name and a number.
pub fn add_places(text: &mut Sample, alloc: Global, words: &[&str]) -> Result<(), NotationError> {
    let [name, count] = words else {
        return Err(NotationError::Notation);
    };
    for number in 0..count_of(count)? {
        text.place(format!(in alloc; "{name}{number}")?.as_str(), 0, 0)?;
    }
    Ok(())
}

/// A structure of a chain.
fn add_link(text: &mut Sample, alloc: Global, level: u32) -> Result<(), NotationError> {
    text.begin(format!(in alloc; "S{level}")?.as_str())?;
    match level.checked_sub(1) {
        None => text.boundary(1, 0, &[(0, 0), (1, 0), (1, 1), (0, 1), (0, 0)])?,
        Some(below) => text.place(format!(in alloc; "S{below}")?.as_str(), 1, 0)?,
    }
    Ok(text.end()?)
}

/// Structures `S0`, `S1` and so on, of which each places the one before. `S0` has a square.
pub fn add_chain(text: &mut Sample, alloc: Global, words: &[&str]) -> Result<(), NotationError> {
    let [count] = words else {
        return Err(NotationError::Notation);
    };
    for level in 0..count_of(count)? {
        add_link(text, alloc, level)?;
    }
    Ok(())
}

/// Structures `F0`, `F1` and so on, each with a square.
pub fn add_fan(text: &mut Sample, alloc: Global, words: &[&str]) -> Result<(), NotationError> {
    let [count] = words else {
        return Err(NotationError::Notation);
    };
    for number in 0..count_of(count)? {
        text.begin(format!(in alloc; "F{number}")?.as_str())?;
        text.boundary(1, 0, &[(0, 0), (1, 0), (1, 1), (0, 1), (0, 0)])?;
        text.end()?;
    }
    Ok(())
}
