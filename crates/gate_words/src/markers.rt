//! Markers by their words, read and printed.

use crate::numerals::{coordinate, number};
use crate::words::Words;
use anyhow::{Result, bail};
use mpw_edges::{Axis, Piece};
use mpw_markers::{Key, Marker, Met};
use std::alloc::Global;
use std::io;

/// The axis `V` or `H`.
///
/// # Errors
/// Another word.
pub fn axis(word: &str) -> Result<Axis> {
    match word {
        "V" => Ok(Axis::V),
        "H" => Ok(Axis::H),
        _ => bail!("an axis"),
    }
}

/// The side `0` or `1`.
///
/// # Errors
/// Another word.
pub fn side(word: &str) -> Result<u8> {
    match word {
        "0" => Ok(0),
        "1" => Ok(1),
        _ => bail!("a side"),
    }
}

/// The letter of an axis.
pub fn letter(axis: Axis) -> &'static str {
    match axis {
        Axis::V => "V",
        Axis::H => "H",
    }
}

/// Prints a marker on its own line: its key, and the submissions that it touches.
///
/// # Errors
/// The output fails.
pub fn print_marker(rt: &impl Print, marker: &Marker) -> Result<()> {
    let p = marker.key.piece;
    let (rule, axis) = (marker.key.rule, letter(p.axis));
    print!(rt;
        "    {rule} {axis} {} {} {} {} {} met",
        p.side, p.x1, p.x2, p.y0, p.y1
    )?;
    for number in marker.met.as_slice() {
        print!(rt; " {number}")?;
    }
    Ok(println!(rt; "")?)
}

/// The marker of a line of seven words: rule, axis, side, x1, x2, y0, y1. It touches no submission.
///
/// # Errors
/// A word is wrong, or out of memory.
pub fn marker(alloc: Global, line: &str) -> Result<Marker> {
    let words: Vec<&str> = line.split_whitespace().collect(alloc)?;
    let [rule, on, of, x1, x2, y0, y1] = words.as_slice() else {
        bail!("seven words");
    };
    let rule = number(rule)?;
    let piece = Piece {
        axis: axis(on)?,
        side: side(of)?,
        x1: coordinate(x1)?,
        x2: coordinate(x2)?,
        y0: coordinate(y0)?,
        y1: coordinate(y1)?,
    };
    let key = Key { rule, piece };
    Ok(Marker {
        key,
        met: Met::none(),
    })
}

/// Takes the axis `V` or `H`.
fn next_axis(words: &mut Words<'_>) -> Axis {
    match words.next() {
        "V" => Axis::V,
        "H" => Axis::H,
        _ => {
            words.fail();
            Axis::V
        }
    }
}

/// Takes the side `0` or `1`.
fn next_side(words: &mut Words<'_>) -> u8 {
    match words.next() {
        "0" => 0,
        "1" => 1,
        _ => {
            words.fail();
            0
        }
    }
}

/// Takes the seven words of a marker's key: rule, axis, side, x1, x2, y0, y1.
pub fn key(words: &mut Words<'_>) -> Key {
    let rule = words.number();
    let piece = Piece {
        axis: next_axis(words),
        side: next_side(words),
        x1: words.coordinate(),
        x2: words.coordinate(),
        y0: words.coordinate(),
        y1: words.coordinate(),
    };
    Key { rule, piece }
}

/// Prints a marker on its own line: its key, and the submissions that it touches.
///
/// # Errors
/// The output fails.
pub fn tell_marker(rt: &HostRuntime, marker: &Marker) -> io::Result<()> {
    let p = marker.key.piece;
    let (rule, axis) = (marker.key.rule, letter(p.axis));
    print!(rt;
        "    {rule} {axis} {} {} {} {} {} met",
        p.side, p.x1, p.x2, p.y0, p.y1
    )?;
    for number in marker.met.as_slice() {
        print!(rt; " {number}")?;
    }
    println!(rt)
}
