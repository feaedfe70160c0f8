//! The plain implementation: a book row by row, from a list of all markers.

use crate::markers::asked::met;
use anyhow::Result;
use mpw_edges::{Axis, Piece};
use mpw_markers::{Key, Line, Marker};
use std::alloc::{AllocError, Global};

/// Rules, coordinates, rows and submissions of random lists are below these.
pub const RULES: u32 = 2;

/// `x1` and `x2` are below this.
pub const COORDINATES: u32 = 2;

/// Rows are below this.
pub const ROWS: u32 = 24;

/// The numbers of the touched submissions are below this.
pub const SUBMISSIONS: u32 = 6;

fn has_row(all: &[Marker], line: &Line, row: i64) -> bool {
    for marker in all {
        let Piece { y0, y1, .. } = marker.key.piece;
        if marker.line() == *line && y0 <= row && row < y1 {
            return true;
        }
    }
    false
}

/// Whether a marker of the key's line within its rows touches the submission.
fn meets(all: &[Marker], key: &Key, submission: u32) -> bool {
    let line = key.line();
    for marker in all {
        let Piece { y0, y1, .. } = marker.key.piece;
        let is_within = marker.line() == line && key.piece.y0 <= y0 && y1 <= key.piece.y1;
        if is_within && marker.met.as_slice().contains(&submission) {
            return true;
        }
    }
    false
}

/// Each submission that some marker within the key's rows touches.
fn submissions(alloc: Global, all: &[Marker], key: &Key) -> Result<Vec<u32>, AllocError> {
    let mut numbers = Vec::new(alloc);
    for submission in 0..SUBMISSIONS {
        if meets(all, key, submission) {
            numbers.push(submission)?;
        }
    }
    Ok(numbers)
}

/// The marker of a line's rows.
fn marker_at(alloc: Global, all: &[Marker], line: &Line, y0: i64, y1: i64) -> Result<Marker> {
    let piece = Piece {
        axis: line.axis,
        side: line.side,
        x1: line.x1,
        x2: line.x2,
        y0,
        y1,
    };
    let rule = line.rule;
    let key = Key { rule, piece };
    let met = met(alloc, &submissions(alloc, all, &key)?)?;
    Ok(Marker { key, met })
}

/// Adds the markers of a line: each row without one before it begins a marker, and each row without one after it ends a marker.
fn add_line(alloc: Global, book: &mut Vec<Marker>, all: &[Marker], line: &Line) -> Result<()> {
    let mut first = 0;
    for row in 0..ROWS {
        let row = i64::from(row);
        if !has_row(all, line, row) {
            first = row + 1;
        } else if !has_row(all, line, row + 1) {
            book.push(marker_at(alloc, all, line, first, row + 1)?)?;
        }
    }
    Ok(())
}

/// The line of a rule on an axis with that number, by its side and its coordinates.
fn line_of(rule: u32, axis: Axis, number: u32) -> Line {
    let (side, rest) = (
        number / (COORDINATES * COORDINATES),
        number % (COORDINATES * COORDINATES),
    );
    Line {
        rule,
        axis,
        side: (side % 2) as u8,
        x1: i64::from(rest / COORDINATES),
        x2: i64::from(rest % COORDINATES),
    }
}

/// Adds the markers of a rule on an axis.
fn add_rule(
    alloc: Global,
    book: &mut Vec<Marker>,
    all: &[Marker],
    rule: u32,
    axis: Axis,
) -> Result<()> {
    for number in 0..2 * COORDINATES * COORDINATES {
        add_line(alloc, book, all, &line_of(rule, axis, number))?;
    }
    Ok(())
}

/// The book of the markers, line by line in order.
pub fn book(alloc: Global, all: &[Marker]) -> Result<Vec<Marker>> {
    let mut book = Vec::new(alloc);
    for rule in 0..RULES {
        add_rule(alloc, &mut book, all, rule, Axis::V)?;
        add_rule(alloc, &mut book, all, rule, Axis::H)?;
    }
    Ok(book)
}
