//! Random libraries: boxes, in the top and in a cell that the top places in arrays, and turned; and rows of cells.

use crate::columns::book::books_that_differ;
use crate::columns::{SIDE, snapshot_of};
use anyhow::Result;
use gate_plain::Notation;
use gate_words::Random;
use std::alloc::{AllocError, Global};
use std::thread::Threads;

/// The rules.
const RULES: &str =
    "width w 1/0 30; space s 1/0 40; separation x 1/0 2/0 25; enclosing e 2/0 1/0 20; space t 2/0 15";

/// The boxes of the top, and those of the cell.
const OF_TOP: u32 = 24;

const OF_CELL: u32 = 5;

/// How many rows there are, how many cells each has, and how high it is, in nm.
const ROWS: i64 = 6;

const IN_ROW: u32 = 12;

const HEIGHT: i64 = 100;

/// Adds a box within `reach` nm of the origin, at most `longest` nm long and wide.
fn add_box(text: &mut Notation, random: &mut Random, reach: u32, longest: u32) {
    let layer = random.below(2);
    let x = i64::from(random.below(reach));
    let y = i64::from(random.below(reach));
    let right = x + 1 + i64::from(random.below(longest));
    let high = y + 1 + i64::from(random.below(longest));
    text.add(if layer == 0 { "; b 1/0" } else { "; b 2/0" });
    text.numbers(&[x, y, right, high]);
}

/// A random library: the top's own boxes, and two arrays of the cell.
fn library(alloc: Global, random: &mut Random) -> Result<String, AllocError> {
    let mut text = Notation::new(alloc);
    text.add("TOP: b 1/0 0 0 9 9; b 2/0 300 0 900 40");
    for _ in 0..OF_TOP {
        add_box(&mut text, random, 700, 200);
    }
    text.add(
        "; a E 3 2 20 30 260 30 20 270; a E 2 2 400 350 640 350 400 610; s E 560 120 R90; E: b 1/0 0 0 30 60",
    );
    for _ in 0..OF_CELL {
        add_box(&mut text, random, 70, 40);
    }
    text.finish()
}

/// Adds a row of cells of three kinds, side by side, every second row mirrored.
fn add_row(text: &mut Notation, random: &mut Random, row: i64) {
    let (y, turn) = if row % 2 == 1 {
        (row.saturating_add(1).saturating_mul(HEIGHT), " M0")
    } else {
        (row.saturating_mul(HEIGHT), " R0")
    };
    let mut x = 0i64;
    for _ in 0..IN_ROW {
        let (name, width) = match random.below(3) {
            0 => ("; s E", 60),
            1 => ("; s F", 90),
            _ => ("; s G", 120),
        };
        text.add(name);
        text.numbers(&[x, y]);
        text.add(turn);
        x = x.saturating_add(width);
    }
}

/// Adds a cell with two rails, which it shares with the rows below and above, and boxes between them.
fn add_cell(text: &mut Notation, random: &mut Random, name: &str, width: i64) {
    text.add(name);
    text.numbers(&[0, -8, width, 8]);
    text.add("; b 1/0");
    text.numbers(&[0, 92, width, 108]);
    for _ in 0..OF_CELL {
        add_box(text, random, 70, 40);
    }
}

/// A random library of rows of cells, an array beside them, and a wire over all.
fn rows(alloc: Global, random: &mut Random) -> Result<String, AllocError> {
    let mut text = Notation::new(alloc);
    text.add("TOP: b 2/0 -20 333 1100 341; b 7/0 100 0 140 600");
    for row in 0..ROWS {
        add_row(&mut text, random, row);
    }
    text.add("; a E 4 5 -400 0 -80 0 -400 500");
    add_cell(&mut text, random, "; E: b 1/0", 60);
    add_cell(&mut text, random, "; F: b 1/0", 90);
    add_cell(&mut text, random, "; G: b 1/0", 120);
    text.finish()
}

/// Checks random libraries, of rows or not, and prints how many books differ.
pub fn compared<T: Threads + Sync>(
    rt: &HostRuntime,
    threads: &T,
    are_rows: bool,
    count: u32,
) -> Result<()> {
    let mut random = Random::new(7);
    let mut differ = 0u32;
    for _ in 0..count {
        let text = if are_rows {
            rows(rt.alloc(), &mut random)?
        } else {
            library(rt.alloc(), &mut random)?
        };
        let snapshot = snapshot_of(rt.alloc(), SIDE, RULES, text.as_str())?;
        differ = differ.saturating_add(books_that_differ(threads, rt.alloc(), &snapshot, 6)?);
    }
    Ok(println!(rt; "  {differ} books differ")?)
}
