//! Random layouts: a pad with an arm inside, and a chip that places pads, alone and in arrays, in any orientation.

use crate::notation::Notation;
use crate::shelves::submit;
use anyhow::Result;
use gate_words::{ORIENTS, Random};
use mpw_geom::{Orient, Placing, Point};
use mpw_hier::Shelf;
use mpw_walk::Root;
use std::alloc::{AllocError, Global};

/// A coordinate of a shape.
fn near(random: &mut Random) -> i64 {
    i64::from(random.below(81)) - 40
}

/// A coordinate of an instance.
fn far(random: &mut Random) -> i64 {
    i64::from(random.below(601)) - 300
}

/// 2 to 16 nm, even.
fn length(random: &mut Random) -> i64 {
    i64::from(random.below(8)).wrapping_mul(2).wrapping_add(2)
}

fn orient(random: &mut Random) -> (&'static str, Orient) {
    ORIENTS[(random.below(8) % 8) as usize]
}

/// Adds a rectangle, a notched polygon or a wire with one corner.
fn shape(text: &mut Notation, random: &mut Random) {
    let (x, y) = (near(random), near(random));
    let layer = ["0/0", "1/0"][(random.below(2) % 2) as usize];
    let a = x.wrapping_add(length(random));
    let b = y.wrapping_add(length(random));
    let c = a.wrapping_add(length(random));
    let d = b.wrapping_add(length(random));
    let kind = random.below(3);
    text.add(["; b ", "; p ", "; w "][(kind % 3) as usize]);
    text.add(layer);
    match kind {
        0 => text.numbers(&[x, y, c, d]),
        1 => text.numbers(&[x, y, c, y, c, b, a, b, a, d, x, d, x, y]),
        _ => {
            text.add(" .");
            text.numbers(&[length(random)]);
            text.add(" . .");
            text.numbers(&[x, y, c, y, c, d]);
        }
    }
}

/// Adds an orientation.
fn turn(text: &mut Notation, random: &mut Random) {
    let (turn, _) = orient(random);
    text.add(" ");
    text.add(turn);
}

/// Adds an instance.
fn single(text: &mut Notation, random: &mut Random, name: &str) {
    text.add("; s ");
    text.add(name);
    text.numbers(&[far(random), far(random)]);
    turn(text, random);
}

/// Adds an array of two columns and three rows.
fn array(text: &mut Notation, random: &mut Random, name: &str) {
    let (x, y) = (far(random), far(random));
    let a = x.wrapping_add(near(random).wrapping_mul(2));
    let b = y.wrapping_add(near(random).wrapping_mul(2));
    let c = x.wrapping_add(near(random).wrapping_mul(3));
    let d = y.wrapping_add(near(random).wrapping_mul(3));
    text.add("; a ");
    text.add(name);
    text.numbers(&[2, 3, x, y, a, b, c, d]);
    turn(text, random);
}

/// A pad that places an arm.
fn pad(alloc: Global, random: &mut Random) -> Result<String, AllocError> {
    let mut text = Notation::new(alloc);
    text.add("PAD:");
    shape(&mut text, random);
    single(&mut text, random, "ARM");
    text.add("; ARM:");
    shape(&mut text, random);
    text.finish()
}

/// A chip that places pads and its own structure.
fn chip(alloc: Global, random: &mut Random) -> Result<String, AllocError> {
    let mut text = Notation::new(alloc);
    text.add("CHIP:");
    shape(&mut text, random);
    single(&mut text, random, "pad");
    array(&mut text, random, "pad");
    array(&mut text, random, "OWN");
    text.add("; OWN:");
    shape(&mut text, random);
    text.finish()
}

/// Submits a pad and a chip.
fn fill(alloc: Global, random: &mut Random, shelf: &mut Shelf) -> Result<()> {
    submit(alloc, shelf, "pad", "PAD", pad(alloc, random)?.as_str())?;
    submit(alloc, shelf, "chip", "CHIP", chip(alloc, random)?.as_str())
}

/// A shelf with a pad and a chip.
pub fn layout(alloc: Global, random: &mut Random) -> Result<Shelf> {
    let mut shelf = Shelf::new(alloc);
    fill(alloc, random, &mut shelf)?;
    Ok(shelf)
}

/// A placement of a submission, in any orientation.
fn root(random: &mut Random, submission: u32) -> Root {
    let (_, orient) = orient(random);
    let by = Point {
        x: far(random),
        y: far(random),
    };
    Root {
        submission,
        placing: Placing { orient, by },
    }
}

/// The chip twice and the pad once, in any orientation.
pub fn roots(alloc: Global, random: &mut Random) -> Result<Vec<Root>, AllocError> {
    let roots = [root(random, 1), root(random, 0), root(random, 1)];
    Vec::from_slice(alloc, &roots)
}
