//! Books of random lists, compared with the plain implementation.

use crate::markers::asked::{met, tile};
use crate::markers::plain::{COORDINATES, ROWS, RULES, SUBMISSIONS, book};
use anyhow::Result;
use gate_words::Random;
use mpw_edges::{Axis, Piece};
use mpw_markers::{Book, Key, Marker, TileMarkers, stitch};
use std::alloc::{AllocError, Global};

/// Some submissions, ascending: mostly none, one or two.
fn submissions(alloc: Global, random: &mut Random) -> Result<Vec<u32>, AllocError> {
    let mut numbers = Vec::new(alloc);
    for submission in 0..SUBMISSIONS {
        if random.below(4) == 0 {
            numbers.push(submission)?;
        }
    }
    Ok(numbers)
}

fn axis(random: &mut Random) -> Axis {
    if random.below(2) == 0 {
        Axis::V
    } else {
        Axis::H
    }
}

/// The key of a marker of up to four rows. There are so few lines that many markers share one.
fn key(random: &mut Random) -> Key {
    let y0 = i64::from(random.below(ROWS - 4));
    let rule = random.below(RULES);
    let piece = Piece {
        axis: axis(random),
        side: (random.below(2) % 2) as u8,
        x1: i64::from(random.below(COORDINATES)),
        x2: i64::from(random.below(COORDINATES)),
        y0,
        y1: y0 + 1 + i64::from(random.below(4)),
    };
    Key { rule, piece }
}

fn random_marker(alloc: Global, random: &mut Random) -> Result<Marker> {
    let numbers = submissions(alloc, random)?;
    let key = key(random);
    let met = met(alloc, &numbers)?;
    Ok(Marker { key, met })
}

/// A list of a tile, and its markers added to `all`.
fn list(alloc: Global, random: &mut Random, all: &mut Vec<Marker>) -> Result<TileMarkers> {
    let mut markers = Vec::new(alloc);
    for _ in 0..random.below(30) {
        let marker = random_marker(alloc, random)?;
        all.push(marker.copy()?)?;
        markers.push(marker)?;
    }
    tile(alloc, markers)
}

fn is_same(a: &Marker, b: &Marker) -> bool {
    a.key == b.key && a.met.as_slice() == b.met.as_slice()
}

fn are_same(a: &[Marker], b: &[Marker]) -> bool {
    for (x, y) in a.iter().zip(b) {
        if !is_same(x, y) {
            return false;
        }
    }
    a.len() == b.len()
}

/// The marker with a key among others.
fn find<'a>(markers: &'a [Marker], key: &Key) -> Option<&'a Marker> {
    for marker in markers {
        if marker.key == *key {
            return Some(marker);
        }
    }
    None
}

/// Whether a key is found exactly if the plain implementation has it.
fn finds_alike(book: &Book, wanted: &[Marker], key: &Key) -> bool {
    match (book.find(key), find(wanted, key)) {
        (Some(found), Some(marker)) => is_same(found, marker),
        (None, None) => true,
        _ => false,
    }
}

/// Whether each key is found, and those with another end or another side only if they are there too.
fn finds_all(book: &Book, wanted: &[Marker]) -> bool {
    let mut finds_all = true;
    for marker in wanted {
        let key = marker.key;
        let ended = Piece {
            y1: key.piece.y0,
            ..key.piece
        };
        let beside = Piece {
            side: 1,
            ..key.piece
        };
        finds_all &= finds_alike(book, wanted, &key)
            & finds_alike(
                book,
                wanted,
                &Key {
                    piece: ended,
                    ..key
                },
            )
            & finds_alike(
                book,
                wanted,
                &Key {
                    piece: beside,
                    ..key
                },
            );
    }
    finds_all
}

/// Whether the book of lists is that of the plain implementation of all their markers.
fn is_right(alloc: Global, lists: &[TileMarkers], all: &[Marker]) -> Result<bool> {
    let wanted = book(alloc, all)?;
    let made = stitch(alloc, lists)?;
    Ok(are_same(made.as_slice(), &wanted) && finds_all(&made, &wanted))
}

/// Whether the book of some random lists is right.
fn compare(alloc: Global, random: &mut Random) -> Result<bool> {
    let mut all = Vec::new(alloc);
    let mut lists = Vec::new(alloc);
    for _ in 0..random.below(5) {
        lists.push(list(alloc, random, &mut all)?)?;
    }
    is_right(alloc, &lists, &all)
}

/// Compares that many times, and prints how many differ.
pub fn compared(rt: &HostRuntime, count: u32) -> Result<()> {
    let mut random = Random::new(31);
    let mut different = 0u32;
    for _ in 0..count {
        different = different.saturating_add(u32::from(!compare(rt.alloc(), &mut random)?));
    }
    Ok(println!(rt; "    {different} of {count} differ")?)
}
