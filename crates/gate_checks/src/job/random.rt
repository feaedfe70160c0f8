//! Books of random layouts under five sides of tiles and as a single core, compared with a plain search square by square.

use crate::job::whole::{book, tiles};
use anyhow::{Result, bail};
use gate_plain::{Picture, PlainMarker, deck_of, flat_list, layout, placed, plain_markers, roots};
use gate_words::Random;
use mpw_deck::Rule;
use mpw_edges::{Axis, Piece};
use mpw_hier::Shelf;
use mpw_markers::{Key, Marker};
use mpw_tiles::Snapshot;
use mpw_walk::Root;
use std::alloc::Global;
use std::thread::Threads;

/// Sides of tiles. The last makes a single core.
const SIDES: [&str; 6] = ["256", "300", "421", "511", "777", "1073741824"];

/// The rules.
const RULES: &str =
    "width w 0/0 7; space s 0/0 12; separation x 0/0 1/0 9; enclosing e 1/0 0/0 6; width v 1/0 30";

/// What was compared.
#[derive(Clone, Copy)]
struct Tally {
    books: u32,
    tiles: u32,
    markers: usize,
    different: u32,
}

fn is_same(marker: &Marker, found: &PlainMarker) -> bool {
    let piece = Piece {
        axis: if found.is_horizontal {
            Axis::H
        } else {
            Axis::V
        },
        side: found.side,
        x1: found.x1,
        x2: found.x2,
        y0: found.y0,
        y1: found.y1,
    };
    let rule = found.rule;
    marker.key == Key { rule, piece } && marker.met.as_slice() == found.met.as_slice()
}

fn are_same(markers: &[Marker], list: &[PlainMarker]) -> bool {
    for (marker, found) in markers.iter().zip(list) {
        if !is_same(marker, found) {
            return false;
        }
    }
    markers.len() == list.len()
}

/// The picture of a layout.
fn picture(alloc: Global, shelf: &Shelf, roots: &[Root]) -> Result<Picture> {
    let list = flat_list(alloc, shelf, roots)?;
    let mut picture = Picture::new(alloc)?;
    for shown in &list {
        picture.paint(alloc, shown)?;
    }
    Ok(picture)
}

/// The markers of the rules in the layout, square by square.
fn plain(alloc: Global, shelf: &Shelf, roots: &[Root], rules: &[Rule]) -> Result<Vec<PlainMarker>> {
    let picture = picture(alloc, shelf, roots)?;
    Ok(plain_markers(alloc, &picture, rules)?)
}

impl Tally {
    /// Compares the book of a snapshot with the plain list.
    fn compare<T: Threads + Sync>(
        &mut self,
        threads: &T,
        alloc: Global,
        snapshot: &Snapshot,
        plain: &[PlainMarker],
    ) -> Result<()> {
        let book = book(threads, alloc, snapshot)?;
        self.books = self.books.saturating_add(1);
        self.tiles = self.tiles.saturating_add(tiles(snapshot));
        if !are_same(book.as_slice(), plain) {
            self.different = self.different.saturating_add(1);
        }
        Ok(())
    }

    /// Compares the books of a layout by each side with the plain list.
    fn compare_sides<T: Threads + Sync>(
        &mut self,
        threads: &T,
        alloc: Global,
        shelf: &Shelf,
        roots: &[Root],
    ) -> Result<()> {
        let deck = deck_of(alloc, SIDES[0], RULES)?;
        let plain = plain(alloc, shelf, roots, deck.rules().as_slice())?;
        self.markers = self.markers.saturating_add(plain.len());
        for side in SIDES {
            let snapshot = placed(alloc, deck_of(alloc, side, RULES)?, shelf, roots)?;
            self.compare(threads, alloc, &snapshot, &plain)?;
        }
        Ok(())
    }

    /// Compares the books of a random layout.
    fn compare_one<T: Threads + Sync>(
        &mut self,
        threads: &T,
        alloc: Global,
        random: &mut Random,
    ) -> Result<()> {
        let roots = roots(alloc, random)?;
        let shelf = layout(alloc, random)?;
        self.compare_sides(threads, alloc, &shelf, &roots)
    }
}

/// Compares the books of that many random layouts, and prints how many differ.
pub fn compared<T: Threads + Sync>(rt: &HostRuntime, threads: &T, count: u32) -> Result<()> {
    let mut random = Random::new(5);
    let mut tally = Tally {
        books: 0,
        tiles: 0,
        markers: 0,
        different: 0,
    };
    for _ in 0..count {
        tally.compare_one(threads, rt.alloc(), &mut random)?;
    }
    if tally.markers == 0 || tally.tiles <= tally.books {
        bail!("markers, and books of many tiles");
    }
    Ok(println!(rt;
        "    {} books of {count} layouts, {} differ",
        tally.books, tally.different
    )?)
}
