//! The first markers of each rule.

use crate::columns::book::{is_same, print_markers};
use anyhow::{Result, bail};
use mpw_check::{Silent, first_of_layout};
use mpw_columns::{Bounds, FirstMarkers, first_of_columns};
use mpw_markers::Marker;
use mpw_tiles::Snapshot;
use std::alloc::Global;
use std::thread::Threads;

/// How many markers of a rule are wanted at most.
const LIMITS: [usize; 3] = [0, 2, usize::MAX];

/// The first markers of each rule, by columns.
fn by_columns<T: Threads + Sync>(
    threads: &T,
    alloc: Global,
    snapshot: &Snapshot,
    bounds: Bounds,
) -> Result<FirstMarkers> {
    if snapshot.shelf().submissions().len() != 1 {
        bail!("one submission");
    }
    Ok(first_of_columns(threads, alloc, snapshot, bounds, &mut Silent)?)
}

/// How many markers a check of the layout finds.
fn count_all<T: Threads + Sync>(
    threads: &T,
    alloc: Global,
    snapshot: &Snapshot,
    most: usize,
) -> Result<usize> {
    if snapshot.shelf().submissions().len() != 1 {
        bail!("one submission");
    }
    Ok(first_of_layout(threads, alloc, snapshot, most, &mut Silent)?.all)
}

/// How many markers of a rule a book has, if the first of them, at most so many, are those at the beginning of others; else none.
fn count_first(book: &[Marker], first: &[Marker], rule: usize, limit: usize) -> Option<usize> {
    let mut count = 0usize;
    for marker in book {
        if marker.key.rule as usize == rule {
            if count < limit && !is_same(marker, first.get(count)?) {
                return None;
            }
            count = count.saturating_add(1);
        }
    }
    Some(count)
}

/// Whether these are the first markers of each rule of a book, at most so many, and the numbers are the book's.
fn are_first(book: &[Marker], first: &FirstMarkers, limit: usize) -> bool {
    let mut behind = 0usize;
    for (rule, told) in first.counts.iter().enumerate() {
        let from = behind.min(first.markers.len());
        if count_first(book, &first.markers[from..], rule, limit) != Some(*told) {
            return false;
        }
        behind = behind.saturating_add((*told).min(limit));
    }
    behind == first.markers.len() && first.all == book.len()
}

/// Whether the first markers of columns that show at most so many shapes, for some limits, are others than those of this book.
pub fn first_differ<T: Threads + Sync>(
    threads: &T,
    alloc: Global,
    snapshot: &Snapshot,
    shapes: u32,
    book: &[Marker],
) -> Result<bool> {
    let rules = snapshot.deck().rules().as_slice().len();
    for markers in LIMITS {
        let first = by_columns(threads, alloc, snapshot, Bounds { shapes, markers })?;
        if first.counts.len() != rules || !are_first(book, &first, markers) {
            return Ok(true);
        }
    }
    Ok(false)
}

/// Prints the first markers of each rule that columns find, after how many each has and how many there are.
pub fn print_first<T: Threads + Sync>(
    rt: &HostRuntime,
    threads: &T,
    snapshot: &Snapshot,
    limit: u32,
) -> Result<()> {
    let bounds = Bounds {
        shapes: 65536,
        markers: limit as usize,
    };
    let first = by_columns(threads, rt.alloc(), snapshot, bounds)?;
    let all = count_all(threads, rt.alloc(), snapshot, limit as usize)?;
    for (rule, count) in snapshot.deck().rules().as_slice().iter().zip(&first.counts) {
        print!(rt; "    {} {count}", rule.name)?;
    }
    println!(rt; "    all {}, {all}", first.all)?;
    print_markers(rt, snapshot.deck().rules(), first.markers.as_slice())
}
