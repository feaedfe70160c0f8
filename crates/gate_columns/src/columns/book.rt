//! Books of columns, and those of tiles.

use crate::columns::first::first_differ;
use anyhow::{Context, Result, bail};
use gate_words::letter;
use mpw_check::{Silent, check_layout, check_tiles, checked_tiles, tile_count};
use mpw_columns::{Progress, check_columns};
use mpw_deck::Rules;
use mpw_markers::{Book, Marker, stitch};
use mpw_tiles::Snapshot;
use std::alloc::Global;
use std::io;
use std::thread::Threads;

/// How many shapes columns may show, besides what a line names.
const MOSTS: [u32; 4] = [12, 16, 24, 65536];

/// The book of the snapshot, by columns that show at most so many shapes each.
pub fn by_columns<T: Threads + Sync, P: Progress>(
    threads: &T,
    alloc: Global,
    snapshot: &Snapshot,
    most: u32,
    progress: &mut P,
) -> Result<Book> {
    if snapshot.shelf().submissions().len() != 1 {
        bail!("one submission");
    }
    Ok(check_columns(threads, alloc, snapshot, most, progress)?)
}

/// The book of the snapshot, by tiles.
fn by_tiles<T: Threads + Sync>(threads: &T, alloc: Global, snapshot: &Snapshot) -> Result<Book> {
    let tiles = tile_count(snapshot).context("at most 4096 tiles")?;
    let lists = check_tiles(threads, alloc, snapshot, 0, tiles, &mut Silent)?;
    Ok(stitch(alloc, &lists)?)
}

/// The book of a whole check.
fn whole<T: Threads + Sync>(threads: &T, alloc: Global, snapshot: &Snapshot) -> Result<Book> {
    if snapshot.shelf().submissions().len() != 1 {
        bail!("one submission");
    }
    Ok(check_layout(threads, alloc, snapshot, &mut Silent)?)
}

/// Whether two markers are the same.
pub fn is_same(a: &Marker, b: &Marker) -> bool {
    a.key == b.key && a.met.as_slice() == b.met.as_slice()
}

fn are_same(first: &[Marker], second: &[Marker]) -> bool {
    for (a, b) in first.iter().zip(second) {
        if !is_same(a, b) {
            return false;
        }
    }
    first.len() == second.len()
}

/// Whether the book of columns that show at most so many shapes, or what is first in it, is another one than this.
fn differs<T: Threads + Sync>(
    threads: &T,
    alloc: Global,
    snapshot: &Snapshot,
    most: u32,
    tiles: &Book,
) -> Result<bool> {
    let columns = by_columns(threads, alloc, snapshot, most, &mut Silent)?;
    let differs = !are_same(columns.as_slice(), tiles.as_slice());
    Ok(differs || first_differ(threads, alloc, snapshot, most, tiles.as_slice())?)
}

/// How many of the books of columns, by that number of shapes and by four others, differ from that of tiles.
pub fn books_that_differ<T: Threads + Sync>(
    threads: &T,
    alloc: Global,
    snapshot: &Snapshot,
    most: u32,
) -> Result<u32> {
    let tiles = by_tiles(threads, alloc, snapshot)?;
    let mut different = u32::from(differs(threads, alloc, snapshot, most, &tiles)?);
    for most in MOSTS {
        let differs = differs(threads, alloc, snapshot, most, &tiles)?;
        different = different.saturating_add(u32::from(differs));
    }
    Ok(different)
}

fn print_marker(rt: &HostRuntime, rule: &str, m: &Marker) -> io::Result<()> {
    let p = m.key.piece;
    let axis = letter(p.axis);
    print!(rt;
        "    {rule}:{axis}:{}:{}:{}:{}:{}",
        p.side, p.x1, p.x2, p.y0, p.y1
    )?;
    for origin in m.met.as_slice() {
        print!(rt; " {origin}")?;
    }
    println!(rt)
}

/// Prints markers, one a line.
pub fn print_markers(rt: &HostRuntime, rules: &Rules, markers: &[Marker]) -> Result<()> {
    for m in markers {
        let rule = rules.as_slice().get(m.key.rule as usize).context("a rule")?;
        print_marker(rt, rule.name.as_str(), m)?;
    }
    Ok(())
}

/// Prints the markers that columns find.
pub fn print_found<T: Threads + Sync>(
    rt: &HostRuntime,
    threads: &T,
    snapshot: &Snapshot,
    most: u32,
) -> Result<()> {
    let book = by_columns(threads, rt.alloc(), snapshot, most, &mut Silent)?;
    print_markers(rt, snapshot.deck().rules(), book.as_slice())
}

/// Prints how many books of columns differ from that of tiles.
pub fn print_alike<T: Threads + Sync>(
    rt: &HostRuntime,
    threads: &T,
    snapshot: &Snapshot,
    most: u32,
) -> Result<()> {
    let different = books_that_differ(threads, rt.alloc(), snapshot, most)?;
    Ok(println!(rt; "  {different} books differ")?)
}

/// Prints by what a layout is checked.
fn print_way(rt: &HostRuntime, snapshot: &Snapshot) -> io::Result<()> {
    match checked_tiles(snapshot) {
        Some(tiles) => print!(rt; "{tiles} tiles"),
        None => print!(rt; "columns"),
    }
}

/// Prints by what a layout is checked as a whole, with tiles of two sides, how many markers there are, and whether both find the same.
pub fn print_whole<T: Threads + Sync>(
    rt: &HostRuntime,
    threads: &T,
    snapshot: &Snapshot,
    other: &Snapshot,
) -> Result<()> {
    print!(rt; "  by ")?;
    print_way(rt, snapshot)?;
    print!(rt; " and by ")?;
    print_way(rt, other)?;
    let book = whole(threads, rt.alloc(), snapshot)?;
    let again = whole(threads, rt.alloc(), other)?;
    let same = are_same(book.as_slice(), again.as_slice());
    Ok(println!(rt; ": {} markers, the same: {same}", book.len())?)
}
