//! Prints the time of a check by columns, in milliseconds, and how many markers each rule has.
//!
//! `FILE MOST` reads the library of the file, places its structure `TOP` as it is drawn, and checks it by columns of at most MOST flat
//! shapes each, with the rules of `layout`. `FILE tiles SIDE` checks it by tiles of that side, as a whole.

use crate::layout::{SAMPLE, SAMPLE_SIDE, snapshot};
use crate::rules::print_rules;
use anyhow::{Context, Result, bail};
use gate_samples::text_of_library;
use mpw_check::{Silent, check_tiles, tile_count};
use mpw_columns::check_columns;
use mpw_markers::{Book, stitch};
use mpw_tiles::Snapshot;
use std::alloc::Global;
use std::fs;
use std::thread::Threads;
use std::time::Instant;

/// The greatest side of a tile, in nm.
const WHOLE: &str = "1073741824";

/// The greatest number of shapes of a column of the sample.
const SAMPLE_MOST: &str = "4";

/// The book of the snapshot by columns.
fn by_columns<T: Threads + Sync>(
    threads: &T,
    alloc: Global,
    snapshot: &Snapshot,
    most: u32,
) -> Result<Book> {
    if snapshot.shelf().submissions().len() != 1 {
        bail!("one submission");
    }
    Ok(check_columns(threads, alloc, snapshot, most, &mut Silent)?)
}

/// The book of the snapshot by tiles.
fn by_tiles<T: Threads + Sync>(threads: &T, alloc: Global, snapshot: &Snapshot) -> Result<Book> {
    let tiles = tile_count(snapshot).context("at most 4096 tiles")?;
    let lists = check_tiles(threads, alloc, snapshot, 0, tiles, &mut Silent)?;
    Ok(stitch(alloc, &lists)?)
}

/// Checks a snapshot, and prints what was found.
fn check<T: Threads + Sync>(
    rt: &HostRuntime,
    threads: &T,
    snapshot: &Snapshot,
    way: &str,
    still: bool,
) -> Result<()> {
    let start = Instant::now(rt)?;
    let book = match way.parse::<u32>() {
        Ok(most) => by_columns(threads, rt.alloc(), snapshot, most)?,
        Err(_) => by_tiles(threads, rt.alloc(), snapshot)?,
    };
    let taken = start.elapsed(rt)?.as_millis();
    if still {
        println!(rt; "{} markers", book.len())?;
    } else {
        println!(rt; "{} markers: {taken} ms", book.len())?;
    }
    Ok(print_rules(rt, snapshot.deck().rules(), book.as_slice())?)
}

/// Checks the library of a file as the words say.
pub fn run<T: Threads + Sync>(rt: &HostRuntime, threads: &T, words: &[String]) -> Result<()> {
    let (path, way, side) = match words {
        [path, way] => (path, way, WHOLE),
        [path, way, side] => (path, way, side.as_str()),
        _ => bail!("FILE MOST, or FILE tiles SIDE"),
    };
    let snapshot = snapshot(rt.alloc(), &fs::read(rt, path.as_str())?, side)?;
    check(rt, threads, &snapshot, way.as_str(), false)
}

/// Checks the sample, and prints no times.
pub fn run_still<T: Threads + Sync>(rt: &HostRuntime, threads: &T) -> Result<()> {
    let text = text_of_library(rt.alloc(), SAMPLE)?;
    let snapshot = snapshot(rt.alloc(), &text, SAMPLE_SIDE)?;
    check(rt, threads, &snapshot, SAMPLE_MOST, true)
}
