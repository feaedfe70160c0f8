//! Prints the times of the parts of a run: the cut, the jobs of all tiles on one thread and on at most two for each processor, and the
//! stitching, each in milliseconds, and how many markers each rule has.
//!
//! `FILE SIDE [THREADS]` reads the library of the file, places its structure `TOP` as it is drawn, and checks it by tiles of that side with
//! the rules of `layout`. The jobs are executed on one thread and then again on all. With the word `one` or `all` they are executed once,
//! so that neither finds the memory that the other touched.

mod parts;
mod timed;

use crate::layout::{SAMPLE, SAMPLE_SIDE, snapshot};
use crate::rules::print_rules;
use anyhow::{Result, bail};
use gate_samples::text_of_library;
use mpw_tiles::Snapshot;
use std::fs;
use std::thread::Threads;
use std::time::Instant;

/// Runs the snapshot, and prints each part.
fn run_snapshot<T: Threads + Sync>(
    rt: &HostRuntime,
    threads: &T,
    snapshot: &Snapshot,
    on: &str,
    still: bool,
) -> Result<()> {
    let jobs = timed::jobs(rt, snapshot, still)?;
    let answers = timed::done(rt, threads, &jobs, on, still)?;
    let book = timed::stitched(rt, &answers, still)?;
    Ok(print_rules(rt, snapshot.deck().rules(), book.as_slice())?)
}

/// Reads the library of a text with tiles of that side, and prints that it was read.
fn read(rt: &HostRuntime, text: &[u8], side: &str, still: bool) -> Result<Snapshot> {
    let start = Instant::now(rt)?;
    let snapshot = snapshot(rt.alloc(), text, side)?;
    timed::part(rt, "read", &start, still)?;
    Ok(snapshot)
}

/// Runs the library of a file as the words say.
pub fn run<T: Threads + Sync>(rt: &HostRuntime, threads: &T, words: &[String]) -> Result<()> {
    let (path, side, on) = match words {
        [path, side] => (path, side, ""),
        [path, side, on] => (path, side, on.as_str()),
        _ => bail!("FILE SIDE [THREADS]"),
    };
    let text = fs::read(rt, path.as_str())?;
    run_snapshot(
        rt,
        threads,
        &read(rt, &text, side.as_str(), false)?,
        on,
        false,
    )
}

/// Runs the sample, and prints no times.
pub fn run_still<T: Threads + Sync>(rt: &HostRuntime, threads: &T) -> Result<()> {
    let text = text_of_library(rt.alloc(), SAMPLE)?;
    run_snapshot(rt, threads, &read(rt, &text, SAMPLE_SIDE, true)?, "", true)
}
