//! Layouts checked by columns.
//!
//! Each line is repeated, with the answer below. A line that begins with `#`, and an empty one, says nothing. Rules are a deck's lines
//! parted by `;`, and a library is as `gate_samples` reads it, with its structure `TOP` placed where it was drawn.
//! - `find MOST | RULES | LIBRARY` prints the markers, found by columns of at most MOST shapes each, if halving can reach that;
//! - `alike MOST | RULES | LIBRARY` prints how many books of columns differ from that of tiles, they or their first markers, by MOST and four others;
//! - `first LIMIT | RULES | LIBRARY` prints how many markers each rule has, the first LIMIT of each as columns find them, and how many a check finds;
//! - `room MARKERS | RULES | LIBRARY` says whether a check by columns ends well that has room for so many markers;
//! - `told MOST | RULES | LIBRARY` prints what a check by columns reports of how far it came, first and last;
//! - `whole SIDE | RULES | LIBRARY` says by what `check_layout` goes, with tiles of 256 nm and of SIDE, and whether both find the same;
//! - `random N` checks N random libraries so by five numbers, and prints how many books differ;
//! - `rows N` does so with random libraries of rows of cells.
mod book;
mod first;
mod random;
mod told;

use anyhow::{Result, bail};
use gate_plain::{deck_of, drawn};
use gate_samples::text_of_library;
use gate_words::Words;
use mpw_tiles::Snapshot;
use std::alloc::Global;
use std::thread::Threads;

/// The side of the tiles if a line names none, in nm.
const SIDE: &str = "256";

/// The snapshot of a library's structure `TOP`, as it is drawn.
fn snapshot_of(alloc: Global, side: &str, rules: &str, library: &str) -> Result<Snapshot> {
    drawn(
        alloc,
        deck_of(alloc, side, rules)?,
        &text_of_library(alloc, library)?,
    )
}

/// Answers a line about a library's snapshot.
fn answer_drawn<T: Threads + Sync>(
    rt: &HostRuntime,
    threads: &T,
    verb: &str,
    words: &mut Words<'_>,
    behind: &str,
) -> Result<()> {
    let (rules, library) = behind.split_once('|').unwrap_or((behind, ""));
    let snapshot = snapshot_of(rt.alloc(), SIDE, rules, library)?;
    match verb {
        "find" => book::print_found(rt, threads, &snapshot, words.number()),
        "alike" => book::print_alike(rt, threads, &snapshot, words.number()),
        "first" => first::print_first(rt, threads, &snapshot, words.number()),
        "room" => told::print_room(rt, threads, &snapshot, words.number()),
        "told" => told::print_told(rt, threads, &snapshot, words.number()),
        "whole" => {
            let other = snapshot_of(rt.alloc(), words.next(), rules, library)?;
            book::print_whole(rt, threads, &snapshot, &other)
        }
        _ => bail!("a command"),
    }
}

/// Answers a line, with threads for the checks.
fn answer<T: Threads + Sync>(rt: &HostRuntime, threads: &T, line: &str) -> Result<()> {
    let (command, behind) = line.split_once('|').unwrap_or((line, ""));
    let mut words = Words::of(command);
    match words.next() {
        "random" => random::compared(rt, threads, false, words.number())?,
        "rows" => random::compared(rt, threads, true, words.number())?,
        verb => answer_drawn(rt, threads, verb, &mut words, behind)?,
    }
    words.end()
}

/// Answers the lines of its table.
pub(crate) fn run<T: Threads + Sync>(rt: &HostRuntime, threads: &T, lines: &str) -> Result<()> {
    for line in lines.lines() {
        println!(rt; "{line}")?;
        if !line.is_empty() && !line.starts_with('#') {
            answer(rt, threads, line)?;
        }
    }
    Ok(())
}
