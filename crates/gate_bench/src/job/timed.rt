//! The parts of a run, each printed with the time that it took unless no times are printed.

use crate::job::parts;
use anyhow::Result;
use mpw_job::{Answer, Job};
use mpw_markers::Book;
use mpw_tiles::Snapshot;
use mpw_work::work_all;
use std::io;
use std::thread::Threads;
use std::time::Instant;

/// Prints what was executed, and the milliseconds since then unless no times are printed.
pub fn part(rt: &HostRuntime, what: &str, since: &Instant, still: bool) -> io::Result<()> {
    let taken = since.elapsed(rt)?.as_micros();
    if still {
        return println!(rt; "{what}");
    }
    println!(rt; "{what}: {}.{:03} ms", taken / 1000, taken % 1000)
}

/// Cuts the snapshot into windows, and makes one job for each.
pub fn jobs(rt: &HostRuntime, snapshot: &Snapshot, still: bool) -> Result<Vec<Job>> {
    let start = Instant::now(rt)?;
    let cut = parts::cut(rt.alloc(), snapshot)?;
    let windows = cut.windows();
    let (tiles, listed) = (windows.as_slice().len(), parts::listed(windows));
    let what = format!(in rt.alloc(); "cut: {tiles} tiles, {listed} rectangles")?;
    part(rt, what.as_str(), &start, still)?;
    parts::jobs(rt.alloc(), snapshot, windows)
}

/// Executes the jobs on this thread alone.
fn done_in_turn(rt: &HostRuntime, jobs: &[Job], still: bool) -> Result<Vec<Answer>> {
    let start = Instant::now(rt)?;
    let answers = parts::done_in_turn(rt.alloc(), jobs)?;
    let found = parts::found(&answers);
    let what = format!(in rt.alloc(); "jobs on one thread: {found} markers of tiles")?;
    part(rt, what.as_str(), &start, still)?;
    Ok(answers)
}

/// Executes the jobs in at most two threads for each processor.
fn done_by_all<T: Threads + Sync>(
    rt: &HostRuntime,
    threads: &T,
    jobs: &[Job],
    still: bool,
) -> Result<Vec<Answer>> {
    let start = Instant::now(rt)?;
    let answers = work_all(threads, rt.alloc(), jobs)?;
    part(rt, "jobs on all threads", &start, still)?;
    Ok(answers)
}

/// Executes the jobs on one thread, on all, or on one and then again on all, as the word says.
pub fn done<T: Threads + Sync>(
    rt: &HostRuntime,
    threads: &T,
    jobs: &[Job],
    on: &str,
    still: bool,
) -> Result<Vec<Answer>> {
    if on == "one" {
        return done_in_turn(rt, jobs, still);
    }
    if on != "all" {
        done_in_turn(rt, jobs, still)?;
    }
    done_by_all(rt, threads, jobs, still)
}

/// Stitches the answers.
pub fn stitched(rt: &HostRuntime, answers: &[Answer], still: bool) -> Result<Book> {
    let start = Instant::now(rt)?;
    let book = parts::stitched(rt.alloc(), answers)?;
    let what = format!(in rt.alloc(); "stitch: {} markers", book.len())?;
    part(rt, what.as_str(), &start, still)?;
    Ok(book)
}
