//! Stops a store's disk at each of its calls, and prints what the store has then.
//!
//! Each of its two files in turn fails from its call N on, for N from 0 until nothing is stopped. Then the process may have died, and the system
//! has written all that it was given; or the power failed, and all that wasn't synced is lost. Each time the store is opened again, and its rows are
//! those that were committed, or these and the one that was being appended.
//!
//! First a row is appended after three; then a session of nine requests is served over a new store, and its rows are compared with its replies.
mod appending;
mod disks;
mod serving;

use anyhow::Result;
use appending::stop_append;
use disks::{After, Fuses, Outcome};
use serving::stop_session;
use std::thread::Threads;

/// How often a stop came to what.
#[derive(Clone, Copy)]
struct Tally {
    /// Stops before the disk's store was open.
    unopened: u64,
    /// Stops after that.
    stopped: u64,
    /// Looks at a store that had the committed rows alone.
    committed: u64,
    /// Looks at a store that had one more.
    more: u64,
}

impl Tally {
    /// Of no stop yet.
    fn new() -> Tally {
        Tally {
            unopened: 0,
            stopped: 0,
            committed: 0,
            more: 0,
        }
    }

    /// Notes a look at a store that has so many rows when so many were committed, and says whether it has those or one more.
    fn note(&mut self, rows: usize, committed: usize) -> bool {
        if rows == committed {
            self.committed = self.committed.saturating_add(1);
            return true;
        }
        self.more = self.more.saturating_add(1);
        rows == committed.saturating_add(1)
    }
}

/// Notes what one stop came to, and says whether it did stop something.
fn note(rt: &HostRuntime, tally: &mut Tally, name: &str, calls: u64, after: After) -> Result<bool> {
    match after.outcome {
        Outcome::Unopened => tally.unopened = tally.unopened.saturating_add(1),
        Outcome::Stopped => tally.stopped = tally.stopped.saturating_add(1),
        Outcome::Whole => {
            if after.killed != after.committed || after.cut_off != after.committed {
                println!(rt; "{name}: WRONG where nothing is stopped")?;
            }
            return Ok(false);
        }
    }
    let is_killed_well = tally.note(after.killed, after.committed);
    let is_cut_off_well = tally.note(after.cut_off, after.committed);
    if !is_killed_well || !is_cut_off_well {
        println!(rt;
            "{name}: WRONG at call {calls}: {} committed, {} and {} rows",
            after.committed, after.killed, after.cut_off
        )?;
    }
    Ok(true)
}

/// Prints what came of all stops, unless there were none.
fn print_tally(rt: &HostRuntime, name: &str, tally: &Tally) -> Result<()> {
    let stops = tally.unopened.saturating_add(tally.stopped);
    let looks = tally.committed.saturating_add(tally.more);
    if stops == 0 || looks != stops.saturating_mul(2) {
        println!(rt; "{name}: WRONG: {stops} stops, {looks} looks")?;
    }
    let (before, behind) = (found_word(tally.unopened), found_word(tally.stopped));
    println!(rt;
        "{name}: {before} stops before the store is open and {behind} behind; each time the committed rows, or one more"
    )?;
    Ok(())
}

/// Whether there are any.
fn found_word(count: u64) -> &'static str {
    if count == 0 { "none" } else { "some" }
}

/// Stops an append at each call of a file.
fn append(rt: &HostRuntime, name: &str, is_log: bool, payload: &[u8]) -> Result<()> {
    let mut tally = Tally::new();
    for calls in 0..100_000u64 {
        let after = stop_append(rt.alloc(), Fuses::of(calls, is_log), payload)?;
        if !note(rt, &mut tally, name, calls, after)? {
            break;
        }
    }
    print_tally(rt, name, &tally)
}

/// Stops a session at each call of a file.
fn session(
    rt: &HostRuntime,
    threads: &(impl Threads + Sync),
    name: &str,
    is_log: bool,
) -> Result<()> {
    let mut tally = Tally::new();
    for calls in 0..100_000u64 {
        let after = stop_session(threads, rt.alloc(), Fuses::of(calls, is_log))?;
        if !note(rt, &mut tally, name, calls, after)? {
            break;
        }
    }
    print_tally(rt, name, &tally)
}

/// Stops appends, and then a session.
pub(crate) fn run(rt: &HostRuntime, threads: &(impl Threads + Sync)) -> Result<()> {
    let large = vec![in rt.alloc(); 7u8; 100_000]?;
    append(rt, "append, log", true, b"x")?;
    append(rt, "append, database", false, b"x")?;
    append(rt, "append of 100 kB, log", true, large.as_slice())?;
    append(rt, "append of 100 kB, database", false, large.as_slice())?;
    session(rt, threads, "session, log", true)?;
    session(rt, threads, "session, database", false)
}
