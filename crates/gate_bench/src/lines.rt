//! Serves connections one after another over one desk, and prints how many lines a second the desk answered on each.
//!
//! The text has the connections' lines; a line `-- NAME` begins a connection. The officer is `root`, whose token is `abc`.

mod part;

use crate::desk::new_desk;
use crate::lines::part::{Part, accepted};
use anyhow::Result;
use mpw_core::Core;
use mpw_devices::Counted;
use mpw_events::NoKeeper;
use mpw_serve::{Executor, OwnDesk, Silent, serve_core};
use std::alloc::Global;
use std::io;
use std::thread::Threads;
use std::time::Instant;

/// Lines a second.
fn rate(lines: usize, nanoseconds: u128) -> u128 {
    if nanoseconds == 0 {
        return 0;
    }
    (lines as u128).saturating_mul(1_000_000_000) / nanoseconds
}

/// Prints how many of a connection's lines were accepted, and whether it was served to its end.
fn tell(
    rt: &HostRuntime,
    part: &Part,
    outcome: (usize, bool),
    taken: Option<u128>,
) -> io::Result<()> {
    let (accepted, whole) = outcome;
    match taken {
        None => {
            println!(rt;
                "{}: {accepted} of {} lines accepted, {whole}",
                part.name, part.lines
            )
        }
        Some(taken) => println!(rt;
            "{}: {accepted} of {} lines accepted, {} a second, {whole}",
            part.name,
            part.lines,
            rate(part.lines, taken)
        ),
    }
}

/// The desk after a connection's lines, how many of them it accepted, and whether it served to their end.
fn serve<T: Threads + Sync>(
    threads: &T,
    alloc: Global,
    core: Box<Core>,
    part: &Part,
) -> (Box<Core>, (usize, bool)) {
    let mut replies = Vec::new(alloc);
    let progress = Silent;
    let executor = Executor {
        threads,
        alloc,
        progress,
    };
    let mut own = OwnDesk::new(core, NoKeeper, part.connection, executor);
    let served = serve_core(
        &mut own,
        &mut Counted::new(part.text.as_bytes()),
        &mut Counted::new(&mut replies),
    );
    let outcome = (
        accepted(str::from_utf8(&replies).unwrap_or("")),
        served.ended.is_ok(),
    );
    (own.into_parts().0, outcome)
}

/// Serves a connection, prints how many of its lines were accepted, and returns the desk.
fn show<T: Threads + Sync>(
    rt: &HostRuntime,
    threads: &T,
    core: Box<Core>,
    part: &Part,
    still: bool,
) -> Result<Box<Core>> {
    let start = Instant::now(rt)?;
    let (core, outcome) = serve(threads, rt.alloc(), core, part);
    let taken = start.elapsed(rt)?.as_nanos();
    tell(rt, part, outcome, if still { None } else { Some(taken) })?;
    Ok(core)
}

/// Serves the connections of the text.
pub fn run<T: Threads + Sync>(
    rt: &HostRuntime,
    threads: &T,
    text: &str,
    still: bool,
) -> Result<()> {
    let mut core = new_desk(rt.alloc())?;
    let mut part = Part::new(rt.alloc(), 1, "")?;
    for line in text.lines() {
        if !line.starts_with("-- ") {
            part.push(line)?;
            continue;
        }
        core = show(rt, threads, core, &part, still)?;
        part = Part::new(rt.alloc(), part.connection.saturating_add(1), line)?;
    }
    show(rt, threads, core, &part, still)?;
    Ok(())
}
