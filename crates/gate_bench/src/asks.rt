//! Asks a shared desk from several threads at once, and prints how many requests a second it answered.
//!
//! The words are the number of threads and how often each asks `whoami`. Each thread has a session of the officer.

mod asking;

use crate::asks::asking::{Plan, ask_in_threads};
use crate::desk::new_desk;
use anyhow::Result;
use std::sync::Wait;
use std::thread::Threads;
use std::time::Instant;

/// The plan of the small form.
const SMALL: Plan = Plan {
    threads: 4,
    times: 10,
};

/// The number of the word at that place, or the default if there is none or it is no number.
fn number(words: &[String], place: usize, default: u32) -> u32 {
    match words.get(place) {
        Some(word) => word.as_str().parse().unwrap_or(default),
        None => default,
    }
}

/// Calls a second.
fn rate(calls: usize, nanoseconds: u128) -> u128 {
    match nanoseconds {
        0 => 0,
        nanoseconds => (calls as u128).saturating_mul(1_000_000_000) / nanoseconds,
    }
}

/// Asks as planned, and prints how many calls the desk answered.
fn ask<R: Threads + Wait + Sync>(
    rt: &HostRuntime,
    threads: &R,
    plan: Plan,
    still: bool,
) -> Result<()> {
    let core = new_desk(rt.alloc())?;
    let start = Instant::now(rt)?;
    let calls = ask_in_threads(threads, rt.alloc(), core, plan)?;
    let taken = start.elapsed(rt)?.as_nanos();
    match calls {
        None => Ok(println!(rt; "not all were asked")?),
        Some(calls) if still => Ok(println!(rt; "{calls} calls")?),
        Some(calls) => Ok(println!(rt; "{calls} calls, {} a second", rate(calls, taken))?),
    }
}

/// Asks as the words say; without words four threads ask 25,000 times each.
pub fn run<R: Threads + Wait + Sync>(
    rt: &HostRuntime,
    threads: &R,
    words: &[String],
) -> Result<()> {
    let plan = Plan {
        threads: number(words, 0, 4),
        times: number(words, 1, 25_000),
    };
    ask(rt, threads, plan, false)
}

/// Asks as the plan of the small form says, and prints no times.
pub fn run_still<R: Threads + Wait + Sync>(rt: &HostRuntime, threads: &R) -> Result<()> {
    ask(rt, threads, SMALL, true)
}
