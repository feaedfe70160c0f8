//! A desk that threads share, with a gate that workers pass before they do a tile's job.
//!
//! Each line is printed, with its result below, which is the same however the threads take turns.
//! - `NAME HOLD KEPT` is the day of the script of that name: its connections and its workers are threads over one desk with six tiles. The
//!   gate holds `each` pass of tile 0, or the `first` alone, until the flag `passing` is set. At the end all passes are handed back. One is
//!   left out if `KEPT` is `connection` or `worker`, and none if it is `none`;
//! - `session NAME` serves the script of that name, as `gate_events` has them, to a pass of a new desk without workers. After it, `source
//!   N` makes the source fail at that byte, `sink N` makes the sink fail after that many bytes, and `source each` and `sink each` make them
//!   fail at each place in turn. A front is reported if the written text is a front of the replies, the history has exactly the requests
//!   that were read and the end, and all calls are the pass's. After these words, except `each`, or alone, `events` prints the events of
//!   the history too;
//! - `loopback NAME` serves the script of that name to a client over loopback, by a service with one connection and one worker over a new
//!   desk, and prints each event of the history except the worker's calls for a job;
//! - `passes N` takes passes, one after another, until there is none or there were N and one more.
//!
//! A connection's steps are on consecutive lines:
//! - `tell REQUEST` asks, and prints the reply;
//! - `until FRONT REQUEST` asks until a line of the reply begins with that, and prints nothing;
//! - `set FLAG` sets a flag, and `wait FLAG` waits for one. The gate sets the flag `held`.
mod account;
mod day;
mod ending;
mod faults;
mod flags;
mod history;
mod loopback;
mod passes;
mod session;
mod setup;
mod shared_day;
mod steps;
mod threads;

use crate::shared::day::Day;
use crate::shared::faults::tell_session;
use crate::shared::loopback::tell_loopback;
use crate::shared::passes::tell_passes;
use crate::shared::setup::desk_of;
use crate::shared::shared_day::tell_day;
use anyhow::{Result, bail};
use gate_events::read_transcript;
use gate_words::number;
use std::fs;
use std::net::{Net, TcpListener, TcpStream};
use std::sync::Wait;
use std::thread::Threads;
use std::time::Clock;

/// The data file with what sets a desk up.
const DESK: &str = "six-tiles.txt";

/// The text of a script.
fn read_script(rt: &HostRuntime, name: &str) -> Result<String> {
    let path = format!(in rt.alloc(); "{name}.txt")?;
    Ok(fs::read_to_string(rt, path.as_str())?)
}

/// Serves a script as the words after its name say.
fn run_session(rt: &HostRuntime, waits: &impl Wait, name: &str, words: &[&str]) -> Result<()> {
    let text = read_script(rt, name)?;
    let script = read_transcript(rt.alloc(), text.as_str())?;
    tell_session(rt, waits, &script, words)
}

/// Serves a script over loopback.
fn run_loopback<R>(rt: &HostRuntime, threads: &R, name: &str) -> Result<()>
where
    R: Threads + Wait + Clock + Net<Listener = TcpListener, Stream = TcpStream> + Sync,
{
    let text = read_script(rt, name)?;
    let script = read_transcript(rt.alloc(), text.as_str())?;
    tell_loopback(rt, threads, &script)
}

/// Runs one line of the standard input.
fn run_case<R>(rt: &HostRuntime, threads: &R, line: &str) -> Result<()>
where
    R: Threads + Wait + Clock + Net<Listener = TcpListener, Stream = TcpStream> + Sync,
{
    println!(rt; "{line}")?;
    let words: Vec<&str> = line.split_whitespace().collect(rt.alloc())?;
    match words.as_slice() {
        ["session", name, words @ ..] => run_session(rt, threads, name, words),
        ["loopback", name] => run_loopback(rt, threads, name),
        ["passes", count] => tell_passes(rt, threads, desk_of(rt, DESK)?, number(count)?),
        [name, hold, kept_back] => {
            let core = desk_of(rt, DESK)?;
            let day = Day::read(rt.alloc(), read_script(rt, name)?, hold, kept_back)?;
            tell_day(rt, threads, core, &day)
        }
        _ => bail!("the name of a day"),
    }
}

/// Answers the lines of its table.
pub(crate) fn run<R>(rt: &HostRuntime, waits: &R, lines: &[String]) -> Result<()>
where
    R: Threads + Wait + Clock + Net<Listener = TcpListener, Stream = TcpStream> + Sync,
{
    for line in lines {
        run_case(rt, waits, line.as_str())?;
    }
    Ok(())
}
