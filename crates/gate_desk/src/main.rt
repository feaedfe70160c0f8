//! Golden tests of the desk: its policy, its events, scripts, and a desk that threads share.
//!
//! The standard input has tables of lines. A line `== NAME` begins a table. The module of that name says what its lines are.
#![tactic(auto)]

mod desk;
mod policy;
mod replies;
mod scripts;
mod shared;

use anyhow::{Result, bail};
use gate_words::{Table, read_tables};
use std::net::{Net, TcpListener, TcpStream};
use std::sync::Wait;
use std::thread::Threads;
use std::time::Clock;

/// Runs a table.
fn run<T>(rt: &HostRuntime, threads: &T, table: &Table) -> Result<()>
where
    T: Threads + Wait + Clock + Net<Listener = TcpListener, Stream = TcpStream> + Sync,
{
    match table.name() {
        "policy" => Ok(policy::run(rt)?),
        "desk" | "refused" => desk::run(rt, table.lines()),
        "scripts" => scripts::run(rt, threads, table.lines()),
        "shared" => shared::run(rt, threads, table.lines()),
        _ => bail!("no table has this name"),
    }
}

fn main(rt: HostRuntime) -> Result<()> {
    let tables = read_tables(&rt)?;
    for table in &tables {
        println!(rt; "== {}", table.name())?;
        run(&rt, &rt, table)?;
    }
    Ok(())
}
