//! Golden tests of the store: appends and sessions that a failing device stops, and scripts over a store that is reopened.
//!
//! The standard input has tables of lines. A line `== NAME` begins a table; the module of that name says what its lines are.
#![tactic(auto)]

mod stops;
mod store;

use anyhow::{Result, bail};
use gate_words::{Table, read_tables};
use std::thread::Threads;

/// Runs a table.
fn run<T: Threads + Sync>(rt: &HostRuntime, threads: &T, table: &Table) -> Result<()> {
    match table.name() {
        "stops" => stops::run(rt, threads),
        "store" => store::run(rt, threads, table.lines()),
        _ => bail!("no table has this name"),
    }
}

fn main(rt: HostRuntime) -> Result<()> {
    let tables = read_tables(&rt)?;
    for table in &tables {
        println!(rt; "== {}", table.name())?;
        run(&rt, &rt, table)?;
    }
    Ok(())
}
