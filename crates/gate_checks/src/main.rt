//! Golden tests of the rules: pieces of edges, markers, and the jobs of tiles.
//!
//! The standard input has tables of lines. A line `== NAME` begins a table. The module of that name says what its lines are.
#![tactic(auto)]

mod checks;
mod job;
mod markers;

use anyhow::{Result, bail};
use gate_words::{HEAD, read_input, table};
use std::thread::Threads;

/// Runs a table.
fn run<T: Threads + Sync>(rt: &HostRuntime, threads: &T, name: &str, lines: &str) -> Result<()> {
    match name {
        "checks" => checks::run(rt, lines),
        "markers" => markers::run(rt, lines),
        "job" => job::run(rt, threads, lines),
        _ => bail!("no table has this name"),
    }
}

fn main(rt: HostRuntime) -> Result<()> {
    let input = read_input(&rt)?;
    for text in input.split(HEAD) {
        let (name, lines) = table(text);
        println!(rt; "== {name}")?;
        run(&rt, &rt, name, lines)?;
    }
    Ok(())
}
