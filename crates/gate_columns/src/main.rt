//! Golden tests of a check by columns, of its parts, and of parts that other hosts made.
//!
//! The standard input has tables of lines. A line `== NAME` begins a table; the module of that name says what its lines are.
#![tactic(auto)]

mod columns;
mod parts;
mod spread;

use anyhow::{Result, bail};
use gate_words::{HEAD, read_input, table};
use std::thread::Threads;

/// Runs a table.
fn run<T: Threads + Sync>(rt: &HostRuntime, threads: &T, name: &str, lines: &str) -> Result<()> {
    match name {
        "columns" => columns::run(rt, threads, lines),
        "parts" => parts::run(rt, lines),
        "spread" => spread::run(rt, threads, lines),
        _ => bail!("no table has this name"),
    }
}

fn main(rt: HostRuntime) -> Result<()> {
    let input = read_input(&rt)?;
    for text in input.split(HEAD) {
        let (name, lines) = table(text);
        println!(rt; "== {name}")?;
        run(&rt, &rt, name, lines)?;
    }
    Ok(())
}
