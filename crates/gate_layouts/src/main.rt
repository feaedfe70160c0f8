//! Golden tests of placed layouts: structures and walks, tiles, contents of columns, placements, and waivers.
//!
//! The standard input has tables of lines. A line `== NAME` begins a table. The module of that name says what its lines are.
#![tactic(auto)]

mod contents;
mod layouts;
mod placings;
mod tiles;
mod waivers;

use anyhow::{Result, bail};
use gate_words::{HEAD, read_input, table};

/// Runs a table.
fn run(rt: &HostRuntime, name: &str, lines: &str) -> Result<()> {
    match name {
        "layouts" => layouts::run(rt, lines),
        "tiles" => tiles::run(rt, lines),
        "contents" => contents::run(rt, lines),
        "placings" => placings::run(rt, lines),
        "waivers" => waivers::run(rt, lines),
        _ => bail!("no table has this name"),
    }
}

fn main(rt: HostRuntime) -> Result<()> {
    let input = read_input(&rt)?;
    for text in input.split(HEAD) {
        let (name, lines) = table(text);
        println!(rt; "== {name}")?;
        run(&rt, name, lines)?;
    }
    Ok(())
}
