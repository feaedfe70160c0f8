//! Golden tests of the readers: placings, names, reals and decks, libraries, hostile texts, and shapes.
//!
//! The standard input has tables of lines. A line `== NAME` begins a table. The module of that name says what its lines are.
#![tactic(auto)]

mod geometry;
mod hostile;
mod libraries;
mod shapes;

use anyhow::{Result, bail};
use gate_words::{HEAD, read_input, table};

/// Runs a table.
fn run(rt: &HostRuntime, name: &str, lines: &str) -> Result<()> {
    match name {
        "geometry" => geometry::run(rt, lines),
        "libraries" => libraries::run(rt, lines),
        "hostile" => hostile::run(rt, lines),
        "shapes" => shapes::run(rt, lines),
        _ => bail!("no table has this name"),
    }
}

fn main(rt: HostRuntime) -> Result<()> {
    let input = read_input(&rt)?;
    for text in input.split(HEAD) {
        let (name, lines) = table(text);
        println!(rt; "== {name}")?;
        run(&rt, name, lines)?;
    }
    Ok(())
}
