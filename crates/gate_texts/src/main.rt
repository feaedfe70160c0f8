//! Golden tests of texts: settings, stored requests, reports, pictures and the help.
//!
//! The standard input has tables of lines. A line `== NAME` begins a table; the module of that name says what its lines are.
#![tactic(auto)]

mod help;
mod picture;
mod report;
mod settings;
mod stored;

use anyhow::{Result, bail};
use gate_words::{HEAD, read_input, table};

/// Runs a table.
fn run(rt: &HostRuntime, name: &str, lines: &str) -> Result<()> {
    match name {
        "settings" => settings::run(rt, lines),
        "stored" => stored::run(rt, lines),
        "report" => report::run(rt, lines),
        "picture" => picture::run(rt, lines),
        "help" => help::run(rt),
        _ => bail!("no table has this name"),
    }
}

fn main(rt: HostRuntime) -> Result<()> {
    let input = read_input(&rt)?;
    for text in input.split(HEAD) {
        let (name, lines) = table(text);
        println!(rt; "== {name}")?;
        run(&rt, name, lines)?;
    }
    Ok(())
}
