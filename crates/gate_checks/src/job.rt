//! Jobs of all tiles over listed rectangles, stitched into a book.
//!
//! Each line is printed, with the answer below it. A line that begins with `#`, and an empty one, prints nothing. Rules are a deck's lines
//! with `;` between them, and rectangles are `ORIGIN LAYER X0 Y0 X1 Y1`, with `,` between them.
//! - `find SIDE | RULES | RECTANGLES` prints the number of tiles and the markers, each with the origins that it touches;
//! - `sides | RULES | RECTANGLES` prints for five sides of the tiles whether the book is that of a single core;
//! - `random N` cuts N random layouts by five sides and as a single core, does all jobs, stitches their answers, and prints how many books
//!   differ from a plain search square by square;
//! - `copies` copies a job and an answer of each kind, and prints how many of the copies differ.
mod book;
mod copies;
mod random;
mod whole;
mod words;

use anyhow::{Result, bail};
use gate_words::Words;
use std::thread::Threads;

/// Answers a line, with threads for the jobs.
fn answer<T: Threads + Sync>(rt: &HostRuntime, threads: &T, line: &str) -> Result<()> {
    let (command, behind) = line.split_once('|').unwrap_or((line, ""));
    let (rules, shapes) = behind.split_once('|').unwrap_or((behind, ""));
    let mut words = Words::of(command);
    match words.next() {
        "find" => book::print_found(rt, threads, words.next(), rules, shapes)?,
        "sides" => book::print_sides(rt, threads, rules, shapes)?,
        "random" => random::compared(rt, threads, words.number())?,
        "copies" => copies::compared(rt)?,
        _ => bail!("a command"),
    }
    words.end()
}

/// Answers the lines of its table.
pub(crate) fn run<T: Threads + Sync>(rt: &HostRuntime, threads: &T, lines: &str) -> Result<()> {
    for line in lines.lines() {
        println!(rt; "{line}")?;
        if !line.is_empty() && !line.starts_with('#') {
            answer(rt, threads, line)?;
        }
    }
    Ok(())
}
