//! Benches of the desk and of the checks. The first word of the command line chooses one; the words after it are the bench's own:
//! - `asks [THREADS [TIMES]]`: threads ask one shared desk;
//! - `checks`: the checks of the rectangles on the standard input;
//! - `columns FILE MOST` and `columns FILE tiles SIDE`: a check by columns, or by tiles, of the library of a file;
//! - `job FILE SIDE [THREADS]`: the parts of a run on the library of a file;
//! - `lines`: connections whose lines are on the standard input;
//! - `policy`: the calls and changes of policies of several sizes;
//! - `texts`: what the readers give of the texts on the standard input;
//! - `still`: each bench in turn in its small form, without times, after a line `== NAME`. The inputs of `checks`, `lines` and
//!   `texts` are the files `checks.txt`, `lines.txt` and `texts` of the current folder.
//!
//! The module of each name describes its input and its output.
#![tactic(auto)]

mod asks;
mod checks;
mod columns;
mod desk;
mod job;
mod layout;
mod lines;
mod policy;
mod rules;
mod texts;

use anyhow::{Result, bail};
use std::io::Read;
use std::sync::Wait;
use std::thread::Threads;
use std::{env, fs, io};

/// Runs the benches of several threads in their small form, without times.
fn run_still_threads<T: Threads + Wait + Sync>(rt: &HostRuntime, threads: &T) -> Result<()> {
    println!(rt; "== asks")?;
    asks::run_still(rt, threads)?;
    println!(rt; "== checks")?;
    checks::run(rt, fs::read_to_string(rt, "checks.txt")?.as_str(), true)?;
    println!(rt; "== columns")?;
    columns::run_still(rt, threads)?;
    println!(rt; "== job")?;
    job::run_still(rt, threads)
}

/// Runs each bench in its small form, without times.
fn run_still<T: Threads + Wait + Sync>(rt: &HostRuntime, threads: &T) -> Result<()> {
    run_still_threads(rt, threads)?;
    println!(rt; "== lines")?;
    lines::run(
        rt,
        threads,
        fs::read_to_string(rt, "lines.txt")?.as_str(),
        true,
    )?;
    println!(rt; "== policy")?;
    policy::run(rt, true)?;
    println!(rt; "== texts")?;
    texts::run(rt, &fs::read(rt, "texts")?)
}

/// The text of the standard input.
fn read_input(rt: &HostRuntime) -> io::Result<String> {
    io::read_to_string(rt.alloc(), rt.stdin())
}

/// The bytes of the standard input.
fn read_bytes(rt: &HostRuntime) -> io::Result<Vec<u8>> {
    let mut bytes = Vec::new(rt.alloc());
    rt.stdin().read_to_end(&mut bytes)?;
    Ok(bytes)
}

/// Runs the bench of that name with the words after it.
fn run<T: Threads + Wait + Sync>(
    rt: &HostRuntime,
    threads: &T,
    name: &str,
    words: &[String],
) -> Result<()> {
    match name {
        "asks" => asks::run(rt, threads, words),
        "checks" => checks::run(rt, read_input(rt)?.as_str(), false),
        "columns" => columns::run(rt, threads, words),
        "job" => job::run(rt, threads, words),
        "lines" => lines::run(rt, threads, read_input(rt)?.as_str(), false),
        "policy" => policy::run(rt, false),
        "texts" => texts::run(rt, &read_bytes(rt)?),
        "still" => run_still(rt, threads),
        _ => bail!("no bench has this name"),
    }
}

fn main(rt: HostRuntime) -> Result<()> {
    let words: Vec<String> = env::args(&rt)?.skip(1).collect(rt.alloc())?;
    let Some((name, words)) = words.as_slice().split_first() else {
        bail!("the first word is the name of a bench");
    };
    run(&rt, &rt, name.as_str(), words)
}
