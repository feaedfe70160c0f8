//! The program of who audits a store: `mpw trail FILE` lists its rows or writes one's payload, and `mpw store check FILE` reports whether a desk accepts
//! all rows, and how the log ends. Nothing is written to the file.
#![tactic(auto)]

mod answering;
mod fault;
mod report;
mod settings;
mod telling;

use fault::{AuditFault, exit_status};
use mpw_core::Core;
use settings::{misread, read_settings};
use std::process::ExitCode;
use std::thread::Threads;
use std::{env, io};
use telling::tell;

/// The words of the command line.
fn words(rt: &HostRuntime) -> Result<Vec<String>, AuditFault> {
    match env::args(rt) {
        Ok(arguments) => Ok(arguments.collect(rt.alloc())?),
        Err(error) => Err(misread(rt.alloc(), error.kind() == io::ErrorKind::OutOfMemory)),
    }
}

/// Reads the command line, and prints what it asks for.
fn run(rt: &HostRuntime, threads: &(impl Threads + Sync)) -> Result<(), AuditFault> {
    let words = words(rt)?;
    let words: Vec<&str> = words.iter().map(|word| word.as_str()).collect(rt.alloc())?;
    let asked = read_settings(rt.alloc(), words.as_slice())?;
    tell::<Core, _>(rt, threads, &asked)
}

/// Exits with 0 if all was printed, 2 if the command line is wrong, 3 if the file can't be read or output fails, 4 if a store that is checked isn't
/// sound, and 5 if memory ran out.
fn main(rt: HostRuntime) -> ExitCode {
    let ended = run(&rt, &rt);
    if let Err(fault) = &ended {
        let _ = eprintln!(rt; "{fault}");
    }
    ExitCode::from(exit_status(&ended))
}
