//! The program of `mpw help`: what a request, a denial, a code or a command means; without a word it lists them.
#![tactic(auto)]

mod fault;
mod manual;

use fault::{HelpFault, exit_status};
use manual::tell;
use std::process::ExitCode;
use std::{env, io};

/// The words of the command line.
fn words(rt: &HostRuntime) -> Result<Vec<String>, HelpFault> {
    match env::args(rt) {
        Ok(arguments) => Ok(arguments.collect(rt.alloc())?),
        Err(error) if error.kind() == io::ErrorKind::OutOfMemory => Err(HelpFault::Memory),
        Err(_) => Err(HelpFault::Usage),
    }
}

/// Reads the command line, and prints what it asks for.
fn run(rt: &HostRuntime) -> Result<(), HelpFault> {
    let words = words(rt)?;
    let words: Vec<&str> = words.iter().map(|word| word.as_str()).collect(rt.alloc())?;
    tell(rt, words.as_slice())
}

/// Exits with 0 if the help was printed, 2 if nothing has the word, 3 if the output failed, and 5 if memory ran out.
fn main(rt: HostRuntime) -> ExitCode {
    let ended = run(&rt);
    if let Err(fault) = &ended {
        let _ = eprintln!(rt; "{fault}");
    }
    ExitCode::from(exit_status(&ended))
}
