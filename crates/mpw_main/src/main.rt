//! The program of the desk: `mpw script ..` serves the lines of the standard input to the standard output, and `mpw serve ..`
//! serves connections that share a desk.
#![tactic(auto)]

use mpw_core::{Core, MAX_EVENTS};
use mpw_serve::{Executor, TerminalLine, command_line, print_help, run_script, tell};
use mpw_server::run as run_service;
use mpw_settings::{Script, Settings};
use mpw_stored_desk::run_stored_script;
use std::process::ExitCode;
use std::thread::Threads;

/// Serves the standard input to the standard output as a script, over the desk of a store if one is named. If the standard error is a terminal, it shows
/// the progress of a run.
fn script(rt: &HostRuntime, threads: &(impl Threads + Sync), script: Script) -> ExitCode {
    let executor = Executor {
        threads,
        alloc: rt.alloc(),
        progress: TerminalLine::new(rt),
    };
    let Script { officer, store } = script;
    match store {
        None => run_script::<Core, _, _, _, _>(rt, executor, officer, rt.stdin(), rt.stdout()),
        Some(store) => run_stored_script::<Core, _, _, _, _>(
            rt,
            executor,
            (&store, officer),
            rt.stdin(),
            rt.stdout(),
        ),
    }
}

/// Exits with 0 if the connections ended, 2 after help or at a usage fault, 3 if a device or a store failed, 4 if the passes of a service don't
/// account for every call, and 5 if memory ran out or a thread could not be started. A fault is printed on the standard error.
fn main(rt: HostRuntime) -> ExitCode {
    match command_line(&rt) {
        Ok(Settings::Script(asked)) => script(&rt, &rt, asked),
        Ok(Settings::Serve(service)) => run_service::<Core, _, _>(
            &rt,
            &rt,
            &service,
            MAX_EVENTS,
            TerminalLine::new(&rt),
        ),
        Ok(Settings::Help(text)) => print_help(&rt, text.as_str()),
        Err(fault) => tell(&rt, &fault),
    }
}
