//! `mpw script` without a store: serves the lines of the standard input, on a new desk, to the standard output.
//!
//! It needs neither a database nor sockets, so it is proved and built in a fraction of the time of the desk's program, `mpw_main`. Both
//! serve such a script by the same library.
#![tactic(auto)]

use mpw_core::Core;
use mpw_serve::{Executor, TerminalLine, command_line, print_help, run_script, tell};
use mpw_settings::{Script, Settings};
use std::process::ExitCode;
use std::thread::Threads;

/// Serves the standard input to the standard output as a script on a new desk. The store that the settings name isn't opened.
fn script(rt: &HostRuntime, threads: &(impl Threads + Sync), script: Script) -> ExitCode {
    let Script { officer, store } = script;
    if store.is_some() {
        return refuse(rt);
    }
    let executor = Executor {
        threads,
        alloc: rt.alloc(),
        progress: TerminalLine::new(rt),
    };
    run_script::<Core, _, _, _, _>(rt, executor, officer, rt.stdin(), rt.stdout())
}

/// Prints which program serves a store or connections. The exit status is 2.
fn refuse(rt: &HostRuntime) -> ExitCode {
    let _ = eprintln!(rt;
        "error: this program serves a script without a store; ./mpw build builds the one that opens a store and serves connections"
    );
    ExitCode::from(2)
}

/// Exits with 0 after a script, 2 after help or at a usage fault, 3 if a device failed, and 5 if memory ran out. It prints a fault on the
/// standard error.
fn main(rt: HostRuntime) -> ExitCode {
    match command_line(&rt) {
        Ok(Settings::Script(asked)) => script(&rt, &rt, asked),
        Ok(Settings::Serve(_)) => refuse(&rt),
        Ok(Settings::Help(text)) => print_help(&rt, text.as_str()),
        Err(fault) => tell(&rt, &fault),
    }
}
