//! What command lines give.
//!
//! Each line of the standard input is repeated, with the settings that its words give below, or the first line of the fault that is reported of
//! them. The word `ROOT` stands for `--officer root --digest` and the SHA-256 of `abc`. A line that begins with `#`, and an empty one, says
//! nothing.
use anyhow::Result;
use mpw_settings::{Log, Officer, Service, Settings, SettingsFault, Store, read_settings};
use std::alloc::{AllocError, Global};
use std::io;

/// What the word `ROOT` stands for.
const ROOT: [&str; 4] = [
    "--officer",
    "root",
    "--digest",
    "ba7816bf8f01cfea414140de5dae2223b00361a396177a9cb410ff61f20015ad",
];

/// The words of a line.
fn words_of(alloc: Global, line: &str) -> Result<Vec<&str>, AllocError> {
    let mut words = Vec::new(alloc);
    for word in line.split_whitespace() {
        if word == "ROOT" {
            words.extend_from_slice(ROOT.as_slice())?;
        } else {
            words.extend_from_slice(&[word])?;
        }
    }
    Ok(words)
}

/// The first line of a text.
fn first_line(text: &str) -> &str {
    text.split_once('\n').unwrap_or((text, "")).0
}

/// Prints an officer on a line of its own.
fn print_officer(rt: &HostRuntime, officer: &Officer) -> Result<()> {
    let digest = hex::encode(rt.alloc(), officer.digest.as_slice())?;
    Ok(println!(rt; "    officer {}, digest {digest}", officer.name)?)
}

/// A flag's word after a comma, if the flag is set.
fn flag_word(is_set: bool, word: &str) -> &str {
    if is_set { word } else { "" }
}

/// Prints where changes are stored, on a line of its own, if they are, and the flags of the file.
fn print_store(rt: &HostRuntime, store: Option<&Store>) -> io::Result<()> {
    let Some(store) = store else {
        return Ok(());
    };
    println!(rt;
        "    store '{}'{}{}{}",
        store.path,
        flag_word(store.is_existing, ", existing"),
        flag_word(store.is_new, ", new"),
        flag_word(store.is_private, ", private")
    )
}

/// Prints the limits of strangers, on a line of their own, if there are any, and whether a run is held, on another one.
fn print_conduct(rt: &HostRuntime, service: &Service) -> io::Result<()> {
    if let Some(limits) = service.strangers {
        println!(rt;
            "    strangers: {} bytes, {} lines a second, {} s",
            limits.memory, limits.rate, limits.login
        )?;
    }
    if service.holds_run {
        println!(rt; "    an unfinished run is held")?;
    }
    Ok(())
}

/// Prints where the log goes.
fn print_log(rt: &HostRuntime, log: &Log) -> io::Result<()> {
    match log {
        Log::Nowhere => println!(rt; "    log nowhere"),
        Log::StandardError => println!(rt; "    log to the standard error"),
        Log::File(file) => println!(rt; "    log to the file {file}"),
    }
}

/// Prints a service, its log and its limits on a line each.
fn print_service(rt: &HostRuntime, service: &Service) -> io::Result<()> {
    let when = if service.is_ongoing {
        "at a time"
    } else {
        "in all"
    };
    println!(rt;
        "    serve {}: {} connections {when}, {} workers, {} s idle",
        service.listen, service.connections, service.workers, service.idle
    )?;
    print_log(rt, &service.log)?;
    print_conduct(rt, service)?;
    print_store(rt, service.store.as_ref())
}

/// Prints the settings.
fn print_settings(rt: &HostRuntime, settings: &Settings) -> Result<()> {
    match settings {
        Settings::Script(script) => {
            println!(rt; "    script")?;
            print_store(rt, script.store.as_ref())?;
            print_officer(rt, &script.officer)
        }
        Settings::Serve(service) => {
            print_service(rt, service)?;
            print_officer(rt, &service.officer)
        }
        Settings::Help(text) => Ok(println!(rt; "    help: {}", first_line(text.as_str()))?),
    }
}

/// Prints what a line's words give.
fn answer(rt: &HostRuntime, line: &str) -> Result<()> {
    let words = words_of(rt.alloc(), line)?;
    match read_settings(rt.alloc(), words.as_slice()) {
        Ok(settings) => print_settings(rt, &settings),
        Err(SettingsFault::Usage(text)) => {
            Ok(println!(rt; "    usage: {}", first_line(text.as_str()))?)
        }
        Err(SettingsFault::Memory) => Ok(println!(rt; "    memory")?),
    }
}

/// Answers the lines of its table.
pub(crate) fn run(rt: &HostRuntime, lines: &str) -> Result<()> {
    for line in lines.lines() {
        println!(rt; "{line}")?;
        if !line.is_empty() && !line.starts_with('#') {
            answer(rt, line)?;
        }
    }
    Ok(())
}
