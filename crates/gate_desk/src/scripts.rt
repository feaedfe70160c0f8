//! Serves stored scripts over new desks, and prints whether each gets the replies that it has.
//!
//! A line of the standard input names a script of the folder of data, with what the devices do:
//! - `NAME`: they don't fail;
//! - `NAME source N`, `NAME sink N`: the source fails before byte N, the sink after N bytes;
//! - `NAME source each`, `NAME sink each`: the same at each byte in turn;
//! - `NAME keeper N`: the store writer fails from its Nth call on, and the script has the replies to that;
//! - `NAME once N`: the same, but it fails at its Nth call alone;
//! - `NAME keeper each`: the same at each call in turn; the script has the replies if all is stored.
mod changes;
mod devices;
mod digests;
mod keeper;
mod limit;
mod restart;
mod serving;

use crate::replies::whole_replies;
use anyhow::Result;
use changes::kept_after;
use devices::tell_flushes;
use digests::tell_digests;
use gate_events::{Transcript, read_transcript};
use keeper::Fails;
use limit::fill_a_history;
use restart::restart_desks;
use serving::{Devices, Served, gone_words, is_closed, is_front, pending_words, serve};
use std::fs;
use std::thread::Threads;

/// A line of the standard input.
#[derive(Clone, Copy)]
struct Case<'a> {
    name: &'a str,
    device: &'a str,
    place: &'a str,
}

/// The words of a line of the standard input.
fn read_case(line: &str) -> Case {
    let mut words = line.split_whitespace();
    Case {
        name: words.next().unwrap_or(""),
        device: words.next().unwrap_or(""),
        place: words.next().unwrap_or(""),
    }
}

/// The devices, one of which fails at a place.
fn failing(device: &str, place: usize) -> Devices {
    let mut devices = Devices {
        source: usize::MAX,
        sink: usize::MAX,
        keeper: Fails::Never,
    };
    if device == "source" {
        devices.source = place;
    } else if device == "sink" {
        devices.sink = place;
    } else if device == "keeper" {
        devices.keeper = Fails::From(place);
    } else if device == "once" {
        devices.keeper = Fails::At(place);
    }
    devices
}

/// The first difference of two texts: the number of the line, counted from 1.
fn first_difference(told: &[u8], wanted: &[u8]) -> usize {
    let mut line = 1usize;
    for (a, b) in told.iter().zip(wanted) {
        if a != b {
            break;
        }
        if *a == b'\n' {
            line = line.saturating_add(1);
        }
    }
    line
}

/// Prints the result of a script that has its replies.
fn tell(
    rt: &HostRuntime,
    threads: &(impl Threads + Sync),
    case: &Case,
    script: &Transcript,
    devices: &Devices,
) -> Result<()> {
    let served = serve(threads, rt.alloc(), script.input.as_slice(), devices)?;
    if served.text.as_slice() == script.replies.as_slice() {
        println!(rt;
            "{}: answered as written, {}; {}, {}; {} calls, {} changes",
            case.name,
            pending_words(&served),
            served.end,
            gone_words(&served),
            served.calls,
            served.kept
        )?;
    } else {
        let line = first_difference(served.text.as_slice(), script.replies.as_slice());
        println!(rt; "{}: ANOTHER reply at line {line}", case.name)?;
    }
    Ok(())
}

/// How often a script ends with a closed desk, if its store writer fails at each of some calls in turn.
fn closed_times(
    rt: &HostRuntime,
    threads: &(impl Threads + Sync),
    script: &Transcript,
    calls: usize,
) -> Result<usize> {
    let mut closed = 0usize;
    for call in 1..=calls {
        let served = serve(
            threads,
            rt.alloc(),
            script.input.as_slice(),
            &failing("keeper", call),
        )?;
        if served.kept == call - 1 && is_closed(&served, script) {
            closed = closed.saturating_add(1);
        }
    }
    Ok(closed)
}

/// Prints the result of a script whose store writer fails at each call in turn.
fn tell_closed(
    rt: &HostRuntime,
    threads: &(impl Threads + Sync),
    case: &Case,
    script: &Transcript,
) -> Result<()> {
    let served = serve(
        threads,
        rt.alloc(),
        script.input.as_slice(),
        &failing("", 0),
    )?;
    let closed = closed_times(rt, threads, script, served.kept)?;
    println!(rt;
        "{}, the keeper fails at each of {} calls: {closed} times closed from there on",
        case.name, served.kept
    )?;
    Ok(())
}

/// Prints the result of a script with a device that fails at one place.
fn tell_failing(
    rt: &HostRuntime,
    threads: &(impl Threads + Sync),
    case: &Case,
    script: &Transcript,
    place: usize,
) -> Result<()> {
    let served = serve(
        threads,
        rt.alloc(),
        script.input.as_slice(),
        &failing(case.device, place),
    )?;
    let front = if is_front(&served, script) {
        "a front"
    } else {
        "NO front"
    };
    println!(rt;
        "{}, the {} fails at {place}: {} bytes, {front} of the replies; {}, {}; {} calls",
        case.name,
        case.device,
        served.text.len(),
        served.end,
        gone_words(&served),
        served.calls
    )?;
    Ok(())
}

/// Whether the replies end in a front of those that the script has, the fault is returned, the desk was handed the end, and all that was
/// accepted stays: of the requests that the front answers, and of the one whose reply could not be written.
fn is_told(served: &Served, script: &Transcript, device: &str) -> bool {
    let is_source = device == "source";
    let fault = if is_source { "Read" } else { "Write" };
    let unwritten = if is_source { 0usize } else { 1usize };
    let answered = whole_replies(served.text.as_slice()).saturating_add(unwritten);
    served.end == fault
        && served.is_gone
        && is_front(served, script)
        && served.kept == kept_after(script, answered)
}

/// Prints the result of a script with a device that fails at each byte in turn.
fn tell_each(
    rt: &HostRuntime,
    threads: &(impl Threads + Sync),
    case: &Case,
    script: &Transcript,
) -> Result<()> {
    let places = if case.device == "source" {
        script.input.len()
    } else {
        script.replies.len()
    };
    let mut told = 0usize;
    for place in 0..places {
        let served = serve(
            threads,
            rt.alloc(),
            script.input.as_slice(),
            &failing(case.device, place),
        )?;
        if is_told(&served, script, case.device) {
            told = told.saturating_add(1);
        }
    }
    println!(rt;
        "{}, the {} fails at each of {places} bytes: {told} times a front of the replies, the fault, and the end handed in",
        case.name, case.device
    )?;
    Ok(())
}

/// Reads a script of the folder of data.
fn script(rt: &HostRuntime, name: &str) -> Result<Transcript> {
    let path = format!(in rt.alloc(); "{name}.txt")?;
    let text = fs::read_to_string(rt, path.as_str())?;
    Ok(read_transcript(rt.alloc(), text.as_str())?)
}

/// Serves one line of the standard input.
fn run_case(rt: &HostRuntime, threads: &(impl Threads + Sync), line: &str) -> Result<()> {
    let case = read_case(line);
    let script = script(rt, case.name)?;
    match (case.device, case.place.parse::<usize>()) {
        ("", _) => tell(rt, threads, &case, &script, &failing("", 0)),
        ("keeper", Ok(place)) => tell(rt, threads, &case, &script, &failing("keeper", place)),
        ("once", Ok(place)) => tell(rt, threads, &case, &script, &failing("once", place)),
        ("keeper", Err(_)) => tell_closed(rt, threads, &case, &script),
        (_, Ok(place)) => tell_failing(rt, threads, &case, &script, place),
        (_, Err(_)) => tell_each(rt, threads, &case, &script),
    }
}

/// Answers the lines of its table.
pub(crate) fn run(
    rt: &HostRuntime,
    threads: &(impl Threads + Sync),
    lines: &[String],
) -> Result<()> {
    for line in lines {
        if !line.is_empty() {
            run_case(rt, threads, line.as_str())?;
        }
    }
    tell_flushes(rt)?;
    tell_digests(rt)?;
    fill_a_history(rt)?;
    restart_desks(rt)
}
