//! Prints a session whose devices may fail at a place.

use crate::replies::whole_replies;
use crate::shared::session::{Devices, Session, serve_session};
use anyhow::{Result, bail};
use gate_events::{Paper, Text, Transcript, name};
use gate_words::number;
use mpw_core::Core;
use mpw_events::Handler;
use mpw_requests::digest_of;
use mpw_serve::End;
use mpw_wire::WireFault;
use std::alloc::Global;
use std::sync::Wait;

/// A device that fails, and the place.
#[derive(Clone, Copy)]
pub enum Fault {
    /// None fails.
    Never,
    /// The source, at that byte of the input, from 0.
    Source(usize),
    /// The sink, after it took that many bytes.
    Sink(usize),
}

/// Serves a script over a new desk, with a device that fails.
fn serve(rt: &impl Wait, alloc: Global, script: &Transcript, fault: Fault) -> Result<Session> {
    let core = Core::new_boxed(alloc, name(alloc, "root")?, digest_of(b"abc"))?;
    let (fails_at, room) = match fault {
        Fault::Never => (usize::MAX, usize::MAX),
        Fault::Source(place) => (place, usize::MAX),
        Fault::Sink(place) => (usize::MAX, place),
    };
    let reader = Text {
        bytes: script.input.as_slice(),
        at: 0,
        fails_at,
        failures: 0,
    };
    let writer = Paper::new(alloc, room);
    Ok(serve_session(rt, alloc, core, Devices { reader, writer })?)
}

/// Whether a session ended at a fault: the written text is a front of the replies, and the history has a front of the requests, with the
/// one whose reply could not be written as the last, and the end after them.
fn is_cut(session: &Session, whole: &Session, fault: Fault) -> bool {
    let text = session.text.as_slice();
    let (ended, last) = match fault {
        Fault::Source(_) => (Err(WireFault::Read), 0),
        Fault::Sink(_) => (Err(WireFault::Write), 1),
        Fault::Never => (Ok(End::Closed), 0),
    };
    let requests = whole_replies(text).saturating_add(last);
    whole.text.as_slice().starts_with(text)
        && whole.asked.as_str().starts_with(session.asked.as_str())
        && session.requests == requests
        && session.ended == ended
        && session.is_gone
}

/// Prints the result of a session whose devices don't fail.
fn tell_whole(rt: &HostRuntime, script: &Transcript, whole: &Session) -> Result<()> {
    let is_written = whole.text.as_slice() == script.replies.as_slice();
    if is_written && is_cut(whole, whole, Fault::Never) {
        println!(rt;
            "  answered as written, {} requests and the end",
            whole.requests
        )?;
    } else {
        println!(rt; "  answered OTHERWISE")?;
    }
    Ok(())
}

/// Prints the result of a session with a device that fails at a place.
fn tell_cut(rt: &HostRuntime, session: &Session, whole: &Session, fault: Fault) -> Result<()> {
    let cut = if is_cut(session, whole, fault) {
        "a front"
    } else {
        "NO front"
    };
    println!(rt;
        "  {} bytes, {} requests: {cut}",
        session.text.len(),
        session.requests
    )?;
    Ok(())
}

/// Prints each event of a session's history.
fn tell_events(rt: &HostRuntime, session: &Session) -> Result<()> {
    for line in session.events.lines() {
        println!(rt; "  {line}")?;
    }
    Ok(())
}

/// The fault of a device at a place.
fn fault_at(device: &str, place: usize) -> Result<Fault> {
    match device {
        "source" => Ok(Fault::Source(place)),
        "sink" => Ok(Fault::Sink(place)),
        _ => bail!("a device"),
    }
}

/// Prints the result of a session with a device that fails at each place in turn.
fn tell_each(
    rt: &HostRuntime,
    waits: &impl Wait,
    script: &Transcript,
    whole: &Session,
    device: &str,
) -> Result<()> {
    let places = match device {
        "source" => script.input.len(),
        _ => script.replies.len(),
    };
    let mut count = 0usize;
    for place in 0..places {
        let fault = fault_at(device, place)?;
        let session = serve(waits, rt.alloc(), script, fault)?;
        if is_cut(&session, whole, fault) {
            count = count.saturating_add(1);
        }
    }
    Ok(println!(rt; "  {places} places: {count} times a front")?)
}

/// Prints the result of a script over a desk that is shared for it: whole, by its events, or with a device that fails at a place or at each in turn.
///
/// # Errors
/// The words are none of these, it can't be printed, or out of memory.
pub fn tell_session(
    rt: &HostRuntime,
    waits: &impl Wait,
    script: &Transcript,
    words: &[&str],
) -> Result<()> {
    let whole = serve(waits, rt.alloc(), script, Fault::Never)?;
    match words {
        [] => tell_whole(rt, script, &whole),
        ["events"] => tell_events(rt, &whole),
        [device, "each"] => tell_each(rt, waits, script, &whole, device),
        [device, place, more @ ..] => {
            let fault = fault_at(device, number(place)? as usize)?;
            let session = serve(waits, rt.alloc(), script, fault)?;
            tell_cut(rt, &session, &whole, fault)?;
            match more {
                [] => Ok(()),
                _ => tell_events(rt, &session),
            }
        }
        _ => bail!("a device and a place"),
    }
}
