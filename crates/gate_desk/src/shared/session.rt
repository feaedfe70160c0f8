//! A session over a desk that is shared for it, without workers, with devices of which one may fail.
ghost use Rattle.std.specs.Prelude.{◌≡◌, ◌≤◌, None};
ghost use Rattle.mpw_desk.specs.Numbers.{AreBelow};
ghost use Rattle.mpw_events.specs.History.{kept_desk};

use crate::shared::account::{Trouble, push_request};
use crate::shared::history::event_lines;
use crate::shared::threads::{FIRST, check_first};
use gate_events::{Paper, Text};
use mpw_desk::{Blank, Room, Shared, serve_pass};
use mpw_events::{Call, Event, Handler, NoKeeper};
use mpw_serve::{End, Served};
use mpw_wire::WireFault;
use std::alloc::Global;
use std::marker::Brand;
use std::sync::Wait;

/// A source and a sink.
#[derive(Drop)]
pub struct Devices<'a> {
    /// What the session reads.
    pub reader: Text<'a>,
    /// What it writes.
    pub writer: Paper,
}

/// The result of a session.
#[derive(Drop)]
pub struct Session {
    /// What the sink took.
    pub text: Vec<u8>,
    /// How it ended, or the device that failed.
    pub ended: Result<End, WireFault>,
    /// Whether its end comes after all its requests.
    pub is_gone: bool,
    /// The lines of its requests in the history.
    pub asked: String,
    /// The number of its requests.
    pub requests: usize,
    /// A line for each event of the history.
    pub events: String,
}

/// Adds the lines of the requests of calls, and returns how many there are.
fn push_requests(alloc: Global, lines: &mut String, calls: &[Call]) -> Result<usize, Trouble> {
    let mut count = 0usize;
    for call in calls {
        if let Event::Ask { request, .. } = &call.event {
            push_request(alloc, lines, request.get())?;
            count = count.saturating_add(1);
        }
    }
    Ok(count)
}

/// Whether the last call is a connection's end.
fn is_last_gone(calls: &[Call]) -> bool {
    match calls.last() {
        Some(call) => matches!(&call.event, Event::Gone { .. }),
        None => false,
    }
}

/// The result of a session, by the calls of the history.
fn session_of(
    alloc: Global,
    calls: &[Call],
    served: Served,
    writer: Paper,
) -> Result<Session, Trouble> {
    let mut asked = String::new(alloc);
    let requests = push_requests(alloc, &mut asked, calls)?;
    let events = event_lines(alloc, calls)?;
    Ok(Session {
        text: writer.into_bytes(),
        ended: served.ended,
        is_gone: served.is_gone && is_last_gone(calls),
        asked,
        requests,
        events,
    })
}

/// Serves a source to a sink over a desk.
fn serve_named<H: Handler + Drop, N: Room, R: Wait>(
    rt: &R,
    alloc: Global,
    core: Box<H>,
    blank: Blank,
    devices: Devices<'_>,
) -> Result<Session, Trouble>
    requires begun { N.begun ≡ kept_desk (H.desk core.value) None 0 }
    requires name { blank.name ≡ N.name }
    requires parts { (blank.parts ≡ N.parts) × (N.all ≡ N.parts) × (1048577 ≤ N.all) }
    requires table { blank.table ≡ N.table }
    requires first { N.first ≡ 2 }
    requires above { AreBelow 2 (H.desk core.value).history }
{
    let Devices {
        mut reader,
        mut writer,
    } = devices;
    let shared: Shared<H, NoKeeper, N> = Shared::new(core, NoKeeper, blank, FIRST);
    let Some(pass) = shared.pass(rt) else {
        return Err(Trouble::Pass);
    };
    let (pass, served) = serve_pass(rt, alloc, &shared, pass, &mut reader, &mut writer);
    let mut passes = Vec::new(alloc);
    passes.push(pass)?;
    let Ok((core, _keeper)) = shared.finish(passes) else {
        return Err(Trouble::Calls);
    };
    session_of(alloc, core.calls(), served, writer)
}

/// Serves a source to a sink over a desk, which is shared for that under a name.
///
/// # Errors
/// The history has calls of others, or out of memory.
pub fn serve_session<H: Handler + Drop, R: Wait>(
    rt: &R,
    alloc: Global,
    core: Box<H>,
    devices: Devices<'_>,
) -> Result<Session, Trouble> {
    check_first(core.calls())?;
    let blank = Blank::new(alloc)?;
    serve_named::<H, Brand, R>(rt, alloc, core, blank, devices)
}
