//! The end of all sessions.

use crate::scripts::keeper::{Fails, MemoryKeeper};
use crate::scripts::limit::tell_whoami;
use crate::scripts::serving::new_desk;
use anyhow::Result;
use mpw_core::Core;
use mpw_events::{Event, Keeper, NoKeeper, Response};
use mpw_geom::Name;
use mpw_replies::Reply;
use mpw_requests::{PolicyRequest, Request, SharedRequest, digest_of};
use std::alloc::{AllocError, Global};

/// The word of a response.
fn response_word(response: &Response) -> &'static str {
    match response {
        Response::Told(Reply::Ok(_)) => "accepted",
        Response::Told(Reply::Denied(_)) => "denied",
        Response::Told(Reply::Refused(_)) => "refused",
        Response::Run(_) => "answered by the run",
        Response::Gone => "gone",
        Response::Restarted => "restarted",
        Response::Ended => "ended",
    }
}

/// The login of the officer.
fn login(alloc: Global) -> Result<SharedRequest, AllocError> {
    let Ok(user) = Name::read(alloc, b"root") else {
        return Err(AllocError);
    };
    let digest = digest_of(b"abc");
    SharedRequest::new(alloc, Request::Policy(PolicyRequest::Open { user, digest }))
}

/// The word of the answer to the officer's login on connection 1.
fn open<K: Keeper>(alloc: Global, core: &mut Core, keeper: &mut K) -> Result<&'static str> {
    let request = login(alloc)?;
    let response = core.handle(
        keeper,
        Event::Ask {
            connection: 1,
            request,
        },
    )?;
    Ok(response_word(&response))
}

/// The word of the answer to a restart.
fn restart(core: &mut Core) -> Result<&'static str> {
    let response = core.handle(&mut NoKeeper, Event::Restart)?;
    Ok(response_word(&response))
}

/// Prints the answer to a restart, and what a session gets after it.
pub fn tell_restart(rt: &HostRuntime, core: &mut Core) -> Result<()> {
    let word = restart(core)?;
    println!(rt; "  restart: {word}, {} calls", core.history().len())?;
    tell_whoami(rt, core)
}

/// A restart ends the officer's session.
fn restart_a_desk(rt: &HostRuntime, core: &mut Core) -> Result<()> {
    let word = open(rt.alloc(), core, &mut NoKeeper)?;
    println!(rt; "a session of the officer: {word}")?;
    tell_whoami(rt, core)?;
    tell_restart(rt, core)
}

/// A closed desk refuses a restart.
fn restart_a_closed_desk(rt: &HostRuntime, core: &mut Core) -> Result<()> {
    let mut keeper = MemoryKeeper {
        kept: Vec::new(rt.alloc()),
        fails: Fails::From(1),
        asked: 0,
        failures: 0,
    };
    let word = open(rt.alloc(), core, &mut keeper)?;
    println!(rt; "a login that could not be stored: {word}")?;
    tell_restart(rt, core)
}

/// Prints restarts.
pub fn restart_desks(rt: &HostRuntime) -> Result<()> {
    let mut core = new_desk(rt.alloc())?;
    restart_a_desk(rt, &mut core)?;
    let mut closed = new_desk(rt.alloc())?;
    restart_a_closed_desk(rt, &mut closed)
}
