//! The end of a history.

use crate::scripts::restart::tell_restart;
use crate::scripts::serving::new_desk;
use anyhow::Result;
use gate_events::Paper;
use mpw_core::{Core, MAX_EVENTS};
use mpw_events::{Event, NoKeeper, Response};
use mpw_reply_text::write_reply;
use mpw_requests::{Request, SharedRequest};
use std::alloc::{AllocError, Global};

/// Ends a connection `count` times.
fn end_connections(core: &mut Core, count: usize) -> Result<(), AllocError> {
    for _ in 0..count {
        core.handle(&mut NoKeeper, Event::Gone { connection: 2 })?;
    }
    Ok(())
}

/// The text of the reply to `whoami`.
fn whoami(alloc: Global, core: &mut Core) -> Result<Vec<u8>, AllocError> {
    let request = SharedRequest::new(alloc, Request::Whoami)?;
    let response = core.handle(
        &mut NoKeeper,
        Event::Ask {
            connection: 1,
            request,
        },
    )?;
    let mut paper = Paper {
        bytes: Vec::new(alloc),
        room: usize::MAX,
        failures: 0,
        is_pending: false,
    };
    if let Response::Told(reply) = &response {
        let _ = write_reply(reply, &mut paper);
    }
    Ok(paper.bytes)
}

/// Prints the reply to `whoami`.
pub fn tell_whoami(rt: &HostRuntime, core: &mut Core) -> Result<()> {
    let text = String::from_utf8(whoami(rt.alloc(), core)?)?;
    println!(rt; "  whoami: {}, {} calls", text.trim(), core.history().len())?;
    Ok(())
}

/// Fills a history up to its last call but one, and prints the answers to the next two requests, and to a restart after them.
fn fill(rt: &HostRuntime, core: &mut Core) -> Result<()> {
    end_connections(core, MAX_EVENTS - 1)?;
    println!(rt; "a history of {} calls", core.history().len())?;
    tell_whoami(rt, core)?;
    tell_whoami(rt, core)?;
    tell_restart(rt, core)
}

/// Prints the end of a history.
pub fn fill_a_history(rt: &HostRuntime) -> Result<()> {
    let mut core = new_desk(rt.alloc())?;
    fill(rt, &mut core)
}
