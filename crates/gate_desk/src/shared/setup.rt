//! The desk before it is shared.

use crate::shared::threads::FIRST;
use anyhow::{Result, bail};
use gate_events::{digest, is_accepted, name, request};
use mpw_core::Core;
use mpw_events::{Event, Handler, NoKeeper};
use std::alloc::Global;
use std::fs;

/// Asks a request that must be accepted.
fn set_up(alloc: Global, core: &mut Core, line: &str) -> Result<()> {
    let (command, payload) = line.split_once('|').unwrap_or((line, ""));
    let words: Vec<&str> = command.split_whitespace().collect(alloc)?;
    let request = request(alloc, words.as_slice(), payload.trim())?;
    let connection = FIRST - 1;
    let response = core.handle(
        &mut NoKeeper,
        Event::Ask {
            connection,
            request,
        },
    )?;
    if !is_accepted(&response) {
        bail!("a line of a new desk");
    }
    Ok(())
}

/// A new desk that was asked the requests of a data file.
///
/// # Errors
/// The file can't be read, a line isn't accepted, or out of memory.
pub fn desk_of(rt: &HostRuntime, path: &str) -> Result<Box<Core>> {
    let text = fs::read_to_string(rt, path)?;
    let officer = name(rt.alloc(), "root")?;
    let mut core = Core::new_boxed(rt.alloc(), officer, digest("abc"))?;
    for line in text.lines() {
        set_up(rt.alloc(), &mut core, line)?;
    }
    Ok(core)
}
