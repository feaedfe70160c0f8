//! The events of a history that has one connection, as lines.

use crate::shared::account::{Trouble, push_request};
use mpw_events::{Call, Event};
use std::alloc::Global;

/// The connection of the first request of calls, or 0 if there is none.
fn first_asker(calls: &[Call]) -> u32 {
    for call in calls {
        if let Event::Ask { connection, .. } = &call.event {
            return *connection;
        }
    }
    0
}

/// Adds a line for an event of the connection: its request, or its end. A worker's call for a job has no line.
fn push_event(alloc: Global, lines: &mut String, event: &Event, asker: u32) -> Result<(), Trouble> {
    match event {
        Event::Ask {
            connection,
            request,
        } if *connection == asker => {
            lines.push_str("asks ")?;
            push_request(alloc, lines, request.get())
        }
        Event::Gone { connection } if *connection == asker => Ok(lines.push_str("ends\n")?),
        Event::Take { .. } => Ok(()),
        _ => Ok(lines.push_str("another event\n")?),
    }
}

/// A line for each event of calls except a worker's call for a job.
///
/// # Errors
/// `Trouble` if out of memory.
pub fn event_lines(alloc: Global, calls: &[Call]) -> Result<String, Trouble> {
    let asker = first_asker(calls);
    let mut lines = String::new(alloc);
    for call in calls {
        push_event(alloc, &mut lines, &call.event, asker)?;
    }
    Ok(lines)
}
