//! The replies that a connection got, its requests, and the step at which its script failed.

use gate_events::Paper;
use mpw_events::Response;
use mpw_reply_text::write_reply;
use mpw_requests::Request;
use mpw_store_text::stored_line;
use std::alloc::{AllocError, AllocFailed, Global};
use thiserror::Error;

/// Why a script was stopped.
#[derive(Clone, Copy, Debug, PartialEq, Eq, Error)]
pub enum Trouble {
    /// A line is no step.
    #[error("a line of a script is of no form")]
    Form,
    /// A flag was not set.
    #[error("a flag is not set")]
    Flag,
    /// The desk never gives the reply that the script waits for.
    #[error("the desk does not tell what is waited for")]
    Asked,
    /// The desk answers nothing any more.
    #[error("the desk answers nothing any more")]
    Ended,
    /// There was no pass.
    #[error("there is no pass")]
    Pass,
    /// The passes made another number of calls than the history has.
    #[error("some calls are nobody's")]
    Calls,
    /// Memory ran out.
    #[error("out of memory")]
    Memory,
}

impl From<AllocError> for Trouble {
    fn from(_error: AllocError) -> Trouble {
        Trouble::Memory
    }
}

impl<T: Drop> From<AllocFailed<T>> for Trouble {
    fn from(_error: AllocFailed<T>) -> Trouble {
        Trouble::Memory
    }
}

/// The result of a connection.
#[derive(Drop)]
pub struct Account {
    /// Its number.
    pub connection: u32,
    /// The replies that its script prints.
    pub told: String,
    /// The lines of its requests.
    pub asked: String,
    /// Why its script was stopped, if it was.
    pub trouble: Option<Trouble>,
}

impl Account {
    /// No replies, and no requests.
    pub fn new(alloc: Global, connection: u32) -> Account {
        Account {
            connection,
            told: String::new(alloc),
            asked: String::new(alloc),
            trouble: None,
        }
    }
}

/// Adds the line of a request.
///
/// # Errors
/// `Trouble` if out of memory.
pub fn push_request(alloc: Global, lines: &mut String, request: &Request) -> Result<(), Trouble> {
    let line = stored_line(alloc, request)?;
    lines.push_str(line.as_str())?;
    lines.push('\n')?;
    Ok(())
}

/// The text of the reply to a request.
///
/// # Errors
/// `Trouble` if nothing is answered any more, or out of memory.
pub fn reply_text(alloc: Global, response: &Response) -> Result<String, Trouble> {
    let Response::Told(reply) = response else {
        return Err(Trouble::Ended);
    };
    let mut paper = Paper::new(alloc, usize::MAX);
    if write_reply(reply, &mut paper).is_err() {
        return Err(Trouble::Memory);
    }
    match String::from_utf8(paper.into_bytes()) {
        Ok(text) => Ok(text),
        Err(_) => Err(Trouble::Form),
    }
}

/// Whether a line of a text begins with the front.
pub fn has_line(text: &str, front: &str) -> bool {
    for line in text.lines() {
        if line.starts_with(front) {
            return true;
        }
    }
    false
}
