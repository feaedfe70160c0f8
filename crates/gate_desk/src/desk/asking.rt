//! Requests to a desk, and the jobs done for it, tried once more if memory runs out the first time.

use anyhow::{Result, bail};
use gate_events::{Paper, Text, event_of, job_of, work};
use mpw_events::{Event, Response};
use mpw_job::Job;
use mpw_reply_text::write_reply;
use mpw_requests::SharedRequest;
use mpw_wire::{Asked, read_request};
use std::alloc::{AllocError, Global};

/// The next request of a text, or none after the last.
pub fn next_request(alloc: Global, text: &mut Text<'_>) -> Result<Option<SharedRequest>> {
    let at = text.at;
    let asked = match read_request(alloc, text) {
        Ok(asked) => asked,
        Err(_) => {
            text.at = at;
            read_request(alloc, text)?
        }
    };
    match asked {
        Asked::Request(request) => Ok(Some(request)),
        Asked::End => Ok(None),
        _ => bail!("a script of requests"),
    }
}

/// The text of the reply that a response is.
pub fn reply_text(alloc: Global, response: &Response) -> Result<Vec<u8>> {
    let Response::Told(reply) = response else {
        bail!("a reply");
    };
    for _ in 0..2 {
        let mut paper = Paper::new(alloc, usize::MAX);
        if write_reply(reply, &mut paper).is_ok() {
            return Ok(paper.into_bytes());
        }
    }
    bail!("memory for a reply")
}

/// The job that a response hands out, or none.
pub fn taken_job(alloc: Global, response: &Response) -> Result<Option<Job>, AllocError> {
    match job_of(alloc, response) {
        Ok(job) => Ok(job),
        Err(_) => job_of(alloc, response),
    }
}

/// Does a job, and makes the event that hands in its answer.
fn event_for(alloc: Global, job: &Job) -> Result<Event, AllocError> {
    event_of(&work(alloc, job)?)
}

/// The event that hands in the answer of a job.
pub fn job_event(alloc: Global, job: &Job) -> Result<Event, AllocError> {
    match event_for(alloc, job) {
        Ok(event) => Ok(event),
        Err(_) => event_for(alloc, job),
    }
}
