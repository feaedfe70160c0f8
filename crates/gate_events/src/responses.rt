//! Prints calls of the desk and their responses.
ghost use Rattle.std.specs.Prelude.{◌≡◌, IfOk, map};
ghost use Rattle.gate_events.specs.Responses.{event_in, is_accepted, job_in};

use crate::replies::tell_reply;
use anyhow::Result;
use mpw_events::{Call, Event, Response};
use mpw_job::Job;
use mpw_replies::Reply;
use mpw_run::RunReply;
use std::alloc::{AllocError, Global};

/// The word of the run's reply.
fn run_word(reply: &RunReply) -> &'static str {
    match reply {
        RunReply::Taken(Job::Cut(_)) => "taken cut",
        RunReply::Taken(Job::Tile(_)) => "taken tile",
        RunReply::NoJob => "nojob",
        RunReply::Kept => "kept",
        RunReply::Finished => "finished",
        RunReply::Stranger => "stranger",
        RunReply::Double => "double",
        RunReply::OldRun => "oldrun",
    }
}

/// The word of a response.
fn word(response: &Response) -> &'static str {
    match response {
        Response::Told(Reply::Ok(_)) => "ok",
        Response::Told(Reply::Denied(_)) => "denied",
        Response::Told(Reply::Refused(_)) => "refused",
        Response::Run(reply) => run_word(reply.get()),
        Response::Gone => "gone",
        Response::Restarted => "restarted",
        Response::Ended => "ended",
    }
}

/// The run and the tile of a job that is handed out, or 0 and 0 if none is.
fn handed_out(response: &Response) -> (u32, u32) {
    match response {
        Response::Run(reply) => match reply.get() {
            RunReply::Taken(Job::Cut(job)) => (job.run, 0),
            RunReply::Taken(Job::Tile(job)) => (job.run(), job.tile()),
            _ => (0, 0),
        },
        _ => (0, 0),
    }
}

/// The number of the lines of a reply.
fn count(response: &Response) -> usize {
    match response {
        Response::Told(Reply::Ok(lines)) => lines.len(),
        _ => 0,
    }
}

/// Whether the responses have the same word, and as many lines or the same job's numbers.
fn is_alike(a: &Response, b: &Response) -> bool {
    word(a) == word(b) && count(a) == count(b) && handed_out(a) == handed_out(b)
}

/// How many calls have another response than those at their indexes: another word, more or fewer lines, or another job's numbers.
pub fn different(calls: &[Call], others: &[Call]) -> usize {
    let mut different = 0usize;
    for (a, b) in calls.iter().zip(others) {
        if !is_alike(&a.response, &b.response) {
            different = different.saturating_add(1);
        }
    }
    different
}

/// Whether the response is the reply to an accepted request.
pub fn is_accepted(response: &Response) -> bool
    ensures { result ≡ is_accepted response.now }
{
    match response {
        Response::Told(Reply::Ok(_)) => true,
        _ => false,
    }
}

/// Prints a job that is handed out.
fn tell_job(rt: &impl Print, job: &Job) -> Result<()> {
    match job {
        Job::Cut(job) => Ok(println!(rt; "    taken cut {}", job.run)?),
        Job::Tile(job) => Ok(println!(rt; "    taken tile {} {}", job.run(), job.tile())?),
    }
}

/// Prints a response, in lines that begin with four blanks.
///
/// # Errors
/// It can't be printed, or isn't one of those that are printed.
pub fn tell_response(rt: &impl Print, response: &Response) -> Result<()> {
    match response {
        Response::Told(reply) => tell_reply(rt, reply),
        Response::Run(reply) => match reply.get() {
            RunReply::Taken(job) => tell_job(rt, job),
            reply => Ok(println!(rt; "    {}", run_word(reply))?),
        },
        _ => Ok(println!(rt; "    {}", word(response))?),
    }
}

/// The events of calls, in order.
///
/// # Errors
/// Out of memory.
pub fn events_of(alloc: Global, calls: &[Call]) -> Result<Vec<Event>, AllocError>
    ensures { IfOk result (λ events. events.items ≡ map event_in calls.now) }
{
    let mut events = Vec::new(alloc);
    for call in calls {
        events.push(call.event.copy()?)?;
    }
    Ok(events)
}

/// A copy of the job that a response hands out, or none.
///
/// # Errors
/// Out of memory.
pub fn job_of(alloc: Global, response: &Response) -> Result<Option<Job>, AllocError>
    ensures { IfOk result (λ job. job ≡ job_in response.now) }
{
    match response {
        Response::Run(reply) => match reply.get() {
            RunReply::Taken(job) => Ok(Some(job.copy(alloc)?)),
            _ => Ok(None),
        },
        _ => Ok(None),
    }
}
