//! A desk, and the answers that are stored next to it.

use crate::desk::asking::{job_event, next_request, reply_text, taken_job};
use anyhow::{Result, bail};
use gate_events::{
    Kept, Text, Transcript, cut_job, different, digest, event_of, events_of, find, find_cut,
    find_tile, is_accepted, keep, name, request, tell_response, tile_job, work,
};
use mpw_core::{Core, MAX_EVENTS, replay};
use mpw_events::{Event, NoKeeper, Response};
use mpw_geom::Name;
use mpw_job::Job;
use mpw_requests::{Digest, Request, RunRequest, SharedRequest};
use std::alloc::{AllocError, Global};

/// The greatest number of jobs of a script's run, including the call that gets none.
const MOST_JOBS: usize = 100;

/// A desk, the digest of its officer, and the answers that are stored next to it.
#[derive(Drop)]
pub struct Table {
    core: Box<Core>,
    officer: Digest,
    kept: Vec<Kept>,
}

/// A desk in a box, so that dropping it is one step wherever it is held.
fn boxed(alloc: Global, core: Core) -> Result<Box<Core>, AllocError> {
    match Box::new(alloc, core) {
        Ok(core) => Ok(core),
        Err(_) => Err(AllocError),
    }
}

/// The desk that events give.
fn replayed(
    alloc: Global,
    officer: Name,
    digest: Digest,
    events: &[Event],
) -> Result<Box<Core>, AllocError> {
    boxed(alloc, replay(alloc, officer, digest, events)?)
}

/// A place for a response. It is a box, so that dropping it is one step wherever it is held.
fn new_place(alloc: Global) -> Result<Box<Response>, AllocError> {
    match Box::new(alloc, Response::Ended) {
        Ok(place) => Ok(place),
        Err(_) => Err(AllocError),
    }
}

/// Handles an event. The place for the response is made before.
fn handle_once(alloc: Global, core: &mut Core, event: &Event) -> Result<Box<Response>, AllocError> {
    let mut place = new_place(alloc)?;
    let event = event.copy()?;
    *place = core.handle(&mut NoKeeper, event)?;
    Ok(place)
}

/// Handles an event. If memory runs out, the history must be unchanged, and the event is handled once more.
fn handle(alloc: Global, core: &mut Core, event: &Event) -> Result<Box<Response>> {
    let calls = core.history().len();
    if let Ok(response) = handle_once(alloc, core, event) {
        return Ok(response);
    }
    if core.history().len() != calls {
        bail!("a history as it was");
    }
    Ok(handle_once(alloc, core, event)?)
}

/// Ends a connection `count` times.
fn end_times(core: &mut Core, connection: u32, count: usize) -> Result<(), AllocError> {
    for _ in 0..count {
        core.handle(&mut NoKeeper, Event::Gone { connection })?;
    }
    Ok(())
}

impl Table {
    /// A new desk whose officer's token has this digest, without stored answers.
    pub fn new(alloc: Global, officer: Digest) -> Result<Table> {
        let core = Core::new_boxed(alloc, name(alloc, "root")?, officer)?;
        Ok(Table {
            core,
            officer,
            kept: Vec::new(alloc),
        })
    }

    /// Begins with a new desk, which is asked the requests of a text.
    pub fn begin(&mut self, rt: &HostRuntime, text: &str) -> Result<()> {
        *self = Table::new(rt.alloc(), digest("abc"))?;
        let mut count = 0usize;
        for line in text.lines() {
            self.set_up(rt.alloc(), line)?;
            count = count.saturating_add(1);
        }
        Ok(println!(rt; "    {count} accepted")?)
    }

    /// Asks a request that must be accepted.
    fn set_up(&mut self, alloc: Global, line: &str) -> Result<()> {
        let (command, payload) = line.split_once('|').unwrap_or((line, ""));
        let words: Vec<&str> = command.split_whitespace().collect(alloc)?;
        let request = request(alloc, words.as_slice(), payload.trim())?;
        let response = handle(
            alloc,
            &mut self.core,
            &Event::Ask {
                connection: 1,
                request,
            },
        )?;
        if !is_accepted(&response) {
            bail!("a line of a new desk");
        }
        Ok(())
    }

    /// Handles an event, and prints the response.
    fn tell(&mut self, rt: &HostRuntime, event: Event) -> Result<()> {
        let response = handle(rt.alloc(), &mut self.core, &event)?;
        tell_response(rt, &response)
    }

    /// Asks a request of a connection, with its payload if it has one, and prints the reply.
    pub fn ask(
        &mut self,
        rt: &HostRuntime,
        connection: u32,
        words: &[&str],
        payload: &str,
    ) -> Result<()> {
        let request = request(rt.alloc(), words, payload)?;
        self.tell(
            rt,
            Event::Ask {
                connection,
                request,
            },
        )
    }

    /// Ends a connection, and prints the response.
    pub fn end(&mut self, rt: &HostRuntime, connection: u32) -> Result<()> {
        self.tell(rt, Event::Gone { connection })
    }

    /// Restarts the desk, and prints the response.
    pub fn restart(&mut self, rt: &HostRuntime) -> Result<()> {
        self.tell(rt, Event::Restart)
    }

    /// Does a job, and stores the answer.
    fn work(&mut self, alloc: Global, name_word: &str, job: &Job) -> Result<()> {
        let work = work(alloc, job)?;
        let name = name(alloc, name_word)?;
        keep(&mut self.kept, name, work)
    }

    /// Calls for a job, and does it.
    pub fn take(&mut self, rt: &HostRuntime, worker: u32, name: &str) -> Result<()> {
        let response = handle(rt.alloc(), &mut self.core, &Event::Take { worker })?;
        tell_response(rt, &response)?;
        let Some(job) = taken_job(rt.alloc(), &response)? else {
            return Ok(());
        };
        match self.work(rt.alloc(), name, &job) {
            Ok(()) => Ok(()),
            Err(_) => self.work(rt.alloc(), name, &job),
        }
    }

    /// Hands in a stored answer.
    pub fn hand(&mut self, rt: &HostRuntime, name: &str) -> Result<()> {
        let event = event_of(find(self.kept.as_slice(), name)?)?;
        self.tell(rt, event)
    }

    /// Does the job of a run that cuts what another answer cut.
    pub fn forge_cut(&mut self, rt: &HostRuntime, name: &str, run: u32, of: &str) -> Result<()> {
        let of = find_cut(self.kept.as_slice(), of)?;
        let job = cut_job(rt.alloc(), run, of.get())?;
        self.work(rt.alloc(), name, &job)
    }

    /// Does the job of a run and a tile of those numbers, with the core, the window and the rules of three answers.
    pub fn forge_tile(
        &mut self,
        rt: &HostRuntime,
        name: &str,
        numbers: (u32, u32),
        parts: [&str; 3],
    ) -> Result<()> {
        let kept = self.kept.as_slice();
        let core = find_tile(kept, parts[0])?;
        let window = find_tile(kept, parts[1])?;
        let rules = find_tile(kept, parts[2])?;
        let job = tile_job(
            numbers.0,
            numbers.1,
            core.get().job(),
            window.get().job(),
            rules.get().job(),
        )?;
        self.work(rt.alloc(), name, &job)
    }

    /// The number of calls in the history.
    pub fn calls(&self) -> usize {
        self.core.history().len()
    }

    /// Prints how many calls the history has.
    pub fn tell_calls(&self, rt: &HostRuntime) -> Result<()> {
        Ok(println!(rt; "    {} calls", self.calls())?)
    }

    /// Executes a run: calls for its jobs, does each, and hands in its answer, until there is none.
    fn work_off(&mut self, alloc: Global) -> Result<()> {
        for _ in 0..MOST_JOBS {
            let response = handle(alloc, &mut self.core, &Event::Take { worker: 1 })?;
            let Some(job) = taken_job(alloc, &response)? else {
                return Ok(());
            };
            let event = job_event(alloc, &job)?;
            handle(alloc, &mut self.core, &event)?;
        }
        bail!("a run of fewer tiles")
    }

    /// Asks a request on a connection, executes the run if one is accepted, and returns the text of the reply.
    fn reply_to(
        &mut self,
        alloc: Global,
        connection: u32,
        request: SharedRequest,
    ) -> Result<Vec<u8>> {
        let is_run = matches!(request.get(), Request::Run(RunRequest::Run));
        let response = handle(
            alloc,
            &mut self.core,
            &Event::Ask {
                connection,
                request,
            },
        )?;
        let text = reply_text(alloc, &response)?;
        if is_run && is_accepted(&response) {
            self.work_off(alloc)?;
        }
        Ok(text)
    }

    /// Asks the requests of a script on a connection, one by one. It returns whether each got the reply that the script has.
    pub fn serve(&mut self, rt: &HostRuntime, connection: u32, script: &Transcript) -> Result<()> {
        let mut reader = Text {
            bytes: script.input.as_slice(),
            at: 0,
            fails_at: usize::MAX,
            failures: 0,
        };
        let (mut told, mut count) = (0usize, 0usize);
        for _ in 0..script.input.len() {
            let Some(request) = next_request(rt.alloc(), &mut reader)? else {
                break;
            };
            let reply = self.reply_to(rt.alloc(), connection, request)?;
            count = count.saturating_add(1);
            let wanted = &script.replies[told.min(script.replies.len())..];
            if !wanted.starts_with(reply.as_slice()) {
                return Ok(println!(rt; "    ANOTHER reply to request {count}")?);
            }
            told = told.saturating_add(reply.len());
        }
        Ok(println!(rt; "    {count} requests, answered as written")?)
    }

    /// Goes on with the desk that the events of the history give.
    pub fn replay(&mut self, rt: &HostRuntime) -> Result<()> {
        let events = events_of(rt.alloc(), self.core.history())?;
        let officer = name(rt.alloc(), "root")?;
        let core = replayed(rt.alloc(), officer, self.officer, events.as_slice())?;
        let different = different(self.core.history(), core.history());
        let count = core.history().len();
        self.core = core;
        Ok(println!(rt; "    {count} calls, {different} answered otherwise")?)
    }

    /// Ends a connection until the history has room for that many calls.
    pub fn fill(&mut self, connection: u32, room: u32) -> Result<()> {
        let count = MAX_EVENTS
            .saturating_sub(room as usize)
            .saturating_sub(self.core.history().len());
        Ok(end_times(&mut self.core, connection, count)?)
    }
}
