//! What workers know of the desk apart from the model: whether there may be a job to take. By the lock's invariant they don't rest while
//! there is one: the hints are updated after each event, in the section that handles it. A needless wake-up costs a call.
ghost use Rattle.std.specs.Prelude.{◌≡◌, true, false, Some};
ghost use Rattle.mpw_desk.specs.Hints.{asked_by, asked_of, is_accepted, is_no_job, may_take, noted, with_work, without, woken_by, woken_by_job};

use mpw_events::{Event, Response};
use mpw_replies::Reply;
use mpw_requests::{Request, RunRequest};
use mpw_run::RunReply;

/// Which waiting workers an answered event concerns.
#[derive(Clone, Copy, PartialEq, Eq)]
pub(crate) enum Waking {
    Nobody,
    OneWorker,
    AllWorkers,
}

/// Whether workers are to end, and whether there may be a job.
#[derive(Clone, Copy)]
pub(crate) struct Hints {
    /// Workers are to end, and wait no more.
    pub(crate) is_stopped: bool,
    has_work: bool,
    /// The number of the run that a worker is cutting, so that no other worker cuts it meanwhile.
    cutting: Option<u32>,
}

/// What an event asks of the run.
#[derive(Clone, Copy, PartialEq, Eq)]
pub(crate) enum Asked {
    Run,
    Cancel,
    Take,
    Else,
}

impl Asked {
    /// What the request asks of the run.
    pub(crate) fn of(request: &Request) -> Asked
        ensures { result ≡ asked_of request.now }
    {
        match request {
            Request::Run(RunRequest::Run) => Asked::Run,
            Request::Run(RunRequest::Cancel) => Asked::Cancel,
            _ => Asked::Else,
        }
    }

    /// What the event asks of the run.
    pub(crate) fn by(event: &Event) -> Asked
        ensures { result ≡ asked_by event.now }
    {
        match event {
            Event::Ask { request, .. } => Asked::of(request.get()),
            Event::Take { .. } => Asked::Take,
            _ => Asked::Else,
        }
    }
}

/// Whether a request was accepted.
fn is_accepted(response: &Response) -> bool
    ensures { result ≡ is_accepted response.now }
{
    matches!(response, Response::Told(Reply::Ok(_)))
}

/// Whether the answer to a call for a job is that there is none.
fn is_no_job(response: &Response) -> bool
    ensures { result ≡ is_no_job response.now }
{
    match response {
        Response::Run(reply) => matches!(reply.get(), RunReply::NoJob),
        _ => false,
    }
}

impl Hints {
    /// The hints of a desk of which nothing is known: there may be a run.
    pub(crate) fn new() -> Hints
        ensures stopped { result.is_stopped ≡ false }
        ensures work { result.has_work ≡ true }
    {
        Hints {
            is_stopped: false,
            has_work: true,
            cutting: None,
        }
    }

    /// Whether a worker may find a job to take.
    pub(crate) fn may_take(self) -> bool
        ensures { result ≡ may_take self }
    {
        self.has_work && self.cutting.is_none()
    }

    /// The hints with or without work, and with no worker that is cutting.
    fn with_work(self, has_work: bool) -> Hints
        ensures { result ≡ with_work has_work self }
    {
        Hints {
            is_stopped: self.is_stopped,
            has_work,
            cutting: None,
        }
    }

    /// The hints after an event with that request and that response: an accepted run has work, and a cancelled one has none.
    pub(crate) fn noted(self, asked: Asked, response: &Response) -> Hints
        ensures { result ≡ noted asked response.now self }
    {
        match asked {
            Asked::Run if is_accepted(response) => self.with_work(true),
            Asked::Cancel if is_accepted(response) => self.with_work(false),
            Asked::Take if is_no_job(response) => Hints {
                is_stopped: self.is_stopped,
                has_work: false,
                cutting: self.cutting,
            },
            _ => self,
        }
    }

    /// The hints while a worker is cutting the run of that number.
    pub(crate) fn while_cut(self, run: u32) -> Hints
        ensures stopped { result.is_stopped ≡ self.is_stopped }
        ensures work { result.has_work ≡ self.has_work }
        ensures cutting { result.cutting ≡ Some run }
    {
        Hints {
            is_stopped: self.is_stopped,
            has_work: self.has_work,
            cutting: Some(run),
        }
    }

    /// The hints after a worker handed in the windows of the run of that number, or gave up.
    pub(crate) fn after_cut(self, run: u32) -> Hints
        ensures stopped { result.is_stopped ≡ self.is_stopped }
        ensures work { result.has_work ≡ self.has_work }
        ensures cutting { result.cutting ≡ without run self.cutting }
    {
        Hints {
            is_stopped: self.is_stopped,
            has_work: self.has_work,
            cutting: without(run, self.cutting),
        }
    }
}

/// The run that is being cut, unless it is that one.
fn without(run: u32, cutting: Option<u32>) -> Option<u32>
    ensures { result ≡ without run cutting }
{
    match cutting {
        Some(other) if other != run => cutting,
        _ => None,
    }
}

impl Waking {
    /// Which workers to wake after a request: one, to cut an accepted run; all, to leave a cancelled one.
    pub(crate) fn after_request(asked: Asked, response: &Response) -> Waking
        ensures { result ≡ woken_by asked (is_accepted response.now) }
    {
        match asked {
            Asked::Run if is_accepted(response) => Waking::OneWorker,
            Asked::Cancel if is_accepted(response) => Waking::AllWorkers,
            _ => Waking::Nobody,
        }
    }

    /// Which workers to wake after the result of a job: all, if it was a cut, whose windows give tiles, or if the run is finished.
    pub(crate) fn after_job(is_cut: bool, response: &Response) -> Waking
        ensures { result ≡ woken_by_job is_cut response.now }
    {
        match response {
            Response::Run(reply) if is_cut || matches!(reply.get(), RunReply::Finished) => {
                Waking::AllWorkers
            }
            _ => Waking::Nobody,
        }
    }
}
