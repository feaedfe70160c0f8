//! A worker: it takes a job under the lock, does it outside, hands in its result, and waits if there is nothing to take.
//!
//! An idle worker makes no call, since each call counts against the history's limit. Hints apart from the model say whether there may be a
//! job. For the same reason it tries a job that ran out of memory again only after a pause.
ghost use Rattle.std.specs.Prelude.{◌≡◌, ◌<◌, ◌≤◌, ℕ, false, IfOk, OnErr};
ghost use Rattle.mpw_desk.specs.Internal.Working.{AnyMayHandIn, EndsAs, EndsRightly, after, instruction_by, instruction_of, next_of, run_cut};
ghost use Rattle.mpw_desk.specs.Passes.{IsLast, Works, no_job};
ghost use Rattle.mpw_events.specs.declared.event.Response.TheVariants as response;

use crate::hints::Waking;
use crate::locked::{Locked, event_in};
use crate::pass::Pass;
use crate::room::Room;
use crate::shared::Shared;
use mpw_events::{Event, Handler, Keeper, Response, SharedCut, SharedTile};
use mpw_job::{Answer, Gate, Job};
use mpw_run::RunReply;
use mpw_work::do_job;
use std::alloc::{AllocError, Global};
use std::sync::Wait;
use std::thread;
use std::time::{Clock, Duration};

/// How long a worker pauses if it runs out of memory, in seconds.
const PAUSE: u64 = 1;

/// What a worker does next.
#[derive(Drop)]
pub(crate) enum Next {
    /// It does the job that it got.
    Do(Response),
    /// It ends with this response.
    End(Response),
    /// It tries again later, since memory ran out.
    Pause,
    /// It waits until it is woken.
    Rest,
}

/// What a response to a call for a job means to a worker.
#[derive(Clone, Copy)]
pub(crate) enum Instruction {
    Cut(u32),
    Tile,
    NoJob,
    Ended,
    Else,
}

/// What a reply of the run means to a worker.
fn instruction_by(reply: &RunReply) -> Instruction
    ensures { result ≡ instruction_by reply.now }
{
    match reply {
        RunReply::Taken(Job::Cut(job)) => Instruction::Cut(job.run),
        RunReply::Taken(Job::Tile(_)) => Instruction::Tile,
        RunReply::NoJob => Instruction::NoJob,
        _ => Instruction::Else,
    }
}

/// What the response means to a worker.
fn instruction_of(response: &Response) -> Instruction
    ensures { result ≡ instruction_of response.now }
{
    match response {
        Response::Run(reply) => instruction_by(reply.get()),
        Response::Ended => Instruction::Ended,
        _ => Instruction::Else,
    }
}

/// What a worker does next after this response. `is_stopped` says whether workers are to end.
fn next_of(is_stopped: bool, response: Response) -> Next
    ensures next { result ≡ next_of is_stopped response (instruction_of response) }
    ensures ends { EndsAs result response }
{
    match instruction_of(&response) {
        Instruction::Cut(_) | Instruction::Tile => Next::Do(response),
        Instruction::NoJob if is_stopped => Next::End(response),
        Instruction::NoJob => Next::Rest,
        Instruction::Ended => Next::End(response),
        Instruction::Else => Next::Rest,
    }
}

/// What a worker does after a turn.
#[derive(Clone, Copy, PartialEq, Eq)]
pub(crate) enum Pace {
    /// It goes on at once.
    GoesOn,
    /// It pauses, and then calls for a job whatever the hints say.
    Pauses,
}

/// A worker pauses exactly if memory ran out: each try is a call, and a desk answers a limited number.
fn after(had_memory: bool) -> Pace
    ensures { result ≡ after had_memory }
{
    if had_memory {
        Pace::GoesOn
    } else {
        Pace::Pauses
    }
}

/// The job of a response, if it has one.
fn job_in(response: &Response) -> Option<&Job> {
    match response {
        Response::Run(reply) => match reply.get() {
            RunReply::Taken(job) => Some(job),
            _ => None,
        },
        _ => None,
    }
}

/// Calls for a job under the lock.
fn take<H: Handler + Drop, K: Keeper + Drop, N: Room>(
    locked: &mut Locked<H, K, N>,
    pass: &mut Pass<N>,
) -> Next
    ensures works { Works pass.old pass.new }
    ensures last { EndsRightly result pass.old pass.new }
{
    let worker = pass.connection;
    match event_in(locked, pass, Event::Take { worker }) {
        Ok(response) => {
            if let Instruction::Cut(run) = instruction_of(&response) {
                locked.note_cutting(run);
            }
            next_of(locked.is_stopped(), response)
        }
        Err(_) => Next::Pause,
    }
}

/// Does a job. It returns the event that hands in the result.
///
/// # Errors
/// Out of memory.
fn outcome_of(alloc: Global, job: &Job) -> Result<Event, AllocError>
    ensures { IfOk result AnyMayHandIn }
{
    match do_job(alloc, job)? {
        Answer::Cut(answer) => Ok(Event::Cut(SharedCut::new(alloc, answer)?)),
        Answer::Tile(answer) => Ok(Event::Tile(SharedTile::new(alloc, answer)?)),
    }
}

/// The run that the job cuts, if it is a cut.
fn run_cut(job: &Job) -> Option<u32>
    ensures { result ≡ run_cut job.now }
{
    match job {
        Job::Cut(job) => Some(job.run),
        Job::Tile(_) => None,
    }
}

impl<H: Handler + Drop, K: Keeper + Drop, N: Room> Shared<H, K, N> {
    /// The next job, or the worker's end. It waits if there is nothing to take. An eager worker calls for a job whatever the hints say.
    fn next_job<R: Wait>(&self, rt: &R, pass: &mut Pass<N>, is_eager: bool) -> Next
        ensures works { Works pass.old pass.new }
        ensures last { EndsRightly result pass.old pass.new }
    {
        let mut is_eager = is_eager;
        let mut place = Some(self.turns.first_in_line(rt));
        let mut guard = self.lock(rt);
        for _ in rt.forever() {
            if is_eager || guard.is_stopped() || guard.may_take() {
                is_eager = false;
                match take(&mut *guard, pass) {
                    Next::Rest => {}
                    next => return next,
                }
            }
            drop(place.take());
            guard = self.moved.wait(rt, guard);
        }
        unreachable!()
    }

    /// Hands in the result of a job. It returns whether there was memory for it.
    fn hand_in<R: Wait>(&self, rt: &R, pass: &mut Pass<N>, cut: Option<u32>, event: Event) -> bool
        requires { AnyMayHandIn event }
        ensures works { Works pass.old pass.new }
        ensures starved { result ≡ false → pass.new ≡ pass.old }
    {
        let place = self.turns.first_in_line(rt);
        let mut guard = self.lock(rt);
        let answered = event_in(&mut *guard, pass, event);
        if let Some(run) = cut {
            guard.note_cut(run);
        }
        drop(guard);
        drop(place);
        match answered {
            Ok(response) => {
                self.wake(Waking::after_job(cut.is_some(), &response));
                true
            }
            Err(_) => false,
        }
    }

    /// Does a job outside the lock and hands in the result. It returns whether there was memory for it.
    fn work_off<R: Wait, G: Gate>(
        &self,
        rt: &R,
        alloc: Global,
        pass: &mut Pass<N>,
        gate: &G,
        response: &Response,
    ) -> bool
        ensures works { Works pass.old pass.new }
        ensures starved { result ≡ false → pass.new ≡ pass.old }
    {
        let Some(job) = job_in(response) else {
            return true;
        };
        if let Job::Tile(tile) = job {
            gate.pass(tile.run(), tile.tile());
        }
        let cut = run_cut(job);
        match outcome_of(alloc, job) {
            Ok(event) => self.hand_in(rt, pass, cut, event),
            Err(_) => {
                if let Some(run) = cut {
                    self.lock(rt).note_cut(run);
                }
                false
            }
        }
    }

    /// Does jobs until the desk answers nothing any more, or was stopped and has no job. It returns that last response. The pass counts its
    /// calls, and its receipts are unchanged. Each job is done outside the lock. A tile's job first passes the gate.
    pub fn worker<R: Wait + Clock, G: Gate>(
        &self,
        rt: &R,
        alloc: Global,
        pass: &mut Pass<N>,
        gate: &G,
    ) -> Response
        ensures receipts { pass.new.receipts ≡ pass.old.receipts }
        ensures connection { pass.new.connection ≡ pass.old.connection }
        ensures last { IsLast result }
        ensures grows { pass.old.count ≤ pass.new.count }
        ensures count { result ≡ no_job → pass.old.count < pass.new.count }
    {
        let mut is_eager = true;
        for _ in rt.forever() {
            let had_memory = match self.next_job(rt, pass, is_eager) {
                Next::Do(response) => self.work_off(rt, alloc, pass, gate, &response),
                Next::End(response) => return response,
                Next::Pause => false,
                Next::Rest => true,
            };
            let turn = after(had_memory);
            is_eager = turn == Pace::Pauses;
            if turn == Pace::Pauses {
                thread::sleep(rt, Duration::from_secs(PAUSE));
            }
        }
        unreachable!()
    }
}
