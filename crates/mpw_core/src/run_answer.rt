//! The answer to an event of the run. The response is a copy of the run's reply. An answer that finishes the run has an entry for a waiver
//! of each of its markers.
ghost use Rattle.std.specs.Prelude.{◌≡◌, IfOk};
ghost use Rattle.mpw_run.specs.Prepared.{IsPrepared};
ghost use Rattle.mpw_run.specs.Step.{Outcome as RunOutcome};
ghost use Rattle.mpw_core.specs.Answer.{run_response};
ghost use Rattle.mpw_core.specs.Internal.Answer.{Gives, move_or_finish, places_for};
ghost use Rattle.mpw_events.specs.Restoring.{job_cut};
ghost use Rattle.mpw_events.specs.Step.{State, of_run};
ghost use Rattle.mpw_run.specs.Laws.{finishes};

use crate::answer::{Answer, Next};
use mpw_events::{Response, SharedRunReply};
use mpw_job::CutJob;
use mpw_run::{Phase, Prepared, Run, RunReply};
use mpw_waiver::Waivers;
use std::alloc::{AllocError, Global};

/// The response with a run's reply, which its copies share. One allocation, and those of a job's copy.
///
/// # Errors
/// Out of memory, or no more copies can be counted.
fn run_response(alloc: Global, reply: &RunReply) -> Result<Response, AllocError>
    ensures { IfOk result (λ response. response ≡ run_response reply.now) }
{
    let reply = reply.copy(alloc)?;
    Ok(Response::Run(SharedRunReply::new(alloc, reply)?))
}

/// Whether the reply finishes a run.
fn finishes(reply: &RunReply) -> bool
    ensures { result ≡ finishes reply.now }
{
    matches!(reply, RunReply::Finished)
}

/// The entries for the waivers of a run that the prepared change finishes. One allocation.
///
/// # Errors
/// Out of memory.
fn places_for(alloc: Global, run: &Run, prepared: &Prepared) -> Result<Option<Waivers>, AllocError>
    ensures { IfOk result (λ places. places ≡ places_for run.now prepared.now) }
{
    if !finishes(&prepared.reply) {
        return Ok(None);
    }
    let size = run.next_size(prepared);
    Ok(Some(Waivers::new(alloc, size)?))
}

/// The change that a prepared change of the run moves in: one that finishes the run must be stored, and has entries for waivers.
fn move_or_finish(prepared: Prepared, places: Option<Waivers>) -> Next
    ensures { result ≡ move_or_finish prepared places }
{
    match places {
        Some(waivers) => Next::Finish(prepared, waivers),
        None => Next::Move(prepared),
    }
}

/// The response to an event of the run, and the entries for waivers of a run that it finishes.
#[derive(Drop)]
struct Answered {
    response: Response,
    places: Option<Waivers>,
}

/// The prepared answer to an event of the run.
///
/// # Errors
/// Out of memory, or no more copies can be counted.
fn prepared_answer(alloc: Global, run: &Run, prepared: &Prepared) -> Result<Answered, AllocError>
    ensures response { IfOk result (λ made. made.response ≡ run_response prepared.now.reply) }
    ensures places { IfOk result (λ made. made.places ≡ places_for run.now prepared.now) }
{
    let places = places_for(alloc, run, prepared)?;
    let response = run_response(alloc, &prepared.reply)?;
    Ok(Answered { response, places })
}

/// The answer to an event of the run.
///
/// # Errors
/// Out of memory for the reply's copy or for the waivers' entries, or no more copies can be counted.
pub(crate) fn of_run(alloc: Global, run: &Run, prepared: Prepared) -> Result<Answer, AllocError>
    ensures { (state : State) (outcome : RunOutcome) → state.run ≡ run.now → IsPrepared prepared state.run outcome → IfOk result (λ answer. Gives state (of_run state outcome) answer.response answer.next) }
{
    match prepared_answer(alloc, run, &prepared) {
        Ok(made) => Ok(Answer {
            response: made.response,
            next: move_or_finish(prepared, made.places),
        }),
        Err(error) => Err(error),
    }
}

/// The job of cutting the run's snapshot, if the run is in its cutting.
///
/// # Errors
/// Out of memory, or no more copies can be counted.
pub(crate) fn cut_job(alloc: Global, run: &Run) -> Result<Option<CutJob>, AllocError>
    ensures { IfOk result (λ job. job ≡ job_cut run.now) }
{
    match run.phase() {
        Phase::Cutting(planned) => Ok(Some(CutJob {
            run: run.number(),
            snapshot: planned.snapshot().copy(alloc)?,
        })),
        Phase::Idle | Phase::Checking(_) | Phase::Finished(_) => Ok(None),
    }
}
