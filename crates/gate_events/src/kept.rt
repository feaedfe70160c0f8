//! Answers of jobs under names.
ghost use Rattle.std.specs.Prelude.{◌≡◌, ◌++◌, ◌∷◌, [], IfOk, OnOk};
ghost use Rattle.gate_events.specs.Kept.{event_of, job_of};

use anyhow::{Result, bail};
use mpw_events::{Event, SharedCut, SharedTile};
use mpw_geom::Name;
use mpw_job::{Answer, Job};
use mpw_work::do_job;
use std::alloc::{AllocError, Global};

/// The answer of a job.
#[derive(Drop)]
pub enum JobAnswer {
    /// The windows of a snapshot.
    Cut(SharedCut),
    /// The markers of a tile.
    Tile(SharedTile),
}

/// The answer of a job, under a name.
#[derive(Drop)]
pub struct Kept {
    /// The name by which it is found. An answer that is stored later under the same name replaces it.
    pub name: Name,
    /// The answer that can be handed to the desk.
    pub work: JobAnswer,
}

/// Does a job. Cost: that of the job.
///
/// # Errors
/// Out of memory.
pub fn work(alloc: Global, job: &Job) -> Result<JobAnswer, AllocError>
    ensures { IfOk result (λ work. job_of work ≡ job.now) }
{
    match do_job(alloc, job)? {
        Answer::Cut(answer) => Ok(JobAnswer::Cut(SharedCut::new(alloc, answer)?)),
        Answer::Tile(answer) => Ok(JobAnswer::Tile(SharedTile::new(alloc, answer)?)),
    }
}

/// Stores the answer of a job under a name.
///
/// # Errors
/// Out of memory.
pub fn keep(kept: &mut Vec<Kept>, name: Name, work: JobAnswer) -> Result<()>
    ensures { OnOk result (kept.new.items ≡ kept.old.items ++ record { name = name; work = work } ∷ []) }
{
    Ok(kept.push(Kept { name, work })?)
}

/// The latest answer that is stored under a name. Linear in the answers.
///
/// # Errors
/// There is none.
pub fn find<'a>(kept: &'a [Kept], name: &str) -> Result<&'a JobAnswer> {
    let mut found = None;
    for one in kept {
        if one.name.as_str() == name {
            found = Some(&one.work);
        }
    }
    match found {
        Some(work) => Ok(work),
        None => bail!("the name of a kept answer"),
    }
}

/// The cut that is stored under a name.
///
/// # Errors
/// There is none, or a tile's answer.
pub fn find_cut<'a>(kept: &'a [Kept], name: &str) -> Result<&'a SharedCut> {
    match find(kept, name)? {
        JobAnswer::Cut(answer) => Ok(answer),
        JobAnswer::Tile(_) => bail!("the name of a cut"),
    }
}

/// The tile's answer that is stored under a name.
///
/// # Errors
/// There is none, or a cut.
pub fn find_tile<'a>(kept: &'a [Kept], name: &str) -> Result<&'a SharedTile> {
    match find(kept, name)? {
        JobAnswer::Tile(answer) => Ok(answer),
        JobAnswer::Cut(_) => bail!("the name of a tile's answer"),
    }
}

/// The event that hands in the answer of a job.
///
/// # Errors
/// Out of memory.
pub fn event_of(work: &JobAnswer) -> Result<Event, AllocError>
    ensures { IfOk result (λ event. event ≡ event_of work.now) }
{
    match work {
        JobAnswer::Cut(answer) => Ok(Event::Cut(answer.copy()?)),
        JobAnswer::Tile(answer) => Ok(Event::Tile(answer.copy()?)),
    }
}
