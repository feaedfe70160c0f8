//! Executes many jobs in at most two threads for each processor, by `rayon`.
//!
//! The jobs are split into one piece of adjacent jobs for each thread, which executes them.

ghost use Rattle.std.specs.Prelude.{◌≡◌, IfOk, map};
ghost use Rattle.mpw_job.specs.Carried.{job_of};

use crate::answer::do_job;
use mpw_job::{Answer, Job};
use rayon::prelude::*;
use std::alloc::{AllocError, Global};
use std::thread::Threads;

/// Executes the jobs, in at most two threads for each processor. The answers are in the order of the jobs, and each has its job.
///
/// # Errors
/// Out of memory.
pub fn work_all(
    rt: &(impl Threads + Sync),
    alloc: Global,
    jobs: &[Job],
) -> Result<Vec<Answer>, AllocError>
    ensures { IfOk result (λ answers. map job_of answers.items ≡ jobs.now) }
{
    jobs.par_iter()
        .with_min_len(1)
        .map(
            |job: &Job| -> Result<Answer, AllocError>
                ensures { IfOk result (λ answer. job_of answer ≡ job.now) }
            { do_job(alloc, job) },
        )
        .collect::<Result<Vec<Answer>, AllocError>>(rt, alloc)?
}
