//! Executes a job and makes its answer.

ghost use Rattle.std.specs.Prelude.{◌≡◌, IfOk};
ghost use Rattle.mpw_job.specs.Carried.{job_of};

use crate::find::found;
use mpw_job::{Answer, CutAnswer, CutJob, Job, TileAnswer, TileJob};
use mpw_markers::TileMarkers;
use mpw_tiles::cut;
use std::alloc::{AllocError, Global};

/// The bytes of the block that [`keep_freed`] allocates.
const KEPT: usize = 4 << 20;

/// Allocates a block and frees it untouched. The C library's heap then holds twice as much freed memory. Until a large block
/// was freed, the heap returns its end to the system whenever 128 KiB of it are free, as after each tile, and each page that
/// is allocated again costs a fault. Later blocks come from the thread's own heap, which then grows by one system call
/// instead of page by page. If there is no memory, nothing changes.
pub(crate) fn keep_freed(alloc: Global) {
    let block: Result<Vec<u8>, AllocError> = Vec::with_capacity(alloc, KEPT);
    drop(block);
}

/// The answer of cutting a snapshot.
fn cut_answer(alloc: Global, job: &CutJob) -> Result<CutAnswer, AllocError>
    ensures { IfOk result (λ a. a.job ≡ job.now) }
{
    keep_freed(alloc);
    let windows = cut(alloc, &job.snapshot)?;
    let job = job.copy(alloc)?;
    Ok(CutAnswer::new(job, windows))
}

/// The answer of a tile.
fn tile_answer(alloc: Global, job: &TileJob) -> Result<TileAnswer, AllocError>
    ensures { IfOk result (λ a. a.job ≡ job.now) }
{
    let markers = found(alloc, job)?;
    let markers = TileMarkers::from_vec(alloc, markers)?;
    let job = job.copy()?;
    Ok(TileAnswer::new(job, markers))
}

/// Executes the job. The answer has the job, and its type guarantees that it is correct.
///
/// Cost of a cut: that of [`cut`]. Cost of a tile: a sort of the window; what [`mpw_checks::strips_of`] takes for each group of
/// consecutive rules with the same layers; what [`mpw_checks::pieces_in`] takes for each rule; and, if the window's rectangles
/// are of several submissions, what [`mpw_markers::met_origins`] takes for them and all runs together.
///
/// # Errors
/// Out of memory.
pub fn do_job(alloc: Global, job: &Job) -> Result<Answer, AllocError>
    ensures { IfOk result (λ a. job_of a ≡ job.now) }
{
    match job {
        Job::Cut(job) => Ok(Answer::Cut(cut_answer(alloc, job)?)),
        Job::Tile(job) => Ok(Answer::Tile(tile_answer(alloc, job)?)),
    }
}
