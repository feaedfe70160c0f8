//! Jobs with parts of others.
ghost use Rattle.std.specs.Prelude.{◌≡◌, IfOk};
ghost use Rattle.mpw_job.specs.declared.job.CutJob.{CutJob};
ghost use Rattle.mpw_job.specs.declared.job.Job.TheVariants.{Cut, Tile};

use mpw_job::{CutAnswer, CutJob, Job, TileJob};
use std::alloc::{AllocError, Global};

/// The job of cutting what another answer cut, of a run of that number.
///
/// # Errors
/// Out of memory.
pub fn cut_job(alloc: Global, run: u32, of: &CutAnswer) -> Result<Job, AllocError>
    ensures { IfOk result (λ job. job ≡ Cut (record { run = run; snapshot = of.now.job.snapshot })) }
{
    let snapshot = of.job().snapshot.copy(alloc)?;
    Ok(Job::Cut(CutJob { run, snapshot }))
}

/// The job of a run and a tile of those numbers, with the core, the window and the rules of others.
///
/// # Errors
/// Out of memory.
pub fn tile_job(
    run: u32,
    tile: u32,
    core: &TileJob,
    window: &TileJob,
    rules: &TileJob,
) -> Result<Job, AllocError>
    ensures { IfOk result (λ job. job ≡ Tile (record { run = run; tile = tile; core = core.now.core; window = window.now.window; rules = rules.now.rules })) }
{
    core.is_tile_job();
    rules.is_tile_job();
    let window = window.window().copy()?;
    let rules = rules.rules().copy()?;
    Ok(Job::Tile(TileJob::new(run, tile, core.core(), window, rules)))
}
