//! Copies of jobs and answers, which equal what they were made of.

use crate::job::words::rectangles;
use anyhow::{Result, bail};
use gate_plain::deck_of;
use mpw_geom::Box2;
use mpw_hier::Shelf;
use mpw_job::{Answer, CutJob, Job, TileJob};
use mpw_tiles::{Snapshot, Window, are_roots};
use mpw_work::do_job;
use std::alloc::Global;

/// The tile of the job.
const CORE: Box2 = Box2 {
    x0: 0,
    y0: 0,
    x1: 256,
    y1: 256,
};

fn cut_job(alloc: Global) -> Result<Job> {
    let shelf = Shelf::new(alloc);
    if !are_roots(&shelf, &[]) {
        bail!("no roots");
    }
    let deck = deck_of(alloc, "256", "space s 1/0 9")?;
    let snapshot = Snapshot::new(alloc, deck, Vec::new(alloc), shelf)?;
    Ok(Job::Cut(CutJob { run: 3, snapshot }))
}

/// The job of a core that finds one marker.
fn tile_job(alloc: Global) -> Result<Job> {
    let window = Window::from_vec(alloc, rectangles(alloc, "0 1 0 0 10 20, 1 1 15 5 30 40")?)?;
    let rules = deck_of(alloc, "256", "space s 1/0 9")?.rules().copy()?;
    if rules.as_slice().len() > 256 {
        bail!("the rules of a job");
    }
    Ok(Job::Tile(TileJob::new(3, 0, CORE, window, rules)))
}

fn is_same_job(a: &Job, b: &Job) -> bool {
    match (a, b) {
        (Job::Cut(a), Job::Cut(b)) => a.is_same(b),
        (Job::Tile(a), Job::Tile(b)) => a.is_same(b),
        _ => false,
    }
}

/// Whether the copy of an answer has the job, and as many windows or markers.
fn is_answer_copied(alloc: Global, job: &Job, answer: &Answer, count: usize) -> Result<bool> {
    match (job, answer) {
        (Job::Cut(job), Answer::Cut(answer)) => {
            let copy = answer.copy(alloc)?;
            let windows = copy.windows();
            let is_same = job.is_same(copy.job()) && windows.is_same(answer.windows());
            Ok(is_same && windows.as_slice().len() == count)
        }
        (Job::Tile(job), Answer::Tile(answer)) => {
            let copy = answer.copy()?;
            Ok(job.is_same(copy.job()) && copy.markers().len() == count)
        }
        _ => Ok(false),
    }
}

/// Whether the copy of the job is the same, and its answer's copy is.
fn is_copied(alloc: Global, job: &Job, count: usize) -> Result<bool> {
    let copy = job.copy(alloc)?;
    let answer = do_job(alloc, &copy)?;
    Ok(is_same_job(job, &copy) && is_answer_copied(alloc, &copy, &answer, count)?)
}

/// Prints how many copies of a job and an answer of each kind differ. A cut without shapes has no windows, and the tile's rectangles are 5
/// nm apart in 15 rows: one marker.
pub fn compared(rt: &HostRuntime) -> Result<()> {
    let cut = is_copied(rt.alloc(), &cut_job(rt.alloc())?, 0)?;
    let tile = is_copied(rt.alloc(), &tile_job(rt.alloc())?, 1)?;
    let different = u32::from(!cut) + u32::from(!tile);
    Ok(println!(rt; "    {different} of 2 differ")?)
}
