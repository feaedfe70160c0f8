//! The book of a snapshot, by its jobs: the cut, one job for each tile, and the stitching.

use anyhow::{Context, Result, bail};
use mpw_job::{Answer, CutAnswer, CutJob, Job, tile_job};
use mpw_markers::{Book, TileMarkers, stitch};
use mpw_tiles::{Snapshot, Windows};
use mpw_work::{do_job, work_all};
use std::alloc::{AllocError, Global};
use std::thread::Threads;

/// The number of the run.
const RUN: u32 = 7;

/// The job of the cut.
fn cut_job(alloc: Global, snapshot: &Snapshot) -> Result<Job, AllocError> {
    let snapshot = snapshot.copy(alloc)?;
    Ok(Job::Cut(CutJob { run: RUN, snapshot }))
}

fn cut(alloc: Global, snapshot: &Snapshot) -> Result<CutAnswer> {
    let job = cut_job(alloc, snapshot)?;
    match do_job(alloc, &job)? {
        Answer::Cut(answer) => Ok(answer),
        Answer::Tile(_) => bail!("the answer of a cut"),
    }
}

/// The markers of a tile, if the answer is that of the tile.
fn markers_of(answer: &Answer, tile: usize) -> Result<TileMarkers> {
    match answer {
        Answer::Tile(answer) if answer.job().run() == RUN && answer.job().tile() as usize == tile =>
            { Ok(answer.markers().copy()?) }
        _ => bail!("the answer of that tile's job"),
    }
}

/// The jobs of all tiles, in order.
fn jobs(alloc: Global, snapshot: &Snapshot, windows: &Windows) -> Result<Vec<Job>> {
    let plan = snapshot.plan().context("a plan")?;
    let mut jobs = Vec::new(alloc);
    for tile in 0..plan.tiles() {
        if tile as usize >= windows.as_slice().len() {
            bail!("a window a tile");
        }
        jobs.push(Job::Tile(tile_job(RUN, tile, snapshot, &plan, windows)?))?;
    }
    Ok(jobs)
}

fn stitched(alloc: Global, answers: &[Answer]) -> Result<Book> {
    let mut lists = Vec::new(alloc);
    for (tile, answer) in answers.iter().enumerate() {
        lists.push(markers_of(answer, tile)?)?;
    }
    Ok(stitch(alloc, &lists)?)
}

/// The number of tiles of the snapshot's plan.
pub fn tiles(snapshot: &Snapshot) -> u32 {
    match snapshot.plan() {
        Some(plan) => plan.tiles(),
        None => 0,
    }
}

/// The jobs of the tiles that the cut gives.
fn cut_jobs(alloc: Global, snapshot: &Snapshot) -> Result<Vec<Job>> {
    let cut = cut(alloc, snapshot)?;
    jobs(alloc, snapshot, cut.windows())
}

/// The book of the snapshot.
pub fn book<T: Threads + Sync>(threads: &T, alloc: Global, snapshot: &Snapshot) -> Result<Book> {
    let jobs = cut_jobs(alloc, snapshot)?;
    let answers = work_all(threads, alloc, &jobs)?;
    stitched(alloc, &answers)
}
