//! The parts of a run: the cut, one job for each tile, and the stitching.

use anyhow::{Context, Result, bail};
use mpw_job::{Answer, CutAnswer, CutJob, Job, tile_job};
use mpw_markers::{Book, TileMarkers, stitch};
use mpw_tiles::{Snapshot, Windows};
use mpw_work::do_job;
use std::alloc::Global;

/// The number of the run.
const RUN: u32 = 1;

/// Cuts the snapshot into windows.
pub fn cut(alloc: Global, snapshot: &Snapshot) -> Result<CutAnswer> {
    let snapshot = snapshot.copy(alloc)?;
    let job = Job::Cut(CutJob { run: RUN, snapshot });
    match do_job(alloc, &job)? {
        Answer::Cut(answer) => Ok(answer),
        Answer::Tile(_) => bail!("the answer of a cut"),
    }
}

/// The jobs of all tiles, in order.
pub fn jobs(alloc: Global, snapshot: &Snapshot, windows: &Windows) -> Result<Vec<Job>> {
    let plan = snapshot.plan().context("a plan")?;
    let mut jobs = Vec::new(alloc);
    for tile in 0..plan.tiles() {
        if tile as usize >= windows.as_slice().len() {
            bail!("a window a tile");
        }
        jobs.push(Job::Tile(tile_job(RUN, tile, snapshot, &plan, windows)?))?;
    }
    Ok(jobs)
}

/// Executes the jobs one after another on this thread.
pub fn done_in_turn(alloc: Global, jobs: &[Job]) -> Result<Vec<Answer>> {
    let mut answers = Vec::new(alloc);
    for job in jobs {
        answers.push(do_job(alloc, job)?)?;
    }
    Ok(answers)
}

/// How many markers the answers of tiles have together.
pub fn found(answers: &[Answer]) -> usize {
    let mut count = 0usize;
    for answer in answers {
        if let Answer::Tile(answer) = answer {
            count = count.saturating_add(answer.markers().len());
        }
    }
    count
}

fn markers_of(answer: &Answer) -> Result<TileMarkers> {
    match answer {
        Answer::Tile(answer) => Ok(answer.markers().copy()?),
        Answer::Cut(_) => bail!("the answer of a tile"),
    }
}

/// The book of the answers.
pub fn stitched(alloc: Global, answers: &[Answer]) -> Result<Book> {
    let mut lists = Vec::new(alloc);
    for answer in answers {
        lists.push(markers_of(answer)?)?;
    }
    Ok(stitch(alloc, &lists)?)
}

/// How many rectangles the windows list together.
pub fn listed(windows: &Windows) -> usize {
    let mut count = 0usize;
    for window in windows.as_slice() {
        count = count.saturating_add(window.as_slice().len());
    }
    count
}
