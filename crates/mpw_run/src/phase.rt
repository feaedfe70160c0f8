//! How far a run is.

ghost use Rattle.std.specs.Prelude.{◌≡◌, ◌<◌, ◌^◌, length, IfOk, IfSome, IfNone, None, option_map};
ghost use Rattle.mpw_tiles.specs.Snapshots.{plan_for, StandFor};
ghost use Rattle.mpw_tiles.specs.Plan.{tiles};
ghost use Rattle.mpw_run.specs.Run.{answered, IsPlanned};
ghost use Rattle.mpw_run.specs.Internal.Prepared.{answers_with};
ghost use Rattle.mpw_run.specs.Step.{Offer, findings, next_from, job_of_tile};
ghost use Rattle.mpw_run.specs.Stitching.{stitched, AreFilled};

use crate::tiles::Tiles;
use mpw_job::{Job, TileJob, tile_job};
use mpw_markers::{Book, TileMarkers};
use mpw_tiles::{Plan, Snapshot, Windows};
use std::alloc::{AllocError, Global};
use std::marker::Model;

/// A snapshot with the plan of its tiles. Contracts see both.
#[derive(Drop)]
pub struct Planned {
    pub(crate) snapshot: Snapshot,
    pub(crate) plan: Plan,
}

impl Model for Planned {
    ghost use Rattle.mpw_run.specs.Run.{Planned, IsPlanned};

    ghost Value = { Planned };

    ghost view = { λ p. record { snapshot = p.snapshot; plan = p.plan } };

    ghost invariant = { λ p. IsPlanned (record { snapshot = p.snapshot; plan = p.plan }) };
}

impl Planned {
    /// The snapshot with the plan of its tiles. None if it has no plan, since it has no shape, or there would be more than 4096 tiles.
    /// Linear in the roots and the rules. It takes no memory.
    pub fn of(snapshot: Snapshot) -> Option<Planned>
        ensures some { IfSome result (λ p. p.snapshot ≡ snapshot) }
        ensures none { IfNone result (plan_for snapshot ≡ None) }
    {
        snapshot.is_snapshot();
        let plan = snapshot.plan()?;
        Some(Planned { snapshot, plan })
    }

    /// The snapshot.
    pub fn snapshot(&self) -> &Snapshot
        ensures { result.now ≡ self.now.snapshot }
    {
        &self.snapshot
    }

    /// Its plan is the snapshot's. A law: the function does nothing.
    pub fn is_planned(&self)
        ensures { IsPlanned self.now }
    {
        let _plan = &self.plan;
    }

    /// The number of its tiles, 1 to 4096.
    pub fn total(&self) -> u32
        ensures { result ≡ tiles self.now.plan }
    {
        self.plan.tiles()
    }
}

/// A run whose snapshot is cut. Contracts see the snapshot with its plan, the windows, and the tiles in order.
#[derive(Drop)]
pub struct Checks {
    pub(crate) planned: Planned,
    pub(crate) windows: Windows,
    pub(crate) tiles: Tiles,
}

impl Model for Checks {
    ghost use Rattle.mpw_run.specs.Run.{Checks};

    ghost Value = { Checks };

    ghost view = { λ c. record { planned = c.planned; windows = c.windows; tiles = c.tiles } };
}

impl Checks {
    /// The snapshot with its plan.
    pub fn snapshot_with_plan(&self) -> &Planned
        ensures { result.now ≡ self.now.planned }
    {
        &self.planned
    }

    /// The windows, by tile.
    pub fn windows(&self) -> &Windows
        ensures { result.now ≡ self.now.windows }
    {
        &self.windows
    }

    /// The job of a tile. Constant time; it takes no memory.
    ///
    /// # Errors
    /// No more copies of its parts can be counted.
    pub(crate) fn tile_job(&self, run: u32, tile: u32) -> Result<TileJob, AllocError>
        requires tile { tile < tiles self.now.planned.plan }
        requires windows { StandFor self.now.planned.snapshot self.now.windows }
        ensures { IfOk result (λ job. job ≡ job_of_tile run self.now tile) }
    {
        self.planned.is_planned();
        tile_job(
            run,
            tile,
            &self.planned.snapshot,
            &self.planned.plan,
            &self.windows,
        )
    }

    /// The number of answered tiles. Linear in the tiles.
    pub fn done(&self) -> usize
        ensures { result ≡ answered self.now.tiles }
    {
        self.tiles.done()
    }

    /// The number of the tiles, 1 to 4096.
    pub fn total(&self) -> u32
        ensures { result ≡ tiles self.now.planned.plan }
    {
        self.planned.total()
    }

    /// The unanswered tile that was handed out the fewest times, and of these the one with the least number.
    pub(crate) fn next(&self) -> Option<u32>
        requires { length self.now.tiles < 2 ^ 32 }
        ensures { result ≡ option_map (λ (o : Offer). o.number) (next_from 0 self.now.tiles) }
    {
        self.tiles.next()
    }

    /// The book of all tiles, with these markers for one of them.
    pub(crate) fn book_with(
        &self,
        alloc: Global,
        tile: u32,
        markers: &TileMarkers,
    ) -> Result<Book, AllocError>
        requires tile { tile < length self.now.tiles }
        requires filled { AreFilled (answers_with markers.now tile self.now.tiles) }
        ensures { IfOk result (λ book. book ≡ stitched (answers_with markers.now tile self.now.tiles)) }
    {
        self.tiles.book_with(alloc, tile, markers)
    }
}

/// A run whose tiles are all answered: its snapshot with the plan, and its book.
#[derive(Drop)]
pub struct Checked {
    /// What was checked, with the tiles into which it was cut.
    pub planned: Planned,
    /// The markers of the snapshot's flat layout, stitched from the answers of all its tiles.
    pub book: Book,
}

/// How far a run is.
#[derive(Drop)]
pub enum Phase {
    /// There was no run yet, or the last one was cancelled.
    Idle,
    /// A run has begun, and its windows aren't there yet. A restart takes a run in `Checking` back to here.
    Cutting(Planned),
    /// The snapshot is cut, and at least one tile has no answer yet.
    Checking(Checks),
    /// Each tile was answered, and the book is stitched. A restart leaves it unchanged.
    Finished(Checked),
}

impl Phase {
    /// What a finished run found, or none if the run isn't finished.
    pub fn findings(&self) -> Option<&Checked>
        ensures { option_map (λ f. f.now) result ≡ findings self.now }
    {
        match self {
            Phase::Finished(checked) => Some(checked),
            Phase::Idle | Phase::Cutting(_) | Phase::Checking(_) => None,
        }
    }
}

/// The reply to an event.
pub enum RunReply {
    /// To a call for a job. In `Cutting` it is the cut. In `Checking` it is the unanswered tile that was handed out the fewest times, and
    /// of these the one with the least number. A job can be handed out again until it is answered.
    Taken(Job),
    /// To a call for a job: the run is idle or finished.
    NoJob,
    /// To the windows of the run's own snapshot in `Cutting`: they are accepted, and checking begins. To the markers of a tile: they are
    /// accepted, and another tile has no answer yet. A run that begins has this reply too.
    Kept,
    /// To the markers of the last unanswered tile: they are accepted, the book is stitched, and the run is finished.
    Finished,
    /// To windows of another snapshot than that of the run in `Cutting`. To the markers of a tile that were found in another core or window
    /// or by other rules than its own, of a tile that the run doesn't have, or in `Cutting`. They aren't accepted.
    Stranger,
    /// To windows if the run is in `Checking` or finished, and to the markers of a tile that has an answer. They aren't accepted, whatever they are.
    Double,
    /// To windows or markers with the number of another run, or if the run is idle. They aren't accepted, whatever they are. This is tested first.
    OldRun,
}

impl Drop for RunReply {
    fn drop(self) {
        match self {
            RunReply::Taken(job) => drop(job),
            RunReply::NoJob
            | RunReply::Kept
            | RunReply::Finished
            | RunReply::Stranger
            | RunReply::Double
            | RunReply::OldRun => {}
        }
    }
}

impl RunReply {
    /// The same reply, which shares the parts of a job that was handed out.
    ///
    /// # Errors
    /// Out of memory, or no more copies can be counted.
    pub fn copy(&self, alloc: Global) -> Result<RunReply, AllocError>
        ensures { IfOk result (λ reply. reply ≡ self.now) }
    {
        match self {
            RunReply::Taken(job) => Ok(RunReply::Taken(job.copy(alloc)?)),
            RunReply::NoJob => Ok(RunReply::NoJob),
            RunReply::Kept => Ok(RunReply::Kept),
            RunReply::Finished => Ok(RunReply::Finished),
            RunReply::Stranger => Ok(RunReply::Stranger),
            RunReply::Double => Ok(RunReply::Double),
            RunReply::OldRun => Ok(RunReply::OldRun),
        }
    }
}
