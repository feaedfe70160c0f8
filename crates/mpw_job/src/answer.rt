//! Answers, each with its job.

ghost use Rattle.std.specs.Prelude.{◌≡◌, IfOk};
ghost use Rattle.mpw_job.specs.Jobs.{IsCutAnswer, IsTileAnswer};

use crate::job::{CutJob, TileJob};
use mpw_markers::TileMarkers;
use mpw_tiles::Windows;
use std::alloc::{AllocError, Global};
use std::marker::Model;

/// The windows of a snapshot, with the job of cutting it. Contracts see both. The windows represent the snapshot.
pub struct CutAnswer {
    job: CutJob,
    windows: Windows,
}

impl Drop for CutAnswer {
    fn drop(self) {
        let CutAnswer { job, windows } = self;
        drop(job);
        drop(windows);
    }
}

impl Model for CutAnswer {
    ghost use Rattle.mpw_job.specs.Jobs.{CutWindows, IsCutAnswer};

    ghost Value = { CutWindows };

    ghost view = { λ a. record { job = a.job; windows = a.windows } };

    ghost invariant = { λ a. IsCutAnswer (record { job = a.job; windows = a.windows }) };
}

impl CutAnswer {
    /// The answer of a job of cutting. The windows must represent the job's snapshot. Constant time; takes no memory.
    pub fn new(job: CutJob, windows: Windows) -> CutAnswer
        requires { IsCutAnswer (record { job = job; windows = windows }) }
        ensures { result ≡ record { job = job; windows = windows } }
    {
        CutAnswer { job, windows }
    }

    /// The job.
    pub fn job(&self) -> &CutJob
        ensures { result.now ≡ self.now.job }
    {
        &self.job
    }

    /// The windows, by tile.
    pub fn windows(&self) -> &Windows
        ensures { result.now ≡ self.now.windows }
    {
        &self.windows
    }

    /// The same answer, which shares the snapshot's parts and the windows.
    ///
    /// # Errors
    /// If no more copies can be counted; or out of memory (for the counts).
    pub fn copy(&self, alloc: Global) -> Result<CutAnswer, AllocError>
        ensures { IfOk result (λ answer. answer ≡ self.now) }
    {
        Ok(CutAnswer {
            job: self.job.copy(alloc)?,
            windows: self.windows.copy()?,
        })
    }

    /// A law; the function does nothing. The windows represent the job's snapshot.
    pub fn is_answer(&self)
        ensures { IsCutAnswer self.now }
    {
        let _run = self.job.run;
    }
}

/// The markers of a tile, with the job of finding them. Contracts see both. The markers answer the job.
pub struct TileAnswer {
    job: TileJob,
    markers: TileMarkers,
}

impl Drop for TileAnswer {
    fn drop(self) {
        let TileAnswer { job, markers } = self;
        drop(job);
        drop(markers);
    }
}

impl Model for TileAnswer {
    ghost use Rattle.mpw_job.specs.Jobs.{FoundMarkers, IsTileAnswer};

    ghost Value = { FoundMarkers };

    ghost view = { λ a. record { job = a.job; markers = a.markers } };

    ghost invariant = { λ a. IsTileAnswer (record { job = a.job; markers = a.markers }) };
}

impl TileAnswer {
    /// The answer of a tile's job. The markers must answer the job. Constant time; takes no memory.
    pub fn new(job: TileJob, markers: TileMarkers) -> TileAnswer
        requires { IsTileAnswer (record { job = job; markers = markers }) }
        ensures { result ≡ record { job = job; markers = markers } }
    {
        TileAnswer { job, markers }
    }

    /// The job.
    pub fn job(&self) -> &TileJob
        ensures { result.now ≡ self.now.job }
    {
        &self.job
    }

    /// The markers, in order.
    pub fn markers(&self) -> &TileMarkers
        ensures { result.now ≡ self.now.markers }
    {
        &self.markers
    }

    /// The same answer, in constant time and without more memory.
    ///
    /// # Errors
    /// If no more copies can be counted.
    pub fn copy(&self) -> Result<TileAnswer, AllocError>
        ensures { IfOk result (λ answer. answer ≡ self.now) }
    {
        Ok(TileAnswer {
            job: self.job.copy()?,
            markers: self.markers.copy()?,
        })
    }

    /// A law; the function does nothing. The markers answer the job.
    pub fn is_answer(&self)
        ensures { IsTileAnswer self.now }
    {
        let _job = &self.job;
    }
}

/// The result of a job, with the job.
#[derive(Drop)]
pub enum Answer {
    /// The windows of a snapshot.
    Cut(CutAnswer),
    /// The markers of a tile.
    Tile(TileAnswer),
}
