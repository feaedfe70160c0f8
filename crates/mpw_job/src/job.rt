//! The jobs of a run: to cut a snapshot, or to find the markers of a tile.

ghost use Rattle.std.specs.Prelude.{◌≡◌, ◌↔◌, IfOk, IsTrue};
ghost use Rattle.mpw_job.specs.Answers.{IsTileJob};

use mpw_deck::Rules;
use mpw_geom::Box2;
use mpw_tiles::{Snapshot, Window};
use std::alloc::{AllocError, Global};
use std::marker::Model;

/// The job of cutting a snapshot into the windows of its tiles, for the run with that number.
pub struct CutJob {
    /// The run's number, counted from 1. It identifies the answer.
    pub run: u32,
    /// The deck, the placed submissions and the shelf that the run checks.
    pub snapshot: Snapshot,
}

impl Drop for CutJob {
    fn drop(self) {
        let CutJob { run: _, snapshot } = self;
        drop(snapshot);
    }
}

impl CutJob {
    /// The same job, which shares the snapshot's parts. Cost: that of a copy of the snapshot.
    ///
    /// # Errors
    /// If no more copies can be counted; or out of memory (for the counts).
    pub fn copy(&self, alloc: Global) -> Result<CutJob, AllocError>
        ensures { IfOk result (λ job. job ≡ self.now) }
    {
        Ok(CutJob {
            run: self.run,
            snapshot: self.snapshot.copy(alloc)?,
        })
    }

    /// Whether both are equal by value. Stops at the first difference, and costs at most the snapshot's size.
    pub fn is_same(&self, other: &CutJob) -> bool
        ensures { IsTrue result ↔ (self.now ≡ other.now) }
    {
        (self.run == other.run) && self.snapshot.is_same(&other.snapshot)
    }
}

/// The job of finding the markers of a tile of a run. Contracts see its numbers, its core, the rectangles of its window
/// and the rules. The core lies in the plane, and there are at most 256 rules. Copies share window and rules.
pub struct TileJob {
    run: u32,
    tile: u32,
    core: Box2,
    window: Window,
    rules: Rules,
}

impl Drop for TileJob {
    fn drop(self) {
        let TileJob {
            run: _,
            tile: _,
            core: _,
            window,
            rules,
        } = self;
        drop(window);
        drop(rules);
    }
}

impl Model for TileJob {
    ghost use Rattle.mpw_job.specs.Answers.{TileJob, IsTileJob};

    ghost Value = { TileJob };

    ghost view = { λ j. record { run = j.run; tile = j.tile; core = j.core; window = j.window; rules = j.rules } };

    ghost invariant = { λ j. IsTileJob (record { run = j.run; tile = j.tile; core = j.core; window = j.window; rules = j.rules }) };
}

/// Whether the boxes have equal corners.
fn is_same_box(a: &Box2, b: &Box2) -> bool
    ensures { IsTrue result ↔ (a.now ≡ b.now) }
{
    a == b
}

impl TileJob {
    /// The job of a tile of the run with that number. `core`, in nm, and `window` are the tile's, and `rules` are those of
    /// the run's deck. Constant time; takes no memory.
    pub fn new(run: u32, tile: u32, core: Box2, window: Window, rules: Rules) -> TileJob
        requires { IsTileJob (record { run = run; tile = tile; core = core; window = window; rules = rules }) }
        ensures { result ≡ record { run = run; tile = tile; core = core; window = window; rules = rules } }
    {
        TileJob {
            run,
            tile,
            core,
            window,
            rules,
        }
    }

    /// The run's number.
    pub fn run(&self) -> u32
        ensures { result ≡ self.now.run }
    {
        self.run
    }

    /// The tile's number.
    pub fn tile(&self) -> u32
        ensures { result ≡ self.now.tile }
    {
        self.tile
    }

    /// The half-open core, in nm.
    pub fn core(&self) -> Box2
        ensures { result ≡ self.now.core }
    {
        self.core
    }

    /// The window.
    pub fn window(&self) -> &Window
        ensures { result.now ≡ self.now.window }
    {
        &self.window
    }

    /// The rules.
    pub fn rules(&self) -> &Rules
        ensures { result.now ≡ self.now.rules }
    {
        &self.rules
    }

    /// A law; the function does nothing. Each job meets the limits.
    pub fn is_tile_job(&self)
        ensures { IsTileJob self.now }
    {
        let _run = self.run;
    }

    /// The same job, in constant time and without more memory.
    ///
    /// # Errors
    /// If no more copies can be counted.
    pub fn copy(&self) -> Result<TileJob, AllocError>
        ensures { IfOk result (λ job. job ≡ self.now) }
    {
        let window = self.window.copy()?;
        let rules = self.rules.copy()?;
        Ok(TileJob {
            run: self.run,
            tile: self.tile,
            core: self.core,
            window,
            rules,
        })
    }

    /// Whether the jobs have equal parts. Stops at the first difference, and takes no memory. Cost: at most the size of
    /// the window and the rules.
    pub fn is_same(&self, other: &TileJob) -> bool
        ensures { IsTrue result ↔ (self.now ≡ other.now) }
    {
        self.run == other.run
            && self.tile == other.tile
            && is_same_box(&self.core, &other.core)
            && self.rules.is_same(&other.rules)
            && self.window.is_same(&other.window)
    }
}

/// A job of a run.
#[derive(Drop)]
pub enum Job {
    /// Cutting a run's snapshot, which comes before its tiles.
    Cut(CutJob),
    /// Finding the markers of one tile of a snapshot that was cut.
    Tile(TileJob),
}

impl Job {
    /// The same job, which shares its parts.
    ///
    /// # Errors
    /// If no more copies can be counted; or out of memory (for the counts).
    pub fn copy(&self, alloc: Global) -> Result<Job, AllocError>
        ensures { IfOk result (λ job. job ≡ self.now) }
    {
        match self {
            Job::Cut(job) => Ok(Job::Cut(job.copy(alloc)?)),
            Job::Tile(job) => Ok(Job::Tile(job.copy()?)),
        }
    }
}

/// A hook that a worker calls before it executes a tile's job. A test may delay the worker in it, or count.
pub trait Gate {
    /// Called with the run's number and the tile's.
    fn pass(&self, run: u32, tile: u32);
}
