//! The run: its number and its phase.

ghost use Rattle.std.specs.Prelude.{◌≡◌, ◌+◌, ◌<◌, ◌^◌, IfOk, Some, None, length, slice_get};
ghost use Rattle.mpw_run.specs.Run.{Tile as TileValue};
ghost use Rattle.mpw_run.specs.declared.phase.RunReply.TheVariants.{Kept};
ghost use Rattle.mpw_run.specs.Step.{IsRun, TakenAtMost, book_size, new_run, started, cancelled, restarted, restarted_phase, taken, tile_answered, tile_checked, job_of_tile, cut_answered, begun, handed, next_from, kept, answered_by};
ghost use Rattle.mpw_run.specs.declared.phase.Phase.TheVariants.{Cutting, Checking};
ghost use Rattle.mpw_run.specs.Prepared.{IsFitting, IsPrepared, applied, set_tile};

use crate::laws::stitched_computes;
use crate::phase::{Checks, Phase, Planned, RunReply};
use crate::prepare::{Change, Prepared, next_number, next_phase, next_size};
use crate::same::{is_same_snapshot, is_same_tile_job};
use crate::tiles::Tiles;
use mpw_job::{CutAnswer, CutJob, Job, TileAnswer, answers_make_the_layout};
use std::alloc::{AllocError, Global};
use std::marker::Model;
use std::mem;

/// A run of the desk. Contracts see its number, which counts the accepted runs, and its phase.
pub struct Run {
    number: u32,
    phase: Phase,
}

impl Drop for Run {
    fn drop(self) {
        let Run { number: _, phase } = self;
        drop(phase);
    }
}

impl Model for Run {
    ghost use Rattle.mpw_run.specs.Step.{Run, IsRun};

    ghost Value = { Run };

    ghost view = { λ r. record { number = r.number; phase = r.phase } };

    ghost invariant = { λ r. IsRun (record { number = r.number; phase = r.phase }) };
}

impl Run {
    /// No run yet: number 0, idle. It takes no memory.
    pub fn new() -> Run
        ensures { result ≡ new_run }
    {
        Run {
            number: 0,
            phase: Phase::Idle,
        }
    }

    /// The number of accepted runs.
    pub fn number(&self) -> u32
        ensures { result ≡ self.now.number }
    {
        self.number
    }

    /// How far the run is.
    pub fn phase(&self) -> &Phase
        ensures { result.now ≡ self.now.phase }
    {
        &self.phase
    }

    /// Cancels the run. Its number stays. It takes no memory.
    pub fn cancel(&mut self)
        ensures { self.new ≡ cancelled self.old }
    {
        self.phase = Phase::Idle;
    }

    /// Takes a run in `Checking` back to `Cutting`, and leaves any other unchanged. It takes no memory.
    pub fn restart(&mut self)
        ensures { self.new ≡ restarted self.old }
    {
        let phase = mem::replace(&mut self.phase, Phase::Idle);
        self.phase = cut_again(phase);
    }

    /// Every run is sound. A law: the function does nothing.
    pub fn is_run(&self)
        ensures { IsRun self.now }
    {
        let _number = self.number;
    }

    /// Each run's number is below 2^32. A law: the function does nothing.
    fn is_counted(&self)
        ensures { self.now.number < 2 ^ 32 }
    {
        let _number = self.number;
    }

    /// The answer to an event that leaves the run unchanged.
    fn no_change(&self, reply: RunReply) -> Prepared
        ensures { IsPrepared result self.now (record { reply = reply; run = self.now }) }
    {
        let _number = self.number;
        Prepared {
            reply,
            change: Change::Nothing,
        }
    }

    /// The number of markers in the book of the run after the prepared change: 0 before it is finished. Constant time; it takes no memory.
    pub fn next_size(&self, prepared: &Prepared) -> usize
        ensures { result ≡ book_size (applied prepared.now.change self.now).phase }
    {
        next_size(&prepared.change, &self.phase)
    }

    /// Makes the change that was prepared for the run as it is, and returns the reply. It takes no memory.
    pub fn commit(&mut self, prepared: Prepared) -> RunReply
        requires { IsFitting prepared.change self.old }
        ensures reply { result ≡ prepared.reply }
        ensures run { self.new ≡ applied prepared.change self.old }
    {
        let phase = mem::replace(&mut self.phase, Phase::Idle);
        let next = next_number(&prepared.change, self.number);
        self.phase = next_phase(prepared.change, phase);
        self.number = next;
        prepared.reply
    }

    /// Prepares a run over the snapshot.
    pub fn prepare_start(&self, planned: Planned) -> Prepared
        requires { self.now.number + 1 < 2 ^ 32 }
        ensures { IsPrepared result self.now (record { reply = Kept; run = started self.now planned }) }
    {
        planned.is_planned();
        Prepared {
            reply: RunReply::Kept,
            change: Change::Start(planned),
        }
    }

    /// Prepares the answer to a call for a job: the cut, or the unanswered tile that was handed out the fewest times, and of these the one
    /// with the least number, or none. Linear in the tiles.
    ///
    /// # Errors
    /// Out of memory, or no more copies of the job's parts can be counted.
    pub fn prepare_take(&self, alloc: Global) -> Result<Prepared, AllocError>
        requires { TakenAtMost (2 ^ 63) self.now.phase }
        ensures { IfOk result (λ p. IsPrepared p self.now (taken self.now)) }
    {
        self.is_run();
        match &self.phase {
            Phase::Idle => Ok(self.no_change(RunReply::NoJob)),
            Phase::Cutting(planned) => {
                let snapshot = planned.snapshot().copy(alloc)?;
                let run = self.number;
                Ok(self.no_change(RunReply::Taken(Job::Cut(CutJob { run, snapshot }))))
            }
            Phase::Checking(c) => self.prepare_tile_job(c),
            Phase::Finished(_) => Ok(self.no_change(RunReply::NoJob)),
        }
    }

    /// Prepares the answer to a call for a job in `Checking`.
    fn prepare_tile_job(&self, c: &Checks) -> Result<Prepared, AllocError>
        requires phase { self.now.phase ≡ Checking c.now }
        requires taken { TakenAtMost (2 ^ 63) self.now.phase }
        ensures { IfOk result (λ p. IsPrepared p self.now (handed self.now c.now (next_from 0 c.now.tiles))) }
    {
        self.is_run();
        self.is_counted();
        let _total = c.total();
        let Some(tile) = c.next() else {
            return Ok(self.no_change(RunReply::NoJob));
        };
        let job = c.tile_job(self.number(), tile)?;
        Ok(Prepared {
            reply: RunReply::Taken(Job::Tile(job)),
            change: Change::Take(tile),
        })
    }

    /// Prepares the answer to the markers of a tile. Their input is compared by value with the run's own, up to the first difference. The
    /// last tile's answer stitches the book.
    ///
    /// # Errors
    /// Out of memory for the book, or no more copies can be counted.
    pub fn prepare_tile(&self, alloc: Global, answer: &TileAnswer) -> Result<Prepared, AllocError>
        ensures { IfOk result (λ p. IsPrepared p self.now (tile_answered self.now answer.now)) }
    {
        if answer.job().run() != self.number {
            return Ok(self.no_change(RunReply::OldRun));
        }
        match &self.phase {
            Phase::Idle => Ok(self.no_change(RunReply::OldRun)),
            Phase::Cutting(_) => Ok(self.no_change(RunReply::Stranger)),
            Phase::Checking(c) => self.prepare_kept(alloc, c, answer),
            Phase::Finished(f) => {
                if answer.job().tile() < f.planned.total() {
                    Ok(self.no_change(RunReply::Double))
                } else {
                    Ok(self.no_change(RunReply::Stranger))
                }
            }
        }
    }

    /// Prepares the answer to the markers of a tile in `Checking`.
    fn prepare_kept(
        &self,
        alloc: Global,
        c: &Checks,
        answer: &TileAnswer,
    ) -> Result<Prepared, AllocError>
        requires phase { self.now.phase ≡ Checking c.now }
        ensures { IfOk result (λ p. IsPrepared p self.now (tile_checked self.now c.now answer.now (slice_get c.now.tiles answer.now.job.tile))) }
    {
        let number = answer.job().tile();
        let Some(tile) = c.tiles.as_slice().get(number as usize) else {
            return Ok(self.no_change(RunReply::Stranger));
        };
        if tile.answer.is_some() {
            return Ok(self.no_change(RunReply::Double));
        }
        let own = c.tile_job(self.number, number)?;
        if !is_same_tile_job(answer.job(), &own) {
            return Ok(self.no_change(RunReply::Stranger));
        }
        self.tile_kept(alloc, c, number, answer)
    }

    /// Prepares the answer to the markers of an unanswered tile, if they are those of the run's own job.
    fn tile_kept(
        &self,
        alloc: Global,
        c: &Checks,
        number: u32,
        answer: &TileAnswer,
    ) -> Result<Prepared, AllocError>
        requires phase { self.now.phase ≡ Checking c.now }
        requires number { number < length c.now.tiles }
        requires unanswered { (x : TileValue) → slice_get c.now.tiles number ≡ Some x → x.answer ≡ None }
        requires job { answer.now.job ≡ job_of_tile self.now.number c.now number }
        ensures { IfOk result (λ p. IsPrepared p self.now
            (tile_checked self.now c.now answer.now (slice_get c.now.tiles answer.now.job.tile))) }
    {
        self.is_run();
        self.is_counted();
        answer.is_answer();
        answers_make_the_layout();
        stitched_computes();
        let markers = answer.markers();
        if c.done() + 1 < c.total() as usize {
            return Ok(Prepared {
                reply: RunReply::Kept,
                change: Change::Keep(number, markers.copy()?),
            });
        }
        let book = c.book_with(alloc, number, markers)?;
        Ok(Prepared {
            reply: RunReply::Finished,
            change: Change::Finish(book),
        })
    }

    /// Prepares the answer to the windows of a cut. The comparison of the snapshots stops at the first difference.
    ///
    /// # Errors
    /// Out of memory for the tiles, or no more copies can be counted.
    pub fn prepare_cut(&self, alloc: Global, answer: &CutAnswer) -> Result<Prepared, AllocError>
        ensures { IfOk result (λ p. IsPrepared p self.now (cut_answered self.now answer.now)) }
    {
        if answer.job().run != self.number {
            return Ok(self.no_change(RunReply::OldRun));
        }
        match &self.phase {
            Phase::Idle => Ok(self.no_change(RunReply::OldRun)),
            Phase::Cutting(planned) => {
                if !is_same_snapshot(&answer.job().snapshot, planned.snapshot()) {
                    return Ok(self.no_change(RunReply::Stranger));
                }
                self.check_begun(alloc, planned, answer)
            }
            Phase::Checking(_) => Ok(self.no_change(RunReply::Double)),
            Phase::Finished(_) => Ok(self.no_change(RunReply::Double)),
        }
    }

    /// Prepares the answer to the windows of the run's own snapshot: the check of its tiles begins.
    fn check_begun(
        &self,
        alloc: Global,
        planned: &Planned,
        answer: &CutAnswer,
    ) -> Result<Prepared, AllocError>
        requires phase { self.now.phase ≡ Cutting planned.now }
        requires snapshot { answer.now.job.snapshot ≡ planned.now.snapshot }
        ensures { IfOk result (λ p. IsPrepared p self.now (begun self.now planned.now answer.now)) }
    {
        self.is_run();
        self.is_counted();
        answer.is_answer();
        let tiles = Tiles::new(alloc, planned.total())?;
        let windows = answer.windows().copy()?;
        Ok(Prepared {
            reply: RunReply::Kept,
            change: Change::Check(windows, tiles),
        })
    }
}

/// The phase after a restart.
fn cut_again(phase: Phase) -> Phase
    ensures { result ≡ restarted_phase phase }
{
    match phase {
        Phase::Checking(c) => Phase::Cutting(c.planned),
        other => other,
    }
}
