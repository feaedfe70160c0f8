//! The change of a run by an event, prepared before anything changes.

ghost use Rattle.std.specs.Prelude.{◌≡◌, ◌<◌, ◌^◌};
ghost use Rattle.mpw_run.specs.declared.prepare.Change.TheVariants as change;
ghost use Rattle.mpw_run.specs.Prepared.{IsCountable, MayTake, next_number, next_phase};
ghost use Rattle.mpw_run.specs.Step.{book_size};

use crate::phase::{Checked, Checks, Phase, Planned, RunReply};
use crate::tiles::Tiles;
use mpw_markers::{Book, TileMarkers};
use mpw_tiles::Windows;

/// A change of a run, with everything that it moves in.
#[derive(Drop)]
pub(crate) enum Change {
    Nothing,
    Start(Planned),
    Check(Windows, Tiles),
    Take(u32),
    Keep(u32, TileMarkers),
    Finish(Book),
}

/// The reply to an event, and the change of the run that it was prepared for.
#[derive(Drop)]
pub struct Prepared {
    /// The reply to the event if the change is made.
    pub reply: RunReply,
    pub(crate) change: Change,
}

/// The number of the run after a change.
pub(crate) fn next_number(change: &Change, number: u32) -> u32
    requires { next_number change.now number < 2 ^ 32 }
    ensures { result ≡ next_number change.now number }
{
    match change {
        Change::Start(_) => number + 1,
        _ => number,
    }
}

/// A check that begins: its windows and its tiles. A phase other than `Cutting` is unchanged.
fn check(phase: Phase, windows: Windows, tiles: Tiles) -> Phase
    ensures { result ≡ next_phase (change.Check windows tiles) phase }
{
    match phase {
        Phase::Cutting(planned) => Phase::Checking(Checks {
            planned,
            windows,
            tiles,
        }),
        other => other,
    }
}

/// The check after a tile was handed out. A phase other than `Checking` is unchanged.
fn take(phase: Phase, tile: u32) -> Phase
    requires { MayTake tile phase }
    ensures { result ≡ next_phase (change.Take tile) phase }
{
    match phase {
        Phase::Checking(c) => {
            let mut c = c;
            if (tile as usize) < c.tiles.as_slice().len() {
                c.tiles.raise(tile);
            }
            Phase::Checking(c)
        }
        other => other,
    }
}

/// The check after a tile was answered. A phase other than `Checking` is unchanged.
fn keep(phase: Phase, tile: u32, markers: TileMarkers) -> Phase
    ensures { result ≡ next_phase (change.Keep tile markers) phase }
{
    match phase {
        Phase::Checking(c) => {
            let mut c = c;
            if (tile as usize) < c.tiles.as_slice().len() {
                c.tiles.keep(tile, markers);
            }
            Phase::Checking(c)
        }
        other => other,
    }
}

/// The run with its book. A phase other than `Checking` is unchanged.
fn finish(phase: Phase, book: Book) -> Phase
    ensures { result ≡ next_phase (change.Finish book) phase }
{
    match phase {
        Phase::Checking(c) => Phase::Finished(Checked {
            planned: c.planned,
            book,
        }),
        other => other,
    }
}

/// The number of markers in the book of a phase: 0 before the run is finished.
fn book_size(phase: &Phase) -> usize
    ensures { result ≡ book_size phase.now }
{
    match phase {
        Phase::Finished(checked) => checked.book.len(),
        _ => 0,
    }
}

/// The number of markers in the book that finishes a run in this phase.
fn finished_size(phase: &Phase, book: &Book) -> usize
    ensures { result ≡ book_size (next_phase (change.Finish book.now) phase.now) }
{
    match phase {
        Phase::Checking(_) => book.len(),
        _ => book_size(phase),
    }
}

/// The number of markers in the book of the phase after a change.
pub(crate) fn next_size(change: &Change, phase: &Phase) -> usize
    ensures { result ≡ book_size (next_phase change.now phase.now) }
{
    match change {
        Change::Start(_) => 0,
        Change::Finish(book) => finished_size(phase, book),
        _ => book_size(phase),
    }
}

/// The phase after a change.
pub(crate) fn next_phase(change: Change, phase: Phase) -> Phase
    requires { IsCountable change phase }
    ensures { result ≡ next_phase change phase }
{
    match change {
        Change::Nothing => phase,
        Change::Start(planned) => Phase::Cutting(planned),
        Change::Check(windows, tiles) => check(phase, windows, tiles),
        Change::Take(tile) => take(phase, tile),
        Change::Keep(tile, markers) => keep(phase, tile, markers),
        Change::Finish(book) => finish(phase, book),
    }
}
