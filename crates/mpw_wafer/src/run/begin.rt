//! The decision table of `run`: what a new run checks.
//!
//! It is a function. It returns its value, or the test that failed, or out of memory. Its parts have the same form.
ghost use Rattle.std.specs.Prelude.{◌≡◌, IfOk, length};
ghost use Rattle.mpw_wafer.specs.Run.Checking as row;
ghost use Rattle.mpw_placings.specs.Placements.{ArePlacings, roots_of};
ghost use Rattle.mpw_replies.specs.Rows.{Answers, needed};
ghost use Rattle.mpw_tiles.specs.Snapshots.{AreRoots, shown};

use mpw_deck::Deck;
use mpw_hier::Shelf;
use mpw_placings::{Placings, Wafer};
use mpw_replies::Fault;
use mpw_run::{Phase, Planned, Run};
use mpw_tiles::Snapshot;
use mpw_trail::Code;
use mpw_walk::roots_show_what_their_submissions_do;
use std::alloc::{AllocError, Global};

/// No run is going on.
fn rest(phase: &Phase) -> Result<(), Fault<Code>>
    ensures { Answers (λ x. x) result (row.at_rest phase.now) }
{
    match phase {
        Phase::Idle => Ok(()),
        Phase::Cutting(_) => Err(Fault::Told(Code::Running)),
        Phase::Checking(_) => Err(Fault::Told(Code::Running)),
        Phase::Finished(_) => Ok(()),
    }
}

/// The deck, if there is one.
fn deck(deck: &Option<Deck>) -> Result<Deck, Fault<Code>>
    ensures { Answers (λ deck. deck) result (needed Code.NoDeck deck.now) }
{
    match deck {
        Some(deck) => Ok(deck.copy()?),
        None => Err(Fault::Told(Code::NoDeck)),
    }
}

/// The snapshot of a run over the placements.
fn snapshot(
    alloc: Global,
    deck: Deck,
    placings: &Placings,
    shelf: &Shelf,
) -> Result<Snapshot, AllocError>
    requires { AreRoots shelf.now (roots_of placings.now) }
    ensures { IfOk result (λ snapshot. snapshot ≡ row.snapshot_of deck placings.now shelf.now) }
{
    let roots = placings.roots(alloc)?;
    let shelf = shelf.copy(alloc)?;
    Snapshot::new(alloc, deck, roots, shelf)
}

/// The number of shapes of a snapshot.
fn shape_count(snapshot: &Snapshot) -> u64
    ensures { result ≡ length (shown snapshot.now) }
{
    roots_show_what_their_submissions_do();
    snapshot.is_snapshot();
    let mut count = 0u64;
    for root in snapshot.roots() {
        count += snapshot.shelf().count(root.submission);
    }
    count
}

/// The snapshot with the plan of its tiles. Linear in its roots and rules.
fn plan(snapshot: Snapshot) -> Result<Planned, Fault<Code>>
    ensures { Answers (λ planned. planned) result (row.planning snapshot) }
{
    if shape_count(&snapshot) == 0 {
        return Err(Fault::Told(Code::Empty));
    }
    match Planned::of(snapshot) {
        Some(planned) => {
            planned.is_planned();
            Ok(planned)
        }
        None => Err(Fault::Told(Code::Tiles)),
    }
}

/// What a new run checks, with the plan of its tiles. Linear in the placements and the deck's rules.
#[tactic(auto, unfolding(crate::specs::Run::Checking::run_row))]
pub(crate) fn begin(
    alloc: Global,
    shelf: &Shelf,
    wafer: &Wafer,
    run: &Run,
) -> Result<Planned, Fault<Code>>
    requires { ArePlacings shelf.now wafer.now.placings }
    ensures { Answers (λ planned. planned) result (row.run_row shelf.now wafer.now run.now) }
{
    rest(run.phase())?;
    let deck = deck(&wafer.deck)?;
    let snapshot = snapshot(alloc, deck, &wafer.placings, shelf)?;
    plan(snapshot)
}
