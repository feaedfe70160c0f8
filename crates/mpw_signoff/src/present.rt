//! Whether the present deck and placements are those that a run checked.
ghost use Rattle.std.specs.Prelude.{◌≡◌, IfOk};
ghost use Rattle.mpw_run.specs.Same.{same_snapshot};
ghost use Rattle.mpw_signoff.specs.SigningOff.{is_present};

use mpw_deck::Deck;
use mpw_placings::Wafer;
use mpw_run::tests_are_exact;
use mpw_tiles::Snapshot;
use mpw_walk::Root;
use std::alloc::{AllocError, Global};

/// Whether the deck and the roots are the snapshot's.
fn is_of(snapshot: &Snapshot, deck: &Deck, roots: &[Root]) -> bool
    ensures { result ≡ same_snapshot (record { deck = deck.now; roots = roots.now; shelf = snapshot.now.shelf }) snapshot.now }
{
    tests_are_exact();
    deck.is_same(snapshot.deck()) & snapshot.has_roots(roots)
}

/// Whether the present deck and placements are the snapshot's, by value and in order. Labels of placements don't count. Linear in the
/// placements and the rules.
///
/// # Errors
/// Out of memory for the placements' roots.
pub(crate) fn is_present(
    alloc: Global,
    wafer: &Wafer,
    snapshot: &Snapshot,
) -> Result<bool, AllocError>
    ensures { IfOk result (λ present. present ≡ is_present wafer.now snapshot.now) }
{
    let Some(deck) = &wafer.deck else {
        return Ok(false);
    };
    let roots = wafer.placings.roots(alloc)?;
    Ok(is_of(snapshot, deck, &roots))
}
