//! The decision tables of `place`, `unplace` and `deck`.
//!
//! Each is a function. It returns its value, or the test that failed, or out of memory.
ghost use Rattle.std.specs.Prelude.{◌≡◌};
ghost use Rattle.mpw_deck.specs.Reading.{deck_of};
ghost use Rattle.mpw_wafer.specs.Internal.Answers.{fault_of};
ghost use Rattle.mpw_wafer.specs.Wafers as row;
ghost use Rattle.mpw_replies.specs.Rows.{Answers};

use mpw_deck::{Deck, DeckError, DeckText};
use mpw_geom::{Name, Placing};
use mpw_hier::Shelf;
use mpw_placings::{PlacingFault, Placings};
use mpw_replies::Fault;
use mpw_trail::Code;
use std::alloc::Global;

/// The fault of a decision table for a refused placement.
fn fault_of(fault: PlacingFault) -> Fault<Code>
    ensures { result ≡ fault_of fault }
{
    match fault {
        PlacingFault::NoCell => Fault::Told(Code::NoCell),
        PlacingFault::Known => Fault::Told(Code::Known),
        PlacingFault::Extent => Fault::Told(Code::Extent),
        PlacingFault::Shapes => Fault::Told(Code::Shapes),
        PlacingFault::Full => Fault::Told(Code::Full),
        PlacingFault::Unknown => Fault::Told(Code::Unknown),
        PlacingFault::Memory => Fault::Memory,
    }
}

/// The placements with the cell's present submission under that label. Linear in the placements.
pub(crate) fn place(
    alloc: Global,
    shelf: &Shelf,
    placings: &Placings,
    cell: &Name,
    label: &Name,
    placing: Placing,
) -> Result<Placings, Fault<Code>>
    ensures { Answers (λ placings. placings) result (row.place_row shelf.now placings.now cell.now label.now placing) }
{
    match placings.place(alloc, shelf, cell, label, placing) {
        Ok(placings) => Ok(placings),
        Err(fault) => Err(fault_of(fault)),
    }
}

/// The placements without that of the cell under that label. Linear in the placements.
pub(crate) fn unplace(
    alloc: Global,
    placings: &Placings,
    cell: &Name,
    label: &Name,
) -> Result<Placings, Fault<Code>>
    ensures { Answers (λ placings. placings) result (row.unplace_row placings.now cell.now label.now) }
{
    match placings.unplace(alloc, cell, label) {
        Ok(placings) => Ok(placings),
        Err(fault) => Err(fault_of(fault)),
    }
}

/// The deck in a text. Constant time if it was read already.
pub(crate) fn deck(alloc: Global, text: &DeckText) -> Result<Deck, Fault<Code>>
    ensures { Answers (λ deck. deck) result (row.deck_row (deck_of text.now)) }
{
    match text.deck(alloc) {
        Ok(deck) => Ok(deck),
        Err(DeckError::Fault(fault)) => Err(Fault::Told(Code::Deck(fault))),
        Err(DeckError::Memory) => Err(Fault::Memory),
    }
}
