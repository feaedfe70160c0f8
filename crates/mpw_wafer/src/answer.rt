//! The answers to requests of the wafer.
ghost use Rattle.std.specs.Prelude.{◌≡◌, [], Some, IfOk, map};
ghost use Rattle.mpw_placings.specs.Placements.{version_at};
ghost use Rattle.mpw_replies.specs.Listing.{stored};
ghost use Rattle.mpw_replies.specs.Rows.{Answers};
ghost use Rattle.mpw_wafer.specs.Wafers.{row_of, version_lines};

use crate::rows::{deck, place, unplace};
use mpw_deck::Deck;
use mpw_geom::Name;
use mpw_hier::Shelf;
use mpw_placings::{Placings, Wafer};
use mpw_replies::{Done, Fault, Line, Lines};
use mpw_requests::WaferRequest;
use mpw_trail::Code;
use std::alloc::{AllocError, Global};

/// The line of the placed version, if there is one.
fn version_lines(
    alloc: Global,
    placings: &Placings,
    shelf: &Shelf,
    cell: &Name,
    label: &Name,
) -> Result<Lines, AllocError>
    ensures { IfOk result (λ lines. lines ≡ map stored (version_lines (version_at shelf.now placings.now cell.now label.now))) }
{
    match placings.version(shelf, cell, label) {
        Some(version) => Lines::of_line(alloc, Line::Version(version)),
        None => Ok(Lines::none()),
    }
}

/// The wafer with these placements, and the lines of the reply.
fn with_placings(wafer: &Wafer, placings: Placings, lines: Lines) -> Result<Done<Wafer>, AllocError>
    ensures { IfOk result (λ done. done ≡ Done.Changes (record wafer.now { placings = placings }) lines) }
{
    let part = wafer.with_placings(placings)?;
    Ok(Done::Changes { part, lines })
}

/// The wafer with that deck. The reply has no lines.
fn with_deck(wafer: &Wafer, deck: Deck) -> Result<Done<Wafer>, AllocError>
    ensures { IfOk result (λ done. done ≡ Done.Changes (record wafer.now { deck = Some deck }) []) }
{
    let placings = wafer.placings.copy()?;
    Ok(Done::Changes {
        part: Wafer {
            placings,
            deck: Some(deck),
        },
        lines: Lines::none(),
    })
}

/// What a request of the wafer changes: the new wafer. Linear in the placements, or constant time for a deck that was read.
///
/// # Errors
/// The refusal of the first test that fails, or out of memory.
pub fn answer_request(
    alloc: Global,
    shelf: &Shelf,
    wafer: &Wafer,
    request: &WaferRequest,
) -> Result<Done<Wafer>, Fault<Code>>
    ensures { Answers (λ done. done) result (row_of shelf.now wafer.now request.now) }
{
    let old = &wafer.placings;
    match request {
        WaferRequest::Place {
            cell,
            label,
            placing,
        } => {
            let placings = place(alloc, shelf, old, cell, label, *placing)?;
            let lines = version_lines(alloc, &placings, shelf, cell, label)?;
            Ok(with_placings(wafer, placings, lines)?)
        }
        WaferRequest::Unplace { cell, label } => {
            let placings = unplace(alloc, old, cell, label)?;
            Ok(with_placings(wafer, placings, Lines::none())?)
        }
        WaferRequest::Deck { text } => {
            let deck = deck(alloc, text)?;
            Ok(with_deck(wafer, deck)?)
        }
    }
}
