//! The requests of the wafer: what each needs, its line, and its parts.
ghost use Rattle.std.specs.Prelude.{◌≡◌, IfOk};
ghost use Rattle.mpw_requests.specs.Parts.{seen, parts_of, request_of};
ghost use Rattle.mpw_requests.specs.Table.{verb_text, verb_shape, has_payload, lists};
ghost use Rattle.mpw_requests.specs.Wafer.{wafer_need};

use crate::need::{Need, on_cell, on_desk};
use crate::parts::{Operands, Parts};
use crate::request::Request;
use crate::table::{Form, Shape, Verb, line, upload};
use mpw_deck::DeckText;
use mpw_geom::{Name, Placing};
use mpw_permissions::Operation;
use std::alloc::AllocError;

/// A request of the wafer: the cells that are placed on it, and the rules that it is checked by.
pub enum WaferRequest {
    /// Places a cell's present submission under a label.
    Place {
        cell: Name,
        label: Name,
        placing: Placing,
    },
    /// Removes the placement of a cell under a label.
    Unplace {
        cell: Name,
        label: Name,
    },
    /// Replaces the deck with the one in this text.
    Deck {
        text: DeckText,
    },
}

impl Drop for WaferRequest {
    fn drop(self) {
        match self {
            WaferRequest::Place {
                cell,
                label,
                placing: _,
            } => {
                drop(cell);
                drop(label);
            }
            WaferRequest::Unplace { cell, label } => {
                drop(cell);
                drop(label);
            }
            WaferRequest::Deck { text } => drop(text),
        }
    }
}

/// The verb of a request of the wafer.
#[derive(Clone, Copy)]
pub enum WaferVerb {
    Place,
    Unplace,
    Deck,
}

/// What a request of the wafer needs.
pub(crate) fn wafer_need(request: &WaferRequest) -> Result<Need, AllocError>
    ensures { IfOk result (λ need. need ≡ wafer_need request.now) }
{
    match request {
        WaferRequest::Place { cell, .. } | WaferRequest::Unplace { cell, .. } => {
            on_cell(Operation::Place, cell)
        }
        WaferRequest::Deck { .. } => Ok(on_desk(Operation::Deck)),
    }
}

/// The form of a verb's line.
#[tactic(auto, unfolding(crate::specs::Table::verb_form, crate::specs::Table::has_payload, crate::specs::Table::lists))]
pub(crate) const fn wafer_form(verb: WaferVerb) -> Form
    ensures word { result.word.now ≡ verb_text (Verb.Wafer verb) }
    ensures shape { result.shape ≡ verb_shape (Verb.Wafer verb) }
    ensures payload { result.has_payload ≡ has_payload (Verb.Wafer verb) }
    ensures lists { result.lists ≡ lists (Verb.Wafer verb) }
{
    match verb {
        WaferVerb::Place => line("place", " cell label orientation x y", Shape::Placement),
        WaferVerb::Unplace => line("unplace", " cell label", Shape::Pair),
        WaferVerb::Deck => upload("deck", " length", Shape::Alone),
    }
}

/// The verb and the operands of a request.
#[tactic(auto, unfolding(crate::specs::Parts::parts_of))]
pub(crate) fn wafer_parts(request: &WaferRequest) -> (WaferVerb, Parts<'_>)
    ensures verb { Verb.Wafer result.0 ≡ (parts_of (Request.Wafer request.now)).0 }
    ensures operands { seen result.1 ≡ (parts_of (Request.Wafer request.now)).1 }
{
    match request {
        WaferRequest::Place {
            cell,
            label,
            placing,
        } => (WaferVerb::Place, Parts::Placement(cell, label, placing)),
        WaferRequest::Unplace { cell, label } => (WaferVerb::Unplace, Parts::Pair(cell, label)),
        WaferRequest::Deck { .. } => (WaferVerb::Deck, Parts::Alone),
    }
}

/// The request of a verb and its operands, if they have the verb's shape and no payload follows.
#[tactic(auto, unfolding(crate::specs::Parts::request_of))]
pub(crate) fn wafer_request(verb: WaferVerb, operands: Operands) -> Option<Request>
    ensures { result ≡ request_of (Verb.Wafer verb) operands }
{
    match (verb, operands) {
        (WaferVerb::Place, Operands::Placement(cell, label, placing)) => Some(Request::Wafer(
            WaferRequest::Place {
                cell,
                label,
                placing,
            },
        )),
        (WaferVerb::Unplace, Operands::Pair(cell, label)) => {
            Some(Request::Wafer(WaferRequest::Unplace { cell, label }))
        }
        _ => None,
    }
}
