//! The requests of the layouts: what each needs, its line, and its parts.
ghost use Rattle.std.specs.Prelude.{◌≡◌, IfOk};
ghost use Rattle.mpw_requests.specs.Layouts.{layout_need};
ghost use Rattle.mpw_requests.specs.Parts.{seen, parts_of, request_of};
ghost use Rattle.mpw_requests.specs.Table.{verb_text, verb_shape, has_payload, lists};

use crate::need::{Need, on_cell};
use crate::parts::{Operands, Parts};
use crate::request::Request;
use crate::table::{Form, Shape, Verb, listing, upload};
use mpw_geom::Name;
use mpw_library::LibraryText;
use mpw_permissions::Operation;
use std::alloc::AllocError;

/// A request of the layouts: the submissions of cells.
pub enum LayoutRequest {
    /// Submits a cell's library, with the structure that is the cell's top.
    Submit {
        cell: Name,
        top: Name,
        text: LibraryText,
    },
    /// Lists the cells that the session may read.
    Cells,
    /// Lists the shapes of a cell's present submission, without those of cells that the session may not read.
    Shapes {
        cell: Name,
    },
}

impl Drop for LayoutRequest {
    fn drop(self) {
        match self {
            LayoutRequest::Submit { cell, top, text } => {
                drop(cell);
                drop(top);
                drop(text);
            }
            LayoutRequest::Shapes { cell } => drop(cell),
            LayoutRequest::Cells => {}
        }
    }
}

/// The verb of a request of the layouts.
#[derive(Clone, Copy)]
pub enum LayoutVerb {
    Submit,
    Cells,
    Shapes,
}

/// What a request of the layouts needs.
pub(crate) fn layout_need(request: &LayoutRequest) -> Result<Need, AllocError>
    ensures { IfOk result (λ need. need ≡ layout_need request.now) }
{
    match request {
        LayoutRequest::Submit { cell, .. } => on_cell(Operation::Submit, cell),
        LayoutRequest::Cells => Ok(Need::Session),
        LayoutRequest::Shapes { cell } => on_cell(Operation::Read, cell),
    }
}

/// The form of a verb's line.
#[tactic(auto, unfolding(crate::specs::Table::verb_form, crate::specs::Table::has_payload, crate::specs::Table::lists))]
pub(crate) const fn layout_form(verb: LayoutVerb) -> Form
    ensures word { result.word.now ≡ verb_text (Verb.Layout verb) }
    ensures shape { result.shape ≡ verb_shape (Verb.Layout verb) }
    ensures payload { result.has_payload ≡ has_payload (Verb.Layout verb) }
    ensures lists { result.lists ≡ lists (Verb.Layout verb) }
{
    match verb {
        LayoutVerb::Submit => upload("submit", " cell top length", Shape::Pair),
        LayoutVerb::Cells => listing("cells", "", Shape::Alone),
        LayoutVerb::Shapes => listing("shapes", " cell", Shape::Name),
    }
}

/// The verb and the operands of a request.
#[tactic(auto, unfolding(crate::specs::Parts::parts_of))]
pub(crate) fn layout_parts(request: &LayoutRequest) -> (LayoutVerb, Parts<'_>)
    ensures verb { Verb.Layout result.0 ≡ (parts_of (Request.Layout request.now)).0 }
    ensures operands { seen result.1 ≡ (parts_of (Request.Layout request.now)).1 }
{
    match request {
        LayoutRequest::Submit { cell, top, .. } => (LayoutVerb::Submit, Parts::Pair(cell, top)),
        LayoutRequest::Cells => (LayoutVerb::Cells, Parts::Alone),
        LayoutRequest::Shapes { cell } => (LayoutVerb::Shapes, Parts::Name(cell)),
    }
}

/// The request of a verb and its operands, if they have the verb's shape and no payload follows.
#[tactic(auto, unfolding(crate::specs::Parts::request_of))]
pub(crate) fn layout_request(verb: LayoutVerb, operands: Operands) -> Option<Request>
    ensures { result ≡ request_of (Verb.Layout verb) operands }
{
    match (verb, operands) {
        (LayoutVerb::Cells, Operands::Alone) => Some(Request::Layout(LayoutRequest::Cells)),
        (LayoutVerb::Shapes, Operands::Name(cell)) => {
            Some(Request::Layout(LayoutRequest::Shapes { cell }))
        }
        _ => None,
    }
}
