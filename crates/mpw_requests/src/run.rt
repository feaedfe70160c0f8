//! The requests of the checking run: what each needs, its line, and its parts.
ghost use Rattle.std.specs.Prelude.{◌≡◌};
ghost use Rattle.mpw_requests.specs.Parts.{seen, parts_of, request_of};
ghost use Rattle.mpw_requests.specs.Run.{run_need};
ghost use Rattle.mpw_requests.specs.Table.{verb_text, verb_shape, has_payload, lists};

use crate::need::{Need, on_desk};
use crate::parts::{Operands, Parts};
use crate::request::Request;
use crate::table::{Form, Shape, Verb, line, listing};
use mpw_permissions::Operation;

/// A request of the run that checks the wafer.
#[derive(Drop)]
pub enum RunRequest {
    /// Begins a new run over the placed cells, with the deck.
    Run,
    /// Cancels the run that is going on.
    Cancel,
    /// Shows how far the run is.
    Status,
    /// Lists the markers of a finished run, as far as the session may read their cells.
    Markers,
}

/// The verb of a request of the run.
#[derive(Clone, Copy)]
pub enum RunVerb {
    Run,
    Cancel,
    Status,
    Markers,
}

/// What a request of the run needs.
pub(crate) fn run_need(request: &RunRequest) -> Need
    ensures { result ≡ run_need request.now }
{
    match request {
        RunRequest::Run | RunRequest::Cancel => on_desk(Operation::Run),
        RunRequest::Status | RunRequest::Markers => Need::Session,
    }
}

/// The form of a verb's line.
#[tactic(auto, unfolding(crate::specs::Table::verb_form, crate::specs::Table::has_payload, crate::specs::Table::lists))]
pub(crate) const fn run_form(verb: RunVerb) -> Form
    ensures word { result.word.now ≡ verb_text (Verb.Run verb) }
    ensures shape { result.shape ≡ verb_shape (Verb.Run verb) }
    ensures payload { result.has_payload ≡ has_payload (Verb.Run verb) }
    ensures lists { result.lists ≡ lists (Verb.Run verb) }
{
    match verb {
        RunVerb::Run => line("run", "", Shape::Alone),
        RunVerb::Cancel => line("cancel", "", Shape::Alone),
        RunVerb::Status => listing("status", "", Shape::Alone),
        RunVerb::Markers => listing("markers", "", Shape::Alone),
    }
}

/// The verb and the operands of a request.
#[tactic(auto, unfolding(crate::specs::Parts::parts_of))]
pub(crate) fn run_parts(request: &RunRequest) -> (RunVerb, Parts<'_>)
    ensures verb { Verb.Run result.0 ≡ (parts_of (Request.Run request.now)).0 }
    ensures operands { seen result.1 ≡ (parts_of (Request.Run request.now)).1 }
{
    match request {
        RunRequest::Run => (RunVerb::Run, Parts::Alone),
        RunRequest::Cancel => (RunVerb::Cancel, Parts::Alone),
        RunRequest::Status => (RunVerb::Status, Parts::Alone),
        RunRequest::Markers => (RunVerb::Markers, Parts::Alone),
    }
}

/// The request of a verb and its operands, if they have the verb's shape.
#[tactic(auto, unfolding(crate::specs::Parts::request_of))]
pub(crate) fn run_request(verb: RunVerb, operands: Operands) -> Option<Request>
    ensures { result ≡ request_of (Verb.Run verb) operands }
{
    match (verb, operands) {
        (RunVerb::Run, Operands::Alone) => Some(Request::Run(RunRequest::Run)),
        (RunVerb::Cancel, Operands::Alone) => Some(Request::Run(RunRequest::Cancel)),
        (RunVerb::Status, Operands::Alone) => Some(Request::Run(RunRequest::Status)),
        (RunVerb::Markers, Operands::Alone) => Some(Request::Run(RunRequest::Markers)),
        _ => None,
    }
}
