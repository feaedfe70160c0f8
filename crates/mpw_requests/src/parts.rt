//! The parts of a request: its verb, its operands and its payload. The file of each group has those of its requests.
//!
//! [`parts_of`] takes a request apart by borrowing, so that what writes it copies nothing. [`request_of`] and [`Upload::with`] put it together again.
ghost use Rattle.std.specs.Prelude.{◌≡◌, Some, option_map, IfOk};
ghost use Rattle.mpw_requests.specs.Parts.{seen, parts_of, payload_of, request_of, upload_of, uploaded, RequestsHaveTheirParts};

use crate::layouts::{LayoutRequest, LayoutVerb, layout_parts, layout_request};
use crate::policy::{Digest, policy_parts, policy_request};
use crate::request::Request;
use crate::run::{run_parts, run_request};
use crate::sign_off::{MarkerName, sign_off_parts, sign_off_request};
use crate::table::Verb;
use crate::wafer::{WaferRequest, WaferVerb, wafer_parts, wafer_request};
use mpw_deck::DeckText;
use mpw_geom::{Name, Placing};
use mpw_library::LibraryText;
use mpw_permissions::Grant;
use mpw_separation::SeparationSet;
use std::alloc::{AllocError, Global};

/// The operands of a request, as they are read.
#[derive(Drop)]
pub enum Operands {
    Alone,
    Name(Name),
    Pair(Name, Name),
    Login(Name, Digest),
    Grant(Grant),
    Set(SeparationSet),
    Placement(Name, Name, Placing),
    Key(MarkerName),
}

/// The operands of a request, as they are written: borrowed from the request.
#[derive(Clone, Copy)]
pub enum Parts<'a> {
    Alone,
    Name(&'a Name),
    Pair(&'a Name, &'a Name),
    Login(&'a Name, &'a Digest),
    Grant(&'a Grant),
    Set(&'a SeparationSet),
    Placement(&'a Name, &'a Name, &'a Placing),
    Key(&'a MarkerName),
}

/// A request without its payload, which comes after its line.
#[derive(Drop)]
pub enum Upload {
    /// Submits a cell's library, with the structure that is the cell's top.
    Library { cell: Name, top: Name },
    /// Replaces the deck.
    Deck,
}

/// The verb and the operands of a request. It takes no memory.
#[tactic(auto, unfolding(crate::specs::Parts::parts_of))]
pub fn parts_of(request: &Request) -> (Verb, Parts<'_>)
    ensures verb { result.0 ≡ (parts_of request.now).0 }
    ensures operands { seen result.1 ≡ (parts_of request.now).1 }
{
    match request {
        Request::Policy(request) => {
            let (verb, operands) = policy_parts(request);
            (Verb::Policy(verb), operands)
        }
        Request::Whoami => (Verb::Whoami, Parts::Alone),
        Request::Layout(request) => {
            let (verb, operands) = layout_parts(request);
            (Verb::Layout(verb), operands)
        }
        Request::Wafer(request) => {
            let (verb, operands) = wafer_parts(request);
            (Verb::Wafer(verb), operands)
        }
        Request::Run(request) => {
            let (verb, operands) = run_parts(request);
            (Verb::Run(verb), operands)
        }
        Request::SignOff(request) => {
            let (verb, operands) = sign_off_parts(request);
            (Verb::SignOff(verb), operands)
        }
        Request::Trail => (Verb::Trail, Parts::Alone),
    }
}

/// The payload of a request: the bytes that it submits, or those of its deck.
#[tactic(auto, unfolding(crate::specs::Parts::payload_of))]
pub fn payload_of(request: &Request) -> Option<&[u8]>
    ensures { option_map (λ bytes. bytes.now) result ≡ payload_of request.now }
{
    match request {
        Request::Layout(LayoutRequest::Submit { text, .. }) => Some(text.as_bytes()),
        Request::Wafer(WaferRequest::Deck { text }) => Some(text.as_bytes()),
        _ => None,
    }
}

/// The request of a verb and its operands, and `None` exactly if they are no request's, or a payload follows. It takes no memory.
#[tactic(auto, unfolding(crate::specs::Parts::request_of))]
pub fn request_of(verb: Verb, operands: Operands) -> Option<Request>
    ensures { result ≡ request_of verb operands }
{
    match (verb, operands) {
        (Verb::Policy(verb), operands) => policy_request(verb, operands),
        (Verb::Whoami, Operands::Alone) => Some(Request::Whoami),
        (Verb::Layout(verb), operands) => layout_request(verb, operands),
        (Verb::Wafer(verb), operands) => wafer_request(verb, operands),
        (Verb::Run(verb), operands) => run_request(verb, operands),
        (Verb::SignOff(verb), operands) => sign_off_request(verb, operands),
        (Verb::Trail, Operands::Alone) => Some(Request::Trail),
        _ => None,
    }
}

/// The upload of a verb and its operands, and `None` exactly if they are no upload's. It takes no memory.
#[tactic(auto, unfolding(crate::specs::Parts::upload_of))]
pub fn upload_of(verb: Verb, operands: Operands) -> Option<Upload>
    ensures { result ≡ upload_of verb operands }
{
    match (verb, operands) {
        (Verb::Layout(LayoutVerb::Submit), Operands::Pair(cell, top)) => {
            Some(Upload::Library { cell, top })
        }
        (Verb::Wafer(WaferVerb::Deck), Operands::Alone) => Some(Upload::Deck),
        _ => None,
    }
}

impl Upload {
    /// The request of the upload with these bytes. Cost: reading the library, or the deck.
    ///
    /// # Errors
    /// Out of memory.
    pub fn with(self, alloc: Global, payload: Vec<u8>) -> Result<Request, AllocError>
        ensures { IfOk result (λ request. request ≡ uploaded self payload.items) }
    {
        match self {
            Upload::Library { cell, top } => {
                let text = LibraryText::read(alloc, payload)?;
                Ok(Request::Layout(LayoutRequest::Submit { cell, top, text }))
            }
            Upload::Deck => {
                let text = DeckText::read(alloc, payload)?;
                Ok(Request::Wafer(WaferRequest::Deck { text }))
            }
        }
    }
}

/// A verb, operands and a payload make a request exactly if they are its parts. A law: the function does nothing.
pub fn requests_have_their_parts()
    ensures { RequestsHaveTheirParts }
{}
