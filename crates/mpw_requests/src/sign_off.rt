//! The sign-off requests for a finished run: what each needs, its line, and its parts.
ghost use Rattle.std.specs.Prelude.{◌≡◌};
ghost use Rattle.mpw_requests.specs.Parts.{seen, parts_of, request_of};
ghost use Rattle.mpw_requests.specs.SignOff.{sign_off_need};
ghost use Rattle.mpw_requests.specs.Table.{verb_text, verb_shape, has_payload, lists};

use crate::need::{Need, on_desk};
use crate::parts::{Operands, Parts};
use crate::request::Request;
use crate::table::{Form, Shape, Verb, line, listing};
use mpw_edges::Piece;
use mpw_geom::Name;
use mpw_permissions::Operation;

/// A marker as a request names it: the name of its rule, and its run of rows. The side is 0 or 1. The coordinates are in nm, from -2^30 to 2^30,
/// and need not be in order.
pub struct MarkerName {
    /// 1 to 255 bytes from 21 to 7E hex. No deck has a rule with a colon in its name.
    pub rule: Name,
    /// The edges and the rows.
    pub piece: Piece,
}

impl Drop for MarkerName {
    fn drop(self) {
        let MarkerName { rule, piece: _ } = self;
        drop(rule);
    }
}

/// A request about the waivers of a finished run's markers.
pub enum SignOffRequest {
    /// Asks for a waiver of a marker.
    Waive { marker: MarkerName },
    /// Signs the waiver of a marker.
    Sign { marker: MarkerName },
    /// Lists who asked for waivers of the markers that are full for the session, and who signed them.
    Waivers,
    /// Shows whether each marker has a signed waiver.
    Verdict,
}

impl Drop for SignOffRequest {
    fn drop(self) {
        match self {
            SignOffRequest::Waive { marker } => drop(marker),
            SignOffRequest::Sign { marker } => drop(marker),
            SignOffRequest::Waivers | SignOffRequest::Verdict => {}
        }
    }
}

/// The verb of a sign-off request.
#[derive(Clone, Copy)]
pub enum SignOffVerb {
    Waive,
    Sign,
    Waivers,
    Verdict,
}

/// What a sign-off request needs.
pub(crate) fn sign_off_need(request: &SignOffRequest) -> Need
    ensures { result ≡ sign_off_need request.now }
{
    match request {
        SignOffRequest::Waive { .. } => on_desk(Operation::Waive),
        SignOffRequest::Sign { .. } => on_desk(Operation::Sign),
        SignOffRequest::Waivers => Need::Session,
        SignOffRequest::Verdict => on_desk(Operation::Verdict),
    }
}

/// The form of a verb's line.
#[tactic(auto, unfolding(crate::specs::Table::verb_form, crate::specs::Table::has_payload, crate::specs::Table::lists))]
pub(crate) const fn sign_off_form(verb: SignOffVerb) -> Form
    ensures word { result.word.now ≡ verb_text (Verb.SignOff verb) }
    ensures shape { result.shape ≡ verb_shape (Verb.SignOff verb) }
    ensures payload { result.has_payload ≡ has_payload (Verb.SignOff verb) }
    ensures lists { result.lists ≡ lists (Verb.SignOff verb) }
{
    match verb {
        SignOffVerb::Waive => line("waive", " key", Shape::Key),
        SignOffVerb::Sign => line("sign", " key", Shape::Key),
        SignOffVerb::Waivers => listing("waivers", "", Shape::Alone),
        SignOffVerb::Verdict => listing("verdict", "", Shape::Alone),
    }
}

/// The verb and the operands of a request.
#[tactic(auto, unfolding(crate::specs::Parts::parts_of))]
pub(crate) fn sign_off_parts(request: &SignOffRequest) -> (SignOffVerb, Parts<'_>)
    ensures verb { Verb.SignOff result.0 ≡ (parts_of (Request.SignOff request.now)).0 }
    ensures operands { seen result.1 ≡ (parts_of (Request.SignOff request.now)).1 }
{
    match request {
        SignOffRequest::Waive { marker } => (SignOffVerb::Waive, Parts::Key(marker)),
        SignOffRequest::Sign { marker } => (SignOffVerb::Sign, Parts::Key(marker)),
        SignOffRequest::Waivers => (SignOffVerb::Waivers, Parts::Alone),
        SignOffRequest::Verdict => (SignOffVerb::Verdict, Parts::Alone),
    }
}

/// The request of a verb and its operands, if they have the verb's shape.
#[tactic(auto, unfolding(crate::specs::Parts::request_of))]
pub(crate) fn sign_off_request(verb: SignOffVerb, operands: Operands) -> Option<Request>
    ensures { result ≡ request_of (Verb.SignOff verb) operands }
{
    match (verb, operands) {
        (SignOffVerb::Waive, Operands::Key(marker)) => {
            Some(Request::SignOff(SignOffRequest::Waive { marker }))
        }
        (SignOffVerb::Sign, Operands::Key(marker)) => {
            Some(Request::SignOff(SignOffRequest::Sign { marker }))
        }
        (SignOffVerb::Waivers, Operands::Alone) => Some(Request::SignOff(SignOffRequest::Waivers)),
        (SignOffVerb::Verdict, Operands::Alone) => Some(Request::SignOff(SignOffRequest::Verdict)),
        _ => None,
    }
}
