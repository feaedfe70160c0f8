//! The decision tables of `waive` and `sign`, and the lines of `waivers` and `verdict`.
//!
//! Each is a function. It returns its value, or the test that failed, or out of memory. Its parts have the same form.
ghost use Rattle.std.specs.Prelude.{◌≡◌, IfOk, is_some, map, true};
ghost use Rattle.mpw_rbac.specs.Policy.{session_of};
ghost use Rattle.mpw_replies.specs.Listing.{stored};
ghost use Rattle.mpw_replies.specs.Rows.{Answers};
ghost use Rattle.mpw_signoff.specs.Internal.Named.{seen_named};
ghost use Rattle.mpw_signoff.specs.SigningOff as row;
ghost use Rattle.mpw_waiver.specs.Waivers.{unsigned};

use crate::ending::SignOffEnding;
use crate::lines::waiver_lines;
use crate::named::{Named, named_in};
use crate::present::is_present;
use crate::sight::is_shown;
use mpw_access::{seen_by, session_user};
use mpw_geom::Name;
use mpw_placings::Wafer;
use mpw_rbac::Policy;
use mpw_replies::{Fault, Line, Lines, need};
use mpw_requests::MarkerName;
use mpw_run::{Checked, Run};
use mpw_trail::Code;
use mpw_waiver::{WaiverFault, Waivers};
use std::alloc::{AllocError, Global};

/// A user, with the index of the marker whose waiver the user asks for or signs.
#[derive(Drop)]
pub struct ByUser {
    /// The marker's index in the run's book, from 0.
    pub place: usize,
    /// The session's user.
    pub user: Name,
}

/// The change of the waivers by a request.
#[derive(Drop)]
pub enum WaiverChange {
    /// The user asked for a waiver of the marker.
    Asked(ByUser),
    /// The user signed the waiver of the marker.
    Signed(ByUser),
}

/// The fault of a refusal.
fn refused(code: Code) -> Fault<SignOffEnding>
    ensures { result ≡ Fault.Told (SignOffEnding.Refused code) }
{
    Fault::Told(SignOffEnding::Refused(code))
}

/// The findings of a finished run.
pub(crate) fn finished(run: &Run) -> Result<&Checked, Fault<SignOffEnding>>
    ensures { Answers (λ checked. checked.now) result (row.finished run.now) }
{
    need(
        run.phase().findings(),
        SignOffEnding::Refused(Code::NotFinished),
    )
}

/// The named marker, if it is full. Cost: a look-up for each submission that it touches.
#[tactic(auto, unfolding(crate::specs::SigningOff::full_marker))]
fn full_marker<'a>(
    policy: &Policy,
    connection: u32,
    checked: &'a Checked,
    name: &MarkerName,
) -> Result<Named<'a>, Fault<SignOffEnding>>
    ensures { Answers seen_named result (row.full_marker policy.now connection checked.now name.now) }
{
    let snapshot = checked.planned.snapshot();
    let Some(named) = named_in(snapshot.deck(), &checked.book, name) else {
        return Err(refused(Code::NoMarker));
    };
    if !is_shown(policy, connection, snapshot.shelf(), named.marker)? {
        return Err(refused(Code::NoMarker));
    }
    Ok(named)
}

/// The test of a waiver passes.
fn passes(told: Result<(), WaiverFault>) -> Result<(), Fault<SignOffEnding>>
    ensures { Answers (λ x. x) result (row.passes told) }
{
    match told {
        Ok(()) => Ok(()),
        Err(WaiverFault::Known) => Err(refused(Code::Known)),
        Err(WaiverFault::NoWaiver) => Err(refused(Code::NoWaiver)),
        Err(WaiverFault::Submitter(cell)) => Err(Fault::Told(SignOffEnding::Submitter(cell))),
        Err(WaiverFault::Asker) => Err(Fault::Told(SignOffEnding::Asker)),
    }
}

/// The user who asks for a waiver, with the marker's index. Cost: that of [`full_marker`].
#[tactic(auto, unfolding(crate::specs::SigningOff::waive_row))]
pub(crate) fn waive(
    policy: &Policy,
    run: &Run,
    waivers: &Waivers,
    connection: u32,
    marker: &MarkerName,
) -> Result<ByUser, Fault<SignOffEnding>>
    requires session { is_some (session_of policy.now connection) ≡ true }
    ensures { Answers (λ by. by) result (row.waive_row policy.now run.now waivers.now connection marker.now) }
{
    let checked = finished(run)?;
    let place = full_marker(policy, connection, checked, marker)?.place;
    passes(waivers.may_ask(place))?;
    let user = session_user(policy, connection).copy()?;
    Ok(ByUser { place, user })
}

/// The user passes the test of separation for the waiver of the marker.
fn is_apart(
    checked: &Checked,
    waivers: &Waivers,
    named: &Named<'_>,
    user: &Name,
) -> Result<(), Fault<SignOffEnding>>
    ensures { Answers (λ x. x) result (row.apart checked.now waivers.now (seen_named named.now) user.now) }
{
    let shelf = checked.planned.snapshot().shelf();
    let met = named.marker.met.as_slice();
    passes(waivers.may_sign(named.place, shelf, met, user)?)
}

/// The user who signs a waiver, with the marker's index. Cost: that of [`full_marker`], and a pass over the marker's touched submissions.
#[tactic(auto, unfolding(crate::specs::SigningOff::sign_row))]
pub(crate) fn sign(
    policy: &Policy,
    run: &Run,
    waivers: &Waivers,
    connection: u32,
    marker: &MarkerName,
) -> Result<ByUser, Fault<SignOffEnding>>
    requires session { is_some (session_of policy.now connection) ≡ true }
    ensures { Answers (λ by. by) result (row.sign_row policy.now run.now waivers.now connection marker.now) }
{
    let checked = finished(run)?;
    let named = full_marker(policy, connection, checked, marker)?;
    let user = session_user(policy, connection);
    is_apart(checked, waivers, &named, user)?;
    Ok(ByUser {
        place: named.place,
        user: user.copy()?,
    })
}

/// The lines of the waivers of a finished run's markers that are full for the session. Cost: a look-up for each submission on the run's shelf,
/// and a pass over the book.
pub(crate) fn session_lines(
    alloc: Global,
    policy: &Policy,
    connection: u32,
    checked: &Checked,
    waivers: &Waivers,
) -> Result<Lines, AllocError>
    ensures { IfOk result (λ lines. lines ≡ map stored (row.waiver_lines policy.now connection checked.now waivers.now)) }
{
    let snapshot = checked.planned.snapshot();
    let seen = seen_by(alloc, policy, connection, snapshot.shelf().submissions())?;
    let rules = snapshot.deck().rules().as_slice();
    let lines = waiver_lines(alloc, rules, &seen, checked.book.as_slice(), waivers)?;
    Lines::from_vec(alloc, lines)
}

/// The line of a verdict.
fn verdict_line(present: bool, waivers: &Waivers) -> Line
    ensures { result ≡ row.verdict_line present (unsigned waivers.now) }
{
    if !present {
        return Line::Stale;
    }
    match waivers.count_unsigned() {
        0 => Line::Clean,
        number => Line::Open(number),
    }
}

/// The verdict of a finished run. Linear in the placings, the rules and the markers.
pub(crate) fn verdict_of(
    alloc: Global,
    wafer: &Wafer,
    waivers: &Waivers,
    checked: &Checked,
) -> Result<Line, AllocError>
    ensures { IfOk result (λ line. line ≡ row.verdict_of wafer.now waivers.now checked.now) }
{
    let present = is_present(alloc, wafer, checked.planned.snapshot())?;
    Ok(verdict_line(present, waivers))
}
