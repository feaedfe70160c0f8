//! The answers to the sign-off requests.
ghost use Rattle.std.specs.Prelude.{◌≡◌, [], is_some, true};
ghost use Rattle.mpw_rbac.specs.Policy.{session_of};
ghost use Rattle.mpw_replies.specs.Rows.{Answers};
ghost use Rattle.mpw_signoff.specs.SigningOff.{row_of};

use crate::ending::SignOffEnding;
use crate::rows::{WaiverChange, finished, session_lines, sign, verdict_of, waive};
use mpw_placings::Wafer;
use mpw_rbac::Policy;
use mpw_replies::{Done, Fault, Lines};
use mpw_requests::SignOffRequest;
use mpw_run::Run;
use mpw_waiver::Waivers;
use std::alloc::Global;

/// A change of the waivers. The reply has no lines.
fn change(part: WaiverChange) -> Done<WaiverChange>
    ensures { result ≡ Done.Changes part [] }
{
    Done::Changes {
        part,
        lines: Lines::none(),
    }
}

/// What a sign-off request about a finished run's markers lists, or its change of the waivers. Cost of `waive` and `sign`: a comparison for
/// each of the deck's rules, a binary search of the book, and a look-up for each submission that the marker touches. `waivers` costs a
/// look-up for each submission on the run's shelf, and a pass over the book. `verdict` is linear in the placements, the rules and the
/// markers. The guard was passed: the connection has a session.
///
/// # Errors
/// The denial or refusal of the first test that fails, or out of memory.
pub fn answer_request(
    alloc: Global,
    policy: &Policy,
    wafer: &Wafer,
    run: &Run,
    waivers: &Waivers,
    connection: u32,
    request: &SignOffRequest,
) -> Result<Done<WaiverChange>, Fault<SignOffEnding>>
    requires session { is_some (session_of policy.now connection) ≡ true }
    ensures { Answers (λ done. done) result (row_of policy.now wafer.now run.now waivers.now connection request.now) }
{
    match request {
        SignOffRequest::Waive { marker } => {
            let by = waive(policy, run, waivers, connection, marker)?;
            Ok(change(WaiverChange::Asked(by)))
        }
        SignOffRequest::Sign { marker } => {
            let by = sign(policy, run, waivers, connection, marker)?;
            Ok(change(WaiverChange::Signed(by)))
        }
        SignOffRequest::Waivers => {
            let checked = finished(run)?;
            let lines = session_lines(alloc, policy, connection, checked, waivers)?;
            Ok(Done::Lists(lines))
        }
        SignOffRequest::Verdict => {
            let line = verdict_of(alloc, wafer, waivers, finished(run)?)?;
            Ok(Done::Lists(Lines::of_line(alloc, line)?))
        }
    }
}
