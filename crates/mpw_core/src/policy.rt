//! The requests that change the policy, and `whoami`: the result of each one's decision table. The lines of `trail`.
//!
//! A request that changes the policy works on a copy of it. If the request is accepted, the copy replaces the policy.
ghost use Rattle.std.specs.Prelude.{◌≡◌, IfErr, IfOk, OnOk, Ok, is_some, map, true};
ghost use Rattle.mpw_access.specs.Guard.{entered};
ghost use Rattle.mpw_core.specs.Internal.Answer.{ended, fault_of};
ghost use Rattle.mpw_events.specs.PolicyRows.{row_of};
ghost use Rattle.mpw_events.specs.Step.{ending_of, identity_lines, policy_row, whoami_row};
ghost use Rattle.mpw_rbac.specs.Policy.{session_of};
ghost use Rattle.mpw_rbac.specs.Rows.{IsFaultOf};
ghost use Rattle.mpw_replies.specs.Listing.{stored};
ghost use Rattle.mpw_replies.specs.Rows.{Answers};
ghost use Rattle.mpw_replies.specs.Trail.{trail_lines};
ghost use Rattle.mpw_requests.specs.Needs.{policy_need};

use mpw_rbac::{Identity, Policy, PolicyFault, Refusal};
use mpw_replies::{Done, Ending, Fault, Line, Lines};
use mpw_requests::PolicyRequest;
use mpw_trail::{Code, Denial, Trail};
use std::alloc::{AllocError, Global};

/// The denial or refusal for a failed test of the policy.
fn ending_of(refusal: Refusal) -> Ending
    ensures { result ≡ ending_of refusal }
{
    match refusal {
        Refusal::Opened => Ending::Refused(Code::Opened),
        Refusal::Login => Ending::Denied(Denial::Login),
        Refusal::NotAuthorized(role) => Ending::Denied(Denial::Activation(role)),
        Refusal::Ssd(name) => Ending::Denied(Denial::Ssd(name)),
        Refusal::Dsd(name) => Ending::Denied(Denial::Dsd(name)),
        Refusal::Unknown => Ending::Refused(Code::Unknown),
        Refusal::Loop => Ending::Refused(Code::Loop),
        Refusal::Known => Ending::Refused(Code::Known),
        Refusal::Used => Ending::Refused(Code::Used),
        Refusal::Full => Ending::Refused(Code::Full),
    }
}

/// The fault of a decision table for a fault of the policy.
fn fault_of(fault: PolicyFault) -> Fault<Ending>
    ensures { result ≡ fault_of fault }
{
    match fault {
        PolicyFault::Refused(refusal) => Fault::Told(ending_of(refusal)),
        PolicyFault::Memory => Fault::Memory,
    }
}

/// Executes a policy request on a policy, which changes only if the request is accepted. The guard was passed.
fn make(policy: &mut Policy, connection: u32, request: &PolicyRequest) -> Result<(), PolicyFault>
    requires entered { entered policy.old connection (policy_need request.now) ≡ Ok tt }
    ensures ok { OnOk result (row_of policy.old connection request.now ≡ Ok policy.new) }
    ensures refused { IfErr result (IsFaultOf (row_of policy.old connection request.now)) }
{
    match request {
        PolicyRequest::Open { user, digest } => policy.open(connection, user, digest),
        PolicyRequest::Close => {
            policy.end(connection);
            Ok(())
        }
        PolicyRequest::Activate { role } => policy.activate(connection, role),
        PolicyRequest::DropRole { role } => policy.drop_role(connection, role),
        PolicyRequest::AddUser { user, digest } => policy.adduser(user.copy()?, *digest),
        PolicyRequest::DelUser { user } => policy.deluser(user),
        PolicyRequest::AddRole { role } => policy.addrole(role.copy()?),
        PolicyRequest::DelRole { role } => policy.delrole(role),
        PolicyRequest::Assign { user, role } => policy.assign(user, role),
        PolicyRequest::Deassign { user, role } => policy.deassign(user, role),
        PolicyRequest::Grant { grant } => policy.grant(grant.clone()?),
        PolicyRequest::Revoke { grant } => policy.revoke(grant),
        PolicyRequest::Inherit { senior, junior } => policy.inherit(senior, junior),
        PolicyRequest::Uninherit { senior, junior } => policy.uninherit(senior, junior),
        PolicyRequest::Ssd { set } => policy.ssd(set.clone()?),
        PolicyRequest::Dsd { set } => policy.dsd(set.clone()?),
        PolicyRequest::UnSsd { name } => policy.unssd(name),
        PolicyRequest::UnDsd { name } => policy.undsd(name),
    }
}

/// A request that changes the policy, on a copy of it. The guard was passed.
///
/// # Errors
/// The first test that fails, or out of memory.
pub(crate) fn revised(
    policy: &Policy,
    connection: u32,
    request: &PolicyRequest,
) -> Result<Done<Policy>, Fault<Ending>>
    requires entered { entered policy.now connection (policy_need request.now) ≡ Ok tt }
    ensures { Answers (λ done. done) result (ended (policy_row policy.now connection request.now)) }
{
    let mut part = policy.copy()?;
    match make(&mut part, connection, request) {
        Ok(()) => Ok(Done::Changes {
            part,
            lines: Lines::none(),
        }),
        Err(fault) => Err(fault_of(fault)),
    }
}

/// The lines of `whoami`.
fn identity_lines(alloc: Global, identity: Identity) -> Result<Lines, AllocError>
    ensures { IfOk result (λ lines. lines ≡ map stored (identity_lines identity)) }
{
    let mut lines = Vec::new(alloc);
    lines.push(Line::User(identity.user))?;
    for role in identity.active.as_slice() {
        lines.push(Line::Active(role.copy()?))?;
    }
    for role in identity.authorized.as_slice() {
        lines.push(Line::Authorized(role.copy()?))?;
    }
    Lines::from_vec(alloc, lines)
}

/// The request `whoami`. The guard was passed: the connection has a session.
///
/// # Errors
/// Out of memory.
pub(crate) fn whoami(
    alloc: Global,
    policy: &Policy,
    connection: u32,
) -> Result<Done<Policy>, Fault<Ending>>
    requires session { is_some (session_of policy.now connection) ≡ true }
    ensures { Answers (λ done. done) result (ended (whoami_row policy.now connection)) }
{
    let identity = policy.whoami(connection)?;
    Ok(Done::Lists(identity_lines(alloc, identity)?))
}

/// The lines of the trail. Cost: a count for each 1024 requests so far, and the rows of the last ones.
pub(crate) fn trail_lines(alloc: Global, trail: &Trail) -> Result<Lines, AllocError>
    ensures { IfOk result (λ lines. lines ≡ trail_lines trail.now.entries) }
{
    let listing = trail.listing(alloc)?;
    Lines::of_trail(alloc, listing)
}
