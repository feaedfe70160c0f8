//! The guard: the connection has what its request needs. It comes before every other test of a request.
ghost use Rattle.std.specs.Prelude.{◌≡◌, is_some, true};
ghost use Rattle.mpw_rbac.specs.Policy.{session_of};
ghost use Rattle.mpw_rbac.specs.Rows.{user_of};
ghost use Rattle.mpw_access.specs.Guard.{DeniedIsLacked, EnteredHas, HoldersEnter, entered};

use mpw_geom::Name;
use mpw_permissions::{Object, Operation};
use mpw_rbac::Policy;
use mpw_replies::Ending;
use mpw_requests::Need;
use mpw_trail::Denial;

/// The connection has a session.
fn session(policy: &Policy, connection: u32) -> Result<(), Ending>
    ensures { result ≡ entered policy.now connection Need.Session }
{
    if policy.has_session(connection) {
        Ok(())
    } else {
        Err(Ending::Denied(Denial::Session))
    }
}

/// The connection's session may do the operation on the object.
fn permission(
    policy: &Policy,
    connection: u32,
    operation: Operation,
    object: Object,
) -> Result<(), Ending>
    ensures { result ≡ entered policy.now connection (Need.Permission operation object) }
{
    session(policy, connection)?;
    if policy.permits(connection, operation, &object) {
        Ok(())
    } else {
        Err(Ending::Denied(Denial::Permission(operation, object)))
    }
}

/// Tests that the connection has what is needed. Cost: a search of the sessions, and a look-up of the object. It takes no memory.
///
/// # Errors
/// The denial that names what is missing.
pub fn enter(policy: &Policy, connection: u32, need: Need) -> Result<(), Ending>
    ensures { result ≡ entered policy.now connection need }
{
    match need {
        Need::Nothing => Ok(()),
        Need::Session => session(policy, connection),
        Need::Permission(operation, object) => permission(policy, connection, operation, object),
    }
}

/// The user of the connection's session. Cost: a search of the sessions.
pub fn session_user(policy: &Policy, connection: u32) -> &Name
    requires session { is_some (session_of policy.now connection) ≡ true }
    ensures { result.now ≡ user_of policy.now connection }
{
    match policy.user_of(connection) {
        Some(user) => user,
        None => unreachable!(),
    }
}

/// Who enters has what is needed, who has it enters, and a denial names what is missing. Laws: the function does nothing.
pub fn entering_is_by_the_need()
    ensures has { EnteredHas }
    ensures enters { HoldersEnter }
    ensures lacks { DeniedIsLacked }
{}
