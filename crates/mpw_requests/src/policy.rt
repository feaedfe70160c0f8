//! The requests that change the policy: what each needs, its line, and its parts.
ghost use Rattle.std.specs.Prelude.{◌≡◌};
ghost use Rattle.mpw_requests.specs.Parts.{seen, parts_of, request_of};
ghost use Rattle.mpw_requests.specs.Policy.{policy_need};
ghost use Rattle.mpw_requests.specs.Table.{verb_text, verb_shape, has_payload, lists};

use crate::need::{Need, on_desk};
use crate::parts::{Operands, Parts};
use crate::request::Request;
use crate::table::{Form, Shape, Verb, line};
use mpw_geom::Name;
use mpw_permissions::{Grant, Operation};
use mpw_separation::SeparationSet;

/// The SHA-256 of a token, as the policy stores it.
pub type Digest = [u8; 32];

/// A request that changes the policy (ANSI INCITS 359-2004, 6).
pub enum PolicyRequest {
    /// Begin a session of the user, whose token has that SHA-256, without active roles (CreateSession, 6.1).
    Open { user: Name, digest: Digest },
    /// End the connection's session (DeleteSession, 6.1).
    Close,
    /// Make a role active in the session (AddActiveRole, 6.1).
    Activate { role: Name },
    /// Make an active role of the session inactive (DropActiveRole, 6.1).
    DropRole { role: Name },
    /// Add a user whose token has that SHA-256 (AddUser, 6.1).
    AddUser { user: Name, digest: Digest },
    /// Delete a user with its assignments and sessions (DeleteUser, 6.1).
    DelUser { user: Name },
    /// Add a role (AddRole, 6.1).
    AddRole { role: Name },
    /// Delete a role with its pairs, assignments and grants (DeleteRole, 6.1).
    DelRole { role: Name },
    /// Assign a role to a user (AssignUser, 6.1).
    Assign { user: Name, role: Name },
    /// Remove an assignment (DeassignUser, 6.1).
    Deassign { user: Name, role: Name },
    /// Grant an operation on an object to a role (GrantPermission, 6.1).
    Grant { grant: Grant },
    /// Remove a grant (RevokePermission, 6.1).
    Revoke { grant: Grant },
    /// Make a role an immediate junior of another (AddInheritance, 6.2).
    Inherit { senior: Name, junior: Name },
    /// Remove an immediate pair (DeleteInheritance, 6.2).
    Uninherit { senior: Name, junior: Name },
    /// Make a static set (CreateSsdSet, 6.3).
    Ssd { set: SeparationSet },
    /// Make a dynamic set (CreateDsdSet, 6.4).
    Dsd { set: SeparationSet },
    /// Delete the static set of that name (DeleteSsdSet, 6.3).
    UnSsd { name: Name },
    /// Delete the dynamic set of that name (DeleteDsdSet, 6.4).
    UnDsd { name: Name },
}

impl Drop for PolicyRequest {
    fn drop(self) {
        match self {
            PolicyRequest::Open { user, digest: _ } => drop(user),
            PolicyRequest::Activate { role } => drop(role),
            PolicyRequest::DropRole { role } => drop(role),
            PolicyRequest::AddUser { user, digest: _ } => drop(user),
            PolicyRequest::DelUser { user } => drop(user),
            PolicyRequest::AddRole { role } => drop(role),
            PolicyRequest::DelRole { role } => drop(role),
            PolicyRequest::Assign { user, role } => {
                drop(user);
                drop(role);
            }
            PolicyRequest::Deassign { user, role } => {
                drop(user);
                drop(role);
            }
            PolicyRequest::Grant { grant } => drop(grant),
            PolicyRequest::Revoke { grant } => drop(grant),
            PolicyRequest::Inherit { senior, junior } => {
                drop(senior);
                drop(junior);
            }
            PolicyRequest::Uninherit { senior, junior } => {
                drop(senior);
                drop(junior);
            }
            PolicyRequest::Ssd { set } => drop(set),
            PolicyRequest::Dsd { set } => drop(set),
            PolicyRequest::UnSsd { name } => drop(name),
            PolicyRequest::UnDsd { name } => drop(name),
            PolicyRequest::Close => {}
        }
    }
}

/// The verb of a request that changes the policy.
#[derive(Clone, Copy)]
pub enum PolicyVerb {
    Open,
    Close,
    Activate,
    DropRole,
    AddUser,
    DelUser,
    AddRole,
    DelRole,
    Assign,
    Deassign,
    Grant,
    Revoke,
    Inherit,
    Uninherit,
    Ssd,
    Dsd,
    UnSsd,
    UnDsd,
}

/// What a request that changes the policy needs.
pub(crate) fn policy_need(request: &PolicyRequest) -> Need
    ensures { result ≡ policy_need request.now }
{
    match request {
        PolicyRequest::Open { .. } => Need::Nothing,
        PolicyRequest::Close | PolicyRequest::Activate { .. } | PolicyRequest::DropRole { .. } =>
            Need::Session,
        PolicyRequest::AddUser { .. }
        | PolicyRequest::DelUser { .. }
        | PolicyRequest::AddRole { .. }
        | PolicyRequest::DelRole { .. }
        | PolicyRequest::Assign { .. }
        | PolicyRequest::Deassign { .. }
        | PolicyRequest::Grant { .. }
        | PolicyRequest::Revoke { .. }
        | PolicyRequest::Inherit { .. }
        | PolicyRequest::Uninherit { .. }
        | PolicyRequest::Ssd { .. }
        | PolicyRequest::Dsd { .. }
        | PolicyRequest::UnSsd { .. }
        | PolicyRequest::UnDsd { .. } => on_desk(Operation::Admin),
    }
}

/// The form of a verb's line.
#[tactic(auto, unfolding(crate::specs::Table::verb_form, crate::specs::Table::has_payload, crate::specs::Table::lists))]
pub(crate) const fn policy_form(verb: PolicyVerb) -> Form
    ensures word { result.word.now ≡ verb_text (Verb.Policy verb) }
    ensures shape { result.shape ≡ verb_shape (Verb.Policy verb) }
    ensures payload { result.has_payload ≡ has_payload (Verb.Policy verb) }
    ensures lists { result.lists ≡ lists (Verb.Policy verb) }
{
    match verb {
        PolicyVerb::Open => line("open", " user token", Shape::Login),
        PolicyVerb::Close => line("close", "", Shape::Alone),
        PolicyVerb::Activate => line("activate", " role", Shape::Name),
        PolicyVerb::DropRole => line("drop", " role", Shape::Name),
        PolicyVerb::AddUser => line("adduser", " user token", Shape::Login),
        PolicyVerb::DelUser => line("deluser", " user", Shape::Name),
        PolicyVerb::AddRole => line("addrole", " role", Shape::Name),
        PolicyVerb::DelRole => line("delrole", " role", Shape::Name),
        PolicyVerb::Assign => line("assign", " user role", Shape::Pair),
        PolicyVerb::Deassign => line("deassign", " user role", Shape::Pair),
        PolicyVerb::Grant => line("grant", " operation object role", Shape::Grant),
        PolicyVerb::Revoke => line("revoke", " operation object role", Shape::Grant),
        PolicyVerb::Inherit => line("inherit", " senior junior", Shape::Pair),
        PolicyVerb::Uninherit => line("uninherit", " senior junior", Shape::Pair),
        PolicyVerb::Ssd => line("ssd", " name n role role ..", Shape::Set),
        PolicyVerb::Dsd => line("dsd", " name n role role ..", Shape::Set),
        PolicyVerb::UnSsd => line("unssd", " name", Shape::Name),
        PolicyVerb::UnDsd => line("undsd", " name", Shape::Name),
    }
}

/// The verb and the operands of a request.
#[tactic(auto, unfolding(crate::specs::Parts::parts_of))]
pub(crate) fn policy_parts(request: &PolicyRequest) -> (PolicyVerb, Parts<'_>)
    ensures verb { Verb.Policy result.0 ≡ (parts_of (Request.Policy request.now)).0 }
    ensures operands { seen result.1 ≡ (parts_of (Request.Policy request.now)).1 }
{
    match request {
        PolicyRequest::Open { user, digest } => (PolicyVerb::Open, Parts::Login(user, digest)),
        PolicyRequest::Close => (PolicyVerb::Close, Parts::Alone),
        PolicyRequest::Activate { role } => (PolicyVerb::Activate, Parts::Name(role)),
        PolicyRequest::DropRole { role } => (PolicyVerb::DropRole, Parts::Name(role)),
        PolicyRequest::AddUser { user, digest } => (
            PolicyVerb::AddUser,
            Parts::Login(user, digest),
        ),
        PolicyRequest::DelUser { user } => (PolicyVerb::DelUser, Parts::Name(user)),
        PolicyRequest::AddRole { role } => (PolicyVerb::AddRole, Parts::Name(role)),
        PolicyRequest::DelRole { role } => (PolicyVerb::DelRole, Parts::Name(role)),
        PolicyRequest::Assign { user, role } => (PolicyVerb::Assign, Parts::Pair(user, role)),
        PolicyRequest::Deassign { user, role } => (PolicyVerb::Deassign, Parts::Pair(user, role)),
        PolicyRequest::Grant { grant } => (PolicyVerb::Grant, Parts::Grant(grant)),
        PolicyRequest::Revoke { grant } => (PolicyVerb::Revoke, Parts::Grant(grant)),
        PolicyRequest::Inherit { senior, junior } => (
            PolicyVerb::Inherit,
            Parts::Pair(senior, junior),
        ),
        PolicyRequest::Uninherit { senior, junior } => (
            PolicyVerb::Uninherit,
            Parts::Pair(senior, junior),
        ),
        PolicyRequest::Ssd { set } => (PolicyVerb::Ssd, Parts::Set(set)),
        PolicyRequest::Dsd { set } => (PolicyVerb::Dsd, Parts::Set(set)),
        PolicyRequest::UnSsd { name } => (PolicyVerb::UnSsd, Parts::Name(name)),
        PolicyRequest::UnDsd { name } => (PolicyVerb::UnDsd, Parts::Name(name)),
    }
}

/// The request of a verb and a name.
#[tactic(auto, unfolding(crate::specs::Parts::request_of))]
fn of_name(verb: PolicyVerb, name: Name) -> Option<Request>
    ensures { result ≡ request_of (Verb.Policy verb) (Operands.Name name) }
{
    match verb {
        PolicyVerb::Activate => Some(Request::Policy(PolicyRequest::Activate { role: name })),
        PolicyVerb::DropRole => Some(Request::Policy(PolicyRequest::DropRole { role: name })),
        PolicyVerb::DelUser => Some(Request::Policy(PolicyRequest::DelUser { user: name })),
        PolicyVerb::AddRole => Some(Request::Policy(PolicyRequest::AddRole { role: name })),
        PolicyVerb::DelRole => Some(Request::Policy(PolicyRequest::DelRole { role: name })),
        PolicyVerb::UnSsd => Some(Request::Policy(PolicyRequest::UnSsd { name })),
        PolicyVerb::UnDsd => Some(Request::Policy(PolicyRequest::UnDsd { name })),
        _ => None,
    }
}

/// The request of a verb and two names.
#[tactic(auto, unfolding(crate::specs::Parts::request_of))]
fn of_pair(verb: PolicyVerb, first: Name, second: Name) -> Option<Request>
    ensures { result ≡ request_of (Verb.Policy verb) (Operands.Pair first second) }
{
    match verb {
        PolicyVerb::Assign => Some(Request::Policy(PolicyRequest::Assign {
            user: first,
            role: second,
        })),
        PolicyVerb::Deassign => Some(Request::Policy(PolicyRequest::Deassign {
            user: first,
            role: second,
        })),
        PolicyVerb::Inherit => Some(Request::Policy(PolicyRequest::Inherit {
            senior: first,
            junior: second,
        })),
        PolicyVerb::Uninherit => Some(Request::Policy(PolicyRequest::Uninherit {
            senior: first,
            junior: second,
        })),
        _ => None,
    }
}

/// The request of a verb and its operands, if they have the verb's shape.
#[tactic(auto, unfolding(crate::specs::Parts::request_of))]
pub(crate) fn policy_request(verb: PolicyVerb, operands: Operands) -> Option<Request>
    ensures { result ≡ request_of (Verb.Policy verb) operands }
{
    match (verb, operands) {
        (PolicyVerb::Close, Operands::Alone) => Some(Request::Policy(PolicyRequest::Close)),
        (verb, Operands::Name(name)) => of_name(verb, name),
        (verb, Operands::Pair(first, second)) => of_pair(verb, first, second),
        (PolicyVerb::Open, Operands::Login(user, digest)) => {
            Some(Request::Policy(PolicyRequest::Open { user, digest }))
        }
        (PolicyVerb::AddUser, Operands::Login(user, digest)) => {
            Some(Request::Policy(PolicyRequest::AddUser { user, digest }))
        }
        (PolicyVerb::Grant, Operands::Grant(grant)) => {
            Some(Request::Policy(PolicyRequest::Grant { grant }))
        }
        (PolicyVerb::Revoke, Operands::Grant(grant)) => {
            Some(Request::Policy(PolicyRequest::Revoke { grant }))
        }
        (PolicyVerb::Ssd, Operands::Set(set)) => Some(Request::Policy(PolicyRequest::Ssd { set })),
        (PolicyVerb::Dsd, Operands::Set(set)) => Some(Request::Policy(PolicyRequest::Dsd { set })),
        _ => None,
    }
}
