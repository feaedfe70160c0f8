//! The policy's tables, the questions that they answer, and sessions.
ghost use Rattle.std.specs.Prelude.{◌≡◌, ℕ, [], ◌∷◌, IfOk, IfErr, IfSome, codes, is_some, nat_lt, length};
ghost use Rattle.mpw_permissions.specs.Grant.{grant_eq};
ghost use Rattle.std.specs.List.{list_any};
ghost use Rattle.std.specs.Option.{option_copied};
ghost use Rattle.mpw_geom.specs.Names.{name_eq, contains_name, by_name};
ghost use Rattle.mpw_roles.specs.Hierarchy.{is_role};
ghost use Rattle.mpw_roles.specs.Order.{roles_below};
ghost use Rattle.mpw_rbac.specs.Masked.{AreUsers};
ghost use Rattle.mpw_rbac.specs.Policy.{max_users, max_grants, permits, is_user, session_of, assigned_roles, authorized, new_policy};
ghost use Rattle.mpw_rbac.specs.Rows.{user_of};
ghost use Rattle.mpw_rbac.specs.Table.{value_at};

use crate::active::Sessions;
use crate::users::Users;
use crate::{Digest, PolicyFault, Session, User};
use mpw_geom::{Name, Names};
use mpw_permissions::{Grant, Object, Operation, Permissions};
use mpw_roles::Roles;
use mpw_separation::PlacedSets;
use std::alloc::{AllocError, Global};
use std::marker::Model;

/// The greatest number of users.
pub const MAX_USERS: usize = 512;

/// The greatest number of grants.
pub const MAX_GRANTS: usize = 4096;

/// Users, roles, grants, separation sets and sessions, in the order in which they were added.
pub struct Policy {
    pub(crate) users: Users,
    pub(crate) permissions: Permissions,
    pub(crate) sets: PlacedSets,
    pub(crate) sessions: Sessions,
}

impl Drop for Policy {
    fn drop(self) {
        let Policy {
            users,
            permissions,
            sets,
            sessions,
        } = self;
        drop(users);
        drop(permissions);
        drop(sets);
        drop(sessions);
    }
}

impl Model for Policy {
    ghost use Rattle.mpw_rbac.specs.Policy.{Policy as PolicyState, policy_of};
    ghost use Rattle.mpw_rbac.specs.Masked.{IsPolicy};

    ghost Value = { PolicyState };

    ghost view = { λ p. policy_of p.users.users p.permissions.roles p.permissions.granted p.sets.sets p.sessions.sessions };

    ghost invariant = { λ p. IsPolicy p.users p.permissions.roles p.permissions.granted p.sets p.sessions };
}

impl Policy {
    /// The session of a connection.
    pub(crate) fn session(&self, connection: u32) -> Option<&Session>
        ensures { option_copied result ≡ session_of self.now connection }
    {
        self.sessions.get(connection)
    }

    /// A user's digest and assigned roles.
    pub(crate) fn user(&self, user: &Name) -> Option<&User>
        ensures { option_copied result ≡ value_at name_eq self.now.users user.now }
    {
        self.users.roster().get(user)
    }

    /// Whether the user exists.
    pub(crate) fn is_user(&self, user: &Name) -> bool
        ensures { result ≡ is_user self.now user.now }
    {
        self.users.roster().contains(user)
    }

    /// Whether the role exists.
    pub(crate) fn is_role(&self, role: &Name) -> bool
        ensures { result ≡ is_role self.now.roles role.now }
    {
        self.permissions.roles().contains(role)
    }

    /// Whether the role is assigned to the user.
    pub(crate) fn is_assigned(&self, user: &Name, role: &Name) -> bool
        ensures { result ≡ contains_name (assigned_roles self.now user.now) role.now }
    {
        match self.user(user) {
            Some(found) => found.roles.contains(role),
            None => false,
        }
    }

    /// Whether the grant exists.
    pub(crate) fn has_grant(&self, grant: &Grant) -> bool
        ensures { result ≡ list_any (grant_eq grant.now) self.now.granted }
    {
        self.permissions.has_grant(grant)
    }

    /// Whether there is room for one more user.
    pub(crate) fn has_room_for_user(&self) -> bool
        ensures { result ≡ nat_lt (length self.now.users) max_users }
    {
        self.users.roster().len() < MAX_USERS
    }

    /// Whether there is room for one more grant.
    pub(crate) fn has_room_for_grant(&self) -> bool
        ensures { result ≡ nat_lt (length self.now.granted) max_grants }
    {
        self.permissions.has_room(MAX_GRANTS)
    }

    /// Whether some acting role of the connection's session has a grant of the operation on the object (CheckAccess). It takes no memory.
    /// Cost: a search of the sessions, a look-up of the object, and an `and` of eight words.
    pub fn permits(&self, connection: u32, operation: Operation, object: &Object) -> bool
        ensures { result ≡ permits self.now connection operation object.now }
    {
        self.access(connection, operation).permits(object)
    }

    /// The user of the connection's session, if it has one.
    pub fn user_of(&self, connection: u32) -> Option<&Name>
        ensures some { IfSome result (λ user. user.now ≡ user_of self.now connection) }
        ensures session { is_some result ≡ is_some (session_of self.now connection) }
    {
        match self.session(connection) {
            Some(session) => Some(&session.user),
            None => None,
        }
    }

    /// The policy of a new desk: one user, the officer, with the role `officer`, which may administer the desk.
    ///
    /// # Errors
    /// `Memory` if out of memory.
    pub fn new(alloc: Global, officer: Name, digest: Digest) -> Result<Policy, PolicyFault>
        ensures ok { IfOk result (λ policy. policy ≡ new_policy officer digest) }
        ensures memory { IfErr result (λ fault. fault ≡ PolicyFault.Memory) }
    {
        let role = officer_role(alloc)?;
        let permissions = first_permissions(alloc, role.copy()?)?;
        let users = first_users(permissions.roles(), officer, digest, role)?;
        Ok(Policy {
            users,
            permissions,
            sets: PlacedSets::new(alloc),
            sessions: Sessions::new(alloc),
        })
    }

    /// The same policy. Users, roles, grants and their masks are shared, with a count each. Sets and sessions are copied.
    ///
    /// # Errors
    /// `AllocError` if out of memory.
    pub fn copy(&self) -> Result<Policy, AllocError>
        ensures { IfOk result (λ policy. policy ≡ self.now) }
    {
        let users = self.users.copy()?;
        let permissions = self.permissions.copy()?;
        let sets = self.sets.copy()?;
        let sessions = self.sessions.copy()?;
        Ok(Policy {
            users,
            permissions,
            sets,
            sessions,
        })
    }
}

/// The roles of a new desk: that of the officer.
fn first_roles(alloc: Global, role: &Name) -> Result<Roles, AllocError>
    ensures { IfOk result (λ roles. roles ≡ (role.now, []) ∷ []) }
{
    let role = role.copy()?;
    let mut roles = Roles::new(alloc);
    match roles.add(role) {
        Ok(()) => Ok(roles),
        Err(_) => Err(AllocError),
    }
}

/// The users of a new desk: the officer.
fn first_users(
    roles: &Roles,
    officer: Name,
    digest: Digest,
    role: Name,
) -> Result<Users, AllocError>
    ensures { IfOk result (AreUsers roles.now ((officer, record { digest = digest; roles = role ∷ [] }) ∷ [])) }
{
    let mut assigned = Names::new(roles.allocator());
    assigned.push(role)?;
    let value = User {
        digest,
        roles: assigned,
    };
    Users::new(roles)?.with(roles, &officer, value)
}

/// The grant of a new desk: the officer may administer it.
fn first_grant(role: Name) -> Grant
    ensures { result ≡ record { operation = Operation.Admin; object = Object.Desk; role = role } }
{
    Grant {
        operation: Operation::Admin,
        object: Object::Desk,
        role,
    }
}

/// The roles and grants of a new desk.
fn first_permissions(alloc: Global, role: Name) -> Result<Permissions, AllocError>
    ensures { IfOk result (λ next. next ≡ record { roles = (role, []) ∷ []; granted = record { operation = Operation.Admin; object = Object.Desk; role = role } ∷ [] }) }
{
    let roles = first_roles(alloc, &role)?;
    let grant = first_grant(role);
    Permissions::new(alloc, roles, &grant)
}

/// The role of the officer.
fn officer_role(alloc: Global) -> Result<Name, AllocError>
    ensures { IfOk result (λ role. role ≡ codes "officer") }
{
    match Name::read(alloc, b"officer") {
        Ok(role) => Ok(role),
        Err(_) => Err(AllocError),
    }
}
