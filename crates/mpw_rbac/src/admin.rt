//! The administrative requests of users, roles, assignments and grants. Each is made by a session that may administer the desk: its caller has
//! tested that.
ghost use Rattle.std.specs.Prelude.{◌≡◌, ℕ, List, length, nat_lt, true, false, not, ◌||◌, [], ◌∷◌, ◌++◌, IfOk, IfErr, OnOk, OnErr, Ok, Err};
ghost use Rattle.std.specs.Option.{option_copied};
ghost use Rattle.mpw_geom.specs.Names.{name_eq, contains_name, without_name};
ghost use Rattle.mpw_roles.specs.Hierarchy.{is_role};
ghost use Rattle.mpw_separation.specs.Separation.{least_broken, uses_role};
ghost use Rattle.mpw_permissions.specs.Grant.{grant_eq, ungranted};
ghost use Rattle.mpw_rbac.specs.Policy.{max_users, is_user, assigned_roles};
ghost use Rattle.mpw_rbac.specs.Rows.{IsFaultOf, digest_of_user, unassigned};
ghost use Rattle.mpw_rbac.specs.Rows as rows;
ghost use Rattle.mpw_rbac.specs.Table.{without_key};

use crate::hierarchy::{with_role, without_role};
use crate::separation::first_broken;
use crate::{Digest, Policy, PolicyFault, Refusal, User};
use mpw_geom::{Name, Names};
use mpw_permissions::{Grant, Permissions};
use mpw_separation::Kind;
use std::alloc::AllocError;

impl Policy {
    /// Adds a user with a digest and without roles (AddUser).
    ///
    /// # Errors
    /// `Known`, `Full`, tested in this order; or `Memory`. Then the policy is unchanged.
    pub fn adduser(&mut self, user: Name, digest: Digest) -> Result<(), PolicyFault>
        ensures ok { OnOk result (rows.adduser self.old user digest ≡ Ok self.new) }
        ensures refused { IfErr result (IsFaultOf (rows.adduser self.old user digest)) }
        ensures err { OnErr result (self.new ≡ self.old) }
    {
        self.may_add_user(&user)?;
        let roles = Names::new(self.sessions.allocator());
        let users = self
            .users
            .with(self.permissions.roles(), &user, User { digest, roles })?;
        self.users = users;
        Ok(())
    }

    /// The tests of a new user.
    fn may_add_user(&self, user: &Name) -> Result<(), PolicyFault>
        ensures new { OnOk result (is_user self.now user.now ≡ false) }
        ensures room { OnOk result (nat_lt (length self.now.users) max_users ≡ true) }
        ensures refused { IfErr result (λ fault. (digest : List ℕ) → IsFaultOf (rows.adduser self.now user.now digest) fault) }
    {
        if self.is_user(user) {
            return Err(PolicyFault::Refused(Refusal::Known));
        }
        if !self.has_room_for_user() {
            return Err(PolicyFault::Refused(Refusal::Full));
        }
        Ok(())
    }

    /// Deletes a user, whose sessions end (DeleteUser).
    ///
    /// # Errors
    /// `Unknown` user; or `Memory`. Then the policy is unchanged.
    pub fn deluser(&mut self, user: &Name) -> Result<(), PolicyFault>
        ensures ok { OnOk result (rows.deluser self.old user.now ≡ Ok self.new) }
        ensures refused { IfErr result (IsFaultOf (rows.deluser self.old user.now)) }
        ensures err { OnErr result (self.new ≡ self.old) }
    {
        if !self.is_user(user) {
            return Err(PolicyFault::Refused(Refusal::Unknown));
        }
        let roles = self.permissions.roles();
        let users = self.users.without(roles, user)?;
        self.sessions.trim(&users, roles);
        self.users = users;
        Ok(())
    }

    /// Adds a role without pairs (AddRole).
    ///
    /// # Errors
    /// `Known`, `Full`, tested in this order; or `Memory`. Then the policy is unchanged.
    pub fn addrole(&mut self, role: Name) -> Result<(), PolicyFault>
        ensures ok { OnOk result (rows.addrole self.old role ≡ Ok self.new) }
        ensures refused { IfErr result (IsFaultOf (rows.addrole self.old role)) }
        ensures err { OnErr result (self.new ≡ self.old) }
    {
        let permissions = with_role(&self.permissions, role)?;
        let roles = permissions.roles();
        let users = self.users.among(roles)?;
        self.sessions.remask(roles);
        self.sets.place(roles);
        self.users = users;
        self.permissions = permissions;
        Ok(())
    }

    /// Deletes a role, with its assignments, its grants and each pair that it is in (DeleteRole).
    ///
    /// # Errors
    /// `Unknown` role, `Used` by a separation set, tested in this order; or `Memory`. Then the policy is unchanged.
    pub fn delrole(&mut self, role: &Name) -> Result<(), PolicyFault>
        ensures ok { OnOk result (rows.delrole self.old role.now ≡ Ok self.new) }
        ensures refused { IfErr result (IsFaultOf (rows.delrole self.old role.now)) }
        ensures err { OnErr result (self.new ≡ self.old) }
    {
        self.may_delete_role(role)?;
        let permissions = without_role(&self.permissions, role)?;
        let roles = permissions.roles();
        let users = self.users.without_assignments(roles, role)?;
        self.sessions.trim(&users, roles);
        self.sets.place(roles);
        self.users = users;
        self.permissions = permissions;
        Ok(())
    }

    /// The tests of a role that is to be deleted.
    fn may_delete_role(&self, role: &Name) -> Result<(), PolicyFault>
        ensures known { OnOk result (is_role self.now.roles role.now ≡ true) }
        ensures unused { OnOk result ((uses_role self.now.ssd role.now || uses_role self.now.dsd role.now) ≡ false) }
        ensures refused { IfErr result (IsFaultOf (rows.delrole self.now role.now)) }
    {
        if !self.is_role(role) {
            return Err(PolicyFault::Refused(Refusal::Unknown));
        }
        if self.is_used(role) {
            return Err(PolicyFault::Refused(Refusal::Used));
        }
        Ok(())
    }

    /// Assigns a role to a user (AssignUser).
    ///
    /// # Errors
    /// `Unknown` user or role, `Known`, `Ssd`, tested in this order; or `Memory`. Then the policy is unchanged.
    pub fn assign(&mut self, user: &Name, role: &Name) -> Result<(), PolicyFault>
        ensures ok { OnOk result (rows.assign self.old user.now role.now ≡ Ok self.new) }
        ensures refused { IfErr result (IsFaultOf (rows.assign self.old user.now role.now)) }
        ensures err { OnErr result (self.new ≡ self.old) }
    {
        self.may_assign(user, role)?;
        let assigned = self.assigned_with(user, role)?;
        if let Some(name) = self.broken_by_assigned(assigned.roles.as_slice()) {
            return Err(PolicyFault::Refused(Refusal::Ssd(name.copy()?)));
        }
        let users = self.users.with(self.permissions.roles(), user, assigned)?;
        self.users = users;
        Ok(())
    }

    /// The tests of a new assignment, without that of the sets.
    fn may_assign(&self, user: &Name, role: &Name) -> Result<(), PolicyFault>
        ensures user { OnOk result (is_user self.now user.now ≡ true) }
        ensures role { OnOk result (is_role self.now.roles role.now ≡ true) }
        ensures new { OnOk result (contains_name (assigned_roles self.now user.now) role.now ≡ false) }
        ensures refused { IfErr result (IsFaultOf (rows.assign self.now user.now role.now)) }
    {
        if !self.is_user(user) || !self.is_role(role) {
            return Err(PolicyFault::Refused(Refusal::Unknown));
        }
        if self.is_assigned(user, role) {
            return Err(PolicyFault::Refused(Refusal::Known));
        }
        Ok(())
    }

    /// Removes an assignment. The user's sessions lose what it authorized (DeassignUser).
    ///
    /// # Errors
    /// `Unknown` assignment; or `Memory`. Then the policy is unchanged.
    pub fn deassign(&mut self, user: &Name, role: &Name) -> Result<(), PolicyFault>
        ensures ok { OnOk result (rows.deassign self.old user.now role.now ≡ Ok self.new) }
        ensures refused { IfErr result (IsFaultOf (rows.deassign self.old user.now role.now)) }
        ensures err { OnErr result (self.new ≡ self.old) }
    {
        if !self.is_assigned(user, role) {
            return Err(PolicyFault::Refused(Refusal::Unknown));
        }
        let assigned = self.assigned_without(user, role)?;
        let roles = self.permissions.roles();
        let users = self.users.with(roles, user, assigned)?;
        self.sessions.trim(&users, roles);
        self.users = users;
        Ok(())
    }

    /// The user with one more assigned role.
    fn assigned_with(&self, user: &Name, role: &Name) -> Result<User, AllocError>
        requires { is_user self.now user.now ≡ true }
        ensures { IfOk result (λ next. next ≡ record { digest = digest_of_user self.now user.now; roles = assigned_roles self.now user.now ++ role.now ∷ [] }) }
    {
        let Some(found) = self.user(user) else {
            return Err(AllocError);
        };
        let mut roles = found.roles.copy()?;
        roles.push(role.copy()?)?;
        let digest = found.digest;
        Ok(User { digest, roles })
    }

    /// The user with one assigned role fewer.
    fn assigned_without(&self, user: &Name, role: &Name) -> Result<User, AllocError>
        ensures { IfOk result (λ next. next ≡ record { digest = digest_of_user self.now user.now; roles = without_name (assigned_roles self.now user.now) role.now }) }
    {
        let Some(found) = self.user(user) else {
            return Err(AllocError);
        };
        let mut roles = found.roles.copy()?;
        roles.remove(role);
        let digest = found.digest;
        Ok(User { digest, roles })
    }

    /// The first name, in alphabetical order, of a static set that these assigned roles break.
    fn broken_by_assigned(&self, assigned: &[Name]) -> Option<&Name>
        ensures { option_copied result ≡ least_broken self.now.roles self.now.ssd (assigned.now ∷ []) }
    {
        first_broken(&self.sets, Kind::Static, self.permissions.roles(), assigned)
    }

    /// Whether the role is in a separation set.
    fn is_used(&self, role: &Name) -> bool
        ensures { result ≡ (uses_role self.now.ssd role.now || uses_role self.now.dsd role.now) }
    {
        self.sets.sets().uses(role)
    }

    /// Grants an operation on an object to a role (GrantPermission). Cost: a copy of the last block of the grants, and of one bucket of the
    /// operation's masks. All others stay shared; each costs at most a count.
    ///
    /// # Errors
    /// `Unknown` role, `Known`, `Full`, tested in this order; or `Memory`. Then the policy is unchanged.
    pub fn grant(&mut self, grant: Grant) -> Result<(), PolicyFault>
        ensures ok { OnOk result (rows.grant self.old grant ≡ Ok self.new) }
        ensures refused { IfErr result (IsFaultOf (rows.grant self.old grant)) }
        ensures err { OnErr result (self.new ≡ self.old) }
    {
        let permissions = self.permissions_with(&grant)?;
        self.permissions = permissions;
        Ok(())
    }

    /// The permissions after one more grant, if the session may make it.
    fn permissions_with(&self, grant: &Grant) -> Result<Permissions, PolicyFault>
        ensures ok { IfOk result (λ next. rows.grant self.now grant.now ≡ Ok (record self.now { granted = next.granted })) }
        ensures same { IfOk result (λ next. next.roles ≡ self.now.roles) }
        ensures refused { IfErr result (IsFaultOf (rows.grant self.now grant.now)) }
    {
        if !self.is_role(&grant.role) {
            return Err(PolicyFault::Refused(Refusal::Unknown));
        }
        if self.has_grant(grant) {
            return Err(PolicyFault::Refused(Refusal::Known));
        }
        if !self.has_room_for_grant() {
            return Err(PolicyFault::Refused(Refusal::Full));
        }
        Ok(self.permissions.with(grant)?)
    }

    /// Removes a grant (RevokePermission).
    ///
    /// # Errors
    /// `Unknown` grant; or `Memory`. Then the policy is unchanged.
    pub fn revoke(&mut self, grant: &Grant) -> Result<(), PolicyFault>
        ensures ok { OnOk result (rows.revoke self.old grant.now ≡ Ok self.new) }
        ensures refused { IfErr result (IsFaultOf (rows.revoke self.old grant.now)) }
        ensures err { OnErr result (self.new ≡ self.old) }
    {
        if !self.has_grant(grant) {
            return Err(PolicyFault::Refused(Refusal::Unknown));
        }
        let permissions = self.permissions.without(grant)?;
        self.permissions = permissions;
        Ok(())
    }
}
