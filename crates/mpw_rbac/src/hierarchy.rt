//! The administrative requests of the role hierarchy.
ghost use Rattle.std.specs.Prelude.{◌≡◌, ◌⊎◌, [], ◌∷◌, map, IfOk, IfErr, OnOk, OnErr, Ok, Err, None};
ghost use Rattle.std.specs.Option.{option_copied};
ghost use Rattle.mpw_separation.specs.Separation.{least_broken};
ghost use Rattle.mpw_roles.specs.Hierarchy.{role_names};
ghost use Rattle.mpw_roles.specs.Rows as hierarchy;
ghost use Rattle.mpw_rbac.specs.Internal.Fault.{IsHierarchyFault};
ghost use Rattle.mpw_rbac.specs.Internal.Pairs.{pair_row, holding};
ghost use Rattle.mpw_rbac.specs.Masked.{AreUsers};
ghost use Rattle.mpw_rbac.specs.Policy.{assigned_lists, active_lists};
ghost use Rattle.mpw_rbac.specs.Rows.{IsFaultOf};
ghost use Rattle.mpw_permissions.specs.Grant.{ungranted};
ghost use Rattle.mpw_rbac.specs.Rows as rows;

use crate::separation::{least_dynamic, least_static};
use crate::users::Users;
use crate::{Policy, PolicyFault, Refusal};
use mpw_geom::Name;
use mpw_permissions::Permissions;
use mpw_roles::{Roles, RolesFault};

/// A change of an immediate pair of roles.
#[derive(Clone, Copy)]
pub(crate) enum PairChange {
    /// The senior becomes an immediate senior of the junior.
    Inherit,
    /// The senior no longer is an immediate senior of the junior.
    Uninherit,
}

/// With one more role.
pub(crate) fn with_role(permissions: &Permissions, role: Name) -> Result<Permissions, PolicyFault>
    ensures ok { IfOk result (λ next. hierarchy.add permissions.now.roles role ≡ Ok next.roles) }
    ensures same { IfOk result (λ next. next.granted ≡ permissions.now.granted) }
    ensures refused { IfErr result (IsHierarchyFault (hierarchy.add permissions.now.roles role)) }
{
    let mut roles = permissions.roles().copy()?;
    roles.add(role)?;
    Ok(permissions.with_roles(roles)?)
}

/// Without a role, and the grants to it.
pub(crate) fn without_role(
    permissions: &Permissions,
    role: &Name,
) -> Result<Permissions, PolicyFault>
    ensures ok { IfOk result (λ next. hierarchy.remove permissions.now.roles role.now ≡ Ok next.roles) }
    ensures ungranted { IfOk result (λ next. next.granted ≡ ungranted permissions.now.granted role.now) }
    ensures refused { IfErr result (IsHierarchyFault (hierarchy.remove permissions.now.roles role.now)) }
{
    let mut roles = permissions.roles().copy()?;
    roles.remove(role)?;
    Ok(permissions.without_role(roles, role)?)
}

/// Adds or removes a pair of the roles.
fn change_pair(
    roles: &mut Roles,
    change: PairChange,
    senior: &Name,
    junior: &Name,
) -> Result<(), RolesFault>
    ensures ok { OnOk result (pair_row change roles.old senior.now junior.now ≡ Ok roles.new) }
    ensures refused { IfErr result (λ fault. (fault ≡ RolesFault.Memory) ⊎ (pair_row change roles.old senior.now junior.now ≡ Err fault)) }
{
    match change {
        PairChange::Inherit => roles.inherit(senior, junior),
        PairChange::Uninherit => roles.uninherit(senior, junior),
    }
}

/// The permissions after a pair is added or removed.
fn with_changed_pair(
    permissions: &Permissions,
    change: PairChange,
    senior: &Name,
    junior: &Name,
) -> Result<Permissions, PolicyFault>
    ensures ok { IfOk result (λ next. pair_row change permissions.now.roles senior.now junior.now ≡ Ok next.roles) }
    ensures same { IfOk result (λ next. next.granted ≡ permissions.now.granted) }
    ensures refused { IfErr result (IsHierarchyFault (pair_row change permissions.now.roles senior.now junior.now)) }
{
    let mut roles = permissions.roles().copy()?;
    change_pair(&mut roles, change, senior, junior)?;
    Ok(permissions.with_roles(roles)?)
}

impl Policy {
    /// Makes the senior an immediate senior of the junior (AddInheritance).
    ///
    /// # Errors
    /// `Unknown` role, `Known`, `Loop`, `Ssd`, `Dsd`, tested in this order; or `Memory`. Then the policy is unchanged.
    pub fn inherit(&mut self, senior: &Name, junior: &Name) -> Result<(), PolicyFault>
        ensures ok { OnOk result (rows.inherit self.old senior.now junior.now ≡ Ok self.new) }
        ensures refused { IfErr result (IsFaultOf (rows.inherit self.old senior.now junior.now)) }
        ensures err { OnErr result (self.new ≡ self.old) }
    {
        let next = with_changed_pair(&self.permissions, PairChange::Inherit, senior, junior)?;
        let roles = next.roles();
        let users = self
            .users
            .with_joined_masks(self.permissions.roles(), senior, junior)?;
        self.holds_among(roles, &users)?;
        self.sessions.remask(roles);
        self.users = users;
        self.permissions = next;
        Ok(())
    }

    /// Removes an immediate pair of roles. Sessions lose what the pair authorized (DeleteInheritance).
    ///
    /// # Errors
    /// `Unknown` pair; or `Memory`. Then the policy is unchanged.
    pub fn uninherit(&mut self, senior: &Name, junior: &Name) -> Result<(), PolicyFault>
        ensures ok { OnOk result (rows.uninherit self.old senior.now junior.now ≡ Ok self.new) }
        ensures refused { IfErr result (IsFaultOf (rows.uninherit self.old senior.now junior.now)) }
        ensures err { OnErr result (self.new ≡ self.old) }
    {
        let permissions = with_changed_pair(
            &self.permissions,
            PairChange::Uninherit,
            senior,
            junior,
        )?;
        let roles = permissions.roles();
        let users = self.users.among(roles)?;
        self.sessions.trim(&users, roles);
        self.users = users;
        self.permissions = permissions;
        Ok(())
    }

    /// The tests of the sets in another hierarchy of the same roles.
    fn holds_among(&self, roles: &Roles, users: &Users) -> Result<(), PolicyFault>
        requires roles { role_names roles.now ≡ role_names self.now.roles }
        requires users { AreUsers roles.now self.now.users users.now }
        ensures static_sets { OnOk result (least_broken roles.now self.now.ssd (assigned_lists self.now.users) ≡ None) }
        ensures dynamic_sets { OnOk result (least_broken roles.now self.now.dsd (active_lists self.now.sessions) ≡ None) }
        ensures refused { IfErr result (IsFaultOf (holding self.now roles.now)) }
    {
        if let Some(name) = least_static(&self.sets, roles, users) {
            return Err(PolicyFault::Refused(Refusal::Ssd(name.copy()?)));
        }
        if let Some(name) = least_dynamic(&self.sets, roles, self.sessions.table()) {
            return Err(PolicyFault::Refused(Refusal::Dsd(name.copy()?)));
        }
        Ok(())
    }
}
