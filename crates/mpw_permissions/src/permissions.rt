//! Roles and the grants to them, which copies of the policy share.
//!
//! The grants have masks of their roles, by operation and object. So the test whether one of some roles has a grant costs a look-up and an
//! `and` of eight words. Adding or removing a grant copies a block of the grants, and a bucket of its operation's masks. A change of pairs
//! leaves both unchanged, since masks have indexes of roles. So does a new role, since each grant is to an existing role. Removing a role
//! makes the masks again, with a pass over the grants for each operation.
ghost use Rattle.std.specs.Prelude.{◌≡◌, ◌∷◌, ◌++◌, [], ℕ, List, true, false, length, map, nat_lt, IfOk, IfErr, Ok, Err};
ghost use Rattle.std.specs.List.{list_any};
ghost use Rattle.mpw_geom.specs.Names.{without_name};
ghost use Rattle.mpw_roles.specs.Hierarchy.{role_names, is_role};
ghost use Rattle.mpw_roles.specs.Mask.{has};
ghost use Rattle.mpw_roles.specs.Order.{roles_below};
ghost use Rattle.mpw_roles.specs.Places.{is_place_below};
ghost use Rattle.mpw_permissions.specs.Grant.{grant_eq, without_grant, is_granted_to, ungranted};
ghost use Rattle.mpw_permissions.specs.Internal.Holders.{are_to_roles, grants_after};
ghost use Rattle.mpw_permissions.specs.Permissions.{AreMoreNames};

use crate::grants::Grants;
use crate::holders::{SharedHolders, all_holders, holders_after, index, places_of};
use crate::{Grant, Object, Operation};
use mpw_geom::Name;
use mpw_roles::{Mask, Roles};
use std::alloc::{AllocError, Global};
use std::marker::Model;
use std::sync::Arc;

/// Roles, and grants in the order in which they were added. A copy costs three counts.
pub struct Permissions {
    roles: Arc<Roles>,
    granted: Grants,
    holders: Arc<Vec<SharedHolders>>,
}

impl Drop for Permissions {
    fn drop(self) {
        let Permissions {
            roles,
            granted,
            holders,
        } = self;
        drop(roles);
        drop(granted);
        drop(holders);
    }
}

impl Model for Permissions {
    ghost use Rattle.mpw_roles.specs.Hierarchy.{role_names};
    ghost use Rattle.mpw_permissions.specs.Internal.Holders.{ArePermissions};
    ghost use Rattle.mpw_permissions.specs.Permissions.{Permissions as PermissionsState};

    ghost Value = { PermissionsState };

    ghost view = { λ p. record { roles = p.roles.value; granted = p.granted } };

    ghost invariant = { λ p. ArePermissions (role_names p.roles.value) p.granted p.holders.value.items };
}

impl Permissions {
    /// These roles and grants.
    fn of(alloc: Global, roles: Arc<Roles>, granted: Grants) -> Result<Permissions, AllocError>
        requires { are_to_roles (role_names roles.value) granted ≡ true }
        ensures { IfOk result (λ next. next ≡ record { roles = roles.value; granted = granted }) }
    {
        let holders = all_holders(alloc, &roles, &granted)?;
        Ok(Permissions {
            roles,
            granted,
            holders,
        })
    }

    /// These roles, and one grant to one of them.
    ///
    /// # Errors
    /// Out of memory.
    pub fn new(alloc: Global, roles: Roles, grant: &Grant) -> Result<Permissions, AllocError>
        requires { is_role roles grant.now.role ≡ true }
        ensures { IfOk result (λ next. next ≡ record { roles = roles; granted = grant.now ∷ [] }) }
    {
        let roles = Arc::new(alloc, roles)?;
        let granted = Grants::one(alloc, grant)?;
        Permissions::of(alloc, roles, granted)
    }

    /// The roles.
    pub fn roles(&self) -> &Roles
        ensures { result.now ≡ self.now.roles }
    {
        &self.roles
    }

    /// Whether there are fewer than `limit` grants.
    pub fn has_room(&self, limit: usize) -> bool
        ensures { result ≡ nat_lt (length self.now.granted) limit }
    {
        self.granted.is_shorter(limit)
    }

    /// Whether the grant exists. Cost: a look-up and a bit.
    pub fn has_grant(&self, grant: &Grant) -> bool
        ensures { result ≡ list_any (grant_eq grant.now) self.now.granted }
    {
        let Some(place) = self.roles.place(&grant.role) else {
            return false;
        };
        let operation = index(grant.operation);
        places_of(&self.holders[operation], &grant.object).contains(place)
    }

    /// Whether one of the roles of a mask has a grant of the operation on the object. Cost: a look-up, and an `and` of eight words. It
    /// takes no memory.
    pub fn is_granted_to(&self, roles: &Mask, operation: Operation, object: &Object) -> bool
        ensures { (seniors : List (List ℕ)) → ((place : ℕ) → has roles.now place ≡ is_place_below self.now.roles seniors place) → result ≡ list_any (is_granted_to (roles_below self.now.roles seniors) operation object.now) self.now.granted }
    {
        let place = index(operation);
        places_of(&self.holders[place], object).meets(roles)
    }

    /// The grants with other roles: the same ones in their order, and perhaps one more at the end. The masks stay, since they have indexes,
    /// and a new name has no grant.
    ///
    /// # Errors
    /// Out of memory.
    pub fn with_roles(&self, roles: Roles) -> Result<Permissions, AllocError>
        requires { AreMoreNames (role_names self.now.roles) (role_names roles) }
        ensures { IfOk result (λ next. next ≡ record self.now { roles = roles }) }
    {
        roles.is_hierarchy();
        let roles = Arc::new(roles.allocator(), roles)?;
        let granted = self.granted.copy()?;
        let holders = self.holders.clone()?;
        Ok(Permissions {
            roles,
            granted,
            holders,
        })
    }

    /// With one more grant to a role, or without a grant. Cost: a copy of a block of the grants, and of a bucket of the operation's masks.
    fn after(&self, grant: &Grant, more: bool) -> Result<Permissions, AllocError>
        requires { more ≡ true → is_role self.now.roles grant.now.role ≡ true }
        ensures { IfOk result (λ next. next ≡ record self.now { granted = grants_after more self.now.granted grant.now }) }
    {
        let holders = holders_after(&self.roles, &self.holders, grant, more)?;
        let granted = self.granted.after(self.roles.allocator(), grant, more)?;
        let roles = self.roles.clone()?;
        Ok(Permissions {
            roles,
            granted,
            holders,
        })
    }

    /// With one more grant to a role. Cost: a copy of a block of the grants, and of a bucket of the operation's masks.
    ///
    /// # Errors
    /// Out of memory.
    pub fn with(&self, grant: &Grant) -> Result<Permissions, AllocError>
        requires { is_role self.now.roles grant.now.role ≡ true }
        ensures { IfOk result (λ next. next ≡ record self.now { granted = self.now.granted ++ grant.now ∷ [] }) }
    {
        self.after(grant, true)
    }

    /// Without a grant, if it exists. Cost: that of adding one, and a search for it in the blocks.
    ///
    /// # Errors
    /// Out of memory.
    pub fn without(&self, grant: &Grant) -> Result<Permissions, AllocError>
        ensures { IfOk result (λ next. next ≡ record self.now { granted = without_grant self.now.granted grant.now }) }
    {
        self.after(grant, false)
    }

    /// With other roles, and without the grants to a role. It makes the masks again. Cost: a pass over the grants for each operation.
    ///
    /// # Errors
    /// Out of memory.
    pub fn without_role(&self, roles: Roles, role: &Name) -> Result<Permissions, AllocError>
        requires { role_names roles ≡ without_name (role_names self.now.roles) role.now }
        ensures { IfOk result (λ next. next ≡ record { roles = roles; granted = ungranted self.now.granted role.now }) }
    {
        let alloc = roles.allocator();
        let granted = self.granted.without_grants_to(alloc, role)?;
        let roles = Arc::new(alloc, roles)?;
        let left = Permissions::of(alloc, roles, granted)?;
        Ok(left)
    }

    /// The same roles and grants. Cost: three counts.
    ///
    /// # Errors
    /// Out of memory.
    pub fn copy(&self) -> Result<Permissions, AllocError>
        ensures { IfOk result (λ copy. copy ≡ self.now) }
    {
        let roles = self.roles.clone()?;
        let granted = self.granted.copy()?;
        let holders = self.holders.clone()?;
        Ok(Permissions {
            roles,
            granted,
            holders,
        })
    }
}
