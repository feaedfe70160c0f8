//! The roles with a grant of one operation, by object: the indexes of the roles as masks, in buckets.
//!
//! The masks of each operation have their own shared pointer, and so have each group of buckets and each bucket. So adding or removing a
//! grant makes one new bucket, and counts the others of its group and the other groups of its operation. There are 32 groups of 16 buckets,
//! with about eight objects in each at the greatest number of grants.
ghost use Rattle.std.specs.Prelude.{◌≡◌, ℕ, ◌<◌, ◌==◌, ◌||◌, ◌&&◌, not, [], ◌∷◌, ◌++◌, List, true, false, IfOk, OnOk, length, slice_index_or, if◌then◌else◌};
ghost use Rattle.std.specs.List.{flat_map};
ghost use Rattle.mpw_roles.specs.Hierarchy.{role_names};
ghost use Rattle.mpw_roles.specs.Mask.{has};
ghost use Rattle.mpw_permissions.specs.Grant.{operation_index, object_eq};
ghost use Rattle.mpw_permissions.specs.Internal.Holders.{holds, holds_within, IsHeld, AreHeld, IsHeldAfter, AreHeldAfter};
ghost use Rattle.mpw_permissions.specs.declared.permission.Grant.{Grant as GrantState};
ghost use Rattle.mpw_permissions.specs.declared.permission.Object.{Object as ObjectState};

use crate::block::Block;
use crate::grants::Grants;
use crate::group::{GROUPS, Group, Place};
use crate::{Grant, Object, Operation};
use mpw_lists::Shared;
use mpw_roles::{Mask, Roles};
use std::alloc::{AllocError, Global};
use std::marker::Model;
use std::sync::Arc;

/// The number of operations.
const OPERATIONS: usize = 11;

/// The indexes of the roles with a grant of one operation on each object: each object in its bucket.
pub(crate) struct Holders {
    groups: Vec<Group>,
}

impl Drop for Holders {
    fn drop(self) {
        let Holders { groups } = self;
        drop(groups);
    }
}

impl Model for Holders {
    ghost use Rattle.std.specs.Prelude.{◌≡◌, length};
    ghost use Rattle.mpw_permissions.specs.Internal.Holders.{Buckets};

    ghost Value = { Buckets };

    ghost view = { λ holders. holders.groups.items };

    ghost invariant = { λ holders. length holders.groups.items ≡ 32 };
}

/// The index of an operation among all.
pub(crate) fn index(operation: Operation) -> usize
    ensures index { result ≡ operation_index operation }
    ensures within { result < 11 }
{
    match operation {
        Operation::Submit => 0,
        Operation::Use => 1,
        Operation::Read => 2,
        Operation::Place => 3,
        Operation::Admin => 4,
        Operation::Deck => 5,
        Operation::Run => 6,
        Operation::Waive => 7,
        Operation::Sign => 8,
        Operation::Verdict => 9,
        Operation::Audit => 10,
    }
}

/// A mask with one index more, or less.
fn with_place(mask: &Mask, place: usize, more: bool) -> Mask
    requires { place < 512 }
    ensures more { more ≡ true → (other : ℕ) → has result other ≡ (has mask.now other || other == place) }
    ensures less { more ≡ false → (other : ℕ) → has result other ≡ (has mask.now other && not (other == place)) }
{
    let mut next = *mask;
    if more {
        next.insert(place);
    } else {
        next.remove(place);
    }
    next
}

impl Holders {
    /// No holders. Cost: one empty group, and a count for each other one.
    fn new(alloc: Global) -> Result<Holders, AllocError>
        ensures { IfOk result (λ holders. (object : ObjectState) (place : ℕ) → holds holders object place ≡ false) }
    {
        let groups = vec![in alloc; Group::new(alloc)?; GROUPS]?;
        Ok(Holders { groups })
    }

    /// The same masks. Cost: a count for each group.
    fn copy(&self) -> Result<Holders, AllocError>
        ensures { IfOk result (λ copy. copy ≡ self.now) }
    {
        Ok(Holders {
            groups: self.groups.clone()?,
        })
    }

    /// The indexes of the roles with a grant of the operation on the object. Cost: a hash, and a search of its bucket.
    fn of(&self, object: &Object) -> Mask
        ensures { (place : ℕ) → has result place ≡ holds self.now object.now place }
    {
        let _all = self.groups.len();
        let place = Place::of(object);
        self.groups[place.group].of(place, object)
    }

    /// Sets the mask of an object. Its bucket is changed in place if no copy shares it.
    fn put(&mut self, object: &Object, mask: &Mask) -> Result<(), AllocError>
        ensures { OnOk result ((other : ObjectState) (place : ℕ) → holds self.new other place ≡ (if object_eq object.now other then has mask.now place else holds self.old other place)) }
    {
        let alloc = *self.groups.allocator();
        let place = Place::of(object);
        self.groups[place.group].put(alloc, place, object, mask)
    }

    /// Adds or removes a grant. It has an effect only if it is of the operation at that index among all.
    fn change(
        &mut self,
        roles: &Roles,
        operation: usize,
        grant: &Grant,
        more: bool,
    ) -> Result<(), AllocError>
        ensures { OnOk result (IsHeldAfter more (role_names roles.now) grant.now operation self.old self.new) }
    {
        roles.is_hierarchy();
        if index(grant.operation) != operation {
            return Ok(());
        }
        let Some(place) = roles.place(&grant.role) else {
            return Ok(());
        };
        let mask = with_place(&self.of(&grant.object), place, more);
        self.put(&grant.object, &mask)
    }
}

/// The holders of one operation, which copies of the policy share.
pub(crate) type SharedHolders = Shared<Holders>;

/// The indexes of the roles with a grant of the operation on the object.
pub(crate) fn places_of(shared: &SharedHolders, object: &Object) -> Mask
    ensures { (place : ℕ) → has result place ≡ holds shared.now object.now place }
{
    shared.get().of(object)
}

/// The holders of the operation at that index among all, after a grant was added or removed. If the grant is of the operation, they have
/// new buckets; else they are the same.
fn after(
    shared: &SharedHolders,
    roles: &Roles,
    operation: usize,
    grant: &Grant,
    more: bool,
) -> Result<SharedHolders, AllocError>
    ensures { IfOk result (λ next. IsHeldAfter more (role_names roles.now) grant.now operation shared.now next) }
{
    if operation != index(grant.operation) {
        return shared.copy();
    }
    let mut holders = shared.get().copy()?;
    holders.change(roles, operation, grant, more)?;
    Shared::new(roles.allocator(), holders)
}

/// The holders of each operation after a grant was added or removed. Those of other operations stay shared.
pub(crate) fn holders_after(
    roles: &Roles,
    all: &[SharedHolders],
    grant: &Grant,
    more: bool,
) -> Result<Arc<Vec<SharedHolders>>, AllocError>
    requires { length all.now ≡ 11 }
    ensures { IfOk result (λ next. AreHeldAfter more (role_names roles.now) grant.now all.now next.value.items) }
{
    let alloc = roles.allocator();
    let mut next = Vec::with_capacity(alloc, OPERATIONS)?;
    for operation in 0..OPERATIONS {
        next.push(after(&all[operation], roles, operation, grant, more)?)?;
    }
    Ok(Arc::new(alloc, next)?)
}

/// Adds the grants of a block to the holders of the operation at that index among all.
fn add_all(
    holders: &mut Holders,
    roles: &Roles,
    operation: usize,
    grants: &[Grant],
) -> Result<(), AllocError>
    ensures { OnOk result ((done : List GrantState) → IsHeld (role_names roles.now) done operation holders.old → IsHeld (role_names roles.now) (done ++ grants.now) operation holders.new) }
{
    for grant in grants {
        holders.change(roles, operation, grant, true)?;
    }
    Ok(())
}

/// Adds the grants of blocks to the holders of the operation at that index among all.
fn add_blocks(
    holders: &mut Holders,
    roles: &Roles,
    operation: usize,
    blocks: &[Block],
) -> Result<(), AllocError>
    ensures { OnOk result ((done : List GrantState) → IsHeld (role_names roles.now) done operation holders.old → IsHeld (role_names roles.now) (done ++ flat_map (λ block. block) blocks.now) operation holders.new) }
{
    for block in blocks {
        add_all(holders, roles, operation, block.as_slice())?;
    }
    Ok(())
}

/// The holders of the operation at that index among all. One pass over the grants.
fn holders_of(
    alloc: Global,
    roles: &Roles,
    granted: &Grants,
    operation: usize,
) -> Result<SharedHolders, AllocError>
    ensures { IfOk result (λ holders. IsHeld (role_names roles.now) granted.now operation holders) }
{
    let mut holders = Holders::new(alloc)?;
    let (blocks, last) = granted.parts();
    add_blocks(&mut holders, roles, operation, blocks)?;
    add_all(&mut holders, roles, operation, last)?;
    Shared::new(alloc, holders)
}

/// The holders of each operation. A pass over the grants for each.
pub(crate) fn all_holders(
    alloc: Global,
    roles: &Roles,
    granted: &Grants,
) -> Result<Arc<Vec<SharedHolders>>, AllocError>
    ensures { IfOk result (λ all. AreHeld (role_names roles.now) granted.now all.value.items) }
{
    let mut all = Vec::with_capacity(alloc, OPERATIONS)?;
    for operation in 0..OPERATIONS {
        all.push(holders_of(alloc, roles, granted, operation)?)?;
    }
    Ok(Arc::new(alloc, all)?)
}
