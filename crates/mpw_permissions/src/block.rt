//! Some grants in their order, in a block that copies share.
//!
//! A block never changes. It also has the slots of its grants' objects and roles, which are hashes of the names. Most blocks without a
//! grant are excluded by its slots, without a comparison of grants.
ghost use Rattle.std.specs.Prelude.{◌≡◌, ◌<◌, ◌∷◌, ◌++◌, [], not, IfOk};
ghost use Rattle.std.specs.List.{list_any};
ghost use Rattle.mpw_geom.specs.Names.{name_eq};
ghost use Rattle.mpw_permissions.specs.Grant.{grant_eq, without_grant, ungranted};
ghost use Rattle.mpw_permissions.specs.Internal.Grants.{AreCovered, AreSlots};

use crate::Grant;
use crate::bucket::{hash, name_hash};
use mpw_geom::Name;
use mpw_lists::roomy_copy;
use mpw_roles::Mask;
use std::alloc::{AllocError, Global};
use std::marker::Model;
use std::sync::Arc;

/// The number of slots: as many as a [`Mask`] has indexes.
const SLOTS: u64 = 512;

/// The slots of a grant's object and of its role.
#[derive(Clone, Copy)]
pub(crate) struct Slots {
    object: usize,
    role: usize,
}

impl Slots {
    /// The slots of a grant: hashes of two names.
    #[tactic(auto, unfolding(crate::specs::Internal::Grants::object_slot, crate::specs::Internal::Grants::role_slot))]
    pub(crate) fn of(grant: &Grant) -> Slots
        ensures slots { AreSlots result grant.now }
        ensures object { result.object < 512 }
        ensures role { result.role < 512 }
    {
        Slots {
            object: (hash(&grant.object) % SLOTS) as usize,
            role: (name_hash(&grant.role) % SLOTS) as usize,
        }
    }
}

/// Some grants in their order, and the slots of their objects and of their roles. There may be more slots than these.
pub(crate) struct Block {
    grants: Arc<Vec<Grant>>,
    objects: Mask,
    roles: Mask,
}

impl Drop for Block {
    fn drop(self) {
        let Block {
            grants,
            objects: _,
            roles: _,
        } = self;
        drop(grants);
    }
}

impl Model for Block {
    ghost use Rattle.std.specs.Prelude.{List};
    ghost use Rattle.mpw_permissions.specs.declared.permission.Grant.{Grant};
    ghost use Rattle.mpw_permissions.specs.Internal.Grants.{AreCovered};

    ghost Value = { List Grant };

    ghost view = { λ block. block.grants.value.items };

    ghost invariant = { λ block. AreCovered block.objects block.roles block.grants.value.items };
}

/// The same grant.
fn copy_of(grant: &Grant) -> Result<Grant, AllocError>
    ensures { IfOk result (λ copy. copy ≡ grant.now) }
{
    grant.clone()
}

/// The same grants, with room for one more.
fn copy_of_all(alloc: Global, grants: &[Grant]) -> Result<Vec<Grant>, AllocError>
    ensures { IfOk result (λ copy. copy.items ≡ grants.now) }
{
    roomy_copy(alloc, grants)
}

/// The grants with one more at their end.
fn with_grant(alloc: Global, grants: &[Grant], grant: &Grant) -> Result<Vec<Grant>, AllocError>
    ensures { IfOk result (λ next. next.items ≡ grants.now ++ grant.now ∷ []) }
{
    let mut next = copy_of_all(alloc, grants)?;
    next.push(copy_of(grant)?)?;
    Ok(next)
}

/// Whether the grant is one of them.
fn has(grants: &[Grant], grant: &Grant) -> bool
    ensures { result ≡ list_any (grant_eq grant.now) grants.now }
{
    for other in grants {
        if *grant == *other {
            return true;
        }
    }
    false
}

/// Removes a grant.
fn take_back(grants: &mut Vec<Grant>, grant: &Grant)
    ensures { grants.new.items ≡ without_grant grants.old.items grant.now }
{
    grants.retain(
        |other: &Grant| -> bool
            ensures { result ≡ not (grant_eq grant.entry.now other.now) }
        { *grant != *other },
    );
}

/// Removes the grants to a role.
fn ungrant(grants: &mut Vec<Grant>, role: &Name)
    ensures { grants.new.items ≡ ungranted grants.old.items role.now }
{
    grants.retain(
        |grant: &Grant| -> bool
            ensures { result ≡ not (name_eq role.entry.now grant.now.role) }
        { *role != grant.role },
    );
}

impl Block {
    /// These grants, with the slots of their objects and of their roles.
    fn of(
        alloc: Global,
        grants: Vec<Grant>,
        objects: Mask,
        roles: Mask,
    ) -> Result<Block, AllocError>
        requires { AreCovered objects roles grants.items }
        ensures { IfOk result (λ block. block ≡ grants.items) }
    {
        Ok(Block {
            grants: Arc::new(alloc, grants)?,
            objects,
            roles,
        })
    }

    /// A block without grants.
    fn new(alloc: Global) -> Result<Block, AllocError>
        ensures { IfOk result (λ block. block ≡ []) }
    {
        Block::of(alloc, Vec::new(alloc), Mask::new(), Mask::new())
    }

    /// A block of one grant.
    pub(crate) fn one(alloc: Global, grant: &Grant) -> Result<Block, AllocError>
        ensures { IfOk result (λ block. block ≡ grant.now ∷ []) }
    {
        Block::new(alloc)?.with(alloc, grant)
    }

    /// Its grants.
    pub(crate) fn as_slice(&self) -> &[Grant]
        ensures { result.now ≡ self.now }
    {
        self.grants.as_slice()
    }

    /// Whether the grant is one of its grants. Its slots are tested first. If both are there, each grant is compared.
    pub(crate) fn contains(&self, slots: Slots, grant: &Grant) -> bool
        requires { AreSlots slots grant.now }
        ensures { result ≡ list_any (grant_eq grant.now) self.now }
    {
        if !self.objects.contains(slots.object) {
            return false;
        }
        if !self.roles.contains(slots.role) {
            return false;
        }
        has(self.as_slice(), grant)
    }

    /// The block with one more grant at its end.
    pub(crate) fn with(&self, alloc: Global, grant: &Grant) -> Result<Block, AllocError>
        ensures { IfOk result (λ block. block ≡ self.now ++ grant.now ∷ []) }
    {
        let slots = Slots::of(grant);
        let mut objects = self.objects;
        objects.insert(slots.object);
        let mut roles = self.roles;
        roles.insert(slots.role);
        let grants = with_grant(alloc, self.as_slice(), grant)?;
        Block::of(alloc, grants, objects, roles)
    }

    /// The block without a grant, by its slots. If it doesn't have the grant, it is the same block.
    pub(crate) fn without(
        &self,
        alloc: Global,
        slots: Slots,
        grant: &Grant,
    ) -> Result<Block, AllocError>
        requires { AreSlots slots grant.now }
        ensures { IfOk result (λ block. block ≡ without_grant self.now grant.now) }
    {
        if !self.contains(slots, grant) {
            return self.clone();
        }
        let (objects, roles) = (self.objects, self.roles);
        let mut grants = copy_of_all(alloc, self.as_slice())?;
        take_back(&mut grants, grant);
        Block::of(alloc, grants, objects, roles)
    }

    /// The block without the grants to a role.
    pub(crate) fn without_grants_to(&self, alloc: Global, role: &Name) -> Result<Block, AllocError>
        ensures { IfOk result (λ block. block ≡ ungranted self.now role.now) }
    {
        let (objects, roles) = (self.objects, self.roles);
        let mut grants = copy_of_all(alloc, self.as_slice())?;
        ungrant(&mut grants, role);
        Block::of(alloc, grants, objects, roles)
    }
}

impl Clone for Block {
    ghost is_clone = { λ block copy. copy ≡ block };

    /// The same block. Cost: one count.
    fn clone(&self) -> Result<Block, AllocError> {
        Ok(Block {
            grants: self.grants.clone()?,
            objects: self.objects,
            roles: self.roles,
        })
    }
}
