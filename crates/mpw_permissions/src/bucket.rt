//! Buckets of objects with their masks: objects by a hash of their names.
//!
//! A bucket that copies share never changes. A change of one object's mask makes a new bucket, and all others stay shared. A bucket that no
//! copy shares yet is changed in place, for example while the masks of all grants are made. The hash is no secret, so names can be chosen
//! that share a bucket. A look-up among n such names costs n comparisons.
ghost use Rattle.std.specs.Prelude.{◌≡◌, ℕ, not, filter, List, length, IfOk, OnOk, true, false, [], ◌∷◌, ◌++◌, if◌then◌else◌};
ghost use Rattle.mpw_roles.specs.Mask.{has};
ghost use Rattle.mpw_permissions.specs.Grant.{object_eq};
ghost use Rattle.mpw_permissions.specs.Internal.Holders.{hash, name_hash, holds_in};
ghost use Rattle.mpw_permissions.specs.declared.bucket.Held.{Held as HeldState};
ghost use Rattle.mpw_permissions.specs.declared.permission.Object.{Object as ObjectState};

use crate::Object;
use mpw_geom::Name;
use mpw_roles::Mask;
use std::alloc::{AllocError, Global};
use std::hash::{FoldHasher, Hash, Hasher};
use std::marker::Model;
use std::sync::Arc;

/// A hash of a name.
#[tactic(auto, unfolding(crate::specs::Internal::Holders::name_hash))]
pub(crate) fn name_hash(name: &Name) -> u64
    ensures { result ≡ name_hash name.now }
{
    let mut state = FoldHasher::default();
    name.hash(&mut state);
    state.finish()
}

/// A hash of an object's name.
#[tactic(auto, unfolding(crate::specs::Internal::Holders::hash))]
pub(crate) fn hash(object: &Object) -> u64
    ensures { result ≡ hash object.now }
{
    match object {
        Object::Desk => 0,
        Object::Cell(name) => name_hash(name),
    }
}

/// The same object.
pub(crate) fn copy_of(object: &Object) -> Result<Object, AllocError>
    ensures { IfOk result (λ copy. copy ≡ object.now) }
{
    object.clone()
}

/// An object with its mask.
pub(crate) struct Held {
    object: Object,
    mask: Mask,
}

impl Drop for Held {
    fn drop(self) {
        let Held { object, mask: _ } = self;
        drop(object);
    }
}

impl Clone for Held {
    ghost is_clone = { λ held copy. copy ≡ held };

    /// The same object with the same mask. Cost: a count.
    fn clone(&self) -> Result<Held, AllocError> {
        let object = copy_of(&self.object)?;
        Ok(Held {
            object,
            mask: self.mask,
        })
    }
}

/// The masks of some objects, which copies share.
pub(crate) struct Bucket {
    masks: Arc<Vec<Held>>,
}

impl Drop for Bucket {
    fn drop(self) {
        let Bucket { masks } = self;
        drop(masks);
    }
}

impl Model for Bucket {
    ghost use Rattle.std.specs.Prelude.{List};
    ghost use Rattle.mpw_permissions.specs.declared.bucket.Held.{Held};

    ghost Value = { List Held };

    ghost view = { λ bucket. bucket.masks.value.items };
}

/// The mask of an object among some.
fn mask_of(masks: &[Held], object: &Object) -> Mask
    ensures { (place : ℕ) → has result place ≡ holds_in masks.now object.now place }
{
    for held in masks {
        if *object == held.object {
            return held.mask;
        }
    }
    Mask::new()
}

/// Adds the mask of an object at the end.
fn add(masks: &mut Vec<Held>, object: &Object, mask: &Mask) -> Result<(), AllocError>
    ensures { OnOk result (masks.new.items ≡ masks.old.items ++ record { object = object.now; mask = mask.now } ∷ []) }
{
    let object = copy_of(object)?;
    masks.push(Held {
        object,
        mask: *mask,
    })?;
    Ok(())
}

/// Adds the mask of an object to those of all others, unless it is empty.
fn keep(masks: &mut Vec<Held>, object: &Object, mask: &Mask) -> Result<(), AllocError>
    ensures { OnOk result ((all : List HeldState) →
        masks.old.items ≡ filter (λ (held : HeldState). not (object_eq object.now held.object)) all →
        (other : ObjectState) (place : ℕ) → holds_in masks.new.items other place ≡
        (if object_eq object.now other then has mask.now place else holds_in all other place)) }
{
    if !mask.meets(mask) {
        return Ok(());
    }
    add(masks, object, mask)
}

/// Removes the mask of an object.
fn take_out(masks: &mut Vec<Held>, object: &Object)
    ensures { masks.new.items ≡ filter (λ (held : HeldState). not (object_eq object.now held.object)) masks.old.items }
{
    masks.retain(
        |held: &Held| -> bool
            ensures { result ≡ not (object_eq object.entry.now held.now.object) }
        { *object != held.object },
    );
}

/// Sets the mask of an object among some. An empty mask isn't stored.
fn write(masks: &mut Vec<Held>, object: &Object, mask: &Mask) -> Result<(), AllocError>
    ensures { OnOk result ((other : ObjectState) (place : ℕ) → holds_in masks.new.items other place ≡ (if object_eq object.now other then has mask.now place else holds_in masks.old.items other place)) }
{
    take_out(masks, object);
    keep(masks, object, mask)
}

impl Bucket {
    /// A bucket without objects.
    pub(crate) fn new(alloc: Global) -> Result<Bucket, AllocError>
        ensures { IfOk result (λ bucket. bucket ≡ []) }
    {
        Ok(Bucket {
            masks: Arc::new(alloc, Vec::new(alloc))?,
        })
    }

    /// The mask of an object. Cost: a comparison for each object of the bucket.
    pub(crate) fn of(&self, object: &Object) -> Mask
        ensures { (place : ℕ) → has result place ≡ holds_in self.now object.now place }
    {
        mask_of(&self.masks, object)
    }

    /// Sets the mask of an object. An empty mask isn't stored. The bucket is changed in place if no copy shares it, else in a copy of it.
    pub(crate) fn put(
        &mut self,
        alloc: Global,
        object: &Object,
        mask: &Mask,
    ) -> Result<(), AllocError>
        ensures { OnOk result ((other : ObjectState) (place : ℕ) → holds_in self.new other place ≡ (if object_eq object.now other then has mask.now place else holds_in self.old other place)) }
    {
        if let Some(masks) = Arc::get_mut(&mut self.masks) {
            return write(masks, object, mask);
        }
        let mut masks = self.masks.to_vec(alloc)?;
        write(&mut masks, object, mask)?;
        self.masks = Arc::new(alloc, masks)?;
        Ok(())
    }
}

impl Clone for Bucket {
    ghost is_clone = { λ bucket copy. copy ≡ bucket };

    /// The same bucket. Cost: one count.
    fn clone(&self) -> Result<Bucket, AllocError> {
        Ok(Bucket {
            masks: self.masks.clone()?,
        })
    }
}
