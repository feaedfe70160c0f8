//! Groups of buckets, which copies share.
//!
//! A group that copies share never changes. A change of one bucket makes a new group, and every other bucket stays shared.
ghost use Rattle.std.specs.Prelude.{◌≡◌, ℕ, ◌<◌, [], false, IfOk, OnOk, length, slice_index_or, if◌then◌else◌};
ghost use Rattle.mpw_roles.specs.Mask.{has};
ghost use Rattle.mpw_permissions.specs.Grant.{object_eq};
ghost use Rattle.mpw_permissions.specs.Internal.Holders.{bucket_of, group_of, holds_within};
ghost use Rattle.mpw_permissions.specs.declared.permission.Object.{Object as ObjectState};

use crate::Object;
use crate::bucket::{Bucket, hash};
use mpw_roles::Mask;
use std::alloc::{AllocError, Global};
use std::marker::Model;
use std::sync::Arc;

/// The number of groups.
pub(crate) const GROUPS: usize = 32;

/// The number of buckets of a group.
const BUCKETS: usize = 16;

/// Where the bucket of an object is.
#[derive(Clone, Copy)]
pub(crate) struct Place {
    /// The group.
    pub(crate) group: usize,
    /// The bucket's index in it.
    pub(crate) bucket: usize,
}

impl Place {
    /// The place of an object's bucket. Cost: a hash of its name.
    #[tactic(auto, unfolding(crate::specs::Internal::Holders::group_of, crate::specs::Internal::Holders::bucket_of))]
    pub(crate) fn of(object: &Object) -> Place
        ensures group { result.group ≡ group_of object.now }
        ensures bucket { result.bucket ≡ bucket_of object.now }
        ensures within { result.group < 32 }
        ensures inside { result.bucket < 16 }
    {
        let hash = hash(object);
        Place {
            group: (hash / 16 % 32) as usize,
            bucket: (hash % 16) as usize,
        }
    }
}

/// Buckets that copies share.
pub(crate) struct Group {
    buckets: Arc<Vec<Bucket>>,
}

impl Drop for Group {
    fn drop(self) {
        let Group { buckets } = self;
        drop(buckets);
    }
}

impl Model for Group {
    ghost use Rattle.std.specs.Prelude.{◌≡◌, List, length};
    ghost use Rattle.mpw_permissions.specs.declared.bucket.Held.{Held};

    ghost Value = { List (List Held) };

    ghost view = { λ group. group.buckets.value.items };

    ghost invariant = { λ group. length group.buckets.value.items ≡ 16 };
}

/// Sets the mask of an object in its bucket.
fn write(
    alloc: Global,
    buckets: &mut Vec<Bucket>,
    place: Place,
    object: &Object,
    mask: &Mask,
) -> Result<(), AllocError>
    requires here { place.bucket ≡ bucket_of object.now }
    requires inside { place.bucket < length buckets.old.items }
    ensures long { length buckets.new.items ≡ length buckets.old.items }
    ensures put { OnOk result ((other : ObjectState) (k : ℕ) → holds_within buckets.new.items other k ≡ (if object_eq object.now other then has mask.now k else holds_within buckets.old.items other k)) }
{
    buckets[place.bucket].put(alloc, object, mask)
}

impl Group {
    /// A group without objects. Cost: one empty bucket, and a count for each other one.
    pub(crate) fn new(alloc: Global) -> Result<Group, AllocError>
        ensures { IfOk result (λ group. (object : ObjectState) (place : ℕ) → holds_within group object place ≡ false) }
    {
        let buckets = vec![in alloc; Bucket::new(alloc)?; BUCKETS]?;
        Ok(Group {
            buckets: Arc::new(alloc, buckets)?,
        })
    }

    /// The mask of an object, whose bucket is at that place. Cost: a comparison for each object of the bucket.
    pub(crate) fn of(&self, place: Place, object: &Object) -> Mask
        requires here { place.bucket ≡ bucket_of object.now }
        requires inside { place.bucket < 16 }
        ensures { (k : ℕ) → has result k ≡ holds_within self.now object.now k }
    {
        let buckets = self.buckets.as_slice();
        buckets[place.bucket].of(object)
    }

    /// Sets the mask of an object, whose bucket is at that place. The group is changed in place if no copy shares it, else in a copy of it.
    pub(crate) fn put(
        &mut self,
        alloc: Global,
        place: Place,
        object: &Object,
        mask: &Mask,
    ) -> Result<(), AllocError>
        requires here { place.bucket ≡ bucket_of object.now }
        requires inside { place.bucket < 16 }
        ensures { OnOk result ((other : ObjectState) (k : ℕ) → holds_within self.new other k ≡ (if object_eq object.now other then has mask.now k else holds_within self.old other k)) }
    {
        if let Some(buckets) = Arc::get_mut(&mut self.buckets) {
            return write(alloc, buckets, place, object, mask);
        }
        let mut buckets = self.buckets.to_vec(alloc)?;
        write(alloc, &mut buckets, place, object, mask)?;
        self.buckets = Arc::new(alloc, buckets)?;
        Ok(())
    }
}

impl Clone for Group {
    ghost is_clone = { λ group copy. copy ≡ group };

    /// The same group. Cost: one count.
    fn clone(&self) -> Result<Group, AllocError> {
        Ok(Group {
            buckets: self.buckets.clone()?,
        })
    }
}
