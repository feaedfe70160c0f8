//! The sets with the indexes of their roles, so that whether one is broken is a count of bits.
//!
//! The masks are those of some roles. The owner of the sets says so in an invariant. A change of the sets of a kind makes their masks
//! again. So must a change of the roles that moves indexes or removes a role of a set.
ghost use Rattle.std.specs.Prelude.{◌≡◌, ◌⊎◌, ◌≤◌, ℕ, List, [], ◌∷◌, Ok, Err, IfOk, IfErr, OnOk, OnErr, length};
ghost use Rattle.std.specs.Option.{option_copied};
ghost use Rattle.mpw_roles.specs.Hierarchy.{Hierarchy, role_names};
ghost use Rattle.mpw_roles.specs.Order.{IsHierarchy};
ghost use Rattle.mpw_separation.specs.Internal.{other};
ghost use Rattle.mpw_separation.specs.Placed.{ArePlaced, AreSetsPlaced, IsBelow, masks_of};
ghost use Rattle.mpw_separation.specs.Rows as rows;
ghost use Rattle.mpw_separation.specs.Separation.{sets_of, least_broken};

use crate::least::least_placed;
use crate::{Kind, SeparationSet, Sets, SetsFault};
use mpw_geom::Name;
use mpw_roles::{Mask, Roles, reserve_mask};
use std::alloc::{AllocError, Global};
use std::marker::Model;

/// The sets of both kinds, and for each the indexes of its roles. There may be more masks than sets.
pub struct PlacedSets {
    sets: Sets,
    ssd: Vec<Mask>,
    dsd: Vec<Mask>,
}

impl Drop for PlacedSets {
    fn drop(self) {
        let PlacedSets { sets, ssd, dsd } = self;
        drop(sets);
        drop(ssd);
        drop(dsd);
    }
}

impl Model for PlacedSets {
    ghost use Rattle.mpw_separation.specs.Placed.{KeptSets, AreLong};

    ghost Value = { KeptSets };

    ghost view = { λ kept. record { sets = kept.sets; ssd = kept.ssd.items; dsd = kept.dsd.items } };

    ghost invariant = { λ kept. AreLong kept.sets kept.ssd.items kept.dsd.items };
}

/// Makes the masks of some sets. Cost: a look-up for each of their roles.
fn write_masks(roles: &Roles, sets: &[SeparationSet], masks: &mut [Mask])
    requires { length sets.now ≤ length masks.old }
    ensures placed { ArePlaced (role_names roles.now) sets.now masks.new }
    ensures long { length masks.new ≡ length masks.old }
{
    for index in 0..sets.len() {
        masks[index] = roles.places(sets[index].roles());
    }
}

/// Makes the masks of the present sets.
fn rewrite(roles: &Roles, sets: &[SeparationSet], masks: &mut Vec<Mask>)
    requires { length sets.now ≤ length masks.old.items }
    ensures placed { ArePlaced (role_names roles.now) sets.now masks.new.items }
    ensures long { length masks.new.items ≡ length masks.old.items }
{
    write_masks(roles, sets, masks);
}

/// Makes a set of the kind. The sets' masks are those of these roles.
fn make(
    roles: &Roles,
    sets: &mut Sets,
    kind: Kind,
    masks: &mut Vec<Mask>,
    set: SeparationSet,
) -> Result<(), SetsFault>
    requires { length (sets_of kind sets.old) ≤ length masks.old.items }
    ensures ok { OnOk result (rows.make (sets_of kind sets.old) set ≡ Ok (sets_of kind sets.new)) }
    ensures refused { IfErr result (λ fault. (fault ≡ SetsFault.Memory) ⊎ (rows.make (sets_of kind sets.old) set ≡ Err fault)) }
    ensures err { OnErr result (sets_of kind sets.new ≡ sets_of kind sets.old) }
    ensures others { sets_of (other kind) sets.new ≡ sets_of (other kind) sets.old }
    ensures placed { ArePlaced (role_names roles.now) (sets_of kind sets.old) masks.old.items → ArePlaced (role_names roles.now) (sets_of kind sets.new) masks.new.items }
    ensures long { length (sets_of kind sets.new) ≤ length masks.new.items }
{
    reserve_mask(masks, sets.of_kind(kind).len())?;
    sets.make(kind, set)?;
    rewrite(roles, sets.of_kind(kind), masks);
    Ok(())
}

/// Removes a set of the kind. The sets' masks are those of these roles. It takes no memory.
#[tactic(auto, using(crate::proofs::PlacedLemmas::fewer_sets))]
fn remove(
    roles: &Roles,
    sets: &mut Sets,
    kind: Kind,
    masks: &mut Vec<Mask>,
    name: &Name,
) -> Result<(), SetsFault>
    requires { length (sets_of kind sets.old) ≤ length masks.old.items }
    ensures ok { OnOk result (rows.remove (sets_of kind sets.old) name.now ≡ Ok (sets_of kind sets.new)) }
    ensures refused { IfErr result (λ fault. rows.remove (sets_of kind sets.old) name.now ≡ Err fault) }
    ensures err { OnErr result (sets_of kind sets.new ≡ sets_of kind sets.old) }
    ensures others { sets_of (other kind) sets.new ≡ sets_of (other kind) sets.old }
    ensures placed { ArePlaced (role_names roles.now) (sets_of kind sets.old) masks.old.items → ArePlaced (role_names roles.now) (sets_of kind sets.new) masks.new.items }
    ensures long { length (sets_of kind sets.new) ≤ length masks.new.items }
{
    sets.remove(kind, name)?;
    rewrite(roles, sets.of_kind(kind), masks);
    Ok(())
}

impl PlacedSets {
    /// No sets. It takes no memory.
    pub fn new(alloc: Global) -> PlacedSets
        ensures { result ≡ record { sets = record { ssd = []; dsd = [] }; ssd = []; dsd = [] } }
    {
        PlacedSets {
            sets: Sets::new(alloc),
            ssd: Vec::new(alloc),
            dsd: Vec::new(alloc),
        }
    }

    /// The sets.
    pub fn sets(&self) -> &Sets
        ensures { result.now ≡ self.now.sets }
    {
        &self.sets
    }

    /// The masks of the sets of a kind.
    fn masks(&self, kind: Kind) -> &[Mask]
        ensures masks { result.now ≡ masks_of kind self.now }
        ensures long { length (sets_of kind self.now.sets) ≤ length result.now }
    {
        match kind {
            Kind::Static => self.ssd.as_slice(),
            Kind::Dynamic => self.dsd.as_slice(),
        }
    }

    /// Makes each mask again, for these roles. It takes no memory. Cost: a look-up for each role of each set.
    pub fn place(&mut self, roles: &Roles)
        ensures sets { self.new.sets ≡ self.old.sets }
        ensures placed { AreSetsPlaced (role_names roles.now) self.new }
    {
        rewrite(roles, self.sets.of_kind(Kind::Static), &mut self.ssd);
        rewrite(roles, self.sets.of_kind(Kind::Dynamic), &mut self.dsd);
    }

    /// Makes a static set. The sets' masks are those of these roles.
    ///
    /// # Errors
    /// `Known`, then `Full`; or `Memory`. Then the sets are unchanged.
    pub fn make_ssd(&mut self, roles: &Roles, set: SeparationSet) -> Result<(), SetsFault>
        ensures ok { OnOk result (rows.make self.old.sets.ssd set ≡ Ok self.new.sets.ssd) }
        ensures refused { IfErr result (λ fault. (fault ≡ SetsFault.Memory) ⊎ (rows.make self.old.sets.ssd set ≡ Err fault)) }
        ensures err { OnErr result (self.new.sets.ssd ≡ self.old.sets.ssd) }
        ensures others { self.new.sets.dsd ≡ self.old.sets.dsd }
        ensures placed { AreSetsPlaced (role_names roles.now) self.old → AreSetsPlaced (role_names roles.now) self.new }
    {
        make(roles, &mut self.sets, Kind::Static, &mut self.ssd, set)
    }

    /// Makes a dynamic set. The sets' masks are those of these roles.
    ///
    /// # Errors
    /// `Known`, then `Full`; or `Memory`. Then the sets are unchanged.
    pub fn make_dsd(&mut self, roles: &Roles, set: SeparationSet) -> Result<(), SetsFault>
        ensures ok { OnOk result (rows.make self.old.sets.dsd set ≡ Ok self.new.sets.dsd) }
        ensures refused { IfErr result (λ fault. (fault ≡ SetsFault.Memory) ⊎ (rows.make self.old.sets.dsd set ≡ Err fault)) }
        ensures err { OnErr result (self.new.sets.dsd ≡ self.old.sets.dsd) }
        ensures others { self.new.sets.ssd ≡ self.old.sets.ssd }
        ensures placed { AreSetsPlaced (role_names roles.now) self.old → AreSetsPlaced (role_names roles.now) self.new }
    {
        make(roles, &mut self.sets, Kind::Dynamic, &mut self.dsd, set)
    }

    /// Removes a static set. The sets' masks are those of these roles. It takes no memory.
    ///
    /// # Errors
    /// `Unknown`. Then the sets are unchanged.
    pub fn remove_ssd(&mut self, roles: &Roles, name: &Name) -> Result<(), SetsFault>
        ensures ok { OnOk result (rows.remove self.old.sets.ssd name.now ≡ Ok self.new.sets.ssd) }
        ensures refused { IfErr result (λ fault. rows.remove self.old.sets.ssd name.now ≡ Err fault) }
        ensures err { OnErr result (self.new.sets.ssd ≡ self.old.sets.ssd) }
        ensures others { self.new.sets.dsd ≡ self.old.sets.dsd }
        ensures placed { AreSetsPlaced (role_names roles.now) self.old → AreSetsPlaced (role_names roles.now) self.new }
    {
        remove(roles, &mut self.sets, Kind::Static, &mut self.ssd, name)
    }

    /// Removes a dynamic set. The sets' masks are those of these roles. It takes no memory.
    ///
    /// # Errors
    /// `Unknown`. Then the sets are unchanged.
    pub fn remove_dsd(&mut self, roles: &Roles, name: &Name) -> Result<(), SetsFault>
        ensures ok { OnOk result (rows.remove self.old.sets.dsd name.now ≡ Ok self.new.sets.dsd) }
        ensures refused { IfErr result (λ fault. rows.remove self.old.sets.dsd name.now ≡ Err fault) }
        ensures err { OnErr result (self.new.sets.dsd ≡ self.old.sets.dsd) }
        ensures others { self.new.sets.ssd ≡ self.old.sets.ssd }
        ensures placed { AreSetsPlaced (role_names roles.now) self.old → AreSetsPlaced (role_names roles.now) self.new }
    {
        remove(roles, &mut self.sets, Kind::Dynamic, &mut self.dsd, name)
    }

    /// The first name, in alphabetical order, of the sets of the kind that some seniors break, by the indexes of the roles at or below
    /// them. The sets' masks must be those of the roles. It takes no memory. Cost: an `and` of eight words for each set.
    pub fn first_broken(&self, kind: Kind, below: &Mask) -> Option<&Name>
        ensures { (h : Hierarchy) (seniors : List (List ℕ)) → IsHierarchy h → AreSetsPlaced (role_names h) self.now → IsBelow h seniors below.now → option_copied result ≡ least_broken h (sets_of kind self.now.sets) (seniors ∷ []) }
    {
        least_placed(self.sets.of_kind(kind), self.masks(kind), below)
    }

    /// The same sets with the same masks.
    ///
    /// # Errors
    /// Out of memory.
    pub fn copy(&self) -> Result<PlacedSets, AllocError>
        ensures { IfOk result (λ sets. sets ≡ self.now) }
    {
        let sets = self.sets.copy()?;
        let ssd = self.ssd.clone()?;
        let dsd = self.dsd.clone()?;
        Ok(PlacedSets { sets, ssd, dsd })
    }
}
