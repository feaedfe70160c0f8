//! The sets of both kinds.
ghost use Rattle.std.specs.Prelude.{◌≡◌, ◌⊎◌, [], ◌∷◌, ◌++◌, not, ◌||◌, nat_lt, length, filter, Ok, Err, IfOk, IfErr, OnOk, OnErr};
ghost use Rattle.std.specs.List.{list_any};
ghost use Rattle.std.specs.Option.{option_copied};
ghost use Rattle.mpw_geom.specs.Names.{name_eq};
ghost use Rattle.mpw_separation.specs.Internal.{other};
ghost use Rattle.mpw_separation.specs.Rows as rows;
ghost use Rattle.mpw_separation.specs.Separation.{max_sets, sets_of, has_set, without_set, uses_role, least_broken};

use crate::least::least_reached;
use crate::named::NamedSets;
use crate::{Kind, SeparationSet, SetsFault};
use mpw_geom::Name;
use mpw_roles::Roles;
use std::alloc::{AllocError, Global};
use std::marker::Model;

/// The greatest number of sets of a kind.
pub const MAX_SETS: usize = 64;

/// The static and the dynamic sets, each by name and in the order in which they were made. Both kinds may have a set of the same name. A
/// copy hashes each name again. That takes about 0.07 microseconds for a set, and 5 to 10 microseconds for 64 sets of each kind.
pub struct Sets {
    ssd: NamedSets,
    dsd: NamedSets,
}

impl Drop for Sets {
    fn drop(self) {
        let Sets { ssd, dsd } = self;
        drop(ssd);
        drop(dsd);
    }
}

impl Model for Sets {
    ghost use Rattle.mpw_separation.specs.Separation.{Sets as SetsState};

    ghost Value = { SetsState };

    ghost view = { λ sets. record { ssd = sets.ssd; dsd = sets.dsd } };
}

impl Sets {
    /// No sets. It takes no memory.
    pub fn new(alloc: Global) -> Sets
        ensures { result ≡ record { ssd = []; dsd = [] } }
    {
        Sets {
            ssd: NamedSets::new(alloc),
            dsd: NamedSets::new(alloc),
        }
    }

    /// Makes a set of the kind.
    pub(crate) fn make(&mut self, kind: Kind, set: SeparationSet) -> Result<(), SetsFault>
        ensures ok { OnOk result (rows.make (sets_of kind self.old) set ≡ Ok (sets_of kind self.new)) }
        ensures refused { IfErr result (λ fault. (fault ≡ SetsFault.Memory) ⊎ (rows.make (sets_of kind self.old) set ≡ Err fault)) }
        ensures err { OnErr result (sets_of kind self.new ≡ sets_of kind self.old) }
        ensures others { sets_of (other kind) self.new ≡ sets_of (other kind) self.old }
    {
        match kind {
            Kind::Static => self.ssd.make(set),
            Kind::Dynamic => self.dsd.make(set),
        }
    }

    /// Removes a set of the kind. It takes no memory.
    pub(crate) fn remove(&mut self, kind: Kind, name: &Name) -> Result<(), SetsFault>
        ensures ok { OnOk result (rows.remove (sets_of kind self.old) name.now ≡ Ok (sets_of kind self.new)) }
        ensures refused { IfErr result (λ fault. rows.remove (sets_of kind self.old) name.now ≡ Err fault) }
        ensures err { OnErr result (sets_of kind self.new ≡ sets_of kind self.old) }
        ensures others { sets_of (other kind) self.new ≡ sets_of (other kind) self.old }
    {
        match kind {
            Kind::Static => self.ssd.remove(name),
            Kind::Dynamic => self.dsd.remove(name),
        }
    }

    /// Makes a static set (CreateSsdSet).
    ///
    /// # Errors
    /// `Known`, then `Full`; or `Memory`. Then the sets are unchanged.
    pub fn make_ssd(&mut self, set: SeparationSet) -> Result<(), SetsFault>
        ensures ok { OnOk result (rows.make self.old.ssd set ≡ Ok self.new.ssd) }
        ensures refused { IfErr result (λ fault. (fault ≡ SetsFault.Memory) ⊎ (rows.make self.old.ssd set ≡ Err fault)) }
        ensures err { OnErr result (self.new.ssd ≡ self.old.ssd) }
        ensures others { self.new.dsd ≡ self.old.dsd }
    {
        self.make(Kind::Static, set)
    }

    /// Makes a dynamic set (CreateDsdSet).
    ///
    /// # Errors
    /// `Known`, then `Full`; or `Memory`. Then the sets are unchanged.
    pub fn make_dsd(&mut self, set: SeparationSet) -> Result<(), SetsFault>
        ensures ok { OnOk result (rows.make self.old.dsd set ≡ Ok self.new.dsd) }
        ensures refused { IfErr result (λ fault. (fault ≡ SetsFault.Memory) ⊎ (rows.make self.old.dsd set ≡ Err fault)) }
        ensures err { OnErr result (self.new.dsd ≡ self.old.dsd) }
        ensures others { self.new.ssd ≡ self.old.ssd }
    {
        self.make(Kind::Dynamic, set)
    }

    /// Removes a static set (DeleteSsdSet). It takes no memory.
    ///
    /// # Errors
    /// `Unknown`. Then the sets are unchanged.
    pub fn remove_ssd(&mut self, name: &Name) -> Result<(), SetsFault>
        ensures ok { OnOk result (rows.remove self.old.ssd name.now ≡ Ok self.new.ssd) }
        ensures refused { IfErr result (λ fault. rows.remove self.old.ssd name.now ≡ Err fault) }
        ensures err { OnErr result (self.new.ssd ≡ self.old.ssd) }
        ensures others { self.new.dsd ≡ self.old.dsd }
    {
        self.remove(Kind::Static, name)
    }

    /// Removes a dynamic set (DeleteDsdSet). It takes no memory.
    ///
    /// # Errors
    /// `Unknown`. Then the sets are unchanged.
    pub fn remove_dsd(&mut self, name: &Name) -> Result<(), SetsFault>
        ensures ok { OnOk result (rows.remove self.old.dsd name.now ≡ Ok self.new.dsd) }
        ensures refused { IfErr result (λ fault. rows.remove self.old.dsd name.now ≡ Err fault) }
        ensures err { OnErr result (self.new.dsd ≡ self.old.dsd) }
        ensures others { self.new.ssd ≡ self.old.ssd }
    {
        self.remove(Kind::Dynamic, name)
    }

    /// The sets of a kind, by name.
    fn named(&self, kind: Kind) -> &NamedSets
        ensures { result.now ≡ sets_of kind self.now }
    {
        match kind {
            Kind::Static => &self.ssd,
            Kind::Dynamic => &self.dsd,
        }
    }

    /// The sets of a kind, in the order in which they were made.
    pub(crate) fn of_kind(&self, kind: Kind) -> &[SeparationSet]
        ensures { result.now ≡ sets_of kind self.now }
    {
        self.named(kind).as_slice()
    }

    /// Whether a set of the kind has the name.
    pub fn contains(&self, kind: Kind, name: &Name) -> bool
        ensures { result ≡ has_set (sets_of kind self.now) name.now }
    {
        self.named(kind).contains(name)
    }

    /// Whether there is room for one more set of the kind.
    pub fn has_room(&self, kind: Kind) -> bool
        ensures { result ≡ nat_lt (length (sets_of kind self.now)) max_sets }
    {
        self.named(kind).len() < MAX_SETS
    }

    /// Whether a set of either kind has the role.
    pub fn uses(&self, role: &Name) -> bool
        ensures { result ≡ (uses_role self.now.ssd role.now || uses_role self.now.dsd role.now) }
    {
        self.ssd.uses(role) || self.dsd.uses(role)
    }

    /// The first name, in alphabetical order, of the sets of the kind that the seniors break. It takes no memory. Cost: that of
    /// `Roles::below`, and a look-up for each role of the sets.
    pub fn first_broken(&self, kind: Kind, roles: &Roles, seniors: &[Name]) -> Option<&Name>
        ensures { option_copied result ≡ least_broken roles.now (sets_of kind self.now) (seniors.now ∷ []) }
    {
        least_reached(self.of_kind(kind), &roles.below(seniors))
    }

    /// The same sets. Cost: a hash, a comparison and three counts for each.
    ///
    /// # Errors
    /// Out of memory.
    pub fn copy(&self) -> Result<Sets, AllocError>
        ensures { IfOk result (λ sets. sets ≡ self.now) }
    {
        let ssd = self.ssd.copy()?;
        let dsd = self.dsd.copy()?;
        Ok(Sets { ssd, dsd })
    }
}
