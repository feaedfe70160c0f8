//! The sets of one kind, by name.
//!
//! They are in an index map. A look-up by name costs a hash, and the sets are in the order in which they were made. A copy has its own map,
//! so that a set can be removed from it without memory. It hashes each name again, which takes a few microseconds for the greatest number
//! of sets. Copies share the sets' names and roles, but not the map.
ghost use Rattle.std.specs.Prelude.{◌≡◌, ◌⊎◌, [], length, Ok, Err, IfOk, IfErr, OnOk, OnErr};
ghost use Rattle.mpw_separation.specs.Rows as rows;
ghost use Rattle.mpw_separation.specs.Separation.{has_set, uses_role};

use crate::{MAX_SETS, SeparationSet, SetsFault};
use indexmap::IndexMap;
use mpw_geom::Name;
use std::alloc::{AllocError, Global};
use std::marker::Model;

/// Sets by their names, in the order in which they were made. A look-up costs a hash and a comparison. A copy costs that for each set, two
/// counts for its name and one for its roles.
pub(crate) struct NamedSets {
    sets: IndexMap<Name, SeparationSet>,
}

impl Drop for NamedSets {
    fn drop(self) {
        let NamedSets { sets } = self;
        drop(sets);
    }
}

impl Model for NamedSets {
    ghost use Rattle.std.specs.Prelude.{◌≡◌, List};
    ghost use Rattle.indexmap.specs.IndexMap.{values};
    ghost use Rattle.mpw_separation.specs.Internal.{with_names};
    ghost use Rattle.mpw_separation.specs.Set.{SeparationSet as SetState};

    ghost Value = { List SetState };

    ghost view = { λ named. values named.sets };

    ghost invariant = { λ named. named.sets.entries ≡ with_names (values named.sets) };
}

/// Whether one of the sets has the role.
fn has_role(sets: &[SeparationSet], role: &Name) -> bool
    ensures { result ≡ uses_role sets.now role.now }
{
    for set in sets {
        if set.has_role(role) {
            return true;
        }
    }
    false
}

impl NamedSets {
    /// No sets. It takes no memory.
    pub(crate) fn new(alloc: Global) -> NamedSets
        ensures { result ≡ [] }
    {
        NamedSets {
            sets: IndexMap::new(alloc),
        }
    }

    /// The number of sets.
    pub(crate) fn len(&self) -> usize
        ensures { result ≡ length self.now }
    {
        self.sets.len()
    }

    /// The sets, in the order in which they were made.
    pub(crate) fn as_slice(&self) -> &[SeparationSet]
        ensures { result.now ≡ self.now }
    {
        self.sets.values().as_slice()
    }

    /// Whether one of the sets has the name. Cost: a hash, and a comparison if one has it.
    pub(crate) fn contains(&self, name: &Name) -> bool
        ensures { result ≡ has_set self.now name.now }
    {
        self.sets.contains_key(name)
    }

    /// Whether one of the sets has the role.
    pub(crate) fn uses(&self, role: &Name) -> bool
        ensures { result ≡ uses_role self.now role.now }
    {
        has_role(self.as_slice(), role)
    }

    /// Adds a set at the end.
    pub(crate) fn make(&mut self, set: SeparationSet) -> Result<(), SetsFault>
        ensures ok { OnOk result (rows.make self.old set ≡ Ok self.new) }
        ensures refused { IfErr result (λ fault. (fault ≡ SetsFault.Memory) ⊎ (rows.make self.old set ≡ Err fault)) }
        ensures err { OnErr result (self.new ≡ self.old) }
    {
        if self.contains(set.name()) {
            return Err(SetsFault::Known);
        }
        if self.len() >= MAX_SETS {
            return Err(SetsFault::Full);
        }
        let name = set.name().copy()?;
        self.sets.insert(name, set)?;
        Ok(())
    }

    /// Removes the set with the name, and moves those after it. It takes no memory.
    pub(crate) fn remove(&mut self, name: &Name) -> Result<(), SetsFault>
        ensures ok { OnOk result (rows.remove self.old name.now ≡ Ok self.new) }
        ensures refused { IfErr result (λ fault. rows.remove self.old name.now ≡ Err fault) }
        ensures err { OnErr result (self.new ≡ self.old) }
    {
        match self.sets.shift_remove(name) {
            Some(_) => Ok(()),
            None => Err(SetsFault::Unknown),
        }
    }

    /// The same sets. Cost: a hash, a comparison and three counts for each.
    pub(crate) fn copy(&self) -> Result<NamedSets, AllocError>
        ensures { IfOk result (λ sets. sets ≡ self.now) }
    {
        Ok(NamedSets {
            sets: self.sets.clone()?,
        })
    }
}
