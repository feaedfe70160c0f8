//! Names in a set that copies share.
ghost use Rattle.std.specs.Prelude.{◌≡◌, ◌<◌, ◌^◌, ◌++◌, [], true, length, position, slice_get, IfOk, OnOk};
ghost use Rattle.std.specs.Option.{option_copied};
ghost use Rattle.mpw_geom.specs.Names.{name_eq};
ghost use Rattle.mpw_roles.specs.Order.{are_distinct};

use indexmap::IndexSet;
use mpw_geom::Name;
use std::alloc::{AllocError, Global};
use std::marker::Model;
use std::sync::Arc;

/// Names, each once, in the order in which they were added. Without a set there are none.
pub(crate) struct Settled {
    names: Option<Arc<IndexSet<Name>>>,
}

impl Drop for Settled {
    fn drop(self) {
        let Settled { names } = self;
        drop(names);
    }
}

impl Model for Settled {
    ghost use Rattle.std.specs.Prelude.{ℕ, List, []};
    ghost use Rattle.std.specs.Option.{option_map_or};

    ghost Value = { List (List ℕ) };

    ghost view = { λ settled. option_map_or (λ names. names.value.keys) settled.names [] };
}

/// Adds names that the set doesn't have.
fn add_all(set: &mut IndexSet<Name>, names: &[Name]) -> Result<(), AllocError>
    requires { are_distinct (set.old.keys ++ names.now) ≡ true }
    ensures { OnOk result (set.new.keys ≡ set.old.keys ++ names.now) }
{
    for name in names {
        set.insert(name.copy()?)?;
    }
    Ok(())
}

/// Adds names that the set doesn't have, and others after them.
fn add_both(set: &mut IndexSet<Name>, names: &[Name], others: &[Name]) -> Result<(), AllocError>
    requires empty { set.old.keys ≡ [] }
    requires once { are_distinct (names.now ++ others.now) ≡ true }
    ensures { OnOk result (set.new.keys ≡ names.now ++ others.now) }
{
    add_all(set, names)?;
    add_all(set, others)
}

/// A set of some names, and of others after them.
fn set_of(alloc: Global, names: &[Name], others: &[Name]) -> Result<IndexSet<Name>, AllocError>
    requires { are_distinct (names.now ++ others.now) ≡ true }
    ensures { IfOk result (λ set. set.keys ≡ names.now ++ others.now) }
{
    let count = names.len().saturating_add(others.len());
    let mut set = IndexSet::with_capacity(alloc, count)?;
    add_both(&mut set, names, others)?;
    Ok(set)
}

impl Settled {
    /// No names. It takes no memory.
    pub(crate) fn new() -> Settled
        ensures { result ≡ [] }
    {
        Settled { names: None }
    }

    /// The number of names.
    pub(crate) fn len(&self) -> usize
        ensures len { result ≡ length self.now }
        ensures small { result < 2 ^ 63 }
    {
        match &self.names {
            Some(names) => names.len(),
            None => 0,
        }
    }

    /// The names.
    fn as_slice(&self) -> &[Name]
        ensures { result.now ≡ self.now }
    {
        match &self.names {
            Some(names) => names.as_slice(),
            None => &[],
        }
    }

    /// The index of a name. Cost: a hash and a comparison.
    pub(crate) fn place(&self, name: &Name) -> Option<usize>
        ensures { result ≡ position (name_eq name.now) self.now }
    {
        match &self.names {
            Some(names) => names.get_index_of(name),
            None => None,
        }
    }

    /// The name at an index.
    pub(crate) fn get(&self, place: usize) -> Option<&Name>
        ensures { option_copied result ≡ slice_get self.now place }
    {
        match &self.names {
            Some(names) => names.get_index(place),
            None => None,
        }
    }

    /// These names, and others after them. Cost: a hash for each.
    pub(crate) fn with(&self, alloc: Global, others: &[Name]) -> Result<Settled, AllocError>
        requires { are_distinct (self.now ++ others.now) ≡ true }
        ensures { IfOk result (λ all. all ≡ self.now ++ others.now) }
    {
        let set = set_of(alloc, self.as_slice(), others)?;
        Ok(Settled {
            names: Some(Arc::new(alloc, set)?),
        })
    }

    /// The same names. Cost: a count.
    pub(crate) fn copy(&self) -> Result<Settled, AllocError>
        ensures { IfOk result (λ settled. settled ≡ self.now) }
    {
        Ok(Settled {
            names: self.names.clone()?,
        })
    }
}
