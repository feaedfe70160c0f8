//! Placements in a map that copies share.
//!
//! The map has them in the order in which they were made, and finds one by its cell and its label. It never changes. Adding or removing one
//! makes a new map, with a hash for each.

ghost use Rattle.std.specs.Prelude.{◌≡◌, ◌++◌, ◌∷◌, [], AllPairs, false, filter, not, length, slice_get, IfOk};
ghost use Rattle.std.specs.Option.{option_map};
ghost use Rattle.mpw_placings.specs.Internal.Maps.{placements_of, root_at};
ghost use Rattle.mpw_placings.specs.Placements.{is_at, is_taken, roots_of, placement_shown, DifferInName};

use crate::name::{PlacementName, PlacementNameRef};
use crate::placement::{Placement, PlacementRef};
use indexmap::IndexMap;
use mpw_geom::Name;
use mpw_walk::Root;
use std::alloc::{AllocError, Global};
use std::marker::Model;
use std::sync::Arc;

/// Placements in order, no two of the same cell and label. Contracts see that list.
pub(crate) struct PlacementMap {
    /// None if there are no placements.
    roots: Option<Arc<IndexMap<PlacementName, Root>>>,
}

impl Drop for PlacementMap {
    fn drop(self) {
        let PlacementMap { roots } = self;
        drop(roots);
    }
}

impl Model for PlacementMap {
    ghost use Rattle.std.specs.Prelude.{List, []};
    ghost use Rattle.std.specs.Option.{option_map_or};
    ghost use Rattle.mpw_placings.specs.Internal.Maps.{placements_of};
    ghost use Rattle.mpw_placings.specs.declared.placement.Placement.{Placement};

    ghost Value = { List Placement };

    ghost view = { λ map. placements_of (option_map_or (λ roots. roots.value.entries) map.roots []) };
}

impl PlacementMap {
    /// The map without placements. It takes no memory.
    pub(crate) fn new() -> PlacementMap
        ensures { result ≡ [] }
    {
        PlacementMap { roots: None }
    }

    /// The number of placements.
    pub(crate) fn len(&self) -> usize
        ensures { result ≡ length self.now }
    {
        match &self.roots {
            Some(roots) => roots.len(),
            None => 0,
        }
    }

    /// The placed submissions, in order.
    #[tactic(auto, using(crate::proofs::Maps::roots_is))]
    pub(crate) fn roots(&self) -> &[Root]
        ensures { result.now ≡ roots_of self.now }
    {
        match &self.roots {
            Some(roots) => roots.values().as_slice(),
            None => &[],
        }
    }

    /// The placement at an index.
    pub(crate) fn get(&self, place: usize) -> Option<PlacementRef<'_>>
        ensures { option_map placement_shown result ≡ slice_get self.now place }
    {
        match &self.roots {
            Some(roots) => {
                let (name, root) = roots.get_index(place)?;
                Some(PlacementRef {
                    cell: &name.cell,
                    label: &name.label,
                    root: *root,
                })
            }
            None => None,
        }
    }

    /// The root of the placement under that cell and label. Cost: a hash and a comparison.
    pub(crate) fn root(&self, cell: &Name, label: &Name) -> Option<Root>
        ensures { result ≡ root_at self.now cell.now label.now }
    {
        match &self.roots {
            Some(roots) => roots.get(PlacementNameRef { cell, label }).copied(),
            None => None,
        }
    }

    /// The same placements. Cost: a count.
    pub(crate) fn copy(&self) -> Result<PlacementMap, AllocError>
        ensures { IfOk result (λ map. map ≡ self.now) }
    {
        Ok(PlacementMap {
            roots: self.roots.clone()?,
        })
    }

    /// An unshared map of the same placements. Cost: a hash for each.
    fn own_roots(&self, alloc: Global) -> Result<IndexMap<PlacementName, Root>, AllocError>
        ensures { IfOk result (λ roots. placements_of roots.entries ≡ self.now) }
    {
        match &self.roots {
            Some(roots) => (**roots).clone(),
            None => Ok(IndexMap::new(alloc)),
        }
    }

    /// The placements with another after them. Cost: a hash for each.
    pub(crate) fn with(
        &self,
        alloc: Global,
        placement: Placement,
    ) -> Result<PlacementMap, AllocError>
        requires { is_taken self.now placement.cell placement.label ≡ false }
        ensures { IfOk result (λ map. map ≡ self.now ++ placement ∷ []) }
    {
        let mut roots = self.own_roots(alloc)?;
        let (name, root) = placement.into_entry();
        roots.insert(name, root)?;
        Ok(PlacementMap {
            roots: Some(Arc::new(alloc, roots)?),
        })
    }

    /// The placements with others after them. Cost: a hash for each.
    pub(crate) fn joined(
        &self,
        alloc: Global,
        others: &PlacementMap,
    ) -> Result<PlacementMap, AllocError>
        requires { AllPairs DifferInName (self.now ++ others.now) }
        ensures { IfOk result (λ map. map ≡ self.now ++ others.now) }
    {
        let mut roots = self.own_roots(alloc)?;
        let mut more = others.own_roots(alloc)?;
        roots.append(&mut more)?;
        Ok(PlacementMap {
            roots: Some(Arc::new(alloc, roots)?),
        })
    }

    /// The placements without the one of that cell and label. Cost: a hash for each, or a count if there is none.
    pub(crate) fn without(
        &self,
        alloc: Global,
        cell: &Name,
        label: &Name,
    ) -> Result<PlacementMap, AllocError>
        requires { AllPairs DifferInName self.now }
        ensures { IfOk result (λ map. map ≡ filter (λ p. not (is_at cell.now label.now p)) self.now) }
    {
        if self.root(cell, label).is_none() {
            return self.copy();
        }
        let mut roots = self.own_roots(alloc)?;
        roots.shift_remove(PlacementNameRef { cell, label });
        Ok(PlacementMap {
            roots: Some(Arc::new(alloc, roots)?),
        })
    }
}
