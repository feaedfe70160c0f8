//! The table of placements, which copies share. A change makes a new one.
//!
//! Most placements are in a map that copies share, and the latest in a small map next to it. So adding one copies the small map alone. If
//! that is full, the next placement makes a map of all. Each of the latest pays for a part of it.

ghost use Rattle.std.specs.Prelude.{◌≡◌, ◌<◌, ◌≤◌, ◌^◌, ◌++◌, ◌∷◌, [], false, length, slice_get, IfOk};
ghost use Rattle.std.specs.Option.{option_map};
ghost use Rattle.mpw_placings.specs.Internal.Maps.{root_at};
ghost use Rattle.mpw_placings.specs.Placements.{is_taken, placement_shown, roots_of, shape_count, version_at};
ghost use Rattle.mpw_placings.specs.Rows.{refusal, placings_with, placings_without, GivesPlacements};

use crate::fault::PlacingFault;
use crate::limits::{MAX_SHAPES, is_far, shape_count};
use crate::map::PlacementMap;
use crate::placement::{Placement, PlacementRef};
use mpw_geom::{Name, Placing};
use mpw_hier::{Shelf, shelves_have_their_numbers};
use mpw_tiles::MAX_ROOTS;
use mpw_walk::Root;
use std::alloc::{AllocError, Global};
use std::marker::Model;

/// The greatest number of placements next to the settled ones.
const LATEST: usize = 32;

/// Placements in the order in which they were made, at most 4096. Contracts see that list. Copies share them.
pub struct Placings {
    settled: PlacementMap,
    /// Those that were made after the settled ones.
    latest: PlacementMap,
}

impl Drop for Placings {
    fn drop(self) {
        let Placings { settled, latest } = self;
        drop(settled);
        drop(latest);
    }
}

impl Model for Placings {
    ghost use Rattle.std.specs.Prelude.{List, ◌++◌};
    ghost use Rattle.mpw_placings.specs.Internal.Maps.{IsTable};
    ghost use Rattle.mpw_placings.specs.declared.placement.Placement.{Placement};

    ghost Value = { List Placement };

    ghost view = { λ p. p.settled ++ p.latest };

    ghost invariant = { λ p. IsTable p.settled p.latest };
}

impl Placings {
    /// The table without placements. It takes no memory.
    pub fn new(_alloc: Global) -> Placings
        ensures { result ≡ [] }
    {
        Placings {
            settled: PlacementMap::new(),
            latest: PlacementMap::new(),
        }
    }

    /// The number of placements, 0 to 4096.
    pub fn len(&self) -> usize
        ensures len { result ≡ length self.now }
        ensures few { length self.now ≤ 4096 }
    {
        self.settled.len() + self.latest.len()
    }

    /// The placement at an index, from 0 in the order in which they were made. None from their number on. It takes no memory.
    pub fn get(&self, place: usize) -> Option<PlacementRef<'_>>
        ensures { option_map placement_shown result ≡ slice_get self.now place }
    {
        let settled = self.settled.len();
        if place < settled {
            self.settled.get(place)
        } else {
            self.latest.get(place - settled)
        }
    }

    /// The same placements. Constant time; it takes no memory.
    ///
    /// # Errors
    /// No more copies can be counted.
    pub fn copy(&self) -> Result<Placings, AllocError>
        ensures { IfOk result (λ placings. placings ≡ self.now) }
    {
        Ok(Placings {
            settled: self.settled.copy()?,
            latest: self.latest.copy()?,
        })
    }

    /// The placed submissions, in order, as a run's snapshot has them. Linear in the placements.
    ///
    /// # Errors
    /// Out of memory.
    pub fn roots(&self, alloc: Global) -> Result<Vec<Root>, AllocError>
        ensures { IfOk result (λ roots. roots.items ≡ roots_of self.now) }
    {
        let mut roots = Vec::with_capacity(alloc, self.len())?;
        roots.extend_from_slice(self.settled.roots())?;
        roots.extend_from_slice(self.latest.roots())?;
        Ok(roots)
    }

    /// The root of the placement under that cell and label. Cost: a hash and a comparison in each map.
    fn root(&self, cell: &Name, label: &Name) -> Option<Root>
        ensures { result ≡ root_at self.now cell.now label.now }
    {
        match self.settled.root(cell, label) {
            Some(root) => Some(root),
            None => self.latest.root(cell, label),
        }
    }

    /// Whether a placement has that cell and that label. Cost: at most two hashes.
    fn is_taken(&self, cell: &Name, label: &Name) -> bool
        ensures { result ≡ is_taken self.now cell.now label.now }
    {
        self.root(cell, label).is_some()
    }

    /// The version of the submission that is placed under that cell and label, or none if there is no such placement. Cost: at most two
    /// hashes. It takes no memory.
    #[tactic(auto, unfolding(crate::specs::Placements::version_at))]
    pub fn version(&self, shelf: &Shelf, cell: &Name, label: &Name) -> Option<u32>
        ensures { result ≡ version_at shelf.now self.now cell.now label.now }
    {
        let root = self.root(cell, label)?;
        let submission = shelf.get(root.submission)?;
        Some(submission.version)
    }

    /// The number of flat shapes of all placements. Linear in the placements.
    fn shape_count(&self, shelf: &Shelf) -> u64
        ensures count { result ≡ shape_count shelf.now self.now }
        ensures most { result ≤ 2 ^ 53 }
    {
        shape_count(shelf, self.settled.roots()) + shape_count(shelf, self.latest.roots())
    }

    /// The first test that a placement under that cell and label doesn't pass.
    fn refusal(&self, shelf: &Shelf, cell: &Name, label: &Name, root: &Root) -> Option<PlacingFault>
        requires { root.now.submission < length shelf.now }
        ensures { result ≡ refusal shelf.now self.now cell.now label.now root.now }
    {
        if self.is_taken(cell, label) {
            return Some(PlacingFault::Known);
        }
        if is_far(shelf, root) {
            return Some(PlacingFault::Extent);
        }
        if self.shape_count(shelf) + shelf.count(root.submission) > MAX_SHAPES {
            return Some(PlacingFault::Shapes);
        }
        if self.len() >= MAX_ROOTS {
            return Some(PlacingFault::Full);
        }
        None
    }

    /// The table with a placement after the others. Cost: a hash for each of the latest, or for each of all if there are many of these.
    fn with(&self, alloc: Global, placement: Placement) -> Result<Placings, AllocError>
        requires new { is_taken self.now placement.cell placement.label ≡ false }
        requires room { length self.now < 4096 }
        ensures { IfOk result (λ placings. placings ≡ self.now ++ placement ∷ []) }
    {
        if self.latest.len() < LATEST {
            Ok(Placings {
                settled: self.settled.copy()?,
                latest: self.latest.with(alloc, placement)?,
            })
        } else {
            Ok(Placings {
                settled: self.settled.joined(alloc, &self.latest)?,
                latest: PlacementMap::new().with(alloc, placement)?,
            })
        }
    }

    /// The table with the cell's present submission placed after the others under that label. This table is unchanged. Linear in the
    /// placements, whose shapes are counted. One call in 32 hashes each placement.
    ///
    /// # Errors
    /// In this order: `NoCell` if the cell has no submission, `Known` if it is placed under that label, `Extent` if a shape would reach
    /// beyond -2^30 to 2^30 nm, `Shapes` if all placements together would have more than 2^20 flat shapes, `Full` if there are 4096
    /// placements; or `Memory`.
    #[tactic(auto, unfolding(crate::specs::Rows::placings_with))]
    pub fn place(
        &self,
        alloc: Global,
        shelf: &Shelf,
        cell: &Name,
        label: &Name,
        placing: Placing,
    ) -> Result<Placings, PlacingFault>
        ensures { GivesPlacements result (placings_with shelf.now self.now cell.now label.now placing) }
    {
        shelves_have_their_numbers();
        let Some(submission) = shelf.present(cell) else {
            return Err(PlacingFault::NoCell);
        };
        let root = Root {
            submission,
            placing,
        };
        if let Some(fault) = self.refusal(shelf, cell, label, &root) {
            return Err(fault);
        }
        let placement = Placement {
            cell: cell.copy()?,
            label: label.copy()?,
            root,
        };
        Ok(self.with(alloc, placement)?)
    }

    /// The table without the placement under that cell and label. This table is unchanged. It hashes each placement, or each of the latest
    /// if it is one of these.
    ///
    /// # Errors
    /// `Unknown` if there is no such placement, or `Memory`.
    #[tactic(auto, unfolding(crate::specs::Rows::placings_without))]
    pub fn unplace(
        &self,
        alloc: Global,
        cell: &Name,
        label: &Name,
    ) -> Result<Placings, PlacingFault>
        ensures { GivesPlacements result (placings_without self.now cell.now label.now) }
    {
        if !self.is_taken(cell, label) {
            return Err(PlacingFault::Unknown);
        }
        Ok(Placings {
            settled: self.settled.without(alloc, cell, label)?,
            latest: self.latest.without(alloc, cell, label)?,
        })
    }
}
