//! A directed graph. Its nodes are called places and are numbered from 0.

ghost use Rattle.std.specs.Prelude.{◌≡◌, ◌<◌, ◌^◌, ◌++◌, ◌∷◌, [], length, slice_index, OnOk};
ghost use Rattle.mpw_hier.specs.Graph.{targets};

use std::alloc::{AllocError, Global};
use std::marker::Model;

/// For each place, the places to which it leads.
pub struct Graph {
    targets: Vec<Vec<usize>>,
}

impl Drop for Graph {
    fn drop(self) {
        let Graph { targets } = self;
        drop(targets);
    }
}

impl Model for Graph {
    ghost use Rattle.std.specs.Prelude.{ℕ, List, map};

    ghost Value = { List (List ℕ) };

    ghost view = { λ g. map (λ places. places.items) g.targets.items };
}

impl Graph {
    /// The empty graph. Takes no memory.
    pub fn new(alloc: Global) -> Graph
        ensures { result ≡ [] }
    {
        Graph {
            targets: Vec::new(alloc),
        }
    }

    /// The number of places.
    pub fn len(&self) -> usize
        ensures { result ≡ length self.now }
    {
        self.targets.len()
    }

    /// Adds a place that leads to these.
    ///
    /// # Errors
    /// Out of memory.
    pub fn push(&mut self, places: Vec<usize>) -> Result<(), AllocError>
        ensures { OnOk result (self.new ≡ self.old ++ places.items ∷ []) }
    {
        self.targets.push(places)?;
        Ok(())
    }

    /// The number of a place's targets.
    pub fn count(&self, place: usize) -> usize
        requires { place < length self.now }
        ensures count { result ≡ length (targets self.now place) }
        ensures small { result < 2 ^ 63 }
    {
        self.targets[place].len()
    }

    /// The target of a place at an index.
    pub fn target(&self, place: usize, index: usize) -> usize
        requires place { place < length self.now }
        requires index { index < length (targets self.now place) }
        ensures { result ≡ slice_index (targets self.now place) index }
    {
        self.targets[place][index]
    }
}
