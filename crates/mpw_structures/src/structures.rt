//! The structures of a library, in file order and indexed by name.

ghost use Rattle.std.specs.Prelude.{◌≡◌, ◌↔◌, IsTrue, [], ◌∷◌, ◌++◌, None, OnOk, OnErr, is_some};
ghost use Rattle.mpw_structures.specs.Places.{place_of};

use crate::element::Element;
use crate::list::OwnedList;
use mpw_geom::Name;
use mpw_lists::{Same, are_same};
use std::alloc::{AllocError, Global};
use std::collections::BTreeMap;
use std::marker::Model;

/// The elements of a structure in file order. `Same` compares them by value.
pub type Elements = OwnedList<Element>;

/// A structure: a name and its elements.
pub struct Structure {
    /// The name by which references of its library find it.
    pub name: Name,
    /// Its elements, in its own coordinates.
    pub elements: Elements,
}

impl Drop for Structure {
    fn drop(self) {
        let Structure { name, elements } = self;
        drop(name);
        drop(elements);
    }
}

impl Same for Structure {
    /// Whether the structures have the same name and the same elements, in order. Cost: linear in the elements' points, up to the
    /// first difference. Takes no memory.
    fn is_same(&self, other: &Structure) -> bool {
        self.name == other.name && self.elements.is_same(&other.elements)
    }
}

/// Structures in file order, each with a different name. A name is found in logarithmic time.
pub struct Structures {
    items: Vec<Structure>,
    places: BTreeMap<Name, usize>,
}

impl Drop for Structures {
    fn drop(self) {
        let Structures { items, places } = self;
        drop(items);
        drop(places);
    }
}

impl Model for Structures {
    ghost use Rattle.std.specs.Prelude.{List};
    ghost use Rattle.mpw_structures.specs.declared.structures.Structure.{Structure};

    ghost Value = { List Structure };

    ghost use Rattle.mpw_structures.specs.Places.{AreIndexed};

    ghost view = { λ a. a.items.items };

    ghost invariant = { λ a. AreIndexed a.places a.items.items };
}

impl Structures {
    /// No structures. Takes no memory.
    pub fn new(alloc: Global) -> Structures
        ensures { result ≡ [] }
    {
        Structures {
            items: Vec::new(alloc),
            places: BTreeMap::new(alloc),
        }
    }

    /// The structures in file order.
    pub fn as_slice(&self) -> &[Structure]
        ensures { result.now ≡ self.now }
    {
        &self.items
    }

    /// The index of the structure with a name.
    pub fn position(&self, name: &Name) -> Option<usize>
        ensures { result ≡ place_of self.now name.now }
    {
        self.places.get(name).copied()
    }

    /// Adds a structure with a new name at the end. Cost: that of a look-up.
    ///
    /// # Errors
    /// Out of memory. Nothing is changed then.
    pub fn push(&mut self, structure: Structure) -> Result<(), AllocError>
        requires { place_of self.old structure.name ≡ None }
        ensures ok { OnOk result (self.new ≡ self.old ++ structure ∷ []) }
        ensures err { OnErr result (self.new ≡ self.old) }
    {
        self.items.reserve(1)?;
        let name = structure.name.copy()?;
        let place = self.items.len();
        self.places.insert(name, place)?;
        self.items.push(structure)?;
        Ok(())
    }

    /// Whether the lists have the same structures in the same order. Stops at the first difference, and takes no memory.
    pub fn is_same(&self, other: &Structures) -> bool
        ensures { IsTrue result ↔ (self.now ≡ other.now) }
    {
        are_same(&self.items, &other.items)
    }
}
