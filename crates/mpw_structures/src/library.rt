//! A library, whose copies share its structures.

ghost use Rattle.std.specs.Prelude.{◌≡◌, ◌↔◌, IfOk, IsTrue};
ghost use Rattle.mpw_structures.specs.Places.{place_of};

use crate::structures::{Structure, Structures};
use mpw_geom::Name;
use std::alloc::{AllocError, Global};
use std::marker::Model;
use std::sync::Arc;

/// The structures of a library. Copies share memory.
pub struct Library {
    structures: Arc<Structures>,
}

impl Drop for Library {
    fn drop(self) {
        let Library { structures } = self;
        drop(structures);
    }
}

impl Model for Library {
    ghost use Rattle.std.specs.Prelude.{List};
    ghost use Rattle.mpw_structures.specs.declared.structures.Structure.{Structure};

    ghost Value = { List Structure };

    ghost view = { λ a. a.structures.value };
}

impl Library {
    /// A library of structures. The only error is out of memory.
    pub fn new(alloc: Global, structures: Structures) -> Result<Library, AllocError>
        ensures { IfOk result (λ library. library ≡ structures) }
    {
        Ok(Library {
            structures: Arc::new(alloc, structures)?,
        })
    }

    /// The structures in file order.
    pub fn structures(&self) -> &[Structure]
        ensures { result.now ≡ self.now }
    {
        self.structures.as_slice()
    }

    /// The index of the structure with a name, in logarithmic time.
    pub fn position(&self, name: &Name) -> Option<usize>
        ensures { result ≡ place_of self.now name.now }
    {
        self.structures.position(name)
    }

    /// The same library, in constant time and without more memory.
    ///
    /// # Errors
    /// If no more copies can be counted.
    pub fn copy(&self) -> Result<Library, AllocError>
        ensures { IfOk result (λ library. library ≡ self.now) }
    {
        Ok(Library {
            structures: self.structures.clone()?,
        })
    }

    /// Whether the libraries have the same structures in the same order, by value. Cost: linear in their contents, up to the first
    /// difference. Takes no memory.
    pub fn is_same(&self, other: &Library) -> bool
        ensures { IsTrue result ↔ (self.now ≡ other.now) }
    {
        self.structures.is_same(&other.structures)
    }
}
