//! Lists of names, such as the roles of a session or the cells of a marker.
ghost use Rattle.std.specs.Prelude.{◌≡◌, [], ◌∷◌, ◌++◌, not, IfOk, OnOk, OnErr};
ghost use Rattle.mpw_geom.specs.Names.{name_eq, contains_name, without_name, by_name};

use crate::Name;
use std::alloc::{AllocError, Global};
use std::marker::Model;

/// A list of names. Contracts see it as a list.
pub struct Names {
    items: Vec<Name>,
}

impl Drop for Names {
    fn drop(self) {
        let Names { items } = self;
        drop(items);
    }
}

impl Model for Names {
    ghost use Rattle.std.specs.Prelude.{ℕ, List};

    ghost Value = { List (List ℕ) };

    ghost view = { λ names. names.items.items };
}

impl Names {
    /// The empty list. Takes no memory.
    pub fn new(alloc: Global) -> Names
        ensures { result ≡ [] }
    {
        Names {
            items: Vec::new(alloc),
        }
    }

    /// The list of these names. Takes no memory.
    pub fn from_vec(items: Vec<Name>) -> Names
        ensures { result ≡ items.items }
    {
        Names { items }
    }

    /// The names as a `Vec`. Takes no memory.
    pub fn into_vec(self) -> Vec<Name>
        ensures { result.items ≡ self }
    {
        let Names { items } = self;
        items
    }

    /// The names as a slice.
    pub fn as_slice(&self) -> &[Name]
        ensures { result.now ≡ self.now }
    {
        self.items.as_slice()
    }

    /// Whether the name is in the list. One pass.
    pub fn contains(&self, name: &Name) -> bool
        ensures { result ≡ contains_name self.now name.now }
    {
        self.items.iter().any(|other| *name == *other)
    }

    /// Adds a name at the end.
    ///
    /// # Errors
    /// Out of memory. The list is then as it was.
    pub fn push(&mut self, name: Name) -> Result<(), AllocError>
        ensures ok { OnOk result (self.new ≡ self.old ++ name ∷ []) }
        ensures err { OnErr result (self.new ≡ self.old) }
    {
        self.items.push(name)?;
        Ok(())
    }

    /// Removes the name. The others stay in their order. One pass.
    pub fn remove(&mut self, name: &Name)
        ensures { self.new ≡ without_name self.old name.now }
    {
        self.items.retain(
            |other: &Name| -> bool
                ensures { result ≡ not (name_eq name.entry.now other.now) }
            { *name != *other },
        );
    }

    /// Sorts the names by their bytes and leaves each once: n log n comparisons.
    ///
    /// # Errors
    /// Out of memory. The list is then as it was.
    pub fn sort(&mut self) -> Result<(), AllocError>
        ensures ok { OnOk result (self.new ≡ by_name self.old) }
        ensures err { OnErr result (self.new ≡ self.old) }
    {
        self.items.sort()?;
        self.items.dedup();
        Ok(())
    }

    /// The same list. The names share their text.
    ///
    /// # Errors
    /// Out of memory.
    pub fn copy(&self) -> Result<Names, AllocError>
        ensures { IfOk result (λ names. names ≡ self.now) }
    {
        let mut items = Vec::with_capacity(*self.items.allocator(), self.items.len())?;
        for name in &self.items {
            items.push(name.copy()?)?;
        }
        Ok(Names { items })
    }
}

impl Clone for Names {
    ghost is_clone = { λ names copy. copy ≡ names };

    fn clone(&self) -> Result<Names, AllocError> {
        self.copy()
    }
}
