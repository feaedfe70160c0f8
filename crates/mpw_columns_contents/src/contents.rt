//! Contents: a list of entries, each a shape or an array of instances.

ghost use Rattle.std.specs.Prelude.{◌≡◌, All, IfOk};
ghost use Rattle.mpw_columns_contents.specs.Contents.{IsNear};

use crate::thing::Thing;
use std::alloc::{AllocError, Global};
use std::marker::Model;

/// Entries in order. Contracts see them as a list. Each is displaced by at most 2^48 nm.
pub struct Contents {
    pub(crate) things: Vec<Thing>,
}

impl Drop for Contents {
    fn drop(self) {
        let Contents { things } = self;
        drop(things);
    }
}

impl Model for Contents {
    ghost use Rattle.std.specs.Prelude.{List, All};
    ghost use Rattle.mpw_columns_contents.specs.declared.thing.Thing.{Thing};
    ghost use Rattle.mpw_columns_contents.specs.Contents.{IsNear};

    ghost Value = { List Thing };

    ghost view = { λ c. c.things.items };

    ghost invariant = { λ c. All IsNear c.things.items };
}

impl Contents {
    /// The entries in order. Takes no memory.
    pub fn things(&self) -> &[Thing]
        ensures things { result.now ≡ self.now }
        ensures near { All IsNear self.now }
    {
        &self.things
    }

    /// A copy of the entries.
    ///
    /// # Errors
    /// Out of memory.
    pub fn copy(&self, alloc: Global) -> Result<Contents, AllocError>
        ensures { IfOk result (λ things. things ≡ self.now) }
    {
        let mut things = Vec::new(alloc);
        things.extend_from_slice(&self.things)?;
        Ok(Contents { things })
    }
}
