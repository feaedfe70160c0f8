//! A list that its copies share.

ghost use Rattle.std.specs.Prelude.{◌≡◌, ◌↔◌, IfOk, IsTrue};

use crate::same::{Same, are_same};
use std::alloc::{AllocError, Global};
use std::marker::Model;
use std::sync::Arc;

/// Items in order. Contracts see them as a list. Copies share memory.
pub struct SharedList<T> {
    items: Arc<Vec<T>>,
}

impl<T: Drop> Drop for SharedList<T> {
    fn drop(self) {
        let SharedList { items } = self;
        drop(items);
    }
}

impl<T> Model for SharedList<T> {
    ghost use Rattle.std.specs.Prelude.{List};

    ghost Value = { List T };

    ghost view = { λ list. list.items.value.items };
}

impl<T: Drop> SharedList<T> {
    /// The items of a vector, in its order. Constant time.
    ///
    /// # Errors
    /// Out of memory (for the count of the list's copies).
    pub fn from_vec(alloc: Global, items: Vec<T>) -> Result<SharedList<T>, AllocError>
        ensures { IfOk result (λ list. list ≡ items.items) }
    {
        Ok(SharedList {
            items: Arc::new(alloc, items)?,
        })
    }

    /// The items, in order.
    pub fn as_slice(&self) -> &[T]
        ensures { result.now ≡ self.now }
    {
        self.items.as_slice()
    }

    /// The same list, in constant time and without more memory.
    ///
    /// # Errors
    /// If no more copies can be counted.
    pub fn copy(&self) -> Result<SharedList<T>, AllocError>
        ensures { IfOk result (λ list. list ≡ self.now) }
    {
        Ok(SharedList {
            items: self.items.clone()?,
        })
    }

    /// Whether the lists have the same items in the same order, by value. Stops at the first difference, and takes no memory.
    pub fn is_same(&self, other: &SharedList<T>) -> bool
    where
        T: Same,
        ensures { IsTrue result ↔ (self.now ≡ other.now) }
    {
        are_same(self.as_slice(), other.as_slice())
    }
}

impl<T: Same + Drop> Same for SharedList<T> {
    fn is_same(&self, other: &SharedList<T>) -> bool {
        SharedList::is_same(self, other)
    }
}
