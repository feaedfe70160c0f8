//! A list in its own vector.

ghost use Rattle.std.specs.Prelude.{◌≡◌};

use mpw_lists::{Same, are_same};
use std::marker::Model;

/// Items in file order. Contracts see them as a list. One allocation, however many there are.
pub struct OwnedList<T> {
    pub(crate) items: Vec<T>,
}

impl<T: Drop> Drop for OwnedList<T> {
    fn drop(self) {
        let OwnedList { items } = self;
        drop(items);
    }
}

impl<T> Model for OwnedList<T> {
    ghost use Rattle.std.specs.Prelude.{List};

    ghost Value = { List T };

    ghost view = { λ list. list.items.items };
}

impl<T: Drop> OwnedList<T> {
    /// The items of a vector. Takes no memory.
    pub fn from_vec(items: Vec<T>) -> OwnedList<T>
        ensures { result ≡ items.items }
    {
        OwnedList { items }
    }

    /// The vector of the items. Takes no memory.
    pub fn into_vec(self) -> Vec<T>
        ensures { result.items ≡ self }
    {
        let OwnedList { items: taken } = self;
        taken
    }

    /// The items in file order.
    pub fn as_slice(&self) -> &[T]
        ensures { result.now ≡ self.now }
    {
        &self.items
    }
}

impl<T: Same + Drop> Same for OwnedList<T> {
    /// Whether the lists have the same items in the same order. Stops at the first difference, and takes no memory.
    fn is_same(&self, other: &OwnedList<T>) -> bool {
        are_same(self.as_slice(), other.as_slice())
    }
}
