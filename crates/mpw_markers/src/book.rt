//! The book of a run's markers.

ghost use Rattle.std.specs.Prelude.{◌≡◌, ◌↔◌, ◌==◌, [], Some, length, slice_get, IfOk, Contains};
ghost use Rattle.std.specs.Option.{option_copied};
ghost use Rattle.mpw_markers.specs.declared.marker.Marker.{Marker as MarkerValue};
ghost use Rattle.mpw_markers.specs.Book.{IsBook, place_in};

use crate::marker::{Key, Marker, TileMarkers};
use std::alloc::{AllocError, Global};
use std::marker::Model;

/// The markers of a run. Contracts see them as a list, ordered by the rule's index in the deck, axis (`V` before
/// `H`), side, `x1`, `x2` and `y0`. On a line no two overlap or touch. Copies share memory.
pub struct Book {
    markers: TileMarkers,
}

impl Drop for Book {
    fn drop(self) {
        let Book { markers } = self;
        drop(markers);
    }
}

impl Model for Book {
    ghost use Rattle.std.specs.Prelude.{List};
    ghost use Rattle.mpw_markers.specs.declared.marker.Marker.{Marker};
    ghost use Rattle.mpw_markers.specs.Book.{IsBook};

    ghost Value = { List Marker };

    ghost view = { λ b. b.markers };

    ghost invariant = { λ b. IsBook b.markers };
}

/// The marker at an index, counted from 0.
fn marker_at(markers: &[Marker], place: usize) -> Option<&Marker>
    ensures { option_copied result ≡ slice_get markers.now place }
{
    markers.get(place)
}

impl Book {
    /// The empty book. Takes no memory.
    pub fn new() -> Book
        ensures { result ≡ [] }
    {
        Book {
            markers: TileMarkers::none(),
        }
    }

    /// The book of these markers, which must be in a book's order. One allocation; the markers aren't moved.
    ///
    /// # Errors
    /// Out of memory.
    pub fn from_vec(alloc: Global, markers: Vec<Marker>) -> Result<Book, AllocError>
        requires { IsBook markers.items }
        ensures { IfOk result (λ book. book ≡ markers.items) }
    {
        let markers = TileMarkers::from_vec(alloc, markers)?;
        Ok(Book { markers })
    }

    /// The markers in order.
    pub fn as_slice(&self) -> &[Marker]
        ensures markers { result.now ≡ self.now }
        ensures book { IsBook self.now }
    {
        self.markers.as_slice()
    }

    /// How many markers there are.
    pub fn len(&self) -> usize
        ensures { result ≡ length self.now }
    {
        self.markers.len()
    }

    /// Whether there are no markers.
    pub fn is_empty(&self) -> bool
        ensures { result ≡ (length self.now == 0) }
    {
        self.markers.is_empty()
    }

    /// The index of the marker with this key, counted from 0, if there is one. A binary search, without memory.
    pub fn place(&self, key: &Key) -> Option<usize>
        ensures { result ≡ place_in self.now key.now }
    {
        let markers = self.as_slice();
        let place = key.place();
        match markers.binary_search_by_key(&place, |marker| marker.key.place()) {
            Ok(i) => Some(i),
            Err(_) => None,
        }
    }

    /// The marker with this key, if there is one. A binary search, without memory.
    pub fn find(&self, key: &Key) -> Option<&Marker>
        ensures { (m : MarkerValue) →
            (option_copied result ≡ Some m) ↔ (Contains self.now m × (m.key ≡ key.now)) }
    {
        let markers = self.as_slice();
        match self.place(key) {
            Some(place) => marker_at(markers, place),
            None => None,
        }
    }

    /// The same book, in constant time and without more memory.
    ///
    /// # Errors
    /// If no more copies can be counted.
    pub fn copy(&self) -> Result<Book, AllocError>
        ensures { IfOk result (λ book. book ≡ self.now) }
    {
        let markers = self.markers.copy()?;
        Ok(Book { markers })
    }
}
