//! The lines of an accepted request's reply.
//!
//! Copies of a reply share its lines, and the history stores each reply. So a listing of shapes, of markers or of requests is stored as
//! what it lists ([`ShapeListing`], [`MarkerListing`], [`TrailListing`]). Its lines are made one by one when they are written.
ghost use Rattle.std.specs.Prelude.{◌≡◌, ◌∷◌, [], IfOk, length, map};
ghost use Rattle.mpw_replies.specs.Listing.{stored};
ghost use Rattle.mpw_replies.specs.Told.{kept_lines, told_lines};
ghost use Rattle.mpw_replies.specs.Trail.{trail_lines};

use crate::listing::ShapeListing;
use crate::markers::MarkerListing;
use crate::reply::Line;
use mpw_trail::TrailListing;
use std::alloc::{AllocError, Global};
use std::marker::Model;
use std::sync::Arc;

/// What a reply stores of its lines: the lines themselves, or the shapes, the markers or the requests that they list.
enum Told {
    Stored(Vec<Line>),
    Shapes(ShapeListing),
    Markers(MarkerListing),
    Trail(TrailListing),
}

impl Drop for Told {
    fn drop(self) {
        match self {
            Told::Stored(line) => drop(line),
            Told::Shapes(shape_listing) => drop(shape_listing),
            Told::Markers(marker_listing) => drop(marker_listing),
            Told::Trail(trail_listing) => drop(trail_listing),
        }
    }
}

/// The lines of a reply. Contracts see them as that list. Copies share them.
pub struct Lines {
    told: Option<Arc<Told>>,
}

impl Drop for Lines {
    fn drop(self) {
        let Lines { told } = self;
        drop(told);
    }
}

impl Model for Lines {
    ghost use Rattle.std.specs.Prelude.{List, []};
    ghost use Rattle.std.specs.Option.{option_map_or};
    ghost use Rattle.mpw_replies.specs.Listing.{Listed};
    ghost use Rattle.mpw_replies.specs.Told.{told_lines};

    ghost Value = { List Listed };

    ghost view = { λ lines. option_map_or (λ told. told_lines told.value) lines.told [] };
}

/// A view of what a reply stores of its lines.
pub enum Kept<'a> {
    /// The lines themselves.
    Stored(&'a [Line]),
    /// The shapes that they list.
    Shapes(&'a ShapeListing),
    /// The markers that they list.
    Markers(&'a MarkerListing),
    /// The requests that they list.
    Trail(&'a TrailListing),
}

impl Lines {
    /// No lines. It takes no memory.
    pub fn none() -> Lines
        ensures { result ≡ [] }
    {
        Lines { told: None }
    }

    /// These lines. One allocation.
    ///
    /// # Errors
    /// Out of memory.
    pub fn from_vec(alloc: Global, lines: Vec<Line>) -> Result<Lines, AllocError>
        ensures { IfOk result (λ made. made ≡ map stored lines.items) }
    {
        let told = Arc::new(alloc, Told::Stored(lines))?;
        Ok(Lines { told: Some(told) })
    }

    /// One line. Two allocations.
    ///
    /// # Errors
    /// Out of memory.
    pub fn of_line(alloc: Global, line: Line) -> Result<Lines, AllocError>
        ensures { IfOk result (λ made. made ≡ stored line ∷ []) }
    {
        let mut lines = Vec::new(alloc);
        lines.push(line)?;
        Lines::from_vec(alloc, lines)
    }

    /// The lines of a listing of shapes. One allocation.
    ///
    /// # Errors
    /// Out of memory.
    pub fn of_shapes(alloc: Global, listing: ShapeListing) -> Result<Lines, AllocError>
        ensures { IfOk result (λ made. made ≡ listing) }
    {
        let told = Arc::new(alloc, Told::Shapes(listing))?;
        Ok(Lines { told: Some(told) })
    }

    /// The lines of a listing of markers. One allocation.
    ///
    /// # Errors
    /// Out of memory.
    pub fn of_markers(alloc: Global, listing: MarkerListing) -> Result<Lines, AllocError>
        ensures { IfOk result (λ made. made ≡ listing) }
    {
        let told = Arc::new(alloc, Told::Markers(listing))?;
        Ok(Lines { told: Some(told) })
    }

    /// The lines of a listing of the trail. One allocation.
    ///
    /// # Errors
    /// Out of memory.
    pub fn of_trail(alloc: Global, listing: TrailListing) -> Result<Lines, AllocError>
        ensures { IfOk result (λ made. made ≡ trail_lines listing) }
    {
        let told = Arc::new(alloc, Told::Trail(listing))?;
        Ok(Lines { told: Some(told) })
    }

    /// What is stored of the lines. It takes no memory.
    pub fn contents(&self) -> Kept<'_>
        ensures { kept_lines result ≡ self.now }
    {
        match &self.told {
            Some(told) => kept_of(told),
            None => Kept::Stored(&[]),
        }
    }

    /// The number of lines. Constant time; it takes no memory.
    pub fn len(&self) -> usize
        ensures { result ≡ length self.now }
    {
        match self.contents() {
            Kept::Stored(lines) => lines.len(),
            Kept::Shapes(listing) => listing.len(),
            Kept::Markers(listing) => listing.len(),
            Kept::Trail(listing) => listing.len(),
        }
    }

    /// The same lines. Constant time; it takes no memory.
    ///
    /// # Errors
    /// No more copies can be counted.
    pub fn copy(&self) -> Result<Lines, AllocError>
        ensures { IfOk result (λ lines. lines ≡ self.now) }
    {
        match &self.told {
            Some(told) => Ok(Lines {
                told: Some(told.clone()?),
            }),
            None => Ok(Lines::none()),
        }
    }
}

impl Clone for Lines {
    ghost is_clone = { λ lines copy. copy ≡ lines };

    fn clone(&self) -> Result<Lines, AllocError> {
        self.copy()
    }
}

/// A view of what is stored of the lines.
fn kept_of(told: &Told) -> Kept<'_>
    ensures { kept_lines result ≡ told_lines told.now }
{
    match told {
        Told::Stored(lines) => Kept::Stored(lines.as_slice()),
        Told::Shapes(listing) => Kept::Shapes(listing),
        Told::Markers(listing) => Kept::Markers(listing),
        Told::Trail(listing) => Kept::Trail(listing),
    }
}
