//! A submission: one version of a cell.

ghost use Rattle.std.specs.Prelude.{◌≡◌, ◌↔◌, IfOk, IsTrue};

use crate::bindings::Bindings;
use mpw_geom::Name;
use mpw_lists::Same;
use mpw_structures::Library;
use std::alloc::AllocError;

/// One version of a cell, with its library.
pub struct Submission {
    /// The cell's name, by which other libraries refer to it.
    pub cell: Name,
    /// The version, counted from 1 for each cell.
    pub version: u32,
    /// The user who submitted it.
    pub submitter: Name,
    /// All structures as they were read, even those that the top doesn't reach.
    pub library: Library,
    /// The name of the structure that is the cell's top.
    pub top: Name,
    /// The bindings of all names outside the library that the top reaches, in order of name.
    pub bound: Bindings,
}

impl Drop for Submission {
    fn drop(self) {
        let Submission {
            cell,
            version: _,
            submitter,
            library,
            top,
            bound,
        } = self;
        drop(cell);
        drop(submitter);
        drop(library);
        drop(top);
        drop(bound);
    }
}

impl Submission {
    /// The same submission, in constant time and without more memory: its parts are shared.
    ///
    /// # Errors
    /// If no more copies can be counted.
    pub fn copy(&self) -> Result<Submission, AllocError>
        ensures { IfOk result (λ submission. submission ≡ self.now) }
    {
        Ok(Submission {
            cell: self.cell.copy()?,
            version: self.version,
            submitter: self.submitter.copy()?,
            library: self.library.copy()?,
            top: self.top.copy()?,
            bound: self.bound.copy()?,
        })
    }

    /// Whether both submissions are equal in each part, by value. Cost: linear in their libraries, up to the first difference.
    /// Takes no memory.
    pub fn is_same(&self, other: &Submission) -> bool
        ensures { IsTrue result ↔ (self.now ≡ other.now) }
    {
        let same_cell = (self.cell == other.cell)
            & (self.version == other.version)
            & (self.submitter == other.submitter)
            & (self.top == other.top);
        same_cell && self.bound.is_same(&other.bound) && self.library.is_same(&other.library)
    }
}

impl Same for Submission {
    fn is_same(&self, other: &Submission) -> bool {
        Submission::is_same(self, other)
    }
}
