//! The errors of putting a library on the shelf.

ghost use Rattle.std.specs.Prelude.{◌≡◌, Some};
ghost use Rattle.mpw_hier.specs.Words.{hier_word};
ghost use Rattle.mpw_hier.specs.declared.fault.HierFault.TheVariants.{Memory};

use std::alloc::{AllocError, AllocFailed};
use std::error::Error;
use std::fmt;

/// Why a library can't be put on the shelf.
#[derive(Clone, Copy)]
pub enum HierFault {
    /// Out of memory. It says nothing about the library.
    Memory,
    /// The library has no structure with the top's name.
    NoTop,
    /// A structure that the top reaches, or the top itself, leads back to itself.
    Cycle,
    /// A name outside the library is not the name of a cell with a submission.
    NoCell,
    /// The extent of the top, or of a structure of the library that the top reaches, exceeds -2^30 to 2^30 nm in its own coordinates.
    Extent,
    /// The submission has more flat shapes than the caller allows.
    Shapes,
    /// More than 64 levels.
    Deep,
    /// There are 4096 submissions already; or there are 1024 cells and the submission is of another cell.
    Full,
}

impl HierFault {
    /// The fault's word.
    #[tactic(auto, unfolding(crate::specs::Words::hier_word))]
    fn word(self) -> &'static str
        ensures { result.now ≡ hier_word self }
    {
        match self {
            HierFault::Memory => "memory",
            HierFault::NoTop => "notop",
            HierFault::Cycle => "cycle",
            HierFault::NoCell => "nocell",
            HierFault::Extent => "extent",
            HierFault::Shapes => "shapes",
            HierFault::Deep => "deep",
            HierFault::Full => "full",
        }
    }
}

impl fmt::Display for HierFault {
    ghost output = { λ fault. Some (hier_word fault) };

    fn fmt<W: fmt::Write>(&self, f: &mut fmt::Formatter<W>) -> fmt::Result {
        f.write_str(self.word())
    }
}

impl fmt::Debug for HierFault {
    fn fmt<W: fmt::Write>(&self, f: &mut fmt::Formatter<W>) -> fmt::Result {
        f.write_str(self.word())
    }
}

impl Error for HierFault {}

impl From<AllocError> for HierFault {
    ghost from_gives = { λ _ e. e ≡ Memory };

    fn from(_error: AllocError) -> HierFault {
        HierFault::Memory
    }
}

impl<T: Drop> From<AllocFailed<T>> for HierFault {
    ghost from_gives = { λ _ e. e ≡ Memory };

    fn from(_error: AllocFailed<T>) -> HierFault {
        HierFault::Memory
    }
}
