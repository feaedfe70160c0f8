//! Why a command on the sets is refused.
ghost use Rattle.std.specs.Prelude.{◌≡◌};
ghost use Rattle.mpw_separation.specs.declared.fault.SetsFault.TheVariants.{Memory};

use std::alloc::{AllocError, AllocFailed};
use std::error::Error;
use std::fmt;

/// Why a command on the sets was refused.
#[derive(Clone, Copy)]
pub enum SetsFault {
    /// A set of the kind has the name (CreateSsdSet, CreateDsdSet).
    Known,
    /// No set of the kind has the name (DeleteSsdSet, DeleteDsdSet).
    Unknown,
    /// There are 64 sets of the kind (CreateSsdSet, CreateDsdSet).
    Full,
    /// Memory ran out. The sets are unchanged.
    Memory,
}

impl SetsFault {
    /// The text of the fault.
    fn words(self) -> &'static str {
        match self {
            SetsFault::Known => "a set of this kind has the name",
            SetsFault::Unknown => "no set of this kind has the name",
            SetsFault::Full => "there are 64 sets of this kind already",
            SetsFault::Memory => "out of memory",
        }
    }
}

impl fmt::Display for SetsFault {
    fn fmt<W: fmt::Write>(&self, f: &mut fmt::Formatter<W>) -> fmt::Result {
        f.write_str(self.words())
    }
}

impl fmt::Debug for SetsFault {
    fn fmt<W: fmt::Write>(&self, f: &mut fmt::Formatter<W>) -> fmt::Result {
        f.write_str(self.words())
    }
}

impl Error for SetsFault {}

impl From<AllocError> for SetsFault {
    ghost from_gives = { λ _ fault. fault ≡ Memory };

    fn from(_error: AllocError) -> SetsFault {
        SetsFault::Memory
    }
}

impl<T: Drop> From<AllocFailed<T>> for SetsFault {
    ghost from_gives = { λ _ fault. fault ≡ Memory };

    fn from(_error: AllocFailed<T>) -> SetsFault {
        SetsFault::Memory
    }
}
