//! The reasons why no contents are made.

ghost use Rattle.std.specs.Prelude.{◌≡◌};
ghost use Rattle.mpw_columns_contents.specs.declared.stop.Stop.TheVariants.{Memory};

use std::alloc::{AllocError, AllocFailed};

/// Why no contents are made.
#[derive(Clone, Copy)]
pub enum Stop {
    /// Out of memory.
    Memory,
    /// There would be more entries than requested, or more levels than a shelf has.
    Many,
    /// A name is bound outside the library, or a displacement exceeds 2^48 nm.
    Outside,
}

impl From<AllocError> for Stop {
    ghost from_gives = { λ _ stop. stop ≡ Memory };

    fn from(_error: AllocError) -> Stop {
        Stop::Memory
    }
}

impl<T: Drop> From<AllocFailed<T>> for Stop {
    ghost from_gives = { λ _ stop. stop ≡ Memory };

    fn from(_error: AllocFailed<T>) -> Stop {
        Stop::Memory
    }
}
