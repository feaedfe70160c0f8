//! Why a sample couldn't grow.

ghost use Rattle.std.specs.Prelude.{◌≡◌};
ghost use Rattle.gate_samples.specs.declared.error.SampleError.TheVariants.{Memory};

use std::alloc::AllocError;
use thiserror::Error;

/// Why records weren't added.
#[derive(Clone, Copy, Debug, Error)]
pub enum SampleError {
    /// A record's data has more than 65531 bytes.
    #[error("a record has at most 65531 bytes of data")]
    TooLong,
    /// Memory ran out.
    #[error("out of memory")]
    Memory,
}

impl From<AllocError> for SampleError {
    ghost from_gives = { λ _ e. e ≡ Memory };

    fn from(_error: AllocError) -> SampleError {
        SampleError::Memory
    }
}
