//! Why serving a connection stopped.
ghost use Rattle.std.specs.Prelude.{◌≡◌};
ghost use Rattle.mpw_wire.specs.declared.fault.WireFault.TheVariants.{Memory};

use std::alloc::AllocError;
use thiserror::Error;

/// What failed while lines were read or replies were written.
#[derive(Clone, Copy, Debug, PartialEq, Eq, Error)]
pub enum WireFault {
    /// The source failed. The connection ends without a further reply.
    #[error("the input could not be read")]
    Read,
    /// The sink failed. The connection ends without a further reply.
    #[error("the output could not be written")]
    Write,
    /// There was no memory to read a line.
    #[error("out of memory")]
    Memory,
}

impl From<AllocError> for WireFault {
    ghost from_gives = { λ _ fault. fault ≡ Memory };

    fn from(_error: AllocError) -> WireFault {
        WireFault::Memory
    }
}
