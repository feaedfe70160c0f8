//! Why a service accepts and serves no further connections.
ghost use Rattle.std.specs.Prelude.{◌≡◌};
ghost use Rattle.mpw_service.specs.Status.{status_of_serving};
ghost use Rattle.mpw_service.specs.declared.fault.ServeFault.TheVariants.{Memory};

use std::alloc::AllocError;
use thiserror::Error;

/// Why connections are served no further. All threads were joined.
#[derive(Clone, Copy, PartialEq, Eq, Debug, Error)]
pub enum ServeFault {
    /// A connection can't be accepted.
    #[error("a connection can't be accepted")]
    Accept,
    /// No pass is left for a connection or a worker.
    #[error("no pass is left")]
    Full,
    /// A thread can't be started.
    #[error("a thread can't be started")]
    Thread,
    /// There is no room for the lists of threads, connections or passes.
    #[error("out of memory")]
    Memory,
}

impl From<AllocError> for ServeFault {
    ghost from_gives = { λ _ fault. fault ≡ Memory };

    fn from(_error: AllocError) -> ServeFault {
        ServeFault::Memory
    }
}

impl ServeFault {
    /// The exit status: 3 if a connection can't be accepted or no pass is left, 5 if a thread can't be started or memory runs out.
    pub fn status(self) -> u8
        ensures { result ≡ status_of_serving self }
    {
        match self {
            ServeFault::Accept | ServeFault::Full => 3,
            ServeFault::Thread | ServeFault::Memory => 5,
        }
    }
}
