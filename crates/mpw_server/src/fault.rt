//! Why a service doesn't end well, and the exit status.
ghost use Rattle.std.specs.Prelude.{◌≡◌};
ghost use Rattle.mpw_server.specs.Status.{exit_of, status_of};
ghost use Rattle.mpw_server.specs.declared.fault.ServiceFault.TheVariants as service;

use mpw_desk::Mismatch;
use mpw_service::ServeFault;
use mpw_stored_desk::StoredFault;
use std::alloc::AllocError;
use thiserror::Error;

/// Why a service doesn't end well. That a change could not be stored comes before each other fault. The others are in the order in which they are found.
#[derive(Clone, Copy, Debug, Error)]
pub enum ServiceFault {
    /// The store can't be opened, its rows lead to no desk, or a change could not be stored, which closed the desk.
    #[error("{0}")]
    Store(StoredFault),
    /// There is no room for the new desk.
    #[error("error: out of memory")]
    Memory,
    /// The file of the log can't be opened.
    #[error("error: the file of the log can't be opened")]
    Log,
    /// The address isn't one, or can't be bound.
    #[error("error: the address can't be bound")]
    Bind,
    /// The standard output failed.
    #[error("error: the standard output failed")]
    Print,
    /// Serving ended early.
    #[error("error: {0}")]
    Serve(ServeFault),
    /// The passes made another number of calls than the desk has.
    #[error("error: the passes don't account for every call of the desk")]
    Mismatch,
    /// An ongoing service without a store has answered all calls of its desk.
    #[error("error: the desk has answered all its calls, and has no store to go on from: a new start is a new desk")]
    Full,
    /// The rows of a store come to as many calls as a desk answers.
    #[error("error: the store: its rows come to all calls that a desk answers: sign off, and begin a new store")]
    FullStore,
}

impl From<AllocError> for ServiceFault {
    ghost from_gives = { λ _ fault. fault ≡ service.Memory };

    fn from(_error: AllocError) -> ServiceFault {
        ServiceFault::Memory
    }
}

impl From<StoredFault> for ServiceFault {
    ghost from_gives = { λ stored fault. fault ≡ service.Store stored };

    fn from(fault: StoredFault) -> ServiceFault {
        ServiceFault::Store(fault)
    }
}

impl From<ServeFault> for ServiceFault {
    ghost from_gives = { λ serving fault. fault ≡ service.Serve serving };

    fn from(fault: ServeFault) -> ServiceFault {
        ServiceFault::Serve(fault)
    }
}

impl From<Mismatch> for ServiceFault {
    ghost from_gives = { λ _ fault. fault ≡ service.Mismatch };

    fn from(_mismatch: Mismatch) -> ServiceFault {
        ServiceFault::Mismatch
    }
}

impl ServiceFault {
    /// The exit status: 3 if a store or a device failed, the address can't be bound, a connection can't be accepted, no pass is left, or the desk
    /// is full; 4 if the passes don't account for every call; 5 if a thread can't be started or memory runs out.
    pub fn status(self) -> u8
        ensures { result ≡ status_of self }
    {
        match self {
            ServiceFault::Store(fault) => fault.status(),
            ServiceFault::Log | ServiceFault::Bind | ServiceFault::Print => 3,
            ServiceFault::Full | ServiceFault::FullStore => 3,
            ServiceFault::Serve(fault) => fault.status(),
            ServiceFault::Mismatch => 4,
            ServiceFault::Memory => 5,
        }
    }
}

/// The exit status of a service by how it ended: 0 if it printed its calls, and else the fault's.
pub(crate) fn exit_status(ended: &Result<(), ServiceFault>) -> u8
    ensures { result ≡ exit_of ended.now }
{
    match ended {
        Ok(()) => 0,
        Err(fault) => fault.status(),
    }
}
