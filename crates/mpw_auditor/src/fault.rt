//! Why nothing is printed.
ghost use Rattle.std.specs.Prelude.{◌≡◌};
ghost use Rattle.mpw_auditor.specs.Status.{exit_of, status_of};
ghost use Rattle.mpw_auditor.specs.declared.fault.AuditFault.TheVariants as told;

use mpw_store::{FileFault, StoreFault, status_of_store};
use mpw_store_listing::ListingFault;
use mpw_wire::WireFault;
use std::alloc::AllocError;
use thiserror::Error;

/// Why nothing is printed, or not all.
#[derive(Debug, Drop, Error)]
pub enum AuditFault {
    /// The command line is wrong; the text says what is wrong and what is accepted.
    #[error("{0}")]
    Usage(String),
    /// The file isn't opened.
    #[error("{0}")]
    File(FileFault),
    /// The store's rows can't be read.
    #[error("error: the store: {0}")]
    Store(StoreFault),
    /// The store that is checked isn't sound.
    #[error("error: the store isn't sound: {0}")]
    Unsound(StoreFault),
    /// No number is left for a connection.
    #[error("error: the store isn't sound: no number is left for a connection")]
    Full,
    /// The log doesn't end as a desk leaves it: the frames that are taken, and those that follow.
    #[error("error: the store isn't sound: its log was cut off or is damaged after {0} frames. {1} further frames of it would be lost at the next start. \
         Restore the last backup, or look for the whole log")]
    Log(usize, usize),
    /// No row of that place has a payload.
    #[error("error: no row {0} has a payload")]
    NoPayload(u32),
    /// The output failed.
    #[error("error: the standard output failed")]
    Output,
    /// Memory runs out.
    #[error("error: out of memory")]
    Memory,
}

impl AuditFault {
    /// The exit status: 2 for usage, 3 for the file, its rows and the output, 4 for a store that isn't sound, 5 for memory.
    pub fn status(&self) -> u8
        ensures { result ≡ status_of self.now }
    {
        match self {
            AuditFault::Usage(_) => 2,
            AuditFault::File(fault) => fault.status(),
            AuditFault::Store(fault) => status_of_store(*fault),
            AuditFault::Unsound(_) | AuditFault::Full | AuditFault::Log(_, _) => 4,
            AuditFault::NoPayload(_) | AuditFault::Output => 3,
            AuditFault::Memory => 5,
        }
    }
}

/// The exit status: 0 if the answer was printed, and else the fault's.
pub fn exit_status(ended: &Result<(), AuditFault>) -> u8
    ensures { result ≡ exit_of ended.now }
{
    match ended {
        Ok(()) => 0,
        Err(fault) => fault.status(),
    }
}

impl From<AllocError> for AuditFault {
    ghost from_gives = { λ _ fault. fault ≡ told.Memory };

    fn from(_error: AllocError) -> AuditFault {
        AuditFault::Memory
    }
}

impl From<FileFault> for AuditFault {
    ghost from_gives = { λ file fault. fault ≡ told.File file };

    fn from(fault: FileFault) -> AuditFault {
        AuditFault::File(fault)
    }
}

impl From<StoreFault> for AuditFault {
    ghost from_gives = { λ store fault. fault ≡ told.Store store };

    fn from(fault: StoreFault) -> AuditFault {
        AuditFault::Store(fault)
    }
}

impl From<WireFault> for AuditFault {
    ghost use Rattle.mpw_auditor.specs.Status.{of_wire};

    ghost from_gives = { λ wire fault. fault ≡ of_wire wire };

    fn from(fault: WireFault) -> AuditFault {
        match fault {
            WireFault::Memory => AuditFault::Memory,
            WireFault::Read | WireFault::Write => AuditFault::Output,
        }
    }
}

impl From<ListingFault> for AuditFault {
    ghost use Rattle.mpw_auditor.specs.Status.{of_listing};

    ghost from_gives = { λ listing fault. fault ≡ of_listing listing };

    fn from(fault: ListingFault) -> AuditFault {
        match fault {
            ListingFault::Store(fault) => AuditFault::from(fault),
            ListingFault::Output(fault) => AuditFault::from(fault),
        }
    }
}
