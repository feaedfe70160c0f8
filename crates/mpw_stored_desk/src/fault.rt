//! Why a script over a store ends early.
ghost use Rattle.std.specs.Prelude.{◌≡◌, ◌==◌};
ghost use Rattle.mpw_stored_desk.specs.Status.{exit_of, refused_as, refused_row, status_of};
ghost use Rattle.mpw_stored_desk.specs.declared.fault.StoredFault.TheVariants as told;

use mpw_serve::End;
use mpw_store::{FileFault, StoreFault};
use mpw_wire::WireFault;
use thiserror::Error;

/// Why a script over a store ends early.
#[derive(Clone, Copy, Debug, Error)]
pub enum StoredFault {
    /// The store isn't opened, or its rows lead to no desk.
    #[error("{0}")]
    File(FileFault),
    /// A new desk of the officer doesn't accept the first row.
    #[error("error: the store: it belongs to another officer or token. Check --officer and --digest; if they are right, its first row is damaged")]
    Stranger,
    /// No number is left for a connection.
    #[error("error: the store: no number is left for a connection")]
    Full,
    /// A device failed.
    #[error("error: {0}")]
    Wire(WireFault),
    /// A change could not be stored, which closed the desk.
    #[error("error: the store: {0}")]
    Closed(StoreFault),
}

/// Whether a row is the first one.
fn is_first(place: u32) -> bool
    ensures { result ≡ (place == 1) }
{
    place == 1
}

/// The fault of a row that isn't accepted.
fn refused_row(place: u32) -> StoredFault
    ensures { result ≡ refused_row place }
{
    if is_first(place) {
        StoredFault::Stranger
    } else {
        StoredFault::File(FileFault::Store(StoreFault::Rows(place)))
    }
}

impl StoredFault {
    /// Why a store isn't reopened. Each desk's first row is its officer's login, so that one which isn't accepted is another officer's or another token's.
    pub fn refused(fault: StoreFault) -> StoredFault
        ensures { result ≡ refused_as fault }
    {
        match fault {
            StoreFault::Rows(place) => refused_row(place),
            StoreFault::Sql(_) | StoreFault::Memory | StoreFault::Other => {
                StoredFault::File(FileFault::Store(fault))
            }
        }
    }

    /// The exit status: 5 if memory ran out before the store was opened or for the connection, else 3, also if it ran out for a change.
    pub fn status(self) -> u8
        ensures { result ≡ status_of self }
    {
        match self {
            StoredFault::File(fault) => fault.status(),
            StoredFault::Wire(WireFault::Memory) => 5,
            StoredFault::Wire(WireFault::Read | WireFault::Write) => 3,
            StoredFault::Stranger | StoredFault::Full | StoredFault::Closed(_) => 3,
        }
    }
}

/// The exit status of the program by how it ended: 0 if the connection did, else the fault's.
pub fn exit_status(ended: &Result<End, StoredFault>) -> u8
    ensures { result ≡ exit_of ended.now }
{
    match ended {
        Ok(_) => 0,
        Err(fault) => fault.status(),
    }
}

impl From<FileFault> for StoredFault {
    ghost from_gives = { λ file fault. fault ≡ told.File file };

    fn from(fault: FileFault) -> StoredFault {
        StoredFault::File(fault)
    }
}
