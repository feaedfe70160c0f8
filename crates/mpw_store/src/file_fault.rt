//! Why the file of a store isn't opened.
ghost use Rattle.std.specs.Prelude.{◌≡◌};
ghost use Rattle.mpw_store.specs.Status.{status_of, status_of_store};
ghost use Rattle.mpw_store.specs.declared.file_fault.FileFault.TheVariants as told;

use crate::fault::StoreFault;
use sqlite::Error as SqlError;
use thiserror::Error;

/// Why the file of a store isn't opened, or what it has isn't read.
#[derive(Clone, Copy, PartialEq, Eq, Debug, Error)]
pub enum FileFault {
    /// There is no file of that name.
    #[error("error: the store: there is no file of that name. Check the name; only without --existing is a new store made")]
    Missing,
    /// The file has no byte, and an existing store was asked for.
    #[error("error: the store: the file is empty, so it has no store. Copy a backup there, or leave out --existing for a new store")]
    Empty,
    /// There is a file of that name, and a new one was asked for.
    #[error("error: the store: there is a file of that name already. Leave out --new to go on from it, or choose another name")]
    Taken,
    /// The group or others may read or write the file, and a private one was asked for.
    #[error("error: the store: its group or others may read or write the file, which has the digests of all tokens. \
         Run chmod go-rw on it, or leave out --private")]
    Shared,
    /// The file is missing or empty, and the log next to it isn't.
    #[error("error: the store: the file is missing or empty, but the log next to it, the name with -wal, isn't. \
         Copy the file back next to its log, or move the log away for a new store")]
    BareLog,
    /// There is something else of that name, as a folder or a device.
    #[error("error: the store: it is no regular file. Name a file")]
    NoFile,
    /// The file has another name too.
    #[error("error: the store: the file has two names, and its log is next to one of them. Remove the other name")]
    Linked,
    /// The file can't be made.
    #[error("error: the store: the file can't be made. Check that its folder exists and that files may be made there")]
    Unmade,
    /// What the file has can't be opened or read.
    #[error("error: the store: {0}")]
    Store(StoreFault),
}

/// The exit status of a program that a store's fault ends: 5 if memory ran out, else 3.
pub fn status_of_store(fault: StoreFault) -> u8
    ensures { result ≡ status_of_store fault }
{
    match fault {
        StoreFault::Memory => 5,
        StoreFault::Sql(_) | StoreFault::Rows(_) | StoreFault::Other => 3,
    }
}

impl FileFault {
    /// The exit status of a program that the fault ends: 5 if memory ran out, else 3.
    pub fn status(self) -> u8
        ensures { result ≡ status_of self }
    {
        match self {
            FileFault::Store(fault) => status_of_store(fault),
            FileFault::Missing | FileFault::Empty | FileFault::Taken | FileFault::Shared => 3,
            FileFault::BareLog | FileFault::NoFile | FileFault::Linked | FileFault::Unmade => 3,
        }
    }
}

impl From<StoreFault> for FileFault {
    ghost from_gives = { λ fault found. found ≡ told.Store fault };

    fn from(fault: StoreFault) -> FileFault {
        FileFault::Store(fault)
    }
}

impl From<SqlError> for FileFault {
    ghost use Rattle.mpw_store.specs.Faults.{fault_of};

    ghost from_gives = { λ error found. found ≡ told.Store (fault_of error) };

    fn from(error: SqlError) -> FileFault {
        FileFault::Store(StoreFault::from(error))
    }
}
