//! Why a store fails.
ghost use Rattle.std.specs.Prelude.{◌≡◌};
ghost use Rattle.mpw_store.specs.Faults.{fault_of};
ghost use Rattle.mpw_store.specs.declared.fault.StoreFault.TheVariants.{Memory};

use sqlite::{Error as SqlError, ErrorCode};
use std::alloc::AllocError;
use thiserror::Error;

/// Why a store could not be opened, read or added to.
#[derive(Clone, Copy, Debug, PartialEq, Eq, Error)]
pub enum StoreFault {
    /// The database failed. It says why.
    #[error("{0}")]
    Sql(SqlError),
    /// The row at that place isn't one that can be there.
    #[error("row {0} is no change that the desk accepts there")]
    Rows(u32),
    /// Memory ran out.
    #[error("out of memory")]
    Memory,
    /// The database has something else than the table of changes.
    #[error("it is another database")]
    Other,
}

impl From<SqlError> for StoreFault {
    ghost from_gives = { λ error fault. fault ≡ fault_of error };

    fn from(error: SqlError) -> StoreFault {
        match error {
            SqlError::SqliteFailure(ErrorCode::OutOfMemory) => StoreFault::Memory,
            _ => StoreFault::Sql(error),
        }
    }
}

impl From<AllocError> for StoreFault {
    ghost from_gives = { λ _ fault. fault ≡ Memory };

    fn from(_error: AllocError) -> StoreFault {
        StoreFault::Memory
    }
}
