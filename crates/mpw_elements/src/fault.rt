//! The errors of reading an element or a library.

ghost use Rattle.std.specs.Prelude.{◌≡◌};
ghost use Rattle.mpw_elements.specs.declared.fault.ReadError.TheVariants.{Memory, Fault};

use mpw_records::ReadFault;
use std::alloc::{AllocError, AllocFailed};
use thiserror::Error;

/// The first fault of a text, or out of memory.
#[derive(Clone, Copy, Debug, Error)]
pub enum ReadError {
    /// Out of memory. It says nothing about the text.
    #[error("out of memory")]
    Memory,
    /// The text is not a valid library: its first fault, with the offset in bytes.
    #[error("{0}")]
    Fault(ReadFault),
}

impl From<AllocError> for ReadError {
    ghost from_gives = { λ _ e. e ≡ Memory };

    fn from(_error: AllocError) -> ReadError {
        ReadError::Memory
    }
}

impl<T: Drop> From<AllocFailed<T>> for ReadError {
    ghost from_gives = { λ _ e. e ≡ Memory };

    fn from(_error: AllocFailed<T>) -> ReadError {
        ReadError::Memory
    }
}

impl From<ReadFault> for ReadError {
    ghost from_gives = { λ f e. e ≡ Fault f };

    fn from(fault: ReadFault) -> ReadError {
        ReadError::Fault(fault)
    }
}
