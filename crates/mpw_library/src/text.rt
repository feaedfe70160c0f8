//! A GDSII text that was read.

ghost use Rattle.std.specs.Prelude.{◌≡◌, IfOk};
ghost use Rattle.mpw_structures.specs.Library.{IsLibrary};
ghost use Rattle.mpw_elements.specs.Reading.{GivesValue};
ghost use Rattle.mpw_library.specs.Grammar.{library_of};

use crate::read::read_shared;
use mpw_elements::ReadError;
use mpw_records::ReadFault;
use mpw_structures::Library;
use std::alloc::{AllocError, Global};
use std::marker::Model;
use std::sync::Arc;

/// The bytes of a text, with the result of reading them: a library, or the first fault. Contracts see the
/// bytes. Copies share both; [`LibraryText::alone`] has only the bytes.
pub struct LibraryText {
    bytes: Arc<Vec<u8>>,
    outcome: Option<Result<Library, ReadFault>>,
}

impl Drop for LibraryText {
    fn drop(self) {
        let LibraryText { bytes, outcome } = self;
        drop(bytes);
        drop(outcome);
    }
}

impl Model for LibraryText {
    ghost use Rattle.std.specs.Prelude.{ℕ, List, IfSome};
    ghost use Rattle.mpw_library.specs.Text.{IsRead};

    ghost Value = { List ℕ };

    ghost view = { λ t. t.bytes.value.items };

    ghost invariant = { λ t. IfSome t.outcome (IsRead t.bytes.value.items) };
}

impl LibraryText {
    /// The text of these bytes. They are read once, here.
    ///
    /// # Errors
    /// Out of memory, for the library or for what is shared.
    pub fn read(alloc: Global, bytes: Vec<u8>) -> Result<LibraryText, AllocError>
        ensures { IfOk result (λ text. text ≡ bytes.items) }
    {
        let bytes = Arc::new(alloc, bytes)?;
        let outcome = match read_shared(alloc, &bytes) {
            Ok(library) => Ok(library),
            Err(ReadError::Fault(fault)) => Err(fault),
            Err(ReadError::Memory) => return Err(AllocError),
        };
        Ok(LibraryText {
            bytes,
            outcome: Some(outcome),
        })
    }

    /// The bytes.
    pub fn as_bytes(&self) -> &[u8]
        ensures { result.now ≡ self.now }
    {
        self.bytes.as_slice()
    }

    /// The library of the text: in constant time, or read again if only the bytes are stored.
    ///
    /// # Errors
    /// The first fault by offset, or out of memory.
    pub fn library(&self, alloc: Global) -> Result<Library, ReadError>
        ensures library { GivesValue (λ library. library) result (library_of self.now) }
        ensures shape { IfOk result IsLibrary }
    {
        match &self.outcome {
            Some(outcome) => library_in(outcome),
            None => read_shared(alloc, &self.bytes),
        }
    }

    /// The same text, in constant time and without more memory, with only its bytes. The result of reading them can be freed.
    ///
    /// # Errors
    /// If no more copies can be counted.
    pub fn alone(&self) -> Result<LibraryText, AllocError>
        ensures { IfOk result (λ text. text ≡ self.now) }
    {
        Ok(LibraryText {
            bytes: self.bytes.clone()?,
            outcome: None,
        })
    }

    /// The same text, in constant time and without more memory.
    ///
    /// # Errors
    /// If no more copies can be counted.
    pub fn copy(&self) -> Result<LibraryText, AllocError>
        ensures { IfOk result (λ text. text ≡ self.now) }
    {
        Ok(LibraryText {
            bytes: self.bytes.clone()?,
            outcome: copy_outcome(&self.outcome)?,
        })
    }
}

/// The result of reading.
fn library_in(outcome: &Result<Library, ReadFault>) -> Result<Library, ReadError>
    ensures { GivesValue (λ library. library) result outcome.now }
{
    match outcome {
        Ok(library) => Ok(library.copy()?),
        Err(fault) => Err(ReadError::Fault(*fault)),
    }
}

/// The result of reading, shared.
fn copy_outcome(
    outcome: &Option<Result<Library, ReadFault>>,
) -> Result<Option<Result<Library, ReadFault>>, AllocError>
    ensures { IfOk result (λ copy. copy ≡ outcome.now) }
{
    match outcome {
        Some(Ok(library)) => Ok(Some(Ok(library.copy()?))),
        Some(Err(fault)) => Ok(Some(Err(*fault))),
        None => Ok(None),
    }
}

impl Clone for LibraryText {
    ghost is_clone = { λ text copy. copy ≡ text };

    fn clone(&self) -> Result<LibraryText, AllocError> {
        self.copy()
    }
}
