//! A deck's text, with the deck that was read from it.

ghost use Rattle.std.specs.Prelude.{◌≡◌, IfOk};
ghost use Rattle.mpw_deck.specs.Reading.{deck_of};
ghost use Rattle.mpw_deck.specs.Text.{GivesDeck};
ghost use Rattle.mpw_deck.specs.declared.text.DeckError.TheVariants.{Memory};

use crate::deck::{Deck, DeckFault, DeckKind};
use crate::read::read_deck;
use std::alloc::{AllocError, Global};
use std::marker::Model;
use std::sync::Arc;
use thiserror::Error;

/// The first faulty line of a text, whose kind is never `Memory`; or out of memory.
#[derive(Clone, Copy, Debug, Error)]
pub enum DeckError {
    /// Out of memory. It says nothing about the text.
    #[error("out of memory")]
    Memory,
    /// The text is no deck: its first faulty line, with that line's first fault.
    #[error("{0}")]
    Fault(DeckFault),
}

impl From<AllocError> for DeckError {
    ghost from_gives = { λ _ e. e ≡ Memory };

    fn from(_error: AllocError) -> DeckError {
        DeckError::Memory
    }
}

/// The bytes of a text, with the result of reading them: a deck, or the first faulty line. Contracts see
/// the bytes. Copies share both; [`DeckText::alone`] has only the bytes.
pub struct DeckText {
    bytes: Arc<Vec<u8>>,
    outcome: Option<Result<Deck, DeckFault>>,
}

impl Drop for DeckText {
    fn drop(self) {
        let DeckText { bytes, outcome } = self;
        drop(bytes);
        drop(outcome);
    }
}

impl Model for DeckText {
    ghost use Rattle.std.specs.Prelude.{◌≡◌, ℕ, List, IfSome};
    ghost use Rattle.mpw_deck.specs.Reading.{deck_of};

    ghost Value = { List ℕ };

    ghost view = { λ t. t.bytes.value.items };

    ghost invariant = { λ t. IfSome t.outcome (λ outcome. deck_of t.bytes.value.items ≡ outcome) };
}

impl DeckText {
    /// The text of these bytes. They are read once, here.
    ///
    /// # Errors
    /// Out of memory, for the deck or for what is shared.
    pub fn read(alloc: Global, bytes: Vec<u8>) -> Result<DeckText, AllocError>
        ensures { IfOk result (λ text. text ≡ bytes.items) }
    {
        let outcome = outcome_of(alloc, &bytes)?;
        let bytes = Arc::new(alloc, bytes)?;
        Ok(DeckText {
            bytes,
            outcome: Some(outcome),
        })
    }

    /// The bytes.
    pub fn as_bytes(&self) -> &[u8]
        ensures { result.now ≡ self.now }
    {
        self.bytes.as_slice()
    }

    /// The deck of the text: in constant time, or read again if only the bytes are stored.
    ///
    /// # Errors
    /// The first faulty line, counted from 1, with its first fault, or out of memory.
    pub fn deck(&self, alloc: Global) -> Result<Deck, DeckError>
        ensures { GivesDeck result (deck_of self.now) }
    {
        match &self.outcome {
            Some(outcome) => deck_of_outcome(outcome),
            None => read(alloc, self.bytes.as_slice()),
        }
    }

    /// The same text, in constant time and without more memory, with only its bytes. The result of reading
    /// them can be freed.
    ///
    /// # Errors
    /// If no more copies can be counted.
    pub fn alone(&self) -> Result<DeckText, AllocError>
        ensures { IfOk result (λ text. text ≡ self.now) }
    {
        Ok(DeckText {
            bytes: self.bytes.clone()?,
            outcome: None,
        })
    }

    /// The same text, in constant time and without more memory.
    ///
    /// # Errors
    /// If no more copies can be counted.
    pub fn copy(&self) -> Result<DeckText, AllocError>
        ensures { IfOk result (λ text. text ≡ self.now) }
    {
        Ok(DeckText {
            bytes: self.bytes.clone()?,
            outcome: copy_of(&self.outcome)?,
        })
    }
}

/// Reads the bytes, and distinguishes out of memory from the faults of the text.
fn read(alloc: Global, bytes: &[u8]) -> Result<Deck, DeckError>
    ensures { GivesDeck result (deck_of bytes.now) }
{
    match read_deck(alloc, bytes) {
        Ok(deck) => Ok(deck),
        Err(fault) => match fault.kind {
            DeckKind::Memory => Err(DeckError::Memory),
            _ => Err(DeckError::Fault(fault)),
        },
    }
}

/// The result of reading the bytes.
fn outcome_of(alloc: Global, bytes: &[u8]) -> Result<Result<Deck, DeckFault>, AllocError>
    ensures { IfOk result (λ outcome. deck_of bytes.now ≡ outcome) }
{
    match read(alloc, bytes) {
        Ok(deck) => Ok(Ok(deck)),
        Err(DeckError::Fault(fault)) => Ok(Err(fault)),
        Err(DeckError::Memory) => Err(AllocError),
    }
}

/// The deck that was read, or why there is none.
fn deck_of_outcome(outcome: &Result<Deck, DeckFault>) -> Result<Deck, DeckError>
    ensures { GivesDeck result outcome.now }
{
    match outcome {
        Ok(deck) => Ok(deck.copy()?),
        Err(fault) => Err(DeckError::Fault(*fault)),
    }
}

/// The result of reading, shared.
fn copy_of(
    outcome: &Option<Result<Deck, DeckFault>>,
) -> Result<Option<Result<Deck, DeckFault>>, AllocError>
    ensures { IfOk result (λ copy. copy ≡ outcome.now) }
{
    match outcome {
        Some(Ok(deck)) => Ok(Some(Ok(deck.copy()?))),
        Some(Err(fault)) => Ok(Some(Err(*fault))),
        None => Ok(None),
    }
}

impl Clone for DeckText {
    ghost is_clone = { λ text copy. copy ≡ text };

    fn clone(&self) -> Result<DeckText, AllocError> {
        self.copy()
    }
}
