//! The wafer: the placed cells, and the deck that they are checked by.

ghost use Rattle.std.specs.Prelude.{◌≡◌, [], IfOk, None};

use crate::Placings;
use mpw_deck::Deck;
use std::alloc::{AllocError, Global};

/// The placements on the wafer, and the deck, if there is one. Copies share both.
pub struct Wafer {
    /// In the order in which they were made, at most 4096.
    pub placings: Placings,
    /// The last one that was uploaded, or none at first.
    pub deck: Option<Deck>,
}

impl Drop for Wafer {
    fn drop(self) {
        let Wafer { placings, deck } = self;
        drop(placings);
        drop(deck);
    }
}

/// The same deck, if there is one.
fn deck_copy(deck: &Option<Deck>) -> Result<Option<Deck>, AllocError>
    ensures { IfOk result (λ copy. copy ≡ deck.now) }
{
    match deck {
        Some(deck) => Ok(Some(deck.copy()?)),
        None => Ok(None),
    }
}

impl Wafer {
    /// The wafer without placements and without a deck. It takes no memory.
    pub fn new(alloc: Global) -> Wafer
        ensures placings { result.placings ≡ [] }
        ensures deck { result.deck ≡ None }
    {
        Wafer {
            placings: Placings::new(alloc),
            deck: None,
        }
    }

    /// The same wafer. Constant time; it takes no memory.
    ///
    /// # Errors
    /// No more copies can be counted.
    pub fn copy(&self) -> Result<Wafer, AllocError>
        ensures { IfOk result (λ wafer. wafer ≡ self.now) }
    {
        let placings = self.placings.copy()?;
        self.with_placings(placings)
    }

    /// The wafer with these placements and the same deck. Constant time; it takes no memory.
    ///
    /// # Errors
    /// No more copies can be counted.
    pub fn with_placings(&self, placings: Placings) -> Result<Wafer, AllocError>
        ensures placings { IfOk result (λ wafer. wafer.placings ≡ placings) }
        ensures deck { IfOk result (λ wafer. wafer.deck ≡ self.now.deck) }
    {
        let deck = deck_copy(&self.deck)?;
        Ok(Wafer { placings, deck })
    }
}
