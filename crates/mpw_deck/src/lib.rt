//! Decks: the tile's side and the rules of a check, and how they are read from a text.
//!
//! [`read_deck`] reads the whole text or returns the first faulty line. A [`DeckText`] shares a text with the deck
//! that was read from it.
#![tactic(auto)]

mod deck;
mod fields;
mod laws;
mod line;
mod read;
mod rule;
mod text;

pub use deck::{Deck, DeckFault, DeckKind, MAX_RULES, Rules};
pub use laws::decks_name_their_rules;
pub use read::read_deck;
pub use rule::{Check, Rule};
pub use text::{DeckError, DeckText};
