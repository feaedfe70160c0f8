//! A side for tiles that replaces the deck's.
ghost use Rattle.std.specs.Prelude.{◌≡◌, ◌≤◌, ◌^◌, IfOk, option_map};
ghost use Rattle.mpw_text.specs.Text.{number_of};
ghost use Rattle.mpw_firm_choices.specs.Sides.{with_side};

use mpw_deck::Deck;
use mpw_text::read_number;
use std::alloc::AllocError;
use std::marker::Model;

/// The least side that a deck may have, in nm.
const MIN_SIDE: u32 = 256;

/// The greatest side that a deck may have, in nm.
const MAX_SIDE: u32 = 1 << 30;

/// A side that a deck may have, 256 to 2^30 nm. Contracts see it as that number.
#[derive(Drop)]
pub struct TileSide {
    nm: u32,
}

impl Model for TileSide {
    ghost use Rattle.std.specs.Prelude.{ℕ, ◌≤◌, ◌^◌};

    ghost Value = { ℕ };

    ghost view = { λ side. side.nm };

    ghost invariant = { λ side. (256 ≤ side.nm) × (side.nm ≤ 2 ^ 30) };
}

impl TileSide {
    /// The side that a word spells: decimal, without a sign or a leading zero.
    pub fn read(word: &[u8]) -> Option<TileSide>
        ensures { result ≡ number_of 256 (2 ^ 30) word.now }
    {
        match read_number(word, MIN_SIDE, MAX_SIDE) {
            Some(nm) => Some(TileSide { nm }),
            None => None,
        }
    }

    /// The side in nm.
    pub fn nm(&self) -> u32
        ensures value { result ≡ self.now }
        ensures least { 256 ≤ result }
        ensures most { result ≤ 2 ^ 30 }
    {
        self.nm
    }
}

/// A deck with the rules of this one, and with that side if there is one. Constant time, without more memory.
///
/// # Errors
/// If no more copies of the rules can be counted.
pub fn with_side(deck: Deck, side: &Option<TileSide>) -> Result<Deck, AllocError>
    ensures { IfOk result (λ made. made ≡ with_side side.now deck) }
{
    deck.is_deck();
    match side {
        Some(side) => Ok(Deck::new(side.nm(), deck.rules().copy()?)),
        None => Ok(deck),
    }
}
