//! Decks, and the faults of their texts.

ghost use Rattle.std.specs.Prelude.{◌≡◌, ◌↔◌, IfOk, IsTrue, Some};
ghost use Rattle.mpw_deck.specs.Decks.{IsDeck};
ghost use Rattle.mpw_deck.specs.Words.{kind_words, fault_text};
ghost use Rattle.mpw_deck.specs.declared.deck.DeckKind.TheVariants.{Memory};

use crate::rule::Rule;
use mpw_lists::SharedList;
use std::alloc::AllocError;
use std::error::Error;
use std::fmt;
use std::marker::Model;

/// The greatest number of rules of a deck.
pub const MAX_RULES: usize = 256;

/// Rules in order. Contracts see them as a list. Copies share memory.
pub type Rules = SharedList<Rule>;

/// A deck: the side of the tiles in nm, 256 to 2^30, and at most 256 rules, each with a distance of 1 to 65535 nm.
/// Copies share the rules.
pub struct Deck {
    tile: u32,
    rules: Rules,
}

impl Drop for Deck {
    fn drop(self) {
        let Deck { tile: _, rules } = self;
        drop(rules);
    }
}

impl Model for Deck {
    ghost use Rattle.mpw_deck.specs.Decks.{Deck, IsDeck};

    ghost Value = { Deck };

    ghost view = { λ d. record { tile = d.tile; rules = d.rules } };

    ghost invariant = { λ d. IsDeck (record { tile = d.tile; rules = d.rules }) };
}

impl Deck {
    /// The deck with this side of the tiles and these rules. Takes no memory.
    pub fn new(tile: u32, rules: Rules) -> Deck
        requires { IsDeck (record { tile = tile; rules = rules }) }
        ensures { result ≡ record { tile = tile; rules = rules } }
    {
        Deck { tile, rules }
    }

    /// The side of the tiles, in nm.
    pub fn tile(&self) -> u32
        ensures { result ≡ self.now.tile }
    {
        self.tile
    }

    /// The rules, in order.
    pub fn rules(&self) -> &Rules
        ensures { result.now ≡ self.now.rules }
    {
        &self.rules
    }

    /// A law; the function does nothing. Each deck meets the limits.
    pub fn is_deck(&self)
        ensures { IsDeck self.now }
    {
        let _tile = self.tile;
    }

    /// The same deck, in constant time and without more memory.
    ///
    /// # Errors
    /// If no more copies can be counted.
    pub fn copy(&self) -> Result<Deck, AllocError>
        ensures { IfOk result (λ deck. deck ≡ self.now) }
    {
        let rules = self.rules.copy()?;
        Ok(Deck {
            tile: self.tile,
            rules,
        })
    }

    /// Whether the decks have equal sides of tiles and equal rules, in order. Stops at the first difference, and takes
    /// no memory.
    pub fn is_same(&self, other: &Deck) -> bool
        ensures { IsTrue result ↔ (self.now ≡ other.now) }
    {
        self.tile == other.tile && self.rules.is_same(&other.rules)
    }
}

/// The fault of a line of a deck's text.
#[derive(Clone, Copy, PartialEq, Eq)]
pub enum DeckKind {
    /// The number of words is wrong, the first word of a later line is no check's name, or the rule's
    /// name isn't 1 to 255 bytes of 21 to 7E hex without a colon. An empty later line has this fault too.
    Word,
    /// The side of the tiles isn't a number from 256 to 2^30, or the distance isn't one from 1 to 65535: decimal, without
    /// sign or leading zero.
    Number,
    /// A layer isn't `L/D`, two numbers from 0 to 65535.
    Layer,
    /// The two layers of `separation` or `enclosing` are the same.
    SameLayer,
    /// An earlier rule has the same name.
    DoubleRule,
    /// There is no first line, or it doesn't begin with `tile`, or a later one does.
    Tile,
    /// There are already 256 rules.
    Rules,
    /// Out of memory. It says nothing about the text.
    Memory,
}

impl DeckKind {
    /// The word of the fault.
    #[tactic(auto, unfolding(crate::specs::Words::kind_words))]
    fn words(self) -> &'static str
        ensures { result.now ≡ kind_words self }
    {
        match self {
            DeckKind::Word => "word",
            DeckKind::Number => "number",
            DeckKind::Layer => "layer",
            DeckKind::SameLayer => "two equal layers",
            DeckKind::DoubleRule => "a rule's name used twice",
            DeckKind::Tile => "the tile line stands first, and once",
            DeckKind::Rules => "more than 256 rules",
            DeckKind::Memory => "out of memory",
        }
    }
}

impl fmt::Display for DeckKind {
    ghost output = { λ kind. Some (kind_words kind) };

    fn fmt<W: fmt::Write>(&self, f: &mut fmt::Formatter<W>) -> fmt::Result {
        f.write_str(self.words())
    }
}

impl fmt::Debug for DeckKind {
    fn fmt<W: fmt::Write>(&self, f: &mut fmt::Formatter<W>) -> fmt::Result {
        f.write_str(self.words())
    }
}

impl Error for DeckKind {}

impl From<AllocError> for DeckKind {
    ghost from_gives = { λ _ kind. kind ≡ Memory };

    fn from(_: AllocError) -> DeckKind {
        DeckKind::Memory
    }
}

/// The first faulty line of a deck's text, counted from 1, and its first fault. For `Memory` it is the
/// line at which reading stopped.
#[derive(Clone, Copy, Debug, PartialEq, Eq)]
pub struct DeckFault {
    /// The first test that the line fails.
    pub kind: DeckKind,
    /// The line, counted from 1. The fault of a text without lines is at line 1.
    pub line: usize,
}

impl fmt::Display for DeckFault {
    ghost output = { λ fault. Some (fault_text fault) };

    #[tactic(auto, unfolding(crate::specs::Words::fault_text))]
    fn fmt<W: fmt::Write>(&self, f: &mut fmt::Formatter<W>) -> fmt::Result {
        let DeckFault { kind, line } = *self;
        write!(f, "line {line}: {kind}")
    }
}

impl Error for DeckFault {}
