//! What the lines give: a deck, a shelf, markers and a name.

use anyhow::{Context, Result, bail};
use gate_plain::{placed, placed_roots, submit};
use gate_words::{Words, key};
use mpw_deck::read_deck;
use mpw_geom::Name;
use mpw_hier::Shelf;
use mpw_markers::{Key, Marker, Met};
use mpw_tiles::Snapshot;
use std::alloc::{AllocError, Global};

/// What the lines give.
#[derive(Drop)]
pub struct Given {
    deck: String,
    shelf: Shelf,
    name: Option<Name>,
    /// The markers, in their order.
    pub markers: Vec<Marker>,
}

impl Given {
    /// Nothing yet.
    pub fn new(alloc: Global) -> Given {
        Given {
            deck: String::new(alloc),
            shelf: Shelf::new(alloc),
            name: None,
            markers: Vec::new(alloc),
        }
    }

    /// Takes what a line gives.
    pub fn take(
        &mut self,
        alloc: Global,
        verb: &str,
        words: &mut Words<'_>,
        rest: &str,
    ) -> Result<()> {
        match verb {
            "new" => {
                *self = Given::new(alloc);
                self.name = Some(Name::read(alloc, words.next().as_bytes())?);
            }
            "deck" => {
                self.deck.push_str(rest)?;
                self.deck.push_str("\n")?;
            }
            "submit" => {
                let (cell, top) = (words.next(), words.next());
                submit(alloc, &mut self.shelf, cell, top, rest)?;
            }
            "marker" => self.add(1, 0, key(&mut Words::of(rest)))?,
            "many" => {
                let (count, step) = (words.number(), i64::from(words.number()));
                self.add(count, step, key(&mut Words::of(rest)))?;
            }
            _ => bail!("a command"),
        }
        Ok(())
    }

    /// Adds so many markers, each so far to the right of the one before.
    fn add(&mut self, count: u32, step: i64, first: Key) -> Result<(), AllocError> {
        let mut key = first;
        for _ in 0..count {
            let met = Met::none();
            self.markers.push(Marker { key, met })?;
            key.piece.x1 = key.piece.x1.saturating_add(step);
            key.piece.x2 = key.piece.x2.saturating_add(step);
        }
        Ok(())
    }

    /// The name of the pictures.
    pub fn top(&self) -> Result<&Name> {
        self.name.as_ref().context("a name")
    }

    /// The snapshot of placed submissions.
    pub fn snapshot(&self, alloc: Global, roots: &str) -> Result<Snapshot> {
        let deck = read_deck(alloc, self.deck.as_bytes())?;
        placed(alloc, deck, &self.shelf, &placed_roots(alloc, roots)?)
    }
}
