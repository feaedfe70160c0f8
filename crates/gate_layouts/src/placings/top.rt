//! The contents of the wafer: a shelf, and the placements of its submissions.

use crate::placings::decks;
use anyhow::{Context, Result, bail};
use gate_plain::{deck_of, placed, submit};
use gate_words::{Answers, Words, orient_word};
use mpw_geom::{Name, Orient, Placing, Point};
use mpw_hier::Shelf;
use mpw_placings::{PlacementRef, PlacingFault, Placings};
use std::alloc::{AllocError, Global};
use std::io;

const DRAWN: Placing = Placing {
    orient: Orient::R0,
    by: Point { x: 0, y: 0 },
};

/// The state after the lines: the shelf, and the placements of its submissions.
#[derive(Drop)]
pub struct Top {
    shelf: Shelf,
    placings: Placings,
}

fn print_placement(rt: &HostRuntime, placement: PlacementRef<'_>) -> io::Result<()> {
    let Placing { orient, by } = placement.root.placing;
    println!(rt;
        "    {} {}: {} {} {} {}",
        placement.cell,
        placement.label,
        placement.root.submission,
        orient_word(orient),
        by.x,
        by.y
    )
}

/// The name of a word.
fn name(alloc: Global, word: &str) -> Result<Name> {
    Ok(Name::read(alloc, word.as_bytes())?)
}

impl Answers for Top {
    fn answer(
        &mut self,
        rt: &HostRuntime,
        verb: &str,
        words: &mut Words<'_>,
        behind: &str,
    ) -> Result<()> {
        match verb {
            "deck" => return decks::print_deck(rt, behind),
            "new" => *self = Top::new(rt.alloc()),
            "submit" => {
                let (cell, top) = (words.next(), words.next());
                submit(rt.alloc(), &mut self.shelf, cell, top, behind)?;
            }
            "list" => self.list(rt)?,
            "tiles" => self.tiles(rt, words.next())?,
            _ => return self.answer_cell(rt, verb, words),
        }
        Ok(())
    }
}

impl Top {
    /// An empty shelf, and no placements.
    pub fn new(alloc: Global) -> Top {
        Top {
            shelf: Shelf::new(alloc),
            placings: Placings::new(alloc),
        }
    }

    /// Answers a command about a cell.
    fn answer_cell(&mut self, rt: &HostRuntime, verb: &str, words: &mut Words<'_>) -> Result<()> {
        let cell = name(rt.alloc(), words.next())?;
        match verb {
            "place" => {
                let label = name(rt.alloc(), words.next())?;
                self.place(rt, &cell, &label, words.placing())
            }
            "unplace" => {
                let label = name(rt.alloc(), words.next())?;
                let changed = self.placings.unplace(rt.alloc(), &cell, &label);
                self.change(rt, changed, "taken away")
            }
            "fill" => self.fill(rt, &cell, words.number()),
            _ => bail!("a command"),
        }
    }

    /// Goes on with changed placements, and prints a word, or why there was no change.
    fn change(
        &mut self,
        rt: &HostRuntime,
        changed: Result<Placings, PlacingFault>,
        word: &str,
    ) -> Result<()> {
        match changed {
            Ok(placings) => {
                self.placings = placings;
                Ok(println!(rt; "    {word}")?)
            }
            Err(fault) => Ok(println!(rt; "    {fault}")?),
        }
    }

    /// Places a cell's present submission under a label, and prints its version, or why not.
    fn place(
        &mut self,
        rt: &HostRuntime,
        cell: &Name,
        label: &Name,
        placing: Placing,
    ) -> Result<()> {
        let placed = self
            .placings
            .place(rt.alloc(), &self.shelf, cell, label, placing);
        let version = match &placed {
            Ok(placings) => placings.version(&self.shelf, cell, label),
            Err(_) => None,
        };
        let word = format!(in rt.alloc(); "version {}", version.unwrap_or(0))?;
        self.change(rt, placed, word.as_str())
    }

    fn place_drawn(&mut self, alloc: Global, cell: &Name, number: u32) -> Result<()> {
        let label = format!(in alloc; "{number}")?;
        let label = name(alloc, label.as_str())?;
        self.placings = self
            .placings
            .place(alloc, &self.shelf, cell, &label, DRAWN)?;
        Ok(())
    }

    /// Places a cell that many times as it is drawn, under the labels 0, 1 and so on, and prints how many placements there are.
    fn fill(&mut self, rt: &HostRuntime, cell: &Name, count: u32) -> Result<()> {
        for number in 0..count {
            self.place_drawn(rt.alloc(), cell, number)?;
        }
        Ok(println!(rt; "    {} placings", self.placings.len())?)
    }

    /// Prints the placements, by a copy of the table.
    fn list(&self, rt: &HostRuntime) -> Result<()> {
        let placings = self.placings.copy()?;
        println!(rt; "    {} placings", placings.len())?;
        for place in 0..placings.len() {
            print_placement(rt, placings.get(place).context("a placing")?)?;
        }
        Ok(())
    }

    /// Prints how many tiles of that side, in nm, the placements have, or that there is no plan.
    fn tiles(&self, rt: &HostRuntime, side: &str) -> Result<()> {
        let deck = deck_of(rt.alloc(), side, "")?;
        let roots = self.placings.roots(rt.alloc())?;
        let snapshot = placed(rt.alloc(), deck, &self.shelf, &roots)?;
        match snapshot.plan() {
            Some(plan) => Ok(println!(rt; "    {} tiles", plan.tiles())?),
            None => Ok(println!(rt; "    no plan")?),
        }
    }
}
