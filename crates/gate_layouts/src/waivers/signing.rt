//! The waivers of a book's markers, and the shelf with what they touch.

use anyhow::{Result, bail};
use gate_plain::{Entry, put_entry};
use gate_samples::text_of_library;
use gate_words::{Answers, Words};
use mpw_geom::Name;
use mpw_hier::{MAX_SHAPES, Shelf};
use mpw_waiver::{Waiver, WaiverFault, Waivers};
use std::alloc::{AllocError, Global};
use std::io;

/// The state after the lines: the shelf, and the waivers of a book's markers.
#[derive(Drop)]
pub struct Desk {
    shelf: Shelf,
    waivers: Waivers,
}

/// Prints why a request failed.
fn print_fault(rt: &HostRuntime, fault: &WaiverFault) -> io::Result<()> {
    match fault {
        WaiverFault::Submitter(cell) => println!(rt; "    submitter {cell}"),
        fault => println!(rt; "    {fault}"),
    }
}

fn print_waiver(rt: &HostRuntime, place: usize, waiver: &Waiver) -> io::Result<()> {
    let asker = waiver.asker.as_str();
    match &waiver.signer {
        Some(signer) => println!(rt; "    {place} signed {asker} {signer}"),
        None => println!(rt; "    {place} asked {asker}"),
    }
}

impl Answers for Desk {
    fn answer(
        &mut self,
        rt: &HostRuntime,
        verb: &str,
        words: &mut Words<'_>,
        _behind: &str,
    ) -> Result<()> {
        match verb {
            "new" => self.begin(rt.alloc(), words.number()),
            "submit" => self.submit(rt, words.next(), words.next()),
            "ask" => self.ask(rt, words.number(), words.next()),
            "sign" => self.sign(rt, words),
            "list" => Ok(self.list(rt)?),
            "open" => Ok(println!(rt; "    {} open", self.waivers.count_unsigned())?),
            _ => bail!("a command"),
        }
    }
}

impl Desk {
    /// An empty shelf, and a book without markers.
    pub fn new(alloc: Global) -> Result<Desk, AllocError> {
        Ok(Desk {
            shelf: Shelf::new(alloc),
            waivers: Waivers::new(alloc, 0)?,
        })
    }

    /// Begins again with an empty shelf, and that many markers without a waiver.
    fn begin(&mut self, alloc: Global, size: u32) -> Result<()> {
        self.waivers = Waivers::new(alloc, size as usize)?;
        self.shelf = Shelf::new(alloc);
        Ok(())
    }

    /// Puts a square on the shelf as a version of a cell, which the user submitted, and prints its number.
    fn submit(&mut self, rt: &HostRuntime, cell: &str, user: &str) -> Result<()> {
        let text = text_of_library(rt.alloc(), "TOP: b 1/0 0 0 5 5")?;
        let top = "TOP";
        let entry = Entry { cell, top, user };
        let number = put_entry(rt.alloc(), &mut self.shelf, entry, &text, MAX_SHAPES)??;
        Ok(println!(rt; "    {number}")?)
    }

    /// Asks for the waiver of the marker at an index, and prints that, or why not.
    fn ask(&mut self, rt: &HostRuntime, place: u32, user: &str) -> Result<()> {
        let place = place as usize;
        if let Err(fault) = self.waivers.may_ask(place) {
            return Ok(print_fault(rt, &fault)?);
        }
        let user = Name::read(rt.alloc(), user.as_bytes())?;
        self.waivers.ask(place, user);
        Ok(println!(rt; "    asked")?)
    }

    /// Signs the waiver of the marker at an index, which touches the submissions of these numbers, and prints that, or why not.
    fn sign(&mut self, rt: &HostRuntime, words: &mut Words<'_>) -> Result<()> {
        let place = words.number() as usize;
        let user = Name::read(rt.alloc(), words.next().as_bytes())?;
        let met = words.numbers(rt.alloc())?;
        let told = self.waivers.may_sign(place, &self.shelf, &met, &user)?;
        if let Err(fault) = told {
            return Ok(print_fault(rt, &fault)?);
        }
        self.waivers.sign(place, user);
        Ok(println!(rt; "    signed")?)
    }

    /// Prints the waivers, by index.
    fn list(&self, rt: &HostRuntime) -> io::Result<()> {
        for place in 0..self.waivers.len() {
            if let Some(waiver) = self.waivers.waiver_at(place) {
                print_waiver(rt, place, waiver)?;
            }
        }
        Ok(())
    }
}
