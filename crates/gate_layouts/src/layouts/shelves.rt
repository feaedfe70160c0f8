//! A shelf of submissions.

ghost use Rattle.std.specs.Prelude.{◌≤◌, ◌^◌};

use crate::layouts::layers::print_layers;
use crate::layouts::seen::print_seen;
use crate::layouts::walks;
use anyhow::{Context, Result, bail};
use gate_plain::{Entry, put_entry};
use gate_samples::text_of_library;
use gate_words::{Answers, Words};
use mpw_geom::Name;
use mpw_hier::{MAX_SHAPES, Outline, Shelf};
use mpw_library::read_library;
use std::alloc::Global;
use std::io;

/// The most shapes of a submission if a line names no limit: those of a desk.
const DESK: u64 = 1 << 20;

/// The shelf after the lines.
#[derive(Drop)]
pub struct Layouts {
    /// The shelf.
    pub shelf: Shelf,
}

/// Takes a cell and a structure.
fn entry<'a>(words: &mut Words<'a>) -> Entry<'a> {
    let cell = words.next();
    Entry {
        cell,
        top: words.next(),
        user: cell,
    }
}

fn told(same: bool) -> &'static str {
    if same { "the same" } else { "different" }
}

/// Prints how many names there are, and each if they are few.
fn print_names(rt: &HostRuntime, names: &[Name]) -> io::Result<()> {
    print!(rt; "    {}:", names.len())?;
    match names {
        [first, .., last] if names.len() > 10 => print!(rt; " {first} to {last}")?,
        names => {
            for name in names {
                print!(rt; " {name}")?;
            }
        }
    }
    println!(rt)
}

/// Prints the names outside the library that the top refers to.
fn print_outside(rt: &HostRuntime, top: &str, notation: &str) -> Result<()> {
    let top = Name::read(rt.alloc(), top.as_bytes())?;
    let library = read_library(rt.alloc(), &text_of_library(rt.alloc(), notation)?)?;
    match Outline::new(rt.alloc(), &library, &top) {
        Ok(outline) => Ok(print_names(rt, outline.names.as_slice())?),
        Err(fault) => Ok(println!(rt; "    {fault}")?),
    }
}

impl Answers for Layouts {
    fn answer(
        &mut self,
        rt: &HostRuntime,
        verb: &str,
        words: &mut Words<'_>,
        behind: &str,
    ) -> Result<()> {
        match verb {
            "walk" => walks::walk(rt, &self.shelf, words.rest(), false),
            "count" => walks::walk(rt, &self.shelf, words.rest(), true),
            "within" => walks::within(rt, &self.shelf, words.rest()),
            "walks" => walks::compared(rt, words.number()),
            "layers" => print_layers(rt, &self.shelf, words.number()),
            "seen" => print_seen(rt, &self.shelf, words),
            "outside" => print_outside(rt, words.next(), behind),
            "cells" => Ok(print_names(rt, self.shelf.cells(rt.alloc())?.as_slice())?),
            "same" => self.print_same(rt, words.number(), words.number()),
            _ => self.answer_more(rt, verb, words, behind),
        }
    }
}

impl Layouts {
    /// Prints the shapes and levels of a submission.
    fn print_shown(&self, rt: &HostRuntime, number: u32) -> io::Result<()> {
        let shelf = &self.shelf;
        let version = match shelf.get(number) {
            Some(submission) => submission.version,
            None => 0,
        };
        print!(rt;
            "    {number} is version {version}: {} shapes, {} levels",
            shelf.count(number),
            shelf.height(number)
        )?;
        match shelf.extent(number) {
            Some(b) => println!(rt; ", {} {} {} {}", b.x0, b.y0, b.x1, b.y1),
            None => println!(rt; ", no extent"),
        }
    }

    /// Submits a library that may have at most that many shapes, and prints its shapes and levels, or why there is none.
    fn submit(
        &mut self,
        rt: &HostRuntime,
        entry: Entry<'_>,
        bytes: &[u8],
        most: u64,
    ) -> Result<()> {
        if most > MAX_SHAPES {
            bail!("a limit");
        }
        match put_entry(rt.alloc(), &mut self.shelf, entry, bytes, most)? {
            Ok(number) => Ok(self.print_shown(rt, number)?),
            Err(fault) => Ok(println!(rt; "    {fault}")?),
        }
    }

    /// Submits a library's `TOP` to a cell.
    fn put(&mut self, alloc: Global, cell: &str, bytes: &[u8]) -> Result<u32> {
        let (top, user) = ("TOP", cell);
        let entry = Entry { cell, top, user };
        Ok(put_entry(alloc, &mut self.shelf, entry, bytes, DESK)??)
    }

    /// Submits a library's `TOP` to the cell of these letters and that number.
    fn put_numbered(
        &mut self,
        alloc: Global,
        letters: &str,
        number: u32,
        bytes: &[u8],
    ) -> Result<u32> {
        let cell = format!(in alloc; "{letters}{number}")?;
        self.put(alloc, cell.as_str(), bytes)
    }

    /// Submits a library's `TOP` that many times, to one cell or to a cell each, and prints the shapes and levels of the last one.
    fn submit_times(
        &mut self,
        rt: &HostRuntime,
        cell: &str,
        count: u32,
        are_many: bool,
        bytes: &[u8],
    ) -> Result<()> {
        let mut last = 0;
        for k in 0..count {
            last = if are_many {
                self.put_numbered(rt.alloc(), cell, k, bytes)?
            } else {
                self.put(rt.alloc(), cell, bytes)?
            };
        }
        Ok(self.print_shown(rt, last)?)
    }

    /// Prints whether two submissions, and their libraries, are the same by value.
    fn print_same(&self, rt: &HostRuntime, first: u32, second: u32) -> Result<()> {
        let a = self.shelf.get(first).context("a submission")?;
        let b = self.shelf.get(second).context("another submission")?;
        let libraries = told(a.library.is_same(&b.library));
        Ok(println!(rt;
            "    libraries {libraries}, submissions {}",
            told(a.is_same(b))
        )?)
    }

    /// Submits to a copy of the shelf, and prints whether it is the same as the shelf before and after that.
    fn print_apart(&self, rt: &HostRuntime, entry: Entry<'_>, bytes: &[u8]) -> Result<()> {
        let mut copy = self.shelf.copy(rt.alloc())?;
        let before = told(copy.is_same(&self.shelf));
        put_entry(rt.alloc(), &mut copy, entry, bytes, DESK)??;
        let behind = told(copy.is_same(&self.shelf));
        let (ours, theirs) = (self.shelf.submissions().len(), copy.submissions().len());
        Ok(println!(rt; "    {before}, then {behind}: {ours} submissions and {theirs}")?)
    }

    /// Answers a command that may change the shelf.
    fn answer_more(
        &mut self,
        rt: &HostRuntime,
        verb: &str,
        words: &mut Words<'_>,
        behind: &str,
    ) -> Result<()> {
        let bytes = text_of_library(rt.alloc(), behind)?;
        match verb {
            "submit" => return self.submit(rt, entry(words), &bytes, DESK),
            "take" => {
                let most = u64::try_from(words.coordinate()).unwrap_or(u64::MAX);
                return self.submit(rt, entry(words), &bytes, most);
            }
            "fill" => return self.submit_times(rt, words.next(), words.number(), true, &bytes),
            "again" => return self.submit_times(rt, words.next(), words.number(), false, &bytes),
            "apart" => return self.print_apart(rt, entry(words), &bytes),
            "new" => self.shelf = Shelf::new(rt.alloc()),
            "copy" => self.shelf = self.shelf.copy(rt.alloc())?,
            _ => bail!("a command"),
        }
        Ok(())
    }
}
