//! The lists and the shapes of the lines so far, and the last book.

use crate::markers::asked::{met, tile};
use crate::markers::shapes::Shapes;
use crate::markers::{compare, scattered};
use anyhow::{Result, bail};
use gate_words::{Answers, Words, key, tell_marker};
use mpw_markers::{Book, Marker, TileMarkers, stitch};
use std::alloc::Global;
use std::mem;

/// The lists of the tiles before, the markers of the present one, the shapes, and the book that was stitched last.
#[derive(Drop)]
pub struct Tiles {
    lists: Vec<TileMarkers>,
    markers: Vec<Marker>,
    book: Book,
    shapes: Shapes,
}

impl Answers for Tiles {
    fn answer(
        &mut self,
        rt: &HostRuntime,
        verb: &str,
        words: &mut Words<'_>,
        _behind: &str,
    ) -> Result<()> {
        match verb {
            "tile" => self.close(rt.alloc()),
            "clear" => {
                self.clear(rt.alloc());
                Ok(())
            }
            "marker" => self.add(rt.alloc(), words),
            "book" => self.print_book(rt),
            "find" => self.find(rt, words),
            "scattered" => scattered::compared(rt, words.number()),
            "random" => compare::compared(rt, words.number()),
            _ => self.shapes.answer(rt, verb, words),
        }
    }
}

impl Tiles {
    /// No lists, no markers, no shapes, and an empty book.
    pub fn new(alloc: Global) -> Tiles {
        Tiles {
            lists: Vec::new(alloc),
            markers: Vec::new(alloc),
            book: Book::new(),
            shapes: Shapes::new(alloc),
        }
    }

    /// Removes the lists, the markers and the book.
    fn clear(&mut self, alloc: Global) {
        self.lists = Vec::new(alloc);
        self.markers = Vec::new(alloc);
        self.book = Book::new();
    }

    /// Ends the list of the present tile.
    fn close(&mut self, alloc: Global) -> Result<()> {
        let markers = mem::replace(&mut self.markers, Vec::new(alloc));
        self.lists.push(tile(alloc, markers)?)?;
        Ok(())
    }

    /// Adds a marker: seven words of its key, and the submissions.
    fn add(&mut self, alloc: Global, words: &mut Words<'_>) -> Result<()> {
        let key = key(words);
        let numbers = words.numbers(alloc)?;
        let met = met(alloc, &numbers)?;
        self.markers.push(Marker { key, met })?;
        Ok(())
    }

    /// Stitches the lists, and prints the book.
    fn print_book(&mut self, rt: &HostRuntime) -> Result<()> {
        self.close(rt.alloc())?;
        self.book = stitch(rt.alloc(), self.lists.as_slice())?;
        for marker in self.book.as_slice() {
            tell_marker(rt, marker)?;
        }
        Ok(())
    }

    /// Prints the book's marker of the key.
    fn find(&self, rt: &HostRuntime, words: &mut Words<'_>) -> Result<()> {
        match self.book.find(&key(words)) {
            Some(marker) => Ok(tell_marker(rt, marker)?),
            None => Ok(println!(rt; "    none")?),
        }
    }
}
