//! Libraries by a short notation: items with semicolons between them, each of words with spaces between them.
//!
//! - `NAME:` begins a structure, and ends the one before; an item may follow at once;
//! - `b L/D x0 y0 x1 y1` is a rectangle on a layer with a datatype;
//! - `p L/D x y ..` is a boundary with the points of its XY;
//! - `w L/D type width begin end x y ..` is a path; a field that is `.` has no record;
//! - `s NAME x y` places a structure, and `s NAME x y R90` with STRANS and ANGLE (`M` mirrors first);
//! - `a NAME columns rows x y x y x y` places an array, with the three points of its XY, `R90` as before;
//! - four hex digits are a record's type and data type, followed by its data: numbers of two bytes (02) or of four (03), a text (06), else
//!   bytes in hex; a word `=..` gives the bytes of any type in hex;
//! - `unit ..`, first, is the unit in metres, eight bytes in hex; `bare`, first, leaves out the head;
//! - `chain N` is structures `S0` to `S(N-1)`: a square, and then each places the one before;
//! - `fan N` is structures `F0` to `F(N-1)` with a square each, and `places NAME N` places `NAME0` to `NAME(N-1)`;
//! - `grid N` is N squares, and `stairs N` a path of width 2 through N points, with steps of 1; `open` leaves a structure without its end.

use crate::coded::add_record;
use crate::references::{add_array, add_chain, add_fan, add_places, add_single};
use crate::sample::{NANOMETRE, Sample};
use crate::shapes::{add_grid, add_path, add_polygon, add_rectangle, add_stairs};
use crate::words::{NotationError, hex_bytes};
use std::alloc::Global;

/// Adds one item after the others.
fn add_words(text: &mut Sample, alloc: Global, words: &[&str]) -> Result<(), NotationError> {
    let [key, rest @ ..] = words else {
        return Ok(());
    };
    match *key {
        "b" => add_rectangle(text, rest),
        "p" => add_polygon(text, alloc, rest),
        "w" => add_path(text, alloc, rest),
        "s" => add_single(text, rest),
        "a" => add_array(text, alloc, rest),
        "grid" => add_grid(text, rest),
        "chain" => add_chain(text, alloc, rest),
        "fan" => add_fan(text, alloc, rest),
        "stairs" => add_stairs(text, alloc, rest),
        "places" => add_places(text, alloc, rest),
        _ => add_record(text, alloc, key, rest),
    }
}

/// A text that is being made, and whether a structure was begun.
#[derive(Drop)]
struct Draft {
    text: Sample,
    is_open: bool,
}

impl Draft {
    fn new(alloc: Global) -> Result<Draft, NotationError> {
        Ok(Draft {
            text: Sample::new(alloc, NANOMETRE)?,
            is_open: false,
        })
    }

    fn close(&mut self) -> Result<(), NotationError> {
        if self.is_open {
            self.text.end()?;
        }
        self.is_open = false;
        Ok(())
    }

    fn begin(&mut self, name: &str) -> Result<(), NotationError> {
        self.close()?;
        self.text.begin(name)?;
        self.is_open = true;
        Ok(())
    }

    /// Begins again with another unit.
    fn set_unit(&mut self, alloc: Global, words: &[&str]) -> Result<(), NotationError> {
        let [word] = words else {
            return Err(NotationError::Notation);
        };
        let bytes = hex_bytes(alloc, word)?;
        let [a, b, c, d, e, f, g, h] = bytes.as_slice() else {
            return Err(NotationError::Notation);
        };
        self.text = Sample::new(alloc, [*a, *b, *c, *d, *e, *f, *g, *h])?;
        Ok(())
    }

    fn add(&mut self, alloc: Global, words: &[&str]) -> Result<(), NotationError> {
        match words {
            ["unit", rest @ ..] => self.set_unit(alloc, rest),
            ["bare"] => {
                self.text = Sample::empty(alloc);
                Ok(())
            }
            ["open"] => {
                self.is_open = false;
                Ok(())
            }
            [first, rest @ ..] => match first.strip_suffix(':') {
                None => add_words(&mut self.text, alloc, words),
                Some(name) => {
                    self.begin(name)?;
                    add_words(&mut self.text, alloc, rest)
                }
            },
            [] => Ok(()),
        }
    }

    fn finish(mut self) -> Result<Vec<u8>, NotationError> {
        self.close()?;
        let Draft { text, .. } = self;
        Ok(text.finish()?)
    }
}

/// The text of a library in the notation.
///
/// # Errors
/// `Notation` if an item or a word isn't one of the notation, or a record gets more than 65531 bytes of data; `Memory` if out of memory.
pub fn text_of_library(alloc: Global, notation: &str) -> Result<Vec<u8>, NotationError> {
    let mut draft = Draft::new(alloc)?;
    for item in notation.split(';') {
        let words: Vec<&str> = item.split_whitespace().collect(alloc)?;
        draft.add(alloc, &words)?;
    }
    draft.finish()
}
