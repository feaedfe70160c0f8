//! Books of markers: lists of tiles stitched, and random lists compared with a plain implementation that goes row by row.
//!
//! Each line is printed, with the answer below it. A line that begins with `#`, and an empty one, prints nothing.
//! - `tile` begins the list of another tile, and `clear` begins again;
//! - `marker RULE AXIS SIDE X1 X2 Y0 Y1 SUBMISSION ..` adds a marker to the tile's list;
//! - `book` stitches the lists and prints the book, one marker a line;
//! - `find RULE AXIS SIDE X1 X2 Y0 Y1` looks the key up in the last book;
//! - `rectangle SUBMISSION X0 Y0 X1 Y1` and `box X0 Y0 X1 Y1` add to the shapes and to the boxes, `origins` prints which submissions each
//!   box touches, and `scattered N` compares those of N random sets with a search square by square;
//! - `random N` compares the books of N random sets of lists, and what is found in them, with the plain implementation.
mod asked;
mod compare;
mod plain;
mod scattered;
mod shapes;
mod tiles;

use anyhow::Result;
use gate_words::answer_lines;
use tiles::Tiles;

/// Answers the lines of its table.
pub(crate) fn run(rt: &HostRuntime, lines: &str) -> Result<()> {
    answer_lines(rt, &mut Tiles::new(rt.alloc()), lines)
}
