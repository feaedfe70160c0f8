//! Waivers of a book's markers, over a shelf.
//!
//! Each line is printed, with the answer below it. A line that begins with `#`, and an empty one, prints nothing.
//! - `new N` begins with an empty shelf and N markers without a waiver;
//! - `submit CELL USER` puts a version of a cell on the shelf, which that user submitted, and prints its number;
//! - `ask PLACE USER` asks for a waiver of the marker at an index, and `sign PLACE USER N ..` signs it; the marker touches the submissions
//!   of these numbers. Each prints the word for it, or why it failed;
//! - `list` prints the waivers, and `open` how many markers have no signed one.
mod signing;

use anyhow::Result;
use gate_words::answer_lines;
use signing::Desk;

/// Answers the lines of its table.
pub(crate) fn run(rt: &HostRuntime, lines: &str) -> Result<()> {
    answer_lines(rt, &mut Desk::new(rt.alloc())?, lines)
}
