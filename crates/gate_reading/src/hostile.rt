//! Texts and layouts that were made to do harm: the lines of the standard input are commands. Some have a library in the notation of `gate_samples`
//! after a bar. Each line is printed, with the answer below it. A line that begins with `#`, and an empty one, prints nothing.
//!
//! The program compares each answer with the one that the rules require. If one differs, it prints the text, else how many there were:
//! - `fronts | ..` reads every shorter text that the library begins with: each is `short` at the start of the record in which it ends;
//! - `lengths | ..` reads the library with each of the 65536 lengths at each record in turn: `badlength` there if it is odd or below 4,
//!   `short` there if it passes the end, else neither there;
//! - `bytes | ..` reads the library with each other value at each byte in turn: no fault is reported before the record of the byte;
//! - `submit CELL TOP | ..` puts a library on the shelf, and prints its shapes and levels, or why it is refused;
//! - `count N` walks over a submission, and prints its shapes, its turns and how many turns it may take.
mod layouts;
mod texts;

use anyhow::Result;
use gate_words::answer_lines;
use layouts::Hostile;
use mpw_hier::Shelf;

/// Answers the lines of its table.
pub(crate) fn run(rt: &HostRuntime, lines: &str) -> Result<()> {
    let shelf = Shelf::new(rt.alloc());
    answer_lines(rt, &mut Hostile { shelf }, lines)
}
