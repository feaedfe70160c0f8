//! The table of placements over a shelf, and texts of decks.
//!
//! Each line is printed, with the answer below it. A line that begins with `#`, and an empty one, prints nothing.
//! - `new` begins with an empty shelf and no placements, `submit CELL TOP | ..` puts a library in the notation of `gate_samples` on the shelf;
//! - `place CELL LABEL R90 x y` places a cell and prints its version, and `unplace CELL LABEL` removes a placement; each prints a reason if it fails;
//! - `fill CELL N` places a cell N times as it is drawn, under the labels 0 to N - 1, and prints how many placements there are;
//! - `list` prints the placements, and `tiles SIDE` how many tiles of a side there are over them;
//! - `deck | ..` prints the deck of a text whose lines have `; ` between them, of a copy of the text, and of its bytes alone.
mod decks;
mod top;

use anyhow::Result;
use gate_words::answer_lines;
use top::Top;

/// Answers the lines of its table.
pub(crate) fn run(rt: &HostRuntime, lines: &str) -> Result<()> {
    answer_lines(rt, &mut Top::new(rt.alloc()), lines)
}
