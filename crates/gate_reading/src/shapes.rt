//! The rectangles of elements: the lines of the standard input are commands. Some have a library in the notation of `gate_samples` after a
//! bar. Each line is printed, with the answer below it. A line that begins with `#`, and an empty one, prints nothing.
//!
//! - `boxes | ..` prints the rectangles of each element, `total | ..` how many they are, and the sum of their areas;
//! - `squares x y .. | ..` counts their unit squares from 0 to 39, and prints whether each of the given squares is one;
//! - `figure NAME` prints how many points a boundary of a known form has, how many boxes it gives, and their area; `figure NAME N` prints
//!   only that the boxes are at most that many, if they are;
//! - `scribbles N` compares the boxes of random boundaries with the winding numbers of each square.
mod figures;
mod scribbles;
mod shapes;

use anyhow::Result;
use gate_words::answer_lines;
use shapes::Shapes;

/// Answers the lines of its table.
pub(crate) fn run(rt: &HostRuntime, lines: &str) -> Result<()> {
    answer_lines(rt, &mut Shapes, lines)
}
