//! The shapes of submissions: the lines of the standard input are commands. Some have a library in the notation of `gate_samples` after a
//! bar. Each line is printed, with the answer below it. A line that begins with `#`, and an empty one, prints nothing.
//!
//! - `outside TOP | ..` prints the names outside the library that a top refers to;
//! - `new` begins with an empty shelf, `copy` goes on with a copy, `cells` prints the cells;
//! - `submit CELL TOP | ..` puts a library on the shelf, which may have 2^20 shapes as on a desk, and prints its shapes and levels;
//! - `take MOST CELL TOP | ..` does the same for one that may have MOST shapes;
//! - `fill C N | ..` submits the library's `TOP` to the cells C0 to C(N-1), and `again CELL N | ..` N times to one;
//! - `same N N` compares two submissions and their libraries by value, `apart CELL TOP | ..` a copy of the shelf before and after a
//!   submission to the copy alone;
//! - `walk N R90 x y, ..` prints each shape of placed submissions, `count N R90 x y, ..` their number;
//! - `within x0 y0 x1 y1, N R90 x y, ..` prints each shape of placed submissions that touches a window;
//! - `seen N 101` prints how many shapes of a submission come from the submissions with a `1`, by number, and of how many; with `walked`
//!   after it, also how many a walk gives;
//! - `layers N` prints the layers of a submission's shapes, at most 64, in the order in which they come, with how many are on each;
//! - `walks N` compares walks over random shelves, and the layers of nodes, with a plain flattening, and counts of seen shapes with walks.
mod flat;
mod layers;
mod random;
mod seen;
mod shelves;
mod walks;

use anyhow::Result;
use gate_words::answer_lines;
use mpw_hier::Shelf;
use shelves::Layouts;

/// Answers the lines of its table.
pub(crate) fn run(rt: &HostRuntime, lines: &str) -> Result<()> {
    let shelf = Shelf::new(rt.alloc());
    answer_lines(rt, &mut Layouts { shelf }, lines)
}
