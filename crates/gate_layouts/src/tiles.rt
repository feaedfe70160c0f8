//! Plans of tiles, the windows that cuts make, and random ones compared with plain second implementations.
//!
//! Each line is printed, with the answer below it. A line that begins with `#`, and an empty one, prints nothing.
//! - `plan X0 Y0 X1 Y1 SIDE DISTANCE` prints the number of tiles, and the core and the window of the last one, or that there are too many;
//! - `random N` sorts some rectangles into the windows of a plan, N times, and compares each window with the list of the rectangles that
//!   share a square with it;
//! - `new` begins with an empty shelf, `submit CELL TOP | ..` puts a library in the notation of `gate_samples` on it;
//! - `cut SIDE DISTANCE | N R90 x y, ..` prints what each window lists for placed submissions, by number: of each rectangle its layer, the
//!   submission that it comes from, and its corners; of many windows only how many there are;
//! - `cuts N` cuts N random layouts by five sides, and compares each window square by square with a plain flattening.
mod cuts;
mod plans;
mod squares;
mod windows;

use anyhow::{Result, bail};
use gate_plain::submit;
use gate_words::{Answers, Words, answer_lines};
use mpw_hier::Shelf;

/// The shelf after the lines.
#[derive(Drop)]
struct Tiles {
    shelf: Shelf,
}

impl Answers for Tiles {
    fn answer(
        &mut self,
        rt: &HostRuntime,
        verb: &str,
        words: &mut Words<'_>,
        behind: &str,
    ) -> Result<()> {
        match verb {
            "plan" => plans::plan(rt, words.area(), words.next(), words.next()),
            "random" => windows::compared(rt, words.number()),
            "cuts" => squares::compared(rt, words.number()),
            "cut" => cuts::print_cut(rt, &self.shelf, words.next(), words.next(), behind),
            "submit" => {
                let (cell, top) = (words.next(), words.next());
                submit(rt.alloc(), &mut self.shelf, cell, top, behind)
            }
            "new" => {
                self.shelf = Shelf::new(rt.alloc());
                Ok(())
            }
            _ => bail!("a command"),
        }
    }
}

/// Answers the lines of its table.
pub(crate) fn run(rt: &HostRuntime, lines: &str) -> Result<()> {
    let shelf = Shelf::new(rt.alloc());
    answer_lines(rt, &mut Tiles { shelf }, lines)
}
