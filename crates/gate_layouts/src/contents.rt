//! What of layouts touches windows, as lists of shapes and arrays.
//!
//! Each line is printed, with the answer below it. A line that begins with `#`, and an empty one, prints nothing. A library is as
//! `gate_samples` reads it, with its top `TOP`. A window is four coordinates in nm.
//! - `see MOST WIDTH AXIS WINDOW | LIBRARY` prints the contents of a window, one entry a line, or `none`. There are at most MOST entries.
//!   What is wider than WIDTH nm along the AXIS `x` or `y` is opened. A shape has its structure, its element and its placing, an array its
//!   structure, its first placing, its columns and rows, and its steps;
//! - `alike MOST WIDTH AXIS WINDOW WINDOW | LIBRARY` prints the displacement by which the contents of the second window are those of the
//!   first, or `other`, and whether both have the same number;
//! - `part MOST INSTANCES SHAPES WINDOW | LIBRARY` prints what of the top touches a window, as `see` does, or `none`. There are at most
//!   MOST entries. Arrays of at most INSTANCES instances are opened if their structure has more than SHAPES flat shapes;
//! - `boxes STRUCTURE | LIBRARY` prints how many boxes are stored for the elements of the structure at that index of the library, and, if
//!   they are at most nine, each of them, or `none` for a reference.
mod part;
mod seen;

use anyhow::{Result, bail};
use gate_plain::submit;
use gate_words::{Answers, Words, answer_lines};
use mpw_hier::Shelf;

/// What answers the lines, each over a shelf of its own.
#[derive(Clone, Copy)]
struct Contents;

impl Answers for Contents {
    fn answer(
        &mut self,
        rt: &HostRuntime,
        verb: &str,
        words: &mut Words<'_>,
        behind: &str,
    ) -> Result<()> {
        let mut shelf = Shelf::new(rt.alloc());
        submit(rt.alloc(), &mut shelf, "chip", "TOP", behind)?;
        match verb {
            "see" => seen::print_seen(rt, &shelf, words),
            "alike" => seen::print_alike(rt, &shelf, words),
            "part" => part::print_part(rt, &shelf, words),
            "boxes" => part::print_boxes_of(rt, &shelf, words.number()),
            _ => bail!("a command"),
        }
    }
}

/// Answers the lines of its table.
pub(crate) fn run(rt: &HostRuntime, lines: &str) -> Result<()> {
    answer_lines(rt, &mut Contents, lines)
}
