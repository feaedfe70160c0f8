//! The readers of libraries: the libraries of the standard input, one a line.
//!
//! A line is a command and a library in the notation of `gate_samples`. Each line is printed, with its result below it:
//! - `read` prints the library, or the fault with its offset; `read N` does so with N zero bytes after the text;
//! - `records` prints each record's offset, type and data type in hex, and size;
//! - `prefixes` reads every shorter text, and prints from which length on each fault occurs;
//! - `lengths N ..` puts each length at each record, and prints the faults;
//! - `size`, and `size N`, print the number of bytes, of structures, and of all their elements;
//! - a line that begins with `#`, and an empty one, prints nothing.
//!
//! A text is read by `LibraryText`, and what is printed is a copy of its library's elements.
mod print;
mod texts;

use anyhow::Result;
use gate_words::answer_lines;
use texts::Texts;

/// Answers the lines of its table.
pub(crate) fn run(rt: &HostRuntime, lines: &str) -> Result<()> {
    answer_lines(rt, &mut Texts, lines)
}
