//! Parts of checks, read, written again and stitched.
//!
//! Each line is repeated, with the answer below. A line that begins with `#` outside a part, and an empty one, says nothing.
//! - `part` begins the text of a part, whose lines follow up to a line `.`; `part N` is the same without the last N bytes. It is
//!   read. If it is a part, the text that is written of it is compared with what was read; else it says whether it is an older one;
//! - `stitch N` stitches the parts under a deck of N rules, prints the book, a marker a line, or why there is none, and begins anew.
use anyhow::{Result, bail};
use gate_words::{Words, tell_marker};
use mpw_firm_parts::{Part, is_older_part, read_part, stitch_parts, write_part};
use mpw_markers::Marker;
use std::alloc::Global;
use std::{io, mem};

/// The parts so far, and the text of the one that is being read.
#[derive(Drop)]
struct Parts {
    parts: Vec<Part>,
    text: Vec<u8>,
    cut: usize,
    is_within: bool,
}

/// Prints a part's columns, and whether it is written as it was read.
fn print_part(rt: &HostRuntime, part: &Part, is_same: bool) -> io::Result<()> {
    let (first, count) = (part.first() as usize, part.lists().len());
    let all = part.subject().columns();
    println!(rt;
        "    columns {first} to {} of {all}",
        first.saturating_add(count)
    )?;
    if is_same {
        println!(rt; "    written again as it was")
    } else {
        println!(rt; "    written in another way")
    }
}

/// Whether a part is written as it was read.
fn is_written_again(alloc: Global, part: &Part, text: &[u8]) -> Result<bool> {
    let mut written = Vec::new(alloc);
    write_part(alloc, &mut written, part)?;
    Ok(written.as_slice() == text)
}

/// Reads a part, and prints it, or that there is none.
fn read(rt: &HostRuntime, text: &[u8]) -> Result<Option<Part>> {
    let part = read_part(rt.alloc(), text)?;
    match &part {
        Some(part) => print_part(rt, part, is_written_again(rt.alloc(), part, text)?)?,
        None if is_older_part(text) => println!(rt; "    no part, but one of tiles")?,
        None => println!(rt; "    no part")?,
    }
    Ok(part)
}

/// Prints a book, one marker a line.
fn print_book(rt: &HostRuntime, markers: &[Marker]) -> io::Result<()> {
    for marker in markers {
        tell_marker(rt, marker)?;
    }
    println!(rt; "    {} markers", markers.len())
}

/// Stitches parts under a deck of so many rules, and prints the book, or why there is none.
pub fn print_stitched(rt: &HostRuntime, parts: Vec<Part>, rules: u32) -> io::Result<()> {
    match stitch_parts(rt.alloc(), parts, rules) {
        Ok(book) => print_book(rt, book.as_slice()),
        Err(fault) => println!(rt; "    {fault}"),
    }
}

impl Parts {
    fn new(alloc: Global) -> Parts {
        Parts {
            parts: Vec::new(alloc),
            text: Vec::new(alloc),
            cut: 0,
            is_within: false,
        }
    }

    /// Adds a line to the part, or reads the part at its end.
    fn add(&mut self, rt: &HostRuntime, line: &str) -> Result<()> {
        if line != "." {
            self.text.extend_from_slice(line.as_bytes())?;
            self.text.push(b'\n')?;
            return Ok(());
        }
        self.is_within = false;
        let end = self.text.len().saturating_sub(self.cut);
        if let Some(part) = read(rt, &self.text.as_slice()[..end])? {
            self.parts.push(part)?;
        }
        Ok(())
    }

    /// Answers a command.
    fn answer(&mut self, rt: &HostRuntime, words: &mut Words<'_>) -> Result<()> {
        match words.next() {
            "part" => {
                self.text = Vec::new(rt.alloc());
                self.cut = if words.is_empty() {
                    0
                } else {
                    words.number() as usize
                };
                self.is_within = true;
            }
            "stitch" => {
                let parts = mem::replace(&mut self.parts, Vec::new(rt.alloc()));
                print_stitched(rt, parts, words.number())?;
            }
            _ => bail!("a command"),
        }
        words.end()
    }
}

/// Answers the lines of its table.
pub(crate) fn run(rt: &HostRuntime, lines: &str) -> Result<()> {
    let mut parts = Parts::new(rt.alloc());
    for line in lines.lines() {
        println!(rt; "{line}")?;
        if parts.is_within {
            parts.add(rt, line)?;
        } else if !line.is_empty() && !line.starts_with('#') {
            parts.answer(rt, &mut Words::of(line))?;
        }
    }
    Ok(())
}
