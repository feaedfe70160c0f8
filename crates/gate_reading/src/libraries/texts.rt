//! The commands.

use crate::libraries::print;
use anyhow::{Result, bail};
use gate_samples::text_of_library;
use gate_words::{Answers, Words};
use mpw_elements::ReadError;
use mpw_library::LibraryText;
use mpw_records::{ReadFault, Record, Records};
use mpw_structures::Library;
use std::alloc::{AllocError, Global};
use std::io;

type Outcome<'a> = std::result::Result<Record<'a>, ReadFault>;

/// The fault of a text as it is printed, or `read`, if its bytes are read again.
fn outcome(alloc: Global, bytes: &[u8]) -> Result<String, AllocError> {
    let text = LibraryText::read(alloc, Vec::from_slice(alloc, bytes)?)?.alone()?;
    match text.library(alloc) {
        Ok(_) => String::from_str(alloc, "read"),
        Err(ReadError::Fault(ReadFault { code, offset })) => {
            format!(in alloc; "{code} at {offset}")
        }
        Err(ReadError::Memory) => Err(AllocError),
    }
}

/// The copy of a text with that many zero bytes after it.
fn padded(bytes: Vec<u8>, words: &mut Words<'_>) -> Result<LibraryText> {
    let mut bytes = bytes;
    if !words.is_empty() {
        let count = words.number() as usize;
        bytes.resize(bytes.len().saturating_add(count), 0)?;
    }
    let (alloc, size) = (*bytes.allocator(), bytes.len());
    let text = LibraryText::read(alloc, bytes)?.copy()?;
    if text.as_bytes().len() != size {
        bail!("a copy of the same size");
    }
    Ok(text)
}

/// All elements of the structures.
fn elements_of(library: &Library) -> usize {
    let mut count = 0usize;
    for structure in library.structures() {
        count = count.saturating_add(structure.elements.as_slice().len());
    }
    count
}

/// Prints a library, or its size and that of its text.
fn print_read(
    rt: &HostRuntime,
    text: &LibraryText,
    library: &Library,
    is_whole: bool,
) -> Result<()> {
    if is_whole {
        return print::library(rt, library);
    }
    let (size, structures) = (text.as_bytes().len(), library.structures().len());
    let elements = elements_of(library);
    Ok(println!(rt; "    {size} bytes, {structures} structures, {elements} elements")?)
}

/// Reads a text by copies, and prints its library, its size, or its fault.
fn read(rt: &HostRuntime, text: &LibraryText, is_whole: bool) -> Result<()> {
    match text.library(rt.alloc()) {
        Ok(library) => print_read(rt, text, &library, is_whole),
        Err(ReadError::Fault(ReadFault { code, offset })) => {
            Ok(println!(rt; "    {code} at {offset}")?)
        }
        Err(ReadError::Memory) => bail!("out of memory"),
    }
}

fn record(rt: &HostRuntime, outcome: Outcome<'_>) -> io::Result<()> {
    match outcome {
        Ok(record) => println!(rt;
            "    {} {:02X}{:02X} {}",
            record.offset,
            record.kind,
            record.data_type,
            record.bytes.len()
        ),
        Err(ReadFault { code, offset }) => println!(rt; "    {code} at {offset}"),
    }
}

fn records(rt: &HostRuntime, bytes: &[u8]) -> io::Result<()> {
    let mut records = Records::new(bytes);
    for _ in 0..u64::MAX {
        match records.next() {
            Some(outcome) => record(rt, outcome)?,
            None => break,
        }
    }
    Ok(())
}

/// Reads each text that is cut off, and prints the number of bytes from which on another fault occurs.
fn prefixes(rt: &HostRuntime, bytes: &[u8]) -> io::Result<()> {
    let mut last = String::new(rt.alloc());
    for (size, _) in bytes.iter().enumerate() {
        let outcome = outcome(rt.alloc(), bytes.get(..size).unwrap_or(bytes))?;
        if outcome.as_str() != last.as_str() {
            println!(rt; "    {size} bytes and more: {outcome}")?;
        }
        last = outcome;
    }
    Ok(())
}

/// The text with another length at a record.
fn relengthened(
    alloc: Global,
    bytes: &[u8],
    offset: usize,
    length: u16,
) -> Result<Vec<u8>, AllocError> {
    let mut other = Vec::from_slice(alloc, bytes)?;
    let length = length.to_be_bytes();
    for (byte, new) in other.iter_mut().skip(offset).zip(&length) {
        *byte = *new;
    }
    Ok(other)
}

/// Prints the faults of the text with each length at the record of an offset, in a line.
fn lengths_at(rt: &HostRuntime, bytes: &[u8], offset: usize, lengths: &str) -> Result<()> {
    print!(rt; "    {offset}:")?;
    for word in lengths.split_whitespace() {
        let other = relengthened(rt.alloc(), bytes, offset, word.parse::<u16>()?)?;
        print!(rt; " {word} is {},", outcome(rt.alloc(), &other)?)?;
    }
    Ok(println!(rt)?)
}

fn lengths(rt: &HostRuntime, bytes: &[u8], lengths: &str) -> Result<()> {
    let mut records = Records::new(bytes);
    for _ in 0..u64::MAX {
        let Some(Ok(Record { offset, .. })) = records.next() else {
            break;
        };
        lengths_at(rt, bytes, offset, lengths)?;
    }
    Ok(())
}

/// What answers the lines.
#[derive(Clone, Copy)]
pub struct Texts;

impl Answers for Texts {
    fn answer(
        &mut self,
        rt: &HostRuntime,
        verb: &str,
        words: &mut Words<'_>,
        behind: &str,
    ) -> Result<()> {
        let bytes = text_of_library(rt.alloc(), behind)?;
        match verb {
            "read" => read(rt, &padded(bytes, words)?, true),
            "size" => read(rt, &padded(bytes, words)?, false),
            "records" => Ok(records(rt, &bytes)?),
            "prefixes" => Ok(prefixes(rt, &bytes)?),
            "lengths" => lengths(rt, &bytes, words.rest()),
            _ => bail!("a command"),
        }
    }
}
