//! Texts that differ from a good one. Each is read from its beginning.

use anyhow::{Result, bail};
use mpw_elements::ReadError;
use mpw_library::read_library;
use mpw_records::{Code, ReadFault};
use std::alloc::{AllocError, Global};
use std::io;

/// The fault of a text, if it has one.
fn fault_of(alloc: Global, bytes: &[u8]) -> Result<Option<ReadFault>, AllocError> {
    match read_library(alloc, bytes) {
        Ok(_) => Ok(None),
        Err(ReadError::Fault(fault)) => Ok(Some(fault)),
        Err(ReadError::Memory) => Err(AllocError),
    }
}

/// A record's place in a text: its first byte, and the first one after it.
#[derive(Clone, Copy)]
struct Place {
    start: usize,
    end: usize,
}

/// The length at an offset, or 0.
fn length_at(bytes: &[u8], offset: usize) -> u16 {
    match (bytes.get(offset), bytes.get(offset.saturating_add(1))) {
        (Some(high), Some(low)) => u16::from_be_bytes([*high, *low]),
        _ => 0,
    }
}

/// The places of a text's records, by their lengths alone.
fn places(alloc: Global, bytes: &[u8]) -> Result<Vec<Place>, AllocError> {
    let mut places = Vec::new(alloc);
    let mut start = 0usize;
    for _ in bytes {
        if start >= bytes.len() {
            break;
        }
        let end = start.saturating_add(usize::from(length_at(bytes, start)));
        places.push(Place { start, end })?;
        start = end;
    }
    Ok(places)
}

/// Whether this fault was reported.
fn is_told(told: Option<ReadFault>, code: Code, offset: usize) -> bool {
    told == Some(ReadFault { code, offset })
}

/// Prints the report of a text that should have another one.
fn differs(rt: &HostRuntime, text: usize, told: Option<ReadFault>) -> io::Result<()> {
    match told {
        None => println!(rt; "    {text} is read"),
        Some(ReadFault { code, offset }) => println!(rt; "    {text} is {code} at {offset}"),
    }
}

/// Reads each front of the text that ends in a record.
fn fronts_in(rt: &HostRuntime, bytes: &[u8], place: Place) -> io::Result<()> {
    let mut count = 0u64;
    for size in place.start..place.end {
        let told = fault_of(rt.alloc(), bytes.get(..size).unwrap_or(bytes))?;
        if is_told(told, Code::Short, place.start) {
            count = count.wrapping_add(1);
        } else {
            differs(rt, size, told)?;
        }
    }
    println!(rt; "    {}: {count} short", place.start)
}

fn fronts(rt: &HostRuntime, bytes: &[u8]) -> io::Result<()> {
    for place in &places(rt.alloc(), bytes)? {
        fronts_in(rt, bytes, *place)?;
    }
    Ok(())
}

/// How many texts with another length got which report.
#[derive(Clone, Copy)]
struct Tally {
    bad: u64,
    short: u64,
    others: u64,
}

/// The code of a length if that many bytes are left, if it has one.
fn code_of(length: u16, left: usize) -> Option<Code> {
    if length < 4 || length % 2 == 1 {
        Some(Code::BadLength)
    } else if usize::from(length) > left {
        Some(Code::Short)
    } else {
        None
    }
}

impl Tally {
    /// Counts a report at a record, if it is that code, or neither of the two. It returns whether it is.
    fn counts(&mut self, told: Option<ReadFault>, code: Option<Code>, start: usize) -> bool {
        let is_bad = is_told(told, Code::BadLength, start);
        let is_short = is_told(told, Code::Short, start);
        let is_right = match code {
            Some(code) => is_told(told, code, start),
            None => !is_bad && !is_short,
        };
        self.bad = self.bad.wrapping_add(u64::from(is_right && is_bad));
        self.short = self.short.wrapping_add(u64::from(is_right && is_short));
        self.others = self
            .others
            .wrapping_add(u64::from(is_right && !is_bad && !is_short));
        is_right
    }
}

fn put(bytes: &mut [u8], offset: usize, value: u8) {
    if let Some(byte) = bytes.get_mut(offset) {
        *byte = value;
    }
}

/// Writes a length at an offset.
fn put_length(bytes: &mut [u8], offset: usize, length: u16) {
    let [high, low] = length.to_be_bytes();
    put(bytes, offset, high);
    put(bytes, offset.saturating_add(1), low);
}

/// Reads the text with each length at the record that starts there.
fn lengths_in(rt: &HostRuntime, bytes: &mut [u8], start: usize) -> io::Result<()> {
    let left = bytes.len().saturating_sub(start);
    let own = length_at(bytes, start);
    let mut tally = Tally {
        bad: 0,
        short: 0,
        others: 0,
    };
    for length in 0..=u16::MAX {
        put_length(bytes, start, length);
        let told = fault_of(rt.alloc(), bytes)?;
        if !tally.counts(told, code_of(length, left), start) {
            differs(rt, usize::from(length), told)?;
        }
    }
    put_length(bytes, start, own);
    let Tally { bad, short, others } = tally;
    println!(rt; "    {start}: {bad} badlength, {short} short, {others} others")
}

fn lengths(rt: &HostRuntime, mut bytes: Vec<u8>) -> io::Result<()> {
    for place in &places(rt.alloc(), &bytes)? {
        lengths_in(rt, &mut bytes, place.start)?;
    }
    Ok(())
}

/// Reads the text with each value at a byte of the record that starts there. It returns how many other values there are, all of which must be right.
fn values_at(rt: &HostRuntime, bytes: &mut [u8], offset: usize, start: usize) -> io::Result<u64> {
    let own = bytes.get(offset).copied().unwrap_or(0);
    let mut count = 0u64;
    for value in 0..=u8::MAX {
        put(bytes, offset, value);
        let told = fault_of(rt.alloc(), bytes)?;
        match told {
            Some(fault) if fault.offset < start => differs(rt, offset, told)?,
            _ => count = count.wrapping_add(u64::from(value != own)),
        }
    }
    put(bytes, offset, own);
    Ok(count)
}

fn values(rt: &HostRuntime, mut bytes: Vec<u8>) -> io::Result<()> {
    let mut count = 0u64;
    for place in &places(rt.alloc(), &bytes)? {
        for offset in place.start..place.end {
            count = count.wrapping_add(values_at(rt, &mut bytes, offset, place.start)?);
        }
    }
    println!(rt; "    {count} texts, none refused before its record")
}

/// Answers a command about a text.
pub fn answer(rt: &HostRuntime, verb: &str, bytes: Vec<u8>) -> Result<()> {
    match verb {
        "fronts" => fronts(rt, &bytes)?,
        "lengths" => lengths(rt, bytes)?,
        "bytes" => values(rt, bytes)?,
        _ => bail!("a command"),
    }
    Ok(())
}
