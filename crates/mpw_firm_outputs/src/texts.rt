//! The texts that a command writes, except the listing of all markers.
ghost use Rattle.std.specs.Prelude.{◌≡◌, false, IfOk, OnOk};
ghost use Rattle.std.specs.Io.KnownBytes.{Appends, Keeps};
ghost use Rattle.mpw_firm_outputs.specs.Texts.{text_of};
ghost use Rattle.mpw_firm_outputs.specs.Written.{fault_of, outcome_of};
ghost use Rattle.mpw_text.specs.Writing.{Adds};

use crate::summary::{Counts, write_counts};
use mpw_deck::Rule;
use mpw_devices::Sink;
use mpw_firm_listing::{Limited, write_limited};
use mpw_firm_messages::is_memory;
use mpw_firm_parts::{Part, write_part};
use mpw_firm_picture::{Picture, write_picture};
use mpw_firm_report::{Report, write_full_report};
use mpw_geom::Name;
use mpw_text::put;
use std::alloc::Global;
use std::io::{self, ErrorKind, Write};

/// A text that a command writes.
#[derive(Clone, Copy, Drop)]
pub enum Text<'a> {
    /// The listing of the first markers of each rule.
    Limited(&'a Limited<'a>),
    /// The numbers of markers by rule.
    Counts(&'a [Rule], &'a Counts<'a>),
    /// A report.
    Report(&'a Report<'a>),
    /// A picture, with the rules of the deck and the structure's name.
    Picture(&'a [Rule], &'a Name, &'a Picture),
    /// The part of some columns.
    Part(&'a Part),
    /// A text as it is.
    Told(&'a str),
}

/// Why a text isn't written.
#[derive(Clone, Copy, Drop)]
pub enum WriteFault {
    /// What takes the bytes failed.
    Device,
    /// Out of memory.
    Memory,
}

/// A sink, as a writer of std's.
#[derive(Drop)]
pub struct Writer<S> {
    /// What takes the bytes.
    pub sink: S,
}

impl<S: Sink> Write for Writer<S> {
    ghost contents = { λ writer. S.contents writer.sink };

    fn write(&mut self, bytes: &[u8]) -> io::Result<usize> {
        match self.sink.write(bytes) {
            Ok(taken) => Ok(taken),
            Err(_) => Err(io::Error::from(ErrorKind::Other)),
        }
    }

    fn flush(&mut self) -> io::Result<()> {
        match self.sink.flush() {
            Ok(()) => Ok(()),
            Err(_) => Err(io::Error::from(ErrorKind::Other)),
        }
    }
}

/// The fault that an error of std's is: out of memory stays that, and every other is one of the sink.
fn fault_of(error: io::Error) -> WriteFault
    ensures { result ≡ fault_of error }
{
    if is_memory(error.kind()) {
        WriteFault::Memory
    } else {
        WriteFault::Device
    }
}

/// The outcome of writing by std's means.
pub(crate) fn outcome(written: io::Result<()>) -> Result<(), WriteFault>
    ensures { result ≡ outcome_of written }
{
    match written {
        Ok(()) => Ok(()),
        Err(error) => Err(fault_of(error)),
    }
}

/// Writes a text's bytes.
fn write_bytes<W: Write>(alloc: Global, writer: &mut W, text: &Text<'_>) -> io::Result<()>
    ensures { Adds W.contents writer.old writer.new result (text_of text.now) }
{
    match *text {
        Text::Limited(listing) => write_limited(writer, listing),
        Text::Counts(rules, counts) => write_counts(writer, rules, counts),
        Text::Report(report) => write_full_report(writer, report),
        Text::Picture(rules, top, picture) => write_picture(writer, rules, top, picture),
        Text::Part(part) => write_part(alloc, writer, part),
        Text::Told(told) => put(writer, &[told]),
    }
}

/// Has the sink hand on what it took.
pub(crate) fn hand_on<S: Sink>(writer: &mut Writer<S>) -> Result<(), WriteFault>
    ensures same { Keeps (S.contents writer.old.sink) (S.contents writer.new.sink) }
    ensures handed { IfOk result (λ _. S.pending writer.new.sink ≡ false) }
{
    match writer.sink.flush() {
        Ok(()) => Ok(()),
        Err(_) => Err(WriteFault::Device),
    }
}

/// Writes a text, and has the sink hand it on.
///
/// # Errors
/// `Device` if the sink failed, and `Memory`.
pub fn write_text<S: Sink>(
    alloc: Global,
    writer: &mut Writer<S>,
    text: &Text<'_>,
) -> Result<(), WriteFault>
    ensures written { OnOk result (Appends (S.contents writer.old.sink) (S.contents writer.new.sink) (text_of text.now)) }
    ensures handed { IfOk result (λ _. S.pending writer.new.sink ≡ false) }
{
    outcome(write_bytes(alloc, writer, text))?;
    hand_on(writer)
}
