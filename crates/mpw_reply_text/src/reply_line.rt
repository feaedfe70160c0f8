//! The lines that a reply stores.
ghost use Rattle.std.specs.Prelude.{◌≡◌};
ghost use Rattle.mpw_reply_text.specs.Reply.{named_text, numbered_text, checking_text, cell_text, asked_text, signed_text, line_text};
ghost use Rattle.mpw_wire.specs.Writing.{Writes};

use crate::key::write_marker_key;
use crate::write::write_parts;
use itoa::Buffer;
use mpw_devices::Sink;
use mpw_geom::Name;
use mpw_replies::Line;
use mpw_requests::MarkerName;
use mpw_wire::WireFault;

/// Writes a line of a word and a number.
fn write_numbered<W: Sink>(writer: &mut W, word: &str, number: u32) -> Result<(), WireFault>
    ensures { Writes W.contents W.failures writer.old writer.new result (numbered_text word.now number) }
{
    let mut digits = Buffer::new();
    write_parts(writer, &[word, digits.format(number), "\n"])
}

/// Writes a line of a word and a count.
fn write_counted<W: Sink>(writer: &mut W, word: &str, count: usize) -> Result<(), WireFault>
    ensures { Writes W.contents W.failures writer.old writer.new result (numbered_text word.now count) }
{
    let mut digits = Buffer::new();
    write_parts(writer, &[word, digits.format(count), "\n"])
}

/// Writes the line of a run whose tiles are being checked.
fn write_checking<W: Sink>(
    writer: &mut W,
    run: u32,
    done: usize,
    total: u32,
) -> Result<(), WireFault>
    ensures { Writes W.contents W.failures writer.old writer.new result (checking_text run done total) }
{
    let mut runs = Buffer::new();
    let mut dones = Buffer::new();
    let mut totals = Buffer::new();
    write_parts(
        writer,
        &[
            "checking ",
            runs.format(run),
            " ",
            dones.format(done),
            " ",
            totals.format(total),
            "\n",
        ],
    )
}

/// Writes a line of a cell.
fn write_cell<W: Sink>(
    writer: &mut W,
    cell: &Name,
    version: u32,
    submitter: &Name,
) -> Result<(), WireFault>
    ensures { Writes W.contents W.failures writer.old writer.new result (cell_text cell.now version submitter.now) }
{
    let mut digits = Buffer::new();
    write_parts(
        writer,
        &[
            cell.as_str(),
            " ",
            digits.format(version),
            " ",
            submitter.as_str(),
            "\n",
        ],
    )
}

/// Writes a line of a word and a name.
fn write_named<W: Sink>(writer: &mut W, word: &str, name: &Name) -> Result<(), WireFault>
    ensures { Writes W.contents W.failures writer.old writer.new result (named_text word.now name.now) }
{
    write_parts(writer, &[word, name.as_str(), "\n"])
}

/// Writes the line of a marker for which a waiver was asked.
#[tactic(auto, unfolding(crate::specs::Reply::asked_text))]
fn write_asked<W: Sink>(writer: &mut W, marker: &MarkerName, asker: &Name) -> Result<(), WireFault>
    ensures { Writes W.contents W.failures writer.old writer.new result (asked_text marker.now asker.now) }
{
    write_marker_key(writer, marker)?;
    write_parts(writer, &[" asked ", asker.as_str(), "\n"])
}

/// Writes the line of a marker whose waiver is signed.
#[tactic(auto, unfolding(crate::specs::Reply::signed_text))]
fn write_signed<W: Sink>(
    writer: &mut W,
    marker: &MarkerName,
    asker: &Name,
    signer: &Name,
) -> Result<(), WireFault>
    ensures { Writes W.contents W.failures writer.old writer.new result (signed_text marker.now asker.now signer.now) }
{
    write_marker_key(writer, marker)?;
    write_parts(
        writer,
        &[" signed ", asker.as_str(), " ", signer.as_str(), "\n"],
    )
}

/// Writes a line of an accepted request's reply.
#[tactic(auto, unfolding(crate::specs::Reply::line_text))]
pub(crate) fn write_line<W: Sink>(writer: &mut W, line: &Line) -> Result<(), WireFault>
    ensures { Writes W.contents W.failures writer.old writer.new result (line_text line.now) }
{
    match line {
        Line::User(name) => write_named(writer, "user ", name),
        Line::Active(name) => write_named(writer, "active ", name),
        Line::Authorized(name) => write_named(writer, "authorized ", name),
        Line::Version(version) => write_numbered(writer, "version ", *version),
        Line::Cell {
            cell,
            version,
            submitter,
        } => write_cell(writer, cell, *version, submitter),
        Line::Run(run) => write_numbered(writer, "run ", *run),
        Line::Idle => write_parts(writer, &["idle", "\n"]),
        Line::Cutting(run) => write_numbered(writer, "cutting ", *run),
        Line::Checking { run, done, total } => write_checking(writer, *run, *done, *total),
        Line::Finished(run) => write_numbered(writer, "finished ", *run),
        Line::Asked { marker, asker } => write_asked(writer, marker, asker),
        Line::Signed {
            marker,
            asker,
            signer,
        } => write_signed(writer, marker, asker, signer),
        Line::Clean => write_parts(writer, &["clean", "\n"]),
        Line::Open(count) => write_counted(writer, "open ", *count),
        Line::Stale => write_parts(writer, &["stale", "\n"]),
    }
}
