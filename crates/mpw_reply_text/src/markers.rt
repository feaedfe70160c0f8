//! The lines of markers.
//!
//! A listing gives its markers one by one, and the cells that each touches. Each is written at once, and no line is stored.
ghost use Rattle.std.specs.Prelude.{◌≡◌};
ghost use Rattle.std.specs.List.{flat_map};
ghost use Rattle.mpw_replies.specs.Views.{marker_line, number_line};
ghost use Rattle.mpw_reply_text.specs.Reply.{cell_part, met_text, marker_text, masked_text, listed_text};
ghost use Rattle.mpw_wire.specs.Writing.{Writes};

use crate::key::write_key;
use crate::write::write_parts;
use itoa::Buffer;
use mpw_devices::Sink;
use mpw_geom::Name;
use mpw_replies::{MarkerListing, MarkerView, MarkerViews, MaskedViews, MetCells};
use mpw_wire::WireFault;

/// Writes a cell, after a space.
fn write_met_cell<W: Sink>(writer: &mut W, cell: &Name) -> Result<(), WireFault>
    ensures { Writes W.contents W.failures writer.old writer.new result (cell_part cell.now) }
{
    write_parts(writer, &[" ", cell.as_str()])
}

/// Writes the cells that a marker touches.
fn write_cells<W: Sink>(writer: &mut W, cells: MetCells<'_>) -> Result<(), WireFault>
    ensures { Writes W.contents W.failures writer.old writer.new result (flat_map cell_part cells.entry) }
{
    let mut cells = cells;
    while let Some(cell) = cells.next() {
        write_met_cell(writer, cell)?;
    }
    Ok(())
}

/// Writes the cells that a marker touches, and the end of its line.
#[tactic(auto, unfolding(crate::specs::Reply::met_text))]
fn write_met<W: Sink>(writer: &mut W, cells: MetCells<'_>) -> Result<(), WireFault>
    ensures { Writes W.contents W.failures writer.old writer.new result (met_text cells.entry) }
{
    write_cells(writer, cells)?;
    write_parts(writer, &["\n"])
}

/// Writes the line of a marker.
#[tactic(auto, unfolding(crate::specs::Reply::marker_text))]
fn write_marker<W: Sink>(writer: &mut W, marker: MarkerView<'_>) -> Result<(), WireFault>
    ensures { Writes W.contents W.failures writer.old writer.new result (listed_text (marker_line marker.entry)) }
{
    write_key(writer, marker.rule, marker.key.piece)?;
    write_met(writer, marker.cells)
}

/// Writes the lines of the full markers, one by one.
fn write_full<W: Sink>(writer: &mut W, views: MarkerViews<'_>) -> Result<(), WireFault>
    ensures { Writes W.contents W.failures writer.old writer.new result (flat_map listed_text views.entry) }
{
    let mut views = views;
    while let Some(marker) = views.next() {
        write_marker(writer, marker)?;
    }
    Ok(())
}

/// Writes how many markers of a rule are masked.
fn write_number<W: Sink>(writer: &mut W, rule: &Name, number: usize) -> Result<(), WireFault>
    ensures { Writes W.contents W.failures writer.old writer.new result (masked_text rule.now number) }
{
    let mut digits = Buffer::new();
    write_parts(
        writer,
        &["masked ", rule.as_str(), " ", digits.format(number), "\n"],
    )
}

/// Writes the counts of masked markers, rule by rule.
fn write_masked<W: Sink>(writer: &mut W, views: MaskedViews<'_>) -> Result<(), WireFault>
    ensures { Writes W.contents W.failures writer.old writer.new result (flat_map listed_text views.entry) }
{
    let mut views = views;
    while let Some(view) = views.next() {
        write_number(writer, view.rule, view.number)?;
    }
    Ok(())
}

/// Writes the lines of a listing, one by one. It takes no memory. Cost: the listing's passes and the size of the text.
pub(crate) fn write_markers<W: Sink>(
    writer: &mut W,
    listing: &MarkerListing,
) -> Result<(), WireFault>
    ensures { Writes W.contents W.failures writer.old writer.new result (flat_map listed_text listing.now) }
{
    let lines = listing.lines();
    write_full(writer, lines.full)?;
    write_masked(writer, lines.masked)
}
