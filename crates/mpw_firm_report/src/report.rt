//! Writes the whole report.
ghost use Rattle.std.specs.Prelude.{option_map};
ghost use Rattle.mpw_firm_report.specs.Content.{content_of};
ghost use Rattle.mpw_firm_report.specs.Report.{original_text, head_text, cells_text, full_text, report_text};
ghost use Rattle.mpw_text.specs.Writing.{Adds};

use crate::category::put_categories;
use crate::content::{Fault, Note, Report};
use crate::faults::{put_fault_category, put_faults};
use crate::item::put_items;
use crate::name::{put_escaped, put_name};
use crate::notes::put_notes;
use crate::part::{Part, put_part};
use mpw_deck::Rule;
use mpw_geom::Name;
use mpw_markers::Marker;
use std::io::{self, Write};

/// Writes the name of the layout's file, if it is known.
#[tactic(auto, unfolding(crate::specs::Report::original_text))]
fn put_original<W: Write>(writer: &mut W, original: Option<&str>) -> io::Result<()>
    ensures { Adds W.contents writer.old writer.new result (original_text (option_map (λ file. file.now) original.entry)) }
{
    match original {
        Some(file) => {
            put_part(writer, Part::Original)?;
            put_escaped(writer, file.as_bytes())?;
            put_part(writer, Part::OriginalEnd)
        }
        None => put_part(writer, Part::NoOriginal),
    }
}

/// Writes what comes before the categories.
#[tactic(auto, unfolding(crate::specs::Report::head_text))]
fn put_head<W: Write>(writer: &mut W, report: &Report<'_>) -> io::Result<()>
    ensures { Adds W.contents writer.old writer.new result (head_text (content_of report.now)) }
{
    put_part(writer, Part::Head)?;
    put_name(writer, report.top)?;
    put_notes(writer, report.notes)?;
    put_part(writer, Part::HeadEnd)?;
    put_original(writer, report.original)?;
    put_part(writer, Part::Generator)?;
    put_name(writer, report.top)?;
    put_part(writer, Part::Categories)
}

/// Writes what comes between the categories and the items.
#[tactic(auto, unfolding(crate::specs::Report::cells_text))]
fn put_cells<W: Write>(writer: &mut W, top: &Name) -> io::Result<()>
    ensures { Adds W.contents writer.old writer.new result (cells_text top.now) }
{
    put_part(writer, Part::Cells)?;
    put_name(writer, top)?;
    put_part(writer, Part::Items)
}

/// Writes a report.
#[tactic(auto, unfolding(crate::specs::Report::full_text))]
fn put_all<W: Write>(writer: &mut W, report: &Report<'_>) -> io::Result<()>
    ensures { Adds W.contents writer.old writer.new result (full_text (content_of report.now)) }
{
    put_head(writer, report)?;
    put_categories(writer, report)?;
    put_fault_category(writer, report.faults)?;
    put_cells(writer, report.top)?;
    put_items(writer, report)?;
    put_faults(writer, report.top, report.faults)?;
    put_part(writer, Part::End)
}

/// Writes a report: the notes in its description; a category for each rule, in order, and one for the faults if there are some; then for each rule an
/// item for each of its first markers, up to the limit, in order; and an item for each fault. The description of a rule's category says how many of
/// its markers are left out. If the report has the numbers of markers, the first of each rule make the same report as all
/// ([`first_markers_have_the_items`](crate::first_markers_have_the_items)). It takes no memory. The text has about 300 bytes for each marker. Cost:
/// linear in the text, and for each rule two passes over the markers, or one if there are numbers.
///
/// # Errors
/// Those of the writer, which then has a part of the text.
pub fn write_full_report<W: Write>(writer: &mut W, report: &Report<'_>) -> io::Result<()>
    ensures { Adds W.contents writer.old writer.new result (full_text (content_of report.now)) }
{
    put_all(writer, report)?;
    writer.flush()
}

/// Writes the report of all markers that were found in the structure named `top` under these rules. It names no file, and
/// has no faults. It takes no memory.
///
/// # Errors
/// Those of the writer, which then has a part of the text.
#[tactic(auto, unfolding(crate::specs::Report::report_text))]
pub fn write_report<'a, W: Write>(
    writer: &mut W,
    rules: &'a [Rule],
    top: &'a Name,
    markers: &'a [Marker],
) -> io::Result<()>
    ensures { Adds W.contents writer.old writer.new result (report_text rules.now top.now markers.now) }
{
    let original: Option<&'a str> = None;
    let counts: Option<&'a [usize]> = None;
    let notes: &'a [Note<'a>] = &[];
    let faults: &'a [Fault<'a>] = &[];
    let report = Report {
        original,
        top,
        rules,
        markers,
        counts,
        limit: usize::MAX,
        notes,
        faults,
    };
    write_full_report(writer, &report)
}
