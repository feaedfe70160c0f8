//! The reports of markers.
//!
//! The lines are a deck, a line `--`, the name of the structure, and then a marker a line as `RULE AXIS SIDE X1 X2 Y0 Y1`. The report of all markers is
//! written. If there is a line `original FILE`, a full report of that file follows, with at most `limit N` items a rule, and
//! with the notes of the lines `note NOTE`, and the faults of the lines `fault CODE BYTE STRUCTURE [X0 Y0 X1 Y1]`, whose structure may be `-` for none.
//! If there is a line `counts N..` too, the same report by these numbers of markers, rule by rule, comes after that.
mod given;

use anyhow::{Context, Result};
use given::Given;
use mpw_firm_report::{Report, write_full_report, write_report};
use std::io::BufWriter;

/// Writes the report of all markers.
fn print_all(rt: &HostRuntime, given: &Given) -> Result<()> {
    let deck = given.deck(rt.alloc())?;
    let top = given.top.as_ref().context("a name")?;
    let mut output = BufWriter::new(rt.alloc(), rt.stdout())?;
    Ok(write_report(
        &mut output,
        deck.rules().as_slice(),
        top,
        given.markers.as_slice(),
    )?)
}

/// Writes the full report of a file, by numbers of markers if there are some.
fn print_full(
    rt: &HostRuntime,
    given: &Given,
    original: &str,
    counts: Option<&[usize]>,
) -> Result<()> {
    let deck = given.deck(rt.alloc())?;
    let notes = given.notes(rt.alloc())?;
    let faults = given.faults(rt.alloc())?;
    let report = Report {
        original: Some(original),
        top: given.top.as_ref().context("a name")?,
        rules: deck.rules().as_slice(),
        markers: given.markers.as_slice(),
        counts,
        limit: given.limit,
        notes: notes.as_slice(),
        faults: faults.as_slice(),
    };
    let mut output = BufWriter::new(rt.alloc(), rt.stdout())?;
    Ok(write_full_report(&mut output, &report)?)
}

/// Writes the reports.
fn print(rt: &HostRuntime, given: &Given) -> Result<()> {
    print_all(rt, given)?;
    let Some(original) = &given.original else {
        return Ok(());
    };
    print_full(rt, given, original.as_str(), None)?;
    match &given.counts {
        Some(counts) => print_full(rt, given, original.as_str(), Some(counts.as_slice())),
        None => Ok(()),
    }
}

/// Answers the lines of its table.
pub(crate) fn run(rt: &HostRuntime, lines: &str) -> Result<()> {
    let mut given = Given::new(rt.alloc());
    for line in lines.lines() {
        given.take(rt.alloc(), line)?;
    }
    print(rt, &given)
}
