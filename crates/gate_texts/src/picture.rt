//! Pictures of placed submissions with given markers.
//!
//! A line that begins with `#`, and an empty one, says nothing.
//! - `new TOP` begins anew, with no deck, submission or marker, and the name that the pictures have;
//! - `deck | LINE` adds a line to the deck, and `submit CELL TOP | ..` puts a library in the notation of `gate_samples` on the
//!   shelf;
//! - `marker | RULE AXIS SIDE X1 X2 Y0 Y1` adds a marker, and `many COUNT STEP | ..` so many, each so far to the right of the one before;
//! - `whole | N R90 x y, ..` draws all of placed submissions, by number, and `first LIMIT | ..` the same with at most so many markers
//!   of a rule;
//! - `near PLACE | N R90 x y, ..` draws what is around the marker with that place, which is wanted.
mod given;

use anyhow::{Context, Result};
use gate_words::Words;
use given::Given;
use mpw_firm_picture::{
    Picture, View, draw, draw_view, marker_window, whole_window, write_picture,
};
use mpw_tiles::Snapshot;
use std::io::BufWriter;

/// Writes the picture.
fn print(rt: &HostRuntime, given: &Given, snapshot: &Snapshot, picture: &Picture) -> Result<()> {
    let mut output = BufWriter::new(rt.alloc(), rt.stdout())?;
    let rules = snapshot.deck().rules().as_slice();
    Ok(write_picture(&mut output, rules, given.top()?, picture)?)
}

/// Draws all of placed submissions.
fn print_whole(rt: &HostRuntime, given: &Given, snapshot: &Snapshot) -> Result<()> {
    let window = whole_window(snapshot);
    let picture = draw(rt.alloc(), snapshot, given.markers.as_slice(), window)?;
    print(rt, given, snapshot, &picture)
}

/// Draws all of placed submissions, with at most so many markers of a rule.
fn print_first(rt: &HostRuntime, given: &Given, snapshot: &Snapshot, limit: u32) -> Result<()> {
    let view = View {
        window: whole_window(snapshot),
        wanted: None,
        limit: limit as usize,
    };
    let picture = draw_view(rt.alloc(), snapshot, given.markers.as_slice(), view)?;
    print(rt, given, snapshot, &picture)
}

/// Draws what is around the marker with that place.
fn print_near(rt: &HostRuntime, given: &Given, snapshot: &Snapshot, place: u32) -> Result<()> {
    let marker = given
        .markers
        .as_slice()
        .get(place as usize)
        .context("a marker")?;
    let view = View {
        window: marker_window(snapshot.deck().rules().as_slice(), marker),
        wanted: Some(marker.key),
        limit: usize::MAX,
    };
    let picture = draw_view(rt.alloc(), snapshot, given.markers.as_slice(), view)?;
    print(rt, given, snapshot, &picture)
}

/// Answers a line.
fn answer(rt: &HostRuntime, given: &mut Given, line: &str) -> Result<()> {
    let (command, rest) = line.split_once(" | ").unwrap_or((line, ""));
    let mut words = Words::of(command);
    let verb = words.next();
    if verb != "whole" && verb != "first" && verb != "near" {
        given.take(rt.alloc(), verb, &mut words, rest)?;
        return words.end();
    }
    let snapshot = given.snapshot(rt.alloc(), rest)?;
    match verb {
        "first" => print_first(rt, given, &snapshot, words.number())?,
        "near" => print_near(rt, given, &snapshot, words.number())?,
        _ => print_whole(rt, given, &snapshot)?,
    }
    words.end()
}

/// Answers the lines of its table.
pub(crate) fn run(rt: &HostRuntime, lines: &str) -> Result<()> {
    let mut given = Given::new(rt.alloc());
    for line in lines.lines() {
        if !line.is_empty() && !line.starts_with('#') {
            answer(rt, &mut given, line)?;
        }
    }
    Ok(())
}
