//! Prints the replies to requests.

use crate::words::operation_word;
use anyhow::{Result, bail};
use mpw_edges::{Axis, Piece};
use mpw_permissions::{Object, Operation};
use mpw_replies::{
    Kept, Line, Lines, MarkerListing, MarkerView, MarkerViews, MaskedViews, MetCells, Reply,
};
use mpw_trail::{Code, Denial};

/// The most cells that a marker's line prints, and the most markers and rules of a listing.
const MAX_CELLS: usize = 1024;

const MAX_MARKERS: usize = 1024;

const MAX_RULES: usize = 1024;

/// Prints a line of an accepted request's reply.
fn tell_line(rt: &impl Print, line: &Line) -> Result<()> {
    match line {
        Line::User(name) => println!(rt; "    user {}", name.as_str())?,
        Line::Active(name) => println!(rt; "    active {}", name.as_str())?,
        Line::Authorized(name) => println!(rt; "    authorized {}", name.as_str())?,
        Line::Version(version) => println!(rt; "    version {version}")?,
        Line::Run(run) => println!(rt; "    run {run}")?,
        Line::Idle => println!(rt; "    idle")?,
        Line::Cutting(run) => println!(rt; "    cutting {run}")?,
        Line::Checking { run, done, total } => println!(rt; "    checking {run} {done} {total}")?,
        Line::Finished(run) => println!(rt; "    finished {run}")?,
        _ => bail!("a line of those that are told"),
    }
    Ok(())
}

/// Prints lines.
fn tell_stored(rt: &impl Print, lines: &[Line]) -> Result<()> {
    for line in lines {
        tell_line(rt, line)?;
    }
    Ok(())
}

/// The letter of an axis.
fn axis_letter(axis: Axis) -> &'static str {
    match axis {
        Axis::V => "V",
        Axis::H => "H",
    }
}

/// Prints a marker's key.
fn tell_key(rt: &impl Print, rule: &str, piece: Piece) -> Result<()> {
    let Piece {
        side,
        x1,
        x2,
        y0,
        y1,
        ..
    } = piece;
    let axis = axis_letter(piece.axis);
    Ok(print!(rt; "    {rule}:{axis}:{side}:{x1}:{x2}:{y0}:{y1}")?)
}

/// Prints the cells that a marker touches.
fn tell_cells(rt: &impl Print, cells: MetCells<'_>) -> Result<()> {
    let mut cells = cells;
    for _ in 0..MAX_CELLS {
        let Some(cell) = cells.next() else {
            return Ok(println!(rt; "")?);
        };
        print!(rt; " {}", cell.as_str())?;
    }
    bail!("fewer cells")
}

/// Prints a marker.
fn tell_marker(rt: &impl Print, marker: MarkerView<'_>) -> Result<()> {
    tell_key(rt, marker.rule.as_str(), marker.key.piece)?;
    tell_cells(rt, marker.cells)
}

/// Prints the full markers.
fn tell_full(rt: &impl Print, views: MarkerViews<'_>) -> Result<()> {
    let mut views = views;
    for _ in 0..MAX_MARKERS {
        let Some(marker) = views.next() else {
            return Ok(());
        };
        tell_marker(rt, marker)?;
    }
    bail!("fewer markers")
}

/// Prints the counts of masked markers, by rule.
fn tell_masked(rt: &impl Print, views: MaskedViews<'_>) -> Result<()> {
    let mut views = views;
    for _ in 0..MAX_RULES {
        let Some(view) = views.next() else {
            return Ok(());
        };
        println!(rt; "    masked {} {}", view.rule.as_str(), view.number)?;
    }
    bail!("fewer rules")
}

/// Prints markers.
fn tell_markers(rt: &impl Print, listing: &MarkerListing) -> Result<()> {
    tell_full(rt, listing.lines().full)?;
    tell_masked(rt, listing.lines().masked)
}

/// Prints the lines of an accepted request's reply.
fn tell_lines(rt: &impl Print, lines: &Lines) -> Result<()> {
    println!(rt; "    OK {}", lines.len())?;
    match lines.contents() {
        Kept::Stored(lines) => tell_stored(rt, lines),
        Kept::Markers(listing) => tell_markers(rt, listing),
        Kept::Shapes(_shapes) => bail!("shapes"),
        Kept::Trail(_trail) => bail!("a trail"),
    }
}

/// Prints that the session lacks a permission.
fn tell_permission(rt: &impl Print, operation: Operation, object: &Object) -> Result<()> {
    let object = match object {
        Object::Cell(cell) => cell.as_str(),
        Object::Desk => "desk",
    };
    let operation = operation_word(operation);
    Ok(println!(rt; "    DENIED permission {operation} {object}")?)
}

/// Prints what a session lacks.
fn tell_denial(rt: &impl Print, denial: &Denial) -> Result<()> {
    match denial {
        Denial::Session => Ok(println!(rt; "    DENIED session")?),
        Denial::Login => Ok(println!(rt; "    DENIED login")?),
        Denial::Permission(operation, object) => tell_permission(rt, *operation, object),
        Denial::Activation(role) => {
            Ok(println!(rt; "    DENIED permission activate {}", role.as_str())?)
        }
        _ => bail!("a denial of those that are told"),
    }
}

/// The number and the word of a refusal.
fn code_words(code: Code) -> Result<&'static str> {
    match code {
        Code::Shapes => Ok("25 shapes"),
        Code::Tiles => Ok("28 tiles"),
        Code::Opened => Ok("30 opened"),
        Code::NoRun => Ok("31 norun"),
        Code::Unknown => Ok("32 unknown"),
        Code::Known => Ok("33 known"),
        Code::Running => Ok("37 running"),
        Code::NoDeck => Ok("38 nodeck"),
        Code::Empty => Ok("39 empty"),
        Code::NotFinished => Ok("43 notfinished"),
        Code::Ended => Ok("46 ended"),
        _ => bail!("a refusal of those that are told"),
    }
}

/// Prints a reply.
pub fn tell_reply(rt: &impl Print, reply: &Reply) -> Result<()> {
    match reply {
        Reply::Ok(lines) => tell_lines(rt, lines),
        Reply::Denied(denial) => tell_denial(rt, denial),
        Reply::Refused(code) => {
            let words = code_words(*code)?;
            Ok(println!(rt; "    REFUSED {words}")?)
        }
    }
}
