//! The listing of all markers, and its lines.
ghost use Rattle.std.specs.Prelude.{◌≡◌, ◌≤◌, length};
ghost use Rattle.mpw_firm_listing.specs.Listing.{count_of_lines, has_rule, lines_of, marker_line};
ghost use Rattle.mpw_text.specs.Writing.{Adds};

use crate::line::put_line;
use mpw_deck::Rule;
use mpw_firm_grid::Parts;
use mpw_geom::Name;
use mpw_markers::Marker;
use std::io::{self, Write};

/// The markers of a structure, under the rules of a deck.
#[derive(Clone, Copy, Drop)]
pub struct Listing<'a> {
    /// The name of the structure.
    pub top: &'a Name,
    /// The rules.
    pub rules: &'a [Rule],
    /// The markers. A marker whose rule isn't among the rules has no line.
    pub markers: &'a [Marker],
    /// The parts of a nanometre that lengths count.
    pub parts: &'a Parts,
}

/// Whether a marker's rule is among the rules.
fn has_rule(rules: &[Rule], marker: &Marker) -> bool
    ensures { result ≡ has_rule rules.now marker.now }
{
    rules.get(marker.key.rule as usize).is_some()
}

/// How many markers have a line.
pub(crate) fn count_of_lines(rules: &[Rule], markers: &[Marker]) -> usize
    ensures count { result ≡ count_of_lines rules.now markers.now }
    ensures few { result ≤ length markers.now }
{
    let mut count = 0usize;
    for marker in markers {
        if has_rule(rules, marker) {
            count += 1;
        }
    }
    count
}

/// Writes the line of a marker, if its rule is among the rules.
fn put_marker<W: Write>(writer: &mut W, listing: &Listing<'_>, marker: &Marker) -> io::Result<()>
    ensures { Adds W.contents writer.old writer.new result (marker_line listing.now.parts.now listing.now.top.now listing.now.rules.now marker.now) }
{
    match listing.rules.get(marker.key.rule as usize) {
        Some(rule) => put_line(writer, listing.top, rule, listing.parts, marker),
        None => Ok(()),
    }
}

/// Writes the lines of markers, in their order.
pub(crate) fn put_markers<W: Write>(
    writer: &mut W,
    listing: &Listing<'_>,
    markers: &[Marker],
) -> io::Result<()>
    ensures { Adds W.contents writer.old writer.new result (lines_of listing.now markers.now) }
{
    for marker in markers {
        put_marker(writer, listing, marker)?;
    }
    Ok(())
}
