//! Writes the first line of a listing, and the line of a marker.
ghost use Rattle.mpw_firm_listing.specs.Lines.{head_text, line_text};
ghost use Rattle.mpw_text.specs.Writing.{Adds};

use crate::key::put_key;
use itoa::Buffer;
use mpw_deck::Rule;
use mpw_firm_grid::Parts;
use mpw_geom::Name;
use mpw_markers::Marker;
use mpw_text::put;
use std::io::{self, Write};

/// Writes the first line: `OK` with how many lines follow.
#[tactic(auto, unfolding(crate::specs::Lines::head_text))]
pub(crate) fn put_head<W: Write>(writer: &mut W, count: usize) -> io::Result<()>
    ensures { Adds W.contents writer.old writer.new result (head_text count) }
{
    put(writer, &["OK ", Buffer::new().format(count), "\n"])
}

/// Writes the line of a marker of that rule, in the structure with that name.
#[tactic(auto, unfolding(crate::specs::Lines::line_text))]
pub(crate) fn put_line<W: Write>(
    writer: &mut W,
    top: &Name,
    rule: &Rule,
    parts: &Parts,
    marker: &Marker,
) -> io::Result<()>
    ensures { Adds W.contents writer.old writer.new result (line_text parts.now top.now rule.now marker.now) }
{
    put_key(writer, rule, parts, &marker.key.piece)?;
    put(writer, &[" ", top.as_str(), "\n"])
}
