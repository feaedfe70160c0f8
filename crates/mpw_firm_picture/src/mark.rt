//! Writes the markers of a drawing, one by one.
ghost use Rattle.std.specs.Prelude.{take};
ghost use Rattle.std.specs.List.{flat_map, enumerate_from};
ghost use Rattle.mpw_firm_picture.specs.Density.{of_rule};
ghost use Rattle.mpw_firm_picture.specs.Marked.{outline, mark_text, group_head, group_text, shown_text, marks_head, marks_text};
ghost use Rattle.mpw_text.specs.Writing.{Adds};

use crate::look::rule_colour;
use crate::picture::{Mark, Picture};
use crate::size::{Corners, corners_of, line_breadth};
use crate::squares::put_density;
use crate::wanted::put_wanted;
use itoa::Buffer;
use mpw_deck::Rule;
use mpw_firm_report::put_name;
use mpw_geom::Box2;
use mpw_text::put;
use std::io::{self, Write};

/// Writes the outline of a marker.
#[tactic(auto, unfolding(crate::specs::Marked::outline))]
pub(crate) fn put_outline<W: Write>(writer: &mut W, corners: Corners) -> io::Result<()>
    ensures { Adds W.contents writer.old writer.new result (outline corners) }
{
    let mut left = Buffer::new();
    let mut top = Buffer::new();
    let mut right = Buffer::new();
    let mut bottom = Buffer::new();
    let left = left.format(corners.left);
    put(
        writer,
        &[
            "<path d=\"M",
            left,
            " ",
            top.format(corners.top),
            "H",
            right.format(corners.right),
            "V",
            bottom.format(corners.bottom),
            "H",
            left,
            "Z\"/>\n",
        ],
    )
}

/// Writes a marker.
#[tactic(auto, unfolding(crate::specs::Marked::mark_text))]
fn put_mark<W: Write>(writer: &mut W, window: Box2, mark: &Mark) -> io::Result<()>
    ensures { Adds W.contents writer.old writer.new result (mark_text window mark.now) }
{
    put_outline(writer, corners_of(window, mark.area))
}

/// Writes the first markers of the rule at index `place`, at most `limit`, in their order.
fn put_first<W: Write>(
    writer: &mut W,
    window: Box2,
    marks: &[Mark],
    limit: usize,
    place: usize,
) -> io::Result<()>
    ensures { Adds W.contents writer.old writer.new result
        (flat_map (mark_text window) (take limit (of_rule marks.now place))) }
{
    let mut left = limit;
    for mark in marks {
        if mark.rule as usize == place {
            if left > 0 {
                put_mark(writer, window, mark)?;
                left -= 1;
            }
        }
    }
    Ok(())
}

/// Writes the beginning of the group of the rule at index `place`.
#[tactic(auto, unfolding(crate::specs::Marked::group_head))]
fn put_group_head<W: Write>(writer: &mut W, place: usize) -> io::Result<()>
    ensures { Adds W.contents writer.old writer.new result (group_head place) }
{
    let mut colour = Buffer::new();
    put(
        writer,
        &[
            "<g class=\"m m",
            colour.format(rule_colour(place)),
            "\"><title>",
        ],
    )
}

/// Writes the group of a rule: its first markers.
#[tactic(auto, unfolding(crate::specs::Marked::group_text))]
fn put_group<W: Write>(
    writer: &mut W,
    picture: &Picture,
    place: usize,
    rule: &Rule,
) -> io::Result<()>
    ensures { Adds W.contents writer.old writer.new result (group_text picture.now (place, rule.now)) }
{
    put_group_head(writer, place)?;
    put_name(writer, &rule.name)?;
    put(writer, &["</title>\n"])?;
    put_first(
        writer,
        picture.window,
        picture.marks.as_slice(),
        picture.limit,
        place,
    )?;
    put(writer, &["</g>\n"])
}

/// Writes the groups of rules, in their order.
fn put_groups<W: Write>(writer: &mut W, rules: &[Rule], picture: &Picture) -> io::Result<()>
    ensures { Adds W.contents writer.old writer.new result (flat_map (group_text picture.now) (enumerate_from 0 rules.now)) }
{
    for (place, rule) in rules.iter().enumerate() {
        put_group(writer, picture, place, rule)?;
    }
    Ok(())
}

/// Writes the markers of a picture, one by one or as a density.
#[tactic(auto, unfolding(crate::specs::Marked::shown_text))]
fn put_shown<W: Write>(writer: &mut W, rules: &[Rule], picture: &Picture) -> io::Result<()>
    ensures { Adds W.contents writer.old writer.new result (shown_text rules.now picture.now) }
{
    if picture.counts.len() == 0 {
        put_groups(writer, rules, picture)
    } else {
        put_density(writer, picture)
    }
}

/// Writes what comes before the markers.
#[tactic(auto, unfolding(crate::specs::Marked::marks_head))]
fn put_marks_head<W: Write>(writer: &mut W, window: Box2) -> io::Result<()>
    ensures { Adds W.contents writer.old writer.new result (marks_head window) }
{
    let mut line = Buffer::new();
    put(
        writer,
        &[
            "<g stroke-width=\"",
            line.format(line_breadth(window)),
            "\">\n",
        ],
    )
}

/// Writes the markers of a picture and the selected one, and ends the drawing.
#[tactic(auto, unfolding(crate::specs::Marked::marks_text))]
pub(crate) fn put_marks<W: Write>(
    writer: &mut W,
    rules: &[Rule],
    picture: &Picture,
) -> io::Result<()>
    ensures { Adds W.contents writer.old writer.new result (marks_text rules.now picture.now) }
{
    put_marks_head(writer, picture.window)?;
    put_shown(writer, rules, picture)?;
    put_wanted(writer, picture.window, &picture.wanted)?;
    put(writer, &["</g>\n</svg>\n"])
}
