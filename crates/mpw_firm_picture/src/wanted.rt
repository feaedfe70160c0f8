//! Draws the selected marker: with a ring around it, and an arrow to it if it is small.
ghost use Rattle.std.specs.Prelude.{◌≡◌};
ghost use Rattle.mpw_firm_picture.specs.Marked.{wanted_head, ring_at, ring_text, shaft_text, barbs_text, arrow_at, arrow_text, pointers_text, wanted_mark, wanted_text};
ghost use Rattle.mpw_text.specs.Writing.{Adds};

use crate::look::rule_colour;
use crate::mark::put_outline;
use crate::size::{Corners, breadth, corners_of, height, is_small, ring_margin};
use crate::window::wider_box;
use itoa::Buffer;
use mpw_geom::Box2;
use mpw_markers::Key;
use mpw_text::put;
use std::io::{self, Write};

/// Writes the beginning of the selected marker's group. Its rule is at index `place`.
#[tactic(auto, unfolding(crate::specs::Marked::wanted_head))]
fn put_wanted_head<W: Write>(writer: &mut W, place: u32) -> io::Result<()>
    ensures { Adds W.contents writer.old writer.new result (wanted_head place) }
{
    let mut colour = Buffer::new();
    put(
        writer,
        &[
            "<g class=\"m m",
            colour.format(rule_colour(place as usize)),
            "\">\n",
        ],
    )
}

/// Writes a ring as large as a box, with corners of that radius.
#[tactic(auto, unfolding(crate::specs::Marked::ring_at))]
fn put_ring_at<W: Write>(
    writer: &mut W,
    margin: u64,
    corners: Corners,
    area: Box2,
) -> io::Result<()>
    ensures { Adds W.contents writer.old writer.new result (ring_at margin corners area) }
{
    let mut left = Buffer::new();
    let mut top = Buffer::new();
    let mut across = Buffer::new();
    let mut down = Buffer::new();
    let mut radius = Buffer::new();
    put(
        writer,
        &[
            "<rect class=\"w\" x=\"",
            left.format(corners.left),
            "\" y=\"",
            top.format(corners.top),
            "\" width=\"",
            across.format(breadth(area)),
            "\" height=\"",
            down.format(height(area)),
            "\" rx=\"",
            radius.format(margin),
            "\"/>\n",
        ],
    )
}

/// Writes the ring around a box.
#[tactic(auto, unfolding(crate::specs::Marked::ring_text))]
fn put_ring<W: Write>(writer: &mut W, window: Box2, area: Box2) -> io::Result<()>
    ensures { Adds W.contents writer.old writer.new result (ring_text window area) }
{
    let margin = ring_margin(window);
    let ring = wider_box(&area, margin);
    put_ring_at(writer, margin, corners_of(window, ring), ring)
}

/// Writes the shaft of an arrow, by the upper left corners of two boxes.
#[tactic(auto, unfolding(crate::specs::Marked::shaft_text))]
fn put_shaft<W: Write>(writer: &mut W, tail: Corners, tip: Corners) -> io::Result<()>
    ensures { Adds W.contents writer.old writer.new result (shaft_text tail tip) }
{
    let mut tail_left = Buffer::new();
    let mut tail_top = Buffer::new();
    let mut left = Buffer::new();
    let mut top = Buffer::new();
    put(
        writer,
        &[
            "<path class=\"w\" d=\"M",
            tail_left.format(tail.left),
            " ",
            tail_top.format(tail.top),
            "L",
            left.format(tip.left),
            " ",
            top.format(tip.top),
        ],
    )
}

/// Writes the two strokes of its head.
#[tactic(auto, unfolding(crate::specs::Marked::barbs_text))]
fn put_barbs<W: Write>(writer: &mut W, head: Corners, tip: Corners) -> io::Result<()>
    ensures { Adds W.contents writer.old writer.new result (barbs_text head tip) }
{
    let mut head_left = Buffer::new();
    let mut head_top = Buffer::new();
    let mut left = Buffer::new();
    let mut top = Buffer::new();
    put(
        writer,
        &[
            "M",
            head_left.format(head.left),
            " ",
            top.format(tip.top),
            "H",
            left.format(tip.left),
            "V",
            head_top.format(head.top),
            "\"/>\n",
        ],
    )
}

/// Writes an arrow, by the upper left corners of three boxes.
#[tactic(auto, unfolding(crate::specs::Marked::arrow_at))]
fn put_arrow_at<W: Write>(
    writer: &mut W,
    tail: Corners,
    head: Corners,
    tip: Corners,
) -> io::Result<()>
    ensures { Adds W.contents writer.old writer.new result (arrow_at tail head tip) }
{
    put_shaft(writer, tail, tip)?;
    put_barbs(writer, head, tip)
}

/// Writes the arrow to the ring around a box.
#[tactic(auto, unfolding(crate::specs::Marked::arrow_text))]
fn put_arrow<W: Write>(writer: &mut W, window: Box2, area: Box2) -> io::Result<()>
    ensures { Adds W.contents writer.old writer.new result (arrow_text window area) }
{
    let margin = ring_margin(window);
    let tail = wider_box(&area, 7 * margin);
    let head = wider_box(&area, 3 * margin);
    let tip = wider_box(&area, margin);
    put_arrow_at(
        writer,
        corners_of(window, tail),
        corners_of(window, head),
        corners_of(window, tip),
    )
}

/// Writes the ring around a box, and an arrow to it if the box is small.
#[tactic(auto, unfolding(crate::specs::Marked::pointers_text))]
fn put_pointers<W: Write>(writer: &mut W, window: Box2, area: Box2) -> io::Result<()>
    ensures { Adds W.contents writer.old writer.new result (pointers_text window area) }
{
    put_ring(writer, window, area)?;
    if is_small(window, area) {
        put_arrow(writer, window, area)
    } else {
        Ok(())
    }
}

/// Writes the marker of a key.
#[tactic(auto, unfolding(crate::specs::Marked::wanted_mark))]
fn put_wanted_mark<W: Write>(writer: &mut W, window: Box2, key: &Key) -> io::Result<()>
    ensures { Adds W.contents writer.old writer.new result (wanted_mark window key.now) }
{
    let area = key.piece.closed_box();
    put_wanted_head(writer, key.rule)?;
    put_outline(writer, corners_of(window, area))?;
    put(writer, &["</g>\n"])?;
    put_pointers(writer, window, area)
}

/// Writes the selected marker, if there is one.
#[tactic(auto, unfolding(crate::specs::Marked::wanted_text))]
pub(crate) fn put_wanted<W: Write>(
    writer: &mut W,
    window: Box2,
    wanted: &Option<Key>,
) -> io::Result<()>
    ensures { Adds W.contents writer.old writer.new result (wanted_text window wanted.now) }
{
    match wanted {
        Some(key) => put_wanted_mark(writer, window, key),
        None => Ok(()),
    }
}
