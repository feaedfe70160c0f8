//! Writes what is around a drawing: the titles above it, and the window's coordinates at its edges.
ghost use Rattle.std.specs.Prelude.{slice_get};
ghost use Rattle.mpw_firm_picture.specs.Titles.{rows_text, columns_text, edges_text, axis_text, places_text, key_title, title_under, wanted_title, dense_text, dense_title, titles_text};
ghost use Rattle.mpw_text.specs.Writing.{Adds};

use crate::part::{Part, put_part};
use crate::picture::Picture;
use crate::size::{drawing_breadth, drawing_height};
use itoa::Buffer;
use mpw_deck::Rule;
use mpw_edges::{Axis, Piece};
use mpw_firm_report::{put_name, put_rule};
use mpw_geom::{Box2, Name};
use mpw_markers::Key;
use mpw_text::put;
use std::io::{self, Write};

/// Writes the coordinates of the window's upper and lower edge.
#[tactic(auto, unfolding(crate::specs::Titles::rows_text))]
fn put_row_labels<W: Write>(writer: &mut W, window: &Box2) -> io::Result<()>
    ensures { Adds W.contents writer.old writer.new result (rows_text window.now) }
{
    let mut top = Buffer::new();
    let mut down = Buffer::new();
    let mut bottom = Buffer::new();
    put(
        writer,
        &[
            "<text x=\"-8\" y=\"4\" text-anchor=\"end\">y ",
            top.format(window.y1),
            " nm</text>\n<text x=\"-8\" y=\"",
            down.format(drawing_height(*window) + 20),
            "\" text-anchor=\"end\">y ",
            bottom.format(window.y0),
            " nm</text>\n",
        ],
    )
}

/// Writes the coordinates of its left and right edge.
#[tactic(auto, unfolding(crate::specs::Titles::columns_text))]
fn put_column_labels<W: Write>(writer: &mut W, window: &Box2) -> io::Result<()>
    ensures { Adds W.contents writer.old writer.new result (columns_text window.now) }
{
    let mut left = Buffer::new();
    let mut right = Buffer::new();
    let mut across = Buffer::new();
    let mut down = Buffer::new();
    let down = down.format(drawing_height(*window) + 40);
    put(
        writer,
        &[
            "<text y=\"",
            down,
            "\" text-anchor=\"end\">x ",
            left.format(window.x0),
            " nm</text>\n<text x=\"",
            across.format(drawing_breadth(*window)),
            "\" y=\"",
            down,
            "\">x ",
            right.format(window.x1),
            " nm</text>\n",
        ],
    )
}

/// Writes the window's coordinates at the edges of its drawing.
#[tactic(auto, unfolding(crate::specs::Titles::edges_text))]
pub(crate) fn put_edges<W: Write>(writer: &mut W, window: &Box2) -> io::Result<()>
    ensures { Adds W.contents writer.old writer.new result (edges_text window.now) }
{
    put_row_labels(writer, window)?;
    put_column_labels(writer, window)
}

/// Writes the axis of a key.
#[tactic(auto, unfolding(crate::specs::Titles::axis_text))]
fn put_axis<W: Write>(writer: &mut W, axis: Axis) -> io::Result<()>
    ensures { Adds W.contents writer.old writer.new result (axis_text axis) }
{
    match axis {
        Axis::V => put(writer, &[":V:"]),
        Axis::H => put(writer, &[":H:"]),
    }
}

/// Writes the side and the coordinates of a marker.
#[tactic(auto, unfolding(crate::specs::Titles::places_text))]
fn put_places<W: Write>(writer: &mut W, piece: &Piece) -> io::Result<()>
    ensures { Adds W.contents writer.old writer.new result (places_text piece.now) }
{
    let mut side = Buffer::new();
    let mut x1 = Buffer::new();
    let mut x2 = Buffer::new();
    let mut y0 = Buffer::new();
    let mut y1 = Buffer::new();
    put(
        writer,
        &[
            side.format(piece.side),
            ":",
            x1.format(piece.x1),
            ":",
            x2.format(piece.x2),
            ":",
            y0.format(piece.y0),
            ":",
            y1.format(piece.y1),
            ", ",
        ],
    )
}

/// Writes the title of a marker of that rule.
#[tactic(auto, unfolding(crate::specs::Titles::key_title))]
fn put_key_title<W: Write>(writer: &mut W, rule: &Rule, key: &Key) -> io::Result<()>
    ensures { Adds W.contents writer.old writer.new result (key_title rule.now key.now) }
{
    put(writer, &["<text x=\"-160\" y=\"-42\">"])?;
    put_name(writer, &rule.name)?;
    put_axis(writer, key.piece.axis)?;
    put_places(writer, &key.piece)?;
    put_rule(writer, rule)?;
    put(writer, &["</text>\n"])
}

/// Writes the title of a marker, if the deck has its rule.
fn put_title_of<W: Write>(writer: &mut W, rules: &[Rule], key: &Key) -> io::Result<()>
    ensures { Adds W.contents writer.old writer.new result (title_under (slice_get rules.now key.now.rule) key.now) }
{
    match rules.get(key.rule as usize) {
        Some(rule) => put_key_title(writer, rule, key),
        None => Ok(()),
    }
}

/// Writes the title of the selected marker, if there is one.
#[tactic(auto, unfolding(crate::specs::Titles::wanted_title))]
fn put_wanted_title<W: Write>(
    writer: &mut W,
    rules: &[Rule],
    wanted: &Option<Key>,
) -> io::Result<()>
    ensures { Adds W.contents writer.old writer.new result (wanted_title rules.now wanted.now) }
{
    match wanted {
        Some(key) => put_title_of(writer, rules, key),
        None => Ok(()),
    }
}

/// Writes how many markers are drawn as a density.
#[tactic(auto, unfolding(crate::specs::Titles::dense_text))]
fn put_dense<W: Write>(writer: &mut W, count: usize) -> io::Result<()>
    ensures { Adds W.contents writer.old writer.new result (dense_text count) }
{
    let mut number = Buffer::new();
    put(
        writer,
        &["<text x=\"-160\" y=\"-18\">", number.format(count)],
    )?;
    put_part(writer, Part::Dense)
}

/// Writes that the markers are drawn as a density, if they are.
#[tactic(auto, unfolding(crate::specs::Titles::dense_title))]
fn put_dense_title<W: Write>(writer: &mut W, picture: &Picture) -> io::Result<()>
    ensures { Adds W.contents writer.old writer.new result (dense_title picture.now) }
{
    if picture.counts.len() == 0 {
        Ok(())
    } else {
        put_dense(writer, picture.marks.len())
    }
}

/// Writes the titles of a picture.
#[tactic(auto, unfolding(crate::specs::Titles::titles_text))]
pub(crate) fn put_titles<W: Write>(
    writer: &mut W,
    rules: &[Rule],
    top: &Name,
    picture: &Picture,
) -> io::Result<()>
    ensures { Adds W.contents writer.old writer.new result (titles_text rules.now top.now picture.now) }
{
    put(writer, &["<text x=\"-160\" y=\"-66\" font-size=\"20\">"])?;
    put_name(writer, top)?;
    put(writer, &["</text>\n"])?;
    put_wanted_title(writer, rules, &picture.wanted)?;
    put_dense_title(writer, picture)
}
