//! Writes the elements that are left out of a picture for their faults: their boxes, and a row of the legend.
ghost use Rattle.std.specs.Prelude.{◌≡◌, ◌≤◌, ◌^◌};
ghost use Rattle.std.specs.List.{flat_map};
ghost use Rattle.mpw_firm_picture.specs.Left.{left_boxes, left_head, left_group, left_text, row_count, left_row, left_row_text};
ghost use Rattle.mpw_text.specs.Writing.{Adds};

use crate::mark::put_outline;
use crate::picture::Picture;
use crate::size::{corners_of, line_breadth};
use itoa::Buffer;
use mpw_geom::Box2;
use mpw_text::put;
use std::io::{self, Write};

/// Writes boxes, in their order.
fn put_boxes<W: Write>(writer: &mut W, window: Box2, boxes: &[Box2]) -> io::Result<()>
    ensures { Adds W.contents writer.old writer.new result (left_boxes window boxes.now) }
{
    for area in boxes {
        put_outline(writer, corners_of(window, *area))?;
    }
    Ok(())
}

/// Writes what comes before the boxes.
#[tactic(auto, unfolding(crate::specs::Left::left_head))]
fn put_head<W: Write>(writer: &mut W, window: Box2) -> io::Result<()>
    ensures { Adds W.contents writer.old writer.new result (left_head window) }
{
    let mut line = Buffer::new();
    put(
        writer,
        &[
            "<g stroke-width=\"",
            line.format(line_breadth(window)),
            "\" fill=\"#ffd400\" fill-opacity=\".4\" stroke=\"#000\"><title>an element that is left out for its fault</title>\n",
        ],
    )
}

/// Writes the group of the boxes of left-out elements.
#[tactic(auto, unfolding(crate::specs::Left::left_group))]
fn put_group<W: Write>(writer: &mut W, window: Box2, boxes: &[Box2]) -> io::Result<()>
    ensures { Adds W.contents writer.old writer.new result (left_group window boxes.now) }
{
    put_head(writer, window)?;
    put_boxes(writer, window, boxes)?;
    put(writer, &["</g>\n"])
}

/// Writes the left-out elements of a picture; nothing if none are left out.
#[tactic(auto, unfolding(crate::specs::Left::left_text))]
pub(crate) fn put_left<W: Write>(writer: &mut W, picture: &Picture) -> io::Result<()>
    ensures { Adds W.contents writer.old writer.new result (left_text picture.now) }
{
    if picture.left_all == 0 {
        Ok(())
    } else {
        put_group(writer, picture.window, picture.left_out.as_slice())
    }
}

/// The number of rows of a legend with `rules` rules.
pub(crate) fn row_count(rules: usize, picture: &Picture) -> u128
    ensures count { result ≡ row_count rules picture.now }
    ensures few { result ≤ 2 ^ 64 }
{
    if picture.left_all == 0 {
        rules as u128
    } else {
        rules as u128 + 1
    }
}

/// Writes the row of left-out elements after `rules` rows: how many are drawn, and how many there are.
#[tactic(auto, unfolding(crate::specs::Left::left_row_text))]
fn put_row<W: Write>(writer: &mut W, rules: usize, drawn: usize, all: usize) -> io::Result<()>
    ensures { Adds W.contents writer.old writer.new result (left_row_text rules drawn all) }
{
    let mut down = Buffer::new();
    let mut some = Buffer::new();
    let mut many = Buffer::new();
    let y = 40 + 24 * (rules as u128);
    put(
        writer,
        &[
            "<g transform=\"translate(0 ",
            down.format(y),
            ")\"><path fill=\"#ffd400\" fill-opacity=\".4\" stroke=\"#000\" stroke-width=\"2\" d=\"M1 1H19V15H1Z\"/><text x=\"90\" y=\"13\">elements left out for their faults: ",
            some.format(drawn),
            " of ",
            many.format(all),
            " drawn</text></g>\n",
        ],
    )
}

/// Writes the row of left-out elements; nothing if none are left out.
#[tactic(auto, unfolding(crate::specs::Left::left_row))]
pub(crate) fn put_left_row<W: Write>(
    writer: &mut W,
    rules: usize,
    picture: &Picture,
) -> io::Result<()>
    ensures { Adds W.contents writer.old writer.new result (left_row rules picture.now) }
{
    if picture.left_all == 0 {
        Ok(())
    } else {
        put_row(writer, rules, picture.left_out.len(), picture.left_all)
    }
}
