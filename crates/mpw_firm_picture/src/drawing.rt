//! Writes the drawing: the window's frame, and the rectangles by layer.
//!
//! The rectangles of a layer are one path, so that no line is visible between two adjacent ones.
ghost use Rattle.std.specs.List.{flat_map, enumerate_from};
ghost use Rattle.mpw_firm_picture.specs.Text.{rectangle_text, rectangle_of, layer_text, frame_text, drawing_text};
ghost use Rattle.mpw_text.specs.Writing.{Adds};

use crate::layers::is_layer;
use crate::left::put_left;
use crate::look::{Canvas, put_look};
use crate::mark::put_marks;
use crate::picture::Picture;
use crate::size::{breadth, corners_of, drawing_breadth, drawing_height, height};
use itoa::Buffer;
use mpw_deck::Rule;
use mpw_geom::{Box2, Layer};
use mpw_text::put;
use mpw_tiles::Rectangle;
use std::io::{self, Write};

/// Writes a rectangle, as a part of a path.
#[tactic(auto, unfolding(crate::specs::Text::rectangle_text, crate::specs::Text::rectangle_at))]
fn put_rectangle<W: Write>(writer: &mut W, window: Box2, rectangle: &Rectangle) -> io::Result<()>
    ensures { Adds W.contents writer.old writer.new result (rectangle_text window rectangle.now) }
{
    let corners = corners_of(window, rectangle.area);
    let mut left = Buffer::new();
    let mut top = Buffer::new();
    let mut across = Buffer::new();
    let mut down = Buffer::new();
    let across = across.format(breadth(rectangle.area));
    put(
        writer,
        &[
            "M",
            left.format(corners.left),
            " ",
            top.format(corners.top),
            "h",
            across,
            "v",
            down.format(height(rectangle.area)),
            "h-",
            across,
            "z",
        ],
    )
}

/// Writes a rectangle if it is of that layer.
fn put_rectangle_of<W: Write>(
    writer: &mut W,
    window: Box2,
    layer: Layer,
    rectangle: &Rectangle,
) -> io::Result<()>
    ensures { Adds W.contents writer.old writer.new result (rectangle_of window layer rectangle.now) }
{
    if is_layer(layer, rectangle.layer) {
        put_rectangle(writer, window, rectangle)
    } else {
        Ok(())
    }
}

/// Writes the rectangles of a layer, in their order.
fn put_rectangles<W: Write>(
    writer: &mut W,
    window: Box2,
    layer: Layer,
    rectangles: &[Rectangle],
) -> io::Result<()>
    ensures { Adds W.contents writer.old writer.new result (flat_map (rectangle_of window layer) rectangles.now) }
{
    for rectangle in rectangles {
        put_rectangle_of(writer, window, layer, rectangle)?;
    }
    Ok(())
}

/// Writes the layer at index `place` of the picture's layers.
#[tactic(auto, unfolding(crate::specs::Text::layer_text))]
fn put_layer<W: Write>(
    writer: &mut W,
    picture: &Picture,
    place: usize,
    layer: Layer,
) -> io::Result<()>
    ensures { Adds W.contents writer.old writer.new result (layer_text picture.now (place, layer)) }
{
    put(writer, &["<path "])?;
    put_look(writer, Canvas::Drawing, place)?;
    put(writer, &[" d=\""])?;
    put_rectangles(writer, picture.window, layer, picture.rectangles.as_slice())?;
    put(writer, &["\"/>\n"])
}

/// Writes layers of a picture, in their order.
fn put_layers<W: Write>(writer: &mut W, picture: &Picture, layers: &[Layer]) -> io::Result<()>
    ensures { Adds W.contents writer.old writer.new result
        (flat_map (layer_text picture.now) (enumerate_from 0 layers.now)) }
{
    for (place, layer) in layers.iter().enumerate() {
        put_layer(writer, picture, place, *layer)?;
    }
    Ok(())
}

/// Writes what comes before the layers.
#[tactic(auto, unfolding(crate::specs::Text::frame_text))]
fn put_frame<W: Write>(writer: &mut W, window: Box2) -> io::Result<()>
    ensures { Adds W.contents writer.old writer.new result (frame_text window) }
{
    let mut across = Buffer::new();
    let mut down = Buffer::new();
    let mut breadth_nm = Buffer::new();
    let mut height_nm = Buffer::new();
    put(
        writer,
        &[
            "<svg width=\"",
            across.format(drawing_breadth(window)),
            "\" height=\"",
            down.format(drawing_height(window)),
            "\" viewBox=\"0 0 ",
            breadth_nm.format(breadth(window)),
            " ",
            height_nm.format(height(window)),
            "\" preserveAspectRatio=\"xMinYMin\">\n<rect width=\"100%\" height=\"100%\" fill=\"#f4f4f4\"/>\n",
        ],
    )
}

/// Writes the drawing.
#[tactic(auto, unfolding(crate::specs::Text::drawing_text))]
pub(crate) fn put_drawing<W: Write>(
    writer: &mut W,
    rules: &[Rule],
    picture: &Picture,
) -> io::Result<()>
    ensures { Adds W.contents writer.old writer.new result (drawing_text rules.now picture.now) }
{
    put_frame(writer, picture.window)?;
    put_layers(writer, picture, picture.layers.as_slice())?;
    put_left(writer, picture)?;
    put_marks(writer, rules, picture)
}
