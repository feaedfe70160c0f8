//! The styles of layers and rules, and the patterns of layers.
ghost use Rattle.std.specs.Prelude.{◌≡◌};
ghost use Rattle.std.specs.List.{flat_map, range_with_len};
ghost use Rattle.mpw_firm_picture.specs.Looks.{colour_of, hatch_of, period_of, angle_of, rule_colour};
ghost use Rattle.mpw_firm_picture.specs.Patterns.{canvas_letter, plain_look, striped_look, look_text, scale_text, stripes_head, stripes_end, pattern_text, patterns_of};
ghost use Rattle.mpw_text.specs.Writing.{Adds};

use crate::size::longer_side;
use itoa::Buffer;
use mpw_geom::Box2;
use mpw_text::put;
use std::io::{self, Write};

/// Where a layer is drawn.
#[derive(Clone, Copy)]
pub(crate) enum Canvas {
    /// The drawing, in nm.
    Drawing,
    /// The legend below it, in pixels.
    Legend,
}

/// The number of the colour of the layer at index `place`, 0 to 11.
#[tactic(auto, unfolding(crate::specs::Looks::colour_of))]
fn colour_of(place: usize) -> usize
    ensures { result ≡ colour_of place }
{
    place % 12
}

/// How many times all colours are used before the layer at index `place`.
#[tactic(auto, unfolding(crate::specs::Looks::hatch_of))]
fn hatch_of(place: usize) -> usize
    ensures { result ≡ hatch_of place }
{
    place / 12
}

/// The distance between stripes, in pixels.
#[tactic(auto, unfolding(crate::specs::Looks::period_of))]
fn period_of(hatch: usize) -> u128
    ensures { result ≡ period_of hatch }
{
    6 + 4 * (hatch.saturating_sub(1) as u128 / 4)
}

/// The angle of stripes, in degrees.
#[tactic(auto, unfolding(crate::specs::Looks::angle_of))]
fn angle_of(hatch: usize) -> usize
    ensures { result ≡ angle_of hatch }
{
    45 * (hatch.saturating_sub(1) % 4)
}

/// The number of the colour of the rule at index `place` in its deck, 0 to 11.
#[tactic(auto, unfolding(crate::specs::Looks::rule_colour))]
pub(crate) fn rule_colour(place: usize) -> usize
    ensures { result ≡ rule_colour place }
{
    place % 12
}

/// Writes the letter of a canvas.
#[tactic(auto, unfolding(crate::specs::Patterns::canvas_letter))]
fn put_letter<W: Write>(writer: &mut W, canvas: Canvas) -> io::Result<()>
    ensures { Adds W.contents writer.old writer.new result (canvas_letter canvas) }
{
    match canvas {
        Canvas::Drawing => put(writer, &["d"]),
        Canvas::Legend => put(writer, &["g"]),
    }
}

/// Writes the colour of the layer at index `place`.
#[tactic(auto, unfolding(crate::specs::Patterns::plain_look))]
fn put_plain_look<W: Write>(writer: &mut W, place: usize) -> io::Result<()>
    ensures { Adds W.contents writer.old writer.new result (plain_look place) }
{
    let mut number = Buffer::new();
    put(writer, &["class=\"l l", number.format(place), "\""])
}

/// Writes the name of the pattern of the layer at index `place`.
#[tactic(auto, unfolding(crate::specs::Patterns::striped_look))]
fn put_striped_look<W: Write>(writer: &mut W, canvas: Canvas, place: usize) -> io::Result<()>
    ensures { Adds W.contents writer.old writer.new result (striped_look canvas place) }
{
    let mut number = Buffer::new();
    put(writer, &["class=\"l\" fill=\"url(#"])?;
    put_letter(writer, canvas)?;
    put(writer, &[number.format(place), ")\""])
}

/// Writes the style of the layer at index `place`: its colour, or its pattern.
#[tactic(auto, unfolding(crate::specs::Patterns::look_text))]
pub(crate) fn put_look<W: Write>(writer: &mut W, canvas: Canvas, place: usize) -> io::Result<()>
    ensures { Adds W.contents writer.old writer.new result (look_text canvas place) }
{
    if place < 12 {
        put_plain_look(writer, place)
    } else {
        put_striped_look(writer, canvas, place)
    }
}

/// Writes how many nm of the drawing a pixel has.
#[tactic(auto, unfolding(crate::specs::Patterns::scale_text))]
fn put_scale<W: Write>(writer: &mut W, window: Box2, canvas: Canvas) -> io::Result<()>
    ensures { Adds W.contents writer.old writer.new result (scale_text window canvas) }
{
    let mut longer = Buffer::new();
    match canvas {
        Canvas::Drawing => put(
            writer,
            &["scale(", longer.format(longer_side(window)), "e-3) "],
        ),
        Canvas::Legend => Ok(()),
    }
}

/// Writes the beginning of a pattern, after its letter.
#[tactic(auto, unfolding(crate::specs::Patterns::stripes_head))]
fn put_stripes_head<W: Write>(writer: &mut W, place: usize) -> io::Result<()>
    ensures { Adds W.contents writer.old writer.new result (stripes_head place) }
{
    let mut number = Buffer::new();
    let mut period = Buffer::new();
    let period = period.format(period_of(hatch_of(place)));
    put(
        writer,
        &[
            number.format(place),
            "\" width=\"",
            period,
            "\" height=\"",
            period,
            "\" patternUnits=\"userSpaceOnUse\" patternTransform=\"",
        ],
    )
}

/// Writes the end of a pattern.
#[tactic(auto, unfolding(crate::specs::Patterns::stripes_end))]
fn put_stripes_end<W: Write>(writer: &mut W, place: usize) -> io::Result<()>
    ensures { Adds W.contents writer.old writer.new result (stripes_end place) }
{
    let mut angle = Buffer::new();
    let mut colour = Buffer::new();
    let mut half = Buffer::new();
    let mut whole = Buffer::new();
    let hatch = hatch_of(place);
    put(
        writer,
        &[
            "rotate(",
            angle.format(angle_of(hatch)),
            ")\"><path class=\"l",
            colour.format(colour_of(place)),
            "\" d=\"M0 0H",
            half.format(period_of(hatch) / 2),
            "V",
            whole.format(period_of(hatch)),
            "H0Z\"/></pattern>\n",
        ],
    )
}

/// Writes the pattern of the layer at index `place` for a canvas.
#[tactic(auto, unfolding(crate::specs::Patterns::pattern_text))]
fn put_pattern<W: Write>(
    writer: &mut W,
    window: Box2,
    place: usize,
    canvas: Canvas,
) -> io::Result<()>
    ensures { Adds W.contents writer.old writer.new result (pattern_text window place canvas) }
{
    put(writer, &["<pattern id=\""])?;
    put_letter(writer, canvas)?;
    put_stripes_head(writer, place)?;
    put_scale(writer, window, canvas)?;
    put_stripes_end(writer, place)
}

/// Writes the patterns of the layer at index `place`, if it has some.
#[tactic(auto, unfolding(crate::specs::Patterns::patterns_of))]
fn put_patterns_of<W: Write>(writer: &mut W, window: Box2, place: usize) -> io::Result<()>
    ensures { Adds W.contents writer.old writer.new result (patterns_of window place) }
{
    if place < 12 {
        return Ok(());
    }
    put_pattern(writer, window, place, Canvas::Drawing)?;
    put_pattern(writer, window, place, Canvas::Legend)
}

/// Writes the patterns of the first `layers` layers.
pub(crate) fn put_patterns<W: Write>(writer: &mut W, window: Box2, layers: usize) -> io::Result<()>
    ensures { Adds W.contents writer.old writer.new result (flat_map (patterns_of window) (range_with_len 0 layers)) }
{
    for place in 0..layers {
        put_patterns_of(writer, window, place)?;
    }
    Ok(())
}
