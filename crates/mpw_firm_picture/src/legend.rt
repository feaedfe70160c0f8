//! Writes the legend: the scale bar, and a row for each rule.
ghost use Rattle.std.specs.Prelude.{◌≡◌};
ghost use Rattle.std.specs.List.{flat_map, enumerate_from};
ghost use Rattle.mpw_firm_picture.specs.Rows.{bar_line, bar_text, swatch, swatches, limit_of, row_head, row_end, row_text, legend_head, legend_text};
ghost use Rattle.mpw_text.specs.Writing.{Adds};

use crate::density::count_of;
use crate::layers::place_of;
use crate::look::{Canvas, put_look, rule_colour};
use crate::picture::Picture;
use crate::size::{bar_length, drawing_height, longer_side};
use itoa::Buffer;
use mpw_deck::{Check, Rule};
use mpw_firm_report::{put_left_out, put_micrometres, put_rule};
use mpw_geom::{Box2, Layer};
use mpw_text::put;
use std::io::{self, Write};

/// Writes the scale bar after its length.
#[tactic(auto, unfolding(crate::specs::Rows::bar_line))]
fn put_bar_line<W: Write>(writer: &mut W, window: Box2) -> io::Result<()>
    ensures { Adds W.contents writer.old writer.new result (bar_line window) }
{
    let mut longer = Buffer::new();
    let mut length = Buffer::new();
    put(
        writer,
        &[
            " &#181;m</text><svg x=\"90\" y=\"16\" width=\"1000\" height=\"8\" viewBox=\"0 0 ",
            longer.format(longer_side(window)),
            " 1\" preserveAspectRatio=\"none\"><rect width=\"",
            length.format(bar_length(window)),
            "\" height=\"1\"/></svg>\n",
        ],
    )
}

/// Writes the scale bar.
#[tactic(auto, unfolding(crate::specs::Rows::bar_text))]
fn put_bar<W: Write>(writer: &mut W, window: Box2) -> io::Result<()>
    ensures { Adds W.contents writer.old writer.new result (bar_text window) }
{
    put(writer, &["<text y=\"24\">"])?;
    put_micrometres(writer, i64::from(bar_length(window)))?;
    put_bar_line(writer, window)
}

/// Writes a sample of a layer's style, `x` pixels from the left.
#[tactic(auto, unfolding(crate::specs::Rows::swatch))]
fn put_swatch<W: Write>(writer: &mut W, layers: &[Layer], x: u32, layer: Layer) -> io::Result<()>
    ensures { Adds W.contents writer.old writer.new result (swatch layers.now x layer) }
{
    let mut right = Buffer::new();
    put(writer, &["<rect "])?;
    put_look(writer, Canvas::Legend, place_of(layers, layer))?;
    put(
        writer,
        &[" x=\"", right.format(x), "\" width=\"20\" height=\"16\"/>"],
    )
}

/// Writes samples of a check's layers.
#[tactic(auto, unfolding(crate::specs::Rows::swatches))]
fn put_swatches<W: Write>(writer: &mut W, layers: &[Layer], check: Check) -> io::Result<()>
    ensures { Adds W.contents writer.old writer.new result (swatches layers.now check) }
{
    match check {
        Check::Width(layer) | Check::Space(layer) => put_swatch(writer, layers, 28, layer),
        Check::Separation(first, second) | Check::Enclosing(first, second) => {
            put_swatch(writer, layers, 28, first)?;
            put_swatch(writer, layers, 52, second)
        }
    }
}

/// The most markers of a rule that are drawn.
#[tactic(auto, unfolding(crate::specs::Rows::limit_of))]
fn limit_of(picture: &Picture) -> usize
    ensures { result ≡ limit_of picture.now }
{
    if picture.counts.len() == 0 {
        picture.limit
    } else {
        picture.marks.len()
    }
}

/// Writes the beginning of the row of the rule at index `place`.
#[tactic(auto, unfolding(crate::specs::Rows::row_head))]
fn put_row_head<W: Write>(writer: &mut W, place: usize) -> io::Result<()>
    ensures { Adds W.contents writer.old writer.new result (row_head place) }
{
    let mut down = Buffer::new();
    let mut colour = Buffer::new();
    let y = 40 + 24 * (place as u128);
    put(
        writer,
        &[
            "<g transform=\"translate(0 ",
            down.format(y),
            ")\"><path class=\"m m",
            colour.format(rule_colour(place)),
            "\" stroke-width=\"2\" d=\"M1 1H19V15H1Z\"/>",
        ],
    )
}

/// Writes the end of a row: how many markers are drawn, and how many are left out.
#[tactic(auto, unfolding(crate::specs::Rows::row_end))]
fn put_row_end<W: Write>(writer: &mut W, count: usize, limit: usize) -> io::Result<()>
    ensures { Adds W.contents writer.old writer.new result (row_end count limit) }
{
    let mut number = Buffer::new();
    put(writer, &[": ", number.format(count.min(limit))])?;
    put_left_out(writer, count, limit)?;
    put(writer, &["</text></g>\n"])
}

/// Writes the row of the rule at index `place`.
#[tactic(auto, unfolding(crate::specs::Rows::row_text))]
fn put_row<W: Write>(writer: &mut W, picture: &Picture, place: usize, rule: &Rule) -> io::Result<()>
    ensures { Adds W.contents writer.old writer.new result (row_text picture.now (place, rule.now)) }
{
    put_row_head(writer, place)?;
    put_swatches(writer, picture.layers.as_slice(), rule.check)?;
    put(writer, &["<text x=\"90\" y=\"13\">"])?;
    put_rule(writer, rule)?;
    let count = count_of(picture.marks.as_slice(), place);
    put_row_end(writer, count, limit_of(picture))
}

/// Writes the rows of rules, in their order.
fn put_rows<W: Write>(writer: &mut W, picture: &Picture, rules: &[Rule]) -> io::Result<()>
    ensures { Adds W.contents writer.old writer.new result (flat_map (row_text picture.now) (enumerate_from 0 rules.now)) }
{
    for (place, rule) in rules.iter().enumerate() {
        put_row(writer, picture, place, rule)?;
    }
    Ok(())
}

/// Writes the beginning of what is below the drawing.
#[tactic(auto, unfolding(crate::specs::Rows::legend_head))]
fn put_legend_head<W: Write>(writer: &mut W, window: Box2) -> io::Result<()>
    ensures { Adds W.contents writer.old writer.new result (legend_head window) }
{
    let mut down = Buffer::new();
    put(
        writer,
        &[
            "<g transform=\"translate(0 ",
            down.format(drawing_height(window) + 50),
            ")\">\n",
        ],
    )
}

/// Writes what is below the drawing.
#[tactic(auto, unfolding(crate::specs::Rows::legend_text))]
pub(crate) fn put_legend<W: Write>(
    writer: &mut W,
    rules: &[Rule],
    picture: &Picture,
) -> io::Result<()>
    ensures { Adds W.contents writer.old writer.new result (legend_text rules.now picture.now) }
{
    put_legend_head(writer, picture.window)?;
    put_bar(writer, picture.window)?;
    put_rows(writer, picture, rules)
}
