//! Writes the whole text of a picture.
ghost use Rattle.std.specs.Prelude.{◌≤◌, ◌^◌};
ghost use Rattle.mpw_firm_picture.specs.Text.{paper_text, head_text, picture_text};
ghost use Rattle.mpw_text.specs.Writing.{Adds};

use crate::drawing::put_drawing;
use crate::left::{put_left_row, row_count};
use crate::legend::put_legend;
use crate::look::put_patterns;
use crate::part::{Part, put_part};
use crate::picture::Picture;
use crate::size::drawing_height;
use crate::title::{put_edges, put_titles};
use itoa::Buffer;
use mpw_deck::Rule;
use mpw_firm_report::put_name;
use mpw_geom::{Box2, Name};
use mpw_text::put;
use std::io::{self, Write};

/// Writes the height of a picture with `rows` rows in its legend.
#[tactic(auto, unfolding(crate::specs::Text::paper_text))]
fn put_paper<W: Write>(writer: &mut W, rows: u128, window: Box2) -> io::Result<()>
    requires { rows ≤ 2 ^ 64 }
    ensures { Adds W.contents writer.old writer.new result (paper_text rows window) }
{
    let mut down = Buffer::new();
    let paper = drawing_height(window) + 188 + 24 * rows;
    put(writer, &[down.format(paper)])
}

/// Writes what comes before the titles.
#[tactic(auto, unfolding(crate::specs::Text::head_text))]
fn put_head<W: Write>(
    writer: &mut W,
    rules: &[Rule],
    top: &Name,
    picture: &Picture,
) -> io::Result<()>
    ensures { Adds W.contents writer.old writer.new result (head_text rules.now top.now picture.now) }
{
    put_part(writer, Part::Head)?;
    put_paper(writer, row_count(rules.len(), picture), picture.window)?;
    put_part(writer, Part::Title)?;
    put_name(writer, top)?;
    put_part(writer, Part::LayerColours)?;
    put_part(writer, Part::RuleColours)?;
    put_part(writer, Part::Patterns)?;
    put_patterns(writer, picture.window, picture.layers.as_slice().len())?;
    put_part(writer, Part::Ground)
}

/// Writes all of a picture.
#[tactic(auto, unfolding(crate::specs::Text::picture_text))]
fn put_all<W: Write>(
    writer: &mut W,
    rules: &[Rule],
    top: &Name,
    picture: &Picture,
) -> io::Result<()>
    ensures { Adds W.contents writer.old writer.new result (picture_text rules.now top.now picture.now) }
{
    put_head(writer, rules, top, picture)?;
    put_titles(writer, rules, top, picture)?;
    put_drawing(writer, rules, picture)?;
    put_edges(writer, &picture.window)?;
    put_legend(writer, rules, picture)?;
    put_left_row(writer, rules.len(), picture)?;
    put_part(writer, Part::End)
}

/// Writes the picture of the structure named `top` under these rules, as SVG. If markers are drawn one by one, a marker whose rule isn't among the rules is
/// left out. It takes no memory. The text has about 25 bytes for each rectangle and 40 for each marker. Cost: linear in the text, and for each layer a pass
/// over the rectangles, and for each rule two passes over the markers.
///
/// # Errors
/// Those of the writer, which then has a part of the text.
pub fn write_picture<W: Write>(
    writer: &mut W,
    rules: &[Rule],
    top: &Name,
    picture: &Picture,
) -> io::Result<()>
    ensures { Adds W.contents writer.old writer.new result (picture_text rules.now top.now picture.now) }
{
    put_all(writer, rules, top, picture)?;
    writer.flush()
}
