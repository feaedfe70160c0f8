//! Draws a density: a square for each cell in which markers lie.
ghost use Rattle.std.specs.Prelude.{◌≡◌, ◌<◌, ◌*◌, ◌/◌, ◌^◌};
ghost use Rattle.std.specs.List.{flat_map, enumerate_from};
ghost use Rattle.mpw_firm_picture.specs.Density.{cell_side};
ghost use Rattle.mpw_firm_picture.specs.Marked.{square_text, cell_text, density_head, density_text};
ghost use Rattle.mpw_text.specs.Writing.{Adds};

use crate::density::cell_side;
use crate::picture::Picture;
use crate::size::height;
use itoa::Buffer;
use mpw_geom::Box2;
use mpw_text::put;
use std::io::{self, Write};

/// The position at which the cell with that number in its row or column begins, in nm.
fn begin_of(window: Box2, number: usize) -> u128
    ensures { result ≡ number * cell_side window }
{
    number as u128 * u128::from(cell_side(window))
}

/// Writes a square in which `count` markers lie.
#[tactic(auto, unfolding(crate::specs::Marked::square_text))]
fn put_square<W: Write>(writer: &mut W, window: Box2, cell: usize, count: usize) -> io::Result<()>
    ensures { Adds W.contents writer.old writer.new result (square_text window cell count) }
{
    let mut right = Buffer::new();
    let mut up = Buffer::new();
    let mut across = Buffer::new();
    let mut shade = Buffer::new();
    let mut number = Buffer::new();
    let number = number.format(count);
    let across = across.format(cell_side(window));
    put(
        writer,
        &[
            "<rect x=\"",
            right.format(begin_of(window, cell % 50)),
            "\" y=\"",
            up.format(begin_of(window, cell / 50)),
            "\" width=\"",
            across,
            "\" height=\"",
            across,
            "\" fill-opacity=\".",
            shade.format(5 + 15 * number.len().min(6)),
            "\"><title>",
            number,
            "</title></rect>\n",
        ],
    )
}

/// Writes the square of a cell if markers lie in it.
fn put_cell<W: Write>(writer: &mut W, window: Box2, cell: usize, count: usize) -> io::Result<()>
    ensures { Adds W.contents writer.old writer.new result (cell_text window (cell, count)) }
{
    if count == 0 {
        Ok(())
    } else {
        put_square(writer, window, cell, count)
    }
}

/// Writes the squares of cells, in their order.
fn put_cells<W: Write>(writer: &mut W, window: Box2, counts: &[usize]) -> io::Result<()>
    ensures { Adds W.contents writer.old writer.new result (flat_map (cell_text window) (enumerate_from 0 counts.now)) }
{
    for (place, count) in counts.iter().enumerate() {
        put_cell(writer, window, place, *count)?;
    }
    Ok(())
}

/// Writes what comes before the squares.
#[tactic(auto, unfolding(crate::specs::Marked::density_head))]
fn put_density_head<W: Write>(writer: &mut W, window: Box2) -> io::Result<()>
    ensures { Adds W.contents writer.old writer.new result (density_head window) }
{
    let mut down = Buffer::new();
    put(
        writer,
        &[
            "<g fill=\"#a00000\" shape-rendering=\"crispEdges\" transform=\"matrix(1 0 0 -1 0 ",
            down.format(height(window)),
            ")\">\n",
        ],
    )
}

/// Writes the density of a picture.
#[tactic(auto, unfolding(crate::specs::Marked::density_text))]
pub(crate) fn put_density<W: Write>(writer: &mut W, picture: &Picture) -> io::Result<()>
    ensures { Adds W.contents writer.old writer.new result (density_text picture.now) }
{
    put_density_head(writer, picture.window)?;
    put_cells(writer, picture.window, picture.counts.as_slice())?;
    put(writer, &["</g>\n"])
}
