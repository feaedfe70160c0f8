//! Writes pairs of edges, in micrometres.
ghost use Rattle.std.specs.Prelude.{◌≡◌};
ghost use Rattle.mpw_firm_report.specs.Report.{point_on, first_edge, second_edge, point_text, edge_text, pair_text};
ghost use Rattle.mpw_text.specs.Writing.{Adds};

use crate::length::put_micrometres;
use mpw_edges::{Axis, Piece};
use mpw_geom::Point;
use mpw_text::put;
use std::io::{self, Write};

/// An edge, from its start to its end, in nm.
#[derive(Clone, Copy)]
pub(crate) struct Edge {
    /// The start of KLayout's edge.
    pub start: Point,
    /// The end of KLayout's edge.
    pub end: Point,
}

/// The point at `x` in row `y` of an axis.
fn point_on(axis: Axis, x: i64, y: i64) -> Point
    ensures { result ≡ point_on axis x y }
{
    match axis {
        Axis::V => Point { x, y },
        Axis::H => Point { x: y, y: x },
    }
}

/// The edge at `x1`, along the rows.
fn first_edge(piece: &Piece) -> Edge
    ensures { result ≡ first_edge piece.now }
{
    Edge {
        start: point_on(piece.axis, piece.x1, piece.y0),
        end: point_on(piece.axis, piece.x1, piece.y1),
    }
}

/// The edge at `x2`, back along the rows.
fn second_edge(piece: &Piece) -> Edge
    ensures { result ≡ second_edge piece.now }
{
    Edge {
        start: point_on(piece.axis, piece.x2, piece.y1),
        end: point_on(piece.axis, piece.x2, piece.y0),
    }
}

/// Writes a point.
#[tactic(auto, unfolding(crate::specs::Report::point_text))]
pub(crate) fn put_point<W: Write>(writer: &mut W, point: Point) -> io::Result<()>
    ensures { Adds W.contents writer.old writer.new result (point_text point) }
{
    put_micrometres(writer, point.x)?;
    put(writer, &[","])?;
    put_micrometres(writer, point.y)
}

/// Writes an edge.
#[tactic(auto, unfolding(crate::specs::Report::edge_text))]
fn put_edge<W: Write>(writer: &mut W, edge: Edge) -> io::Result<()>
    ensures { Adds W.contents writer.old writer.new result (edge_text edge) }
{
    put(writer, &["("])?;
    put_point(writer, edge.start)?;
    put(writer, &[";"])?;
    put_point(writer, edge.end)?;
    put(writer, &[")"])
}

/// Writes a marker's pair of edges.
#[tactic(auto, unfolding(crate::specs::Report::pair_text))]
pub(crate) fn put_pair<W: Write>(writer: &mut W, piece: &Piece) -> io::Result<()>
    ensures { Adds W.contents writer.old writer.new result (pair_text piece.now) }
{
    put(writer, &["edge-pair: "])?;
    put_edge(writer, first_edge(piece))?;
    put(writer, &["|"])?;
    put_edge(writer, second_edge(piece))
}
