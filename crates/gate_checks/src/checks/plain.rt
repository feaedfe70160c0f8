//! The plain implementation, as a second opinion: bands between all borders, and every edge with every edge.

use crate::checks::drawn::{Drawn, Search, exchanged_box};
use mpw_deck::Check;
use mpw_edges::{Axis, Piece};
use mpw_geom::Box2;
use mpw_region::{Line, Run};
use std::alloc::{AllocError, Global};

/// The vertical edges on one side of stretches of rows: of each row `first`, up to before `second`, from `from` to `to`.
#[derive(Clone, Copy)]
struct Edges<'a> {
    rows: &'a [Run],
    are_high: bool,
}

/// An edge at `x` through the rows from `y0` to before `y1`.
#[derive(Clone, Copy)]
struct Edge {
    x: i64,
    y0: i64,
    y1: i64,
}

fn rises(rows: &[Run]) -> Edges<'_> {
    Edges {
        rows,
        are_high: false,
    }
}

fn falls(rows: &[Run]) -> Edges<'_> {
    Edges {
        rows,
        are_high: true,
    }
}

impl Edges<'_> {
    fn edge(&self, row: &Run) -> Edge {
        Edge {
            x: if self.are_high { row.to } else { row.from },
            y0: row.line.first,
            y1: row.line.second,
        }
    }
}

/// Whether the last run takes another one, which overlaps or touches it on its line.
fn is_taken(runs: &mut Vec<Run>, run: &Run) -> bool {
    let Some(last) = runs.last_mut() else {
        return false;
    };
    let is_taken = last.line == run.line && run.from <= last.to;
    if is_taken {
        last.to = last.to.max(run.to);
    }
    is_taken
}

/// The runs, with those joined that overlap or touch on a line.
fn in_one(alloc: Global, runs: &mut Vec<Run>) -> Result<Vec<Run>, AllocError> {
    runs.sort()?;
    let mut made = Vec::new(alloc);
    for run in runs.as_slice() {
        if !is_taken(&mut made, run) {
            made.push(*run)?;
        }
    }
    Ok(made)
}

/// Adds the columns of each box that has the rows.
fn add_columns(runs: &mut Vec<Run>, boxes: &[Box2], y0: i64, y1: i64) -> Result<(), AllocError> {
    let line = Line {
        side: 0,
        first: y0,
        second: y1,
    };
    for b in boxes {
        if b.y0 <= y0 && y1 <= b.y1 && b.x0 < b.x1 {
            let (from, to) = (b.x0, b.x1);
            runs.push(Run { line, from, to })?;
        }
    }
    Ok(())
}

/// The borders of the boxes' rows, in order.
fn borders(alloc: Global, boxes: &[Box2]) -> Result<Vec<i64>, AllocError> {
    let mut rows = Vec::new(alloc);
    for b in boxes {
        rows.extend_from_slice(&[b.y0, b.y1])?;
    }
    rows.sort()?;
    Ok(rows)
}

/// The columns of the boxes between each border and the next one.
fn all_columns(alloc: Global, boxes: &[Box2]) -> Result<Vec<Run>, AllocError> {
    let mut runs = Vec::new(alloc);
    let mut below = i64::MAX;
    for y in &borders(alloc, boxes)? {
        if below < *y {
            add_columns(&mut runs, boxes, below, *y)?;
        }
        below = *y;
    }
    Ok(runs)
}

/// The squares of the boxes, cut at each border of a row.
fn cut(alloc: Global, boxes: &[Box2]) -> Result<Vec<Run>, AllocError> {
    in_one(alloc, &mut all_columns(alloc, boxes)?)
}

impl Search {
    /// Adds the rows of two edges, if they are nearer than the distance.
    fn add_run(
        &self,
        runs: &mut Vec<Run>,
        side: u8,
        from: &Edge,
        to: &Edge,
    ) -> Result<(), AllocError> {
        let near = to.x.saturating_sub(from.x) < i64::from(self.distance);
        let within = self.core.x0 <= from.x && from.x < self.core.x1;
        let y0 = from.y0.max(to.y0).max(self.core.y0);
        let y1 = from.y1.min(to.y1).min(self.core.y1);
        if near && within && y0 < y1 {
            runs.push(Run {
                line: Line {
                    side,
                    first: from.x,
                    second: to.x,
                },
                from: y0,
                to: y1,
            })?;
        }
        Ok(())
    }

    /// Adds the rows of each edge of the first list with each of the second after it, or at it if touching counts.
    fn add(
        &self,
        runs: &mut Vec<Run>,
        side: u8,
        froms: Edges<'_>,
        tos: Edges<'_>,
    ) -> Result<(), AllocError> {
        let touching = !matches!(self.check, Check::Space(_));
        for row in froms.rows {
            let from = froms.edge(row);
            for row in tos.rows {
                let to = tos.edge(row);
                if from.x < to.x || touching && from.x == to.x {
                    self.add_run(runs, side, &from, &to)?;
                }
            }
        }
        Ok(())
    }

    /// Adds the rows of the edges of each stretch.
    fn add_widths(&self, runs: &mut Vec<Run>, rows: &[Run]) -> Result<(), AllocError> {
        for row in rows {
            let (from, to) = (rises(rows).edge(row), falls(rows).edge(row));
            self.add_run(runs, 0, &from, &to)?;
        }
        Ok(())
    }

    /// Adds the runs between vertical edges of two layers.
    fn add_all(&self, runs: &mut Vec<Run>, a: &[Run], b: &[Run]) -> Result<(), AllocError> {
        match self.check {
            Check::Width(_) => self.add_widths(runs, a),
            Check::Space(_) => self.add(runs, 0, falls(a), rises(a)),
            Check::Separation(..) => {
                self.add(runs, 0, falls(a), rises(b))?;
                self.add(runs, 1, falls(b), rises(a))
            }
            Check::Enclosing(..) => {
                self.add(runs, 0, rises(a), rises(b))?;
                self.add(runs, 1, falls(b), falls(a))
            }
        }
    }

    /// The runs between vertical edges.
    fn runs(&self, alloc: Global, drawn: &Drawn) -> Result<Vec<Run>, AllocError> {
        let a = cut(alloc, &drawn.first)?;
        let b = cut(alloc, &drawn.second)?;
        let mut runs = Vec::new(alloc);
        self.add_all(&mut runs, &a, &b)?;
        in_one(alloc, &mut runs)
    }

    /// The same search with the coordinates exchanged.
    fn exchanged(&self) -> Search {
        Search {
            check: self.check,
            distance: self.distance,
            core: exchanged_box(&self.core),
        }
    }

    /// Adds the pieces between horizontal edges.
    fn add_horizontal(
        &self,
        alloc: Global,
        pieces: &mut Vec<Piece>,
        drawn: &Drawn,
    ) -> Result<(), AllocError> {
        let drawn = drawn.exchanged(alloc)?;
        add_pieces(pieces, Axis::H, &self.exchanged().runs(alloc, &drawn)?)
    }

    /// The pieces of both axes.
    pub fn pieces(&self, alloc: Global, drawn: &Drawn) -> Result<Vec<Piece>, AllocError> {
        let mut pieces = Vec::new(alloc);
        add_pieces(&mut pieces, Axis::V, &self.runs(alloc, drawn)?)?;
        self.add_horizontal(alloc, &mut pieces, drawn)?;
        Ok(pieces)
    }
}

/// Adds the runs as pieces of an axis.
fn add_pieces(pieces: &mut Vec<Piece>, axis: Axis, runs: &[Run]) -> Result<(), AllocError> {
    for r in runs {
        pieces.push(Piece {
            axis,
            side: r.line.side,
            x1: r.line.first,
            x2: r.line.second,
            y0: r.from,
            y1: r.to,
        })?;
    }
    Ok(())
}

/// The runs of the pieces of an axis.
fn runs_on(alloc: Global, pieces: &[Piece], axis: Axis) -> Result<Vec<Run>, AllocError> {
    let mut runs = Vec::new(alloc);
    for p in pieces {
        if p.axis == axis {
            let line = Line {
                side: p.side,
                first: p.x1,
                second: p.x2,
            };
            let (from, to) = (p.y0, p.y1);
            runs.push(Run { line, from, to })?;
        }
    }
    Ok(runs)
}

/// The pieces that two neighbouring cores cut, joined again.
pub fn rejoined(alloc: Global, cut: &[Piece]) -> Result<Vec<Piece>, AllocError> {
    let mut pieces = Vec::new(alloc);
    for axis in [Axis::V, Axis::H] {
        let runs = in_one(alloc, &mut runs_on(alloc, cut, axis)?)?;
        add_pieces(&mut pieces, axis, &runs)?;
    }
    Ok(pieces)
}
