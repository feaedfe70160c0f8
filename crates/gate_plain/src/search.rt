//! The markers of a picture, square by square: each pair of edges in each row is tested by the definition of its check.

use crate::picture::Picture;
use mpw_deck::{Check, Rule};
use mpw_geom::Box2;
use std::alloc::{AllocError, Global};

/// A row with a pair of edges that a rule finds too near, by the order of markers: the rule, the axis (0 is `V`, 1 `H`), the side, both edges, and the row.
type Step = (u32, u8, u8, i64, i64, i64);

/// A maximal run of rows, from `y0` to before `y1`, with the submissions that it touches.
#[derive(Drop)]
pub struct PlainMarker {
    /// The rule's index in the deck, from 0.
    pub rule: u32,
    /// Whether its edges are horizontal. Then its coordinates are exchanged.
    pub is_horizontal: bool,
    /// Which of its two kinds of pairs a rule of two layers found; 0 for other rules.
    pub side: u8,
    /// The first edge, in nm.
    pub x1: i64,
    /// The second edge, in nm.
    pub x2: i64,
    /// The first row, in nm.
    pub y0: i64,
    /// The row after the last one, in nm.
    pub y1: i64,
    /// The numbers of the submissions that it touches, ascending, each once.
    pub met: Vec<u32>,
}

/// A picture, or one with the coordinates exchanged.
#[derive(Clone, Copy)]
struct View<'a> {
    picture: &'a Picture,
    axis: u8,
}

impl View<'_> {
    fn has(&self, layer: u16, x: i64, row: i64) -> bool {
        if self.axis == 0 {
            self.picture.has(layer, x, row)
        } else {
            self.picture.has(layer, row, x)
        }
    }

    fn rises(&self, layer: u16, x: i64, row: i64) -> bool {
        self.has(layer, x, row) && !self.has(layer, x.wrapping_sub(1), row)
    }

    fn falls(&self, layer: u16, x: i64, row: i64) -> bool {
        !self.has(layer, x, row) && self.has(layer, x.wrapping_sub(1), row)
    }

    fn layers(&self, x: i64, row: i64) -> u8 {
        if self.axis == 0 {
            self.picture.layers(x, row)
        } else {
            self.picture.layers(row, x)
        }
    }

    /// Whether a layer has an edge there.
    fn has_edge(&self, x: i64, row: i64) -> bool {
        self.layers(x, row) != self.layers(x.wrapping_sub(1), row)
    }

    /// The places where edges may be, as columns and rows.
    fn reach(&self) -> Box2 {
        let Box2 { x0, y0, x1, y1 } = self.picture.reach();
        if self.axis == 0 {
            Box2 { x0, y0, x1, y1 }
        } else {
            Box2 {
                x0: y0,
                y0: x0,
                x1: y1,
                y1: x1,
            }
        }
    }

    fn is_covered(&self, layer: u16, x1: i64, x2: i64, row: i64) -> bool {
        for x in x1..x2 {
            if !self.has(layer, x, row) {
                return false;
            }
        }
        true
    }

    /// Whether the check pairs the edges at `x1` and `x2` on that side.
    fn is_pair(&self, check: Check, side: u8, x1: i64, x2: i64, row: i64) -> bool {
        match check {
            Check::Width(a) => {
                let (a, first) = (a.layer, side == 0 && x1 < x2);
                first
                    && self.rises(a, x1, row)
                    && self.falls(a, x2, row)
                    && self.is_covered(a, x1, x2, row)
            }
            Check::Space(a) => {
                let (a, first) = (a.layer, side == 0 && x1 < x2);
                first && self.falls(a, x1, row) && self.rises(a, x2, row)
            }
            Check::Separation(a, b) => {
                let (from, to) = if side == 0 { (a, b) } else { (b, a) };
                self.falls(from.layer, x1, row) && self.rises(to.layer, x2, row)
            }
            Check::Enclosing(outer, inner) => {
                if side == 0 {
                    self.rises(outer.layer, x1, row) && self.rises(inner.layer, x2, row)
                } else {
                    self.falls(inner.layer, x1, row) && self.falls(outer.layer, x2, row)
                }
            }
        }
    }
}

/// A rule of a deck, and its index there.
#[derive(Clone, Copy)]
struct Placed<'a> {
    rule: &'a Rule,
    place: u32,
}

/// Adds the pairs of an edge.
fn add_pairs(
    steps: &mut Vec<Step>,
    view: View<'_>,
    placed: Placed<'_>,
    x1: i64,
    row: i64,
) -> Result<(), AllocError> {
    let (check, distance) = (placed.rule.check, i64::from(placed.rule.distance));
    for side in 0..2u8 {
        for x2 in x1..x1.saturating_add(distance) {
            if view.is_pair(check, side, x1, x2, row) {
                steps.push((placed.place, view.axis, side, x1, x2, row))?;
            }
        }
    }
    Ok(())
}

fn add_row(
    steps: &mut Vec<Step>,
    view: View<'_>,
    placed: Placed<'_>,
    row: i64,
) -> Result<(), AllocError> {
    let reach = view.reach();
    for x in reach.x0..reach.x1.saturating_add(1) {
        if view.has_edge(x, row) {
            add_pairs(steps, view, placed, x, row)?;
        }
    }
    Ok(())
}

/// Adds the rows of a rule, on both axes.
fn add_rule(
    steps: &mut Vec<Step>,
    picture: &Picture,
    placed: Placed<'_>,
) -> Result<(), AllocError> {
    for axis in 0..2u8 {
        let view = View { picture, axis };
        let reach = view.reach();
        for row in reach.y0..reach.y1 {
            add_row(steps, view, placed, row)?;
        }
    }
    Ok(())
}

/// Whether a closed square of the submission shares a point with the closed box.
fn meets(picture: &Picture, origin: u32, area: &Box2) -> bool {
    for x in area.x0.saturating_sub(1)..area.x1.saturating_add(1) {
        for y in area.y0.saturating_sub(1)..area.y1.saturating_add(1) {
            if picture.is_of(origin, x, y) {
                return true;
            }
        }
    }
    false
}

impl PlainMarker {
    /// A run of one row, which touches no submission yet.
    fn of(alloc: Global, step: &Step) -> PlainMarker {
        let (rule, axis, side, x1, x2, row) = *step;
        PlainMarker {
            rule,
            is_horizontal: axis == 1,
            side,
            x1,
            x2,
            y0: row,
            y1: row.saturating_add(1),
            met: Vec::new(alloc),
        }
    }

    /// The box from the first edge to the second, as it lies.
    fn area(&self) -> Box2 {
        if self.is_horizontal {
            Box2 {
                x0: self.y0,
                y0: self.x1,
                x1: self.y1,
                y1: self.x2,
            }
        } else {
            Box2 {
                x0: self.x1,
                y0: self.y0,
                x1: self.x2,
                y1: self.y1,
            }
        }
    }

    /// Whether the step continues the run. Then the run has it.
    fn takes(&mut self, step: &Step) -> bool {
        let (rule, axis, side, x1, x2, row) = *step;
        let goes_on = self.rule == rule
            && self.is_horizontal == (axis == 1)
            && self.side == side
            && self.x1 == x1
            && self.x2 == x2
            && self.y1 == row;
        if goes_on {
            self.y1 = row.saturating_add(1);
        }
        goes_on
    }

    /// Notes the submissions that the run touches, ascending.
    fn find_met(&mut self, picture: &Picture) -> Result<(), AllocError> {
        let area = self.area();
        for origin in 0..6u32 {
            if meets(picture, origin, &area) {
                self.met.push(origin)?;
            }
        }
        Ok(())
    }
}

/// Whether the last run goes on with a step.
fn is_taken(runs: &mut Vec<PlainMarker>, step: &Step) -> bool {
    match runs.last_mut() {
        Some(run) => run.takes(step),
        None => false,
    }
}

/// The maximal runs of rows of steps in order.
fn runs(alloc: Global, steps: &[Step]) -> Result<Vec<PlainMarker>, AllocError> {
    let mut runs: Vec<PlainMarker> = Vec::new(alloc);
    for step in steps {
        if !is_taken(&mut runs, step) {
            runs.push(PlainMarker::of(alloc, step))?;
        }
    }
    Ok(runs)
}

/// The steps of the rules, in order.
fn steps_of(alloc: Global, picture: &Picture, rules: &[Rule]) -> Result<Vec<Step>, AllocError> {
    let mut steps = Vec::new(alloc);
    let mut place = 0u32;
    for rule in rules {
        add_rule(&mut steps, picture, Placed { rule, place })?;
        place = place.saturating_add(1);
    }
    steps.sort()?;
    Ok(steps)
}

/// The markers of the rules, in order. Cost: a pass over all squares for each rule and axis.
///
/// # Errors
/// Out of memory.
pub fn plain_markers(
    alloc: Global,
    picture: &Picture,
    rules: &[Rule],
) -> Result<Vec<PlainMarker>, AllocError> {
    let steps = steps_of(alloc, picture, rules)?;
    let mut runs = runs(alloc, &steps)?;
    for run in &mut runs {
        run.find_met(picture)?;
    }
    Ok(runs)
}
