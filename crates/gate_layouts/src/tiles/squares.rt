//! Windows compared square by square with a plain flattening.

use crate::tiles::plans::deck;
use anyhow::{Context, Result};
use gate_plain::{Cell, Shown, flat_list, layer, layout, placed, roots, squares_of};
use gate_words::Random;
use mpw_geom::{Box2, Layer};
use mpw_hier::Shelf;
use mpw_tiles::{Plan, Rectangle, Snapshot, Window, cut};
use mpw_walk::Root;
use std::alloc::Global;

/// The sides of tiles, with a rule's distance each.
const SIDES: [(&str, &str); 5] = [
    ("256", "1"),
    ("300", "17"),
    ("421", "300"),
    ("777", "40"),
    ("5000", "5"),
];

/// A shape's layer and origin, with its squares and a box that has them.
#[derive(Drop)]
struct Painted {
    layer: Layer,
    origin: u32,
    squares: Vec<Cell>,
    reach: Box2,
}

fn is_in(area: &Box2, cell: Cell) -> bool {
    area.x0 <= cell.x && cell.x < area.x1 && area.y0 <= cell.y && cell.y < area.y1
}

/// A box that has the squares.
fn reach(squares: &[Cell]) -> Box2 {
    let mut reach = Box2 {
        x0: i64::MAX,
        y0: i64::MAX,
        x1: i64::MIN,
        y1: i64::MIN,
    };
    for cell in squares {
        reach = Box2 {
            x0: reach.x0.min(cell.x),
            y0: reach.y0.min(cell.y),
            x1: reach.x1.max(cell.x.saturating_add(1)),
            y1: reach.y1.max(cell.y.saturating_add(1)),
        };
    }
    reach
}

/// The squares of a shape.
fn paint(alloc: Global, shown: &Shown<'_>) -> Result<Painted> {
    let layer = layer(shown.element).context("a shape")?;
    let squares = squares_of(alloc, shown)?;
    Ok(Painted {
        layer,
        origin: shown.origin,
        reach: reach(&squares),
        squares,
    })
}

/// The squares of shapes.
fn paint_all(alloc: Global, list: &[Shown<'_>]) -> Result<Vec<Painted>> {
    let mut all = Vec::new(alloc);
    for shown in list {
        all.push(paint(alloc, shown)?)?;
    }
    Ok(all)
}

impl Painted {
    /// Whether a rectangle is of the shape's layer and submission.
    fn is_of(&self, rectangle: &Rectangle) -> bool {
        self.layer == rectangle.layer && self.origin == rectangle.origin
    }

    /// Whether a window lists a square of the shape.
    fn is_listed(&self, window: &Window, cell: Cell) -> bool {
        for rectangle in window.as_slice() {
            if self.is_of(rectangle) && is_in(&rectangle.area, cell) {
                return true;
            }
        }
        false
    }

    /// Whether a window lists all squares of the shape in its area.
    fn are_listed(&self, area: &Box2, window: &Window) -> bool {
        for cell in &self.squares {
            if is_in(area, *cell) && !self.is_listed(window, *cell) {
                return false;
            }
        }
        true
    }
}

/// Whether some shape of the rectangle's layer and origin has the square.
fn is_painted(painted: &[Painted], rectangle: &Rectangle, cell: Cell) -> bool {
    for shape in painted {
        if shape.is_of(rectangle) && is_in(&shape.reach, cell) && shape.squares.contains(&cell) {
            return true;
        }
    }
    false
}

/// Whether each square of a listed rectangle in the window belongs to a shape.
fn is_shown(painted: &[Painted], window: &Box2, rectangle: &Rectangle) -> bool {
    let area = &rectangle.area;
    for x in area.x0.max(window.x0)..area.x1.min(window.x1) {
        for y in area.y0.max(window.y0)..area.y1.min(window.y1) {
            if !is_painted(painted, rectangle, Cell { x, y }) {
                return false;
            }
        }
    }
    true
}

/// Whether a window lists exactly the squares of the shapes in its area.
fn is_right(painted: &[Painted], area: &Box2, window: &Window) -> bool {
    for shape in painted {
        if !shape.are_listed(area, window) {
            return false;
        }
    }
    for rectangle in window.as_slice() {
        if !is_shown(painted, area, rectangle) {
            return false;
        }
    }
    true
}

/// Whether the windows have exactly the squares of the shapes.
fn are_right(painted: &[Painted], plan: &Plan, windows: &[Window]) -> bool {
    for tile in 0..plan.tiles() {
        let Some(window) = windows.get(tile as usize) else {
            return false;
        };
        if !is_right(painted, &plan.window(tile), window) {
            return false;
        }
    }
    windows.len() == plan.tiles() as usize
}

/// Whether the windows that the snapshot is cut into have exactly the squares of the shapes.
fn is_cut_right(alloc: Global, snapshot: &Snapshot, painted: &[Painted]) -> Result<bool> {
    let plan = snapshot.plan().context("a plan")?;
    let windows = cut(alloc, snapshot)?;
    Ok(are_right(painted, &plan, windows.as_slice()))
}

/// Whether the windows of placed submissions under a side are right.
fn is_side_right(
    alloc: Global,
    shelf: &Shelf,
    roots: &[Root],
    painted: &[Painted],
    side: (&str, &str),
) -> Result<bool> {
    let deck = deck(alloc, side.0, side.1)?;
    let snapshot = placed(alloc, deck, shelf, roots)?;
    is_cut_right(alloc, &snapshot, painted)
}

/// For how many sides the windows of placed submissions differ from their flat list.
fn differing(alloc: Global, shelf: &Shelf, roots: &[Root]) -> Result<u32> {
    let painted = paint_all(alloc, &flat_list(alloc, shelf, roots)?)?;
    let mut different = 0u32;
    for side in SIDES {
        if !is_side_right(alloc, shelf, roots, &painted, side)? {
            different = different.saturating_add(1);
        }
    }
    Ok(different)
}

/// For how many sides the windows of a random layout differ from its flat list.
fn compare(alloc: Global, random: &mut Random) -> Result<u32> {
    let roots = roots(alloc, random)?;
    let shelf = layout(alloc, random)?;
    differing(alloc, &shelf, &roots)
}

/// Cuts that many random layouts by each side, and prints how many differ.
pub fn compared(rt: &HostRuntime, count: u32) -> Result<()> {
    let mut random = Random::new(11);
    let mut different = 0u32;
    for _ in 0..count {
        different = different.saturating_add(compare(rt.alloc(), &mut random)?);
    }
    Ok(println!(rt; "    {count} layouts by 5 sides, {different} differ")?)
}
