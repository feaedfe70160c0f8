//! The entries of a layout as a core sees them.

use crate::cutting::Core;
use crate::room::{Room, Span, seen_box, seen_step, seen_where_placed, span_of};
use mpw_columns_contents::{Array, Contents, Shape, Thing};
use mpw_geom::{Box2, Point};
use mpw_hier::{Node, Shelf};

/// A step of length 0.
const STILL: Point = Point { x: 0, y: 0 };

/// A core, and the nodes of a shelf's first submission.
#[derive(Clone, Copy)]
pub(crate) struct View<'a> {
    /// The core.
    pub core: Core,
    nodes: &'a [Node],
}

impl<'a> View<'a> {
    /// The first submission of a shelf as a core sees it.
    pub fn of(shelf: &'a Shelf, core: &Core) -> Option<View<'a>> {
        Some(View {
            core: *core,
            nodes: shelf.nodes(0)?,
        })
    }

    /// The interval of the core along y, or along x.
    pub fn span(&self, are_rows: bool) -> Span {
        span_of(&self.core.area, are_rows)
    }

    /// The distance of lines from an instance: along x where the core's window no longer touches it, and along y at its edges.
    pub fn margin(&self, are_rows: bool) -> i64 {
        if are_rows { 0 } else { self.core.margin }
    }

    /// How far inside an instance a line may cross it.
    pub fn slack(&self) -> i64 {
        self.core.margin.saturating_mul(4)
    }

    /// How many flat shapes each instance of an array has.
    pub fn shown_by_each(&self, array: &Array) -> u64 {
        self.nodes.get(array.node).map_or(0, |node| node.size.count)
    }

    /// How many shapes and references the structure of an array has itself.
    pub fn own_of_each(&self, array: &Array) -> u64 {
        match self.nodes.get(array.node) {
            Some(node) => { (node.shapes.len() as u64).saturating_add(node.children.len() as u64) }
            None => 0,
        }
    }

    /// The position of a shape.
    fn shape_room(&self, shape: &Shape) -> Option<Room> {
        Some(Room {
            first: seen_box(self.core.axis, shape.area?),
            columns: 1,
            rows: 1,
            column_step: STILL,
            row_step: STILL,
        })
    }

    /// The positions of the instances of an array.
    pub fn array_room(&self, array: &Array) -> Option<Room> {
        let extent = self.nodes.get(array.node)?.size.extent?;
        let axis = self.core.axis;
        let first = seen_where_placed(axis, array.first, extent)?;
        Some(Room {
            first,
            columns: array.columns,
            rows: array.rows,
            column_step: seen_step(axis, array.column_step),
            row_step: seen_step(axis, array.row_step),
        })
    }

    /// The positions of the instances of an entry. `None` if it is a shape.
    pub fn instance_room(&self, thing: &Thing) -> Option<Room> {
        match thing {
            Thing::Array(array) => self.array_room(array),
            Thing::Shape(_) => None,
        }
    }

    /// The position of an entry.
    pub fn room(&self, thing: &Thing) -> Option<Room> {
        match thing {
            Thing::Array(array) => self.array_room(array),
            Thing::Shape(shape) => self.shape_room(shape),
        }
    }

    /// Whether more than half of a box lies in the core.
    pub fn is_mostly_inside(&self, b: &Box2) -> bool {
        let inside = self.core.area.intersection(*b);
        if inside.x0 >= inside.x1 || inside.y0 >= inside.y1 {
            return false;
        }
        area_of(&inside) > area_of(b) / 2
    }
}

/// An estimate of how many flat shapes entries of a shelf's first submission have. Cost: linear in their number. Takes no memory.
pub fn shown_by(shelf: &Shelf, contents: &Contents) -> u64 {
    let Some(nodes) = shelf.nodes(0) else {
        return 0;
    };
    let mut shown = 0u64;
    for thing in contents.things() {
        let more = match thing {
            Thing::Shape(_) => 1,
            Thing::Array(array) => shown_by_array(nodes, array),
        };
        shown = shown.saturating_add(more);
    }
    shown
}

/// An estimate of how many flat shapes the instances of an array have.
fn shown_by_array(nodes: &[Node], array: &Array) -> u64 {
    nodes
        .get(array.node)
        .map_or(0, |node| node.size.count)
        .saturating_mul(u64::from(array.columns))
        .saturating_mul(u64::from(array.rows))
}

/// The area of a box.
fn area_of(b: &Box2) -> u64 {
    span_of(b, false)
        .length()
        .saturating_mul(span_of(b, true).length())
}
