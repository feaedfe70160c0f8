//! A structure that a walk has entered.

ghost use Rattle.std.specs.Prelude.{◌≡◌, ◌<◌, ◌≤◌, ◌+◌, ◌-◌, ◌+ℤ◌, ◌*ℤ◌, pos, false, length, slice_get, slice_index, option_map, IfSome, IfNone, Some, None};
ghost use Rattle.mpw_structures.specs.Element.{IsReference};
ghost use Rattle.mpw_hier.specs.Boxes.{placed_box};
ghost use Rattle.mpw_hier.specs.Sizes.{IsExtentNear};
ghost use Rattle.mpw_walk.specs.Window.{do_meet, is_in};
ghost use Rattle.mpw_walk.specs.Internal.Skips.{behind_rows, behind_columns, Skips};
ghost use Rattle.mpw_hier.specs.Items.{instance, stepped};
ghost use Rattle.mpw_hier.specs.Nodes.{AreNodes};
ghost use Rattle.mpw_walk.specs.Frames.{IsFrame, IsShort, IsWithin};
ghost use Rattle.mpw_walk.specs.Internal.Frames.{IsFront, ShowsName, IsNext, IsShape, HasReference, IsNearArray, behind_instance};

use crate::fit::placed_box;
use crate::laws::names_are_walked;
use crate::root::Placed;
use crate::skip::{columns_missed, rows_missed};
use mpw_geom::{Box2, Orient, Placing, Point};
use mpw_hier::{Node, Shelf, Target};
use mpw_structures::{Element, Reference};

const HERE: Placing = Placing {
    orient: Orient::R0,
    by: Point { x: 0, y: 0 },
};

/// A structure that a walk has entered, and the walk's position in it.
#[derive(Clone, Copy)]
pub struct Frame<'a> {
    /// The submission, by number, and its nodes.
    pub submission: u32,
    /// The nodes of that submission, each after those that it places. The top is last.
    pub nodes: &'a [Node],
    /// The structure's node and its elements.
    pub node: &'a Node,
    /// The elements of the structure in file order, including references.
    pub elements: &'a [Element],
    /// The placing of the structure.
    pub placing: Placing,
    /// The next shape of the node.
    pub shape: usize,
    /// The child of the node whose instances come next.
    pub child: usize,
    /// The next instance's row, from 0.
    pub row: u16,
    /// The next instance's column, from 0; it runs faster than the row.
    pub column: u16,
}

/// The coordinate `count` steps after another.
fn coordinate_after(from: i64, count: u16, step: i64) -> i64
    requires from { IsShort from }
    requires to { IsShort (from +ℤ (pos count *ℤ step)) }
    ensures { result ≡ from +ℤ (pos count *ℤ step) }
{
    from + i64::from(count) * step
}

/// The point `count` steps after another.
fn point_after(point: Point, count: u16, step: Point) -> Point
    requires from { IsWithin point }
    requires to { IsWithin (stepped point count step) }
    ensures { result ≡ stepped point count step }
{
    Point {
        x: coordinate_after(point.x, count, step.x),
        y: coordinate_after(point.y, count, step.y),
    }
}

/// The placing of the instance in a row and a column.
pub fn instance(reference: &Reference, row: u16, column: u16) -> Placing
    requires row { row < reference.now.rows }
    requires column { column < reference.now.columns }
    requires near { IsNearArray reference.now }
    ensures { result ≡ instance reference.now row column }
{
    let first = point_after(reference.origin, column, reference.column_step);
    Placing {
        orient: reference.orient,
        by: point_after(first, row, reference.row_step),
    }
}

impl<'a> Frame<'a> {
    /// The structure of a node before its first turn, in its own coordinates.
    fn front(shelf: &'a Shelf, submission: u32, nodes: &'a [Node], place: usize) -> Frame<'a>
        requires nodes { AreNodes shelf.now submission nodes.now }
        requires place { place < length nodes.now }
        ensures { IsFront shelf.now submission nodes.now place result }
    {
        let from = shelf.get(submission).unwrap();
        let structures = from.library.structures();
        let node = nodes.get(place).unwrap();
        let structure = structures.get(node.structure).unwrap();
        Frame {
            submission,
            nodes,
            node,
            elements: structure.elements.as_slice(),
            placing: HERE,
            shape: 0,
            child: 0,
            row: 0,
            column: 0,
        }
    }

    /// The top of a submission before its first turn, in its own coordinates.
    pub fn top(shelf: &'a Shelf, submission: u32) -> Frame<'a>
        requires { submission < length shelf.now }
        ensures shows { ShowsName shelf.now submission (λ s. s.top) result }
        ensures low { result.node.now.size.height ≤ 64 }
    {
        names_are_walked();
        let nodes = shelf.nodes(submission).unwrap();
        Frame::front(shelf, submission, nodes, nodes.len() - 1)
    }

    /// What the frame places next, before its first turn, in its own coordinates.
    pub fn target(&self, shelf: &'a Shelf, target: Target, reference: &Reference) -> Frame<'a>
        requires frame { IsFrame shelf.now self.now }
        requires next { IsNext self.now target reference.now }
        ensures { ShowsName shelf.now self.now.submission (λ _. reference.now.name) result }
    {
        names_are_walked();
        match target {
            Target::Own(place) => Frame::front(shelf, self.submission, self.nodes, place),
            Target::Outer(number) => Frame::top(shelf, number),
        }
    }

    /// The next shape, placed.
    pub fn placed_element(&self) -> Placed<'a>
        requires shape { self.now.shape < length self.now.node.now.shapes }
        requires place { slice_index self.now.node.now.shapes self.now.shape < length self.now.elements.now }
        ensures { IsShape self.now result }
    {
        Placed {
            origin: self.submission,
            placing: self.placing,
            element: self.elements.get(self.node.shapes.at(self.shape)).unwrap(),
        }
    }

    /// The reference whose instances come next, and what it places. `None` after the last.
    pub fn reference(&self) -> Option<(Target, &'a Reference)>
        requires { HasReference self.now }
        ensures some { IfSome result (λ next. IsNext self.now next.0 next.1.now) }
        ensures none { IfNone result (slice_get self.now.node.now.children.items self.now.child ≡ None) }
    {
        let child = self.node.children.get(self.child)?;
        match self.elements.get(child.element).unwrap() {
            Element::Reference(reference) => Some((child.target, reference.get())),
            _ => None,
        }
    }

    /// The frame after the next instance, which is one of the reference.
    pub fn behind_instance(&self, reference: &Reference) -> Frame<'a>
        requires child { self.now.child < length self.now.node.now.children.items }
        requires row { self.now.row < reference.now.rows }
        requires column { self.now.column < reference.now.columns }
        ensures { result ≡ behind_instance self.now reference.now }
    {
        self.behind_columns(reference, 1)
    }

    /// The frame after `rows` rows, beginning with that of the next instance.
    fn behind_rows(&self, reference: &Reference, rows: u16) -> Frame<'a>
        requires child { self.now.child < length self.now.node.now.children.items }
        requires rows { self.now.row + rows ≤ reference.now.rows }
        ensures { result ≡ behind_rows self.now reference.now rows }
    {
        let all = reference.rows;
        let row = self.row + rows;
        if row < all {
            return Frame {
                row,
                column: 0,
                ..*self
            };
        }
        Frame {
            child: self.child + 1,
            row: 0,
            column: 0,
            ..*self
        }
    }

    /// The frame after `columns` columns of a row, beginning with that of the next instance.
    fn behind_columns(&self, reference: &Reference, columns: u16) -> Frame<'a>
        requires child { self.now.child < length self.now.node.now.children.items }
        requires row { self.now.row < reference.now.rows }
        requires columns { self.now.column + columns ≤ reference.now.columns }
        ensures { result ≡ behind_columns self.now reference.now columns }
    {
        let all = reference.columns;
        let column = self.column + columns;
        if column < all {
            return Frame { column, ..*self };
        }
        self.behind_rows(reference, 1)
    }

    /// The frame after the next instance, whose box misses the window, and after the following ones that miss the window too, as
    /// far as a division finds them: rows if the columns lead along one axis only, else columns of the row.
    fn behind_box(&self, reference: &Reference, there: Box2, window: Box2) -> Frame<'a>
        requires child { self.now.child < length self.now.node.now.children.items }
        requires row { self.now.row < reference.now.rows }
        requires column { self.now.column < reference.now.columns }
        requires reference { IsReference reference.now }
        requires missed { do_meet there window ≡ false }
        ensures { Skips self.now reference.now (Some there) (Some window) result }
    {
        let across = self.placing.orient.apply(reference.column_step);
        let up = self.placing.orient.apply(reference.row_step);
        let rows = rows_missed(there, window, across, up, reference.rows - self.row);
        if rows > 0 {
            return self.behind_rows(reference, rows);
        }
        let columns = columns_missed(there, window, across, reference.columns - self.column);
        self.behind_columns(reference, columns.max(1))
    }

    /// The frame after the next instance, which misses the window, and after the following ones that miss it by division.
    pub fn behind_missed(
        &self,
        reference: &Reference,
        window: Option<Box2>,
        placing: Placing,
        extent: Option<Box2>,
    ) -> Frame<'a>
        requires child { self.now.child < length self.now.node.now.children.items }
        requires row { self.now.row < reference.now.rows }
        requires column { self.now.column < reference.now.columns }
        requires reference { IsReference reference.now }
        requires near { IsExtentNear extent }
        requires short { IsWithin placing.by }
        requires missed { is_in window (option_map (placed_box placing) extent) ≡ false }
        ensures { Skips self.now reference.now (option_map (placed_box placing) extent) window result }
    {
        let Some(extent) = extent else {
            return self.behind_instance(reference);
        };
        let Some(window) = window else {
            return self.behind_instance(reference);
        };
        self.behind_box(reference, placed_box(placing, extent), window)
    }
}
