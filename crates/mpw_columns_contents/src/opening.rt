//! Opens an array by one level: each instance that may touch the window is replaced by its structure's own shapes and by an array for each
//! of its children.

ghost use Rattle.std.specs.Prelude.{◌≡◌, ◌<◌, ◌≤◌, ◌++◌, ◌∷◌, [], length, map, slice_get, option_copied, Err, OnOk, IfOk, IfErr, IfSome, IfNone, IsTrue, Contains};
ghost use Rattle.std.specs.List.{flat_map};
ghost use Rattle.mpw_geom.specs.Plane.{IsInPlane};
ghost use Rattle.mpw_structures.specs.Element.{IsElement, IsReference};
ghost use Rattle.mpw_hier.specs.Items.{placed_item, placed_items, row_of};
ghost use Rattle.mpw_columns_contents.specs.Things.{drawn, element_at, element_in, place_shown, reference_of, thing_items};
ghost use Rattle.mpw_columns_contents.specs.Internal.Making.{IsLayout, HaveBoxes, IsNodeOf, IsArray, IsThing, LeadsTo, Adds, Shows};
ghost use Rattle.mpw_columns_contents.specs.Internal.Opening.{name_shown, as_reference, child_shown, structure_shapes, structure_children, instances_shown, IsMissed, IsPlacedReference};
ghost use Rattle.mpw_columns_contents.specs.Internal.Own.{own_window};
ghost use Rattle.mpw_columns_contents.specs.declared.stop.Stop.TheVariants.{Many, Memory};
ghost use Rattle.mpw_columns_contents.specs.declared.thing.Thing.TheVariants as variants;

use crate::fit::{area_of, fitted, is_area_met, is_own_met, may_meet};
use crate::laws::names_are_opened;
use crate::layout::{Layout, Opened};
use crate::own::own_window;
use crate::placed::{instance, is_in_plane};
use crate::stop::Stop;
use crate::thing::{Array, Shape, Thing};
use mpw_geom::{Box2, Placing};
use mpw_hier::{Child, Node, Shelf, Target, element_box};
use mpw_structures::{Element, Reference};

/// A window with only one point.
const NOWHERE: Box2 = Box2 {
    x0: 0,
    y0: 0,
    x1: 0,
    y1: 0,
};

/// No array is opened.
const NONE: Opened = Opened::Few {
    instances: 0,
    shapes: 0,
};

/// What the elements of a placed structure are compared with.
#[derive(Clone, Copy)]
struct Seen<'a> {
    /// The window in the structure's coordinates, if it is known.
    own: Option<Box2>,
    /// The boxes of the structure's elements; empty if they aren't stored.
    boxes: &'a [Option<Box2>],
}

impl Seen<'_> {
    /// Whether the element at an index is known to miss the window.
    fn is_missed(&self, place: usize) -> bool
        ensures { IsTrue result → IsMissed self.now place }
    {
        match self.boxes.get(place) {
            Some(Some(b)) => !is_own_met(*b, &self.own),
            _ => false,
        }
    }
}

/// The array that a reference places, when the reference's structure is placed itself.
fn placed_array(placing: Placing, reference: &Reference, place: usize, node: &Node) -> Array
    requires reference { IsReference reference.now }
    requires near { IsInPlane placing.by }
    ensures placed { IsPlacedReference placing reference.now (reference_of result) }
    ensures node { result.node ≡ place }
    ensures structure { result.structure ≡ node.now.structure }
{
    let first = Placing {
        orient: reference.orient,
        by: reference.origin,
    };
    Array {
        structure: node.structure,
        node: place,
        first: first.then(placing),
        columns: reference.columns,
        rows: reference.rows,
        column_step: placing.orient.apply(reference.column_step),
        row_step: placing.orient.apply(reference.row_step),
    }
}

/// The element that a shape is, in the library of a shelf's first submission, if there is one. Constant time.
pub fn element_of<'a>(shelf: &'a Shelf, shape: &Shape) -> Option<&'a Element>
    requires { 0 < length shelf.now }
    ensures is { option_copied result ≡ element_in shelf.now shape.now.structure shape.now.element }
    ensures read { IfSome result (λ e. IsElement e.now) }
{
    let layout = Layout::of(shelf, NOWHERE, 0, NONE, None);
    layout.element(shape.structure, shape.element)
}

impl<'a> Layout<'a> {
    /// The element at index `place` of a structure.
    fn element(&self, structure: usize, place: usize) -> Option<&'a Element>
        requires { IsLayout self.now }
        ensures is { option_copied result ≡ element_at (slice_get self.now.structures.now structure) place }
        ensures read { IfSome result (λ e. IsElement e.now) }
    {
        let structure = self.structures.get(structure)?;
        structure.elements.as_slice().get(place)
    }

    /// The reference at index `place` of a structure, if it is one.
    fn reference(&self, structure: usize, place: usize) -> Option<&'a Reference>
        requires { IsLayout self.now }
        ensures is { option_copied result ≡ as_reference (element_at (slice_get self.now.structures.now structure) place) }
        ensures read { IfSome result (λ r. IsReference r.now) }
    {
        match self.element(structure, place)? {
            Element::Reference(reference) => Some(reference.get()),
            Element::Boundary(_) | Element::Path(_) => None,
        }
    }

    /// Adds a copy of an entry.
    ///
    /// # Errors
    /// If there are already as many entries as the options allow; or out of memory.
    pub fn push(&self, thing: &Thing, things: &mut Vec<Thing>) -> Result<(), Stop>
        ensures added { OnOk result (things.new.items ≡ things.old.items ++ thing.now ∷ []) }
        ensures full { self.now.most ≤ length things.old.items → result ≡ Err Many }
        ensures fails { length things.old.items < self.now.most → IfErr result (λ stop. stop ≡ Memory) }
    {
        if things.len() >= self.most {
            return Err(Stop::Many);
        }
        things.push(*thing)?;
        Ok(())
    }

    /// Adds an element of a structure as a shape, if it exists and may touch the window.
    fn put_shape(
        &self,
        structure: usize,
        place: usize,
        placing: Placing,
        seen: &Seen<'_>,
        things: &mut Vec<Thing>,
    ) -> Result<(), Stop>
        requires layout { IsLayout self.now }
        requires near { IsInPlane placing.by }
        requires own { IfSome seen.now.own (λ own. own ≡ own_window placing self.now.window) }
        requires boxes { HaveBoxes self.now structure seen.now.boxes.now }
        ensures { OnOk result (Adds self.now (drawn placing (element_at (slice_get self.now.structures.now structure) place)) things.old.items things.new.items) }
    {
        if seen.is_missed(place) {
            return Ok(());
        }
        let Some(element) = self.element(structure, place) else {
            return Ok(());
        };
        let Some(extent) = element_box(element) else {
            return Ok(());
        };
        if !is_own_met(extent, &seen.own) {
            return Ok(());
        }
        let area = area_of(placing, extent);
        if !is_area_met(&area, &self.window) {
            return Ok(());
        }
        let shape = Shape {
            structure,
            element: place,
            placing,
            area,
        };
        self.push(&Thing::Shape(shape), things)
    }

    /// Adds the part of an array that may touch the window.
    ///
    /// # Errors
    /// The same as those of [`Layout::push`].
    pub fn put_array(&self, array: Array, things: &mut Vec<Thing>) -> Result<(), Stop>
        requires layout { IsLayout self.now }
        requires array { IsArray self.now.nodes.now array }
        ensures { OnOk result (Adds self.now (thing_items self.now.shelf.now (variants.Array array)) things.old.items things.new.items) }
    {
        names_are_opened();
        let Some(node) = self.nodes.get(array.node) else {
            return Err(Stop::Outside);
        };
        let Some(extent) = node.size.extent else {
            return Ok(());
        };
        match fitted(&array, &self.window, extent) {
            Some(array) => self.push(&Thing::Array(array), things),
            None => Ok(()),
        }
    }

    /// Adds what a reference places, when the reference's structure is placed itself.
    fn put_reference(
        &self,
        reference: &Reference,
        target: Target,
        placing: Placing,
        things: &mut Vec<Thing>,
    ) -> Result<(), Stop>
        requires layout { IsLayout self.now }
        requires reference { IsReference reference.now }
        requires target { LeadsTo self.now reference.now.name target }
        requires near { IsInPlane placing.by }
        ensures { OnOk result (Adds self.now (map (placed_item placing) (placed_items reference.now (name_shown self.now.shelf.now reference.now.name))) things.old.items things.new.items) }
    {
        names_are_opened();
        let Target::Own(place) = target else {
            return Err(Stop::Outside);
        };
        let Some(node) = self.nodes.get(place) else {
            return Err(Stop::Outside);
        };
        let array = placed_array(placing, reference, place, node);
        if !is_in_plane(array.first.by) {
            return Err(Stop::Outside);
        }
        self.put_array(array, things)
    }

    /// Adds the content of a child of a node, placed.
    fn put_child(
        &self,
        node: &Node,
        child: Child,
        placing: Placing,
        things: &mut Vec<Thing>,
    ) -> Result<(), Stop>
        requires layout { IsLayout self.now }
        requires node { IsNodeOf self.now node.now }
        requires child { Contains node.now.children.items child }
        requires near { IsInPlane placing.by }
        ensures { OnOk result (Adds self.now (map (placed_item placing) (child_shown (name_shown self.now.shelf.now) (element_at (slice_get self.now.structures.now node.now.structure) child.element))) things.old.items things.new.items) }
    {
        let Some(reference) = self.reference(node.structure, child.element) else {
            return Ok(());
        };
        self.put_reference(reference, child.target, placing, things)
    }

    /// Adds a node's own shapes, placed.
    fn put_shapes(&self, node: &Node, placing: Placing, things: &mut Vec<Thing>) -> Result<(), Stop>
        requires layout { IsLayout self.now }
        requires near { IsInPlane placing.by }
        ensures { OnOk result (Adds self.now (structure_shapes placing (slice_get self.now.structures.now node.now.structure) node.now.shapes) things.old.items things.new.items) }
    {
        let seen = Seen {
            own: own_window(&placing, &self.window),
            boxes: self.boxes_of(node.structure),
        };
        for index in 0..node.shapes.len() {
            let place = node.shapes.at(index);
            self.put_shape(node.structure, place, placing, &seen, things)?;
        }
        Ok(())
    }

    /// Adds the content of a node's children, placed.
    fn put_children(
        &self,
        node: &Node,
        placing: Placing,
        things: &mut Vec<Thing>,
    ) -> Result<(), Stop>
        requires layout { IsLayout self.now }
        requires node { IsNodeOf self.now node.now }
        requires near { IsInPlane placing.by }
        ensures { OnOk result (Adds self.now (structure_children placing (name_shown self.now.shelf.now) (slice_get self.now.structures.now node.now.structure) node.now.children.items) things.old.items things.new.items) }
    {
        for child in &node.children {
            self.put_child(node, *child, placing, things)?;
        }
        Ok(())
    }

    /// Adds the content of a node, placed, one level down.
    fn open_instance(
        &self,
        node: &Node,
        placing: Placing,
        things: &mut Vec<Thing>,
    ) -> Result<(), Stop>
        requires layout { IsLayout self.now }
        requires node { IsNodeOf self.now node.now }
        requires near { IsInPlane placing.by }
        ensures { OnOk result (Adds self.now (map (placed_item placing) (place_shown self.now.shelf.now node.now.structure)) things.old.items things.new.items) }
    {
        names_are_opened();
        if !may_meet(&self.window, &placing, node.size.extent) {
            return Ok(());
        }
        self.put_shapes(node, placing, things)?;
        self.put_children(node, placing, things)
    }

    /// Adds the content of the instances of a row of an array, one level down.
    fn open_row(
        &self,
        array: &Array,
        node: &Node,
        row: u16,
        things: &mut Vec<Thing>,
    ) -> Result<(), Stop>
        requires layout { IsLayout self.now }
        requires node { IsNodeOf self.now node.now }
        ensures { OnOk result (Adds self.now (instances_shown self.now.shelf.now node.now.structure (row_of (reference_of array.now) row)) things.old.items things.new.items) }
    {
        for column in 0..array.columns {
            let Some(placing) = instance(array, row, column) else {
                return Err(Stop::Outside);
            };
            self.open_instance(node, placing, things)?;
        }
        Ok(())
    }

    /// Adds the content of an array, one level down.
    ///
    /// # Errors
    /// The same as those of [`Layout::push`]; and if a placing exceeds 2^48 nm.
    pub fn open(&self, array: &Array, things: &mut Vec<Thing>) -> Result<(), Stop>
        requires layout { IsLayout self.now }
        requires array { IsArray self.now.nodes.now array.now }
        ensures { OnOk result (Adds self.now (thing_items self.now.shelf.now (variants.Array array.now)) things.old.items things.new.items) }
    {
        let Some(node) = self.nodes.get(array.node) else {
            return Err(Stop::Outside);
        };
        for row in 0..array.rows {
            self.open_row(array, node, row, things)?;
        }
        Ok(())
    }
}
