//! Makes a part of contents: the entries that touch a window, opened as requested.
//!
//! The first pass compares each entry with the window, and only what is left is visited again. More passes run only
//! if an array was opened. For an array of one instance, as nearly all are, a box is compared with the window.

ghost use Rattle.std.specs.Prelude.{◌≡◌, ◌<◌, [], length, All, OnOk, IfOk, IfSome};
ghost use Rattle.mpw_geom.specs.Plane.{IsInPlane};
ghost use Rattle.mpw_hier.specs.Values.{flat};
ghost use Rattle.mpw_columns_contents.specs.Contents.{AreWhole, AreSound, IsBoxed, IsNear};
ghost use Rattle.mpw_columns_contents.specs.Boxes.{AreBoxesOf};
ghost use Rattle.mpw_columns_contents.specs.Things.{thing_items, things_items};
ghost use Rattle.mpw_columns_contents.specs.Internal.Making.{HasExtent, IsArray, IsLayout, Adds, Shows};
ghost use Rattle.mpw_columns_contents.specs.Internal.Opening.{NamesAreOpened};
ghost use Rattle.mpw_columns_contents.specs.declared.thing.Thing.TheVariants as variants;

use crate::boxes::Boxes;
use crate::contents::Contents;
use crate::fit::{fitted, is_area_met, is_single, is_single_met};
use crate::laws::names_are_opened;
use crate::layout::{Layout, Opened};
use crate::stop::Stop;
use crate::thing::{Array, Shape, Thing};
use mpw_geom::Box2;
use mpw_hier::Shelf;
use std::alloc::{AllocError, Global};

/// The options of a part of contents.
#[derive(Clone, Copy)]
pub struct Part<'a> {
    /// The boxes of the elements of the shelf's structures.
    pub boxes: &'a Boxes,
    /// What doesn't touch this window is left out.
    pub window: Box2,
    /// The most entries.
    pub most: usize,
    /// An array with at most this many instances is opened if its structure has more than `shapes` flat shapes. Instances are
    /// counted as columns times rows, without those that miss the window.
    pub instances: u32,
    /// The most flat shapes of a structure whose array isn't opened, if it has at most `instances` instances.
    pub shapes: u64,
}

/// The parts of entries that may touch a window, and whether one of them was opened.
#[derive(Drop)]
struct Fitted {
    things: Vec<Thing>,
    is_open: bool,
}

impl<'a> Layout<'a> {
    /// Adds a shape, unless its area misses the window. Returns `false`: nothing is opened.
    fn fit_shape(&self, shape: &Shape, thing: &Thing, things: &mut Vec<Thing>) -> Result<bool, Stop>
        requires same { thing.now ≡ variants.Shape shape.now }
        requires near { IsNear thing.now }
        requires boxed { IsBoxed self.now.shelf.now thing.now }
        ensures { OnOk result (Adds self.now (thing_items self.now.shelf.now thing.now) things.old.items things.new.items) }
    {
        if !is_area_met(&shape.area, &self.window) {
            return Ok(false);
        }
        self.push(thing, things)?;
        Ok(false)
    }

    /// Does what [`Layout::fit_array`] does, for an array of one instance. The array isn't copied for the test, and is added as the
    /// entry that it is.
    fn fit_single(
        &self,
        array: &Array,
        thing: &Thing,
        extent: Box2,
        things: &mut Vec<Thing>,
    ) -> Result<bool, Stop>
        requires same { thing.now ≡ variants.Array array.now }
        requires law { NamesAreOpened }
        requires layout { IsLayout self.now }
        requires array { IsArray self.now.nodes.now array.now }
        requires extent { HasExtent self.now.nodes.now array.now extent }
        requires columns { array.now.columns ≡ 1 }
        requires rows { array.now.rows ≡ 1 }
        ensures { OnOk result (Adds self.now (thing_items self.now.shelf.now (variants.Array array.now)) things.old.items things.new.items) }
    {
        if is_single_met(array, &self.window, extent) {
            self.pass_array(array, thing, things)
        } else {
            Ok(false)
        }
    }

    /// Adds the part of an array that may touch the window, or that part's content one level down if it is to be opened. Returns
    /// whether it was opened.
    ///
    /// # Errors
    /// The same as those of [`Layout::open`]; and if the array's node isn't its structure's.
    fn fit_array(&self, array: &Array, thing: &Thing, things: &mut Vec<Thing>) -> Result<bool, Stop>
        requires same { thing.now ≡ variants.Array array.now }
        requires law { NamesAreOpened }
        requires layout { IsLayout self.now }
        requires near { IsInPlane array.now.first.by }
        ensures { OnOk result (Adds self.now (thing_items self.now.shelf.now (variants.Array array.now)) things.old.items things.new.items) }
    {
        let Some(node) = self.nodes.get(array.node) else {
            return Err(Stop::Outside);
        };
        if node.structure != array.structure {
            return Err(Stop::Outside);
        }
        let Some(extent) = node.size.extent else {
            return Ok(false);
        };
        if is_single(array) {
            return self.fit_single(array, thing, extent, things);
        }
        match fitted(array, &self.window, extent) {
            Some(array) => self.pass_array(&array, &Thing::Array(array), things),
            None => Ok(false),
        }
    }

    /// Adds the part of an entry that may touch the window, as [`Layout::fit_array`] does.
    fn fit_thing(&self, thing: &Thing, things: &mut Vec<Thing>) -> Result<bool, Stop>
        requires law { NamesAreOpened }
        requires layout { IsLayout self.now }
        requires near { IsNear thing.now }
        requires boxed { IsBoxed self.now.shelf.now thing.now }
        ensures { OnOk result (Adds self.now (thing_items self.now.shelf.now thing.now) things.old.items things.new.items) }
    {
        match thing {
            Thing::Shape(shape) => self.fit_shape(shape, thing, things),
            Thing::Array(array) => self.fit_array(array, thing, things),
        }
    }

    /// The parts of entries that may touch the window.
    ///
    /// # Errors
    /// The same as those of [`Layout::fit_array`].
    fn fit(&self, alloc: Global, old: &[Thing]) -> Result<Fitted, Stop>
        requires layout { IsLayout self.now }
        requires near { All IsNear old.now }
        requires boxed { All (IsBoxed self.now.shelf.now) old.now }
        ensures { IfOk result (λ fitted. Adds self.now (things_items self.now.shelf.now old.now) [] fitted.things.items) }
    {
        names_are_opened();
        let mut things = Vec::new(alloc);
        let mut is_open = false;
        for thing in old {
            if self.fit_thing(thing, &mut things)? {
                is_open = true;
            }
        }
        Ok(Fitted { things, is_open })
    }

    /// The parts of entries that touch the window, opened as requested.
    ///
    /// # Errors
    /// The same as those of [`Layout::fit`] and [`Layout::finish`].
    fn part(&self, alloc: Global, old: &[Thing]) -> Result<Contents, Stop>
        requires layout { IsLayout self.now }
        requires near { All IsNear old.now }
        requires boxed { All (IsBoxed self.now.shelf.now) old.now }
        ensures boxed { IfOk result (All (IsBoxed self.now.shelf.now)) }
        ensures shows { IfOk result (λ contents. Shows self.now.window (things_items self.now.shelf.now old.now) (things_items self.now.shelf.now contents)) }
    {
        let fitted = self.fit(alloc, old)?;
        let Fitted { things, is_open } = fitted;
        if is_open {
            return self.finish(alloc, things);
        }
        Ok(Contents { things })
    }
}

impl Contents {
    /// The top of a shelf's first submission, as an array of one instance. `None` if there is no node.
    ///
    /// # Errors
    /// Out of memory.
    pub fn top(alloc: Global, shelf: &Shelf) -> Result<Option<Contents>, AllocError>
        requires { 0 < length shelf.now }
        ensures boxed { IfOk result (λ o. IfSome o (All (IsBoxed shelf.now))) }
        ensures shown { IfOk result (λ o. IfSome o (λ things. things_items shelf.now things ≡ flat shelf.now 0)) }
    {
        let window = Box2 {
            x0: 0,
            y0: 0,
            x1: 0,
            y1: 0,
        };
        let opened = Opened::Few {
            instances: 0,
            shapes: 0,
        };
        let layout = Layout::of(shelf, window, 1, opened, None);
        let Some(array) = layout.top() else {
            return Ok(None);
        };
        let mut things = Vec::new(alloc);
        things.push(Thing::Array(array))?;
        Ok(Some(Contents { things }))
    }

    /// The parts of these contents that touch a window, opened as requested. Shapes and arrays that miss it, by their boxes or by division, are left
    /// out. Arrays with few instances of large structures are opened, one level after another. `None` if there would be more entries than requested,
    /// if an array's node isn't its structure's, if a name is bound outside the library, or if a displacement exceeds 2^48 nm.
    ///
    /// Cost: linear in the entries, where an array that isn't opened takes constant time, and in what is opened. Memory: for
    /// what is left, and twice that if something is opened.
    ///
    /// # Errors
    /// Out of memory.
    pub fn within(
        &self,
        alloc: Global,
        shelf: &Shelf,
        part: &Part<'_>,
    ) -> Result<Option<Contents>, AllocError>
        requires shelf { 0 < length shelf.now }
        requires boxed { All (IsBoxed shelf.now) self.now }
        requires boxes { AreBoxesOf shelf.now part.now.boxes.now }
        ensures boxed { IfOk result (λ o. IfSome o (All (IsBoxed shelf.now))) }
        ensures whole { IfOk result (λ o. IfSome o (λ things. AreWhole part.now.window (things_items shelf.now self.now) (things_items shelf.now things))) }
        ensures sound { IfOk result (λ o. IfSome o (λ things. AreSound (things_items shelf.now self.now) (things_items shelf.now things))) }
    {
        let opened = Opened::Few {
            instances: part.instances,
            shapes: part.shapes,
        };
        let layout = Layout::of(shelf, part.window, part.most, opened, Some(part.boxes));
        match layout.part(alloc, self.things()) {
            Ok(contents) => Ok(Some(contents)),
            Err(Stop::Memory) => Err(AllocError),
            Err(_) => Ok(None),
        }
    }
}
