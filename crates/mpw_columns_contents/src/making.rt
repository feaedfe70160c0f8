//! Makes contents: first the top, and then what is opened of it, pass by pass.

ghost use Rattle.std.specs.Prelude.{◌≡◌, ◌<◌, [], length, All, OnOk, IfOk, IfSome};
ghost use Rattle.mpw_hier.specs.Values.{flat};
ghost use Rattle.mpw_columns_contents.specs.Contents.{AreWhole, AreSound, IsBoxed};
ghost use Rattle.mpw_columns_contents.specs.Things.{thing_items, things_items};
ghost use Rattle.mpw_columns_contents.specs.Internal.Making.{IsLayout, IsArray, IsThing, Adds, Shows};
ghost use Rattle.mpw_columns_contents.specs.declared.thing.Thing.TheVariants as variants;

use crate::contents::Contents;
use crate::laws::names_are_opened;
use crate::layout::{Layout, Opened, Wanted};
use crate::stop::Stop;
use crate::thing::{Array, Thing};
use mpw_geom::{Box2, Orient, Placing, Point};
use mpw_hier::Shelf;
use std::alloc::{AllocError, Global};

/// The most passes: one for each level of a shelf, of which there are at most 64, and one that opens nothing.
const PASSES: usize = 65;

/// A step of length 0.
const STILL: Point = Point { x: 0, y: 0 };

/// The placing of the top.
const HERE: Placing = Placing {
    orient: Orient::R0,
    by: STILL,
};

impl<'a> Layout<'a> {
    /// Adds an array, or its structure's content one level down if it is to be opened. `thing` is the array as an entry. Returns
    /// whether it was opened.
    ///
    /// # Errors
    /// The same as those of [`Layout::open`].
    pub fn pass_array(
        &self,
        array: &Array,
        thing: &Thing,
        things: &mut Vec<Thing>,
    ) -> Result<bool, Stop>
        requires same { thing.now ≡ variants.Array array.now }
        requires layout { IsLayout self.now }
        requires array { IsArray self.now.nodes.now array.now }
        ensures { OnOk result (Adds self.now (thing_items self.now.shelf.now (variants.Array array.now)) things.old.items things.new.items) }
    {
        if self.is_opened(array) {
            self.open(array, things)?;
            return Ok(true);
        }
        self.push(thing, things)?;
        Ok(false)
    }

    /// Adds an entry, or its content one level down if it is to be opened.
    fn pass_thing(&self, thing: &Thing, things: &mut Vec<Thing>) -> Result<(), Stop>
        requires layout { IsLayout self.now }
        requires thing { IsThing self.now.nodes.now thing.now }
        requires boxed { IsBoxed self.now.shelf.now thing.now }
        ensures { OnOk result (Adds self.now (thing_items self.now.shelf.now thing.now) things.old.items things.new.items) }
    {
        match thing {
            Thing::Shape(_) => self.push(thing, things),
            Thing::Array(array) => {
                self.pass_array(array, thing, things)?;
                Ok(())
            }
        }
    }

    /// The entries after one pass over others.
    ///
    /// # Errors
    /// The same as those of [`Layout::open`].
    fn pass(&self, alloc: Global, old: &[Thing]) -> Result<Vec<Thing>, Stop>
        requires layout { IsLayout self.now }
        requires things { All (IsThing self.now.nodes.now) old.now }
        requires boxed { All (IsBoxed self.now.shelf.now) old.now }
        ensures { IfOk result (λ things. Adds self.now (things_items self.now.shelf.now old.now) [] things.items) }
    {
        let mut things = Vec::new(alloc);
        for thing in old {
            self.pass_thing(thing, &mut things)?;
        }
        Ok(things)
    }

    /// Whether one of the entries is to be opened.
    fn are_opened(&self, things: &[Thing]) -> bool {
        things.iter().any(|thing| match thing {
            Thing::Shape(_) => false,
            Thing::Array(array) => self.is_opened(array),
        })
    }

    /// The contents that result when pass after pass has opened these entries.
    ///
    /// # Errors
    /// The same as those of [`Layout::open`]; and if entries are still opened after the last level.
    pub fn finish(&self, alloc: Global, from: Vec<Thing>) -> Result<Contents, Stop>
        requires layout { IsLayout self.now }
        requires things { All (IsThing self.now.nodes.now) from.items }
        requires boxed { All (IsBoxed self.now.shelf.now) from.items }
        ensures boxed { IfOk result (All (IsBoxed self.now.shelf.now)) }
        ensures shows { IfOk result (λ contents. Shows self.now.window (things_items self.now.shelf.now from.items) (things_items self.now.shelf.now contents)) }
    {
        let mut things = from;
        for _ in 0..PASSES {
            if !self.are_opened(&things) {
                return Ok(Contents { things });
            }
            things = self.pass(alloc, &things)?;
        }
        Err(Stop::Many)
    }

    /// The top, as an array of one instance. `None` if there is no node.
    pub fn top(&self) -> Option<Array>
        requires { IsLayout self.now }
        ensures array { IfSome result (λ a. IsArray self.now.nodes.now a) }
        ensures shown { IfSome result (λ a. thing_items self.now.shelf.now (variants.Array a) ≡ flat self.now.shelf.now 0) }
    {
        names_are_opened();
        let Some(top) = self.nodes.last() else {
            return None;
        };
        Some(Array {
            structure: top.structure,
            node: self.nodes.len() - 1,
            first: HERE,
            columns: 1,
            rows: 1,
            column_step: STILL,
            row_step: STILL,
        })
    }

    /// The part of the top that may touch the window.
    ///
    /// # Errors
    /// The same as those of [`Layout::push`].
    fn begin(&self, alloc: Global) -> Result<Vec<Thing>, Stop>
        requires { IsLayout self.now }
        ensures { IfOk result (λ things. Adds self.now (flat self.now.shelf.now 0) [] things.items) }
    {
        let mut things = Vec::new(alloc);
        let Some(top) = self.top() else {
            return Err(Stop::Outside);
        };
        self.put_array(top, &mut things)?;
        Ok(things)
    }

    /// The contents of the window.
    ///
    /// # Errors
    /// The same as those of [`Layout::finish`].
    fn fill(&self, alloc: Global) -> Result<Contents, Stop>
        requires { IsLayout self.now }
        ensures boxed { IfOk result (All (IsBoxed self.now.shelf.now)) }
        ensures shows { IfOk result (λ contents. Shows self.now.window (flat self.now.shelf.now 0) (things_items self.now.shelf.now contents)) }
    {
        let things = self.begin(alloc)?;
        self.finish(alloc, things)
    }
}

/// What of the first submission of a shelf touches a window, as entries. They include each of its flat shapes that touches the window, and each of their
/// flat shapes is one of its flat list. `None` if there would be more entries than the options allow, if a name is bound outside the library, or if a
/// displacement exceeds 2^48 nm.
///
/// Cost: the number of entries that are visited on each level, where an array that touches the window and isn't opened takes constant
/// time. Memory: at most for twice the entries that the options allow.
///
/// # Errors
/// Out of memory.
pub fn contents_in(
    alloc: Global,
    shelf: &Shelf,
    window: Box2,
    wanted: Wanted,
) -> Result<Option<Contents>, AllocError>
    requires { 0 < length shelf.now }
    ensures boxed { IfOk result (λ contents. IfSome contents (All (IsBoxed shelf.now))) }
    ensures whole { IfOk result (λ contents. IfSome contents (λ things. AreWhole window (flat shelf.now 0) (things_items shelf.now things))) }
    ensures sound { IfOk result (λ contents. IfSome contents (λ things. AreSound (flat shelf.now 0) (things_items shelf.now things))) }
{
    let opened = Opened::Wide {
        width: wanted.width,
        is_along_y: wanted.is_along_y,
    };
    let layout = Layout::of(shelf, window, wanted.most, opened, None);
    match layout.fill(alloc) {
        Ok(contents) => Ok(Some(contents)),
        Err(Stop::Memory) => Err(AllocError),
        Err(_) => Ok(None),
    }
}
