//! The boxes of the elements of small structures, made once for all instances.
//!
//! If a window touches a few shapes of an instance, it is compared with the boxes of all shapes. To make each box anew from its points
//! takes about ten times as long as the comparison.

ghost use Rattle.std.specs.Prelude.{◌≡◌, ◌<◌, length, map, All, IfOk};
ghost use Rattle.std.specs.List.{AllZip};
ghost use Rattle.mpw_structures.specs.Element.{IsElement};
ghost use Rattle.mpw_structures.specs.Library.{IsLibrary, IsStructure};
ghost use Rattle.mpw_hier.specs.Boxes.{element_box};
ghost use Rattle.mpw_columns_contents.specs.Boxes.{AreBoxesOf, boxes_at};
ghost use Rattle.mpw_columns_contents.specs.Internal.Held.{HoldsBoxes};

use mpw_geom::Box2;
use mpw_hier::{Shelf, element_box};
use mpw_structures::{Element, Structure};
use std::alloc::{AllocError, Global};
use std::marker::Model;

/// The most elements of a structure whose boxes are stored.
const MOST_OF_ONE: usize = 1 << 12;

/// The most elements whose boxes are stored.
const MOST_OF_ALL: usize = 1 << 20;

/// The boxes of elements by their structures. Contracts see them as lists in the order of the library. A structure whose boxes
/// aren't stored has an empty list.
pub struct Boxes {
    structures: Vec<Vec<Option<Box2>>>,
}

impl Drop for Boxes {
    fn drop(self) {
        let Boxes { structures } = self;
        drop(structures);
    }
}

impl Model for Boxes {
    ghost use Rattle.std.specs.Prelude.{List, Option, map};
    ghost use Rattle.mpw_geom.specs.declared.plane.Box2.{Box2};

    ghost Value = { List (List (Option Box2)) };

    ghost view = { λ b. map (λ v. v.items) b.structures.items };
}

/// The boxes of elements. Cost: one pass over their points. The only error is out of memory.
fn boxes_of(alloc: Global, elements: &[Element]) -> Result<Vec<Option<Box2>>, AllocError>
    requires { All IsElement elements.now }
    ensures { IfOk result (λ v. v.items ≡ map element_box elements.now) }
{
    let mut boxes = Vec::with_capacity(alloc, elements.len())?;
    for element in elements {
        boxes.push(element_box(element))?;
    }
    Ok(boxes)
}

/// The boxes of a structure's elements, or none if there are more elements than a limit. The only error is out of memory.
fn held_of(
    alloc: Global,
    structure: &Structure,
    most: usize,
) -> Result<Vec<Option<Box2>>, AllocError>
    requires { IsStructure structure.now }
    ensures { IfOk result (HoldsBoxes structure.now) }
{
    let elements = structure.elements.as_slice();
    if elements.len() > most {
        return Ok(Vec::new(alloc));
    }
    boxes_of(alloc, elements)
}

/// The boxes of the elements of structures, up to a limit. The only error is out of memory.
fn held_in(
    alloc: Global,
    structures: &[Structure],
    most: usize,
) -> Result<Vec<Vec<Option<Box2>>>, AllocError>
    requires { IsLibrary structures.now }
    ensures { IfOk result (λ v. AllZip HoldsBoxes structures.now v.items) }
{
    let mut all = Vec::new(alloc);
    let mut left = most;
    for structure in structures {
        let held = held_of(alloc, structure, left.min(MOST_OF_ONE))?;
        left = left.saturating_sub(held.len());
        all.push(held)?;
    }
    Ok(all)
}

impl Boxes {
    /// The boxes of the elements of a shelf's first submission: for each structure with at most 2^12 elements, up to 2^20 boxes in all. Cost: one
    /// pass over their points.
    ///
    /// # Errors
    /// Out of memory.
    pub fn of(alloc: Global, shelf: &Shelf) -> Result<Boxes, AllocError>
        requires { 0 < length shelf.now }
        ensures { IfOk result (AreBoxesOf shelf.now) }
    {
        shelf.is_shelf();
        let library = &shelf.get(0).unwrap().library;
        let structures = held_in(alloc, library.structures(), MOST_OF_ALL)?;
        Ok(Boxes { structures })
    }

    /// The boxes of the elements of a structure, by its index in the library; empty if they aren't stored. Takes no memory.
    pub fn of_structure(&self, structure: usize) -> &[Option<Box2>]
        ensures { result.now ≡ boxes_at self.now structure }
    {
        match self.structures.get(structure) {
            Some(boxes) => boxes.as_slice(),
            None => &[],
        }
    }
}
