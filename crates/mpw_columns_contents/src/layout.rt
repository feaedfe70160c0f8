//! A submission with its nodes and structures, and the options of its contents.

ghost use Rattle.std.specs.Prelude.{◌≡◌, ◌<◌, length, IfSome};
ghost use Rattle.mpw_columns_contents.specs.Boxes.{AreBoxesOf};
ghost use Rattle.mpw_columns_contents.specs.Internal.Making.{IsLayout, HaveBoxes};

use crate::boxes::Boxes;
use crate::placed::{is_in_plane, placed_box};
use crate::thing::Array;
use mpw_geom::Box2;
use mpw_hier::{Node, Shelf, is_box_near};
use mpw_structures::Structure;

/// The options of contents.
#[derive(Clone, Copy)]
pub struct Wanted {
    /// The most entries.
    pub most: usize,
    /// Arrays whose instances are wider than this are opened, in nm.
    pub width: u64,
    /// Widths are measured along the y axis, not along the x axis.
    pub is_along_y: bool,
}

/// Which arrays are opened: replaced by their structure's shapes and children.
#[derive(Clone, Copy)]
pub enum Opened {
    /// Arrays whose instances are wider than this, in nm.
    Wide {
        /// The greatest width that isn't opened.
        width: u64,
        /// Widths are measured along the y axis, not along the x axis.
        is_along_y: bool,
    },
    /// Arrays with few instances of large structures.
    Few {
        /// The greatest number of instances.
        instances: u32,
        /// The greatest number of flat shapes of a structure that isn't opened.
        shapes: u64,
    },
}

/// The first submission of a shelf, and the options of its contents.
#[derive(Clone, Copy)]
pub struct Layout<'a> {
    /// The shelf.
    pub shelf: &'a Shelf,
    /// The nodes of the submission, each after those that it places. The top is last.
    pub nodes: &'a [Node],
    /// The structures of its library.
    pub structures: &'a [Structure],
    /// What doesn't touch this window is left out.
    pub window: Box2,
    /// The most entries.
    pub most: usize,
    /// Which arrays are opened.
    pub opened: Opened,
    /// The boxes of elements, if they are stored.
    pub boxes: Option<&'a Boxes>,
}

/// Whether the first instance of an array of a node is wider than `width`.
fn is_wide(array: &Array, node: &Node, width: u64, is_along_y: bool) -> bool {
    let Some(b) = node.size.extent else {
        return false;
    };
    if !is_box_near(b) || !is_in_plane(array.first.by) {
        return false;
    }
    let there = placed_box(array.first, b);
    let there = if is_along_y {
        there.y1.abs_diff(there.y0)
    } else {
        there.x1.abs_diff(there.x0)
    };
    there > width
}

/// Whether an array has at most `instances` instances, of a structure with more than `shapes` flat shapes.
fn is_few(array: &Array, node: &Node, instances: u32, shapes: u64) -> bool {
    node.size.count > shapes
        && u32::from(array.columns).saturating_mul(u32::from(array.rows)) <= instances
}

impl<'a> Layout<'a> {
    /// The first submission of a shelf, with these options.
    pub fn of(
        shelf: &'a Shelf,
        window: Box2,
        most: usize,
        opened: Opened,
        boxes: Option<&'a Boxes>,
    ) -> Layout<'a>
        requires some { 0 < length shelf.now }
        requires boxes { IfSome boxes (λ b. AreBoxesOf shelf.now b.now) }
        ensures layout { IsLayout result }
        ensures shelf { result.shelf.now ≡ shelf.now }
        ensures window { result.window ≡ window }
    {
        Layout {
            shelf,
            nodes: shelf.nodes(0).unwrap(),
            structures: shelf.get(0).unwrap().library.structures(),
            window,
            most,
            opened,
            boxes,
        }
    }

    /// The boxes of the elements of a structure; empty if they aren't stored.
    pub fn boxes_of(&self, structure: usize) -> &'a [Option<Box2>]
        requires { IsLayout self.now }
        ensures { HaveBoxes self.now structure result.now }
    {
        match self.boxes {
            Some(boxes) => boxes.of_structure(structure),
            None => &[],
        }
    }

    /// Whether an array is to be opened.
    pub fn is_opened(&self, array: &Array) -> bool {
        let Some(node) = self.nodes.get(array.node) else {
            return false;
        };
        match self.opened {
            Opened::Wide { width, is_along_y } => is_wide(array, node, width, is_along_y),
            Opened::Few { instances, shapes } => is_few(array, node, instances, shapes),
        }
    }
}
