//! Rectangles, and windows as lists of them.
//!
//! While rectangles are sorted into tiles, each tile has a growing [`Listed`]. At the end each becomes a
//! [`Window`], which its copies share.

ghost use Rattle.std.specs.Prelude.{◌≡◌, ◌↔◌, ◌<◌, [], ◌∷◌, ◌++◌, length, IfOk, OnOk, IsTrue};
ghost use Rattle.mpw_tiles.specs.Internal.Listing.{Lists};

use mpw_geom::{Box2, Layer};
use mpw_lists::{Same, SharedList};
use std::alloc::{AllocError, Global};
use std::marker::Model;

/// A placed rectangle of a shape: its squares in nm, its layer, and the number of the submission
/// from which the shape comes.
#[derive(Clone, Copy, PartialEq, Eq)]
pub struct Rectangle {
    /// Its squares are those from the lower left corner to before the upper right one, in nm.
    pub area: Box2,
    /// The layer of the shape, with its datatype.
    pub layer: Layer,
    /// The number of the submission from which the shape comes, from 0.
    pub origin: u32,
}

/// Whether the boxes have equal corners.
fn is_same_area(a: &Box2, b: &Box2) -> bool
    ensures { IsTrue result ↔ (a.now ≡ b.now) }
{
    a == b
}

/// Whether the layers are equal.
fn is_same_layer(a: Layer, b: Layer) -> bool
    ensures { IsTrue result ↔ (a ≡ b) }
{
    a == b
}

impl Same for Rectangle {
    /// Whether the rectangles have equal areas, layers and origins.
    fn is_same(&self, other: &Rectangle) -> bool {
        is_same_area(&self.area, &other.area)
            & is_same_layer(self.layer, other.layer)
            & (self.origin == other.origin)
    }
}

/// The rectangles of a tile so far. Contracts see them as a list.
pub(crate) struct Listed {
    items: Vec<Rectangle>,
}

impl Drop for Listed {
    fn drop(self) {
        let Listed { items } = self;
        drop(items);
    }
}

impl Model for Listed {
    ghost use Rattle.std.specs.Prelude.{List};
    ghost use Rattle.mpw_tiles.specs.declared.listing.Rectangle.{Rectangle};

    ghost Value = { List Rectangle };

    ghost view = { λ l. l.items.items };
}

impl Listed {
    /// The empty list. Takes no memory.
    pub(crate) fn new(alloc: Global) -> Listed
        ensures { result ≡ [] }
    {
        Listed {
            items: Vec::new(alloc),
        }
    }

    /// Adds a rectangle at the end. The only error is out of memory.
    fn push(&mut self, rectangle: Rectangle) -> Result<(), AllocError>
        ensures ok { OnOk result (self.new ≡ self.old ++ rectangle ∷ []) }
    {
        self.items.push(rectangle)?;
        Ok(())
    }

    /// The window of these rectangles.
    fn into_window(self, alloc: Global) -> Result<Window, AllocError>
        ensures { IfOk result (λ window. window ≡ self) }
    {
        let Listed { items: taken } = self;
        Window::from_vec(alloc, taken)
    }
}

/// Adds a rectangle to the list of a tile. The only error is out of memory.
pub(crate) fn list_at(
    lists: &mut Vec<Listed>,
    tile: usize,
    rectangle: Rectangle,
) -> Result<(), AllocError>
    requires { tile < length lists.old.items }
    ensures ok { OnOk result (Lists lists.old.items lists.new.items rectangle (λ t. t ≡ tile)) }
{
    lists[tile].push(rectangle)?;
    Ok(())
}

/// The rectangles of a tile's window. Contracts see them as a list. Copies share memory.
pub type Window = SharedList<Rectangle>;

/// Windows by tile. Contracts see them as the list of their lists. Copies share memory.
pub type Windows = SharedList<Window>;

/// The windows of these lists, in their order. The only error is out of memory.
pub(crate) fn windows_from(alloc: Global, lists: Vec<Listed>) -> Result<Windows, AllocError>
    ensures { IfOk result (λ windows. windows ≡ lists.items) }
{
    let mut items = Vec::new(alloc);
    for list in lists {
        items.push(list.into_window(alloc)?)?;
    }
    Windows::from_vec(alloc, items)
}
