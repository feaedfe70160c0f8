//! Listings of shapes: the flat list of a cell's present submission, without the shapes that the session may not see.
//!
//! A listing has the shelf, the submission that it lists, and which submissions may be seen. Copies of a reply share it. A walk makes its
//! lines one by one, and takes no memory.
ghost use Rattle.std.specs.Prelude.{◌≡◌, ◌<◌, ◌≤◌, ◌∷◌, ◌++◌, [], length, All, IfOk, IfSome, IfNone};
ghost use Rattle.mpw_hier.specs.Values.{flat};
ghost use Rattle.mpw_walk.specs.Turns.{given, flat_roots};
ghost use Rattle.mpw_walk.specs.Walk.{IsRoot};
ghost use Rattle.mpw_walk.specs.Way.{IsPlaceable, item_of};
ghost use Rattle.mpw_replies.specs.Listing.{seen_line, seen_lines};
ghost use Rattle.mpw_replies.specs.Shapes.{IsPlaceableView, line_of};
ghost use Rattle.mpw_replies.specs.Internal.Shapes.{lines_of};

use mpw_geom::{Name, Placing};
use mpw_hier::{Shelf, shelves_have_their_numbers};
use mpw_seen::{is_seen, seen_count};
use mpw_structures::Element;
use mpw_walk::{Placed, Root, Walk};
use std::alloc::{AllocError, Global};
use std::marker::Model;
use std::slice;

/// The shapes of a submission that come from submissions that may be seen. Contracts see its lines.
pub struct ShapeListing {
    shelf: Shelf,
    root: Root,
    seen: Vec<bool>,
    count: usize,
}

impl Drop for ShapeListing {
    fn drop(self) {
        let ShapeListing {
            shelf,
            root: _,
            seen,
            count: _,
        } = self;
        drop(shelf);
        drop(seen);
    }
}

impl Model for ShapeListing {
    ghost use Rattle.std.specs.Prelude.{List, [], ◌∷◌};
    ghost use Rattle.mpw_walk.specs.Turns.{flat_roots};
    ghost use Rattle.mpw_replies.specs.Listing.{Listed, IsListing, seen_lines};

    ghost Value = { List Listed };

    ghost view = { λ l. seen_lines l.shelf l.seen.items (flat_roots l.shelf (l.root ∷ [])) };

    ghost invariant = { λ l. IsListing l.shelf l.root l.seen.items l.count };
}

/// A shape of a listing: the cell and the version that it comes from, and its placing.
#[derive(Clone, Copy)]
pub struct ShapeView<'a> {
    /// The cell of the submission that the shape comes from.
    pub cell: &'a Name,
    /// The version of that submission, from 1.
    pub version: u32,
    /// From the coordinates of the shape's structure to those of the listed cell's top.
    pub placing: Placing,
    /// The boundary or path as it is in the library, not placed yet.
    pub element: &'a Element,
}

/// The shapes of a listing that are left. Contracts see their lines. It takes no memory.
#[derive(Drop)]
pub struct ShapeViews<'a> {
    shelf: &'a Shelf,
    seen: &'a [bool],
    walk: Walk<'a>,
}

impl<'a> Model for ShapeViews<'a> {
    ghost use Rattle.std.specs.Prelude.{List};
    ghost use Rattle.mpw_walk.specs.Turns.{given};
    ghost use Rattle.mpw_replies.specs.Listing.{Listed, seen_lines};

    ghost Value = { List Listed };

    ghost view = { λ v. seen_lines v.shelf.now v.seen.now (given v.walk.left) };
}

impl ShapeListing {
    /// The listing of those shapes of a submission that may be seen. [`seen_count`] counts the lines, at its cost in time and memory. The
    /// flat list isn't walked.
    ///
    /// # Errors
    /// Out of memory.
    pub fn new(
        alloc: Global,
        shelf: Shelf,
        number: u32,
        seen: Vec<bool>,
    ) -> Result<ShapeListing, AllocError>
        requires { number < length shelf }
        ensures { IfOk result (λ listing. listing ≡ seen_lines shelf seen.items (flat shelf number)) }
    {
        shelves_have_their_numbers();
        let count = seen_count(alloc, &shelf, number, &seen)? as usize;
        let root = Root::at_origin(&shelf, number);
        Ok(ShapeListing {
            shelf,
            root,
            seen,
            count,
        })
    }

    /// The number of lines, at most 2^40.
    pub fn len(&self) -> usize
        ensures { result ≡ length self.now }
    {
        self.count
    }

    /// The shapes, one by one, in the order of the flat list. It takes no memory.
    pub fn views(&self) -> ShapeViews<'_>
        ensures { result ≡ self.now }
    {
        views_of(&self.shelf, slice::from_ref(&self.root), &self.seen)
    }
}

impl<'a> ShapeViews<'a> {
    /// The next shape, or none after the last. It takes no memory. Cost: the turns of a walk, at most 65 for each shape of the submission,
    /// seen or not.
    pub fn next(&mut self) -> Option<ShapeView<'a>>
        ensures some { IfSome result (λ shape. self.old ≡ line_of shape ∷ self.new) }
        ensures placeable { IfSome result IsPlaceableView }
        ensures none { IfNone result (self.old ≡ []) }
    {
        next_view(&mut self.walk, self.shelf, self.seen)
    }
}

/// The shapes of roots that may be seen.
fn views_of<'a>(shelf: &'a Shelf, roots: &'a [Root], seen: &'a [bool]) -> ShapeViews<'a>
    requires roots { All (IsRoot shelf.now) roots.now }
    requires few { length roots.now ≤ 1 }
    ensures { result ≡ seen_lines shelf.now seen.now (flat_roots shelf.now roots.now) }
{
    ShapeViews {
        shelf,
        seen,
        walk: Walk::new(shelf, roots),
    }
}

/// The next shape of a walk that may be seen.
fn next_view<'a>(walk: &mut Walk<'a>, shelf: &'a Shelf, seen: &[bool]) -> Option<ShapeView<'a>>
    ensures some { IfSome result (λ shape. seen_lines shelf.now seen.now (given walk.old.left) ≡ line_of shape ∷ seen_lines shelf.now seen.now (given walk.new.left)) }
    ensures placeable { IfSome result IsPlaceableView }
    ensures none { IfNone result (seen_lines shelf.now seen.now (given walk.old.left) ≡ []) }
{
    while let Some(placed) = walk.next() {
        if let Some(view) = view_of(shelf, seen, &placed) {
            return Some(view);
        }
    }
    None
}

/// A placed shape, if the submission that it comes from may be seen.
fn view_of<'a>(shelf: &'a Shelf, seen: &[bool], placed: &Placed<'a>) -> Option<ShapeView<'a>>
    ensures lines { lines_of result ≡ seen_line shelf.now seen.now (item_of placed.now) }
    ensures placeable { IsPlaceable placed.now → IfSome result IsPlaceableView }
{
    let submission = shelf.get(placed.origin)?;
    if !is_seen(seen, placed.origin) {
        return None;
    }
    Some(ShapeView {
        cell: &submission.cell,
        version: submission.version,
        placing: placed.placing,
        element: placed.element,
    })
}
