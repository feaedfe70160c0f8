//! A walk over placed submissions.
//!
//! Contracts see it as the number of its turns so far and its remaining turns. These give the flat lists of
//! the roots, or the shapes of these that touch a window.

ghost use Rattle.std.specs.Prelude.{◌≡◌, ◌≤◌, ◌+◌, ◌^◌, [], ◌∷◌, length, IfSome, IfNone, All};
ghost use Rattle.mpw_walk.specs.Turns.{given, behind_first, flat_roots, roots_turns};
ghost use Rattle.mpw_walk.specs.Walk.{IsRoot};
ghost use Rattle.mpw_walk.specs.Way.{IsPlaceable, item_of};
ghost use Rattle.mpw_walk.specs.Window.{items_met, turns_met, taken};

use crate::frames::Frames;
use crate::root::{Placed, Root};
use crate::way::Way;
use mpw_geom::Box2;
use mpw_hier::{Shelf, shelves_have_their_numbers};
use std::marker::Model;

/// The remaining shapes of placed submissions. It takes no memory: its stack has a fixed size.
pub struct Walk<'a> {
    way: Way<'a>,
}

impl<'a> Drop for Walk<'a> {
    fn drop(self) {
        let Walk { way } = self;
        drop(way);
    }
}

impl<'a> Model for Walk<'a> {
    ghost use Rattle.mpw_walk.specs.Turns.{Walked};

    ghost Value = { Walked };

    ghost use Rattle.mpw_walk.specs.Way.{IsWay, walked};

    ghost view = { λ w. walked w.way w.way.frames.items };

    ghost invariant = { λ w. IsWay w.way w.way.frames.items };
}

impl<'a> Walk<'a> {
    /// The walk with these turns, before the first.
    fn start(shelf: &'a Shelf, roots: &'a [Root], window: Option<Box2>) -> Walk<'a>
        requires roots { All (IsRoot shelf.now) roots.now }
        requires few { length roots.now ≤ 2 ^ 16 }
        ensures turns { result.turns ≡ 0 }
        ensures left { result.left ≡ taken window (roots_turns shelf.now roots.now) }
    {
        shelf.is_shelf();
        shelves_have_their_numbers();
        Walk {
            way: Way {
                shelf,
                roots,
                window,
                root: 0,
                frames: Frames::new(),
                turns: 0,
            },
        }
    }

    /// The walk over the roots in order: for each, its own shapes in file order, and then what it places,
    /// an array row by row, with the column running fastest. What has no shapes is skipped.
    ///
    /// Takes no memory.
    pub fn new(shelf: &'a Shelf, roots: &'a [Root]) -> Walk<'a>
        requires roots { All (IsRoot shelf.now) roots.now }
        requires few { length roots.now ≤ 2 ^ 16 }
        ensures turns { result.turns ≡ 0 }
        ensures left { result.left ≡ roots_turns shelf.now roots.now }
        ensures given { given result.left ≡ flat_roots shelf.now roots.now }
    {
        Walk::start(shelf, roots, None)
    }

    /// The walk over the roots within a window. It gives the shapes whose boxes share a point with the window (a common corner or
    /// edge is enough), in the order of the walk over all. It enters the instances whose placed extents share one, and skips the
    /// others with all their content.
    ///
    /// Takes no memory.
    pub fn within(shelf: &'a Shelf, roots: &'a [Root], window: Box2) -> Walk<'a>
        requires roots { All (IsRoot shelf.now) roots.now }
        requires few { length roots.now ≤ 2 ^ 16 }
        ensures turns { result.turns ≡ 0 }
        ensures left { result.left ≡ turns_met window (roots_turns shelf.now roots.now) }
        ensures given { given result.left ≡ items_met window (flat_roots shelf.now roots.now) }
    {
        Walk::start(shelf, roots, Some(window))
    }

    /// The next shape. `None` after the last. Takes no memory. One turn enters each instance on the way to it, and one gives it. A turn takes
    /// constant time, and so does leaving an instance. With a window, an array whose columns lead along one axis takes constant time, and so
    /// does each of its rows that touches the window, in addition to what is entered. In another array each row takes constant time. Each
    /// shape of what is entered takes time linear in its points.
    pub fn next(&mut self) -> Option<Placed<'a>>
        ensures some { IfSome result (λ placed. given self.old.left ≡ item_of placed ∷ given self.new.left) }
        ensures placeable { IfSome result IsPlaceable }
        ensures none { IfNone result (given self.old.left ≡ []) }
        ensures left { self.new.left ≡ behind_first self.old.left }
        ensures turns { self.new.turns + length self.new.left ≡ self.old.turns + length self.old.left }
    {
        self.way.next()
    }

    /// The turns so far: one for each instance that was entered, including roots, and one for each shape.
    pub fn turns(&self) -> u64
        ensures { result ≡ self.now.turns }
    {
        self.way.turns
    }
}
