//! What a run checks: a deck, placed submissions and the shelf that has them, as they were when it began.
//!
//! [`cut`] makes the windows of its tiles, from which the tiles are checked.

ghost use Rattle.std.specs.Prelude.{◌≡◌, ◌≤◌, ◌↔◌, [], IfOk, IfSome, IsTrue, All, true, length};
ghost use Rattle.mpw_hier.specs.Boxes.{is_box_near};
ghost use Rattle.mpw_geom.specs.Plane.{IsOrdered};
ghost use Rattle.mpw_walk.specs.Roots.{roots_count};
ghost use Rattle.mpw_tiles.specs.Placed.{WindowsLieInPlane};
ghost use Rattle.mpw_tiles.specs.Snapshots.{AreRoots, IsSnapshot, shown_extent, plan_for, StandFor, ListNearby};

use crate::extent::roots_extent;
use crate::fill::empty_lists;
use crate::grid_laws::windows_reach_no_further;
use crate::listing::{Windows, windows_from};
use crate::plan::Plan;
use crate::shapes::list_shapes;
use mpw_deck::Deck;
use mpw_geom::{Box2, Placing, Point};
use mpw_hier::{Shelf, extents_are_least_boxes};
use mpw_lists::SharedList;
use mpw_walk::{Root, Walk, all_fit, roots_show_what_their_submissions_do};
use std::alloc::{AllocError, Global};
use std::marker::Model;

/// The most roots of a snapshot.
pub const MAX_ROOTS: usize = 4096;

/// The most shapes of all roots of a snapshot together: as many as one submission of a shelf may have.
pub const MAX_SHAPES: u64 = mpw_hier::MAX_SHAPES;

/// How many flat shapes the roots have.
fn shape_count(shelf: &Shelf, roots: &[Root]) -> u64
    requires { length roots.now ≤ 4096 }
    ensures { result ≡ roots_count shelf.now roots.now }
{
    let mut count = 0u64;
    for root in roots {
        count += shelf.count(root.submission);
    }
    count
}

/// Whether the roots can be those of a snapshot: at most 4096, each fits the shelf, and together they have at most 2^40
/// flat shapes. Cost: linear in the roots; takes no memory.
pub fn are_roots(shelf: &Shelf, roots: &[Root]) -> bool
    ensures { IsTrue result ↔ AreRoots shelf.now roots.now }
{
    if roots.len() > MAX_ROOTS {
        return false;
    }
    if !all_fit(shelf, roots) {
        return false;
    }
    shape_count(shelf, roots) <= MAX_SHAPES
}

/// A deck, roots in order, and a shelf. Contracts see the three values. There are at most 4096 roots, each fits the shelf,
/// and together they have at most 2^40 flat shapes. Copies share all three.
pub struct Snapshot {
    deck: Deck,
    roots: SharedList<Root>,
    shelf: Shelf,
}

impl Drop for Snapshot {
    fn drop(self) {
        let Snapshot { deck, roots, shelf } = self;
        drop(deck);
        drop(roots);
        drop(shelf);
    }
}

impl Model for Snapshot {
    ghost use Rattle.mpw_tiles.specs.Snapshots.{Snapshot, IsSnapshot};

    ghost Value = { Snapshot };

    ghost view = { λ s. record { deck = s.deck; roots = s.roots; shelf = s.shelf } };

    ghost invariant = { λ s. IsSnapshot (record { deck = s.deck; roots = s.roots; shelf = s.shelf }) };
}

/// Whether the points have equal coordinates.
fn is_same_point(first: &Point, second: &Point) -> bool
    ensures { IsTrue result ↔ (first.now ≡ second.now) }
{
    first == second
}

/// Whether the placings have equal orientations and displacements.
fn is_same_placing(first: &Placing, second: &Placing) -> bool
    ensures { IsTrue result ↔ (first.now ≡ second.now) }
{
    (first.orient == second.orient) & is_same_point(&first.by, &second.by)
}

/// Whether the roots have equal submissions, by number, and placings.
fn is_same_root(first: &Root, second: &Root) -> bool
    ensures { IsTrue result ↔ (first.now ≡ second.now) }
{
    (first.submission == second.submission) & is_same_placing(&first.placing, &second.placing)
}

/// Whether the lists have equal roots, in order.
fn are_same_roots(first: &[Root], second: &[Root]) -> bool
    ensures { IsTrue result ↔ (first.now ≡ second.now) }
{
    if first.len() != second.len() {
        return false;
    }
    for i in 0..first.len() {
        if !is_same_root(&first[i], &second[i]) {
            return false;
        }
    }
    true
}

impl Snapshot {
    /// The snapshot of these. Constant time.
    ///
    /// # Errors
    /// Out of memory (for the count of its copies).
    pub fn new(
        alloc: Global,
        deck: Deck,
        roots: Vec<Root>,
        shelf: Shelf,
    ) -> Result<Snapshot, AllocError>
        requires { AreRoots shelf roots.items }
        ensures { IfOk result (λ s. s ≡ record { deck = deck; roots = roots.items; shelf = shelf }) }
    {
        deck.is_deck();
        shelf.is_shelf();
        let roots = SharedList::from_vec(alloc, roots)?;
        Ok(Snapshot { deck, roots, shelf })
    }

    /// The deck.
    pub fn deck(&self) -> &Deck
        ensures { result.now ≡ self.now.deck }
    {
        &self.deck
    }

    /// The placed submissions, in order.
    pub fn roots(&self) -> &[Root]
        ensures { result.now ≡ self.now.roots }
    {
        self.roots.as_slice()
    }

    /// Whether these are its roots, in order, by value. Stops at the first difference, and takes no memory.
    pub fn has_roots(&self, roots: &[Root]) -> bool
        ensures { IsTrue result ↔ (roots.now ≡ self.now.roots) }
    {
        are_same_roots(roots, self.roots())
    }

    /// The shelf.
    pub fn shelf(&self) -> &Shelf
        ensures { result.now ≡ self.now.shelf }
    {
        &self.shelf
    }

    /// A law; the function does nothing. Each snapshot meets the limits.
    pub fn is_snapshot(&self)
        ensures { IsSnapshot self.now }
    {
        let _deck = &self.deck;
    }

    /// The same snapshot, in constant time and without more memory: its parts are shared.
    ///
    /// # Errors
    /// If no more copies can be counted.
    pub fn copy(&self, alloc: Global) -> Result<Snapshot, AllocError>
        ensures { IfOk result (λ s. s ≡ self.now) }
    {
        let deck = self.deck.copy()?;
        let roots = self.roots.copy()?;
        let shelf = self.shelf.copy(alloc)?;
        Ok(Snapshot { deck, roots, shelf })
    }

    /// Whether the snapshots have equal decks, roots and shelves. Stops at the first difference, costs at most the size of
    /// both, and takes no memory.
    pub fn is_same(&self, other: &Snapshot) -> bool
        ensures { IsTrue result ↔ (self.now ≡ other.now) }
    {
        self.deck.is_same(&other.deck)
            && are_same_roots(self.roots(), other.roots())
            && self.shelf.is_same(&other.shelf)
    }

    /// The least box that contains the boxes of all flat shapes of the roots, in nm, within -2^30 to 2^30; `None` without
    /// shapes. Cost: linear in the roots; takes no memory.
    pub fn extent(&self) -> Option<Box2>
        ensures extent { result ≡ shown_extent self.now }
        ensures near { IfSome result (λ b. is_box_near b ≡ true) }
        ensures ordered { IfSome result IsOrdered }
    {
        roots_show_what_their_submissions_do();
        extents_are_least_boxes();
        roots_extent(&self.shelf, self.roots.as_slice())
    }

    /// The plan of the tiles over that extent; `None` without shapes, or if there would be more than 4096 tiles. Cost: linear in
    /// the roots and the rules; takes no memory.
    pub fn plan(&self) -> Option<Plan>
        ensures plan { result ≡ plan_for self.now }
        ensures plane { IfSome result WindowsLieInPlane }
    {
        windows_reach_no_further();
        self.is_snapshot();
        let extent = self.extent()?;
        Plan::of(extent, &self.deck).ok()
    }
}

/// The windows of the snapshot's tiles, one for each tile, in order; none if it has no shapes, or if there would be more
/// than 4096 tiles. They represent the snapshot: by layer and origin, a listed rectangle has a unit square of the tile's
/// window exactly if a placed shape of the roots has it.
///
/// The shapes are visited once. The rectangles of each are placed and listed in the windows with which they share a square,
/// found by division. Cost: that of the walk, the rectangles and the entries of the lists, with memory for the entries.
///
/// # Errors
/// Out of memory.
pub fn cut(alloc: Global, snapshot: &Snapshot) -> Result<Windows, AllocError>
    ensures windows { IfOk result (StandFor snapshot.now) }
    ensures near { IfOk result (ListNearby snapshot.now) }
{
    let Some(plan) = snapshot.plan() else {
        return Windows::from_vec(alloc, Vec::new(alloc));
    };
    snapshot.is_snapshot();
    let mut lists = empty_lists(alloc, plan.tiles())?;
    let mut walk = Walk::new(snapshot.shelf(), snapshot.roots());
    list_shapes(alloc, &mut lists, &plan, &mut walk)?;
    windows_from(alloc, lists)
}
