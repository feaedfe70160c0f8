//! The rows of a boundary, right of the edges that were processed: a tree that halves the heights of the
//! corners. Rows in the same state are one node.
//!
//! What is to be added to all rows of a node is stored at the node alone, and passed on when its halves are
//! needed (`halves_of`). Each node has a gap around 0 that contains no winding number of its rows. While 0
//! stays in the gap, no row begins or ends.

ghost use Rattle.std.specs.Prelude.{◌≡◌, ◌≢◌, ◌<◌, ◌+◌, ◌^◌, ◌↔◌, ℕ, ℤ, pos, ◌+ℤ◌, ◌≤ℤ◌, ◌<ℤ◌, IsTrue, List, IfOk, FitsSigned};
ghost use Rattle.std.specs.Int.{int_max, w64};
ghost use Rattle.mpw_shapes.specs.Internal.Rows.{IsBuilt, IsOutside, half_at, middle, past, raised, reach, size_of, state_at, turn_of};

use crate::edge::Edge;
use std::alloc::{AllocError, Global};

/// A row right of the edges processed so far.
#[derive(Clone, Copy)]
pub(crate) struct State {
    /// How many of these edges go up across the row, minus those that go down.
    pub winding: i64,
    /// Where the squares began that are in no box yet; 0 if the winding number is 0.
    pub since: i64,
}

impl State {
    /// The state left of all edges.
    pub const ZERO: State = State {
        winding: 0,
        since: 0,
    };

    /// Whether the two are equal.
    fn is_same(self, other: State) -> bool
        ensures { IsTrue result ↔ (self ≡ other) }
    {
        self.winding == other.winding && self.since == other.since
    }

    /// The row with more turns around it.
    #[tactic(auto, unfolding(crate::specs::Internal::Rows::raised))]
    fn raise(self, added: Added) -> State
        requires fits { FitsSigned w64 (self.winding +ℤ added.winding) }
        ensures { result ≡ raised added self }
    {
        State {
            winding: self.winding + added.winding,
            since: self.since,
        }
    }

    /// The row right of an edge that crosses it.
    pub fn past(self, edge: Edge) -> State
        requires fits { FitsSigned w64 (self.winding +ℤ (turn_of edge).winding) }
        ensures { result ≡ past edge self }
    {
        let after = self.raise(edge.turn());
        if self.winding == 0 {
            State {
                since: edge.x,
                ..after
            }
        } else if after.winding == 0 {
            State { since: 0, ..after }
        } else {
            after
        }
    }
}

/// What is added to the winding numbers of rows.
#[derive(Clone, Copy)]
pub(crate) struct Added {
    /// How many edges go up, minus those that go down. It may be negative.
    pub winding: i64,
}

impl Added {
    const NONE: Added = Added { winding: 0 };

    fn plus(self, other: Added) -> Added
        requires fits { FitsSigned w64 (self.winding +ℤ other.winding) }
        ensures { result ≡ record { winding = self.winding +ℤ other.winding } }
    {
        Added {
            winding: self.winding + other.winding,
        }
    }
}

/// No row's winding number lies strictly between the two ends. A narrower gap is correct too: it only costs time,
/// so no contract says how wide it is.
#[derive(Clone, Copy)]
pub(crate) struct Gap {
    /// The lower end; it may be a row's winding number.
    pub down: i64,
    /// The upper end; it may be a row's winding number.
    pub up: i64,
}

impl Gap {
    /// The widest gap around 0 that doesn't contain the row's winding number.
    fn round(state: State) -> Gap
        ensures { IsOutside result state.winding }
    {
        if state.winding < 0 {
            Gap {
                down: state.winding,
                up: i64::MAX,
            }
        } else {
            Gap {
                down: i64::MIN,
                up: state.winding,
            }
        }
    }

    /// The intersection of both gaps.
    fn intersection(self, other: Gap) -> Gap
        ensures one { (w : ℤ) → IsOutside self w → IsOutside result w }
        ensures other { (w : ℤ) → IsOutside other w → IsOutside result w }
    {
        Gap {
            down: self.down.max(other.down),
            up: self.up.min(other.up),
        }
    }

    /// The gap after this is added to the winding numbers.
    fn raise(self, added: Added) -> Gap
        ensures { (w : ℤ) → FitsSigned w64 (w +ℤ added.winding) → IsOutside self w → IsOutside result (w +ℤ added.winding) }
    {
        Gap {
            down: self.down.saturating_add(added.winding),
            up: self.up.saturating_add(added.winding),
        }
    }

    /// Whether 0 lies in the gap, and still does after this is added: no winding number is or becomes 0.
    pub fn hides(self, added: Added) -> bool
        ensures before { IsTrue result → (w : ℤ) → IsOutside self w → w ≢ pos 0 }
        ensures after { IsTrue result → (w : ℤ) → IsOutside self w → (w +ℤ added.winding) ≢ pos 0 }
    {
        self.down < 0
            && 0 < self.up
            && self.down.saturating_add(added.winding) < 0
            && 0 < self.up.saturating_add(added.winding)
    }
}

/// The rows between two heights of the corners. The heights are in a list, and a node is always used with
/// the indices from which and to which it goes. Its halves join in the middle of the two.
#[cycle(rows)]
#[derive(Drop)]
pub(crate) enum Rows {
    /// All of them are in the same state.
    Alike(State),
    /// They are in different states.
    Parted(Box<Halves>),
}

/// The halves of a node whose rows are in different states.
#[cycle(rows)]
#[derive(Drop)]
pub(crate) struct Halves {
    /// The lower rows.
    pub below: Rows,
    /// The upper rows.
    pub above: Rows,
    /// What is still to be added to the rows of both halves.
    pub added: Added,
    /// The gap of the rows' winding numbers, including what is still to be added.
    pub gap: Gap,
}

impl Rows {
    /// Adds to the winding numbers of all rows. Cost: O(1).
    pub fn raise(&mut self, added: Added)
        requires room { (reach self.old +ℤ size_of added.winding) <ℤ pos (2 ^ 63) }
        ensures states { (rows : List ℤ) (from to : ℕ) (row : ℤ) → state_at self.new rows from to row ≡ raised added (state_at self.old rows from to row) }
        ensures built { (rows : List ℤ) (from to : ℕ) → IsBuilt self.old rows from to → IsBuilt self.new rows from to }
        ensures reach { reach self.new ≤ℤ (reach self.old +ℤ size_of added.winding) }
    {
        match self {
            Rows::Alike(state) => {
                *state = state.raise(added);
            }
            Rows::Parted(halves) => {
                halves.added = halves.added.plus(added);
                halves.gap = halves.gap.raise(added);
            }
        }
    }

    /// A gap around 0 that contains no row's winding number. Cost: O(1).
    pub fn gap(&self) -> Gap
        ensures { (rows : List ℤ) (from to : ℕ) → IsBuilt self.now rows from to → (row : ℤ) → IsOutside result (state_at self.now rows from to row).winding }
    {
        match self {
            Rows::Alike(state) => Gap::round(*state),
            Rows::Parted(halves) => halves.gap,
        }
    }
}

/// The halves of a node, with what was still to be added to them. The only error is out of memory. Cost:
/// O(1).
pub(crate) fn halves_of(alloc: Global, node: Rows) -> Result<Box<Halves>, AllocError>
    requires room { reach node <ℤ pos (2 ^ 63) }
    ensures states { IfOk result (λ halves. (rows : List ℤ) (from to : ℕ) (row : ℤ) → half_at halves.value.below halves.value.above rows from to row ≡ state_at node rows from to row) }
    ensures built { IfOk result (λ halves. (rows : List ℤ) (from to : ℕ) → IsBuilt node rows from to → IsBuilt halves.value.below rows from (middle from to) × IsBuilt halves.value.above rows (middle from to) to) }
    ensures below { IfOk result (λ halves. reach halves.value.below ≤ℤ reach node) }
    ensures above { IfOk result (λ halves. reach halves.value.above ≤ℤ reach node) }
{
    match node {
        Rows::Alike(state) => {
            let halves = Box::new(
                alloc,
                Halves {
                    below: Rows::Alike(state),
                    above: Rows::Alike(state),
                    added: Added::NONE,
                    gap: Gap::round(state),
                },
            )?;
            Ok(halves)
        }
        Rows::Parted(mut halves) => {
            let added = halves.added;
            halves.below.raise(added);
            halves.above.raise(added);
            Ok(halves)
        }
    }
}

/// The node of two halves. Nothing is left to be added to it. Cost: O(1).
pub(crate) fn node_of(mut halves: Box<Halves>) -> Rows
    ensures states { (rows : List ℤ) (from to : ℕ) (row : ℤ) → state_at result rows from to row ≡ half_at halves.value.below halves.value.above rows from to row }
    ensures built { (rows : List ℤ) (from to : ℕ) → from + 1 < to → IsBuilt halves.value.below rows from (middle from to) → IsBuilt halves.value.above rows (middle from to) to → IsBuilt result rows from to }
    ensures reach { reach result ≤ℤ int_max (reach halves.value.below) (reach halves.value.above) }
{
    if let Rows::Alike(below) = halves.below
        && let Rows::Alike(above) = halves.above
        && below.is_same(above)
    {
        return Rows::Alike(below);
    }
    halves.added = Added::NONE;
    halves.gap = halves.below.gap().intersection(halves.above.gap());
    Rows::Parted(halves)
}
