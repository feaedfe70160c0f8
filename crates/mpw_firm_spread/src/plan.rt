//! The columns into which a layout is cut for its shares.
ghost use Rattle.std.specs.Prelude.{◌≤◌, ◌^◌, length, IfOk, IfSome};
ghost use Rattle.mpw_columns.specs.Plan.{AreColumnsOfLayout};
ghost use Rattle.mpw_firm_spread.specs.Ranges.{IsSpanOf};

use crate::costs::costs_of;
use crate::range::{ColumnRange, Span};
use mpw_columns::{MAX_SHOWN, columns_of};
use mpw_columns_cuts::{is_placed, repeats};
use mpw_columns_keys::Column;
use mpw_tiles::Snapshot;
use std::alloc::{AllocError, Global};

/// The fewest shapes that a column of a share may show.
const LEAST_SHOWN: u64 = 1 << 10;

/// A column may show one in so many of all shapes. So each axis has at least so many columns, if the layout has the shapes for that.
const SHARED: u64 = 64;

/// The same for a layout of which few structures show most, and in which no array repeats. There [`columns_of`] lets a column show 16 times as many, so each
/// axis has at least 32 columns. Fewer columns are wider, and equal parts of a column are checked once.
const SHARED_PLACED: u64 = 512;

/// A layout, and the columns into which it is cut.
#[derive(Clone, Copy)]
pub struct Plan<'a> {
    /// The layout under a deck.
    pub snapshot: &'a Snapshot,
    /// Its columns: those of axis `V` from the left, and after them those of axis `H` from below.
    pub columns: &'a [Column],
}

impl Plan<'_> {
    /// The columns that a range asks for: none if the layout has not all of them, or if there is no such share. A share ends at the first column before which
    /// the estimated costs reach its part of all. So it costs at most an equal part and one column, by the estimate.
    ///
    /// Cost: a few passes over the structures, and a few look-ups for each column.
    ///
    /// # Errors
    /// Out of memory.
    pub fn span(self, alloc: Global, range: ColumnRange) -> Result<Option<Span>, AllocError>
        requires { length self.columns.now ≤ 2 ^ 22 }
        ensures span { IfOk result (IsSpanOf range (length self.entry.columns.now)) }
        ensures ordered { IfOk result (λ o. IfSome o (λ s. s.first ≤ s.end)) }
        ensures within { IfOk result (λ o. IfSome o (λ s. s.end ≤ length self.entry.columns.now)) }
    {
        let costs = costs_of(alloc, self.snapshot, self.columns)?;
        Ok(range.span(costs.as_slice()))
    }
}

/// How many shapes a column of a layout's shares may show: its part of all, and no more than a column of a whole check, so that there are some columns for
/// each of many machines.
fn most_of(snapshot: &Snapshot) -> u32 {
    let mut shapes = 0u64;
    for root in snapshot.roots() {
        shapes = shapes.saturating_add(u64::from(snapshot.shelf().count(root.submission)));
    }
    let parts = if is_placed(snapshot) && !repeats(snapshot) {
        SHARED_PLACED
    } else {
        SHARED
    };
    let most = (shapes / parts).max(LEAST_SHOWN).min(u64::from(MAX_SHOWN));
    most as u32
}

/// The columns of a layout for its shares: those of axis `V` from the left, and after them those of axis `H` from below; none without
/// shapes. They are the same on each machine. It costs what [`mpw_columns::columns_of`] does.
///
/// # Errors
/// Out of memory.
pub fn columns_for_shares(alloc: Global, snapshot: &Snapshot) -> Result<Vec<Column>, AllocError>
    ensures columns { IfOk result (λ v. AreColumnsOfLayout snapshot.now v.items) }
    ensures few { IfOk result (λ v. length v.items ≤ 2 ^ 22) }
{
    columns_of(alloc, snapshot, most_of(snapshot))
}
