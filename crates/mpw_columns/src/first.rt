//! Finds the first markers of each rule of a layout, and how many markers there are.
//!
//! For each column only the first keys of each list are held, and their number. Columns that repeat an earlier one share its keys, displaced. So
//! the memory doesn't grow with the markers that aren't requested.

ghost use Rattle.std.specs.Prelude.{◌≡◌, ◌*◌, ◌+ℤ◌, ◌-ℤ◌, length, All, IfOk, OnOk};
ghost use Rattle.std.specs.List.{AllZip};
ghost use Rattle.mpw_columns_keys.specs.Columns.{seen_box, upright};
ghost use Rattle.mpw_columns_keys.specs.Keys.{IsNear};
ghost use Rattle.mpw_columns.specs.First.{IsFirstOfLayout};
ghost use Rattle.mpw_columns.specs.Plan.{IsColumnWithin};
ghost use Rattle.mpw_columns.specs.Internal.Checked.{AreBatches, IsLayout};
ghost use Rattle.mpw_columns.specs.Internal.Counted.{keys_held};
ghost use Rattle.mpw_columns.specs.Internal.Firsts.{AddsFirsts, HasFirsts, HasLayoutListing, HasListing, IsPlacedAt, IsSpot};
ghost use Rattle.mpw_columns.specs.Internal.Found.{IsUpright};
ghost use Rattle.mpw_columns.specs.Internal.Like.{AreLikes, own_columns};

use crate::batch::top_of;
use crate::check::{Batches, Own, lists_from, rule_count};
use crate::earlier::equal_to_earlier;
use crate::laws::{
    columns_lie_within, displaced_columns_have_displaced_lists, lists_make_the_layout,
};
use crate::layout::{Layout, Ready};
use crate::like::{own_columns, shares_of};
use crate::plan::counted_columns;
use crate::progress::Progress;
use mpw_columns_keys::{
    Column, ColumnKeys, First, Firsts, Placed, Shared, shared_lists_have_the_first,
};
use mpw_edges::test_decides_pair_steps;
use mpw_markers::Marker;
use mpw_tiles::Snapshot;
use std::alloc::{AllocError, Global};
use std::thread::Threads;

/// The first markers of each rule of a layout, and how many markers there are.
#[derive(Drop)]
pub struct FirstMarkers {
    /// The first markers of each rule. Those of one rule are in the order of a book.
    pub markers: Vec<Marker>,
    /// How many markers each rule has, by its index in the deck, up to 2^64 - 1.
    pub counts: Vec<usize>,
    /// How many markers there are, up to 2^64 - 1.
    pub all: usize,
}

/// The first keys of the checked columns, and for each column which of them it has, displaced.
#[derive(Drop)]
struct Listing {
    firsts: Vec<Firsts>,
    placed: Vec<Placed>,
}

/// Columns to check, and how many keys of each list are requested.
#[derive(Clone, Copy)]
struct Sought<'a> {
    columns: &'a [Column],
    most: usize,
}

/// The limits of a check.
#[derive(Clone, Copy)]
pub struct Bounds {
    /// The most flat shapes of a column.
    pub shapes: u32,
    /// The most markers of each rule that are returned.
    pub markers: usize,
}

/// How many lists of keys a column has: two for each rule.
fn list_count(snapshot: &Snapshot) -> u32
    ensures { result ≡ 2 * length snapshot.now.deck.rules }
{
    snapshot.is_snapshot();
    2 * rule_count(snapshot.deck().rules().as_slice())
}

/// How many keys are held of a list.
fn held_of(list: &First) -> usize
    ensures { result ≡ length list.now.keys.items }
{
    list.keys.len()
}

/// How many keys are held of the lists of a column, up to 2^64 - 1.
fn kept_of(lists: &[First]) -> usize
    ensures { result ≡ keys_held lists.now }
{
    let mut kept = 0usize;
    for list in lists {
        kept = kept.saturating_add(held_of(list));
    }
    kept
}

/// Adds the first keys of each of these lists. Returns how many are held. The only error is out of memory.
fn add_firsts(
    alloc: Global,
    firsts: &mut Vec<Firsts>,
    lists: &[ColumnKeys],
    count: u32,
    most: usize,
) -> Result<usize, AllocError>
    ensures { OnOk result (AddsFirsts most count lists.now firsts.old.items firsts.new.items) }
{
    let mut kept = 0usize;
    for list in lists {
        let column = Firsts::of(alloc, list, count, most)?;
        kept = kept.saturating_add(kept_of(column.lists.as_slice()));
        firsts.push(column)?;
    }
    Ok(kept)
}

/// The first keys of columns, found batch by batch. Progress is reported before the first batch and after each. The only error is out of memory, also if
/// the progress has no room for the keys that are held.
fn all_firsts<P: Progress>(
    rt: &(impl Threads + Sync),
    alloc: Global,
    batches: &Batches<'_>,
    most: usize,
    progress: &mut P,
) -> Result<Vec<Firsts>, AllocError>
    requires batches { AreBatches batches.now }
    ensures { IfOk result (λ v. AllZip (HasFirsts batches.now.layout.now.snapshot.now most (2 * length batches.now.layout.now.snapshot.now.deck.rules))
        batches.now.own.now.columns.now v.items) }
{
    let total = batches.own.columns.len();
    let count = list_count(batches.layout.snapshot);
    progress.tell(0, total, 0);
    let mut firsts = Vec::with_capacity(alloc, total)?;
    let (mut reached, mut markers, mut kept) = (0, 0usize, 0usize);
    while reached < total {
        let more = lists_from(rt, alloc, batches, reached)?;
        markers = markers.saturating_add(batches.own.keys_from(reached, more.as_slice()));
        let added = add_firsts(alloc, &mut firsts, more.as_slice(), count, most)?;
        kept = kept.saturating_add(added);
        reached += more.len();
        progress.tell(reached, total, markers);
        if !progress.has_room(kept) {
            return Err(AllocError);
        }
    }
    Ok(firsts)
}

/// Which lists a column has that repeats an earlier one, given those of the earlier one.
fn from_earlier(earlier: &Column, placed: &Placed, column: &Column) -> Placed
    requires earlier { IsSpot earlier.now.from }
    requires column { IsSpot column.now.from }
    requires placed { IsNear placed.now.by }
    ensures list { result.list ≡ placed.now.list }
    ensures by { result.by ≡ (placed.now.by +ℤ (column.now.from -ℤ earlier.now.from)) }
{
    Placed {
        list: placed.list,
        by: placed.by + (column.from - earlier.from),
    }
}

/// For each column its lists, out of those of the columns that repeat no earlier one. One pass. The only error is out of memory.
fn placed_columns(
    alloc: Global,
    layout: &Layout<'_>,
    columns: &[Column],
    likes: &[Option<usize>],
) -> Result<Vec<Placed>, AllocError>
    requires layout { IsLayout layout.now }
    requires upright { All (λ c. IsUpright (upright (seen_box c.axis layout.now.extent) c)) columns.now }
    requires likes { AreLikes layout.now columns.now likes.now }
    ensures { IfOk result (λ v. AllZip (IsPlacedAt layout.now.snapshot.now (own_columns columns.now likes.now)) columns.now v.items) }
{
    test_decides_pair_steps();
    displaced_columns_have_displaced_lists();
    let mut placed: Vec<Placed> = Vec::with_capacity(alloc, columns.len())?;
    let mut own = 0usize;
    for place in 0..columns.len() {
        let next = match likes[place] {
            Some(earlier) => from_earlier(&columns[earlier], &placed[earlier], &columns[place]),
            None => {
                let list = own;
                own += 1;
                Placed { list, by: 0 }
            }
        };
        placed.push(next)?;
    }
    Ok(placed)
}

/// The first keys of columns of a layout. Columns that repeat no earlier one have keys of their own, and the others share them. The only error is out of
/// memory.
fn listing_in<P: Progress>(
    rt: &(impl Threads + Sync),
    alloc: Global,
    layout: &Layout<'_>,
    sought: &Sought<'_>,
    progress: &mut P,
) -> Result<Listing, AllocError>
    requires layout { IsLayout layout.now }
    requires upright { All (λ c. IsUpright (upright (seen_box c.axis layout.now.extent) c)) sought.now.columns.now }
    ensures { IfOk result (HasListing layout.now.snapshot.now sought.now.most sought.now.columns.now) }
{
    test_decides_pair_steps();
    let likes = equal_to_earlier(alloc, layout, sought.columns)?;
    let own = own_columns(alloc, sought.columns, likes.as_slice())?;
    let shares = shares_of(alloc, likes.as_slice())?;
    let checked = Own {
        columns: own.as_slice(),
        shares: shares.as_slice(),
    };
    let top = top_of(alloc, layout)?;
    let batches = Batches {
        layout: &*layout,
        own: &checked,
        top: &top,
    };
    let firsts = all_firsts(rt, alloc, &batches, sought.most, progress)?;
    let placed = placed_columns(alloc, layout, sought.columns, likes.as_slice())?;
    Ok(Listing { firsts, placed })
}

/// The first keys of columns of a snapshot's layout. The only error is out of memory.
fn listing_of<P: Progress>(
    rt: &(impl Threads + Sync),
    alloc: Global,
    snapshot: &Snapshot,
    sought: &Sought<'_>,
    progress: &mut P,
) -> Result<Listing, AllocError>
    requires alone { length snapshot.now.shelf ≡ 1 }
    requires within { All (IsColumnWithin snapshot.now) sought.now.columns.now }
    ensures { IfOk result (HasListing snapshot.now sought.now.most sought.now.columns.now) }
{
    let Some(extent) = snapshot.extent() else {
        return Ok(Listing {
            firsts: Vec::new(alloc),
            placed: Vec::new(alloc),
        });
    };
    let ready = Ready::of(alloc, snapshot)?;
    let layout = ready.layout(snapshot, extent);
    listing_in(rt, alloc, &layout, sought, progress)
}

/// The first markers of a layout, from the first keys of its columns. The first `upright` columns are of axis `V`. The only error is out of memory.
fn markers_of(
    alloc: Global,
    snapshot: &Snapshot,
    listing: &Listing,
    upright: usize,
    most: usize,
) -> Result<FirstMarkers, AllocError>
    requires alone { length snapshot.now.shelf ≡ 1 }
    requires listing { HasLayoutListing snapshot.now most upright listing.now }
    ensures { IfOk result (IsFirstOfLayout most snapshot.now) }
{
    lists_make_the_layout();
    shared_lists_have_the_first();
    test_decides_pair_steps();
    snapshot.is_snapshot();
    let rules = rule_count(snapshot.deck().rules().as_slice());
    let (upright, across) = listing.placed.as_slice().split_at(upright);
    let shared = Shared {
        firsts: listing.firsts.as_slice(),
        upright,
        across,
    };
    Ok(FirstMarkers {
        markers: shared.first_markers(alloc, rules, most)?,
        counts: shared.counts(alloc, rules)?,
        all: shared.count(rules),
    })
}

/// The first markers of each rule of the flat layout of a snapshot's roots under its deck, at most `markers` of each, and how many each rule has, if the
/// shelf has exactly one submission. They are the first of [`check_columns`](crate::check_columns); the others aren't held.
///
/// It finds the same markers, column by column. Of each column that repeats no earlier one it holds at most `markers` keys of each rule, axis and side.
/// With `markers` 0 only the lists of the columns at work and the counts are in memory.
///
/// # Errors
/// Out of memory; also if the progress has no room for the keys that are held.
pub fn first_of_columns<P: Progress>(
    rt: &(impl Threads + Sync),
    alloc: Global,
    snapshot: &Snapshot,
    bounds: Bounds,
    progress: &mut P,
) -> Result<FirstMarkers, AllocError>
    requires { length snapshot.now.shelf ≡ 1 }
    ensures { IfOk result (IsFirstOfLayout bounds.markers snapshot.now) }
{
    columns_lie_within();
    let (columns, upright) = counted_columns(alloc, snapshot, bounds.shapes)?;
    let sought = Sought {
        columns: columns.as_slice(),
        most: bounds.markers,
    };
    let listing = listing_of(rt, alloc, snapshot, &sought, progress)?;
    markers_of(alloc, snapshot, &listing, upright, bounds.markers)
}
