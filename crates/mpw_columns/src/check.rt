//! Checks a layout by columns, in batches over all processors.

ghost use Rattle.std.specs.Prelude.{◌≡◌, ◌+◌, ◌≤◌, ◌<◌, length, take, drop, All, IfOk};
ghost use Rattle.std.specs.List.{AllZip};
ghost use Rattle.mpw_job.specs.Layout.{AreLayoutMarkers};
ghost use Rattle.mpw_columns_keys.specs.Columns.{seen_box, upright};
ghost use Rattle.mpw_columns.specs.Plan.{IsColumnWithin};
ghost use Rattle.mpw_columns.specs.Lists.{IsColumnList};
ghost use Rattle.mpw_columns.specs.Internal.Found.{IsUpright};
ghost use Rattle.mpw_columns_keys.specs.Firsts.{capped};
ghost use Rattle.mpw_columns.specs.Internal.Counted.{keys_at, keys_shared, share_at};
ghost use Rattle.mpw_columns.specs.Internal.Checked.{AreBatches, AreNext, IsLayout, HaveLists, IsTop, IsBatch};

use crate::batch::{Batch, Source, Top, count_along, top_of};
use crate::earlier::equal_to_earlier;
use crate::laws::{columns_have_whole_runs, columns_lie_within, lists_make_the_layout};
use crate::layout::{Layout, Ready};
use crate::like::{lists_with, own_columns, shares_of};
use crate::plan::counted_columns;
use crate::progress::Progress;
use mpw_columns_keys::{Column, ColumnKeys, together};
use mpw_deck::Rule;
use mpw_edges::test_decides_pair_steps;
use mpw_markers::{Book, Marker};
use mpw_tiles::Snapshot;
use rayon::current_num_threads;
use rayon::prelude::*;
use std::alloc::{AllocError, Global};
use std::thread::Threads;

/// The columns of a batch for each processor, and the least number of columns in a batch.
const FOR_EACH: usize = 4;

const AT_LEAST: usize = 16;

/// The most lists of shared rectangles. Each one takes a walk over the top. There can be one more for each axis.
const MOST_WALKS: usize = 16;

/// The most flat shapes in a column's window for which a thread needs only about ten megabytes for its walks and rectangles.
pub const MAX_SHOWN: u32 = 1 << 16;

/// The keys of a column of the layout. Cost: what [`Source::keys_of`] takes, and a sort of the keys. The only error is out of memory.
fn check_column(
    alloc: Global,
    layout: &Layout<'_>,
    source: &Source<'_>,
    column: &Column,
) -> Result<ColumnKeys, AllocError>
    requires layout { IsLayout layout.now }
    requires upright { IsUpright (upright (seen_box column.now.axis layout.now.extent) column.now) }
    requires top { IsTop layout.now source.now.top.now }
    requires batch { IsBatch layout.now source.now.batch.now }
    ensures { IfOk result (IsColumnList layout.now.snapshot.now column.now) }
{
    columns_have_whole_runs();
    test_decides_pair_steps();
    let keys = source.keys_of(alloc, layout, column)?;
    Ok(ColumnKeys::of(keys))
}

/// The keys of columns, one list for each, found by at most two threads for each processor.
fn lists_of(
    rt: &(impl Threads + Sync),
    alloc: Global,
    layout: &Layout<'_>,
    source: &Source<'_>,
    columns: &[Column],
) -> Result<Vec<ColumnKeys>, AllocError>
    requires layout { IsLayout layout.now }
    requires upright { All (λ c. IsUpright (upright (seen_box c.axis layout.now.extent) c)) columns.now }
    requires top { IsTop layout.now source.now.top.now }
    requires batch { IsBatch layout.now source.now.batch.now }
    ensures { IfOk result (λ v. AllZip (IsColumnList layout.now.snapshot.now) columns.now v.items) }
{
    columns
        .par_iter()
        .with_min_len(1)
        .map(
            |column: &Column| -> Result<ColumnKeys, AllocError>
                requires { IsLayout layout.now × (IsUpright (upright (seen_box column.now.axis layout.now.extent) column.now)
                    × (IsTop layout.now source.now.top.now × IsBatch layout.now source.now.batch.now)) }
                ensures { IfOk result (IsColumnList layout.entry.now.snapshot.now column.now) }
            { check_column(alloc, layout, source, column) },
        )
        .collect::<Result<Vec<ColumnKeys>, AllocError>>(rt, alloc)?
}

/// The size of a batch. It is large enough that no processor is idle for long if one column takes longer than others. If columns share a list of
/// rectangles, it is so large that there are few lists.
fn batch_of(rt: &impl Threads, batches: &Batches<'_>) -> usize
    ensures { 1 ≤ result }
{
    let least = current_num_threads(rt)
        .saturating_mul(FOR_EACH)
        .max(AT_LEAST);
    if batches.top.has_things() {
        return least;
    }
    least.max(batches.own.columns.len() / MOST_WALKS)
}

/// `count` columns from index `from` on.
fn batch_at(columns: &[Column], from: usize, count: usize) -> &[Column]
    requires { from + count ≤ length columns.now }
    ensures { result.now ≡ take count (drop from columns.now) }
{
    let (_, behind) = columns.split_at(from);
    let (batch, _) = behind.split_at(count);
    batch
}

/// The columns that are checked. For each, the number of columns that have its keys, displaced.
#[derive(Clone, Copy)]
pub(crate) struct Own<'a> {
    pub(crate) columns: &'a [Column],
    pub(crate) shares: &'a [usize],
}

impl Own<'_> {
    /// How many columns share the list of the column that is `k` places after another; 1 if that isn't known.
    fn share(&self, from: usize, k: usize) -> usize
        ensures { result ≡ share_at self.now.shares.now from k }
    {
        match self.shares.get(from.saturating_add(k)) {
            Some(share) => *share,
            None => 1,
        }
    }

    /// How many keys the columns have that share one of these lists, up to 2^64 - 1.
    fn keys_at(&self, from: usize, lists: &[ColumnKeys], k: usize) -> usize
        requires { k < length lists.now }
        ensures { result ≡ capped (keys_at self.now.shares.now from lists.now k) }
    {
        self.share(from, k)
            .saturating_mul(lists[k].as_slice().len())
    }

    /// How many keys all columns have that share these lists, displaced, up to 2^64 - 1. The lists are those of the columns from index `from` on.
    pub(crate) fn keys_from(&self, from: usize, lists: &[ColumnKeys]) -> usize
        ensures { result ≡ keys_shared self.now.shares.now from lists.now }
    {
        let mut keys = 0usize;
        for k in 0..lists.len() {
            keys = keys.saturating_add(self.keys_at(from, lists, k));
        }
        keys
    }
}

/// Columns of a layout that are checked batch by batch.
#[derive(Clone, Copy)]
pub(crate) struct Batches<'a> {
    pub(crate) layout: &'a Layout<'a>,
    pub(crate) own: &'a Own<'a>,
    pub(crate) top: &'a Top,
}

impl Batches<'_> {
    /// Whether all columns fit one batch of `most`. Then each takes its entries from those of the whole layout, if there is such a list.
    fn are_at_once(&self, most: usize) -> bool {
        self.top.has_things() && most == self.own.columns.len()
    }

    /// What these columns share.
    fn batch(&self, alloc: Global, columns: &[Column]) -> Result<Batch, AllocError>
        requires batches { AreBatches self.now }
        requires upright { All (λ c. IsUpright (upright (seen_box c.axis self.now.layout.now.extent) c)) columns.now }
        ensures { IfOk result (IsBatch self.now.layout.now) }
    {
        if self.are_at_once(columns.len()) {
            return Ok(Batch::none());
        }
        self.top.batch(alloc, self.layout, columns)
    }
}

/// The size of the next batch, from index `reached` on. Its columns have one axis, unless all columns are one batch.
fn next_count(rt: &impl Threads, batches: &Batches<'_>, reached: usize) -> usize
    requires { reached < length batches.now.own.now.columns.now }
    ensures some { 1 ≤ result }
    ensures within { reached + result ≤ length batches.now.own.now.columns.now }
{
    let columns = batches.own.columns;
    let most = batch_of(rt, batches).min(columns.len() - reached);
    if batches.are_at_once(most) {
        return most;
    }
    count_along(columns, reached, most)
}

/// The keys of the columns of the next batch, from index `reached` on: one list for each column, and at least one. The only error is out of memory.
pub(crate) fn lists_from(
    rt: &(impl Threads + Sync),
    alloc: Global,
    batches: &Batches<'_>,
    reached: usize,
) -> Result<Vec<ColumnKeys>, AllocError>
    requires batches { AreBatches batches.now }
    requires within { reached < length batches.now.own.now.columns.now }
    ensures { IfOk result (λ v. AreNext batches.now.layout.now.snapshot.now batches.now.own.now.columns.now reached v.items) }
{
    let count = next_count(rt, batches, reached);
    let next = batch_at(batches.own.columns, reached, count);
    let batch = batches.batch(alloc, next)?;
    let source = Source {
        top: batches.top,
        batch: &batch,
    };
    lists_of(rt, alloc, batches.layout, &source, next)
}

/// The keys of columns, one list for each, batch by batch. Progress is reported before the first batch and after each.
fn all_lists<P: Progress>(
    rt: &(impl Threads + Sync),
    alloc: Global,
    batches: &Batches<'_>,
    progress: &mut P,
) -> Result<Vec<ColumnKeys>, AllocError>
    requires batches { AreBatches batches.now }
    ensures { IfOk result (λ v. AllZip (IsColumnList batches.now.layout.now.snapshot.now) batches.now.own.now.columns.now v.items) }
{
    let total = batches.own.columns.len();
    progress.tell(0, total, 0);
    let mut lists = Vec::with_capacity(alloc, total)?;
    let (mut reached, mut markers) = (0, 0usize);
    while reached < total {
        let mut more = lists_from(rt, alloc, batches, reached)?;
        markers = markers.saturating_add(batches.own.keys_from(reached, more.as_slice()));
        reached += more.len();
        lists.append(&mut more)?;
        progress.tell(reached, total, markers);
        if !progress.has_room(markers) {
            return Err(AllocError);
        }
    }
    Ok(lists)
}

/// The keys of columns, one list for each. Columns that repeat no earlier one are checked. The lists of the others are displaced copies.
fn every_list<P: Progress>(
    rt: &(impl Threads + Sync),
    alloc: Global,
    layout: &Layout<'_>,
    columns: &[Column],
    progress: &mut P,
) -> Result<Vec<ColumnKeys>, AllocError>
    requires layout { IsLayout layout.now }
    requires upright { All (λ c. IsUpright (upright (seen_box c.axis layout.now.extent) c)) columns.now }
    ensures { IfOk result (λ v. AllZip (IsColumnList layout.now.snapshot.now) columns.now v.items) }
{
    let likes = equal_to_earlier(alloc, layout, columns)?;
    let own = own_columns(alloc, columns, likes.as_slice())?;
    let shares = shares_of(alloc, likes.as_slice())?;
    let checked = Own {
        columns: own.as_slice(),
        shares: shares.as_slice(),
    };
    let top = top_of(alloc, layout)?;
    let batches = Batches {
        layout: &*layout,
        own: &checked,
        top: &top,
    };
    let lists = all_lists(rt, alloc, &batches, progress)?;
    lists_with(alloc, layout, columns, likes.as_slice(), lists)
}

/// The keys of columns of a layout, one list for each, in the order of the columns. A list has the keys of the layout's maximal runs of the column's
/// axis whose `x1` lies in the column. The columns may be all of the layout's or a share of them: what a column finds is the same.
///
/// Some columns repeat an earlier one: they are identical up to translation. The check finds them by short lists of shapes and arrays, and displaces the
/// keys of the earlier column. For each column it makes a list of at most 4096 of them, and so looks at least at the top's shapes and references. It
/// holds at most 2^20 shapes and arrays. If an array has half of the layout's shapes, adjacent columns are compared as one before they are halved and
/// compared again. So few lists are made of an array of arrays, and in the worst case twice as many as there are columns.
///
/// The other columns are checked in batches of four for each processor, or of 16 if that is more, by at most two threads for each processor. If
/// rectangles are shared, a batch has at least a sixteenth of all. Progress counts these columns: before the first batch and after each.
///
/// One walk for each column finds the shapes whose boxes touch its window, and lists their rectangles on the rules' layers. So memory is needed for the
/// rectangles of as many columns as there are threads, and for the keys. A walk visits each shape and reference of the top. If the top has at least 2^18
/// of these, one walk lists the rectangles of a batch of adjacent columns, and each column selects its own in one pass. Then the rectangles of a batch
/// are in memory, and there are about 16 walks in all.
///
/// Cost of a column: its walk or its pass, its rectangles, a sort of them by layer, a pass over them for each halving, the bands and pairs of each part,
/// and a sort of its keys. A column that repeats an earlier one costs a pass over that column's keys.
///
/// # Errors
/// Out of memory; also if the progress has no room for the markers that are found.
pub fn lists_of_columns<P: Progress>(
    rt: &(impl Threads + Sync),
    alloc: Global,
    snapshot: &Snapshot,
    columns: &[Column],
    progress: &mut P,
) -> Result<Vec<ColumnKeys>, AllocError>
    requires alone { length snapshot.now.shelf ≡ 1 }
    requires within { All (IsColumnWithin snapshot.now) columns.now }
    ensures { IfOk result (λ v. AllZip (IsColumnList snapshot.now) columns.now v.items) }
{
    let Some(extent) = snapshot.extent() else {
        return Ok(Vec::new(alloc));
    };
    let ready = Ready::of(alloc, snapshot)?;
    let layout = ready.layout(snapshot, extent);
    every_list(rt, alloc, &layout, columns, progress)
}

/// How many rules there are.
pub(crate) fn rule_count(rules: &[Rule]) -> u32
    requires { length rules.now ≤ 256 }
    ensures { result ≡ length rules.now }
{
    rules.len() as u32
}

/// The markers of a layout, from the lists of its columns. The first `upright` columns are of axis `V`.
fn markers_of(
    alloc: Global,
    snapshot: &Snapshot,
    lists: &[ColumnKeys],
    upright: usize,
) -> Result<Vec<Marker>, AllocError>
    requires alone { length snapshot.now.shelf ≡ 1 }
    requires lists { HaveLists snapshot.now upright lists.now }
    ensures { IfOk result (λ v. AreLayoutMarkers snapshot.now v.items) }
{
    lists_make_the_layout();
    snapshot.is_snapshot();
    let rules = rule_count(snapshot.deck().rules().as_slice());
    let (vertical, horizontal) = lists.split_at(upright);
    together(alloc, rules, vertical, horizontal)
}

/// The markers of the flat layout of a snapshot's roots under its deck, in the order of their keys, if the shelf has exactly one submission. Each marker
/// then touches that submission.
///
/// It cuts the layout by [`columns_of`](crate::columns_of), finds the lists of all columns by [`lists_of_columns`], and joins them by [`together`]. With
/// [`MAX_SHOWN`] for `most`, a column takes about ten megabytes. At the end the markers are in memory twice: as keys of columns, and as the book's.
///
/// # Errors
/// Out of memory; also if the progress has no room for the markers that are found.
pub fn check_columns<P: Progress>(
    rt: &(impl Threads + Sync),
    alloc: Global,
    snapshot: &Snapshot,
    most: u32,
    progress: &mut P,
) -> Result<Book, AllocError>
    requires { length snapshot.now.shelf ≡ 1 }
    ensures { IfOk result (AreLayoutMarkers snapshot.now) }
{
    columns_lie_within();
    let (columns, upright) = counted_columns(alloc, snapshot, most)?;
    let lists = lists_of_columns(rt, alloc, snapshot, columns.as_slice(), progress)?;
    let markers = markers_of(alloc, snapshot, lists.as_slice(), upright)?;
    Book::from_vec(alloc, markers)
}
