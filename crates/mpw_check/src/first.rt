//! Finds the first markers of each rule of a layout, and how many markers there are.
//!
//! If a layout is checked by tiles, its whole book is stitched, and one pass over it counts and selects them. A layout that is checked by columns can have
//! more markers than there is memory for. It is left to [`mpw_columns::first_of_columns`], which doesn't store the others.

ghost use Rattle.std.specs.Prelude.{◌≡◌, ◌<◌, ◌+◌, ◌^◌, [], Some, length, replicate, slice_index, All, IfOk, OnOk};
ghost use Rattle.mpw_columns.specs.First.{IsFirstOfLayout};
ghost use Rattle.mpw_columns_keys.specs.Firsts.{AreFirstOf};
ghost use Rattle.mpw_check.specs.Lists.{tile_count};
ghost use Rattle.mpw_check.specs.Internal.First.{AddsOne};

use crate::check::{check_all, checked_tiles};
use crate::group_firsts::{Sought, first_by_columns};
use mpw_columns::{FirstMarkers, Progress};
use mpw_markers::Marker;
use mpw_tiles::Snapshot;
use std::alloc::{AllocError, Global};
use std::thread::Threads;

/// Counts a marker, and stores it if fewer than `most` of its rule were stored. The only error is out of memory.
fn add_one(first: &mut FirstMarkers, marker: &Marker, most: usize) -> Result<(), AllocError>
    requires there { marker.now.key.rule < length first.old.counts.items }
    requires room { slice_index first.old.counts.items marker.now.key.rule + 1 < 2 ^ 64 }
    ensures { OnOk result (AddsOne most marker.now first.old first.new) }
{
    let rule = marker.key.rule as usize;
    let count = first.counts[rule];
    if count < most {
        first.markers.push(marker.copy()?)?;
    }
    first.counts[rule] = count + 1;
    Ok(())
}

/// No markers of `rules` rules yet, out of `all`. The only error is out of memory.
fn none_yet(alloc: Global, rules: usize, all: usize) -> Result<FirstMarkers, AllocError>
    ensures none { IfOk result (λ f. f.markers.items ≡ []) }
    ensures zeros { IfOk result (λ f. f.counts.items ≡ replicate rules 0) }
    ensures all { IfOk result (λ f. f.all ≡ all) }
{
    Ok(FirstMarkers {
        markers: Vec::new(alloc),
        counts: vec![in alloc; 0usize; rules]?,
        all,
    })
}

/// The first markers of each of `rules` rules of a book. One pass; the only error is out of memory.
fn first_of_book(
    alloc: Global,
    rules: usize,
    book: &[Marker],
    most: usize,
) -> Result<FirstMarkers, AllocError>
    requires { All (λ m. m.key.rule < rules) book.now }
    ensures { IfOk result (λ f. AreFirstOf most rules book.now f.markers.items f.counts.items f.all) }
{
    let mut first = none_yet(alloc, rules, book.len())?;
    for marker in book {
        add_one(&mut first, marker, most)?;
    }
    Ok(first)
}

/// The first markers of a layout, from its whole book. `tiles` is the number of all tiles.
fn first_of_tiles<P: Progress>(
    rt: &(impl Threads + Sync),
    alloc: Global,
    snapshot: &Snapshot,
    tiles: u32,
    most: usize,
    progress: &mut P,
) -> Result<FirstMarkers, AllocError>
    requires { tile_count snapshot.now ≡ Some tiles }
    ensures { IfOk result (IsFirstOfLayout most snapshot.now) }
{
    let book = check_all(rt, alloc, snapshot, tiles, progress)?;
    let rules = snapshot.deck().rules().as_slice().len();
    first_of_book(alloc, rules, book.as_slice(), most)
}

/// The first markers of each rule of the flat layout of a snapshot's roots under its deck, at most `most` of each, with how many each rule
/// has and how many there are, if the shelf has exactly one submission. They are the first of [`check_layout`](crate::check_layout).
///
/// It checks in the same way, by tiles or by columns. By tiles, of which there are at most 4096, the whole book is in memory before one pass over it.
/// By columns it costs what [`mpw_columns::first_of_columns`] does with [`mpw_columns::MAX_SHOWN`], which doesn't store the others. The result is the same either way.
///
/// # Errors
/// Out of memory.
pub fn first_of_layout<P: Progress>(
    rt: &(impl Threads + Sync),
    alloc: Global,
    snapshot: &Snapshot,
    most: usize,
    progress: &mut P,
) -> Result<FirstMarkers, AllocError>
    requires { length snapshot.now.shelf ≡ 1 }
    ensures { IfOk result (IsFirstOfLayout most snapshot.now) }
{
    match checked_tiles(snapshot) {
        Some(tiles) => first_of_tiles(rt, alloc, snapshot, tiles, most, progress),
        None => {
            let sought = Sought { snapshot, most };
            first_by_columns(rt, alloc, &sought, progress)
        }
    }
}
