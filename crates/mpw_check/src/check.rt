//! Checks a layout: by tiles, with a cut, a job for each tile, and the stitching; or by columns.

ghost use Rattle.std.specs.Prelude.{◌≡◌, ◌≤◌, Some, length, map, All, IfOk, IfSome};
ghost use Rattle.mpw_job.specs.Layout.{AreLayoutMarkers};
ghost use Rattle.mpw_tiles.specs.Placed.{WindowsLieInPlane};
ghost use Rattle.mpw_tiles.specs.Plan.{tiles};
ghost use Rattle.mpw_tiles.specs.Snapshots.{plan_for};
ghost use Rattle.mpw_check.specs.Lists.{tile_count, AreTiles, AreOfTiles};
ghost use Rattle.mpw_check.specs.Internal.Tiled.{IsCut, jobs_of, markers_in, IsAnswered};

use crate::groups::check_by_columns;
use crate::laws::tiles_make_the_layout;
use mpw_columns::Progress;
use mpw_columns_cuts::{is_placed, repeats};
use mpw_job::{Answer, Job, tile_job};
use mpw_markers::{Book, TileMarkers, stitch};
use mpw_tiles::{Plan, Snapshot, Windows, cut};
use mpw_work::work_all;
use std::alloc::{AllocError, Global};
use std::thread::Threads;

/// The number of the only run.
const ONLY_RUN: u32 = 1;

/// The greatest number of tiles of a batch.
const MAX_BATCH: u32 = 128;

/// The most flat shapes of a layout that is checked by tiles. All its windows are in memory at once.
const MAX_IN_TILES: u64 = 1 << 20;

/// A layout with more flat shapes than this is checked by columns if few structures have them.
const MANY_PLACED: u64 = 1 << 16;

/// A snapshot with its plan, and the windows into which it is cut for it.
#[derive(Clone, Copy)]
struct CutLayout<'a> {
    snapshot: &'a Snapshot,
    plan: &'a Plan,
    windows: &'a Windows,
}

/// The jobs of the tiles from `first` to below `end`, in order.
fn tile_jobs(
    alloc: Global,
    layout: &CutLayout<'_>,
    first: u32,
    end: u32,
) -> Result<Vec<Job>, AllocError>
    requires cut { IsCut layout.now.snapshot.now layout.now.plan.now layout.now.windows.now }
    requires ordered { first ≤ end }
    requires within { end ≤ tiles layout.now.plan.now }
    ensures { IfOk result (λ jobs. jobs.items ≡ jobs_of layout.now.snapshot.now layout.now.plan.now layout.now.windows.now first end) }
{
    let mut jobs = Vec::new(alloc);
    for tile in first..end {
        let job = tile_job(ONLY_RUN, tile, layout.snapshot, layout.plan, layout.windows)?;
        jobs.push(Job::Tile(job))?;
    }
    Ok(jobs)
}

/// The markers of an answer; none for a cut.
fn markers_in(answer: &Answer) -> Result<TileMarkers, AllocError>
    ensures { IfOk result (λ markers. markers ≡ markers_in answer.now) }
{
    match answer {
        Answer::Tile(answer) => answer.markers().copy(),
        Answer::Cut(_) => Ok(TileMarkers::none()),
    }
}

/// The markers of answers, in order.
fn lists_of(alloc: Global, answers: &[Answer]) -> Result<Vec<TileMarkers>, AllocError>
    ensures { IfOk result (λ lists. lists.items ≡ map markers_in answers.now) }
{
    let mut lists = Vec::new(alloc);
    for answer in answers {
        lists.push(markers_in(answer)?)?;
    }
    Ok(lists)
}

/// A law; the function does nothing. Each answer's markers answer its job.
fn is_answered(answer: &Answer)
    ensures { IsAnswered answer.now }
{
    if let Answer::Tile(answer) = answer {
        answer.is_answer();
    }
}

/// The same for answers, one by one.
fn are_answered(answers: &[Answer])
    ensures { All IsAnswered answers.now }
{
    for answer in answers {
        is_answered(answer);
    }
}

/// The markers of the tiles from `first` to below `end`, found in at most two threads for each processor.
#[tactic(auto, using(crate::proofs::TileLemmas::of_tiles))]
fn batch_lists(
    rt: &(impl Threads + Sync),
    alloc: Global,
    layout: &CutLayout<'_>,
    first: u32,
    end: u32,
) -> Result<Vec<TileMarkers>, AllocError>
    requires cut { IsCut layout.now.snapshot.now layout.now.plan.now layout.now.windows.now }
    requires ordered { first ≤ end }
    requires within { end ≤ tiles layout.now.plan.now }
    ensures { IfOk result (λ lists. AreOfTiles layout.now.snapshot.now first end lists.items) }
{
    let jobs = tile_jobs(alloc, layout, first, end)?;
    let answers = work_all(rt, alloc, jobs.as_slice())?;
    are_answered(answers.as_slice());
    lists_of(alloc, answers.as_slice())
}

/// How many markers these lists have in all.
fn marker_count(lists: &[TileMarkers]) -> usize {
    let mut markers = 0usize;
    for list in lists {
        markers = markers.saturating_add(list.as_slice().len());
    }
    markers
}

/// The same, batch by batch. Progress is reported before the first batch and after each.
fn tile_lists<P: Progress>(
    rt: &(impl Threads + Sync),
    alloc: Global,
    layout: &CutLayout<'_>,
    first: u32,
    end: u32,
    progress: &mut P,
) -> Result<Vec<TileMarkers>, AllocError>
    requires cut { IsCut layout.now.snapshot.now layout.now.plan.now layout.now.windows.now }
    requires ordered { first ≤ end }
    requires within { end ≤ tiles layout.now.plan.now }
    ensures { IfOk result (λ lists. AreOfTiles layout.now.snapshot.now first end lists.items) }
{
    let total = (end - first) as usize;
    progress.tell(0, total, 0);
    let mut lists = Vec::new(alloc);
    let (mut reached, mut markers) = (first, 0usize);
    while reached < end {
        let next = reached.saturating_add(MAX_BATCH).min(end);
        let mut batch = batch_lists(rt, alloc, layout, reached, next)?;
        markers = markers.saturating_add(marker_count(batch.as_slice()));
        lists.append(&mut batch)?;
        progress.tell(lists.len(), total, markers);
        reached = next;
    }
    Ok(lists)
}

/// The same for a snapshot with that plan. It is cut first.
fn planned_lists<P: Progress>(
    rt: &(impl Threads + Sync),
    alloc: Global,
    snapshot: &Snapshot,
    plan: &Plan,
    first: u32,
    end: u32,
    progress: &mut P,
) -> Result<Vec<TileMarkers>, AllocError>
    requires plan { plan_for snapshot.now ≡ Some plan.now }
    requires plane { WindowsLieInPlane plan.now }
    requires ordered { first ≤ end }
    requires within { end ≤ tiles plan.now }
    ensures { IfOk result (λ lists. AreOfTiles snapshot.now first end lists.items) }
{
    let windows = &cut(alloc, snapshot)?;
    let layout = CutLayout {
        snapshot,
        plan,
        windows,
    };
    tile_lists(rt, alloc, &layout, first, end, progress)
}

/// How many tiles there are to check, at most 4096. It is 0 without shapes, and `None` if there would be more than 4096. Cost: linear in the roots and
/// the rules; takes no memory.
pub fn tile_count(snapshot: &Snapshot) -> Option<u32>
    ensures count { result ≡ tile_count snapshot.now }
    ensures few { IfSome result (λ tiles. tiles ≤ 4096) }
{
    if snapshot.extent().is_none() {
        return Some(0);
    }
    match snapshot.plan() {
        Some(plan) => Some(plan.tiles()),
        None => None,
    }
}

/// The markers of the tiles from `first` to below `end`, counted from 0, one list for each. The lists of all tiles, wherever they were found, can be
/// stitched to the markers of the layout ([`tiles_make_the_layout`]).
///
/// The layout is cut once. Each of these tiles is a job, and the jobs are executed in at most two threads for each processor, in batches of
/// up to 128 tiles. Only the jobs of a batch are in memory at a time. Progress is reported after the cut and after each batch. Cost: that
/// of [`mpw_tiles::cut`], and of [`mpw_work::do_job`] for each of these tiles.
///
/// # Errors
/// Out of memory.
#[tactic(auto, using(crate::proofs::TileLemmas::within_plan, crate::proofs::TileLemmas::none_there))]
pub fn check_tiles<P: Progress>(
    rt: &(impl Threads + Sync),
    alloc: Global,
    snapshot: &Snapshot,
    first: u32,
    end: u32,
    progress: &mut P,
) -> Result<Vec<TileMarkers>, AllocError>
    requires { AreTiles snapshot.now first end }
    ensures { IfOk result (λ lists. AreOfTiles snapshot.now first end lists.items) }
{
    match snapshot.plan() {
        Some(plan) => planned_lists(rt, alloc, snapshot, &plan, first, end, progress),
        None => Ok(Vec::new(alloc)),
    }
}

/// The book of a layout that is checked by tiles. `tiles` is the number of all tiles.
#[tactic(auto, using(crate::proofs::TileLemmas::all_there))]
pub(crate) fn check_all<P: Progress>(
    rt: &(impl Threads + Sync),
    alloc: Global,
    snapshot: &Snapshot,
    tiles: u32,
    progress: &mut P,
) -> Result<Book, AllocError>
    requires { tile_count snapshot.now ≡ Some tiles }
    ensures { IfOk result (AreLayoutMarkers snapshot.now) }
{
    tiles_make_the_layout();
    snapshot.is_snapshot();
    let lists = check_tiles(rt, alloc, snapshot, 0, tiles, progress)?;
    stitch(alloc, &lists)
}

/// How many flat shapes the layout has, up to 2^64 - 1.
fn shape_count(snapshot: &Snapshot) -> u64 {
    let mut count = 0u64;
    for root in snapshot.roots() {
        count = count.saturating_add(u64::from(snapshot.shelf().count(root.submission)));
    }
    count
}

/// By how many tiles [`check_layout`] checks a layout. `None` if it checks the layout by columns. It does so in each of these cases:
/// - if there are more than 2^20 flat shapes;
/// - if more than 4096 tiles of the deck's side cover the layout;
/// - if arrays have at least half of its flat shapes, since equal columns of these are checked once;
/// - if there are more than 2^16 flat shapes, and at least three for each drawn shape and each reference, since equal parts of columns are checked once.
///
/// Cost: a visit of the children of a structure on each level of these arrays, and one pass over the structures.
pub fn checked_tiles(snapshot: &Snapshot) -> Option<u32>
    ensures { IfSome result (λ tiles. tile_count snapshot.now ≡ Some tiles) }
{
    let count = shape_count(snapshot);
    if count > MAX_IN_TILES || repeats(snapshot) {
        return None;
    }
    if count > MANY_PLACED && is_placed(snapshot) {
        return None;
    }
    tile_count(snapshot)
}

/// The markers of the flat layout of a snapshot's roots under its deck, in the order of their keys, if the shelf has exactly one
/// submission.
///
/// A layout of at most 2^20 flat shapes that at most 4096 tiles of the deck's side cover is checked by tiles, unless few structures have most of it
/// ([`checked_tiles`]). The cost is that of [`check_tiles`] for all tiles, and of [`mpw_markers::stitch`]. All other layouts are checked by columns, at the
/// cost of [`mpw_columns::check_columns`] with [`mpw_columns::MAX_SHOWN`]; if few structures have most of the layout, group by group, where the rules of a
/// group share layers. The result is the same either way. Progress reports tiles or columns. The total grows when a group begins. Some layouts make a check
/// by columns slow, or make it need much memory:
/// - a column holds the rectangles of all shapes that touch its window, however many there are;
/// - wires across all columns are listed in each, so columns that halving would ease by less than a quarter stay whole;
/// - each column walks over all instances of an array that touches its window.
///
/// # Errors
/// Out of memory.
pub fn check_layout<P: Progress>(
    rt: &(impl Threads + Sync),
    alloc: Global,
    snapshot: &Snapshot,
    progress: &mut P,
) -> Result<Book, AllocError>
    requires { length snapshot.now.shelf ≡ 1 }
    ensures { IfOk result (AreLayoutMarkers snapshot.now) }
{
    match checked_tiles(snapshot) {
        Some(tiles) => check_all(rt, alloc, snapshot, tiles, progress),
        None => check_by_columns(rt, alloc, snapshot, progress),
    }
}
