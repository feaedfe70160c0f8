//! Stitches the markers of tiles into one book.
//!
//! All markers are sorted by line and then by row, so that those of a run are adjacent. One pass then splits
//! the list into runs. Each is one marker, whose submissions are those of the markers in it, sorted, each once.

ghost use Rattle.std.specs.Prelude.{◌≡◌, ◌≤◌, ◌++◌, ◌<ℤ◌, ◌≤ℤ◌, ◌↔◌, length, map, IfOk, OnOk, All, Contains, IsTrue, MatchBool};
ghost use Rattle.std.specs.List.{flat_map};
ghost use Rattle.std.specs.List.Sorted.{IsPermutation};
ghost use Rattle.mpw_markers.specs.Markers.{line_of, line_of_key, IsFilled};
ghost use Rattle.mpw_markers.specs.Internal.Order.{AreInOrder};
ghost use Rattle.mpw_markers.specs.Stitched.{IsJoined, IsStitched};
ghost use Rattle.mpw_markers.specs.Internal.Runs.{lengthened, AreMetBy, IsFirstRun, AddsRun};

use crate::book::Book;
use crate::marker::{Key, Marker, TileMarkers};
use crate::met::Met;
use mpw_edges::Piece;
use std::alloc::{AllocError, Global};

impl Key {
    /// Whether the marker lies on the line of this key.
    fn is_on_line_of(&self, marker: &Marker) -> bool
        ensures { IsTrue result ↔ (line_of_key self.now ≡ line_of marker.now) }
    {
        self.line() == marker.line()
    }

    /// Whether the marker continues the run of this key: it lies on the run's line, and begins at the run's end or
    /// before.
    fn reaches(&self, next: &Marker) -> bool
        ensures { MatchBool result
            ((line_of_key self.now ≡ line_of next.now) × (next.now.key.piece.y0 ≤ℤ self.now.piece.y1))
            ((line_of_key self.now ≡ line_of next.now) → self.now.piece.y1 <ℤ next.now.key.piece.y0) }
    {
        self.is_on_line_of(next) && next.key.piece.y0 <= self.piece.y1
    }

    /// This run, extended to the end of the marker.
    fn longer_key(&self, next: &Marker) -> Key
        ensures { result ≡ lengthened self.now next.now }
    {
        let y1 = self.piece.y1.max(next.key.piece.y1);
        let piece = Piece { y1, ..self.piece };
        Key { piece, ..*self }
    }
}

/// Adds the markers.
fn add_all<'a>(all: &mut Vec<&'a Marker>, markers: &'a [Marker]) -> Result<(), AllocError>
    ensures { OnOk result (map (λ m. m.now) all.new.items ≡ map (λ m. m.now) all.old.items ++ markers.entry.now) }
{
    for marker in markers {
        all.push(marker)?;
    }
    Ok(())
}

/// How many markers the lists have together.
fn count_of(lists: &[TileMarkers]) -> usize {
    let mut count = 0usize;
    for list in lists {
        count = count.saturating_add(list.len());
    }
    count
}

/// The markers of all lists, one list after another.
fn all_markers<'a>(alloc: Global, lists: &'a [TileMarkers]) -> Result<Vec<&'a Marker>, AllocError>
    ensures markers { IfOk result (λ v. map (λ m. m.now) v.items ≡ flat_map (λ list. list) lists.entry.now) }
    ensures filled { IfOk result (λ v. All IsFilled (map (λ m. m.now) v.items)) }
{
    let mut all = Vec::with_capacity(alloc, count_of(lists))?;
    for list in lists {
        add_all(&mut all, list.as_slice())?;
    }
    Ok(all)
}

/// The markers sorted by line, and on a line by their beginnings.
fn in_order<'a>(markers: Vec<&'a Marker>) -> Result<Vec<&'a Marker>, AllocError>
    ensures moved { IfOk result (λ v. IsPermutation (map (λ m. m.now) markers.entry.items) (map (λ m. m.now) v.items)) }
    ensures ordered { IfOk result (λ v. AreInOrder (map (λ m. m.now) v.items)) }
{
    let mut markers = markers;
    markers.sort_by_key(|marker| marker.key.place())?;
    Ok(markers)
}

/// How many markers form the run of the first one, and the run.
fn first_run(markers: &[&Marker]) -> (usize, Key)
    requires some { 1 ≤ length markers.now }
    requires filled { All IsFilled (map (λ m. m.now) markers.now) }
    requires ordered { AreInOrder (map (λ m. m.now) markers.now) }
    ensures { IsFirstRun (map (λ m. m.now) markers.now) result.0 result.1 }
{
    let mut run = markers[0].key;
    for count in 1..markers.len() {
        let marker = markers[count];
        if !run.reaches(marker) {
            return (count, run);
        }
        run = run.longer_key(marker);
    }
    (markers.len(), run)
}

/// The numbers of all markers, one marker after another.
fn all_numbers(alloc: Global, markers: &[&Marker]) -> Result<Vec<u32>, AllocError>
    ensures { IfOk result (λ v. v.items ≡ flat_map (λ marker. marker.now.met) markers.now) }
{
    let mut numbers = Vec::new(alloc);
    for marker in markers {
        numbers.extend_from_slice(marker.met.as_slice())?;
    }
    Ok(numbers)
}

/// The submissions that some of the markers touch.
fn met_by(alloc: Global, markers: &[&Marker]) -> Result<Met, AllocError>
    ensures { IfOk result (λ met. AreMetBy (map (λ m. m.now) markers.now) met) }
{
    if let [only] = markers {
        return only.met.copy();
    }
    let numbers = all_numbers(alloc, markers)?;
    Met::from_vec(alloc, numbers)
}

/// Adds the marker of the first run. Returns how many markers form it.
fn add_run(alloc: Global, book: &mut Vec<Marker>, markers: &[&Marker]) -> Result<usize, AllocError>
    requires some { 1 ≤ length markers.now }
    requires filled { All IsFilled (map (λ m. m.now) markers.now) }
    requires ordered { AreInOrder (map (λ m. m.now) markers.now) }
    ensures { IfOk result (λ count. AddsRun (map (λ m. m.now) markers.now) count book.old.items book.new.items) }
{
    let (count, run) = first_run(markers);
    let met = met_by(alloc, &markers[..count])?;
    book.push(Marker { key: run, met })?;
    Ok(count)
}

/// The markers of all runs, in order.
fn join(alloc: Global, markers: &[&Marker]) -> Result<Vec<Marker>, AllocError>
    requires filled { All IsFilled (map (λ m. m.now) markers.now) }
    requires ordered { AreInOrder (map (λ m. m.now) markers.now) }
    ensures { IfOk result (λ v. IsJoined (Contains (map (λ m. m.now) markers.now)) v.items) }
{
    let mut book = Vec::with_capacity(alloc, markers.len())?;
    let mut start = 0;
    while start < markers.len() {
        start += add_run(alloc, &mut book, &markers[start..])?;
    }
    Ok(book)
}

/// The book of the lists' markers. Each maximal run of rows on a line that some list has is one marker. It touches
/// the submissions of the markers within it. The lists may be in any order, and their markers may overlap.
///
/// Cost for `n` markers and `k` numbers of submissions in all: a sort of the markers and sorts of at most `k` numbers, `n log n
/// + k log k`. References to the markers are sorted, and no marker is moved: that takes 16 bytes for each marker meanwhile. The
/// book takes at most 64 bytes for each marker, and the lists of more than two submissions.
///
/// # Errors
/// Out of memory.
pub fn stitch(alloc: Global, lists: &[TileMarkers]) -> Result<Book, AllocError>
    ensures { IfOk result (λ book. IsStitched lists.now book) }
{
    let all = all_markers(alloc, lists)?;
    let all = in_order(all)?;
    let markers = join(alloc, all.as_slice())?;
    Book::from_vec(alloc, markers)
}
