//! Markers that are a book's.
ghost use Rattle.std.specs.Prelude.{◌≡◌, ◌↔◌, All, AllPairs, IsTrue, IfOk, IfErr, map};
ghost use Rattle.mpw_markers.specs.Book.{IsBook};
ghost use Rattle.mpw_markers.specs.Markers.{line_of, IsFilled};
ghost use Rattle.mpw_markers.specs.Met.{IsAscending};
ghost use Rattle.mpw_markers.specs.Order.{line_cmp, StandsBefore};
ghost use Rattle.mpw_edges.specs.Pieces.{axis_cmp};
ghost use Rattle.mpw_columns_keys.specs.Keys.{together, of_first};
ghost use Rattle.mpw_firm_parts.specs.Internal.Stitching.{IsUnbound};

use crate::fault::PartsFault;
use mpw_columns_keys::{ColumnKeys, together};
use mpw_edges::Axis;
use mpw_markers::{Book, Marker};
use std::alloc::Global;
use std::cmp::Ordering;

/// Which of two axes comes first.
fn axis_order(first: Axis, second: Axis) -> Ordering
    ensures { result ≡ axis_cmp first second }
{
    match (first, second) {
        (Axis::V, Axis::H) => Ordering::Less,
        (Axis::H, Axis::V) => Ordering::Greater,
        _ => Ordering::Equal,
    }
}

/// Which of two markers' lines comes first.
fn line_order(first: &Marker, second: &Marker) -> Ordering
    ensures { result ≡ line_cmp (line_of first.now) (line_of second.now) }
{
    let (first, second) = (first.line(), second.line());
    let rules = first.rule.cmp(&second.rule);
    let axes = axis_order(first.axis, second.axis);
    let sides = first.side.cmp(&second.side);
    let edges = first.x1.cmp(&second.x1).then(first.x2.cmp(&second.x2));
    rules.then(axes.then(sides.then(edges)))
}

/// Whether two markers lie on one line.
fn is_same_line(first: &Marker, second: &Marker) -> bool
    ensures { IsTrue result ↔ (line_of first.now ≡ line_of second.now) }
{
    first.line() == second.line()
}

/// Whether the first of two markers comes before the second, and on one line with a gap.
fn stands_before(first: &Marker, second: &Marker) -> bool
    ensures { IsTrue result ↔ StandsBefore first.now second.now }
{
    line_order(first, second).is_lt()
        || is_same_line(first, second) && first.key.piece.y1 < second.key.piece.y0
}

/// Whether the marker has a row.
fn is_filled(marker: &Marker) -> bool
    ensures { IsTrue result ↔ IsFilled marker.now }
{
    marker.key.piece.y0 < marker.key.piece.y1
}

/// Whether all markers have rows.
fn are_filled(markers: &[Marker]) -> bool
    ensures { IsTrue result ↔ All IsFilled markers.now }
{
    for marker in markers {
        if !is_filled(marker) {
            return false;
        }
    }
    true
}

/// Whether each marker is before those after it.
fn are_apart(markers: &[Marker]) -> bool
    requires { All IsFilled markers.now }
    ensures { IsTrue result ↔ AllPairs StandsBefore markers.now }
{
    let mut place = 1;
    while place < markers.len() {
        if !stands_before(&markers[place - 1], &markers[place]) {
            return false;
        }
        place += 1;
    }
    true
}

/// Whether markers are a book's. One pass.
fn is_book(markers: &[Marker]) -> bool
    requires { All (λ marker. IsAscending marker.met) markers.now }
    ensures { IsTrue result ↔ IsBook markers.now }
{
    are_filled(markers) && are_apart(markers)
}

/// The book of these lists, put together, if they make one.
pub(crate) fn book_of(
    alloc: Global,
    rules: u32,
    upright: &[ColumnKeys],
    across: &[ColumnKeys],
) -> Result<Book, PartsFault>
    ensures book { IfOk result (λ book. book ≡ map of_first (together rules upright.now across.now)) }
    ensures fault { IfErr result (IsUnbound (map of_first (together rules upright.now across.now))) }
{
    let markers = together(alloc, rules, upright, across)?;
    if !is_book(markers.as_slice()) {
        return Err(PartsFault::NoBook);
    }
    Ok(Book::from_vec(alloc, markers)?)
}
