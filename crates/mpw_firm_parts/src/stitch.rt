//! Parts put together.
//!
//! Before anything is moved all parts are looked at, in the order in which they come, so that a fault names one of them.
ghost use Rattle.std.specs.Prelude.{◌≡◌, ◌≤◌, ◌↔◌, All, IfOk, IfErr, IsTrue, MatchOption, length, map, take, drop};
ghost use Rattle.mpw_columns_keys.specs.Keys.{together, of_first};
ghost use Rattle.mpw_firm_parts.specs.Internal.Stitching.{IsUnbound, IsJoinedBook, IsUnput};
ghost use Rattle.mpw_firm_parts.specs.Stitching.{box_eq, extent_eq, difference_of, AreAllOf, IsRuled, AreRuledLists, HasRules, HaveRules, IsOther, IsUnruled, IsBookOf, IsFaultOf};

use crate::book::book_of;
use crate::fault::{Difference, PartsFault};
use crate::part::{Part, Subject};
use crate::whole::whole_of;
use mpw_columns_keys::ColumnKeys;
use mpw_geom::Box2;
use mpw_markers::{Book, Key};
use std::alloc::Global;

/// Whether two boxes are one.
fn is_same_box(first: &Box2, second: &Box2) -> bool
    ensures { result ≡ box_eq first.now second.now }
{
    (first.x0 == second.x0 && first.y0 == second.y0)
        && (first.x1 == second.x1 && first.y1 == second.y1)
}

/// Whether two extents are one.
fn is_same_extent(first: Option<Box2>, second: Option<Box2>) -> bool
    ensures { result ≡ extent_eq first second }
{
    match (first, second) {
        (None, None) => true,
        (Some(first), Some(second)) => is_same_box(&first, &second),
        _ => false,
    }
}

/// What a check doesn't share with another.
#[tactic(auto, unfolding(crate::specs::Stitching::difference_of))]
fn difference(first: &Subject, other: &Subject) -> Option<Difference>
    ensures { result ≡ difference_of first.now other.now }
{
    if first.library().as_slice() != other.library().as_slice() {
        Some(Difference::Library)
    } else if first.deck() != other.deck() {
        Some(Difference::Deck)
    } else if first.top().as_bytes() != other.top().as_bytes() {
        Some(Difference::Top)
    } else if !is_same_extent(first.extent(), other.extent())
        || first.columns() != other.columns()
    {
        Some(Difference::Plan)
    } else {
        None
    }
}

/// The first part that isn't of this check, and what it doesn't share; none if all are of it.
fn first_other(first: &Subject, parts: &[Part]) -> Option<(usize, Difference)>
    ensures { MatchOption result (AreAllOf first.now parts.now) (λ other. IsOther first.now parts.now other.0 other.1) }
{
    for (place, part) in parts.iter().enumerate() {
        if let Some(what) = difference(first, part.subject()) {
            return Some((place, what));
        }
    }
    None
}

/// Whether the key is of one of so many rules, and of side 0 or 1.
fn is_ruled(rules: u32, key: &Key) -> bool
    ensures { IsTrue result ↔ IsRuled rules key.now }
{
    key.rule < rules && key.piece.side < 2
}

/// Whether all keys are.
fn are_ruled(rules: u32, keys: &[Key]) -> bool
    ensures { IsTrue result ↔ All (IsRuled rules) keys.now }
{
    for key in keys {
        if !is_ruled(rules, key) {
            return false;
        }
    }
    true
}

/// Whether all keys of a column are.
fn is_ruled_list(rules: u32, keys: &ColumnKeys) -> bool
    ensures { IsTrue result ↔ All (IsRuled rules) keys.now }
{
    are_ruled(rules, keys.as_slice())
}

/// Whether all keys of columns are.
fn are_ruled_lists(rules: u32, lists: &[ColumnKeys]) -> bool
    ensures { IsTrue result ↔ AreRuledLists rules lists.now }
{
    for keys in lists {
        if !is_ruled_list(rules, keys) {
            return false;
        }
    }
    true
}

/// Whether all keys of a part are.
fn has_rules(rules: u32, part: &Part) -> bool
    ensures { IsTrue result ↔ HasRules rules part.now }
{
    are_ruled_lists(rules, part.lists())
}

/// The first part with a key of another rule or side; none if there is none.
fn first_unruled(rules: u32, parts: &[Part]) -> Option<usize>
    ensures { MatchOption result (HaveRules rules parts.now) (λ place. IsUnruled rules parts.now place) }
{
    for (place, part) in parts.iter().enumerate() {
        if !has_rules(rules, part) {
            return Some(place);
        }
    }
    None
}

/// The book of so many lists of axis `V`, and the others of axis `H`.
fn book_from(
    alloc: Global,
    rules: u32,
    lists: &[ColumnKeys],
    upright: usize,
) -> Result<Book, PartsFault>
    requires { upright ≤ length lists.now }
    ensures book { IfOk result (λ book. book ≡ map of_first (together rules (take upright lists.now) (drop upright lists.now))) }
    ensures fault { IfErr result (IsUnbound (map of_first (together rules (take upright lists.now) (drop upright lists.now)))) }
{
    let (first, second) = lists.split_at(upright);
    book_of(alloc, rules, first, second)
}

/// The book of parts of one check, with that extent and so many columns.
fn put_together(
    alloc: Global,
    rules: u32,
    extent: Option<Box2>,
    columns: usize,
    parts: Vec<Part>,
) -> Result<Book, PartsFault>
    requires { All (λ part. part.subject.columns ≡ columns) parts.items }
    ensures book { IfOk result (IsJoinedBook rules extent columns parts.items) }
    ensures fault { IfErr result (IsUnput rules extent columns parts.items) }
{
    match whole_of(alloc, extent, columns, parts) {
        Ok(whole) => book_from(alloc, rules, whole.lists.as_slice(), whole.upright),
        Err(fault) => Err(fault),
    }
}

/// The book of parts of one check under a deck of so many rules: the markers of all columns, put one after another in the order of a book, each of
/// which meets the first submission alone. The parts may come in any order. It costs a sort of the parts, a pass over the keys, another over
/// the columns, and what [`mpw_columns_keys::together`] does; keys aren't copied but into their markers.
///
/// # Errors
/// `NoPart` without parts; `Other` at the first that isn't of the first part's check; if all are, `NoRule` at the first with a marker of
/// a rule that isn't one of so many; if none has, `Missing` and `Doubled` with a column that no part has or that more than one has; if
/// each is there once, `Apart` if the columns don't follow on one another over the extent; if they do, `NoBook` if the markers are
/// no book, as when two on one line overlap or touch; or `Memory`.
pub fn stitch_parts(alloc: Global, parts: Vec<Part>, rules: u32) -> Result<Book, PartsFault>
    ensures ok { IfOk result (IsBookOf rules parts.items) }
    ensures faults { IfErr result (IsFaultOf rules parts.items) }
{
    let [first, ..] = parts.as_slice() else {
        return Err(PartsFault::NoPart);
    };
    let (extent, columns) = (first.subject().extent(), first.subject().columns() as usize);
    if let Some((place, what)) = first_other(first.subject(), parts.as_slice()) {
        return Err(PartsFault::Other(place, what));
    }
    if let Some(place) = first_unruled(rules, parts.as_slice()) {
        return Err(PartsFault::NoRule(place));
    }
    put_together(alloc, rules, extent, columns, parts)
}
