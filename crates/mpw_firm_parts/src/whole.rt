//! The columns of parts, all together.
//!
//! Parts are put in the order of their first columns; each that has columns then has to begin where the one before ends. So each
//! column has one list, and no table of columns is needed.
ghost use Rattle.std.specs.Prelude.{◌≡◌, ◌≤◌, ◌<ℤ◌, ◌+ℤ◌, ◌++◌, ◌↔◌, ◌^◌, pos, length, take, drop, All, IfOk, IfErr, IfSome, OnOk, IsTrue, MatchOption};
ghost use Rattle.std.specs.List.Sorted.{IsPermutation};
ghost use Rattle.mpw_columns_keys.specs.Columns.{seen_box, AreColumnsOf};
ghost use Rattle.mpw_firm_parts.specs.Stitching.{columns_of, lists_of, BeginsAt, FollowOn, CoverExtent, IsOfColumns};
ghost use Rattle.mpw_firm_parts.specs.Internal.Stitching.{AreInOrder, upright_count, fault_at, AreUndivided, AreListsOf, IsUnjoined};

use crate::fault::PartsFault;
use crate::part::{Lists, Part};
use mpw_columns_keys::{Column, ColumnKeys, are_columns};
use mpw_edges::Axis;
use mpw_geom::Box2;
use std::alloc::{AllocError, Global};

/// The parts in the order of their first columns.
fn in_order(parts: Vec<Part>) -> Result<Vec<Part>, AllocError>
    ensures permuted { IfOk result (λ ordered. IsPermutation parts.items ordered.items) }
    ensures ordered { IfOk result (λ ordered. AreInOrder ordered.items) }
{
    let mut parts = parts;
    parts.sort_by_key(|part| part.first())?;
    Ok(parts)
}

/// Whether a part begins at the column, or has no column.
fn begins_at(column: usize, part: &Part) -> bool
    ensures { IsTrue result ↔ BeginsAt column part.now }
{
    part.first() as usize == column || part.lists().is_empty()
}

/// Why a part doesn't begin at the column, if it begins at another.
fn fault_at(column: usize, first: usize) -> PartsFault
    ensures { result ≡ fault_at column first }
{
    if first < column {
        PartsFault::Doubled(first)
    } else {
        PartsFault::Missing(column)
    }
}

/// Whether parts that are in order have each of so many columns once.
///
/// # Errors
/// The first column that isn't in just one of them.
fn follow_on(columns: usize, parts: &[Part]) -> Result<(), PartsFault>
    requires own { All (λ part. part.subject.columns ≡ columns) parts.now }
    requires ordered { AreInOrder parts.now }
    ensures once { IfOk result (λ _. FollowOn 0 parts.now columns) }
    ensures faults { IfErr result (IsOfColumns columns parts.now) }
{
    let mut reached = 0usize;
    for part in parts {
        let more = part.lists().len();
        if !begins_at(reached, part) {
            return Err(fault_at(reached, part.first() as usize));
        }
        reached += more;
    }
    if reached < columns {
        return Err(PartsFault::Missing(reached));
    }
    Ok(())
}

/// Adds the columns of a part, and the keys of each.
fn add_part(
    columns: &mut Vec<Column>,
    lists: &mut Vec<ColumnKeys>,
    part: Part,
) -> Result<(), AllocError>
    ensures columns { OnOk result (columns.new.items ≡ columns.old.items ++ part.columns) }
    ensures lists { OnOk result (lists.new.items ≡ lists.old.items ++ part.lists) }
    ensures counted { length part.columns ≡ length part.lists }
{
    let mut more = part.into_lists();
    columns.append(&mut more.columns)?;
    lists.append(&mut more.lists)
}

/// The columns of parts, those of one after those of another. They are moved, and not copied.
fn joined(alloc: Global, count: usize, parts: Vec<Part>) -> Result<Lists, AllocError>
    ensures columns { IfOk result (λ joined. joined.columns.items ≡ columns_of parts.items) }
    ensures lists { IfOk result (λ joined. joined.lists.items ≡ lists_of parts.items) }
    ensures counted { IfOk result (λ joined. length joined.columns.items ≡ length joined.lists.items) }
{
    let mut columns = Vec::with_capacity(alloc, count)?;
    let mut lists = Vec::with_capacity(alloc, count)?;
    for part in parts {
        add_part(&mut columns, &mut lists, part)?;
    }
    Ok(Lists { columns, lists })
}

/// How many columns there are before the first of axis `H`.
fn upright_count(columns: &[Column]) -> usize
    ensures count { result ≡ upright_count columns.now }
    ensures within { result ≤ length columns.now }
{
    let mut count = 0;
    while count < columns.len() && columns[count].axis == Axis::V {
        count += 1;
    }
    count
}

/// No column ends after the last number of 64 bits. A fact of the type: the function does nothing.
fn end_below(columns: &[Column])
    ensures { All (λ column. column.to <ℤ pos (2 ^ 63)) columns.now }
{
    for column in columns {
        let _to = column.to;
    }
}

/// The first place along an axis at which an edge can be, and the last, in nm.
#[derive(Clone, Copy)]
struct Places {
    low: i64,
    high: i64,
}

/// Those of an extent.
fn places_along(axis: Axis, extent: &Box2) -> Places
    ensures low { result.low ≡ (seen_box axis extent.now).x0 }
    ensures high { result.high ≡ (seen_box axis extent.now).x1 }
    ensures below { result.low <ℤ pos (2 ^ 63) }
{
    match axis {
        Axis::V => Places {
            low: extent.x0,
            high: extent.x1,
        },
        Axis::H => Places {
            low: extent.y0,
            high: extent.y1,
        },
    }
}

/// The place after the last; none after the last number of 64 bits.
fn behind(places: &Places) -> Option<i64>
    ensures { MatchOption result (places.now.high ≡ pos 9223372036854775807) (λ next. next ≡ places.now.high +ℤ pos 1) }
{
    if places.high == i64::MAX {
        None
    } else {
        Some(places.high + 1)
    }
}

/// Whether columns of the axis follow on one another over the extent.
fn are_columns_of(axis: Axis, extent: &Box2, columns: &[Column]) -> bool
    ensures { IsTrue result ↔ AreColumnsOf axis extent.now columns.now }
{
    let places = places_along(axis, extent);
    match behind(&places) {
        Some(end) => are_columns(axis, places.low, end, columns),
        None => {
            end_below(columns);
            false
        }
    }
}

/// Whether columns of axis `V` and columns of axis `H` follow on one another over the extent, or there are none if it is none.
fn cover_both(extent: Option<Box2>, upright: &[Column], across: &[Column]) -> bool
    ensures { IsTrue result ↔ CoverExtent extent upright.now across.now }
{
    match extent {
        Some(extent) => {
            are_columns_of(Axis::V, &extent, upright) && are_columns_of(Axis::H, &extent, across)
        }
        None => upright.is_empty() && across.is_empty(),
    }
}

/// The same of the first so many columns, and the others.
fn cover(extent: Option<Box2>, columns: &[Column], upright: usize) -> bool
    requires { upright ≤ length columns.now }
    ensures { IsTrue result ↔ CoverExtent extent (take upright columns.now) (drop upright columns.now) }
{
    let (first, second) = columns.split_at(upright);
    cover_both(extent, first, second)
}

/// How many of the columns are of axis `V`, if these and the others follow on over the extent.
fn divided(extent: Option<Box2>, columns: &[Column]) -> Option<usize>
    ensures divided { MatchOption result (AreUndivided extent columns.now) (λ upright. CoverExtent extent (take upright columns.now) (drop upright columns.now)) }
    ensures within { IfSome result (λ upright. upright ≤ length columns.now) }
{
    let upright = upright_count(columns);
    if cover(extent, columns, upright) {
        Some(upright)
    } else {
        None
    }
}

/// The lists of the columns of a check, in order; the first so many are those of axis `V`.
#[derive(Drop)]
pub(crate) struct Whole {
    pub lists: Vec<ColumnKeys>,
    pub upright: usize,
}

/// The lists of parts that are in order, and follow on over the extent.
fn covering(
    alloc: Global,
    extent: Option<Box2>,
    count: usize,
    ordered: Vec<Part>,
) -> Result<Whole, PartsFault>
    requires once { FollowOn 0 ordered.items count }
    ensures whole { IfOk result (λ whole. AreListsOf extent count ordered.items (take whole.upright whole.lists.items) (drop whole.upright whole.lists.items)) }
    ensures within { IfOk result (λ whole. whole.upright ≤ length whole.lists.items) }
    ensures fault { IfErr result (IsUnjoined extent count ordered.items) }
{
    let joined = joined(alloc, count, ordered)?;
    match divided(extent, joined.columns.as_slice()) {
        Some(upright) => Ok(Whole {
            lists: joined.lists,
            upright,
        }),
        None => Err(PartsFault::Apart),
    }
}

/// The lists of all columns of a check with that extent and so many columns, in order, from parts in any order that have each once.
#[tactic(auto, using(crate::proofs::Joining::lists_again, crate::proofs::Joining::unjoined_again, crate::proofs::Joining::not_following))]
pub(crate) fn whole_of(
    alloc: Global,
    extent: Option<Box2>,
    count: usize,
    parts: Vec<Part>,
) -> Result<Whole, PartsFault>
    requires { All (λ part. part.subject.columns ≡ count) parts.items }
    ensures whole { IfOk result (λ whole. AreListsOf extent count parts.items (take whole.upright whole.lists.items) (drop whole.upright whole.lists.items)) }
    ensures within { IfOk result (λ whole. whole.upright ≤ length whole.lists.items) }
    ensures fault { IfErr result (IsUnjoined extent count parts.items) }
{
    let ordered = in_order(parts)?;
    match follow_on(count, ordered.as_slice()) {
        Ok(()) => covering(alloc, extent, count, ordered),
        Err(fault) => Err(fault),
    }
}
