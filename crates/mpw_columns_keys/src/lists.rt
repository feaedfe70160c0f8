//! Joins the lists of columns in the order of a book.
//!
//! A book is sorted by rule, axis `V` before `H`, side, `x1`, `x2` and `y0`. Columns are adjacent and in order, so the list of a rule, an axis and a
//! side is the concatenation of its columns' lists. No list is sorted beyond its column, and each marker is written once, where it stays.

ghost use Rattle.std.specs.Prelude.{◌≡◌, ◌++◌, IfOk, OnOk, map};
ghost use Rattle.mpw_columns_keys.specs.Keys.{list_of, lists_of_sides, lists_of_rule, together, of_first};

use crate::keys::ColumnKeys;
use mpw_markers::{Key, Marker, Met};
use std::alloc::{AllocError, Global};

/// Adds the markers of these keys, each of which touches only the first submission.
fn add_markers(alloc: Global, markers: &mut Vec<Marker>, keys: &[Key]) -> Result<(), AllocError>
    ensures { OnOk result (markers.new.items ≡ markers.old.items ++ map of_first keys.now) }
{
    for key in keys {
        let met = Met::of(alloc, &[0])?;
        markers.push(Marker { key: *key, met })?;
    }
    Ok(())
}

/// Adds the markers of the list with that number: those of the columns, one after another.
fn add_list(
    alloc: Global,
    markers: &mut Vec<Marker>,
    lists: &[ColumnKeys],
    number: u64,
) -> Result<(), AllocError>
    ensures { OnOk result (markers.new.items ≡ markers.old.items ++ map of_first (list_of number lists.now)) }
{
    for list in lists {
        add_markers(alloc, markers, list.list(number))?;
    }
    Ok(())
}

/// Adds the markers of a rule on an axis: those of side 0, and those of side 1.
fn add_sides(
    alloc: Global,
    markers: &mut Vec<Marker>,
    lists: &[ColumnKeys],
    rule: u32,
) -> Result<(), AllocError>
    ensures { OnOk result (markers.new.items ≡ markers.old.items ++ map of_first (lists_of_sides rule lists.now)) }
{
    let number = 2 * u64::from(rule);
    add_list(alloc, markers, lists, number)?;
    add_list(alloc, markers, lists, number + 1)
}

/// Adds the markers of a rule: those on axis `V`, and those on axis `H`.
fn add_rule(
    alloc: Global,
    markers: &mut Vec<Marker>,
    upright: &[ColumnKeys],
    across: &[ColumnKeys],
    rule: u32,
) -> Result<(), AllocError>
    ensures { OnOk result (markers.new.items ≡ markers.old.items ++ map of_first (lists_of_rule upright.now across.now rule)) }
{
    add_sides(alloc, markers, upright, rule)?;
    add_sides(alloc, markers, across, rule)
}

/// How many keys the lists have.
fn count_of(lists: &[ColumnKeys]) -> usize {
    let mut count = 0usize;
    for list in lists {
        count = count.saturating_add(list.len());
    }
    count
}

/// The markers of `rules` rules, from the lists of the columns of both axes. Each touches only the first submission. Cost: one pass over
/// the lists for each rule and side, with two binary searches for each list, and one pass over the keys in all.
///
/// # Errors
/// Out of memory.
pub fn together(
    alloc: Global,
    rules: u32,
    upright: &[ColumnKeys],
    across: &[ColumnKeys],
) -> Result<Vec<Marker>, AllocError>
    ensures { IfOk result (λ v. v.items ≡ map of_first (together rules upright.now across.now)) }
{
    let count = count_of(upright).saturating_add(count_of(across));
    let mut markers = Vec::with_capacity(alloc, count)?;
    for rule in 0..rules {
        add_rule(alloc, &mut markers, upright, across, rule)?;
    }
    Ok(markers)
}
