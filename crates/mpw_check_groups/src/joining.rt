//! Joins the markers of groups in the order of the deck's rules.

ghost use Rattle.std.specs.Prelude.{◌≡◌, ◌++◌, ◌<◌, ◌^◌, length, slice_get, IfOk, IfSome, OnOk, Some};
ghost use Rattle.mpw_check_groups.specs.Joined.{AreOwners, IsOwner, joined_from, taken, taken_at, with_rule};

use crate::group::Group;
use mpw_markers::{Book, Key, Marker};
use std::alloc::{AllocError, Global};

/// Where a rule is among groups.
#[derive(Clone, Copy)]
pub struct Owner {
    /// The index of its group.
    pub group: usize,
    /// Its index among the rules of the group.
    pub place: usize,
}

/// The index of a number among others, if it is one of them.
fn place_among(places: &[usize], place: usize) -> Option<usize>
    ensures { IfSome result (λ index. slice_get places.now index ≡ Some place) }
{
    for index in 0..places.len() {
        if places[index] == place {
            return Some(index);
        }
    }
    None
}

/// Where a rule is among groups, if it is in one.
fn owner_of(groups: &[Group], rule: usize) -> Option<Owner>
    ensures { IfSome result (IsOwner groups.now rule) }
{
    for group in 0..groups.len() {
        if let Some(place) = place_among(groups[group].rules.as_slice(), rule) {
            return Some(Owner { group, place });
        }
    }
    None
}

/// Where each of the first `rules` rules is among groups. `None` if one is in none. Cost: quadratic in the rules.
///
/// # Errors
/// Out of memory.
pub fn owners_of(
    alloc: Global,
    groups: &[Group],
    rules: usize,
) -> Result<Option<Vec<Owner>>, AllocError>
    ensures { IfOk result (λ o. IfSome o (λ v. AreOwners groups.now rules v.items)) }
{
    let mut owners = Vec::with_capacity(alloc, rules)?;
    for rule in 0..rules {
        match owner_of(groups, rule) {
            Some(owner) => owners.push(owner)?,
            None => return Ok(None),
        }
    }
    Ok(Some(owners))
}

/// A copy of a marker, as one of another rule.
fn with_rule(marker: &Marker, rule: u32) -> Result<Marker, AllocError>
    ensures { IfOk result (λ m. m ≡ with_rule rule marker.now) }
{
    let met = marker.met.copy()?;
    let key = Key { rule, ..marker.key };
    Ok(Marker { key, met })
}

/// Adds the markers of a group's rule at index `place`, as those of the deck's rule at index `rule`. Cost: one pass over the group's markers.
///
/// # Errors
/// Out of memory.
pub fn add_rule(
    markers: &mut Vec<Marker>,
    found: &[Marker],
    place: usize,
    rule: u32,
) -> Result<(), AllocError>
    ensures { OnOk result (markers.new.items ≡ markers.old.items ++ taken place rule found.now) }
{
    for marker in found {
        if marker.key.rule as usize == place {
            markers.push(with_rule(marker, rule)?)?;
        }
    }
    Ok(())
}

/// Adds the markers of a rule from the books of groups.
fn add_owned(
    markers: &mut Vec<Marker>,
    books: &[Book],
    owner: Owner,
    rule: u32,
) -> Result<(), AllocError>
    ensures { OnOk result (markers.new.items ≡ markers.old.items ++ taken_at books.now owner rule) }
{
    match books.get(owner.group) {
        Some(book) => add_rule(markers, book.as_slice(), owner.place, rule),
        None => Ok(()),
    }
}

/// The markers of the books of groups, one rule after another. `owners` has the place of each rule. Cost: a pass over a group's book for each of its
/// rules. The markers are copied.
///
/// # Errors
/// Out of memory.
pub fn joined(alloc: Global, owners: &[Owner], books: &[Book]) -> Result<Vec<Marker>, AllocError>
    requires { length owners.now < 2 ^ 32 }
    ensures { IfOk result (λ v. v.items ≡ joined_from books.now 0 owners.now) }
{
    let mut markers = Vec::new(alloc);
    for rule in 0..owners.len() {
        add_owned(&mut markers, books, owners[rule], rule as u32)?;
    }
    Ok(markers)
}
