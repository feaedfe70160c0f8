//! The first markers of each rule of a layout that is checked by columns, group by group.

ghost use Rattle.std.specs.Prelude.{◌≡◌, ◌<◌, ◌^◌, length, slice_index_or, IfOk, IfSome, OnOk};
ghost use Rattle.std.specs.List.{AllZip};
ghost use Rattle.mpw_columns.specs.First.{IsFirstOfLayout};
ghost use Rattle.mpw_check.specs.Internal.Groups.{count_at, AddsRule, AreGroupFirsts, AreJoinedFirsts};

use crate::following::Following;
use mpw_check_groups::{
    Group, Owner, add_rule, are_worthwhile, groups_make_the_layout, groups_of, owners_of,
};
use mpw_columns::{Bounds, FirstMarkers, MAX_SHOWN, Progress, first_of_columns};
use mpw_columns_cuts::is_placed;
use mpw_tiles::Snapshot;
use std::alloc::{AllocError, Global};
use std::thread::Threads;

/// A layout, and how many markers of each rule are requested.
#[derive(Clone, Copy)]
pub(crate) struct Sought<'a> {
    pub(crate) snapshot: &'a Snapshot,
    pub(crate) most: usize,
}

/// The first markers of a group's part. `None` if there is no part.
fn first_of_group<P: Progress>(
    rt: &(impl Threads + Sync),
    alloc: Global,
    sought: &Sought<'_>,
    group: &Group,
    progress: &mut P,
) -> Result<Option<FirstMarkers>, AllocError>
    requires { length sought.now.snapshot.now.shelf ≡ 1 }
    ensures { IfOk result (λ o. IfSome o (AreGroupFirsts sought.now.most sought.now.snapshot.now group.now)) }
{
    let Some(part) = group.part(alloc, sought.snapshot)? else {
        return Ok(None);
    };
    let bounds = Bounds {
        shapes: MAX_SHOWN,
        markers: sought.most,
    };
    let first = first_of_columns(rt, alloc, &part, bounds, progress)?;
    Ok(Some(first))
}

/// The first markers of the groups' parts, in order. `None` if a group has no part.
fn firsts_of<P: Progress>(
    rt: &(impl Threads + Sync),
    alloc: Global,
    sought: &Sought<'_>,
    groups: &[Group],
    progress: &mut P,
) -> Result<Option<Vec<FirstMarkers>>, AllocError>
    requires { length sought.now.snapshot.now.shelf ≡ 1 }
    ensures { IfOk result (λ o. IfSome o (λ v. AllZip (AreGroupFirsts sought.now.most sought.now.snapshot.now) groups.now v.items)) }
{
    let mut following = Following::new(progress, groups.len());
    let mut firsts = Vec::new(alloc);
    for group in groups {
        following.begin();
        let Some(first) = first_of_group(rt, alloc, sought, group, &mut following)? else {
            return Ok(None);
        };
        firsts.push(first)?;
    }
    Ok(Some(firsts))
}

/// How many markers a group's rule at an index has.
fn count_of(first: &FirstMarkers, place: usize) -> usize
    ensures { result ≡ slice_index_or first.now.counts.items place 0 }
{
    match first.counts.get(place) {
        Some(count) => *count,
        None => 0,
    }
}

/// How many markers a rule has.
fn count_at(firsts: &[FirstMarkers], owner: Owner) -> usize
    ensures { result ≡ count_at firsts.now owner }
{
    match firsts.get(owner.group) {
        Some(first) => count_of(first, owner.place),
        None => 0,
    }
}

/// Adds the first markers of a rule, and their number. The only error is out of memory.
fn add_first(
    joined: &mut FirstMarkers,
    firsts: &[FirstMarkers],
    owner: Owner,
    rule: u32,
) -> Result<(), AllocError>
    ensures { OnOk result (AddsRule firsts.now owner rule joined.old joined.new) }
{
    let count = count_at(firsts, owner);
    joined.counts.push(count)?;
    joined.all = joined.all.saturating_add(count);
    match firsts.get(owner.group) {
        Some(first) => add_rule(
            &mut joined.markers,
            first.markers.as_slice(),
            owner.place,
            rule,
        ),
        None => Ok(()),
    }
}

/// The first markers of all rules, one rule after another. The only error is out of memory.
#[tactic(auto, using(crate::proofs::GroupFirsts::joined_none, crate::proofs::GroupFirsts::joined_more, crate::proofs::GroupFirsts::joined_all))]
fn joined_firsts(
    alloc: Global,
    owners: &[Owner],
    firsts: &[FirstMarkers],
) -> Result<FirstMarkers, AllocError>
    requires { length owners.now < 2 ^ 32 }
    ensures { IfOk result (AreJoinedFirsts firsts.now owners.now) }
{
    let mut joined = FirstMarkers {
        markers: Vec::new(alloc),
        counts: Vec::new(alloc),
        all: 0,
    };
    for rule in 0..owners.len() {
        add_first(&mut joined, firsts, owners[rule], rule as u32)?;
    }
    Ok(joined)
}

/// The first markers of a layout, group by group. `None` if a group has no part. The only error is out of memory.
fn first_of_groups<P: Progress>(
    rt: &(impl Threads + Sync),
    alloc: Global,
    sought: &Sought<'_>,
    groups: &[Group],
    progress: &mut P,
) -> Result<Option<FirstMarkers>, AllocError>
    requires { length sought.now.snapshot.now.shelf ≡ 1 }
    ensures { IfOk result (λ o. IfSome o (IsFirstOfLayout sought.now.most sought.now.snapshot.now)) }
{
    groups_make_the_layout();
    sought.snapshot.is_snapshot();
    let rules = sought.snapshot.deck().rules().as_slice();
    let Some(owners) = owners_of(alloc, groups, rules.len())? else {
        return Ok(None);
    };
    let Some(firsts) = firsts_of(rt, alloc, sought, groups, progress)? else {
        return Ok(None);
    };
    let joined = joined_firsts(alloc, owners.as_slice(), firsts.as_slice())?;
    Ok(Some(joined))
}

/// The first markers of a layout checked by columns: group by group if [`check_by_columns`](crate::groups) does so, or else as a whole. The only
/// error is out of memory, also if the progress has no room for the keys that are held.
pub(crate) fn first_by_columns<P: Progress>(
    rt: &(impl Threads + Sync),
    alloc: Global,
    sought: &Sought<'_>,
    progress: &mut P,
) -> Result<FirstMarkers, AllocError>
    requires { length sought.now.snapshot.now.shelf ≡ 1 }
    ensures { IfOk result (IsFirstOfLayout sought.now.most sought.now.snapshot.now) }
{
    let snapshot = sought.snapshot;
    let groups = groups_of(alloc, snapshot.deck().rules().as_slice())?;
    if is_placed(snapshot) && are_worthwhile(alloc, snapshot, groups.as_slice())? {
        if let Some(first) = first_of_groups(rt, alloc, sought, groups.as_slice(), progress)? {
            return Ok(first);
        }
    }
    let bounds = Bounds {
        shapes: MAX_SHOWN,
        markers: sought.most,
    };
    first_of_columns(rt, alloc, snapshot, bounds, progress)
}
