//! Checks a layout by columns, group by group: rules that share layers are checked together, over the shapes on their layers alone.
//!
//! A group's part of the layout is made just before its check, and is gone after it. If few structures have most of the layout, equal cells repeat in the
//! part, whatever wires of other groups cross them.

ghost use Rattle.std.specs.Prelude.{◌≡◌, length, IfOk, IfSome};
ghost use Rattle.std.specs.List.{AllZip};
ghost use Rattle.mpw_check_groups.specs.Joined.{AreGroupMarkers};
ghost use Rattle.mpw_job.specs.Layout.{AreLayoutMarkers};

use crate::following::Following;
use mpw_check_groups::{
    Group, are_worthwhile, groups_make_the_layout, groups_of, joined, owners_of,
};
use mpw_columns::{MAX_SHOWN, Progress, check_columns};
use mpw_columns_cuts::is_placed;
use mpw_markers::Book;
use mpw_tiles::Snapshot;
use std::alloc::{AllocError, Global};
use std::thread::Threads;

/// The book of a group's part. `None` if there is no part.
fn check_group<P: Progress>(
    rt: &(impl Threads + Sync),
    alloc: Global,
    snapshot: &Snapshot,
    group: &Group,
    progress: &mut P,
) -> Result<Option<Book>, AllocError>
    requires { length snapshot.now.shelf ≡ 1 }
    ensures { IfOk result (λ o. IfSome o (AreGroupMarkers snapshot.now group.now)) }
{
    let Some(part) = group.part(alloc, snapshot)? else {
        return Ok(None);
    };
    let book = check_columns(rt, alloc, &part, MAX_SHOWN, progress)?;
    Ok(Some(book))
}

/// The books of the groups' parts, in order. `None` if a group has no part.
fn books_of<P: Progress>(
    rt: &(impl Threads + Sync),
    alloc: Global,
    snapshot: &Snapshot,
    groups: &[Group],
    progress: &mut P,
) -> Result<Option<Vec<Book>>, AllocError>
    requires { length snapshot.now.shelf ≡ 1 }
    ensures { IfOk result (λ o. IfSome o (λ v. AllZip (AreGroupMarkers snapshot.now) groups.now v.items)) }
{
    let mut following = Following::new(progress, groups.len());
    let mut books = Vec::new(alloc);
    for group in groups {
        following.begin();
        let Some(book) = check_group(rt, alloc, snapshot, group, &mut following)? else {
            return Ok(None);
        };
        books.push(book)?;
    }
    Ok(Some(books))
}

/// The book of a layout, group by group. `None` if a group has no part.
fn check_groups<P: Progress>(
    rt: &(impl Threads + Sync),
    alloc: Global,
    snapshot: &Snapshot,
    groups: &[Group],
    progress: &mut P,
) -> Result<Option<Book>, AllocError>
    requires { length snapshot.now.shelf ≡ 1 }
    ensures { IfOk result (λ o. IfSome o (AreLayoutMarkers snapshot.now)) }
{
    groups_make_the_layout();
    snapshot.is_snapshot();
    let rules = snapshot.deck().rules().as_slice();
    let Some(owners) = owners_of(alloc, groups, rules.len())? else {
        return Ok(None);
    };
    let Some(books) = books_of(rt, alloc, snapshot, groups, progress)? else {
        return Ok(None);
    };
    let markers = joined(alloc, owners.as_slice(), books.as_slice())?;
    Ok(Some(Book::from_vec(alloc, markers)?))
}

/// The book of a layout that is checked by columns: group by group if few structures have most of the layout and a group has fewer layers than the library,
/// or else as a whole.
pub(crate) fn check_by_columns<P: Progress>(
    rt: &(impl Threads + Sync),
    alloc: Global,
    snapshot: &Snapshot,
    progress: &mut P,
) -> Result<Book, AllocError>
    requires { length snapshot.now.shelf ≡ 1 }
    ensures { IfOk result (AreLayoutMarkers snapshot.now) }
{
    let groups = groups_of(alloc, snapshot.deck().rules().as_slice())?;
    if is_placed(snapshot) && are_worthwhile(alloc, snapshot, groups.as_slice())? {
        if let Some(book) = check_groups(rt, alloc, snapshot, groups.as_slice(), progress)? {
            return Ok(book);
        }
    }
    check_columns(rt, alloc, snapshot, MAX_SHOWN, progress)
}
