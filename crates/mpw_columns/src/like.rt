//! Makes the lists of all columns from those of the columns that repeat no earlier one.

ghost use Rattle.std.specs.Prelude.{◌≡◌, length, All, IfOk};
ghost use Rattle.std.specs.List.{AllZip};
ghost use Rattle.mpw_columns_keys.specs.Columns.{seen_box, upright};
ghost use Rattle.mpw_columns.specs.Lists.{IsColumnList};
ghost use Rattle.mpw_columns.specs.Internal.Checked.{IsLayout};
ghost use Rattle.mpw_columns.specs.Internal.Found.{IsUpright};
ghost use Rattle.mpw_columns.specs.Internal.Like.{AreLikes, own_columns};

use crate::displaced::list_from;
use crate::layout::Layout;
use mpw_columns_keys::{Column, ColumnKeys};
use std::alloc::{AllocError, Global};

/// The columns that repeat no earlier one, in their order. One pass. The only error is out of memory.
pub(crate) fn own_columns(
    alloc: Global,
    columns: &[Column],
    likes: &[Option<usize>],
) -> Result<Vec<Column>, AllocError>
    requires { length likes.now ≡ length columns.now }
    ensures { IfOk result (λ v. v.items ≡ own_columns columns.now likes.now) }
{
    let mut own = Vec::new(alloc);
    for place in 0..columns.len() {
        if likes[place].is_none() {
            own.push(columns[place])?;
        }
    }
    Ok(own)
}

/// For each column that repeats no earlier one, how many columns have its list, displaced; it counts itself. One pass. The only error is out of memory.
pub(crate) fn shares_of(alloc: Global, likes: &[Option<usize>]) -> Result<Vec<usize>, AllocError> {
    let mut shares: Vec<usize> = Vec::new(alloc);
    let mut owners: Vec<usize> = Vec::with_capacity(alloc, likes.len())?;
    for like in likes {
        let owner = like.and_then(|earlier| owners.get(earlier).copied());
        let owner = match owner {
            Some(owner) => owner,
            None => {
                shares.push(0)?;
                shares.len().saturating_sub(1)
            }
        };
        owners.push(owner)?;
        if owner < shares.len() {
            shares[owner] = shares[owner].saturating_add(1);
        }
    }
    Ok(shares)
}

/// The lists of all columns, from those of the columns that repeat no earlier one. The other lists are displaced copies. Cost: linear in
/// the keys. The only error is out of memory.
pub(crate) fn lists_with(
    alloc: Global,
    layout: &Layout<'_>,
    columns: &[Column],
    likes: &[Option<usize>],
    own: Vec<ColumnKeys>,
) -> Result<Vec<ColumnKeys>, AllocError>
    requires layout { IsLayout layout.now }
    requires upright { All (λ c. IsUpright (upright (seen_box c.axis layout.now.extent) c)) columns.now }
    requires likes { AreLikes layout.now columns.now likes.now }
    requires own { AllZip (IsColumnList layout.now.snapshot.now) (own_columns columns.now likes.now) own.items }
    ensures { IfOk result (λ v. AllZip (IsColumnList layout.now.snapshot.now) columns.now v.items) }
{
    let mut lists = Vec::with_capacity(alloc, columns.len())?;
    let mut own = own.into_iter();
    for place in 0..columns.len() {
        let list = match likes[place] {
            Some(earlier) => list_from(
                alloc,
                layout,
                &columns[place],
                &columns[earlier],
                &lists[earlier],
            )?,
            None => own.next().unwrap(),
        };
        lists.push(list)?;
    }
    Ok(lists)
}
