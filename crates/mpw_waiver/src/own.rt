//! The cells of the touched submissions that a user submitted.

ghost use Rattle.std.specs.Prelude.{◌≡◌, slice_get};
ghost use Rattle.std.specs.Option.{option_copied};
ghost use Rattle.mpw_waiver.specs.Signing.{own_cell, least_own_cell};
ghost use Rattle.mpw_geom.specs.Least.{lesser};

use mpw_geom::Name;
use mpw_hier::Shelf;
use std::cmp::Ordering;

/// The first of two names in alphabetical order, of those that there are.
fn lesser<'a>(first: Option<&'a Name>, second: Option<&'a Name>) -> Option<&'a Name>
    ensures { option_copied result ≡ lesser (option_copied first.entry) (option_copied second.entry) }
{
    match (first, second) {
        (None, _) => second,
        (_, None) => first,
        (Some(one), Some(other)) => match other.cmp(one) {
            Ordering::Less => second,
            _ => first,
        },
    }
}

/// The cell of the submission of that number, if the user submitted it.
fn own_cell<'a>(shelf: &'a Shelf, number: u32, user: &Name) -> Option<&'a Name>
    ensures { option_copied result ≡ own_cell user.now (slice_get shelf.now number) }
{
    let submission = shelf.get(number)?;
    if submission.submitter == *user {
        Some(&submission.cell)
    } else {
        None
    }
}

/// The first name, in alphabetical order, of a cell of which the user submitted a touched submission. One pass over the numbers, which
/// compares names. It takes no memory.
#[tactic(auto, unfolding(crate::specs::Signing::least_own_cell))]
pub(crate) fn least_own_cell<'a>(shelf: &'a Shelf, met: &[u32], user: &Name) -> Option<&'a Name>
    ensures { option_copied result ≡ least_own_cell shelf.now met.now user.now }
{
    let mut least = None;
    for number in met {
        least = lesser(least, own_cell(shelf, *number, user));
    }
    least
}
