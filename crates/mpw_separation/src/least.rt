//! The first of some names in alphabetical order.
ghost use Rattle.std.specs.Prelude.{◌≡◌, ◌≤◌, ℕ, List, length, filter, map};
ghost use Rattle.std.specs.Option.{option_copied};
ghost use Rattle.mpw_geom.specs.Least.{lesser, least_name};
ghost use Rattle.mpw_roles.specs.Hierarchy.{Hierarchy, role_names};
ghost use Rattle.mpw_roles.specs.Order.{IsHierarchy};
ghost use Rattle.mpw_separation.specs.Placed.{ArePlaced, IsBelow};
ghost use Rattle.mpw_separation.specs.Separation.{breaks, is_reached, set_names};

use crate::SeparationSet;
use mpw_geom::Name;
use mpw_roles::{Below, Mask};
use std::cmp::Ordering;

/// The first of two names in alphabetical order, of those that there are.
pub fn lesser<'a>(first: Option<&'a Name>, second: Option<&'a Name>) -> Option<&'a Name>
    ensures { option_copied result ≡ lesser (option_copied first.entry) (option_copied second.entry) }
{
    match (first, second) {
        (None, _) => second,
        (_, None) => first,
        (Some(one), Some(other)) => match other.cmp(one) {
            Ordering::Less => second,
            _ => first,
        },
    }
}

/// The first name, in alphabetical order, of the sets that these roles reach.
pub(crate) fn least_reached<'a>(sets: &'a [SeparationSet], below: &Below) -> Option<&'a Name>
    ensures { option_copied result ≡ least_name (set_names (filter (is_reached below.now) sets.now)) }
{
    let mut least = None;
    for set in sets {
        if set.is_reached(below) {
            least = lesser(least, Some(set.name()));
        }
    }
    least
}

/// The first name, in alphabetical order, of the sets that some seniors break, by the indexes of each set's roles and of the roles at or
/// below the seniors.
pub(crate) fn least_placed<'a>(
    sets: &'a [SeparationSet],
    masks: &[Mask],
    below: &Mask,
) -> Option<&'a Name>
    requires { length sets.now ≤ length masks.now }
    ensures { (h : Hierarchy) (seniors : List (List ℕ)) → IsHierarchy h → ArePlaced (role_names h) sets.now masks.now → IsBelow h seniors below.now → option_copied result ≡ least_name (set_names (filter (breaks h seniors) sets.now)) }
{
    let mut least = None;
    for index in 0..sets.len() {
        let set = &sets[index];
        if set.is_broken_at(&masks[index], below) {
            least = lesser(least, Some(set.name()));
        }
    }
    least
}
