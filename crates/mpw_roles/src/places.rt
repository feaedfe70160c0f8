//! The indexes of names.
ghost use Rattle.std.specs.Prelude.{◌≡◌, ℕ};
ghost use Rattle.mpw_roles.specs.Hierarchy.{role_names};
ghost use Rattle.mpw_roles.specs.Mask.{has};
ghost use Rattle.mpw_roles.specs.Order.{IsHierarchy};
ghost use Rattle.mpw_roles.specs.Places.{is_place_of};

use crate::Mask;
use crate::table::Table;
use mpw_geom::Name;

/// The indexes of those names that are roles. Cost: a look-up for each.
pub(crate) fn places_of(table: &Table, names: &[Name]) -> Mask
    requires { IsHierarchy table.now }
    ensures { (place : ℕ) → has result place ≡ is_place_of (role_names table.now) names.now place }
{
    let mut mask = Mask::new();
    for name in names {
        if let Some(place) = table.place(name) {
            mask.insert(place);
        }
    }
    mask
}
