//! What a session loses by a change of users or roles.
ghost use Rattle.std.specs.Prelude.{◌≡◌, filter};
ghost use Rattle.mpw_geom.specs.Names.{contains_name};
ghost use Rattle.mpw_rbac.specs.Masked.{AreAuthorized};
ghost use Rattle.mpw_rbac.specs.Policy.{is_user, kept_roles};
ghost use Rattle.mpw_rbac.specs.Internal.Policy.{users_and_roles};

use crate::Session;
use crate::users::Users;
use mpw_geom::{Name, Names};
use mpw_roles::{Below, Roles};
use std::mem;

/// Removes the names that aren't among the roles below.
fn keep_below(below: &Below, names: &mut Names, empty: Names)
    ensures { names.new ≡ filter (contains_name below.now) names.old }
{
    let mut items = mem::replace(names, empty).into_vec();
    items.retain(
        |name: &Name| -> bool
            ensures { result ≡ contains_name below.entry.now name.now }
        { below.contains(name) },
    );
    *names = Names::from_vec(items);
}

/// Removes the active roles of a session that its user isn't authorized for. It returns whether the user exists. Cost: a look-up for each
/// active role.
pub(crate) fn keep(users: &Users, roles: &Roles, session: &mut Session) -> bool
    ensures user { result ≡ is_user (users_and_roles users.now.users roles.now) session.old.user }
    ensures kept { AreAuthorized roles.now users.now → session.new ≡ kept_roles (users_and_roles users.now.users roles.now) session.old }
{
    let below = roles.at_places(&users.authorized_places(&session.user));
    keep_below(&below, &mut session.active, Names::new(roles.allocator()));
    users.roster().contains(&session.user)
}
