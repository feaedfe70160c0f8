//! The roster of users, which copies of the policy share. Each user has a mask with the indexes of the roles that the user is authorized for.
//!
//! The masks are those of the policy's roles, by an invariant of the policy. A change of one user makes that user's mask. A new pair adds
//! the junior's mask to those that need it. Any other change of roles makes all masks again, with a look-up for each assigned role.
ghost use Rattle.std.specs.Prelude.{◌≡◌, ◌||◌, ◌&&◌, ◌<◌, ◌++◌, ◌∷◌, [], ℕ, List, length, map, slice_set, true, IfOk, IfSome};
ghost use Rattle.std.specs.Option.{option_map_or};
ghost use Rattle.mpw_geom.specs.Names.{name_eq};
ghost use Rattle.mpw_roles.specs.Hierarchy.{Hierarchy, is_role, with_pair};
ghost use Rattle.mpw_roles.specs.Mask.{has};
ghost use Rattle.mpw_roles.specs.Places.{mask_at};
ghost use Rattle.mpw_rbac.specs.Masked.{AreAuthorized, AreBelow, AreUsers, IsBelow};
ghost use Rattle.mpw_rbac.specs.Policy.{assigned_lists, assigned_roles};
ghost use Rattle.mpw_rbac.specs.Internal.Policy.{users_and_roles};
ghost use Rattle.mpw_rbac.specs.Rows.{unassigned};
ghost use Rattle.mpw_rbac.specs.Table.{without_key, insert_entry};
ghost use Rattle.mpw_rbac.specs.declared.session.User.{User as UserState};

use crate::User;
use crate::roster::{Roster, SharedUser};
use mpw_geom::Name;
use mpw_roles::{Mask, Roles, join_masks};
use std::alloc::{AllocError, Global};
use std::marker::Model;
use std::sync::Arc;

/// Users in the order in which they were added. A copy costs two counts. A change makes a new roster.
pub(crate) struct Users {
    roster: Arc<Roster>,
    masks: Arc<Vec<Mask>>,
}

impl Drop for Users {
    fn drop(self) {
        let Users { roster, masks } = self;
        drop(roster);
        drop(masks);
    }
}

impl Model for Users {
    ghost use Rattle.std.specs.Prelude.{◌≡◌, length};
    ghost use Rattle.mpw_rbac.specs.Masked.{KeptUsers};

    ghost Value = { KeptUsers };

    ghost view = { λ kept. record { users = kept.roster.value; masks = kept.masks.value.items } };

    ghost invariant = { λ kept. length kept.masks.value.items ≡ length kept.roster.value };
}

/// The masks of the roles that each user is authorized for. Cost: a look-up for each assigned role.
fn masks_of(roles: &Roles, users: &[SharedUser]) -> Result<Vec<Mask>, AllocError>
    ensures { IfOk result (λ masks. AreBelow roles.now (map (λ (user : UserState). user.roles) users.now) masks.items) }
{
    let mut masks = Vec::with_capacity(roles.allocator(), users.len())?;
    for user in users {
        masks.push(roles.mask_below(user.get().roles.as_slice()))?;
    }
    Ok(masks)
}

/// The users with one more, or with other data of one, shared.
fn with_user(
    alloc: Global,
    roster: &Roster,
    user: &Name,
    value: User,
) -> Result<Arc<Roster>, AllocError>
    ensures { IfOk result (λ next. next.value ≡ insert_entry name_eq roster.now user.now value) }
{
    Ok(Arc::new(alloc, roster.with(alloc, user, value)?)?)
}

/// The masks with another one at an index, or with one more at the end.
fn masks_with(
    alloc: Global,
    masks: &[Mask],
    place: Option<usize>,
    mask: Mask,
) -> Result<Vec<Mask>, AllocError>
    requires { IfSome place (λ place. place < length masks.now) }
    ensures { IfOk result (λ next. next.items ≡ option_map_or (λ place. slice_set masks.now place mask) place (masks.now ++ mask ∷ [])) }
{
    let mut next = Vec::with_capacity(alloc, masks.len().saturating_add(1))?;
    next.extend_from_slice(masks)?;
    match place {
        Some(place) => next[place] = mask,
        None => next.push(mask)?,
    }
    Ok(next)
}

/// The masks of users after one more pair of these roles. Cost: a copy of the masks.
fn joined_masks(
    roles: &Roles,
    masks: &[Mask],
    senior: &Name,
    junior: &Name,
) -> Result<Vec<Mask>, AllocError>
    requires { is_role roles.now senior.now ≡ true }
    ensures { IfOk result (λ next. (lists : List (List (List ℕ))) → AreBelow roles.now lists masks.now → AreBelow (with_pair roles.now senior.now junior.now) lists next.items) }
{
    let mut next = Vec::with_capacity(roles.allocator(), masks.len())?;
    next.extend_from_slice(masks)?;
    let Some(place) = roles.place(senior) else {
        return Ok(next);
    };
    join_masks(&mut next, place, &roles.mask(junior));
    Ok(next)
}

/// The mask at the index of a user. It is empty if there is no such user.
fn mask_of(roster: &Roster, masks: &Vec<Mask>, user: &Name) -> Mask
    requires { length masks.now.items ≡ length roster.now }
    ensures { (h : Hierarchy) → AreBelow h (assigned_lists roster.now) masks.now.items → IsBelow h (assigned_roles (users_and_roles roster.now h) user.now) result }
{
    match roster.place(user) {
        Some(place) => masks[place],
        None => Mask::new(),
    }
}

impl Users {
    /// The users of a roster, with these masks.
    fn with_masks(roles: &Roles, roster: Arc<Roster>, masks: Vec<Mask>) -> Result<Users, AllocError>
        requires { AreBelow roles.now (assigned_lists roster.value) masks.items }
        ensures { IfOk result (AreUsers roles.now roster.value) }
    {
        Ok(Users {
            roster,
            masks: Arc::new(roles.allocator(), masks)?,
        })
    }

    /// The users of a roster, with their masks.
    fn of(roles: &Roles, roster: Arc<Roster>) -> Result<Users, AllocError>
        ensures { IfOk result (AreUsers roles.now roster.value) }
    {
        let masks = masks_of(roles, roster.values())?;
        Users::with_masks(roles, roster, masks)
    }

    /// No users.
    pub(crate) fn new(roles: &Roles) -> Result<Users, AllocError>
        ensures { IfOk result (AreUsers roles.now []) }
    {
        let alloc = roles.allocator();
        Users::of(roles, Arc::new(alloc, Roster::new(alloc))?)
    }

    /// The users without their masks.
    pub(crate) fn roster(&self) -> &Roster
        ensures { result.now ≡ self.now.users }
    {
        &self.roster
    }

    /// The masks of the users, in the order of the users.
    pub(crate) fn masks(&self) -> &[Mask]
        ensures { result.now ≡ self.now.masks }
    {
        self.masks.as_slice()
    }

    /// The indexes of the roles that a user is authorized for. It is empty if there is no such user.
    pub(crate) fn authorized_places(&self, user: &Name) -> Mask
        ensures { (h : Hierarchy) → AreAuthorized h self.now → IsBelow h (assigned_roles (users_and_roles self.now.users h) user.now) result }
    {
        mask_of(&self.roster, &self.masks, user)
    }

    /// The users with one more, or with other data of one. Cost: a count for each user, and a copy of the masks.
    pub(crate) fn with(&self, roles: &Roles, user: &Name, value: User) -> Result<Users, AllocError>
        requires { AreAuthorized roles.now self.now }
        ensures { IfOk result (AreUsers roles.now (insert_entry name_eq self.now.users user.now value)) }
    {
        let alloc = roles.allocator();
        let mask = roles.mask_below(value.roles.as_slice());
        let place = self.roster.place(user);
        let roster = with_user(alloc, &self.roster, user, value)?;
        let masks = masks_with(alloc, &self.masks, place, mask)?;
        Users::with_masks(roles, roster, masks)
    }

    /// The users without one.
    pub(crate) fn without(&self, roles: &Roles, user: &Name) -> Result<Users, AllocError>
        ensures { IfOk result (AreUsers roles.now (without_key name_eq self.now.users user.now)) }
    {
        let alloc = roles.allocator();
        Users::of(roles, Arc::new(alloc, self.roster.without(alloc, user)?)?)
    }

    /// The users without the assignments of a role.
    pub(crate) fn without_assignments(
        &self,
        roles: &Roles,
        role: &Name,
    ) -> Result<Users, AllocError>
        ensures { IfOk result (AreUsers roles.now (unassigned self.now.users role.now)) }
    {
        let alloc = roles.allocator();
        Users::of(
            roles,
            Arc::new(alloc, self.roster.without_assignments(alloc, role)?)?,
        )
    }

    /// The same users with the masks of other roles.
    pub(crate) fn among(&self, roles: &Roles) -> Result<Users, AllocError>
        ensures { IfOk result (AreUsers roles.now self.now.users) }
    {
        Users::of(roles, self.roster.clone()?)
    }

    /// The same users after one more pair of these roles: each user authorized for the senior is authorized for the junior's roles too.
    /// Cost: a copy of the masks.
    pub(crate) fn with_joined_masks(
        &self,
        roles: &Roles,
        senior: &Name,
        junior: &Name,
    ) -> Result<Users, AllocError>
        requires authorized { AreAuthorized roles.now self.now }
        requires senior { is_role roles.now senior.now ≡ true }
        ensures { IfOk result (AreUsers (with_pair roles.now senior.now junior.now) self.now.users) }
    {
        let masks = joined_masks(roles, &self.masks, senior, junior)?;
        let masks = Arc::new(roles.allocator(), masks)?;
        let roster = self.roster.clone()?;
        Ok(Users { roster, masks })
    }

    /// The same users with the same masks. Cost: two counts.
    pub(crate) fn copy(&self) -> Result<Users, AllocError>
        ensures { IfOk result (λ users. users ≡ self.now) }
    {
        Ok(Users {
            roster: self.roster.clone()?,
            masks: self.masks.clone()?,
        })
    }
}
