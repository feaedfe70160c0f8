//! The administrative requests of separation of duty.
ghost use Rattle.std.specs.Prelude.{◌≡◌, ◌≢◌, ◌⊎◌, true, false, [], ◌∷◌, map, nat_lt, IfErr, OnOk, OnErr, Ok, Err};
ghost use Rattle.std.specs.List.{list_all};
ghost use Rattle.std.specs.Option.{option_copied};
ghost use Rattle.mpw_roles.specs.Hierarchy.{is_role, role_names};
ghost use Rattle.mpw_separation.specs.Placed.{AreSetsPlaced};
ghost use Rattle.mpw_separation.specs.Rows as set_rows;
ghost use Rattle.mpw_separation.specs.Separation.{sets_of, least_broken, is_broken, has_set};
ghost use Rattle.mpw_rbac.specs.Internal.Kinds.{other, kind_sets, bound_lists, set_refusal};
ghost use Rattle.mpw_rbac.specs.Internal.Kinds as kinds;
ghost use Rattle.mpw_rbac.specs.Masked.{AreAuthorized, AreBelow, sessions_in, masks_in};
ghost use Rattle.mpw_rbac.specs.Policy.{assigned_lists, active_lists};
ghost use Rattle.mpw_rbac.specs.Rows.{IsFaultOf};
ghost use Rattle.mpw_rbac.specs.Rows as rows;

use crate::active::Connected;
use crate::users::Users;
use crate::{Policy, PolicyFault, Refusal};
use mpw_geom::Name;
use mpw_roles::Roles;
use mpw_separation::{Kind, PlacedSets, SeparationSet, SetsFault, lesser};

/// The first name, in alphabetical order, of a set of the kind that some seniors break. Cost: a look-up for each of these, and an `and` of
/// eight words for each set.
pub(crate) fn first_broken<'a>(
    sets: &'a PlacedSets,
    kind: Kind,
    roles: &Roles,
    seniors: &[Name],
) -> Option<&'a Name>
    requires { AreSetsPlaced (role_names roles.now) sets.now }
    ensures { option_copied result ≡ least_broken roles.now (sets_of kind sets.now.sets) (seniors.now ∷ []) }
{
    roles.is_hierarchy();
    let below = roles.mask_below(seniors);
    sets.first_broken(kind, &below)
}

/// The first name, in alphabetical order, of a static set that some user breaks. It takes no memory. Cost: an `and` of eight words for each
/// user and set.
pub(crate) fn least_static<'a>(
    sets: &'a PlacedSets,
    roles: &Roles,
    users: &Users,
) -> Option<&'a Name>
    requires placed { AreSetsPlaced (role_names roles.now) sets.now }
    requires authorized { AreAuthorized roles.now users.now }
    ensures { option_copied result ≡ least_broken roles.now sets.now.sets.ssd (assigned_lists users.now.users) }
{
    roles.is_hierarchy();
    let mut least = None;
    for authorized in users.masks() {
        let broken = sets.first_broken(Kind::Static, authorized);
        least = lesser(least, broken);
    }
    least
}

/// The first name, in alphabetical order, of a dynamic set that some session breaks. It takes no memory. Cost: a look-up for each active
/// role, and an `and` of eight words for each session and set.
pub(crate) fn least_dynamic<'a>(
    sets: &'a PlacedSets,
    roles: &Roles,
    sessions: &[Connected],
) -> Option<&'a Name>
    requires { AreSetsPlaced (role_names roles.now) sets.now }
    ensures { option_copied result ≡ least_broken roles.now sets.now.sets.dsd (active_lists (sessions_in sessions.now)) }
{
    let mut least = None;
    for index in 0..sessions.len() {
        let active = &sessions[index].1.session.active;
        let broken = first_broken(sets, Kind::Dynamic, roles, active.as_slice());
        least = lesser(least, broken);
    }
    least
}

/// Whether some user breaks the set. It takes no memory. Cost: a look-up for each role of the set, and an `and` of eight words for each user.
fn breaks_a_user(set: &SeparationSet, roles: &Roles, users: &Users) -> bool
    requires { AreAuthorized roles.now users.now }
    ensures { result ≡ is_broken roles.now (assigned_lists users.now.users) set.now }
{
    roles.is_hierarchy();
    let own = roles.places(set.roles());
    for authorized in users.masks() {
        if set.is_broken_at(&own, authorized) {
            return true;
        }
    }
    false
}

/// Whether some session breaks the set. It takes no memory. Cost: a look-up for each role of the set, and an `and` of eight words for each session.
fn breaks_a_session(set: &SeparationSet, roles: &Roles, sessions: &[Connected]) -> bool
    requires { AreBelow roles.now (active_lists (sessions_in sessions.now)) (masks_in sessions.now) }
    ensures { result ≡ is_broken roles.now (active_lists (sessions_in sessions.now)) set.now }
{
    roles.is_hierarchy();
    let own = roles.places(set.roles());
    for index in 0..sessions.len() {
        if set.is_broken_at(&own, &sessions[index].1.acting) {
            return true;
        }
    }
    false
}

/// Makes a set of the kind. The sets' masks are those of these roles.
fn make(
    sets: &mut PlacedSets,
    kind: Kind,
    roles: &Roles,
    set: SeparationSet,
) -> Result<(), SetsFault>
    ensures ok { OnOk result (set_rows.make (sets_of kind sets.old.sets) set ≡ Ok (sets_of kind sets.new.sets)) }
    ensures refused { IfErr result (λ fault. (fault ≡ SetsFault.Memory) ⊎ (set_rows.make (sets_of kind sets.old.sets) set ≡ Err fault)) }
    ensures err { OnErr result (sets.new.sets ≡ sets.old.sets) }
    ensures others { sets_of (other kind) sets.new.sets ≡ sets_of (other kind) sets.old.sets }
    ensures placed { AreSetsPlaced (role_names roles.now) sets.old → AreSetsPlaced (role_names roles.now) sets.new }
{
    match kind {
        Kind::Static => sets.make_ssd(roles, set),
        Kind::Dynamic => sets.make_dsd(roles, set),
    }
}

/// Removes a set of the kind. The sets' masks are those of these roles. It takes no memory.
fn remove(sets: &mut PlacedSets, kind: Kind, roles: &Roles, name: &Name) -> Result<(), SetsFault>
    ensures ok { OnOk result (set_rows.remove (sets_of kind sets.old.sets) name.now ≡ Ok (sets_of kind sets.new.sets)) }
    ensures refused { IfErr result (λ fault. set_rows.remove (sets_of kind sets.old.sets) name.now ≡ Err fault) }
    ensures err { OnErr result (sets.new.sets ≡ sets.old.sets) }
    ensures others { sets_of (other kind) sets.new.sets ≡ sets_of (other kind) sets.old.sets }
    ensures placed { AreSetsPlaced (role_names roles.now) sets.old → AreSetsPlaced (role_names roles.now) sets.new }
{
    match kind {
        Kind::Static => sets.remove_ssd(roles, name),
        Kind::Dynamic => sets.remove_dsd(roles, name),
    }
}

/// The refusal of a broken set of the kind.
fn set_refusal(kind: Kind, name: Name) -> Refusal
    ensures { result ≡ set_refusal kind name }
{
    match kind {
        Kind::Static => Refusal::Ssd(name),
        Kind::Dynamic => Refusal::Dsd(name),
    }
}

impl Policy {
    /// Makes a static set (CreateSsdSet).
    ///
    /// # Errors
    /// `Known`, `Unknown` role, `Ssd`, `Full`, tested in this order; or `Memory`. Then the policy is unchanged.
    pub fn ssd(&mut self, set: SeparationSet) -> Result<(), PolicyFault>
        ensures ok { OnOk result (rows.ssd self.old set ≡ Ok self.new) }
        ensures refused { IfErr result (IsFaultOf (rows.ssd self.old set)) }
        ensures err { OnErr result (self.new ≡ self.old) }
    {
        self.make_set(Kind::Static, set)
    }

    /// Makes a dynamic set (CreateDsdSet).
    ///
    /// # Errors
    /// `Known`, `Unknown` role, `Dsd`, `Full`, tested in this order; or `Memory`. Then the policy is unchanged.
    pub fn dsd(&mut self, set: SeparationSet) -> Result<(), PolicyFault>
        ensures ok { OnOk result (rows.dsd self.old set ≡ Ok self.new) }
        ensures refused { IfErr result (IsFaultOf (rows.dsd self.old set)) }
        ensures err { OnErr result (self.new ≡ self.old) }
    {
        self.make_set(Kind::Dynamic, set)
    }

    /// Removes a static set (DeleteSsdSet). It takes no memory.
    ///
    /// # Errors
    /// `Unknown` set. Then the policy is unchanged.
    pub fn unssd(&mut self, name: &Name) -> Result<(), PolicyFault>
        ensures ok { OnOk result (rows.unssd self.old name.now ≡ Ok self.new) }
        ensures refused { IfErr result (IsFaultOf (rows.unssd self.old name.now)) }
        ensures memory { IfErr result (λ fault. fault ≢ PolicyFault.Memory) }
        ensures err { OnErr result (self.new ≡ self.old) }
    {
        self.remove_set(Kind::Static, name)
    }

    /// Removes a dynamic set (DeleteDsdSet). It takes no memory.
    ///
    /// # Errors
    /// `Unknown` set. Then the policy is unchanged.
    pub fn undsd(&mut self, name: &Name) -> Result<(), PolicyFault>
        ensures ok { OnOk result (rows.undsd self.old name.now ≡ Ok self.new) }
        ensures refused { IfErr result (IsFaultOf (rows.undsd self.old name.now)) }
        ensures memory { IfErr result (λ fault. fault ≢ PolicyFault.Memory) }
        ensures err { OnErr result (self.new ≡ self.old) }
    {
        self.remove_set(Kind::Dynamic, name)
    }

    /// Makes a set of the kind.
    fn make_set(&mut self, kind: Kind, set: SeparationSet) -> Result<(), PolicyFault>
        ensures ok { OnOk result (kinds.make_set kind self.old set ≡ Ok self.new) }
        ensures refused { IfErr result (IsFaultOf (kinds.make_set kind self.old set)) }
        ensures err { OnErr result (self.new ≡ self.old) }
    {
        self.may_make_set(kind, &set)?;
        if self.is_broken(kind, &set) {
            return Err(PolicyFault::Refused(set_refusal(kind, set.into_name())));
        }
        make(&mut self.sets, kind, self.permissions.roles(), set)?;
        Ok(())
    }

    /// The tests of a new set, without those of the users or sessions that it binds and of room.
    fn may_make_set(&self, kind: Kind, set: &SeparationSet) -> Result<(), PolicyFault>
        ensures form { OnOk result (nat_lt 0 set.now.cardinality ≡ true) }
        ensures new { OnOk result (has_set (kind_sets kind self.now) set.now.name ≡ false) }
        ensures roles { OnOk result (list_all (is_role self.now.roles) set.now.roles ≡ true) }
        ensures refused { IfErr result (IsFaultOf (kinds.make_set kind self.now set.now)) }
    {
        if self.has_set(kind, set.name()) {
            return Err(PolicyFault::Refused(Refusal::Known));
        }
        if !self.are_roles(set.roles()) {
            return Err(PolicyFault::Refused(Refusal::Unknown));
        }
        Ok(())
    }

    /// Removes a set of the kind. It takes no memory.
    fn remove_set(&mut self, kind: Kind, name: &Name) -> Result<(), PolicyFault>
        ensures ok { OnOk result (kinds.remove_set kind self.old name.now ≡ Ok self.new) }
        ensures refused { IfErr result (IsFaultOf (kinds.remove_set kind self.old name.now)) }
        ensures memory { IfErr result (λ fault. fault ≢ PolicyFault.Memory) }
        ensures err { OnErr result (self.new ≡ self.old) }
    {
        remove(&mut self.sets, kind, self.permissions.roles(), name)?;
        Ok(())
    }

    /// Whether a set of the kind has the name.
    fn has_set(&self, kind: Kind, name: &Name) -> bool
        ensures { result ≡ has_set (kind_sets kind self.now) name.now }
    {
        self.sets.sets().contains(kind, name)
    }

    /// Whether each of the names is a role.
    fn are_roles(&self, names: &[Name]) -> bool
        ensures { result ≡ list_all (is_role self.now.roles) names.now }
    {
        for name in names {
            if !self.is_role(name) {
                return false;
            }
        }
        true
    }

    /// Whether some user breaks the static set, or some session the dynamic one.
    fn is_broken(&self, kind: Kind, set: &SeparationSet) -> bool
        ensures { result ≡ is_broken self.now.roles (bound_lists kind self.now) set.now }
    {
        let roles = self.permissions.roles();
        match kind {
            Kind::Static => breaks_a_user(set, roles, &self.users),
            Kind::Dynamic => breaks_a_session(set, roles, self.sessions.table()),
        }
    }
}
