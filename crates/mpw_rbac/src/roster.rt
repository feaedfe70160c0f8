//! The users, each with a digest and the assigned roles, in the order in which they were added.
//!
//! Names are in a [`Register`], and the data of each user in a shared pointer. So a copy costs a count for each user and for each of the
//! latest names, and a look-up costs a hash. Removing a user numbers the names again, with a hash for each.
ghost use Rattle.std.specs.Prelude.{◌≡◌, ◌<◌, ◌++◌, ◌∷◌, [], ℕ, List, length, map, position, take, drop, slice_get, zip, remove, is_some, true, IfOk, IfSome, OnOk};
ghost use Rattle.std.specs.Option.{option_copied};
ghost use Rattle.mpw_geom.specs.Names.{name_eq, without_name};
ghost use Rattle.mpw_roles.specs.Order.{are_distinct};
ghost use Rattle.mpw_rbac.specs.Policy.{assigned_lists};
ghost use Rattle.mpw_rbac.specs.Rows.{unassigned};
ghost use Rattle.mpw_rbac.specs.Table.{has_key, value_at, without_key, insert_entry};
ghost use Rattle.mpw_rbac.specs.declared.session.User.{User as UserState};

use crate::User;
use mpw_geom::{Name, Names};
use mpw_lists::{Shared, roomy_copy};
use mpw_roles::Register;
use std::alloc::{AllocError, Global};
use std::marker::Model;

/// The data of a user, which copies share.
pub(crate) type SharedUser = Shared<User>;

/// The user without an assignment.
fn without_assignment(alloc: Global, user: &User, role: &Name) -> Result<SharedUser, AllocError>
    ensures { IfOk result (λ shared. shared ≡ record user.now { roles = without_name user.now.roles role.now }) }
{
    let mut roles = user.roles.copy()?;
    roles.remove(role);
    let digest = user.digest;
    Shared::new(alloc, User { digest, roles })
}

/// Users in the order in which they were added.
pub(crate) struct Roster {
    names: Register,
    values: Vec<SharedUser>,
}

impl Drop for Roster {
    fn drop(self) {
        let Roster { names, values } = self;
        drop(names);
        drop(values);
    }
}

impl Model for Roster {
    ghost use Rattle.std.specs.Prelude.{◌≡◌, ℕ, List, length, zip};
    ghost use Rattle.mpw_rbac.specs.declared.session.User.{User};

    ghost Value = { List (List ℕ × User) };

    ghost view = { λ roster. zip roster.names roster.values.items };

    ghost invariant = { λ roster. length roster.names ≡ length roster.values.items };
}

/// The data of the users without the assignments of a role.
fn values_without_assignments(
    alloc: Global,
    values: &[SharedUser],
    role: &Name,
) -> Result<Vec<SharedUser>, AllocError>
    ensures { IfOk result (λ copy. copy.items ≡ map (λ (user : UserState). record user { roles = without_name user.roles role.now }) values.now) }
{
    let mut copy = Vec::with_capacity(alloc, values.len())?;
    for value in values {
        copy.push(without_assignment(alloc, value.get(), role)?)?;
    }
    Ok(copy)
}

/// The names of a register.
fn names_of(alloc: Global, register: &Register) -> Result<Names, AllocError>
    ensures { IfOk result (λ names. names ≡ register.now) }
{
    let mut names = Names::new(alloc);
    for number in 0..register.len() {
        if let Some(name) = register.name(number) {
            names.push(name.copy()?)?;
        }
    }
    Ok(names)
}

/// The values without the one at an index.
fn values_without(
    alloc: Global,
    values: &[SharedUser],
    place: usize,
) -> Result<Vec<SharedUser>, AllocError>
    requires { place < length values.now }
    ensures { IfOk result (λ left. left.items ≡ remove values.now place) }
{
    let mut values = roomy_copy(alloc, values)?;
    drop(values.remove(place));
    Ok(values)
}

/// The names of a register without one, numbered again.
fn names_without(alloc: Global, register: &Register, name: &Name) -> Result<Register, AllocError>
    requires { are_distinct register.now ≡ true }
    ensures { IfOk result (λ left. left ≡ without_name register.now name.now) }
{
    let mut names = names_of(alloc, register)?;
    names.remove(name);
    Register::of_names(alloc, names.as_slice())
}

/// Sets the data of a user. A new user is added at the end.
fn put(
    alloc: Global,
    names: &mut Register,
    values: &mut Vec<SharedUser>,
    user: &Name,
    value: SharedUser,
) -> Result<(), AllocError>
    requires { length names.old ≡ length values.old.items }
    ensures put { OnOk result (zip names.new values.new.items ≡ insert_entry name_eq (zip names.old values.old.items) user.now value) }
    ensures long { OnOk result (length names.new ≡ length values.new.items) }
{
    if let Some(number) = names.number(user) {
        values[number] = value;
        return Ok(());
    }
    values.push(value)?;
    names.push(alloc, user.copy()?)
}

impl Roster {
    /// No users. It takes no memory.
    pub(crate) fn new(alloc: Global) -> Roster
        ensures { result ≡ [] }
    {
        Roster {
            names: Register::new(alloc),
            values: Vec::new(alloc),
        }
    }

    /// The number of users.
    pub(crate) fn len(&self) -> usize
        ensures { result ≡ length self.now }
    {
        self.names.len()
    }

    /// The index of a user. Cost: a hash.
    pub(crate) fn place(&self, user: &Name) -> Option<usize>
        ensures place { result ≡ position (name_eq user.now) (map (λ entry. entry.0) self.now) }
        ensures within { IfSome result (λ place. place < length self.now) }
    {
        self.names.number(user)
    }

    /// The data of each user, in the order of the users.
    pub(crate) fn values(&self) -> &[SharedUser]
        ensures { assigned_lists self.now ≡ map (λ (user : UserState). user.roles) result.now }
    {
        self.values.as_slice()
    }

    /// The user at an index.
    fn at(&self, place: usize) -> Option<&User>
        ensures { option_copied result ≡ slice_get (map (λ entry. entry.1) self.now) place }
    {
        match self.values.get(place) {
            Some(value) => Some(value.get()),
            None => None,
        }
    }

    /// The data of a user. Cost: a hash.
    pub(crate) fn get(&self, user: &Name) -> Option<&User>
        ensures { option_copied result ≡ value_at name_eq self.now user.now }
    {
        match self.place(user) {
            Some(place) => self.at(place),
            None => None,
        }
    }

    /// Whether the user exists. Cost: a hash.
    pub(crate) fn contains(&self, user: &Name) -> bool
        ensures { result ≡ has_key name_eq self.now user.now }
    {
        self.place(user).is_some()
    }

    /// The same users. Cost: a count for each.
    fn copy(&self, alloc: Global) -> Result<Roster, AllocError>
        ensures { IfOk result (λ roster. roster ≡ self.now) }
    {
        let names = self.names.copy()?;
        let values = roomy_copy(alloc, &self.values)?;
        Ok(Roster { names, values })
    }

    /// Sets the data of a user. A new user is added at the end.
    fn put(self, alloc: Global, user: &Name, value: SharedUser) -> Result<Roster, AllocError>
        ensures { IfOk result (λ roster. roster ≡ insert_entry name_eq self user.now value) }
    {
        let Roster {
            mut names,
            mut values,
        } = self;
        put(alloc, &mut names, &mut values, user, value)?;
        Ok(Roster { names, values })
    }

    /// The users with one more, or with other data of one. Cost: a count for each.
    pub(crate) fn with(&self, alloc: Global, user: &Name, value: User) -> Result<Roster, AllocError>
        ensures { IfOk result (λ roster. roster ≡ insert_entry name_eq self.now user.now value) }
    {
        let value = Shared::new(alloc, value)?;
        self.copy(alloc)?.put(alloc, user, value)
    }

    /// The users without one. Cost: a hash for each other one.
    pub(crate) fn without(&self, alloc: Global, user: &Name) -> Result<Roster, AllocError>
        ensures { IfOk result (λ roster. roster ≡ without_key name_eq self.now user.now) }
    {
        let Some(place) = self.names.number(user) else {
            return self.copy(alloc);
        };
        let names = names_without(alloc, &self.names, user)?;
        let values = values_without(alloc, &self.values, place)?;
        Ok(Roster { names, values })
    }

    /// The users without the assignments of a role.
    pub(crate) fn without_assignments(
        &self,
        alloc: Global,
        role: &Name,
    ) -> Result<Roster, AllocError>
        ensures { IfOk result (λ roster. roster ≡ unassigned self.now role.now) }
    {
        let names = self.names.copy()?;
        let values = values_without_assignments(alloc, &self.values, role)?;
        Ok(Roster { names, values })
    }
}
