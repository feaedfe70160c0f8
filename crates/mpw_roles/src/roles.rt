//! The roles with their immediate juniors.
ghost use Rattle.std.specs.Prelude.{◌≡◌, ◌⊎◌, ◌<◌, ◌≤◌, ℕ, List, [], ◌∷◌, length, true, false, Ok, Err, IfOk, IfErr, IfSome, OnOk, OnErr, position};
ghost use Rattle.mpw_geom.specs.Names.{name_eq, by_name};
ghost use Rattle.mpw_roles.specs.Hierarchy.{Name as RoleName, Hierarchy, role_names, with_role, with_pair, is_role, is_immediate};
ghost use Rattle.mpw_roles.specs.Mask.{has};
ghost use Rattle.mpw_roles.specs.Order.{at_least, roles_below, IsHierarchy};
ghost use Rattle.mpw_roles.specs.Places.{is_place_under, is_place_below, is_place_of, IsMasked};
ghost use Rattle.mpw_roles.specs.Rows as rows;

use crate::mask::reserve_mask;
use crate::places::places_of;
use crate::remask::{join_places, write_own};
use crate::room::roomy_copy;
use crate::table::Table;
use crate::{Below, Mask, RolesFault};
use mpw_geom::{Name, Names};
use std::alloc::{AllocError, Global};
use std::marker::Model;
use std::slice;

/// The greatest number of roles.
pub const MAX_ROLES: usize = 512;

/// Roles in the order in which they were added, each with its immediate juniors. The mask at the index of a role has the indexes of the
/// roles at or below it. There may be more masks than roles.
pub struct Roles {
    table: Table,
    masks: Vec<Mask>,
}

impl Drop for Roles {
    fn drop(self) {
        let Roles { table, masks } = self;
        drop(table);
        drop(masks);
    }
}

impl Model for Roles {
    ghost use Rattle.std.specs.Prelude.{ℕ, List};
    ghost use Rattle.mpw_roles.specs.Places.{IsRoles};

    ghost Value = { List (List ℕ × List (List ℕ)) };

    ghost view = { λ roles. roles.table };

    ghost invariant = { λ roles. IsRoles roles.table roles.masks.items };
}

/// The masks after a new pair of roles.
fn join(table: &Table, masks: &mut [Mask], senior: &Name, junior: &Name)
    requires { length table.now ≤ length masks.old }
    ensures masked { (h : Hierarchy) → role_names h ≡ role_names table.now → is_role h senior.now ≡ true → is_role h junior.now ≡ true → IsMasked h masks.old → IsMasked (with_pair h senior.now junior.now) masks.new }
    ensures long { length masks.new ≡ length masks.old }
{
    let Some(above) = table.place(senior) else {
        return;
    };
    let Some(below) = table.place(junior) else {
        return;
    };
    join_places(masks, above, below);
}

/// The union of the masks of those seniors that are roles.
fn union_of_masks(table: &Table, masks: &[Mask], seniors: &[Name]) -> Mask
    requires hierarchy { IsHierarchy table.now }
    requires masked { IsMasked table.now masks.now }
    ensures { (place : ℕ) → has result place ≡ is_place_below table.now seniors.now place }
{
    let mut mask = Mask::new();
    for senior in seniors {
        if let Some(place) = table.place(senior) {
            mask.add(&masks[place]);
        }
    }
    mask
}

impl Roles {
    /// A hierarchy without roles. It takes no memory.
    pub fn new(alloc: Global) -> Roles
        ensures { result ≡ [] }
    {
        Roles {
            table: Table::new(alloc),
            masks: Vec::new(alloc),
        }
    }

    /// The allocator of the roles.
    pub fn allocator(&self) -> Global {
        self.table.allocator()
    }

    /// The number of roles.
    pub fn len(&self) -> usize
        ensures { result ≡ length self.now }
    {
        self.table.len()
    }

    /// Whether the role exists.
    pub fn contains(&self, role: &Name) -> bool
        ensures { result ≡ is_role self.now role.now }
    {
        self.table.place(role).is_some()
    }

    /// Adds a role, without pairs.
    ///
    /// # Errors
    /// `Known`, then `Full`; or `Memory`. Then the roles are unchanged.
    pub fn add(&mut self, role: Name) -> Result<(), RolesFault>
        ensures ok { OnOk result (rows.add self.old role ≡ Ok self.new) }
        ensures refused { IfErr result (λ fault. (fault ≡ RolesFault.Memory) ⊎ (rows.add self.old role ≡ Err fault)) }
        ensures err { OnErr result (self.new ≡ self.old) }
    {
        if self.contains(&role) {
            return Err(RolesFault::Known);
        }
        if self.len() >= MAX_ROLES {
            return Err(RolesFault::Full);
        }
        self.add_new(role)?;
        Ok(())
    }

    /// Adds a role that doesn't exist yet, if there are fewer than the greatest number.
    fn add_new(&mut self, role: Name) -> Result<(), AllocError>
        requires new { is_role self.old role ≡ false }
        requires room { length self.old < 512 }
        ensures ok { OnOk result (self.new ≡ with_role self.old role) }
        ensures err { OnErr result (self.new ≡ self.old) }
    {
        let place = self.table.len();
        reserve_mask(&mut self.masks, place)?;
        self.table.add(role)?;
        write_own(&mut self.masks, place);
        Ok(())
    }

    /// Removes a role with each pair that it is in. It takes no memory. Cost: a pass over the masks for each pair.
    ///
    /// # Errors
    /// `NoRole`. Then the roles are unchanged.
    pub fn remove(&mut self, role: &Name) -> Result<(), RolesFault>
        ensures ok { OnOk result (rows.remove self.old role.now ≡ Ok self.new) }
        ensures refused { IfErr result (λ fault. rows.remove self.old role.now ≡ Err fault) }
        ensures err { OnErr result (self.new ≡ self.old) }
    {
        if !self.contains(role) {
            return Err(RolesFault::NoRole);
        }
        self.table.remove(role);
        self.table.remask(&mut self.masks);
        Ok(())
    }

    /// Makes the senior an immediate senior of the junior.
    ///
    /// # Errors
    /// `NoRole`, then `Known`, then `Cycle` if the junior is at least the senior; or `Memory`. Then the roles are unchanged.
    pub fn inherit(&mut self, senior: &Name, junior: &Name) -> Result<(), RolesFault>
        ensures ok { OnOk result (rows.inherit self.old senior.now junior.now ≡ Ok self.new) }
        ensures refused { IfErr result (λ fault. (fault ≡ RolesFault.Memory) ⊎ (rows.inherit self.old senior.now junior.now ≡ Err fault)) }
        ensures err { OnErr result (self.new ≡ self.old) }
    {
        if !self.contains(senior) || !self.contains(junior) {
            return Err(RolesFault::NoRole);
        }
        if self.is_immediate(senior, junior) {
            return Err(RolesFault::Known);
        }
        if self.at_least(junior, senior) {
            return Err(RolesFault::Cycle);
        }
        self.table.add_pair(senior, junior)?;
        join(&self.table, &mut self.masks, senior, junior);
        Ok(())
    }

    /// Removes an immediate pair. It takes no memory. Cost: a pass over the masks for each pair.
    ///
    /// # Errors
    /// `NoPair`. Then the roles are unchanged.
    pub fn uninherit(&mut self, senior: &Name, junior: &Name) -> Result<(), RolesFault>
        ensures ok { OnOk result (rows.uninherit self.old senior.now junior.now ≡ Ok self.new) }
        ensures refused { IfErr result (λ fault. rows.uninherit self.old senior.now junior.now ≡ Err fault) }
        ensures err { OnErr result (self.new ≡ self.old) }
    {
        if !self.is_immediate(senior, junior) {
            return Err(RolesFault::NoPair);
        }
        self.table.remove_pair(senior, junior);
        self.table.remask(&mut self.masks);
        Ok(())
    }

    /// Whether the two are an immediate pair.
    pub fn is_immediate(&self, senior: &Name, junior: &Name) -> bool
        ensures { result ≡ is_immediate self.now senior.now junior.now }
    {
        self.table.is_immediate(senior, junior)
    }

    /// The index of a role: its position in the order of the roles, and its bit in every mask. Cost: a look-up.
    pub fn place(&self, role: &Name) -> Option<usize>
        ensures place { result ≡ position (name_eq role.now) (role_names self.now) }
        ensures within { IfSome result (λ place. place < length self.now) }
        ensures small { IfSome result (λ place. place < 512) }
    {
        self.table.place(role)
    }

    /// The indexes of those names that are roles. It takes no memory. Cost: a look-up for each name.
    pub fn places(&self, names: &[Name]) -> Mask
        ensures { (place : ℕ) → has result place ≡ is_place_of (role_names self.now) names.now place }
    {
        places_of(&self.table, names)
    }

    /// The indexes of the roles at or below a role. It is empty for a name that is no role. Cost: a look-up.
    pub fn mask(&self, role: &Name) -> Mask
        ensures { (place : ℕ) → has result place ≡ is_place_under self.now role.now place }
    {
        match self.table.place(role) {
            Some(place) => self.masks[place],
            None => Mask::new(),
        }
    }

    /// The indexes of the roles at or below some others, which need not be roles. It takes no memory. Cost: a look-up for each of them.
    pub fn mask_below(&self, seniors: &[Name]) -> Mask
        ensures { (place : ℕ) → has result place ≡ is_place_below self.now seniors.now place }
    {
        union_of_masks(&self.table, &self.masks, seniors)
    }

    /// The roles at or below some others, which need not be roles. It takes no memory. Cost: a look-up for each of them.
    pub fn below<'a>(&'a self, seniors: &[Name]) -> Below<'a>
        ensures { result ≡ roles_below self.now seniors.now }
    {
        let mask = self.mask_below(seniors);
        let _unique = self.table.len();
        Below::new(&self.table, mask)
    }

    /// The roles at the indexes of a mask. If the mask is that of some seniors, these are the roles at or below them. It takes no memory.
    pub fn at_places<'a>(&'a self, mask: &Mask) -> Below<'a>
        ensures { (seniors : List (List ℕ)) → ((place : ℕ) → has mask.now place ≡ is_place_below self.now seniors place) → result ≡ roles_below self.now seniors }
    {
        let _unique = self.table.len();
        Below::new(&self.table, *mask)
    }

    /// Whether the senior is the junior, or a chain of immediate pairs leads from it down to the junior. Cost: two look-ups and a bit. It
    /// takes no memory.
    pub fn at_least(&self, senior: &Name, junior: &Name) -> bool
        ensures { result ≡ at_least self.now senior.now junior.now }
    {
        match (self.table.place(senior), self.table.place(junior)) {
            (Some(above), Some(below)) => self.masks[above].contains(below),
            _ => *senior == *junior,
        }
    }

    /// The roles at or below a role, in alphabetical order. Cost: that of `below`, and a sort.
    ///
    /// # Errors
    /// Out of memory.
    pub fn juniors(&self, role: &Name) -> Result<Names, AllocError>
        ensures { IfOk result (λ names. names ≡ by_name (roles_below self.now (role.now ∷ []))) }
    {
        let below = self.below(slice::from_ref(role));
        let mut names = below.names(self.table.allocator())?;
        names.sort()?;
        Ok(names)
    }

    /// The same roles with the same pairs.
    ///
    /// # Errors
    /// Out of memory.
    pub fn copy(&self) -> Result<Roles, AllocError>
        ensures { IfOk result (λ roles. roles ≡ self.now) }
    {
        let table = self.table.copy()?;
        let masks = roomy_copy(self.table.allocator(), &self.masks)?;
        Ok(Roles { table, masks })
    }

    /// Every value is a hierarchy: at most 512 roles, each once; pairs of roles, each once; and no cycle. A law: the function does nothing.
    pub fn is_hierarchy(&self)
        ensures { IsHierarchy self.now }
    {
        let _roles = &self.table;
    }

    /// No hierarchy has a cycle, so the order is a partial order. A law: the function does nothing.
    pub fn order_is_antisymmetric(&self)
        ensures { (a b : RoleName) → at_least self.now a b ≡ true → at_least self.now b a ≡ true → a ≡ b }
    {
        let _roles = &self.table;
    }
}
