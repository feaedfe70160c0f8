//! The table of roles: each role with its immediate juniors, in the order in which the roles were added.
//!
//! The table has a role as the number of its name in a [`Register`], which copies share, and a pair as two numbers. So a copy of the table
//! copies plain numbers, and counts the latest names alone. If a role is removed, its name stays in the register, so the removal takes no
//! memory. The next copy numbers the names again.
ghost use Rattle.std.specs.Prelude.{◌≡◌, ℕ, ◌<◌, ◌≤◌, [], true, false, length, position, slice_get, slice_index_or, is_some, IfOk, IfSome, OnOk, OnErr, Some};
ghost use Rattle.std.specs.Option.{option_copied};
ghost use Rattle.mpw_geom.specs.Names.{name_eq};
ghost use Rattle.mpw_roles.specs.Hierarchy.{role_names, is_role, is_immediate, with_role, without_role, with_pair, without_pair};
ghost use Rattle.mpw_roles.specs.Order.{are_distinct};
ghost use Rattle.mpw_roles.specs.Places.{IsMasked};

use crate::pairs::{Pair, has_pair, place_of, without_ends, without_number, without_pair};
use crate::remask::remask;
use crate::renumber::{is_straight, names_with, numbers, placed_pairs};
use crate::room::roomy_copy;
use crate::{Mask, Register};
use mpw_geom::Name;
use std::alloc::{AllocError, Global};
use std::marker::Model;

/// Roles in the order in which they were added, each with its immediate juniors.
pub(crate) struct Table {
    names: Register,
    order: Vec<usize>,
    pairs: Vec<Pair>,
}

impl Drop for Table {
    fn drop(self) {
        let Table {
            names,
            order,
            pairs,
        } = self;
        drop(names);
        drop(order);
        drop(pairs);
    }
}

impl Model for Table {
    ghost use Rattle.std.specs.Prelude.{ℕ, List};
    ghost use Rattle.mpw_roles.specs.Internal.Table.{entries_of, IsTable};

    ghost Value = { List (List ℕ × List (List ℕ)) };

    ghost view = { λ table. entries_of table.names table.pairs.items table.order.items };

    ghost invariant = { λ table. IsTable table.names table.pairs.items table.order.items };
}

/// The number of a name. A name without a number gets one.
fn number_of(names: &mut Register, alloc: Global, name: Name) -> Result<usize, AllocError>
    ensures number { IfOk result (λ number. Some number ≡ position (name_eq name) names.new) }
    ensures once { are_distinct names.new ≡ true }
    ensures long { length names.old ≤ length names.new }
    ensures kept { (number : ℕ) → number < length names.old → slice_index_or names.new number [] ≡ slice_index_or names.old number [] }
{
    if let Some(number) = names.number(&name) {
        return Ok(number);
    }
    let number = names.len();
    names.push(alloc, name)?;
    Ok(number)
}

impl Table {
    /// No roles. It takes no memory.
    pub(crate) fn new(alloc: Global) -> Table
        ensures { result ≡ [] }
    {
        Table {
            names: Register::new(alloc),
            order: Vec::new(alloc),
            pairs: Vec::new(alloc),
        }
    }

    /// The same roles. If roles were removed, the names are numbered again.
    ///
    /// # Errors
    /// Out of memory.
    pub(crate) fn copy(&self) -> Result<Table, AllocError>
        ensures { IfOk result (λ table. table ≡ self.now) }
    {
        if is_straight(&self.order, self.names.len()) {
            return self.copy_with_same_numbers();
        }
        self.copy_with_new_numbers()
    }

    /// The same roles with the same numbers. Cost: a copy of the numbers, and that of a copy of the register.
    fn copy_with_same_numbers(&self) -> Result<Table, AllocError>
        ensures { IfOk result (λ table. table ≡ self.now) }
    {
        let alloc = self.allocator();
        let names = self.names.copy()?;
        let order = roomy_copy(alloc, &self.order)?;
        let pairs = roomy_copy(alloc, &self.pairs)?;
        Ok(Table {
            names,
            order,
            pairs,
        })
    }

    /// The same roles with new numbers, each its index. Cost: a hash for each role, and for each pair two searches through the order of the roles.
    fn copy_with_new_numbers(&self) -> Result<Table, AllocError>
        ensures { IfOk result (λ table. table ≡ self.now) }
    {
        let alloc = self.allocator();
        let listed = names_with(alloc, &self.names, &self.order)?;
        let names = Register::of_names(alloc, listed.as_slice())?;
        drop(listed);
        let order = numbers(alloc, self.order.len())?;
        let pairs = placed_pairs(alloc, &self.order, &self.pairs)?;
        Ok(Table {
            names,
            order,
            pairs,
        })
    }

    /// Makes the mask of each role again. Cost: a pass over the masks for each pair. It takes no memory.
    pub(crate) fn remask(&self, masks: &mut [Mask])
        requires small { length self.now ≤ 512 }
        requires long { length self.now ≤ length masks.old }
        ensures masked { IsMasked self.now masks.new }
        ensures same { length masks.new ≡ length masks.old }
    {
        remask(&self.order, &self.pairs, masks);
    }

    /// The allocator of the roles.
    pub(crate) fn allocator(&self) -> Global {
        *self.order.allocator()
    }

    /// The number of roles.
    pub(crate) fn len(&self) -> usize
        ensures { result ≡ length self.now }
    {
        self.order.len()
    }

    /// The index of a role. Cost: a look-up of its name's number.
    pub(crate) fn place(&self, role: &Name) -> Option<usize>
        ensures place { result ≡ position (name_eq role.now) (role_names self.now) }
        ensures found { is_some result ≡ is_role self.now role.now }
        ensures within { IfSome result (λ place. place < length self.now) }
        ensures once { are_distinct (role_names self.now) ≡ true }
    {
        match self.names.number(role) {
            Some(number) => place_of(&self.order, number),
            None => None,
        }
    }

    /// The name of the role at an index.
    pub(crate) fn name(&self, place: usize) -> Option<&Name>
        ensures { option_copied result ≡ slice_get (role_names self.now) place }
    {
        match self.order.get(place) {
            Some(number) => self.names.name(*number),
            None => None,
        }
    }

    /// Whether the two are an immediate pair. Cost: two look-ups, and a comparison for each pair.
    pub(crate) fn is_immediate(&self, senior: &Name, junior: &Name) -> bool
        ensures { result ≡ is_immediate self.now senior.now junior.now }
    {
        let Some(senior) = self.names.number(senior) else {
            return false;
        };
        let Some(junior) = self.names.number(junior) else {
            return false;
        };
        has_pair(&self.pairs, senior, junior)
    }

    /// Adds a role, without pairs.
    ///
    /// # Errors
    /// Out of memory. Then the roles are unchanged.
    pub(crate) fn add(&mut self, role: Name) -> Result<(), AllocError>
        requires { is_role self.old role ≡ false }
        ensures ok { OnOk result (self.new ≡ with_role self.old role) }
        ensures err { OnErr result (self.new ≡ self.old) }
    {
        let alloc = *self.order.allocator();
        let number = number_of(&mut self.names, alloc, role)?;
        self.order.push(number)?;
        Ok(())
    }

    /// Removes a role with each pair that it is in. It takes no memory.
    pub(crate) fn remove(&mut self, role: &Name)
        requires { is_role self.old role.now ≡ true }
        ensures { self.new ≡ without_role self.old role.now }
    {
        let Some(number) = self.names.number(role) else {
            return;
        };
        without_number(&mut self.order, number);
        without_ends(&mut self.pairs, number);
    }

    /// Adds an immediate pair of roles.
    ///
    /// # Errors
    /// Out of memory. Then the roles are unchanged.
    pub(crate) fn add_pair(&mut self, senior: &Name, junior: &Name) -> Result<(), AllocError>
        requires senior { is_role self.old senior.now ≡ true }
        requires junior { is_role self.old junior.now ≡ true }
        ensures ok { OnOk result (self.new ≡ with_pair self.old senior.now junior.now) }
        ensures err { OnErr result (self.new ≡ self.old) }
    {
        let Some(senior) = self.names.number(senior) else {
            return Ok(());
        };
        let Some(junior) = self.names.number(junior) else {
            return Ok(());
        };
        self.pairs.push(Pair { senior, junior })?;
        Ok(())
    }

    /// Removes an immediate pair of roles. It takes no memory.
    pub(crate) fn remove_pair(&mut self, senior: &Name, junior: &Name)
        requires senior { is_role self.old senior.now ≡ true }
        requires junior { is_role self.old junior.now ≡ true }
        ensures { self.new ≡ without_pair self.old senior.now junior.now }
    {
        let Some(senior) = self.names.number(senior) else {
            return;
        };
        let Some(junior) = self.names.number(junior) else {
            return;
        };
        without_pair(&mut self.pairs, senior, junior);
    }
}
