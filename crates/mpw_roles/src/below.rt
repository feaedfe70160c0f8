//! The roles at or below some others, as a mask of their indexes.
ghost use Rattle.std.specs.Prelude.{◌≡◌, ◌<◌, ◌+◌, ◌++◌, length, IfOk, OnOk, drop};
ghost use Rattle.mpw_geom.specs.Names.{contains_name};
ghost use Rattle.mpw_roles.specs.Marks.{marked_names};
ghost use Rattle.mpw_roles.specs.Places.{marks_from};

use crate::Mask;
use crate::table::Table;
use mpw_geom::{Name, Names};
use std::alloc::{AllocError, Global};
use std::marker::Model;

/// Adds the role at an index to the names, if the mask has the index.
fn push_marked(
    table: &Table,
    mask: &Mask,
    index: usize,
    names: &mut Names,
) -> Result<(), AllocError>
    requires { index < length table.now }
    ensures { OnOk result (names.new ++ marked_names (drop (index + 1) table.now) (drop (index + 1) (marks_from 0 (length table.now) mask.now)) ≡ names.old ++ marked_names (drop index table.now) (drop index (marks_from 0 (length table.now) mask.now))) }
{
    let Some(role) = table.name(index) else {
        return Ok(());
    };
    if !mask.contains(index) {
        return Ok(());
    }
    names.push(role.copy()?)?;
    Ok(())
}

/// The roles at or below some seniors, in the order of the roles: the roles with a mask.
#[derive(Drop)]
pub struct Below<'a> {
    table: &'a Table,
    mask: Mask,
}

impl<'a> Model for Below<'a> {
    ghost use Rattle.std.specs.Prelude.{ℕ, List, length};
    ghost use Rattle.mpw_roles.specs.Marks.{marked_names};
    ghost use Rattle.mpw_roles.specs.Places.{marks_from};

    ghost Value = { List (List ℕ) };

    ghost view = { λ below. marked_names below.table.now (marks_from 0 (length below.table.now) below.mask) };
}

impl<'a> Below<'a> {
    /// The roles whose indexes the mask has. It takes no memory.
    pub(crate) fn new(table: &'a Table, mask: Mask) -> Below<'a>
        ensures { result ≡ marked_names table.now (marks_from 0 (length table.now) mask) }
    {
        Below { table, mask }
    }

    /// Whether the role is one of them. Cost: a look-up. It takes no memory.
    pub fn contains(&self, role: &Name) -> bool
        ensures { result ≡ contains_name self.now role.now }
    {
        match self.table.place(role) {
            Some(place) => self.mask.contains(place),
            None => false,
        }
    }

    /// These roles, in the order of the roles.
    ///
    /// # Errors
    /// Out of memory.
    pub fn names(&self, alloc: Global) -> Result<Names, AllocError>
        ensures { IfOk result (λ names. names ≡ self.now) }
    {
        let mut names = Names::new(alloc);
        for index in 0..self.table.len() {
            push_marked(self.table, &self.mask, index, &mut names)?;
        }
        Ok(names)
    }
}
