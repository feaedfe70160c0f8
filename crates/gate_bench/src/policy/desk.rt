//! A desk with that many roles and grants, and a session at the top of the hierarchy.

use mpw_geom::Name;
use mpw_permissions::{Grant, Object, Operation};
use mpw_rbac::{Digest, Policy, PolicyFault};
use std::alloc::{AllocError, Global};

/// The digest of each user here.
pub const DIGEST: Digest = [7; 32];

/// The name of a text that is known to be one.
pub fn name(alloc: Global, text: &str) -> Result<Name, AllocError> {
    Name::read(alloc, text.as_bytes()).map_err(|_| AllocError)
}

/// The name with that number.
fn numbered(alloc: Global, letter: &str, number: u32) -> Result<Name, AllocError> {
    let text = format!(in alloc; "{letter}{number}")?;
    name(alloc, text.as_str())
}

/// The grant of reading a cell to a role, both by their numbers.
pub fn grant_of(alloc: Global, cell: u32, role: u32) -> Result<Grant, AllocError> {
    Ok(Grant {
        operation: Operation::Read,
        object: Object::Cell(numbered(alloc, "c", cell)?),
        role: numbered(alloc, "r", role)?,
    })
}

/// A policy, and how many of the requests that filled it were refused.
#[derive(Drop)]
pub struct Desk {
    alloc: Global,
    /// The policy.
    pub policy: Policy,
    /// How many requests were refused.
    pub refused: u32,
}

impl Desk {
    /// A new desk.
    pub fn new(alloc: Global) -> Result<Desk, AllocError> {
        match Policy::new(alloc, name(alloc, "root")?, DIGEST) {
            Ok(policy) => Ok(Desk {
                alloc,
                policy,
                refused: 0,
            }),
            Err(_) => Err(AllocError),
        }
    }

    /// Counts a refused request.
    fn count(&mut self, made: Result<(), PolicyFault>) {
        self.refused = self.refused.saturating_add(u32::from(made.is_err()));
    }

    /// Opens a session of a user with an active role.
    fn log_in(&mut self, conn: u32, user: &str, role: &str) -> Result<(), AllocError> {
        let user = name(self.alloc, user)?;
        let role = name(self.alloc, role)?;
        let opened = self.policy.open(conn, &user, &DIGEST);
        self.count(opened);
        if self.policy.has_session(conn) {
            let active = self.policy.activate(conn, &role);
            self.count(active);
        }
        Ok(())
    }

    /// Adds a user with a role.
    fn add_user(&mut self, user: Name, role: &Name) -> Result<(), AllocError> {
        let added = self.policy.adduser(user.copy()?, DIGEST);
        self.count(added);
        let assigned = self.policy.assign(&user, role);
        self.count(assigned);
        Ok(())
    }

    /// Adds the roles from `r0` on, one less than the number, since the officer's is one.
    fn add_roles(&mut self, roles: u32) -> Result<(), AllocError> {
        for number in 1..roles {
            let role = numbered(self.alloc, "r", number.saturating_sub(1))?;
            let made = self.policy.addrole(role);
            self.count(made);
        }
        Ok(())
    }

    /// Makes each role but the first an immediate junior of the one at half its number.
    fn add_pairs(&mut self, roles: u32) -> Result<(), AllocError> {
        for number in 2..roles {
            let junior = numbered(self.alloc, "r", number.saturating_sub(1))?;
            let senior = numbered(self.alloc, "r", number.saturating_sub(2) / 2)?;
            let made = self.policy.inherit(&senior, &junior);
            self.count(made);
        }
        Ok(())
    }

    /// Grants reading a cell each to the roles in turn.
    fn add_grants(&mut self, roles: u32, grants: u32) -> Result<(), AllocError> {
        for cell in 0..grants {
            let grant = grant_of(self.alloc, cell, turn(cell, roles))?;
            let made = self.policy.grant(grant);
            self.count(made);
        }
        Ok(())
    }

    /// Adds users from `u0` on, each with a role in turn.
    fn add_users(&mut self, roles: u32, users: u32) -> Result<(), AllocError> {
        for number in 0..users {
            let user = numbered(self.alloc, "u", number)?;
            let role = numbered(self.alloc, "r", turn(number, roles))?;
            self.add_user(user, &role)?;
        }
        Ok(())
    }

    /// Fills a new desk, and opens a session on connection 2 whose active role is at least every other.
    pub fn fill(&mut self, roles: u32, grants: u32, users: u32) -> Result<(), AllocError> {
        self.log_in(1, "root", "officer")?;
        self.add_roles(roles)?;
        self.add_pairs(roles)?;
        self.add_grants(roles, grants)?;
        self.add_user(name(self.alloc, "ann")?, &name(self.alloc, "r0")?)?;
        self.add_users(roles, users)?;
        self.log_in(2, "ann", "r0")
    }
}

/// The number of a role, of all but the officer's in turn.
fn turn(number: u32, roles: u32) -> u32 {
    let count = roles.saturating_sub(1);
    if count == 0 { 0 } else { number % count }
}
