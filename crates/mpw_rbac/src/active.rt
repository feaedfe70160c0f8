//! The table of sessions. Each has a mask with the indexes of its acting roles.
//!
//! A connection's session is found by a linear search: there are few, one for each open connection. The masks are those of the policy's
//! roles, by an invariant of the policy. A change of one session makes its mask. A change of users or roles makes all masks again, with a
//! look-up for each active role.
ghost use Rattle.std.specs.Prelude.{◌≡◌, ◌<◌, ℕ, true, not, ◌==◌, [], IfOk, IfSome, OnOk, OnErr, length, position};
ghost use Rattle.std.specs.Map.{lookup};
ghost use Rattle.std.specs.Option.{option_copied, option_map_or};
ghost use Rattle.mpw_roles.specs.Hierarchy.{Hierarchy};
ghost use Rattle.mpw_rbac.specs.Masked.{IsBelow, AreActing, AreAuthorized, sessions_in, masks_in};
ghost use Rattle.mpw_rbac.specs.Policy.{kept_sessions};
ghost use Rattle.mpw_rbac.specs.Internal.Policy.{users_and_roles, IsTrimmed};
ghost use Rattle.mpw_rbac.specs.Table.{value_at, without_key, insert_entry};
ghost use Rattle.mpw_rbac.specs.declared.active.Active.{Active as ActiveState};
ghost use Rattle.mpw_rbac.specs.declared.session.Session.{Session as SessionState};

use crate::Session;
use crate::trim::keep;
use crate::users::Users;
use mpw_roles::{Mask, Roles};
use std::alloc::{AllocError, Global};
use std::marker::Model;

/// A session, with a mask of the indexes of its acting roles.
#[derive(Clone, Drop)]
pub(crate) struct Active {
    pub(crate) session: Session,
    pub(crate) acting: Mask,
}

impl Active {
    /// The session with its mask. Cost: a look-up for each active role.
    pub(crate) fn new(roles: &Roles, session: Session) -> Active
        ensures session { result.session ≡ session }
        ensures acting { IsBelow roles.now result.session.active result.acting }
    {
        let acting = roles.mask_below(session.active.as_slice());
        Active { session, acting }
    }
}

/// A connection with its session.
pub(crate) type Connected = (u32, Active);

/// Sessions by connection, in the order in which they were opened.
pub(crate) struct Sessions {
    table: Vec<Connected>,
}

impl Drop for Sessions {
    fn drop(self) {
        let Sessions { table } = self;
        drop(table);
    }
}

impl Model for Sessions {
    ghost use Rattle.mpw_rbac.specs.Masked.{KeptSessions, sessions_in, masks_in};

    ghost Value = { KeptSessions };

    ghost view = { λ kept. record { sessions = sessions_in kept.table.items; masks = masks_in kept.table.items } };
}

/// Makes the mask of a session again.
fn remask(roles: &Roles, active: &mut Active)
    ensures session { active.new.session ≡ active.old.session }
    ensures acting { IsBelow roles.now active.new.session.active active.new.acting }
{
    active.acting = roles.mask_below(active.session.active.as_slice());
}

/// Removes the active roles of a session that its user isn't authorized for. It returns whether the user exists.
fn trim(users: &Users, roles: &Roles, active: &mut Active) -> bool
    ensures { IsTrimmed roles.now users.now active.old active.new result }
{
    let there = keep(users, roles, &mut active.session);
    remask(roles, active);
    there
}

/// The first index of a connection.
fn place_of(table: &[Connected], connection: u32) -> Option<usize>
    ensures place { result ≡ position (λ (e : ℕ × ActiveState). connection == e.0) table.now }
    ensures within { IfSome result (λ place. place < length table.now) }
{
    for place in 0..table.len() {
        if connection == table[place].0 {
            return Some(place);
        }
    }
    None
}

/// The first session of a connection.
fn session_of(table: &[Connected], connection: u32) -> Option<&Active>
    ensures { option_copied result ≡ lookup (λ other. connection == other) table.now }
{
    match place_of(table, connection) {
        Some(place) => Some(&table[place].1),
        None => None,
    }
}

/// Replaces the session at the first index of a connection, or adds one at the end.
fn put(table: &mut Vec<Connected>, connection: u32, active: Active) -> Result<(), AllocError>
    ensures ok { OnOk result (table.new.items ≡ insert_entry (λ a b. a == b) table.old.items connection active) }
    ensures err { OnErr result (table.new.items ≡ table.old.items) }
{
    match place_of(table.as_slice(), connection) {
        Some(place) => {
            table[place].1 = active;
            Ok(())
        }
        None => Ok(table.push((connection, active))?),
    }
}

impl Sessions {
    /// No sessions. It takes no memory.
    pub(crate) fn new(alloc: Global) -> Sessions
        ensures { result ≡ record { sessions = []; masks = [] } }
    {
        Sessions {
            table: Vec::new(alloc),
        }
    }

    /// The allocator of the sessions.
    pub(crate) fn allocator(&self) -> Global {
        *self.table.allocator()
    }

    /// The sessions by connection, with their masks.
    pub(crate) fn table(&self) -> &[Connected]
        ensures sessions { sessions_in result.now ≡ self.now.sessions }
        ensures masks { masks_in result.now ≡ self.now.masks }
    {
        self.table.as_slice()
    }

    /// The session of a connection.
    pub(crate) fn get(&self, connection: u32) -> Option<&Session>
        ensures { option_copied result ≡ value_at (λ a b. a == b) self.now.sessions connection }
    {
        match session_of(self.table.as_slice(), connection) {
            Some(active) => Some(&active.session),
            None => None,
        }
    }

    /// The indexes of the acting roles in the session of a connection. It is empty if the connection has no session.
    pub(crate) fn acting(&self, connection: u32) -> Mask
        ensures { (h : Hierarchy) → AreActing h self.now → IsBelow h (option_map_or (λ (s : SessionState). s.active) (value_at (λ a b. a == b) self.now.sessions connection) []) result }
    {
        match session_of(self.table.as_slice(), connection) {
            Some(active) => active.acting,
            None => Mask::new(),
        }
    }

    /// Sets the session of a connection. A new one is added at the end.
    pub(crate) fn insert(&mut self, connection: u32, active: Active) -> Result<(), AllocError>
        ensures ok { OnOk result (self.new.sessions ≡ insert_entry (λ a b. a == b) self.old.sessions connection active.session) }
        ensures acting { OnOk result ((h : Hierarchy) → AreActing h self.old → IsBelow h active.session.active active.acting → AreActing h self.new) }
        ensures err { OnErr result (self.new ≡ self.old) }
    {
        put(&mut self.table, connection, active)?;
        Ok(())
    }

    /// Removes the session of a connection, if it has one. It takes no memory.
    pub(crate) fn remove(&mut self, connection: u32)
        ensures sessions { self.new.sessions ≡ without_key (λ a b. a == b) self.old.sessions connection }
        ensures acting { (h : Hierarchy) → AreActing h self.old → AreActing h self.new }
    {
        self.table.retain(
            |other: &Connected| -> bool
                ensures { result ≡ not (connection == other.now.0) }
            { connection != other.0 },
        );
    }

    /// Removes every session. It takes no memory.
    pub(crate) fn clear(&mut self)
        ensures { self.new ≡ record { sessions = []; masks = [] } }
    {
        self.table.truncate(0);
    }

    /// Makes the masks again after a change of roles. It takes no memory. Cost: a look-up for each active role.
    pub(crate) fn remask(&mut self, roles: &Roles)
        ensures same { self.new.sessions ≡ self.old.sessions }
        ensures acting { AreActing roles.now self.new }
    {
        self.table.retain_mut(
            |connected: &mut Connected| -> bool
                ensures { (result ≡ true) × (connected.new.0 ≡ connected.old.0) × (connected.new.1.session ≡ connected.old.1.session) × IsBelow roles.entry.now connected.new.1.session.active connected.new.1.acting }
            {
                remask(roles, &mut connected.1);
                true
            },
        );
    }

    /// Removes the active roles that a session's user isn't authorized for, and ends a deleted user's sessions. It takes no memory. Cost: a
    /// look-up for each active role.
    pub(crate) fn trim(&mut self, users: &Users, roles: &Roles)
        requires { AreAuthorized roles.now users.now }
        ensures kept { self.new.sessions ≡ kept_sessions (users_and_roles users.now.users roles.now) self.old.sessions }
        ensures acting { AreActing roles.now self.new }
    {
        self.table.retain_mut(
            |connected: &mut Connected| -> bool
                ensures { (connected.new.0 ≡ connected.old.0) × IsTrimmed roles.entry.now users.entry.now connected.old.1 connected.new.1 result }
            { trim(users, roles, &mut connected.1) },
        );
    }

    /// The same sessions with the same masks.
    pub(crate) fn copy(&self) -> Result<Sessions, AllocError>
        ensures { IfOk result (λ copy. copy ≡ self.now) }
    {
        Ok(Sessions {
            table: self.table.clone()?,
        })
    }
}
