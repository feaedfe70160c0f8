//! Sessions: each has one connection, one user, and the active roles that it chose.
ghost use Rattle.std.specs.Prelude.{◌≡◌, true, false, is_some, [], ◌∷◌, ◌++◌, IfOk, IfErr, OnOk, OnErr, Ok, Err};
ghost use Rattle.std.specs.Option.{option_copied};
ghost use Rattle.mpw_geom.specs.Names.{contains_name, without_name, by_name};
ghost use Rattle.mpw_separation.specs.Separation.{least_broken};
ghost use Rattle.mpw_rbac.specs.Masked.{IsBelow};
ghost use Rattle.mpw_rbac.specs.Policy.{session_of, authorized, identity_of};
ghost use Rattle.mpw_rbac.specs.Rows.{IsFaultOf, is_login, end_session, end_sessions, active_roles, user_of};
ghost use Rattle.mpw_rbac.specs.Rows as rows;

use crate::active::Active;
use crate::{Digest, Identity, Policy, PolicyFault, Refusal, Session};
use mpw_geom::{Name, Names};
use mpw_roles::Below;
use mpw_separation::Kind;
use std::alloc::AllocError;

/// The names in alphabetical order.
fn sorted(names: Names) -> Result<Names, AllocError>
    ensures { IfOk result (λ sorted. sorted ≡ by_name names) }
{
    let mut names = names;
    names.sort()?;
    Ok(names)
}

impl Policy {
    /// Begins the connection's session for a user, without active roles (CreateSession).
    ///
    /// # Errors
    /// `Opened`, then `Login` if the user is unknown or the digest is wrong; or `Memory`. Then the policy is unchanged.
    pub fn open(&mut self, connection: u32, user: &Name, digest: &Digest) -> Result<(), PolicyFault>
        ensures ok { OnOk result (rows.open_session self.old connection user.now digest.now ≡ Ok self.new) }
        ensures refused { IfErr result (IsFaultOf (rows.open_session self.old connection user.now digest.now)) }
        ensures err { OnErr result (self.new ≡ self.old) }
    {
        if self.has_session(connection) {
            return Err(PolicyFault::Refused(Refusal::Opened));
        }
        if !self.is_login(user, digest) {
            return Err(PolicyFault::Refused(Refusal::Login));
        }
        let session = Session {
            user: user.copy()?,
            active: Names::new(self.sessions.allocator()),
        };
        let active = Active::new(self.permissions.roles(), session);
        self.sessions.insert(connection, active)?;
        Ok(())
    }

    /// Ends the connection's session, if it has one (DeleteSession). It takes no memory.
    pub fn end(&mut self, connection: u32)
        ensures { self.new ≡ end_session self.old connection }
    {
        self.sessions.remove(connection);
    }

    /// Ends every session, as a restart of the desk does. It takes no memory.
    pub fn end_all(&mut self)
        ensures { self.new ≡ end_sessions self.old }
    {
        self.sessions.clear();
    }

    /// Makes a role active in the connection's session (AddActiveRole).
    ///
    /// # Errors
    /// `NotAuthorized`, `Known`, `Dsd`, tested in this order; or `Memory`. Then the policy is unchanged.
    pub fn activate(&mut self, connection: u32, role: &Name) -> Result<(), PolicyFault>
        requires session { is_some (session_of self.old connection) ≡ true }
        ensures ok { OnOk result (rows.activate self.old connection role.now ≡ Ok self.new) }
        ensures refused { IfErr result (IsFaultOf (rows.activate self.old connection role.now)) }
        ensures err { OnErr result (self.new ≡ self.old) }
    {
        self.activation_begins(connection, role)?;
        let active = self.with_active_role(connection, role)?;
        if let Some(name) = self.broken_by_active(&active) {
            return Err(PolicyFault::Refused(Refusal::Dsd(name.copy()?)));
        }
        self.sessions.insert(connection, active)?;
        Ok(())
    }

    /// The tests of a role that is to be activated, without that of the sets.
    fn activation_begins(&self, connection: u32, role: &Name) -> Result<(), PolicyFault>
        requires { is_some (session_of self.now connection) ≡ true }
        ensures authorized { OnOk result (contains_name (authorized self.now (user_of self.now connection)) role.now ≡ true) }
        ensures new { OnOk result (contains_name (active_roles self.now connection) role.now ≡ false) }
        ensures refused { IfErr result (IsFaultOf (rows.activate self.now connection role.now)) }
    {
        if !self.may_activate(connection, role) {
            return Err(PolicyFault::Refused(Refusal::NotAuthorized(role.copy()?)));
        }
        if self.is_active(connection, role) {
            return Err(PolicyFault::Refused(Refusal::Known));
        }
        Ok(())
    }

    /// Makes an active role of the connection's session inactive (DropActiveRole).
    ///
    /// # Errors
    /// `Unknown` if the role isn't active; or `Memory`. Then the policy is unchanged.
    pub fn drop_role(&mut self, connection: u32, role: &Name) -> Result<(), PolicyFault>
        ensures ok { OnOk result (rows.drop_role self.old connection role.now ≡ Ok self.new) }
        ensures refused { IfErr result (IsFaultOf (rows.drop_role self.old connection role.now)) }
        ensures err { OnErr result (self.new ≡ self.old) }
    {
        if !self.is_active(connection, role) {
            return Err(PolicyFault::Refused(Refusal::Unknown));
        }
        let active = self.without_active_role(connection, role)?;
        self.sessions.insert(connection, active)?;
        Ok(())
    }

    /// What `whoami` shows of the connection's session.
    ///
    /// # Errors
    /// Out of memory.
    pub fn whoami(&self, connection: u32) -> Result<Identity, AllocError>
        requires session { is_some (session_of self.now connection) ≡ true }
        ensures { IfOk result (λ identity. identity ≡ rows.whoami self.now connection) }
    {
        match self.session(connection) {
            Some(session) => self.identity(session),
            None => unreachable!(),
        }
    }

    /// What `whoami` shows of a session.
    fn identity(&self, session: &Session) -> Result<Identity, AllocError>
        ensures { IfOk result (λ identity. identity ≡ identity_of self.now session.now) }
    {
        let user = session.user.copy()?;
        let active = sorted(session.active.copy()?)?;
        let authorized = self.authorized_by_name(&session.user)?;
        Ok(Identity {
            user,
            active,
            authorized,
        })
    }

    /// Whether the connection has a session.
    pub fn has_session(&self, connection: u32) -> bool
        ensures { result ≡ is_some (session_of self.now connection) }
    {
        self.session(connection).is_some()
    }

    /// Whether the user exists and has this digest.
    fn is_login(&self, user: &Name, digest: &Digest) -> bool
        ensures { result ≡ is_login self.now user.now digest.now }
    {
        match self.user(user) {
            Some(found) => found.digest == *digest,
            None => false,
        }
    }

    /// Whether the user of the connection's session is authorized for the role.
    fn may_activate(&self, connection: u32, role: &Name) -> bool
        requires { is_some (session_of self.now connection) ≡ true }
        ensures { result ≡ contains_name (authorized self.now (user_of self.now connection)) role.now }
    {
        match self.session(connection) {
            Some(session) => self.below_authorized(&session.user).contains(role),
            None => false,
        }
    }

    /// Whether the role is active in the connection's session.
    fn is_active(&self, connection: u32, role: &Name) -> bool
        ensures { result ≡ contains_name (active_roles self.now connection) role.now }
    {
        match self.session(connection) {
            Some(session) => session.active.contains(role),
            None => false,
        }
    }

    /// The connection's session with one more active role. Its juniors act too.
    fn with_active_role(&self, connection: u32, role: &Name) -> Result<Active, AllocError>
        requires { is_some (session_of self.now connection) ≡ true }
        ensures acting { IfOk result (λ next. IsBelow self.now.roles next.session.active next.acting) }
        ensures session { IfOk result (λ next. next.session ≡ record { user = user_of self.now connection; active = active_roles self.now connection ++ role.now ∷ [] }) }
    {
        let Some(session) = self.session(connection) else {
            return Err(AllocError);
        };
        let added = role.copy()?;
        let mut active = session.active.copy()?;
        active.push(added)?;
        let user = session.user.copy()?;
        let mut acting = self.sessions.acting(connection);
        acting.add(&self.permissions.roles().mask(role));
        Ok(Active {
            session: Session { user, active },
            acting,
        })
    }

    /// The connection's session with one active role fewer.
    fn without_active_role(&self, connection: u32, role: &Name) -> Result<Active, AllocError>
        requires { is_some (session_of self.now connection) ≡ true }
        ensures acting { IfOk result (λ next. IsBelow self.now.roles next.session.active next.acting) }
        ensures session { IfOk result (λ next. next.session ≡ record { user = user_of self.now connection; active = without_name (active_roles self.now connection) role.now }) }
    {
        let Some(session) = self.session(connection) else {
            return Err(AllocError);
        };
        let user = session.user.copy()?;
        let mut active = session.active.copy()?;
        active.remove(role);
        Ok(Active::new(self.permissions.roles(), Session { user, active }))
    }

    /// The first name, in alphabetical order, of a dynamic set that the acting roles of a session break.
    fn broken_by_active(&self, active: &Active) -> Option<&Name>
        ensures { IsBelow self.now.roles active.now.session.active active.now.acting → option_copied result ≡ least_broken self.now.roles self.now.dsd (active.now.session.active ∷ []) }
    {
        self.permissions.roles().is_hierarchy();
        self.sets.first_broken(Kind::Dynamic, &active.acting)
    }

    /// The roles that a user is authorized for. Cost: a look-up.
    fn below_authorized(&self, user: &Name) -> Below<'_>
        ensures { result ≡ authorized self.now user.now }
    {
        let authorized = self.users.authorized_places(user);
        self.permissions.roles().at_places(&authorized)
    }

    /// The roles that a user is authorized for, in alphabetical order.
    fn authorized_by_name(&self, user: &Name) -> Result<Names, AllocError>
        ensures { IfOk result (λ names. names ≡ by_name (authorized self.now user.now)) }
    {
        let below = self.below_authorized(user);
        let names = below.names(self.sessions.allocator())?;
        sorted(names)
    }
}
