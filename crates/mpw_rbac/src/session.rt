//! Users and sessions, as the policy's tables store them.
use mpw_geom::{Name, Names};

/// The SHA-256 of a token.
pub type Digest = [u8; 32];

/// A user's digest, and the roles assigned to the user (UA), in the order of the assignments.
pub struct User {
    /// The SHA-256 of the user's token, which opens sessions (FIPS 180-4).
    pub digest: Digest,
    /// The assigned roles. The user is authorized for those at or below them.
    pub roles: Names,
}

impl Drop for User {
    fn drop(self) {
        let User { digest: _, roles } = self;
        drop(roles);
    }
}

/// A session of one user, with its active roles in the order of their activation.
#[derive(Clone)]
pub struct Session {
    /// Who opened it.
    pub user: Name,
    /// The active roles. Those at or below them act. The user is authorized for each active role.
    pub active: Names,
}

impl Drop for Session {
    fn drop(self) {
        let Session { user, active } = self;
        drop(user);
        drop(active);
    }
}

/// What `whoami` shows of a session: its user, and the active and the authorized roles, each in alphabetical order.
#[derive(Drop)]
pub struct Identity {
    /// The session's user.
    pub user: Name,
    /// The session's active roles, without their juniors.
    pub active: Names,
    /// The roles at or below one that is assigned to the user.
    pub authorized: Names,
}
