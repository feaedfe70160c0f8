//! Which objects a session may access by one operation. Its acting roles are looked up once, for many objects.
ghost use Rattle.std.specs.Prelude.{◌≡◌, ℕ, List};
ghost use Rattle.std.specs.List.{list_any};
ghost use Rattle.mpw_roles.specs.Mask.{has};
ghost use Rattle.mpw_roles.specs.Order.{roles_below};
ghost use Rattle.mpw_roles.specs.Places.{is_place_below};
ghost use Rattle.mpw_rbac.specs.Policy.{permits};
ghost use Rattle.mpw_permissions.specs.Grant.{is_granted_to};

use crate::Policy;
use mpw_permissions::{Object, Operation};
use mpw_roles::Mask;
use std::marker::Model;

/// The access of a connection's session by one operation under one policy. Making it takes no memory, and costs a search of the sessions.
/// Each object then costs a look-up.
#[derive(Drop)]
pub struct Access<'a> {
    policy: &'a Policy,
    connection: u32,
    operation: Operation,
    acting: Mask,
}

impl<'a> Model for Access<'a> {
    ghost use Rattle.std.specs.Prelude.{◌≡◌, ℕ};
    ghost use Rattle.mpw_roles.specs.Mask.{has};
    ghost use Rattle.mpw_roles.specs.Places.{is_place_below};
    ghost use Rattle.mpw_rbac.specs.Access.{Access as AccessState};
    ghost use Rattle.mpw_rbac.specs.Rows.{active_roles};

    ghost Value = { AccessState };

    ghost view = { λ a. record { policy = a.policy.now; connection = a.connection; operation = a.operation } };

    ghost invariant = { λ a. (place : ℕ) → has a.acting place ≡ is_place_below a.policy.now.roles (active_roles a.policy.now a.connection) place };
}

impl Access<'_> {
    /// Whether the session may do the operation on the object. The answer is that of [`Policy::permits`]. It takes no memory.
    pub fn permits(&self, object: &Object) -> bool
        ensures { result ≡ permits self.now.policy self.now.connection self.now.operation object.now }
    {
        self.policy
            .is_granted_to(&self.acting, self.operation, object)
    }
}

impl Policy {
    /// What the connection's session may do by one operation, for questions about many objects. A connection without a session may do
    /// nothing. It takes no memory.
    pub fn access(&self, connection: u32, operation: Operation) -> Access<'_>
        ensures { result ≡ record { policy = self.now; connection = connection; operation = operation } }
    {
        Access {
            policy: self,
            connection,
            operation,
            acting: self.sessions.acting(connection),
        }
    }

    /// Whether a role of a mask has a grant of the operation on the object.
    fn is_granted_to(&self, roles: &Mask, operation: Operation, object: &Object) -> bool
        ensures { (seniors : List (List ℕ)) → ((place : ℕ) → has roles.now place ≡ is_place_below self.now.roles seniors place) → result ≡ list_any (is_granted_to (roles_below self.now.roles seniors) operation object.now) self.now.granted }
    {
        self.permissions.is_granted_to(roles, operation, object)
    }
}
