//! Why a command on the hierarchy is refused.

ghost use Rattle.std.specs.Prelude.{◌≡◌};
ghost use Rattle.mpw_roles.specs.declared.fault.RolesFault.TheVariants.{Memory};

use std::alloc::AllocError;
use std::error::Error;
use std::fmt;

/// Why a command on the hierarchy was refused.
#[derive(Clone, Copy)]
pub enum RolesFault {
    /// A name isn't a role (DeleteRole, AddInheritance).
    NoRole,
    /// The role exists already (AddRole), or the two are an immediate pair (AddInheritance).
    Known,
    /// The junior is at least the senior, so the pair would close a cycle (AddInheritance).
    Cycle,
    /// The two are no immediate pair (DeleteInheritance).
    NoPair,
    /// There are 512 roles (AddRole).
    Full,
    /// Memory ran out. The roles are unchanged.
    Memory,
}

impl RolesFault {
    /// The text of the fault.
    fn words(self) -> &'static str {
        match self {
            RolesFault::NoRole => "no such role",
            RolesFault::Known => "the role or the pair is known",
            RolesFault::Cycle => "the pair would close a cycle",
            RolesFault::NoPair => "no such immediate pair",
            RolesFault::Full => "there are 512 roles already",
            RolesFault::Memory => "out of memory",
        }
    }
}

impl fmt::Display for RolesFault {
    fn fmt<W: fmt::Write>(&self, f: &mut fmt::Formatter<W>) -> fmt::Result {
        f.write_str(self.words())
    }
}

impl fmt::Debug for RolesFault {
    fn fmt<W: fmt::Write>(&self, f: &mut fmt::Formatter<W>) -> fmt::Result {
        f.write_str(self.words())
    }
}

impl Error for RolesFault {}

impl From<AllocError> for RolesFault {
    ghost from_gives = { λ _ fault. fault ≡ Memory };

    fn from(_error: AllocError) -> RolesFault {
        RolesFault::Memory
    }
}
