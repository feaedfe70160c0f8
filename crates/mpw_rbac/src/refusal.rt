//! Why the policy refuses a request.
ghost use Rattle.std.specs.Prelude.{◌≡◌};
ghost use Rattle.mpw_rbac.specs.declared.refusal.PolicyFault.TheVariants.{Memory};
ghost use Rattle.mpw_rbac.specs.Fault.{fault_of_roles, fault_of_sets};

use mpw_geom::Name;
use mpw_roles::RolesFault;
use mpw_separation::SetsFault;
use std::alloc::AllocError;
use std::error::Error;
use std::fmt;

/// What the written policy answers instead of a change.
#[derive(Drop)]
pub enum Refusal {
    /// The connection has a session already.
    Opened,
    /// There is no such user, or the token is wrong.
    Login,
    /// The name is no role, or none that the user is authorized for.
    NotAuthorized(Name),
    /// A static separation set would be broken. The name is the first in alphabetical order.
    Ssd(Name),
    /// A dynamic separation set would be broken. The name is the first in alphabetical order.
    Dsd(Name),
    /// The named item doesn't exist.
    Unknown,
    /// The pair would close a cycle.
    Loop,
    /// The item to be added exists already.
    Known,
    /// The role is in a separation set.
    Used,
    /// A table is at its limit.
    Full,
}

/// Why a call changed nothing.
#[derive(Drop)]
pub enum PolicyFault {
    /// The first test of the request's decision table that fails.
    Refused(Refusal),
    /// Memory ran out. The policy is unchanged.
    Memory,
}

impl fmt::Display for PolicyFault {
    fn fmt<W: fmt::Write>(&self, f: &mut fmt::Formatter<W>) -> fmt::Result {
        match self {
            PolicyFault::Refused(_) => f.write_str("the policy refuses it"),
            PolicyFault::Memory => f.write_str("out of memory"),
        }
    }
}

impl Error for PolicyFault {}

impl fmt::Debug for PolicyFault {
    fn fmt<W: fmt::Write>(&self, f: &mut fmt::Formatter<W>) -> fmt::Result {
        match self {
            PolicyFault::Refused(_) => f.write_str("Refused"),
            PolicyFault::Memory => f.write_str("Memory"),
        }
    }
}

impl From<AllocError> for PolicyFault {
    ghost from_gives = { λ _ fault. fault ≡ Memory };

    fn from(_error: AllocError) -> PolicyFault {
        PolicyFault::Memory
    }
}

impl From<RolesFault> for PolicyFault {
    ghost from_gives = { λ fault result. result ≡ fault_of_roles fault };

    fn from(fault: RolesFault) -> PolicyFault {
        match fault {
            RolesFault::NoRole | RolesFault::NoPair => PolicyFault::Refused(Refusal::Unknown),
            RolesFault::Known => PolicyFault::Refused(Refusal::Known),
            RolesFault::Cycle => PolicyFault::Refused(Refusal::Loop),
            RolesFault::Full => PolicyFault::Refused(Refusal::Full),
            RolesFault::Memory => PolicyFault::Memory,
        }
    }
}

impl From<SetsFault> for PolicyFault {
    ghost from_gives = { λ fault result. result ≡ fault_of_sets fault };

    fn from(fault: SetsFault) -> PolicyFault {
        match fault {
            SetsFault::Known => PolicyFault::Refused(Refusal::Known),
            SetsFault::Unknown => PolicyFault::Refused(Refusal::Unknown),
            SetsFault::Full => PolicyFault::Refused(Refusal::Full),
            SetsFault::Memory => PolicyFault::Memory,
        }
    }
}
