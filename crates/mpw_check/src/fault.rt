//! The reasons why a library's top isn't checked.

ghost use Rattle.std.specs.Prelude.{◌≡◌};
ghost use Rattle.mpw_check.specs.Drawn.{told};
ghost use Rattle.mpw_check.specs.declared.fault.CheckFault.TheVariants.{Memory};

use mpw_geom::Names;
use mpw_hier::HierFault;
use mpw_records::ReadFault;
use std::alloc::AllocError;

/// Why a library's top isn't checked.
#[derive(Drop)]
pub enum CheckFault {
    /// Out of memory.
    Memory,
    /// The text is not a valid library: its first fault.
    Library(ReadFault),
    /// The top reaches names outside the library: these, in order, each once.
    Outside(Names),
    /// There is no top, one of its structures contains itself, or they exceed a limit.
    Structure(HierFault),
}

impl From<HierFault> for CheckFault {
    ghost from_gives = { λ fault e. e ≡ told fault };

    fn from(fault: HierFault) -> CheckFault {
        match fault {
            HierFault::Memory => CheckFault::Memory,
            fault => CheckFault::Structure(fault),
        }
    }
}

impl From<AllocError> for CheckFault {
    ghost from_gives = { λ _ e. e ≡ Memory };

    fn from(_error: AllocError) -> CheckFault {
        CheckFault::Memory
    }
}
