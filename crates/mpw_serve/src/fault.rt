//! Why the program ends early.
ghost use Rattle.std.specs.Prelude.{◌≡◌};
ghost use Rattle.mpw_serve.specs.declared.fault.ProgramFault.TheVariants.{Usage, Wire, Memory};
ghost use Rattle.mpw_serve.specs.Status.{exit_of, fault_by, status_of};

use crate::serve::End;
use mpw_settings::SettingsFault;
use mpw_wire::WireFault;
use std::alloc::AllocError;
use thiserror::Error;

/// The fault that ended the program before its connection ended.
#[derive(Debug, Drop, Error)]
pub enum ProgramFault {
    /// The command line is wrong. The text says what is wrong and what is accepted.
    #[error("{0}")]
    Usage(String),
    /// A device failed.
    #[error("error: {0}")]
    Wire(WireFault),
    /// Memory ran out outside of a request.
    #[error("error: out of memory")]
    Memory,
}

impl ProgramFault {
    /// The exit status: 2 for usage, 3 for a device, 5 for out of memory.
    pub fn status(&self) -> u8
        ensures { result ≡ status_of self.now }
    {
        match self {
            ProgramFault::Usage(_) => 2,
            ProgramFault::Wire(WireFault::Memory) | ProgramFault::Memory => 5,
            ProgramFault::Wire(WireFault::Read | WireFault::Write) => 3,
        }
    }
}

/// The exit status of the program: 0 if the connection ended, else the status of the fault.
pub fn exit_status(ended: &Result<End, ProgramFault>) -> u8
    ensures { result ≡ exit_of ended.now }
{
    match ended {
        Ok(_) => 0,
        Err(fault) => fault.status(),
    }
}

impl From<AllocError> for ProgramFault {
    ghost from_gives = { λ _ fault. fault ≡ Memory };

    fn from(_error: AllocError) -> ProgramFault {
        ProgramFault::Memory
    }
}

impl From<SettingsFault> for ProgramFault {
    ghost from_gives = { λ settings fault. fault ≡ fault_by settings };

    fn from(fault: SettingsFault) -> ProgramFault {
        match fault {
            SettingsFault::Usage(text) => ProgramFault::Usage(text),
            SettingsFault::Memory => ProgramFault::Memory,
        }
    }
}
