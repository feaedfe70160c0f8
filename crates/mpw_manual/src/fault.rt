//! Why nothing is printed.
ghost use Rattle.std.specs.Prelude.{◌≡◌};
ghost use Rattle.mpw_manual.specs.Status.{exit_of, status_of};
ghost use Rattle.mpw_manual.specs.declared.fault.HelpFault.TheVariants.{Memory};

use std::alloc::AllocError;
use thiserror::Error;

/// Why nothing is printed.
#[derive(Debug, Drop, Error)]
pub enum HelpFault {
    /// The command line is wrong.
    #[error("error: mpw help takes a request, a code or a line that the desk tells, or nothing")]
    Usage,
    /// Nothing has that word.
    #[error("error: no request, denial, code or command is '{0}'; mpw help lists them")]
    Unknown(String),
    /// The output failed.
    #[error("error: the standard output failed")]
    Output,
    /// Memory ran out.
    #[error("error: out of memory")]
    Memory,
}

impl HelpFault {
    /// The exit status: 2 for usage and an unknown word, 3 for the output, 5 for memory.
    pub fn status(&self) -> u8
        ensures { result ≡ status_of self.now }
    {
        match self {
            HelpFault::Usage | HelpFault::Unknown(_) => 2,
            HelpFault::Output => 3,
            HelpFault::Memory => 5,
        }
    }
}

/// The exit status: 0 if the help was printed, else the fault's.
pub fn exit_status(ended: &Result<(), HelpFault>) -> u8
    ensures { result ≡ exit_of ended.now }
{
    match ended {
        Ok(()) => 0,
        Err(fault) => fault.status(),
    }
}

impl From<AllocError> for HelpFault {
    ghost from_gives = { λ _ fault. fault ≡ Memory };

    fn from(_error: AllocError) -> HelpFault {
        HelpFault::Memory
    }
}
